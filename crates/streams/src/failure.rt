// Why a program cannot go on.
ghost use Rattle.std.specs.Prelude.{◌≡◌, Some};
ghost use Rattle.std.specs.IoError.{error_kind};
ghost use Rattle.streams.specs.Failures.{failure_of, failure_text};
ghost use Rattle.streams.specs.declared.failure.Failure.TheVariants.{Memory};

use crate::cause::cause;
use std::alloc::{AllocError, AllocFailed};
use std::error::Error;
use std::io::ErrorKind;
use std::{fmt, io};

/// Why a program cannot go on. Its text is what the program says.
#[derive(Debug, Drop)]
pub enum Failure {
    /// The arguments cannot be read.
    Arguments(ErrorKind),
    /// The file that an argument names cannot be read.
    File(String, ErrorKind),
    /// The input cannot be read.
    Input(ErrorKind),
    /// The output cannot be written.
    Output(ErrorKind),
    /// There is not enough memory.
    Memory,
}

impl Failure {
    /// What came of reading the arguments.
    pub fn arguments(error: io::Error) -> Failure
        ensures value { result ≡ failure_of Failure.Arguments (error_kind error) }
    {
        match error.kind() {
            ErrorKind::OutOfMemory => Failure::Memory,
            kind => Failure::Arguments(kind),
        }
    }

    /// What came of opening or reading the file of this name.
    pub fn file(name: String, error: io::Error) -> Failure
        ensures value { result ≡ failure_of (λ kind. Failure.File name kind) (error_kind error) }
    {
        match error.kind() {
            ErrorKind::OutOfMemory => Failure::Memory,
            kind => Failure::File(name, kind),
        }
    }

    /// What came of reading the input.
    pub fn input(error: io::Error) -> Failure
        ensures value { result ≡ failure_of Failure.Input (error_kind error) }
    {
        match error.kind() {
            ErrorKind::OutOfMemory => Failure::Memory,
            kind => Failure::Input(kind),
        }
    }

    /// What came of writing the output.
    pub fn output(error: io::Error) -> Failure
        ensures value { result ≡ failure_of Failure.Output (error_kind error) }
    {
        match error.kind() {
            ErrorKind::OutOfMemory => Failure::Memory,
            kind => Failure::Output(kind),
        }
    }
}

impl From<AllocError> for Failure {
    ghost from_gives = { λ _ failure. failure ≡ Memory };

    fn from(_error: AllocError) -> Failure {
        Failure::Memory
    }
}

impl fmt::Display for Failure {
    ghost output = { λ failure. Some (failure_text failure) };

    fn fmt<W: fmt::Write>(&self, f: &mut fmt::Formatter<W>) -> fmt::Result {
        match self {
            Failure::Arguments(kind) => {
                let cause = cause(*kind);
                write!(f, "the arguments cannot be read: {cause}")
            }
            Failure::File(name, kind) => {
                let name = name.as_str();
                let cause = cause(*kind);
                write!(f, "the file {name} cannot be read: {cause}")
            }
            Failure::Input(kind) => {
                let cause = cause(*kind);
                write!(f, "the input cannot be read: {cause}")
            }
            Failure::Output(kind) => {
                let cause = cause(*kind);
                write!(f, "the output cannot be written: {cause}")
            }
            Failure::Memory => f.write_str("there is not enough memory"),
        }
    }
}

impl Error for Failure {}

#[cfg(test)]
mod tests {
    use super::*;
    use std::test::Fail;

    // The numbers are the system's. Want of memory is told as such, and a number that has no words as another reason.
    #[test]
    fn failures_say_why(rt: HostRuntime) -> Result<(), Fail> {
        let name = String::from_str(rt.alloc(), "zone")?;
        let told = [
            (
                Failure::input(io::Error::from_raw_os_error(21)),
                "the input cannot be read: is a directory",
            ),
            (
                Failure::output(io::Error::from_raw_os_error(28)),
                "the output cannot be written: no space left on device",
            ),
            (
                Failure::file(name, io::Error::from_raw_os_error(2)),
                "the file zone cannot be read: no such file or directory",
            ),
            (
                Failure::arguments(io::Error::from(ErrorKind::InvalidData)),
                "the arguments cannot be read: not UTF-8",
            ),
            (
                Failure::input(io::Error::from_raw_os_error(12)),
                "there is not enough memory",
            ),
            (Failure::from(AllocError), "there is not enough memory"),
            (
                Failure::input(io::Error::from_raw_os_error(9)),
                "the input cannot be read: the system gives another reason",
            ),
        ];
        for (failure, text) in told {
            let said = failure.to_string(rt.alloc())?;
            assert_eq!(&rt; said.as_str(), text);
        }
        Ok(())
    }
}
