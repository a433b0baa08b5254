// How a program ends.
ghost use Rattle.std.specs.Prelude.{◌≡◌, [], ◌∷◌, ◌++◌, OnOk, MatchResult};
ghost use Rattle.std.specs.Io.KnownBytes.{Appends};
ghost use Rattle.streams.specs.Failures.{failure_text};

use crate::failure::Failure;
use std::io;
use std::io::Write;
use std::process::ExitCode;

/// Tells a failure: its sentence and a line feed.
pub fn tell<W: Write>(output: &mut W, failure: &Failure) -> io::Result<()>
    ensures told { OnOk result (Appends (W.contents output.old) (W.contents output.new)
        (failure_text failure.now ++ 10 ∷ [])) }
{
    writeln!(output, "{failure}")
}

/// The status of a program that has run. If it failed, it tells why on standard error, as far as that takes it.
pub fn ended(rt: &HostRuntime, run: Result<(), Failure>) -> ExitCode
    ensures status { MatchResult run
        (λ _. result ≡ ExitCode.SUCCESS) (λ _. result ≡ ExitCode.FAILURE) }
{
    match run {
        Ok(()) => ExitCode::SUCCESS,
        Err(failure) => {
            let mut error = rt.stderr();
            let _ = tell(&mut error, &failure);
            ExitCode::FAILURE
        }
    }
}

#[cfg(test)]
mod tests {
    use super::*;
    use std::io::ErrorKind;
    use std::test::Fail;

    // A failure is told in one line.
    #[test]
    fn failures_are_told(rt: HostRuntime) -> Result<(), Fail> {
        let mut told = Vec::new(rt.alloc());
        tell(&mut told, &Failure::Memory)?;
        tell(&mut told, &Failure::Input(ErrorKind::IsADirectory))?;
        let lines = "there is not enough memory\nthe input cannot be read: is a directory\n";
        assert_eq!(&rt; told.as_slice(), lines.as_bytes());
        Ok(())
    }

    // The status says whether the run failed. What it tells on standard error is not seen here.
    #[test]
    fn failures_show(rt: HostRuntime) {
        assert_eq!(&rt; ended(&rt, Ok(())), ExitCode::SUCCESS);
        assert_eq!(&rt; ended(&rt, Err(Failure::Memory)), ExitCode::FAILURE);
    }
}
