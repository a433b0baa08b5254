// States event files that are damaged or at a limit: the name of each, and its statement.
#![tactic(auto)]

use event_file::input::file_bytes;
use statements::network::network_statement;
use std::fs::File;
use std::io::Write;
use std::process::ExitCode;
use std::{env, io};
use streams::ending::ended;
use streams::failure::Failure;
use streams::pieces::written_in_pieces;

// The bytes of the file of this name.
fn named_file(rt: &HostRuntime, name: &String) -> io::Result<Vec<u8>> {
    file_bytes(rt.alloc(), File::open(rt, name)?)
}

fn state_each(rt: &HostRuntime) -> Result<(), Failure> {
    let mut output = written_in_pieces(rt.alloc(), rt.stdout())?;
    for name in env::args(rt).map_err(Failure::arguments)?.skip(1) {
        let bytes = match named_file(rt, &name) {
            Ok(bytes) => bytes,
            Err(error) => return Err(Failure::file(name, error)),
        };
        let text = network_statement(rt.alloc(), bytes.as_slice())?;
        write!(output, "{name}\n{text}").map_err(Failure::output)?;
    }
    output.flush().map_err(Failure::output)
}

fn main(rt: HostRuntime) -> ExitCode {
    ended(&rt, state_each(&rt))
}
