// States the accounts of a zone: an event file on standard input, its statement on standard output.
#![tactic(auto)]

use event_file::input::file_bytes;
use statements::network::network_statement;
use std::io::Write;
use std::process::ExitCode;
use streams::ending::ended;
use streams::failure::Failure;

// The statement is written whole, once it is known.
fn state(rt: &HostRuntime) -> Result<(), Failure> {
    let bytes = file_bytes(rt.alloc(), rt.stdin()).map_err(Failure::input)?;
    let text = network_statement(rt.alloc(), bytes.as_slice())?;
    rt.stdout()
        .write_all(text.as_bytes())
        .map_err(Failure::output)
}

fn main(rt: HostRuntime) -> ExitCode {
    ended(&rt, state(&rt))
}
