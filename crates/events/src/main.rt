// Lists an event file from standard input, so that people can look into it.
#![tactic(auto)]

mod listing;

use event_file::input::file_bytes;
use event_file::reader::Reader;
use listing::ListingLine;
use std::io;
use std::io::Write;
use std::process::ExitCode;
use streams::ending::ended;
use streams::failure::Failure;
use streams::pieces::written_in_pieces;

// The lines of a file, to its end or the block that fails its check.
fn list<W: Write>(output: &mut W, bytes: &[u8]) -> io::Result<()> {
    let reader = match Reader::open(bytes) {
        Ok(reader) => reader,
        Err(fault) => {
            let line = ListingLine(Err(fault));
            return writeln!(output, "{line}");
        }
    };
    for entry in reader {
        let line = ListingLine(entry);
        writeln!(output, "{line}")?;
    }
    Ok(())
}

fn list_input(rt: &HostRuntime) -> Result<(), Failure> {
    let bytes = file_bytes(rt.alloc(), rt.stdin()).map_err(Failure::input)?;
    let mut output = written_in_pieces(rt.alloc(), rt.stdout())?;
    list(&mut output, bytes.as_slice()).map_err(Failure::output)?;
    output.flush().map_err(Failure::output)
}

fn main(rt: HostRuntime) -> ExitCode {
    ended(&rt, list_input(&rt))
}
