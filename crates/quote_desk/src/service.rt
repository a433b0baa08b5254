// Lines from an input, replies to an output.
use crate::desk::Desk;
use crate::reply::Reply;
use bounded_lines::next_line;
use std::alloc::Global;
use std::io::{BufRead, Read, Write};
use streams::failure::Failure;
use streams::pieces::{read_in_pieces, written_in_pieces};

/// Brings each line of an input to a desk, and writes its answers. Fails only where reading, writing or memory does, and
/// what was answered before is written then.
pub fn serve<R: Read + Drop, W: Write + Drop>(
    heap: Global,
    input: R,
    output: W,
) -> Result<(), Failure> {
    let mut desk = Desk::new(heap);
    let mut input = read_in_pieces(heap, input)?;
    let mut output = written_in_pieces(heap, output)?;
    for above in 0..usize::MAX {
        // Whoever waits for a reply before the next line gets it.
        if !input.buffer().contains(&b'\n') {
            output.flush().map_err(Failure::output)?;
        }
        let Some(line) = next_line(heap, &mut input).map_err(Failure::input)? else {
            break;
        };
        if let Some(answer) = desk.take(line.as_slice())? {
            let reply = Reply::below(above, answer);
            writeln!(output, "{reply}").map_err(Failure::output)?;
        }
    }
    output.flush().map_err(Failure::output)
}
