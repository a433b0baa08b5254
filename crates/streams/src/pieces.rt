// The pieces in which programs read and write.
ghost use Rattle.std.specs.Prelude.{◌≡◌, [], IfOk, IsOkUnless};
ghost use Rattle.std.specs.Io.Buffered.{reader_inner, reader_buffer, reader_capacity, writer_inner, writer_buffer, writer_capacity};

use crate::failure::Failure;
use std::alloc::Global;
use std::io::{BufReader, BufWriter, Read, Write};

/// The bytes of a piece.
pub const PIECE: usize = 65_536;

/// An input that is read in pieces.
pub fn read_in_pieces<R: Read + Drop>(heap: Global, input: R) -> Result<BufReader<R>, Failure>
    ensures inner { IfOk result (λ pieces. reader_inner pieces ≡ input) }
    ensures empty { IfOk result (λ pieces. reader_buffer pieces ≡ []) }
    ensures size { IfOk result (λ pieces. reader_capacity pieces ≡ PIECE) }
    ensures err { IsOkUnless result Failure.Memory }
{
    BufReader::with_capacity(heap, PIECE, input).map_err(Failure::input)
}

/// An output that is written in pieces. It is flushed at the end, or when a reader waits for what is written.
pub fn written_in_pieces<W: Write + Drop>(heap: Global, output: W) -> Result<BufWriter<W>, Failure>
    ensures inner { IfOk result (λ pieces. writer_inner pieces ≡ output) }
    ensures empty { IfOk result (λ pieces. writer_buffer pieces ≡ []) }
    ensures size { IfOk result (λ pieces. writer_capacity pieces ≡ PIECE) }
    ensures err { IsOkUnless result Failure.Memory }
{
    BufWriter::with_capacity(heap, PIECE, output).map_err(Failure::output)
}

#[cfg(test)]
mod tests {
    use super::*;
    use std::test::Fail;

    // What is written in pieces stands once it is flushed.
    #[test]
    fn pieces_are_whole(rt: HostRuntime) -> Result<(), Fail> {
        let mut text = Vec::new(rt.alloc());
        let mut input = read_in_pieces(rt.alloc(), b"one two".as_slice())?;
        input.read_to_end(&mut text)?;
        let mut output = written_in_pieces(rt.alloc(), Vec::new(rt.alloc()))?;
        output.write_all(text.as_slice())?;
        output.flush()?;
        assert_eq!(&rt; output.get_ref().as_slice(), b"one two".as_slice());
        Ok(())
    }
}
