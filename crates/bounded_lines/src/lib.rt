// Lines of an input, none of which takes more memory than the longest line and one byte.
#![tactic(auto)]

ghost use Rattle.std.specs.Prelude.{◌≡◌, ◌≤◌, ◌+◌, IfOk, OnOk, IfSome, vec_items, vec_len};
ghost use Rattle.std.specs.Option.{option_map};
ghost use Rattle.std.specs.Io.BufRead.{DropsThrough};
ghost use Rattle.bounded_lines.specs.Lines.{longest_line, line_feed, line_read};
ghost use Rattle.bounded_lines.specs.Pieces.{IsTaken};
ghost use Rattle.bounded_lines.specs.declared.Taken.TheVariants.{Line};

use memchr::memchr;
use std::alloc::Global;
use std::io;
use std::io::{BufRead, ErrorKind};

/// The most bytes of a line, its line feed not counted.
pub const LONGEST_LINE: usize = 4_096;

/// The next line of an input without its line feed, or none at the end. A line that is too long is read to its end, and as
/// much of it is handed out as shows that it is: one byte more than the longest line has. The last line may have no line
/// feed. After an error what was read of the line is lost. An input is at its end where `fill_buf` gives nothing, as it is to
/// the library's own functions.
pub fn next_line<B: BufRead>(heap: Global, input: &mut B) -> io::Result<Option<Vec<u8>>>
    ensures line { IfOk result (λ found. IfSome (B.remaining input.old)
        (λ given. option_map vec_items found ≡ line_read given)) }
    ensures rest { OnOk result
        (DropsThrough (B.remaining input.old) (B.remaining input.new) line_feed) }
    // Also of an input whose bytes are not known before they are read.
    ensures bounded { IfOk result (λ found. IfSome found
        (λ line. vec_len line ≤ longest_line + 1)) }
{
    let mut line = Vec::new(heap);
    for _ in 0..u64::MAX {
        match take_piece(input, &mut line)? {
            Taken::Line => return Ok(Some(line)),
            Taken::End if line.is_empty() => return Ok(None),
            Taken::End => return Ok(Some(line)),
            Taken::Part if line.len() > LONGEST_LINE => {
                input.skip_until(b'\n')?;
                return Ok(Some(line));
            }
            Taken::Part => {}
        }
    }
    Err(ErrorKind::Interrupted.into())
}

// What was taken of a line from a piece of its input.
#[derive(Clone, Copy)]
enum Taken {
    // All that was left of it, and its line feed.
    Line,
    // Some of it, or nothing where a signal interrupted the read.
    Part,
    // Nothing, since the input is at its end.
    End,
}

// Adds to a line what the piece in memory has of it, as far as shows that it is too long, and takes that from the input.
fn take_piece<B: BufRead>(input: &mut B, line: &mut Vec<u8>) -> io::Result<Taken>
    requires short { vec_len line.old ≤ longest_line }
    ensures taken { IfOk result
        (IsTaken (B.remaining input.old) (B.remaining input.new) line.old.items line.new.items) }
    ensures whole { IfOk result (λ taken. taken ≡ Line → vec_len line.new ≤ longest_line) }
    ensures bounded { OnOk result (vec_len line.new ≤ longest_line + 1) }
{
    let piece = match input.fill_buf() {
        Ok(piece) => piece,
        Err(error) if error.kind() == ErrorKind::Interrupted => return Ok(Taken::Part),
        Err(error) => return Err(error),
    };
    if piece.is_empty() {
        return Ok(Taken::End);
    }
    let reach = piece.len().min(LONGEST_LINE + 1 - line.len());
    let front = &piece[..reach];
    if let Some(end) = memchr(b'\n', front) {
        line.extend_from_slice(&front[..end])?;
        input.consume(end + 1);
        return Ok(Taken::Line);
    }
    line.extend_from_slice(front)?;
    input.consume(reach);
    Ok(Taken::Part)
}

#[cfg(test)]
mod tests {
    use super::*;
    use std::io::{BufReader, Error, Read};
    use std::test::Fail;

    // An input that gives a byte at a time, is interrupted before each, and fails at its end if it is to.
    #[derive(Drop)]
    struct Slow<'a> {
        bytes: &'a [u8],
        interrupted: bool,
        fails: bool,
    }

    impl<'a> Read for Slow<'a> {
        fn read(&mut self, buf: &mut [u8]) -> io::Result<usize> {
            self.interrupted = !self.interrupted;
            if self.interrupted {
                return Err(Error::from(ErrorKind::Interrupted));
            }
            if self.bytes.is_empty() && self.fails {
                return Err(Error::from(ErrorKind::Other));
            }
            let (Some((byte, rest)), Some(first)) = (self.bytes.split_first(), buf.first_mut())
            else {
                return Ok(0);
            };
            *first = *byte;
            self.bytes = rest;
            Ok(1)
        }
    }

    // Lines below the limit, of the limit, one over and several times over; the last is one over and has no line feed.
    #[test]
    fn long_lines_are_cut(rt: HostRuntime) -> Result<(), Fail> {
        let lengths = [
            (0, 0),
            (2, 2),
            (4_096, 4_096),
            (4_097, 4_097),
            (3, 3),
            (12_288, 4_097),
            (0, 0),
        ];
        let mut bytes = Vec::new(rt.alloc());
        for (length, _) in lengths {
            bytes.resize(bytes.len() + length, b'x')?;
            bytes.push(b'\n')?;
        }
        bytes.resize(bytes.len() + 4_097, b'x')?;
        let slow = Slow {
            bytes: bytes.as_slice(),
            interrupted: false,
            fails: false,
        };
        let mut input = BufReader::with_capacity(rt.alloc(), 64, slow)?;
        for (length, kept) in lengths {
            let line = next_line(rt.alloc(), &mut input)?.ok_or("a line")?;
            assert_eq!(&rt; line.len(), kept, "of {length} bytes");
        }
        let last = next_line(rt.alloc(), &mut input)?.ok_or("a last line")?;
        assert_eq!(&rt; last.len(), 4_097);
        assert!(&rt; next_line(rt.alloc(), &mut input)?.is_none());
        Ok(())
    }

    // The same of an input that is in memory, where a line is seen whole: of the limit and one over, before and after a
    // short one.
    #[test]
    fn long_lines_are_cut_in_memory(rt: HostRuntime) -> Result<(), Fail> {
        let lengths = [
            (4_096, 4_096),
            (3, 3),
            (4_097, 4_097),
            (0, 0),
            (12_288, 4_097),
            (1, 1),
        ];
        let mut bytes = Vec::new(rt.alloc());
        for (length, _) in lengths {
            bytes.resize(bytes.len() + length, b'x')?;
            bytes.push(b'\n')?;
        }
        let mut input = bytes.as_slice();
        for (length, kept) in lengths {
            let line = next_line(rt.alloc(), &mut input)?.ok_or("a line")?;
            assert_eq!(&rt; line.len(), kept, "of {length} bytes");
        }
        assert!(&rt; next_line(rt.alloc(), &mut input)?.is_none());
        Ok(())
    }

    // A failure in mid-line is no shorter line, also where the line is too long already.
    #[test]
    fn failures_are_told(rt: HostRuntime) -> Result<(), Fail> {
        let long = [b'x'; 5_000];
        for line in [b"link 2019".as_slice(), long.as_slice()] {
            let slow = Slow {
                bytes: line,
                interrupted: false,
                fails: true,
            };
            let mut input = BufReader::new(rt.alloc(), slow)?;
            assert!(&rt; next_line(rt.alloc(), &mut input).is_err());
        }
        Ok(())
    }

    // A line without its line feed is a line, and nothing is none.
    #[test]
    fn last_lines_count(rt: HostRuntime) -> Result<(), Fail> {
        let mut input = b"one\n\ntwo".as_slice();
        for line in [b"one".as_slice(), b"", b"two"] {
            let read = next_line(rt.alloc(), &mut input)?.ok_or("a line")?;
            assert_eq!(&rt; read.as_slice(), line);
        }
        assert!(&rt; next_line(rt.alloc(), &mut input)?.is_none());
        Ok(())
    }
}
