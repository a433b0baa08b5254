// The bytes of a file, read from an input.
ghost use Rattle.std.specs.Prelude.{◌≡◌, IfOk, IfSome, take};

use crate::block::MOST_BYTES;
use std::alloc::Global;
use std::io;
use std::io::Read;

// One byte more than the longest file: an input of so many bytes is too long, however it goes on.
const ROOM: u64 = MOST_BYTES as u64 + 1;

/// All that an input gives, or as much of it as shows that it is too long.
pub fn file_bytes<R: Read + Drop>(heap: Global, input: R) -> io::Result<Vec<u8>>
    ensures bytes { IfOk result (λ v.
        IfSome (R.remaining input) (λ given. v.items ≡ take 65537 given)) }
{
    let mut bytes = Vec::new(heap);
    input.take(ROOM).read_to_end(&mut bytes)?;
    Ok(bytes)
}
