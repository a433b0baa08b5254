// The blocks of a file: how long a file may be, and the check that every block carries.
ghost use Rattle.std.specs.Prelude.{◌≡◌, ◌+◌, ◌*◌, ◌%◌, ◌<◌, length};
ghost use Rattle.event_file.specs.Blocks.{file_blocks, check_of, written_check, passes as block_passes, block_check};
ghost use Rattle.event_file.specs.Laws.{ChangeIsFound};

use refusal::Refusal;

/// The bytes of a block: its entries and its check.
pub const BLOCK_BYTES: usize = 512;

/// The entries of a block.
pub const BLOCK_ENTRIES: usize = 17;

/// The bytes of the longest file: 128 blocks.
pub const MOST_BYTES: usize = 65536;

// The bytes of a block that its check covers.
const CHECKED_BYTES: usize = 510;

// The largest prime below 65,536.
const MODULUS: u32 = 65521;

/// How many blocks a file of a length in bytes has. It is refused (19) if it is no whole number of blocks or too long.
pub const fn blocks_in(length: usize) -> Result<usize, Refusal>
    ensures answer { result ≡ file_blocks length }
{
    if length % BLOCK_BYTES != 0 || length > MOST_BYTES {
        return Err(Refusal::BadFileLength);
    }
    Ok(length / BLOCK_BYTES)
}

// The remainder of a number with one more byte at its end, from the number's own remainder.
const fn with_byte(rest: u16, byte: u8) -> u16
    ensures value { result ≡ (rest * 256 + byte) % 65521 }
{
    ((rest as u32 * 256 + byte as u32) % MODULUS) as u16
}

/// The bytes as one number to base 256, first byte highest, modulo 65,521.
pub fn check_of(bytes: &[u8]) -> u16
    ensures value { result ≡ check_of bytes.now }
{
    bytes.iter().fold(0, |rest, byte| with_byte(rest, *byte))
}

// The check that a block carries, high byte first.
fn written_check(block: &[u8]) -> u16
    requires { length block.now ≡ 512 }
    ensures value { result ≡ written_check block.now }
{
    u16::from_be_bytes([block[CHECKED_BYTES], block[CHECKED_BYTES + 1]])
}

// Whether a block is whole and carries the check of its first 510 bytes.
fn passes(block: &[u8]) -> bool
    ensures value { result ≡ block_passes block.now }
{
    block.len() == BLOCK_BYTES && check_of(&block[0..CHECKED_BYTES]) == written_check(block)
}

/// Whether a block is whole and carries the check that its bytes call for; else it is refused (20).
pub fn check_block(block: &[u8]) -> Result<(), Refusal>
    ensures answer { result ≡ block_check block.now }
    ensures change { ChangeIsFound }
{
    if passes(block) {
        Ok(())
    } else {
        Err(Refusal::BadBlockCheck)
    }
}
