// A file read entry by entry, each block checked before its entries.
ghost use Rattle.std.specs.Prelude.{◌≡◌, ◌+◌, ◌*◌, ◌/◌, ◌^◌, ◌<◌, ◌≤◌, IfOk, drop, length, slice_get};
ghost use Rattle.event_file.specs.Blocks.{part_of};
ghost use Rattle.event_file.specs.Entries.{shown_answer};
ghost use Rattle.event_file.specs.Reading.{LabelIs, blank_before, entry_told, placed, shown_entry, shown_step};
ghost use Rattle.event_file.specs.Positions.{check_at, places};
ghost use Rattle.event_file.specs.Laws.{SameEntries};

use crate::block::{BLOCK_BYTES, BLOCK_ENTRIES, blocks_in, check_block};
use crate::entry::{ENTRY_BYTES, is_blank, read_entry};
use crate::event::{Entry, FileEvent};
use crate::fault::{Fault, Place};
use refusal::Refusal;

/// A file, and what is left of it to read. It lends the labels of its events from the file's own bytes.
#[derive(Clone, Copy)]
pub struct Reader<'a> {
    bytes: &'a [u8],
    // How many of its entries are passed.
    position: usize,
    ghost within: { position ≤ places bytes.now },
}

// A part of some bytes that are cut into parts of one size, counted from 0.
fn part_at<const SIZE: usize>(bytes: &[u8], number: usize) -> &[u8; SIZE]
    requires { (0 < SIZE) × (number < length bytes.now / SIZE) }
    ensures value { result.now ≡ part_of SIZE bytes.now number }
{
    &bytes.as_chunks().0[number]
}

// Whether a blank stands before an entry in its block.
fn blank_before(block: &[u8; BLOCK_BYTES], place: usize) -> bool
    requires { place < 17 }
    ensures value { result ≡ blank_before block.now place }
{
    (0..place).any(|earlier| is_blank(part_at::<ENTRY_BYTES>(block, earlier)))
}

// What an entry of a block tells.
fn told_in(block: &[u8; BLOCK_BYTES], place: usize) -> Result<Option<FileEvent<'_>>, Refusal>
    requires { place < 17 }
    ensures answer { shown_answer result ≡ entry_told block.now place }
{
    read_entry(
        part_at::<ENTRY_BYTES>(block, place),
        blank_before(block, place),
    )
}

// The check of a block, made before its first entry and not again.
fn check_at(block: &[u8], place: usize) -> Result<(), Refusal>
    ensures answer { result ≡ check_at block.now place }
{
    if place == 0 {
        check_block(block)
    } else {
        Ok(())
    }
}

// What an entry of a block tells, with its place in the file.
fn entry_in(block: &[u8; BLOCK_BYTES], number: usize, place: usize) -> Result<Entry<'_>, Fault>
    requires { (place < 17) × (number < 2 ^ 60) }
    ensures answer { let told = entry_told block.now place in
        shown_entry result ≡ placed (number + 1) (place + 1) told }
{
    let (block_number, entry) = (number + 1, place + 1);
    told_in(block, place)
        .map(|event| Entry {
            block: block_number,
            entry,
            event,
        })
        .map_err(|refusal| Fault {
            refusal,
            place: Place::Entry {
                block: block_number,
                entry,
            },
        })
}

impl<'a> Reader<'a> {
    ghost use Rattle.event_file.specs.Readers.{IsOf, Opened, SameBytes, unread};

    /// Opens a file at its first entry, or refuses it as a whole for its length (19).
    pub fn open(bytes: &'a [u8]) -> Result<Reader<'a>, Fault>
        ensures answer { Opened bytes.now result }
        ensures lent { IfOk result (IsOf bytes.entry) }
    {
        blocks_in(bytes.len()).map_err(|refusal| Fault {
            refusal,
            place: Place::File,
        })?;
        Ok(Reader { bytes, position: 0 })
    }

    /// The next entry, if there is one. An entry is refused by 21, 22 or 23, and the reading goes on after it; a block
    /// that fails its check is refused as a whole (20) and ends the reading.
    pub fn next_entry(&mut self) -> Result<Option<Entry<'a>>, Fault>
        ensures answer { shown_step result ≡ slice_get (unread self.old).left 0 }
        ensures left { (unread self.new).left ≡ drop 1 (unread self.old).left }
        ensures kept { (unread self.new).file ≡ (unread self.old).file }
        ensures same { SameBytes self.old self.new }
        ensures label { LabelIs (unread self.old).file (shown_step result) }
        ensures entries { SameEntries }
    {
        let end = self.bytes.len() / BLOCK_BYTES * BLOCK_ENTRIES;
        if self.position >= end {
            return Ok(None);
        }
        let (number, place) = (self.position / BLOCK_ENTRIES, self.position % BLOCK_ENTRIES);
        let block = part_at::<BLOCK_BYTES>(self.bytes, number);
        if let Err(refusal) = check_at(block, place) {
            self.position = end;
            return Err(Fault {
                refusal,
                place: Place::Block(number + 1),
            });
        }
        self.position += 1;
        entry_in(block, number, place).map(Some)
    }
}

/// The entries and the refusals that are left, one after another. `next_entry` stays beside it, for readers that go on by
/// `?`.
impl<'a> Iterator for Reader<'a> {
    type Item = Result<Entry<'a>, Fault>;

    ghost use Rattle.event_file.specs.Readers.{Gives, turns_left};

    ghost next_gives = { Gives };

    ghost remaining = { turns_left };

    fn next(&mut self) -> Option<Result<Entry<'a>, Fault>> {
        self.next_entry().transpose()
    }
}
