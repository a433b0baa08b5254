// Why something in a file is refused, and where it stands.
ghost use Rattle.std.specs.Prelude.{◌≡◌};
ghost use Rattle.event_file.specs.Places.{block_number, entry_number};

use refusal::Refusal;

/// What is refused: the whole file, a whole block, or an entry of a block. Blocks and entries count from 1.
#[derive(Clone, Copy, PartialEq, Eq, Debug)]
pub enum Place {
    /// The file as a whole.
    File,
    /// A block, by its number.
    Block(usize),
    /// An entry, by its block's number and its own in the block.
    Entry { block: usize, entry: usize },
}

impl Place {
    /// The number of the block, or 0 for a whole file, as a statement prints it.
    pub const fn block(self) -> usize
        ensures value { result ≡ block_number self }
    {
        match self {
            Place::File => 0,
            Place::Block(block) | Place::Entry { block, .. } => block,
        }
    }

    /// The number of the entry in its block, or 0 for a whole file or block, as a statement prints it.
    pub const fn entry(self) -> usize
        ensures value { result ≡ entry_number self }
    {
        match self {
            Place::File | Place::Block(_) => 0,
            Place::Entry { entry, .. } => entry,
        }
    }
}

/// A refusal, and where in a file it stands.
#[derive(Clone, Copy, PartialEq, Eq, Debug)]
pub struct Fault {
    /// Why: 19 of a file, 20 of a block, 21 to 23 of an entry.
    pub refusal: Refusal,
    /// Where.
    pub place: Place,
}
