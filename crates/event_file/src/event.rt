// What an entry tells. A label is a part of the block itself, lent and not copied.
ghost use Rattle.std.specs.Prelude.{◌≡◌};
ghost use Rattle.event_file.specs.Format.{label_of};
ghost use Rattle.event_file.specs.Entries.{shown_event};

/// What an event of a file tells: dates as YYYYMMDD, rates in tranches, labels of sixteen bytes.
#[derive(Clone, Copy, PartialEq, Eq, Debug)]
pub enum FileEvent<'a> {
    /// An operator joins at a rate.
    Commitment {
        date: u32,
        operator: u32,
        rate: u32,
        label: &'a [u8],
    },
    /// An operator goes up to a new rate.
    Raise {
        date: u32,
        operator: u32,
        rate: u32,
        label: &'a [u8],
    },
    /// A PM opens.
    Opening {
        date: u32,
        object: u32,
        dwellings: u32,
        label: &'a [u8],
    },
    /// A site is cabled, by a third party or not: a yes or no, as the form byte is.
    Cabling {
        date: u32,
        object: u32,
        dwellings: u32,
        third_party: bool,
        label: &'a [u8],
    },
    /// The zone is launched.
    Launch {
        date: u32,
        label: &'a [u8],
    },
}

impl<'a> FileEvent<'a> {
    /// The sixteen bytes that name the event to people.
    pub fn label(self) -> &'a [u8]
        ensures value { result.now ≡ label_of (shown_event self.entry) }
    {
        match self {
            FileEvent::Commitment { label, .. }
            | FileEvent::Raise { label, .. }
            | FileEvent::Opening { label, .. }
            | FileEvent::Cabling { label, .. }
            | FileEvent::Launch { label, .. } => label,
        }
    }
}

/// An entry with its block and its place in the block, both from 1. A blank tells of no event.
#[derive(Clone, Copy, PartialEq, Eq, Debug)]
pub struct Entry<'a> {
    /// The block's number.
    pub block: usize,
    /// The entry's number in its block.
    pub entry: usize,
    /// What it tells; a blank tells nothing.
    pub event: Option<FileEvent<'a>>,
}

/// An event with the block and the place in the block of the entry that tells it, both from 1.
#[derive(Clone, Copy, PartialEq, Eq, Debug)]
pub struct PlacedEvent<'a> {
    /// The block's number.
    pub block: usize,
    /// The entry's number in its block.
    pub entry: usize,
    /// What the entry tells.
    pub event: FileEvent<'a>,
}
