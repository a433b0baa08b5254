// The plain numbers of a zone.
ghost use Rattle.std.specs.Prelude.{◌≤◌};
ghost use Rattle.book.specs.Limits.{most_operators, most_objects};

/// What share-outs have moved, in micro-euros, and how many credit lines they wrote.
#[derive(Clone, Copy, PartialEq, Eq, Debug)]
pub struct Totals {
    /// What events contributed.
    pub contributed: u64,
    /// What of it went to balances.
    pub credited: u64,
    /// What of it nobody was there to take.
    pub unshared: u64,
    /// How many credit lines were written.
    pub credit_lines: u64,
}

/// The zone's plain numbers: its last date if it has one, the entries that it counts from the start of the tables that its
/// calls are lent, and its totals.
#[derive(Clone, Copy, PartialEq, Eq, Debug)]
pub struct Figures {
    /// The day of the last accepted call with a date, yyyymmdd; a fresh zone has none.
    pub last: Option<u32>,
    /// How many entries of the roll count, at most 16.
    pub operators: usize,
    /// How many entries of the register count, at most 1,024.
    pub objects: usize,
    /// What share-outs have moved.
    pub totals: Totals,
}

// What a zone keeps in every state: its plain numbers, within what it can ever count.
#[derive(Clone, Copy)]
pub(crate) struct Core {
    pub(crate) figures: Figures,
    ghost few_operators: { figures.operators ≤ most_operators },
    ghost few_objects: { figures.objects ≤ most_objects },
}
