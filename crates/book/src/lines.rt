// The lines that calls write on a strip.
ghost use Rattle.std.specs.Prelude.{◌≡◌};
ghost use Rattle.book.specs.Lines.{nature_number};

/// What a line stands for.
#[derive(Clone, Copy, PartialEq, Eq, Debug)]
pub enum Nature {
    /// What an operator is billed for an object.
    Charge = 1,
    /// What of it goes to the earlier operators.
    Contribution = 2,
    /// An operator's share of a contribution.
    Credit = 3,
}

impl Nature {
    /// The number that a line shows for its nature.
    pub const fn number(self) -> u8
        ensures number { result ≡ nature_number self }
    {
        self as u8
    }
}

/// One line. Its total is unit times quantity; the quantity is the object's dwellings, or 1 for a credit.
#[derive(Clone, Copy, PartialEq, Eq, Debug)]
pub struct Line {
    /// What it stands for.
    pub nature: Nature,
    /// The number of the operator that is billed or credited.
    pub operator: u32,
    /// The object's number.
    pub object: u32,
    /// Micro-euros of one.
    pub unit: u64,
    /// How many.
    pub quantity: u32,
    /// Micro-euros of all.
    pub total: u64,
}

impl Line {
    /// What a place of a strip holds before a line is written there.
    pub const BLANK: Line = Line {
        nature: Nature::Charge,
        operator: 0,
        object: 0,
        unit: 0,
        quantity: 0,
        total: 0,
    };
}
