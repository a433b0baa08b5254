// A commitment or raise.

/// How an operator subscribes: by a first commitment, or by a raise of its rate.
#[derive(Clone, Copy, PartialEq, Eq, Debug)]
pub enum Change {
    /// By an operator that is not on the roll.
    Commitment,
    /// By one that is.
    Raise,
}

/// A commitment or raise: its day, its operator, and the rate that it leads to.
#[derive(Clone, Copy, PartialEq, Eq, Debug)]
pub struct Event {
    /// Which of the two it is.
    pub change: Change,
    /// Its day, yyyymmdd.
    pub date: u32,
    /// The operator's number.
    pub operator: u32,
    /// The rate that it leads to, in tranches.
    pub rate: u32,
}
