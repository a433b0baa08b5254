// What a value of a series may be, and the index numbers.
ghost use Rattle.std.specs.Prelude.{◌≡◌, Bool};
ghost use Rattle.series.specs.Limits.{index_fits};

/// A kind of value with limits of its own, which a series keeps.
pub trait Limited {
    ghost fits: { Self → Bool };

    /// Whether a value keeps the limits of its kind.
    fn in_limits(&self) -> bool
        ensures value { result ≡ fits self.now };
}

/// A published index of wages or of consumer prices; lawful from 1 to 50,000.
#[derive(Clone, Copy, PartialEq, Eq, Debug)]
pub struct IndexNumber(pub u32);

const LEAST_INDEX: u32 = 1;

const MOST_INDEX: u32 = 50_000;

impl Limited for IndexNumber {
    ghost fits = { index_fits };

    /// Whether a value keeps the limits of its kind.
    fn in_limits(&self) -> bool {
        (LEAST_INDEX..=MOST_INDEX).contains(&self.0)
    }
}
