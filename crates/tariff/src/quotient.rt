// A fraction that a sheet may be asked to round.
ghost use Rattle.std.specs.Prelude.{◌<◌, ◌≤◌};
ghost use Rattle.tariff.specs.Bounds.{most_rounded, most_denominator};

/// An amount of micro-euros as a numerator of up to 9×10^18 over a denominator of 1 to 240,000,000.
#[derive(Clone, Copy, PartialEq, Eq, Debug)]
pub struct Quotient {
    /// 0 to 9×10^18.
    pub numerator: u64,
    /// 1 to 240,000,000.
    pub denominator: u32,
    ghost most: { numerator ≤ most_rounded },
    ghost some: { 0 < denominator },
    ghost small: { denominator ≤ most_denominator },
}
