// The five questions that a price sheet answers, and all that the layers above know of one.
ghost use Rattle.std.specs.Prelude.{◌≡◌};
ghost use Rattle.tariff.specs.Meaning.{Meaning, Lawful};

use crate::kinds::{Coefficient, Kind};
use crate::quotient::Quotient;

/// The year indices of a tranche's subscription, 0 to 40.
pub const YEAR_INDICES: usize = 41;

/// The dearest price per tranche and dwelling, in micro-euros.
pub const MOST_PRICE: u32 = 500_000_000;

/// The largest value of a coefficient.
pub const MOST_COEFFICIENT: u32 = 4;

/// The whole of a price in hundredths, the most that a contribution may be.
pub const WHOLE: u32 = 100;

/// What a tranche weighs at most.
pub const MOST_WEIGHT: u32 = 200;

/// A price sheet. Its meaning is one fixed value: asking reads it and changes nothing.
pub trait Tariff {
    // What a sheet means: all its answers, in one fixed value.
    ghost meaning: { Self → Meaning };

    // The answers keep their limits.
    ghost lawful: { (sheet : Self) → Lawful (meaning sheet) };

    /// The price per tranche and dwelling of an object by its kind and installation date, in micro-euros: 1 to
    /// 500,000,000, or none.
    fn price(&self, kind: Kind, installed: u32) -> Option<u32>
        ensures value { result ≡ (meaning self.now).price kind installed };

    /// The fraction by which the price of an object installed on one date is multiplied on a later one: at most 4, or
    /// none.
    fn coefficient(&self, installed: u32, receipt: u32) -> Option<Coefficient>
        ensures value { result ≡ (meaning self.now).coefficient installed receipt };

    /// The contribution to the earlier operators, in hundredths of the price: 0 to 100.
    fn contribution(&self) -> u32
        ensures value { result ≡ (meaning self.now).contribution };

    /// What a tranche subscribed in a year index weighs when contributions are shared: 0 to 200.
    fn weight(&self, index: u32) -> u32
        ensures value { result ≡ (meaning self.now).weight index };

    /// A fraction of micro-euros as a whole number of them, which misses it by less than one.
    fn rounded(&self, amount: Quotient) -> u64
        ensures value { result ≡ (meaning self.now).rounded amount.numerator amount.denominator };
}
