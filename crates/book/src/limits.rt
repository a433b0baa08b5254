// The limits of a zone, each named once.
ghost use Rattle.std.specs.Prelude.{◌≡◌};
ghost use Rattle.book.specs.Limits.{most_operators, most_objects, most_index, years, most_amount};
ghost use Rattle.checks.specs.Numbers.{most_tranches, most_dwellings};

use checks::numbers::{MOST_DWELLINGS, MOST_TRANCHES};
use tariff::questions::YEAR_INDICES;

/// Operators that a roll can count.
pub const MOST_OPERATORS: usize = 16;

/// Objects that a register can count.
pub const MOST_OBJECTS: usize = 1024;

/// The last year index of a zone's life; indices start at 0.
pub const MOST_INDEX: u32 = 40;

/// Micro-euros of a balance or a total, and the number of a count.
pub const MOST_AMOUNT: u64 = 4_000_000_000_000_000_000;

/// All of them in one value.
#[derive(Clone, Copy, PartialEq, Eq, Debug)]
pub struct Limits {
    /// Operators of a roll.
    pub operators: usize,
    /// Objects of a register.
    pub objects: usize,
    /// The last year index.
    pub index: u32,
    /// Year indices, from 0 on.
    pub years: usize,
    /// Tranches of an operator.
    pub tranches: u32,
    /// Dwellings of an object.
    pub dwellings: u32,
    /// Micro-euros of a balance or a total, and the number of a count.
    pub amount: u64,
}

/// The limits are those that the definitions have.
pub const fn zone_limits() -> Limits
    ensures operators { result.operators ≡ most_operators }
    ensures objects { result.objects ≡ most_objects }
    ensures index { result.index ≡ most_index }
    ensures years { result.years ≡ years }
    ensures tranches { result.tranches ≡ most_tranches }
    ensures dwellings { result.dwellings ≡ most_dwellings }
    ensures amount { result.amount ≡ most_amount }
{
    Limits {
        operators: MOST_OPERATORS,
        objects: MOST_OBJECTS,
        index: MOST_INDEX,
        years: YEAR_INDICES,
        tranches: MOST_TRANCHES,
        dwellings: MOST_DWELLINGS,
        amount: MOST_AMOUNT,
    }
}
