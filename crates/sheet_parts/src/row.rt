// A row of yearly coefficients, interpolated by months.
ghost use Rattle.std.specs.Prelude.{◌≡◌, ◌<◌};

use tariff::kinds::Coefficient;

/// The years of a row, 0 to 20.
pub const ROW_YEARS: usize = 21;

// The months up to the last year of a row.
const LAST_MONTH: u32 = 240;

// Twelve parts of a hundredth each.
const DENOMINATOR: u32 = 1_200;

/// What a price is multiplied by after each whole year, in hundredths, and what holds beyond the last year: one
/// coefficient for good, or none.
#[derive(Clone, Copy, PartialEq, Eq, Debug)]
pub struct Row {
    /// After each whole year, in hundredths, from 0 years on.
    pub years: [u16; ROW_YEARS],
    /// Beyond the last of them, if anything holds there.
    pub beyond: Option<Coefficient>,
}

impl Row {
    ghost use Rattle.sheet_parts.specs.Row.{year_of, coefficient_after, BetweenItsYears};

    /// The common row, which stays at its last year.
    pub const COMMON: Row = Row {
        years: [
            100, 110, 118, 125, 127, 128, 127, 125, 122, 118, 112, 106, 98, 90, 81, 70, 59, 46, 32,
            25, 25,
        ],
        beyond: Some(Coefficient {
            numerator: 300,
            denominator: DENOMINATOR,
        }),
    };

    /// The coefficient after a number of months: straight between two years, and beyond the last year what the row says.
    pub fn coefficient_after(&self, months: u32) -> Option<Coefficient>
        ensures value { result ≡ coefficient_after self.now months }
        ensures between { BetweenItsYears self.now months result }
    {
        if months > LAST_MONTH {
            return self.beyond;
        }
        let year = (months / 12) as usize;
        let month = months % 12;
        let numerator = (12 - month) * self.hundredths(year) + month * self.hundredths(year + 1);
        Some(Coefficient {
            numerator,
            denominator: DENOMINATOR,
        })
    }

    // The coefficient after a number of whole years. After the last year no part of a next one is taken.
    fn hundredths(&self, year: usize) -> u32
        ensures value { result ≡ year_of self.now year }
        ensures small { result < 65536 }
    {
        u32::from(self.years.get(year).copied().unwrap_or(0))
    }
}
