// Money in whole micro-euros, and its text: euros, a point and six decimals.
#![tactic(auto)]

ghost use Rattle.std.specs.Prelude.{◌≡◌, Some};
ghost use Rattle.money.specs.Text.{money_text, NoLoss};

pub mod signed;

use std::fmt;

/// An amount in whole micro-euros, the sixth decimal of a euro. Its text is euros, a point and six decimals.
#[derive(Clone, Copy, PartialEq, Eq, Debug)]
pub struct Money {
    micros: u64,
}

impl Money {
    /// The amount of so many micro-euros.
    pub const fn from_micros(micros: u64) -> Money
        ensures value { result.micros ≡ micros }
    {
        Money { micros }
    }

    /// How many micro-euros the amount has. No two amounts have the same text.
    pub const fn micros(self) -> u64
        ensures value { result ≡ self.micros }
        ensures no_loss { NoLoss }
    {
        self.micros
    }
}

// Micro-euros in a euro.
const EURO: u64 = 1_000_000;

impl fmt::Display for Money {
    ghost output = { λ m. Some (money_text m.micros) };

    fn fmt<W: fmt::Write>(&self, f: &mut fmt::Formatter<W>) -> fmt::Result {
        let euros = self.micros / EURO;
        let decimals = self.micros % EURO;
        write!(f, "{euros}.{decimals:06}")
    }
}
