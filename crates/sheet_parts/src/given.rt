// What a sheet is given when it is made: its prices, and how contributions are levied and shared.
ghost use Rattle.std.specs.Prelude.{◌≡◌, slice_index};
ghost use Rattle.sheet_parts.specs.Given.{price_of, price_fits, prices_in_limits, terms_in_limits};

use series::Limited;
use tariff::kinds::Kind;
use tariff::questions::{MOST_PRICE, MOST_WEIGHT, WHOLE, YEAR_INDICES};

/// The price per tranche and dwelling of each kind, in micro-euros.
#[derive(Clone, Copy, PartialEq, Eq, Debug)]
pub struct Prices {
    /// Of a dwelling that a PM covers, 1 to 500,000,000.
    pub covered: u32,
    /// Of a connectable one, 1 to 500,000,000.
    pub connectable: u32,
    /// Of one connectable through a third party's cabling, 1 to 500,000,000.
    pub third: u32,
}

/// What every sheet is given: the contribution in hundredths of the price, and the weight of a tranche by the year index
/// of its subscription.
#[derive(Clone, Copy, PartialEq, Eq, Debug)]
pub struct Terms {
    /// Hundredths, 0 to 100.
    pub contribution: u32,
    /// Of each year index from 0 on, 0 to 200.
    pub weights: [u32; YEAR_INDICES],
}

impl Terms {
    /// The weight of a tranche of a year index; beyond the last index there is none.
    pub fn weight(&self, index: u32) -> u32
        ensures value { result ≡ slice_index self.now.weights index }
    {
        self.weights.get(index as usize).copied().unwrap_or(0)
    }
}

impl Prices {
    /// The price of a kind, in micro-euros.
    pub const fn of(&self, kind: Kind) -> u32
        ensures value { result ≡ price_of self.now kind }
    {
        match kind {
            Kind::Covered => self.covered,
            Kind::Connectable => self.connectable,
            Kind::ThirdParty => self.third,
        }
    }
}

impl Limited for Prices {
    ghost fits = { prices_in_limits };

    // Each price is from 1 to 500,000,000 micro-euros.
    fn in_limits(&self) -> bool {
        price_fits(self.covered) && price_fits(self.connectable) && price_fits(self.third)
    }
}

fn price_fits(price: u32) -> bool
    ensures value { result ≡ price_fits price }
{
    (1..=MOST_PRICE).contains(&price)
}

impl Limited for Terms {
    ghost fits = { terms_in_limits };

    // The contribution is at most 100 hundredths, and each weight at most 200.
    fn in_limits(&self) -> bool {
        self.contribution <= WHOLE && self.weights.iter().all(|weight| *weight <= MOST_WEIGHT)
    }
}
