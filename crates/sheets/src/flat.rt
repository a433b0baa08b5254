// The flat sheet: three prices, the same on every date; how a place for it is filled, and what it answers.
ghost use Rattle.std.specs.Prelude.{◌≡◌, ◌&&◌, true, IsSomeAnd, OnOk, OnErr};
ghost use Rattle.sheet_parts.specs.Given.{prices_in_limits, terms_in_limits, making};

use calendar::months_between;
use refusal::Refusal;
use series::Limited;
use sheet_parts::given::{Prices, Terms};
use sheet_parts::rounding::rounded_five_down;
use sheet_parts::row::Row;
use tariff::kinds::{Coefficient, Kind};
use tariff::questions::Tariff;
use tariff::quotient::Quotient;

/// A sheet of three prices, on the common row, rounding five-down.
#[derive(Clone, Copy, PartialEq, Eq, Debug)]
pub struct FlatSheet {
    prices: Prices,
    terms: Terms,
    ghost prices_fit: { prices_in_limits prices ≡ true },
    ghost terms_fit: { terms_in_limits terms ≡ true },
}

impl FlatSheet {
    ghost use Rattle.sheets.specs.Flat.{flat, flat_meaning};

    /// Fills a place with the sheet of some prices and terms. Where either is outside its limits it is refused by 25, and
    /// the place keeps what it held.
    pub fn fill(place: &mut Option<FlatSheet>, prices: Prices, terms: Terms) -> Result<(), Refusal>
        ensures answer { result ≡ making (prices_in_limits prices && terms_in_limits terms) }
        ensures value { let meaning = flat prices terms in
            OnOk result (IsSomeAnd place.new (λ sheet. flat_meaning sheet ≡ meaning)) }
        ensures kept { OnErr result (place.new ≡ place.old) }
    {
        if !prices.in_limits() || !terms.in_limits() {
            return Err(Refusal::BadSheet);
        }
        *place = Some(FlatSheet { prices, terms });
        Ok(())
    }
}

impl Tariff for FlatSheet {
    ghost use Rattle.sheets.specs.Flat.{flat_meaning};
    ghost use Rattle.sheets.specs.FlatLimits.{flat_lawful};

    ghost meaning = { flat_meaning };

    ghost lawful = { flat_lawful };

    fn price(&self, kind: Kind, _installed: u32) -> Option<u32> {
        Some(self.prices.of(kind))
    }

    fn coefficient(&self, installed: u32, receipt: u32) -> Option<Coefficient> {
        Row::COMMON.coefficient_after(months_between(installed, receipt))
    }

    fn contribution(&self) -> u32 {
        self.terms.contribution
    }

    fn weight(&self, index: u32) -> u32 {
        self.terms.weight(index)
    }

    fn rounded(&self, amount: Quotient) -> u64 {
        rounded_five_down(amount)
    }
}
