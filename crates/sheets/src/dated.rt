// The dated sheet: prices in force on the installation date, from a lent series of price records; how a place for it is
// filled, and what it answers.
ghost use Rattle.std.specs.Prelude.{◌≡◌, ◌&&◌, true, IsSomeAnd, OnOk, OnErr};
ghost use Rattle.series.specs.Rows.{sound};
ghost use Rattle.sheet_parts.specs.Given.{prices_in_limits, terms_in_limits, making};

use calendar::months_between;
use refusal::Refusal;
use series::{Dated, Limited, Series};
use sheet_parts::given::{Prices, Terms};
use sheet_parts::rounding::rounded_five_up;
use sheet_parts::row::Row;
use tariff::kinds::{Coefficient, Kind};
use tariff::questions::Tariff;
use tariff::quotient::Quotient;

/// A sheet of price records, on the common row, rounding five-up. It has no price before the first record.
#[derive(PartialEq, Eq, Debug, Drop)]
pub struct DatedSheet<'a> {
    prices: Series<'a, Prices>,
    terms: Terms,
    ghost terms_fit: { terms_in_limits terms ≡ true },
}

impl<'a> DatedSheet<'a> {
    ghost use Rattle.sheets.specs.DatedSheets.{dated, dated_meaning};

    /// Fills a place with the sheet of some price records and terms. Where the records make no series, or something is
    /// outside its limits, it is refused by 25, and the place keeps what it held.
    pub fn fill(
        place: &mut Option<DatedSheet<'a>>,
        prices: &'a [Dated<Prices>],
        terms: Terms,
    ) -> Result<(), Refusal>
        ensures answer { let fits = sound prices_in_limits prices.now && terms_in_limits terms in
            result ≡ making fits }
        ensures value { let meaning = dated prices.now terms in
            OnOk result (IsSomeAnd place.new (λ sheet. dated_meaning sheet ≡ meaning)) }
        ensures kept { OnErr result (place.new ≡ place.old) }
    {
        let mut records = Series::empty();
        records.fill(prices)?;
        if !terms.in_limits() {
            return Err(Refusal::BadSheet);
        }
        *place = Some(DatedSheet {
            prices: records,
            terms,
        });
        Ok(())
    }
}

impl<'a> Tariff for DatedSheet<'a> {
    ghost use Rattle.sheets.specs.DatedSheets.{dated_meaning};
    ghost use Rattle.sheets.specs.DatedLimits.{dated_lawful};

    ghost meaning = { dated_meaning };

    ghost lawful = { dated_lawful };

    fn price(&self, kind: Kind, installed: u32) -> Option<u32> {
        let Some(prices) = self.prices.in_force_on(installed) else {
            return None;
        };
        Some(prices.of(kind))
    }

    fn coefficient(&self, installed: u32, receipt: u32) -> Option<Coefficient> {
        Row::COMMON.coefficient_after(months_between(installed, receipt))
    }

    fn contribution(&self) -> u32 {
        self.terms.contribution
    }

    fn weight(&self, index: u32) -> u32 {
        self.terms.weight(index)
    }

    fn rounded(&self, amount: Quotient) -> u64 {
        rounded_five_up(amount)
    }
}
