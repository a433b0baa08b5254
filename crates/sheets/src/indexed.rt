// The indexed sheet: three prices, and a coefficient that follows wages and consumer prices; how a place for it is filled,
// and what it answers.
ghost use Rattle.std.specs.Prelude.{◌≡◌, ◌&&◌, true, IsSomeAnd, OnOk, OnErr};
ghost use Rattle.series.specs.Limits.{index_fits};
ghost use Rattle.series.specs.Rows.{sound};
ghost use Rattle.sheet_parts.specs.Row.{common_row, coefficient_after};
ghost use Rattle.sheet_parts.specs.Given.{prices_in_limits, terms_in_limits, making};
ghost use Rattle.sheets.specs.Indexing.{wage_ratio, consumer_ratio, smaller, row_times, RatioLimits};

use calendar::months_between;
use refusal::Refusal;
use series::{Dated, IndexNumber, Limited, Series};
use sheet_parts::given::{Prices, Terms};
use sheet_parts::rounding::rounded_five_down;
use sheet_parts::row::Row;
use tariff::kinds::{Coefficient, Kind};
use tariff::questions::{MOST_COEFFICIENT, Tariff};
use tariff::quotient::Quotient;

/// A sheet of three prices, on the common row times the smaller rise of two series of index numbers, rounding five-down.
#[derive(PartialEq, Eq, Debug, Drop)]
pub struct IndexedSheet<'a> {
    prices: Prices,
    terms: Terms,
    wages: Series<'a, IndexNumber>,
    consumer: Series<'a, IndexNumber>,
    ghost prices_fit: { prices_in_limits prices ≡ true },
    ghost terms_fit: { terms_in_limits terms ≡ true },
}

impl<'a> IndexedSheet<'a> {
    ghost use Rattle.sheets.specs.IndexedSheets.{indexed, indexed_meaning};

    /// Fills a place with the sheet of some prices, terms and two series of index numbers. Where the rows make no series,
    /// or something is outside its limits, it is refused by 25, and the place keeps what it held.
    pub fn fill(
        place: &mut Option<IndexedSheet<'a>>,
        prices: Prices,
        terms: Terms,
        wages: &'a [Dated<IndexNumber>],
        consumer: &'a [Dated<IndexNumber>],
    ) -> Result<(), Refusal>
        ensures answer { let given = prices_in_limits prices && terms_in_limits terms in
            let rows = sound index_fits wages.now && sound index_fits consumer.now in
            result ≡ making (given && rows) }
        ensures value { let meaning = indexed prices terms wages.now consumer.now in
            OnOk result (IsSomeAnd place.new (λ sheet. indexed_meaning sheet ≡ meaning)) }
        ensures kept { OnErr result (place.new ≡ place.old) }
    {
        if !prices.in_limits() || !terms.in_limits() {
            return Err(Refusal::BadSheet);
        }
        let mut of_wages = Series::empty();
        of_wages.fill(wages)?;
        let mut of_consumer = Series::empty();
        of_consumer.fill(consumer)?;
        *place = Some(IndexedSheet {
            prices,
            terms,
            wages: of_wages,
            consumer: of_consumer,
        });
        Ok(())
    }
}

impl<'a> Tariff for IndexedSheet<'a> {
    ghost use Rattle.sheets.specs.IndexedSheets.{indexed_meaning};
    ghost use Rattle.sheets.specs.IndexedLimits.{indexed_lawful};

    ghost meaning = { indexed_meaning };

    ghost lawful = { indexed_lawful };

    fn price(&self, kind: Kind, _installed: u32) -> Option<u32> {
        Some(self.prices.of(kind))
    }

    fn coefficient(&self, installed: u32, receipt: u32) -> Option<Coefficient> {
        let Some(wages_then) = self.wages.in_force_before(installed) else {
            return None;
        };
        let Some(wages_now) = self.wages.in_force_before(receipt) else {
            return None;
        };
        let Some(consumer_then) = self.consumer.in_force_before(installed) else {
            return None;
        };
        let Some(consumer_now) = self.consumer.in_force_before(receipt) else {
            return None;
        };
        let ratio = smaller(
            wage_ratio(wages_then, wages_now),
            consumer_ratio(consumer_then, consumer_now),
        );
        indexed_after(months_between(installed, receipt), ratio)
    }

    fn contribution(&self) -> u32 {
        self.terms.contribution
    }

    fn weight(&self, index: u32) -> u32 {
        self.terms.weight(index)
    }

    fn rounded(&self, amount: Quotient) -> u64 {
        rounded_five_down(amount)
    }
}

// Wages a quarter as then and three quarters as now, against then.
fn wage_ratio(then: IndexNumber, now: IndexNumber) -> Coefficient
    requires { (index_fits then ≡ true) × (index_fits now ≡ true) }
    ensures value { result ≡ wage_ratio then now }
{
    Coefficient {
        numerator: then.0 + 3 * now.0,
        denominator: 4 * then.0,
    }
}

// Consumer prices now against then.
fn consumer_ratio(then: IndexNumber, now: IndexNumber) -> Coefficient
    ensures value { result ≡ consumer_ratio then now }
{
    Coefficient {
        numerator: now.0,
        denominator: then.0,
    }
}

// The smaller of two fractions, the first where they are equal.
fn smaller(a: Coefficient, b: Coefficient) -> Coefficient
    ensures value { result ≡ smaller a b }
{
    let first = u64::from(a.numerator) * u64::from(b.denominator);
    let second = u64::from(b.numerator) * u64::from(a.denominator);
    if first <= second { a } else { b }
}

// The row's coefficient after some months times a ratio of index numbers, none above 4. No other limit can be passed.
fn indexed_after(months: u32, ratio: Coefficient) -> Option<Coefficient>
    requires { RatioLimits ratio }
    ensures value { result ≡ row_times (coefficient_after common_row months) ratio }
{
    let row = Row::COMMON.coefficient_after(months)?;
    let numerator = row.numerator * ratio.numerator;
    let denominator = row.denominator * ratio.denominator;
    if numerator > MOST_COEFFICIENT * denominator {
        return None;
    }
    Some(Coefficient {
        numerator,
        denominator,
    })
}
