// The unit price and the unit contribution.
ghost use Rattle.std.specs.Prelude.{◌≡◌, ◌*◌, ◌≤◌, IfOk};
ghost use Rattle.refusal.specs.Checks.{first, unless};
ghost use Rattle.unit_prices.specs.Limits.{most_unit_price, most_unit_contribution};
ghost use Rattle.unit_prices.specs.Prices.{price_at, unit_price, unit_contribution};
ghost use Rattle.unit_prices.specs.Refusals.{unit_price_checks, unit_contribution_checks};

use checks::numbers::{check_date, check_rate};
use refusal::Refusal;
use tariff::kinds::Kind;
use tariff::questions::{Tariff, WHOLE};
use tariff::quotient::Quotient;

/// What a dwelling of a kind costs for some tranches, in micro-euros: installed before the date, price × tranches × coefficient,
/// rounded by the sheet; else price × tranches.
///
/// Refused by the first of: `NoDate` for either date, `RateOutOfRange` for tranches outside 1 to 20, `NoPrice`, and
/// `NoCoefficient` where the dwelling was installed before the date.
#[inline(always)]
pub fn unit_price<T: Tariff>(
    sheet: &T,
    kind: Kind,
    installed: u32,
    date: u32,
    tranches: u32,
) -> Result<u64, Refusal>
    ensures answer { let m = T.meaning sheet.now in
        let refusal = first (unit_price_checks m kind installed date tranches) in
        result ≡ unless refusal (unit_price m kind installed date tranches) }
    ensures most { IfOk result (λ price. price ≤ most_unit_price) }
{
    let plain = price_of(sheet, kind, installed, date, tranches)?;
    if installed >= date {
        return Ok(plain);
    }
    let Some(coefficient) = sheet.coefficient(installed, date) else {
        return Err(Refusal::NoCoefficient);
    };
    Ok(sheet.rounded(Quotient {
        numerator: plain * u64::from(coefficient.numerator),
        denominator: coefficient.denominator,
    }))
}

/// What of a dwelling's price goes to the earlier operators, in micro-euros: installed before the date, price × tranches × the
/// sheet's hundredths / 100, rounded by the sheet; else 0.
///
/// Refused by the first of: `NoDate` for either date, `RateOutOfRange` for tranches outside 1 to 20, and `NoPrice`.
#[inline(always)]
pub fn unit_contribution<T: Tariff>(
    sheet: &T,
    kind: Kind,
    installed: u32,
    date: u32,
    tranches: u32,
) -> Result<u64, Refusal>
    ensures answer { let m = T.meaning sheet.now in
        let refusal = first (unit_contribution_checks m kind installed date tranches) in
        result ≡ unless refusal (unit_contribution m kind installed date tranches) }
    ensures most { IfOk result (λ part. part ≤ most_unit_contribution) }
{
    let price = price_of(sheet, kind, installed, date, tranches)?;
    if installed >= date {
        return Ok(0);
    }
    Ok(sheet.rounded(Quotient {
        numerator: price * u64::from(sheet.contribution()),
        denominator: WHOLE,
    }))
}

// The price of some tranches, and the checks that both amounts share. Inlined, as both amounts are, so that where they are
// asked for many objects what is the same for all of them is checked once.
#[inline(always)]
fn price_of<T: Tariff>(
    sheet: &T,
    kind: Kind,
    installed: u32,
    date: u32,
    tranches: u32,
) -> Result<u64, Refusal>
    ensures answer { let m = T.meaning sheet.now in
        let refusal = first (unit_contribution_checks m kind installed date tranches) in
        result ≡ unless refusal (price_at m kind installed * tranches) }
{
    check_date(installed)?;
    check_date(date)?;
    check_rate(tranches)?;
    let Some(price) = sheet.price(kind, installed) else {
        return Err(Refusal::NoPrice);
    };
    Ok(u64::from(price) * u64::from(tranches))
}
