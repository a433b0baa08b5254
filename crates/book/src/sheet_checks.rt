// What a sheet must be able to answer before objects are billed.
ghost use Rattle.std.specs.Prelude.{◌≡◌};
ghost use Rattle.std.specs.List.{list_any};
ghost use Rattle.book.specs.Refusals.{unpriced, unrated, price_checks, sheet_checks};
ghost use Rattle.refusal.specs.Checks.{passing};

use crate::entries::RegisterEntry;
use refusal::Refusal;
use tariff::questions::Tariff;

// A price for every object.
pub(crate) fn check_prices<T: Tariff>(sheet: &T, objects: &[RegisterEntry]) -> Result<(), Refusal>
    ensures answer { result ≡ passing (price_checks (T.meaning sheet.now) objects.now) }
{
    if any_unpriced(sheet, objects) {
        return Err(Refusal::NoPrice);
    }
    Ok(())
}

// A price for every object, and a coefficient for every one that was installed before a date.
pub(crate) fn check_sheet<T: Tariff>(
    sheet: &T,
    date: u32,
    objects: &[RegisterEntry],
) -> Result<(), Refusal>
    ensures answer { result ≡ passing (sheet_checks (T.meaning sheet.now) date objects.now) }
{
    check_prices(sheet, objects)?;
    if any_unrated(sheet, date, objects) {
        return Err(Refusal::NoCoefficient);
    }
    Ok(())
}

fn any_unpriced<T: Tariff>(sheet: &T, objects: &[RegisterEntry]) -> bool
    ensures value { result ≡ list_any (unpriced (T.meaning sheet.now)) objects.now }
{
    objects.iter().any(|object| is_unpriced(sheet, object))
}

fn any_unrated<T: Tariff>(sheet: &T, date: u32, objects: &[RegisterEntry]) -> bool
    ensures value { result ≡ list_any (unrated (T.meaning sheet.now) date) objects.now }
{
    objects.iter().any(|object| is_unrated(sheet, date, object))
}

fn is_unpriced<T: Tariff>(sheet: &T, object: &RegisterEntry) -> bool
    ensures value { result ≡ unpriced (T.meaning sheet.now) object.now }
{
    sheet.price(object.kind, object.installed).is_none()
}

// Whether the rule multiplies by a coefficient that the sheet does not have.
fn is_unrated<T: Tariff>(sheet: &T, date: u32, object: &RegisterEntry) -> bool
    ensures value { result ≡ unrated (T.meaning sheet.now) date object.now }
{
    object.installed < date && sheet.coefficient(object.installed, date).is_none()
}
