// The checks of single numbers, and their limits.
ghost use Rattle.std.specs.Prelude.{◌≡◌, [], ◌∷◌};
ghost use Rattle.refusal.specs.Checks.{passing};
ghost use Rattle.checks.specs.Numbers.{date_check, operator_check, rate_check, object_check, dwellings_check};

use calendar::is_date;
use refusal::Refusal;

/// Tranches of one operator; a tranche is a twentieth of a zone.
pub const MOST_TRANCHES: u32 = 20;

/// Dwellings of one object.
pub const MOST_DWELLINGS: u32 = 10_000;

/// A real calendar day from 20080101 to 20991231, else `NoDate`.
pub const fn check_date(date: u32) -> Result<(), Refusal>
    ensures answer { result ≡ passing (date_check date ∷ []) }
{
    if !is_date(date) {
        return Err(Refusal::NoDate);
    }
    Ok(())
}

/// An operator's number, which is not 0, else `NoOperator`.
pub const fn check_operator(operator: u32) -> Result<(), Refusal>
    ensures answer { result ≡ passing (operator_check operator ∷ []) }
{
    if operator == 0 {
        return Err(Refusal::NoOperator);
    }
    Ok(())
}

/// A rate of 1 to 20 tranches, else `RateOutOfRange`.
pub const fn check_rate(rate: u32) -> Result<(), Refusal>
    ensures answer { result ≡ passing (rate_check rate ∷ []) }
{
    if rate < 1 || rate > MOST_TRANCHES {
        return Err(Refusal::RateOutOfRange);
    }
    Ok(())
}

/// An object's number, which is not 0, else `ObjectUnusable`.
pub const fn check_object(object: u32) -> Result<(), Refusal>
    ensures answer { result ≡ passing (object_check object ∷ []) }
{
    if object == 0 {
        return Err(Refusal::ObjectUnusable);
    }
    Ok(())
}

/// 1 to 10,000 dwellings, else `DwellingsOutOfRange`.
pub const fn check_dwellings(dwellings: u32) -> Result<(), Refusal>
    ensures answer { result ≡ passing (dwellings_check dwellings ∷ []) }
{
    if dwellings < 1 || dwellings > MOST_DWELLINGS {
        return Err(Refusal::DwellingsOutOfRange);
    }
    Ok(())
}
