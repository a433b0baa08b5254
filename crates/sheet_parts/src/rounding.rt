// Rounding to whole micro-euros by the seventh decimal of the euro.
ghost use Rattle.std.specs.Prelude.{◌≡◌, ◌<◌, nat_le};
ghost use Rattle.tariff.specs.Meaning.{Near};
ghost use Rattle.sheet_parts.specs.Rounding.{five_down, five_up, seventh_decimal, up_if};

use tariff::quotient::Quotient;

// Whether the first decimal of a fraction of micro-euros, the seventh of the euro, is a number or more. It is compared and
// not worked out, which would take a second division.
fn reaches(amount: Quotient, least: u64) -> bool
    requires { least < 10 }
    ensures value { result ≡ nat_le least (seventh_decimal amount.numerator amount.denominator) }
{
    let divisor = u64::from(amount.denominator);
    least * divisor <= amount.numerator % divisor * 10
}

// The next whole number from a seventh decimal on, else the last one.
fn up_from(least: u64, amount: Quotient) -> u64
    requires some { 0 < least }
    requires decimal { least < 10 }
    ensures value { result ≡ up_if (nat_le least) amount.numerator amount.denominator }
    ensures near { Near amount.numerator amount.denominator result }
{
    let whole = amount.numerator / u64::from(amount.denominator);
    if reaches(amount, least) {
        whole + 1
    } else {
        whole
    }
}

/// Up only if the seventh decimal exceeds 5, whatever follows it.
pub fn rounded_five_down(amount: Quotient) -> u64
    ensures value { result ≡ five_down amount.numerator amount.denominator }
    ensures near { Near amount.numerator amount.denominator result }
{
    up_from(6, amount)
}

/// Up if the seventh decimal is 5 or more.
pub fn rounded_five_up(amount: Quotient) -> u64
    ensures value { result ≡ five_up amount.numerator amount.denominator }
    ensures near { Near amount.numerator amount.denominator result }
{
    up_from(5, amount)
}
