// Decimal numbers, and amounts in euros with six decimals.
ghost use Rattle.std.specs.Prelude.{◌≡◌};
ghost use Rattle.std.specs.List.{list_all};
ghost use Rattle.requests.specs.Words.{number, amount, is_digit, has_amount_form};

// The length of a point and six decimals.
const DECIMAL_PART: usize = 7;

// The digits of the longest number, which 32 bits hold.
const MOST_DIGITS: usize = 9;

// Micro-euros in a euro.
const EURO: u32 = 1_000_000;

/// The number that a word writes, if it is one to nine digits.
pub fn number_in(word: &[u8]) -> Option<u32>
    ensures value { result ≡ number word.now }
{
    if !(1..=MOST_DIGITS).contains(&word.len()) {
        return None;
    }
    let mut value = 0;
    for byte in word {
        value = value * 10 + char::from(*byte).to_digit(10)?;
    }
    Some(value)
}

/// The micro-euros of an amount written as one to nine digits of euros, a point and six decimals, if 32 bits hold them: an
/// amount of up to 4,294.967295 euros.
pub fn amount_in(word: &[u8]) -> Option<u32>
    ensures value { result ≡ amount word.now }
{
    let (euros, part) = word.split_at(word.len().checked_sub(DECIMAL_PART)?);
    let decimals = part.strip_prefix(b".")?;
    let euros = number_in(euros)?.checked_mul(EURO)?;
    euros.checked_add(number_in(decimals)?)
}

/// Whether a word has the form of an amount, however large: digits, a point and six decimals.
pub fn has_amount_form(word: &[u8]) -> bool
    ensures value { result ≡ has_amount_form word.now }
{
    if word.len() <= DECIMAL_PART {
        return false;
    }
    let euros = word.len() - DECIMAL_PART;
    word[euros] == b'.' && all_digits(&word[..euros]) && all_digits(&word[euros + 1..])
}

// Whether all bytes are digits.
fn all_digits(bytes: &[u8]) -> bool
    ensures value { result ≡ list_all is_digit bytes.now }
{
    bytes.iter().all(|byte| is_digit(*byte))
}

// Whether a byte is a digit from 0 to 9.
const fn is_digit(byte: u8) -> bool
    ensures value { result ≡ is_digit byte }
{
    matches!(byte, b'0'..=b'9')
}
