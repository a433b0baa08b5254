// The words of a line after its first, and what they say of an order, a sheet, an index or a price record.
ghost use Rattle.std.specs.Prelude.{◌≡◌};
ghost use Rattle.requests.specs.Fields.{fields_of, fields_in, fills, number_named, amount_named, service_named, order_in, choice_in, index_in, record_in};

use crate::number::{amount_in, has_amount_form, number_in};
use crate::request::Choice;
use crate::unreadable::Unreadable;
use crate::words::cut_word;
use links::order::Order;
use series::{Dated, IndexNumber};
use sheet_parts::given::Prices;

// The five words that follow the first, those that the line leaves out being empty.
#[derive(Drop)]
pub(crate) struct Fields<'a> {
    pub(crate) one: &'a [u8],
    pub(crate) two: &'a [u8],
    pub(crate) three: &'a [u8],
    pub(crate) four: &'a [u8],
    pub(crate) five: &'a [u8],
}

pub(crate) fn fields_in(line: &[u8]) -> Fields<'_>
    ensures value { fields_of
        result.one.now result.two.now result.three.now result.four.now result.five.now
        ≡ fields_in line.now }
{
    let (one, rest) = cut_word(line);
    let (two, rest) = cut_word(rest);
    let (three, rest) = cut_word(rest);
    let (four, rest) = cut_word(rest);
    let (five, _) = cut_word(rest);
    Fields {
        one,
        two,
        three,
        four,
        five,
    }
}

// Whether the line has a word, and not the one after the last that it may have.
fn fills(last: &[u8], beyond: &[u8]) -> bool
    ensures value { result ≡ fills last.now beyond.now }
{
    !last.is_empty() && beyond.is_empty()
}

// A number, or why the word is none.
fn number_named(word: &[u8]) -> Result<u32, Unreadable>
    ensures value { result ≡ number_named word.now }
{
    number_in(word).ok_or(Unreadable::NoNumber)
}

// An amount, or why the word is none.
fn amount_named(word: &[u8]) -> Result<u32, Unreadable>
    ensures value { result ≡ amount_named word.now }
{
    let otherwise = if has_amount_form(word) {
        Unreadable::LargeAmount
    } else {
        Unreadable::NoAmount
    };
    amount_in(word).ok_or(otherwise)
}

// The service date, which is not known where there is no word for it.
fn service_named(word: &[u8]) -> Result<Option<u32>, Unreadable>
    ensures value { result ≡ service_named word.now }
{
    if word.is_empty() {
        return Ok(None);
    }
    Ok(Some(number_named(word)?))
}

pub(crate) fn order_in(line: &[u8]) -> Result<Order, Unreadable>
    ensures value { result ≡ order_in (fields_in line.now) }
{
    let fields = fields_in(line);
    if !fills(fields.three, fields.five) {
        return Err(Unreadable::WordCount);
    }
    let ordered = number_named(fields.one)?;
    let metres = number_named(fields.two)?;
    let fibres = number_named(fields.three)?;
    let service = service_named(fields.four)?;
    Ok(Order {
        ordered,
        service,
        metres,
        fibres,
    })
}

pub(crate) fn choice_in(line: &[u8]) -> Result<Choice, Unreadable>
    ensures value { result ≡ choice_in (fields_in line.now) }
{
    let fields = fields_in(line);
    if !fills(fields.one, fields.two) {
        return Err(Unreadable::WordCount);
    }
    Choice::try_from(fields.one)
}

pub(crate) fn index_in(line: &[u8]) -> Result<Dated<IndexNumber>, Unreadable>
    ensures value { result ≡ index_in (fields_in line.now) }
{
    let fields = fields_in(line);
    if !fills(fields.two, fields.three) {
        return Err(Unreadable::WordCount);
    }
    let date = number_named(fields.one)?;
    let index = number_named(fields.two)?;
    Ok(Dated {
        date,
        value: IndexNumber(index),
    })
}

pub(crate) fn record_in(line: &[u8]) -> Result<Dated<Prices>, Unreadable>
    ensures value { result ≡ record_in (fields_in line.now) }
{
    let fields = fields_in(line);
    if !fills(fields.four, fields.five) {
        return Err(Unreadable::WordCount);
    }
    let date = number_named(fields.one)?;
    let covered = amount_named(fields.two)?;
    let connectable = amount_named(fields.three)?;
    let third = amount_named(fields.four)?;
    Ok(Dated {
        date,
        value: Prices {
            covered,
            connectable,
            third,
        },
    })
}
