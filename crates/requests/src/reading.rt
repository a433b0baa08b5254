// How a line of text is read.
ghost use Rattle.std.specs.Prelude.{◌≡◌};
ghost use Rattle.requests.specs.Fields.{fields_in};
ghost use Rattle.requests.specs.Requests.{keyword_named, enquiry_in, said_after, comment, asked_in, request_in, SaysWhenCut};

use crate::fields::{choice_in, index_in, order_in, record_in};
use crate::request::{Enquiry, Item, Request};
use crate::unreadable::Unreadable;
use crate::words::cut_word;
use bounded_lines::LONGEST_LINE;

// What the first word of a line announces.
#[derive(Clone, Copy)]
enum Keyword {
    Link,
    Fibre,
    Sheet,
    Wages,
    Consumer,
    Price,
}

impl TryFrom<&[u8]> for Keyword {
    type Error = Unreadable;

    ghost try_from_gives = { λ word result. result ≡ keyword_named word.now };

    fn try_from(word: &[u8]) -> Result<Keyword, Unreadable> {
        match word {
            b"link" => Ok(Keyword::Link),
            b"fibre" => Ok(Keyword::Fibre),
            b"sheet" => Ok(Keyword::Sheet),
            b"wages" => Ok(Keyword::Wages),
            b"consumer" => Ok(Keyword::Consumer),
            b"price" => Ok(Keyword::Price),
            _ => Err(Unreadable::UnknownWord),
        }
    }
}

/// What a line of text asks for, or why it cannot be read. A line that is blank or begins with a number sign asks for
/// nothing. A line that is too long may be cut off where that shows.
#[tactic(auto, using(crate::proofs::Cuts::says_when_cut))]
pub fn request_in(line: &[u8]) -> Result<Option<Request>, Unreadable>
    ensures value { result ≡ request_in line.now }
    ensures cut { SaysWhenCut }
{
    if line.len() > LONGEST_LINE {
        return Err(Unreadable::TooLong);
    }
    asked_in(line)
}

// What a line that is not too long asks for.
fn asked_in(line: &[u8]) -> Result<Option<Request>, Unreadable>
    ensures value { result ≡ asked_in line.now }
{
    let (first, rest) = cut_word(line);
    if is_comment(first) {
        return Ok(None);
    }
    let announced = Keyword::try_from(first)?;
    Ok(Some(said_after(announced, rest)?))
}

// Whether a first word leaves a line without content: there is none, or it begins with a number sign.
fn is_comment(first: &[u8]) -> bool
    ensures value { result ≡ comment first.now }
{
    matches!(first, [] | [b'#', ..])
}

// What the words after a keyword ask for. Each keyword reads other words, so that its arm is all there is to pass on.
fn said_after(announced: Keyword, rest: &[u8]) -> Result<Request, Unreadable>
    ensures value { result ≡ said_after announced (fields_in rest.now) }
{
    match announced {
        Keyword::Link => Ok(Request::Price(enquiry_in(Item::Link, rest)?)),
        Keyword::Fibre => Ok(Request::Price(enquiry_in(Item::Fibre, rest)?)),
        Keyword::Sheet => Ok(Request::Sheet(choice_in(rest)?)),
        Keyword::Wages => Ok(Request::Wages(index_in(rest)?)),
        Keyword::Consumer => Ok(Request::Consumer(index_in(rest)?)),
        Keyword::Price => Ok(Request::Record(record_in(rest)?)),
    }
}

// The price of an item, by the order that the words state.
fn enquiry_in(item: Item, rest: &[u8]) -> Result<Enquiry, Unreadable>
    ensures value { result ≡ enquiry_in item (fields_in rest.now) }
{
    let order = order_in(rest)?;
    Ok(Enquiry { item, order })
}
