// What a line asks for, once it is read.
ghost use Rattle.std.specs.Prelude.{◌≡◌, Some};
ghost use Rattle.requests.specs.Fields.{choice_named};
ghost use Rattle.requests.specs.RequestTexts.{item_text};

use crate::unreadable::Unreadable;
use links::order::Order;
use series::{Dated, IndexNumber};
use sheet_parts::given::Prices;
use std::fmt;

/// What is ordered: a link, or an extra fibre on one. Its text is `LINK` or `FIBRE`.
#[derive(Clone, Copy, PartialEq, Eq, Debug)]
pub enum Item {
    /// A link.
    Link,
    /// An extra fibre on a link.
    Fibre,
}

/// What a price is asked for: an item, and the order for it.
#[derive(Clone, Copy, PartialEq, Eq, Debug)]
pub struct Enquiry {
    /// What is priced.
    pub item: Item,
    /// For which order.
    pub order: Order,
}

/// Which of the three sheets prices what is asked for.
#[derive(Clone, Copy, PartialEq, Eq, Debug)]
pub enum Choice {
    /// The flat sheet.
    Flat,
    /// The indexed sheet.
    Indexed,
    /// The dated sheet.
    Dated,
}

/// What a line asks of the desk.
#[derive(Clone, Copy, PartialEq, Eq, Debug)]
pub enum Request {
    /// The price of an item.
    Price(Enquiry),
    /// That what follows is priced on this sheet.
    Sheet(Choice),
    /// One more row of the index of wages.
    Wages(Dated<IndexNumber>),
    /// One more row of the index of consumer prices.
    Consumer(Dated<IndexNumber>),
    /// One more price record.
    Record(Dated<Prices>),
}

/// The sheet that a word names: `flat`, `indexed` or `dated`. Any other word is refused as `UnknownSheet`.
impl TryFrom<&[u8]> for Choice {
    type Error = Unreadable;

    ghost try_from_gives = { λ word result. result ≡ choice_named word.now };

    fn try_from(word: &[u8]) -> Result<Choice, Unreadable> {
        match word {
            b"flat" => Ok(Choice::Flat),
            b"indexed" => Ok(Choice::Indexed),
            b"dated" => Ok(Choice::Dated),
            _ => Err(Unreadable::UnknownSheet),
        }
    }
}

impl fmt::Display for Item {
    ghost output = { λ item. Some (item_text item) };

    fn fmt<W: fmt::Write>(&self, f: &mut fmt::Formatter<W>) -> fmt::Result {
        match self {
            Item::Link => f.write_str("LINK"),
            Item::Fibre => f.write_str("FIBRE"),
        }
    }
}
