// The desk that lines are brought to, and how it answers them.
ghost use Rattle.std.specs.Prelude.{◌≡◌, true, is_some, IfOk, MatchResult, OnOk};
ghost use Rattle.requests.specs.Requests.{request_in};
ghost use Rattle.quote_desk.specs.Desks.{desk_state, first_state, priced, on_flat, on_indexed, on_dated, quotation_on, answer_of, answer_to, state_after, AddsRow};

use crate::reply::Answer;
use links::price::{fibre_price, link_price};
use links::quotation::Quotation;
use refusal::Refusal;
use requests::reading::request_in;
use requests::request::{Choice, Enquiry, Item, Request};
use series::{Dated, IndexNumber};
use sheet_parts::given::{Prices, Terms};
use sheets::dated::DatedSheet;
use sheets::flat::FlatSheet;
use sheets::indexed::IndexedSheet;
use std::alloc::{AllocError, Global};
use tariff::questions::{Tariff, YEAR_INDICES};

// The network's first prices per tranche and dwelling, in micro-euros.
const PRICES: Prices = Prices {
    covered: 6_910_000,
    connectable: 18_770_000,
    third: 16_200_000,
};

// A contribution of 15 hundredths, and tranches that weigh alike.
const TERMS: Terms = Terms {
    contribution: 15,
    weights: [100; YEAR_INDICES],
};

/// A desk: the sheet chosen, and the rows of each series in the order read.
#[derive(Drop)]
pub struct Desk {
    choice: Choice,
    wages: Vec<Dated<IndexNumber>>,
    consumer: Vec<Dated<IndexNumber>>,
    records: Vec<Dated<Prices>>,
}

impl Desk {
    /// A desk with the flat sheet and no series read.
    pub fn new(heap: Global) -> Desk
        ensures value { desk_state result ≡ first_state }
    {
        Desk {
            choice: Choice::Flat,
            wages: Vec::new(heap),
            consumer: Vec::new(heap),
            records: Vec::new(heap),
        }
    }

    /// Reads a line and answers it, if it asks for a price or cannot be read. Such a line changes nothing. Only a row that
    /// finds no memory is turned down, and then nothing changes either.
    pub fn take(&mut self, bytes: &[u8]) -> Result<Option<Answer>, AllocError>
        ensures answer { IfOk result (λ a. a ≡ answer_to (desk_state self.old) bytes.now) }
        ensures after { OnOk result
            (desk_state self.new ≡ state_after (desk_state self.old) bytes.now) }
        ensures kept { MatchResult result
            (λ a. is_some a ≡ true → desk_state self.new ≡ desk_state self.old)
            (λ _. (desk_state self.new ≡ desk_state self.old) × AddsRow (request_in bytes.now)) }
    {
        match request_in(bytes) {
            Ok(None) => Ok(None),
            Ok(Some(Request::Price(enquiry))) => Ok(Some(self.answer(enquiry))),
            Ok(Some(Request::Sheet(sheet))) => {
                self.choice = sheet;
                Ok(None)
            }
            Ok(Some(Request::Wages(row))) => {
                self.wages.push(row)?;
                Ok(None)
            }
            Ok(Some(Request::Consumer(row))) => {
                self.consumer.push(row)?;
                Ok(None)
            }
            Ok(Some(Request::Record(row))) => {
                self.records.push(row)?;
                Ok(None)
            }
            Err(reason) => Ok(Some(Answer::Unread(reason))),
        }
    }

    fn answer(&self, enquiry: Enquiry) -> Answer
        ensures value { result ≡ answer_of enquiry (quotation_on (desk_state self.now) enquiry) }
    {
        match self.quotation(&enquiry) {
            Ok(quotation) => Answer::Priced(enquiry, quotation),
            Err(refusal) => Answer::Refused(enquiry, refusal),
        }
    }

    // The price of an order on the sheet chosen, made of the series read so far. The sheets are three for good, and each is
    // filled with other rows: a match says so plainly.
    fn quotation(&self, enquiry: &Enquiry) -> Result<Quotation, Refusal>
        ensures value { result ≡ quotation_on (desk_state self.now) enquiry.now }
    {
        match self.choice {
            Choice::Flat => on_flat(enquiry),
            Choice::Indexed => on_indexed(self.wages.as_slice(), self.consumer.as_slice(), enquiry),
            Choice::Dated => on_dated(self.records.as_slice(), enquiry),
        }
    }
}

fn on_flat(enquiry: &Enquiry) -> Result<Quotation, Refusal>
    ensures value { result ≡ on_flat enquiry.now }
{
    let mut place = None;
    FlatSheet::fill(&mut place, PRICES, TERMS)?;
    let Some(sheet) = &place else { unreachable!() };
    price_of(sheet, enquiry)
}

fn on_indexed<'a>(
    wages: &'a [Dated<IndexNumber>],
    consumer: &'a [Dated<IndexNumber>],
    enquiry: &Enquiry,
) -> Result<Quotation, Refusal>
    ensures value { result ≡ on_indexed wages.now consumer.now enquiry.now }
{
    let mut place = None;
    IndexedSheet::fill(&mut place, PRICES, TERMS, wages, consumer)?;
    let Some(sheet) = &place else { unreachable!() };
    price_of(sheet, enquiry)
}

fn on_dated(records: &[Dated<Prices>], enquiry: &Enquiry) -> Result<Quotation, Refusal>
    ensures value { result ≡ on_dated records.now enquiry.now }
{
    let mut place = None;
    DatedSheet::fill(&mut place, records, TERMS)?;
    let Some(sheet) = &place else { unreachable!() };
    price_of(sheet, enquiry)
}

// The price of what is asked for, or why there is none.
fn price_of<T: Tariff>(sheet: &T, enquiry: &Enquiry) -> Result<Quotation, Refusal>
    ensures value { result ≡ priced (T.meaning sheet.now) enquiry.now }
{
    match enquiry.item {
        Item::Link => link_price(sheet, &enquiry.order),
        Item::Fibre => fibre_price(sheet, &enquiry.order),
    }
}
