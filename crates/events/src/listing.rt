// The lines of a listing.
ghost use Rattle.std.specs.Prelude.{◌≡◌, Some};
ghost use Rattle.event_file.specs.Entries.{shown, shown_event};
ghost use Rattle.events.specs.Lines.{date_of, form_of, letter_of, line_text, numbers_text, place_text, told_text};

use event_file::event::{Entry, FileEvent};
use event_file::fault::{Fault, Place};
use event_file::label::printed;
use std::fmt;

// The letter of an event.
fn letter(event: FileEvent<'_>) -> &'static str
    ensures value { result.now ≡ letter_of (shown_event event.entry) }
{
    match event {
        FileEvent::Commitment { .. } => "E",
        FileEvent::Raise { .. } => "A",
        FileEvent::Opening { .. } => "P",
        FileEvent::Cabling { .. } => "S",
        FileEvent::Launch { .. } => "L",
    }
}

// The date of an event.
fn date(event: FileEvent<'_>) -> u32
    ensures value { result ≡ date_of (shown_event event.entry) }
{
    match event {
        FileEvent::Commitment { date, .. }
        | FileEvent::Raise { date, .. }
        | FileEvent::Opening { date, .. }
        | FileEvent::Cabling { date, .. }
        | FileEvent::Launch { date, .. } => date,
    }
}

// The form of an event: 1 for third-party cabling, else 0.
fn form(event: FileEvent<'_>) -> u8
    ensures value { result ≡ form_of (shown_event event.entry) }
{
    match event {
        FileEvent::Cabling { third_party, .. } => u8::from(third_party),
        _ => 0,
    }
}

// The numbers of an event, with their names.
#[derive(Clone, Copy)]
struct Numbers<'a>(FileEvent<'a>);

impl<'a> fmt::Display for Numbers<'a> {
    ghost output = { λ numbers. Some (numbers_text (shown_event numbers.0)) };

    fn fmt<W: fmt::Write>(&self, f: &mut fmt::Formatter<W>) -> fmt::Result {
        match self.0 {
            FileEvent::Commitment { operator, rate, .. }
            | FileEvent::Raise { operator, rate, .. } => {
                write!(f, " operator {operator} rate {rate}")
            }
            FileEvent::Opening {
                object,
                dwellings,
                ..
            }
            | FileEvent::Cabling {
                object,
                dwellings,
                ..
            } => { write!(f, " object {object} dwellings {dwellings}") }
            FileEvent::Launch { .. } => Ok(()),
        }
    }
}

// What an entry tells, in words.
#[derive(Clone, Copy)]
struct Words<'a>(Option<FileEvent<'a>>);

impl<'a> fmt::Display for Words<'a> {
    ghost output = { λ words. Some (told_text (shown words.0)) };

    fn fmt<W: fmt::Write>(&self, f: &mut fmt::Formatter<W>) -> fmt::Result {
        let Some(event) = self.0 else {
            return write!(f, "blank");
        };
        let letter = letter(event);
        let date = date(event);
        let numbers = Numbers(event);
        let form = form(event);
        let label = printed(event.label());
        write!(
            f,
            "{letter} date {date}{numbers} form {form} label \"{label}\""
        )
    }
}

// Where a refusal stands.
#[derive(Clone, Copy)]
struct Standing(Place);

impl fmt::Display for Standing {
    ghost output = { λ standing. Some (place_text standing.0) };

    fn fmt<W: fmt::Write>(&self, f: &mut fmt::Formatter<W>) -> fmt::Result {
        match self.0 {
            Place::File => write!(f, "file"),
            Place::Block(block) => write!(f, "block {block}"),
            Place::Entry { block, entry } => write!(f, "block {block} entry {entry}"),
        }
    }
}

/// The line of an entry or of a refusal.
#[derive(Clone, Copy)]
pub struct ListingLine<'a>(pub Result<Entry<'a>, Fault>);

impl<'a> fmt::Display for ListingLine<'a> {
    ghost output = { λ line. Some (line_text line.0) };

    fn fmt<W: fmt::Write>(&self, f: &mut fmt::Formatter<W>) -> fmt::Result {
        match self.0 {
            Ok(told) => {
                let block = told.block;
                let entry = told.entry;
                let words = Words(told.event);
                write!(f, "block {block} entry {entry}: {words}")
            }
            Err(fault) => {
                let place = Standing(fault.place);
                let number = fault.refusal.number();
                let sentence = fault.refusal.sentence();
                write!(f, "{place}: refused {number}, {sentence}")
            }
        }
    }
}
