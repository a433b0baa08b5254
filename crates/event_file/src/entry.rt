// An entry taken apart: one letter, three numbers, a form byte and a label.
ghost use Rattle.std.specs.Prelude.{◌≡◌, ◌<◌, ◌≤◌, ◌∷◌, length, None, Some, MatchOption, MatchResult};
ghost use Rattle.std.specs.List.{list_all};
ghost use Rattle.event_file.specs.Format.{label_stands, printable};
ghost use Rattle.event_file.specs.Entries.{FieldsOf, LetterOf, bad_fields, event_in, event_of, event_refusal, filled_in_vain, is_blank, is_zero, letter_byte, most_form, shown_answer, shown_event, told};
ghost use Rattle.event_file.specs.Laws.{OnlyItsBytes, ReadsBack};

use crate::event::FileEvent;
use refusal::Refusal;

/// The bytes of an entry.
pub const ENTRY_BYTES: usize = 30;

const LABEL_BYTES: usize = 16;

// The letter of an event.
#[derive(Clone, Copy, PartialEq, Eq, Debug)]
enum Letter {
    Commitment,
    Raise,
    Opening,
    Cabling,
    Launch,
}

impl TryFrom<char> for Letter {
    type Error = Refusal;

    ghost try_from_gives = { LetterOf };

    fn try_from(letter: char) -> Result<Letter, Refusal> {
        match letter {
            'E' => Ok(Letter::Commitment),
            'A' => Ok(Letter::Raise),
            'P' => Ok(Letter::Opening),
            'S' => Ok(Letter::Cabling),
            'L' => Ok(Letter::Launch),
            _ => Err(Refusal::UnknownLetter),
        }
    }
}

impl Letter {
    // The largest form of a letter: only a site may be cabled by a third party.
    const fn most_form(self) -> u8
        ensures value { result ≡ most_form (letter_byte self) }
    {
        match self {
            Letter::Cabling => 1,
            _ => 0,
        }
    }
}

// Whether a byte prints as a character.
const fn prints(byte: u8) -> bool
    ensures value { result ≡ printable byte }
{
    matches!(byte, 32..=126)
}

// Whether all bytes print as characters.
pub(crate) fn all_print(bytes: &[u8]) -> bool
    ensures value { result ≡ list_all printable bytes.now }
{
    bytes.iter().all(|byte| prints(*byte))
}

// Whether bytes can be a label: sixteen of them, each from 32 to 126.
fn label_stands(label: &[u8]) -> bool
    ensures value { result ≡ label_stands label.now }
{
    label.len() == LABEL_BYTES && all_print(label)
}

// Whether all bytes are zero.
fn all_zero(bytes: &[u8]) -> bool
    ensures value { result ≡ list_all is_zero bytes.now }
{
    bytes.iter().all(|byte| *byte == 0)
}

/// Whether an entry is a blank: thirty bytes, all zero.
pub fn is_blank(bytes: &[u8]) -> bool
    ensures value { result ≡ is_blank bytes.now }
{
    bytes.len() == ENTRY_BYTES && all_zero(bytes)
}

// The parts of an entry, before they are given a meaning.
#[derive(Clone, Copy)]
struct Fields<'a> {
    letter: Letter,
    date: u32,
    number: u32,
    amount: u32,
    form: u8,
    label: &'a [u8],
}

impl<'a> Fields<'a> {
    // The parts of an entry, from its letter and the bytes after it, if these are enough for all but the label.
    fn split(letter: Letter, rest: &'a [u8]) -> Option<Fields<'a>>
        ensures answer { let entry = letter_byte letter ∷ rest.now in
            MatchOption result (length rest.now < 13)
            (λ f. (13 ≤ length rest.now) × FieldsOf entry f) }
    {
        let [
            d0,
            d1,
            d2,
            d3,
            n0,
            n1,
            n2,
            n3,
            a0,
            a1,
            a2,
            a3,
            form,
            label @ ..,
        ] = rest
        else {
            return None;
        };
        Some(Fields {
            letter,
            date: u32::from_be_bytes([*d0, *d1, *d2, *d3]),
            number: u32::from_be_bytes([*n0, *n1, *n2, *n3]),
            amount: u32::from_be_bytes([*a0, *a1, *a2, *a3]),
            form: *form,
            label,
        })
    }

    // Whether a launch says more than its date.
    fn filled_in_vain(self) -> bool
        ensures value { let f = self.entry in
            result ≡ filled_in_vain (letter_byte f.letter) f.number f.amount }
    {
        self.letter == Letter::Launch && (self.number != 0 || self.amount != 0)
    }

    // Whether the form, a number or the label is wrong.
    fn bad(self) -> bool
        ensures value { let f = self.entry in
            result ≡ bad_fields (letter_byte f.letter) f.number f.amount f.form f.label.now }
    {
        self.form > self.letter.most_form() || self.filled_in_vain() || !label_stands(self.label)
    }

    // The event that the fields mean.
    fn event(self) -> FileEvent<'a>
        ensures value { let f = self.entry in
            shown_event result ≡
            event_of (letter_byte f.letter) f.date f.number f.amount f.form f.label.now }
    {
        let (date, label) = (self.date, self.label);
        match self.letter {
            Letter::Commitment => FileEvent::Commitment {
                date,
                operator: self.number,
                rate: self.amount,
                label,
            },
            Letter::Raise => FileEvent::Raise {
                date,
                operator: self.number,
                rate: self.amount,
                label,
            },
            Letter::Opening => FileEvent::Opening {
                date,
                object: self.number,
                dwellings: self.amount,
                label,
            },
            Letter::Cabling => FileEvent::Cabling {
                date,
                object: self.number,
                dwellings: self.amount,
                third_party: self.form == 1,
                label,
            },
            Letter::Launch => FileEvent::Launch { date, label },
        }
    }
}

// The event of a letter and the bytes after it, if it may stand where it does.
fn event_in(letter: Letter, rest: &[u8], after_blank: bool) -> Result<FileEvent<'_>, Refusal>
    ensures answer { let entry = letter_byte letter ∷ rest.now in
        let refused = event_refusal after_blank entry in
        MatchResult result (λ e. (refused ≡ None) × (shown_event e ≡ event_in entry))
        (λ x. refused ≡ Some x) }
{
    if after_blank {
        return Err(Refusal::BlankRuleBroken);
    }
    let Some(fields) = Fields::split(letter, rest) else {
        return Err(Refusal::BadEntryContent);
    };
    if fields.bad() {
        return Err(Refusal::BadEntryContent);
    }
    Ok(fields.event())
}

/// What an entry tells, an event or a blank, where a blank stands before it in its block or not. It is refused for its
/// letter (21), for what breaks the rule of blanks (22), or for its form, its numbers or its label (23).
pub fn read_entry(bytes: &[u8], after_blank: bool) -> Result<Option<FileEvent<'_>>, Refusal>
    ensures answer { shown_answer result ≡ told after_blank bytes.now }
    ensures back { ReadsBack }
    ensures exact { OnlyItsBytes }
{
    let [letter, rest @ ..] = bytes else {
        return Err(Refusal::BlankRuleBroken);
    };
    match char::from(*letter) {
        '\0' if is_blank(bytes) => Ok(None),
        '\0' => Err(Refusal::BlankRuleBroken),
        letter => {
            let event = event_in(Letter::try_from(letter)?, rest, after_blank)?;
            Ok(Some(event))
        }
    }
}
