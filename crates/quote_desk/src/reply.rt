// The answer to a line, and its text.
ghost use Rattle.std.specs.Prelude.{◌≡◌, ◌+◌, ◌-◌, ◌^◌, min, Some};
ghost use Rattle.quote_desk.specs.Replies.{reply_text};

use links::quotation::Quotation;
use refusal::Refusal;
use requests::request::Enquiry;
use requests::unreadable::Unreadable;
use std::fmt;

/// What a line is answered: a price, a refusal of what it asks, or why it cannot be read.
#[derive(Clone, Copy, PartialEq, Eq, Debug)]
pub enum Answer {
    /// The price of what the line asks.
    Priced(Enquiry, Quotation),
    /// Why what the line asks has none.
    Refused(Enquiry, Refusal),
    /// Why the line cannot be read.
    Unread(Unreadable),
}

/// An answer with the number of its line, counted from 1.
#[derive(Clone, Copy, PartialEq, Eq, Debug)]
pub struct Reply {
    /// The line's number.
    pub line: u64,
    /// What it is answered.
    pub answer: Answer,
}

impl Reply {
    /// The reply to a line with so many above it. A line that no 64-bit number counts would get the largest.
    pub const fn below(above: usize, answer: Answer) -> Reply
        ensures line { result.line ≡ min (above + 1) (2 ^ 64 - 1) }
        ensures answer { result.answer ≡ answer }
    {
        Reply {
            line: (above as u64).saturating_add(1),
            answer,
        }
    }
}

impl fmt::Display for Reply {
    ghost output = { λ reply. Some (reply_text reply) };

    fn fmt<W: fmt::Write>(&self, f: &mut fmt::Formatter<W>) -> fmt::Result {
        let line = self.line;
        match self.answer {
            Answer::Priced(enquiry, quotation) => {
                let item = enquiry.item;
                let order = enquiry.order;
                write!(f, "LINE {line} {item} {order}: {quotation}")
            }
            Answer::Refused(enquiry, refusal) => {
                let item = enquiry.item;
                let order = enquiry.order;
                let number = refusal.number();
                write!(f, "LINE {line} {item} {order}: REFUSED {number} {refusal}")
            }
            Answer::Unread(reason) => write!(f, "LINE {line} UNREADABLE: {reason}"),
        }
    }
}
