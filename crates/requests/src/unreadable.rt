// Why a line cannot be read.
ghost use Rattle.std.specs.Prelude.{◌≡◌, Some};
ghost use Rattle.requests.specs.RequestTexts.{reason_text};

use std::fmt;

/// Why a line cannot be read. Its text is the reason in words.
#[derive(Clone, Copy, PartialEq, Eq, Debug)]
pub enum Unreadable {
    /// It has more bytes than the longest line.
    TooLong,
    /// Its first word is none that a line begins with.
    UnknownWord,
    /// It has too few or too many words.
    WordCount,
    /// A date or number is not one to nine digits.
    NoNumber,
    /// A price is not euros with a point and six decimals.
    NoAmount,
    /// A price is larger than can be held.
    LargeAmount,
    /// It names no sheet.
    UnknownSheet,
}

impl Unreadable {
    /// What is wrong with the line.
    pub const fn reason(self) -> &'static str
        ensures value { result.now ≡ reason_text self }
    {
        match self {
            Unreadable::TooLong => "the line is longer than 4096 bytes",
            Unreadable::UnknownWord =>
                "a line begins with link, fibre, sheet, wages, consumer or price",
            Unreadable::WordCount => "the line has too few or too many words",
            Unreadable::NoNumber => "a date or number is not one to nine digits",
            Unreadable::NoAmount => "a price is not euros with a point and six decimals",
            Unreadable::LargeAmount =>
                "a price is above 4294.967295 euros, or has more than nine digits before its point",
            Unreadable::UnknownSheet => "the sheet is not flat, indexed or dated",
        }
    }
}

impl fmt::Display for Unreadable {
    ghost output = { λ reason. Some (reason_text reason) };

    fn fmt<W: fmt::Write>(&self, f: &mut fmt::Formatter<W>) -> fmt::Result {
        f.write_str(self.reason())
    }
}
