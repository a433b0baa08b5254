// Why the book turns something down: twenty-five refusals, each with a number and a sentence.
#![tactic(auto)]

ghost use Rattle.std.specs.Prelude.{◌≡◌, Some};
ghost use Rattle.refusal.specs.Numbers.{number_of};
ghost use Rattle.refusal.specs.Sentences.{sentence_of};

use std::error::Error;
use std::fmt;

/// Why something is turned down: the fault type of every layer, from the price sheet to the program. Each case has a
/// number, which reports and files use, and a sentence, which says when it is given.
#[derive(Clone, Copy, PartialEq, Eq, Debug)]
pub enum Refusal {
    /// A table is too short, an entry is outside its limits or repeated, or a total is too large.
    BadTables = 1,
    /// A date is not a calendar day from 20080101 to 20991231.
    NoDate = 2,
    /// The date is before the zone's last date.
    BeforeLastDate = 3,
    /// The date is more than 40 calendar years into the zone's life.
    IndexTooHigh = 4,
    /// The operator number is 0.
    NoOperator = 5,
    /// The rate is not from 1 to 20 tranches.
    RateOutOfRange = 6,
    /// The operator is on the roll already.
    AlreadyOnRoll = 7,
    /// The operator is not on the roll.
    NotOnRoll = 8,
    /// The new rate is not above the present one.
    RateNotRaised = 9,
    /// The roll has no place for another operator.
    RollFull = 10,
    /// The object number is 0 or in the register already.
    ObjectUnusable = 11,
    /// The dwellings are not from 1 to 10000.
    DwellingsOutOfRange = 12,
    /// The register has no place for another object.
    RegisterFull = 13,
    /// The sheet has no price for an object.
    NoPrice = 14,
    /// The sheet has no coefficient for these dates.
    NoCoefficient = 15,
    /// The strip has fewer places than lines to write.
    StripTooShort = 16,
    /// The length is not from 1 to 16000 metres.
    MetresOutOfRange = 17,
    /// The fibres are not from 1 to 6.
    FibresOutOfRange = 18,
    /// The file is no whole number of blocks, or too long.
    BadFileLength = 19,
    /// The block does not match its check.
    BadBlockCheck = 20,
    /// The entry's letter is unknown.
    UnknownLetter = 21,
    /// A blank is not all zero, or an entry follows a blank.
    BlankRuleBroken = 22,
    /// The form, a field that must be zero, or the label is wrong.
    BadEntryContent = 23,
    /// An object before the launch, or a second launch.
    OutOfTurn = 24,
    /// A sheet's value or date is outside its limits, or its dates do not rise.
    BadSheet = 25,
}

impl Refusal {
    /// The number that reports and files use, 1 to 25.
    pub const fn number(self) -> u8
        ensures number { result ≡ number_of self }
    {
        self as u8
    }

    /// What a person needs to know.
    pub const fn sentence(self) -> &'static str
        ensures value { result.now ≡ sentence_of self }
    {
        match self {
            Refusal::BadTables =>
                "a table is too short, an entry is outside its limits or repeated, or a total is too large",
            Refusal::NoDate => "a date is not a calendar day from 20080101 to 20991231",
            Refusal::BeforeLastDate => "the date is before the zone's last date",
            Refusal::IndexTooHigh => "the date is more than 40 calendar years into the zone's life",
            Refusal::NoOperator => "the operator number is 0",
            Refusal::RateOutOfRange => "the rate is not from 1 to 20 tranches",
            Refusal::AlreadyOnRoll => "the operator is on the roll already",
            Refusal::NotOnRoll => "the operator is not on the roll",
            Refusal::RateNotRaised => "the new rate is not above the present one",
            Refusal::RollFull => "the roll has no place for another operator",
            Refusal::ObjectUnusable => "the object number is 0 or in the register already",
            Refusal::DwellingsOutOfRange => "the dwellings are not from 1 to 10000",
            Refusal::RegisterFull => "the register has no place for another object",
            Refusal::NoPrice => "the sheet has no price for an object",
            Refusal::NoCoefficient => "the sheet has no coefficient for these dates",
            Refusal::StripTooShort => "the strip has fewer places than lines to write",
            Refusal::MetresOutOfRange => "the length is not from 1 to 16000 metres",
            Refusal::FibresOutOfRange => "the fibres are not from 1 to 6",
            Refusal::BadFileLength => "the file is no whole number of blocks, or too long",
            Refusal::BadBlockCheck => "the block does not match its check",
            Refusal::UnknownLetter => "the entry's letter is unknown",
            Refusal::BlankRuleBroken => "a blank is not all zero, or an entry follows a blank",
            Refusal::BadEntryContent =>
                "the form, a field that must be zero, or the label is wrong",
            Refusal::OutOfTurn => "an object before the launch, or a second launch",
            Refusal::BadSheet =>
                "a sheet's value or date is outside its limits, or its dates do not rise",
        }
    }
}

impl fmt::Display for Refusal {
    ghost output = { λ r. Some (sentence_of r) };

    fn fmt<W: fmt::Write>(&self, f: &mut fmt::Formatter<W>) -> fmt::Result {
        f.write_str(self.sentence())
    }
}

impl Error for Refusal {}
