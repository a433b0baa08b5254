// A life of a zone, and what its calls are given.
use crate::instruction::{Call, Choice, Setting};
use crate::played_zone::{Outcome, PlayedZone, Strips, ZoneState};
use refusal::Refusal;
use series::{Dated, IndexNumber};
use sheet_parts::given::{Prices, Terms};
use sheets::dated::DatedSheet;
use sheets::flat::FlatSheet;
use sheets::indexed::IndexedSheet;
use std::alloc::{AllocError, Global};
use tariff::questions::YEAR_INDICES;

// The prices that a life begins with, in micro-euros.
const PRICES: Prices = Prices {
    covered: 6_910_000,
    connectable: 18_770_000,
    third: 16_200_000,
};

// The terms that a life begins with.
const TERMS: Terms = Terms {
    contribution: 15,
    weights: [100; YEAR_INDICES],
};

/// The sheet is made anew, of what was given, at each call that needs one.
#[derive(Drop)]
pub struct Life {
    pub played: PlayedZone,
    choice: Choice,
    prices: Prices,
    terms: Terms,
    wages: Vec<Dated<IndexNumber>>,
    consumer: Vec<Dated<IndexNumber>>,
    records: Vec<Dated<Prices>>,
}

impl Life {
    pub(crate) fn new(heap: Global) -> Life {
        Life {
            played: PlayedZone::new(),
            choice: Choice::Flat,
            prices: PRICES,
            terms: TERMS,
            wages: Vec::new(heap),
            consumer: Vec::new(heap),
            records: Vec::new(heap),
        }
    }

    pub(crate) fn set(&mut self, setting: Setting) -> Result<(), AllocError> {
        match setting {
            Setting::Sheet(choice) => self.choice = choice,
            Setting::Prices(prices) => self.prices = prices,
            Setting::Contribution(hundredths) => self.terms.contribution = hundredths,
            Setting::Weights(weights) => self.terms.weights = weights,
            Setting::Wages(row) => self.wages.push(row)?,
            Setting::Consumer(row) => self.consumer.push(row)?,
            Setting::Record(row) => self.records.push(row)?,
            Setting::Lend(places) => self.played.places = places,
            Setting::Share(places) => self.played.share = places,
            Setting::Balance { operator, micros } => self.played.set_balance(operator, micros),
        }
        Ok(())
    }

    // Plays a call, on the sheet where the zone asks one, and else on that of the prices and terms that a life begins with.
    // A sheet that cannot be made refuses the call.
    pub(crate) fn play(&mut self, strips: &mut Strips, call: Call) -> Outcome {
        let outcome = match (&self.played.zone, call) {
            (ZoneState::Prepared(_), _) | (_, Call::Launch(_)) => {
                self.play_on_flat(PRICES, TERMS, strips, call)
            }
            _ => self.play_on_sheet(strips, call),
        };
        outcome.unwrap_or_else(Outcome::Refused)
    }

    // Each sheet has a type of its own.
    fn play_on_sheet(&mut self, strips: &mut Strips, call: Call) -> Result<Outcome, Refusal> {
        match self.choice {
            Choice::Flat => { self.play_on_flat(self.prices, self.terms, strips, call) }
            Choice::Indexed => {
                let mut place = None;
                let wages = self.wages.as_slice();
                let consumer = self.consumer.as_slice();
                IndexedSheet::fill(&mut place, self.prices, self.terms, wages, consumer)?;
                let Some(sheet) = &place else { unreachable!() };
                Ok(self.played.play(sheet, strips, call))
            }
            Choice::Dated => {
                let mut place = None;
                DatedSheet::fill(&mut place, self.records.as_slice(), self.terms)?;
                let Some(sheet) = &place else { unreachable!() };
                Ok(self.played.play(sheet, strips, call))
            }
        }
    }

    fn play_on_flat(
        &mut self,
        prices: Prices,
        terms: Terms,
        strips: &mut Strips,
        call: Call,
    ) -> Result<Outcome, Refusal> {
        let mut place = None;
        FlatSheet::fill(&mut place, prices, terms)?;
        let Some(sheet) = &place else { unreachable!() };
        Ok(self.played.play(sheet, strips, call))
    }
}
