// A zone with its tables, and the strips that its calls are lent.
use crate::instruction::{Call, Places};
use at_once::settled::{MOST_LINES, Settled, bill_and_share_out};
use book::entries::{RegisterEntry, RollEntry};
use book::event::{Change, Event};
use book::figures::Figures;
use book::launched::LaunchedZone;
use book::lines::Line;
use book::outcome::Refused;
use book::prepared::PreparedZone;
use refusal::Refusal;
use std::mem;
use tariff::kinds::Kind;
use tariff::questions::Tariff;

// One more than a zone can count.
const ROLL_PLACES: usize = 17;

const REGISTER_PLACES: usize = 70;

/// Places of a strip that a call other than a share-out is lent at most.
pub const STRIP_PLACES: usize = 1_200;

/// In preparation or launched. Each levy is shared out at once, so there is no third case.
#[derive(Drop)]
pub enum ZoneState {
    Prepared(PreparedZone),
    Launched(LaunchedZone),
}

/// Where calls write: charges and contributions on one strip, credits on the other.
#[derive(Drop)]
pub struct Strips {
    pub bill: Vec<Line>,
    pub credits: Vec<Line>,
}

/// What a call comes to: the zone's state does not take it, it is refused, or it has written so many lines. A share-out may
/// have found too few places at first.
#[derive(Clone, Copy)]
pub enum Outcome {
    NotTaken,
    Refused(Refusal),
    Done {
        billed: usize,
        turned_down: Option<Refusal>,
        credited: usize,
    },
}

/// A zone with its tables, and how many places of tables and strips its calls are lent.
#[derive(Drop)]
pub struct PlayedZone {
    pub zone: ZoneState,
    pub roll: [RollEntry; ROLL_PLACES],
    pub register: [RegisterEntry; REGISTER_PLACES],
    pub places: Places,
    pub share: usize,
}

// The first places of a slice, or all where it has no more.
fn first<T>(all: &mut [T], places: usize) -> &mut [T] {
    let places = places.min(all.len());
    &mut all[..places]
}

// A zone after a call that writes no line, or after one that does.
const fn unbilled(zone: ZoneState) -> (ZoneState, Outcome) {
    let outcome = Outcome::Done {
        billed: 0,
        turned_down: None,
        credited: 0,
    };
    (zone, outcome)
}

fn settled(done: Settled) -> (ZoneState, Outcome) {
    let outcome = Outcome::Done {
        billed: done.billed,
        turned_down: done.turned_down,
        credited: done.credited,
    };
    (ZoneState::Launched(done.zone), outcome)
}

fn refused_prepared(back: Refused<PreparedZone>) -> (ZoneState, Outcome) {
    (
        ZoneState::Prepared(back.kept),
        Outcome::Refused(back.refusal),
    )
}

fn refused_launched(back: Refused<LaunchedZone>) -> (ZoneState, Outcome) {
    (
        ZoneState::Launched(back.kept),
        Outcome::Refused(back.refusal),
    )
}

impl PlayedZone {
    // An empty zone in preparation, with blank tables that are lent whole.
    pub(crate) const fn new() -> PlayedZone {
        PlayedZone {
            zone: ZoneState::Prepared(PreparedZone::new()),
            roll: [RollEntry::BLANK; ROLL_PLACES],
            register: [RegisterEntry::BLANK; REGISTER_PLACES],
            places: Places {
                roll: ROLL_PLACES,
                register: REGISTER_PLACES,
                strip: STRIP_PLACES,
            },
            share: MOST_LINES,
        }
    }

    // The zone's plain numbers.
    pub(crate) fn figures(&self) -> Figures {
        match &self.zone {
            ZoneState::Prepared(zone) => zone.figures(),
            ZoneState::Launched(zone) => zone.figures(),
        }
    }

    // Writes a balance straight into the roll.
    pub(crate) fn set_balance(&mut self, operator: u32, micros: u64) {
        let counted = self.figures().operators;
        for member in self.roll.iter_mut().take(counted) {
            if member.operator == operator {
                member.balance = micros;
            }
        }
    }

    // Plays a call. Before its launch a zone asks nothing of the sheet.
    pub(crate) fn play<T: Tariff>(
        &mut self,
        sheet: &T,
        strips: &mut Strips,
        call: Call,
    ) -> Outcome {
        // An empty zone stands in its place while the zone is moved through the call.
        let before = mem::replace(&mut self.zone, ZoneState::Prepared(PreparedZone::new()));
        let (after, outcome) = match (before, call) {
            (ZoneState::Prepared(zone), Call::Launch(date)) => self
                .launched(zone, date)
                .map_or_else(
                    refused_prepared,
                    |after| unbilled(ZoneState::Launched(after)),
                ),
            (ZoneState::Prepared(zone), Call::Subscription(event)) => self
                .subscribed(zone, event)
                .map_or_else(
                    refused_prepared,
                    |after| unbilled(ZoneState::Prepared(after)),
                ),
            (ZoneState::Launched(zone), Call::Subscription(event)) => self
                .billed(zone, sheet, strips, event)
                .map_or_else(refused_launched, settled),
            (ZoneState::Launched(zone), Call::Installation(entry)) => self
                .installed(zone, sheet, strips, entry)
                .map_or_else(refused_launched, settled),
            (zone, _) => (zone, Outcome::NotTaken),
        };
        self.zone = after;
        outcome
    }

    fn launched(
        &mut self,
        zone: PreparedZone,
        date: u32,
    ) -> Result<LaunchedZone, Refused<PreparedZone>> {
        let roll = first(&mut self.roll, self.places.roll);
        let register = first(&mut self.register, self.places.register);
        zone.launch(roll, register, date)
    }

    // A commitment or raise before the launch.
    fn subscribed(
        &mut self,
        zone: PreparedZone,
        event: Event,
    ) -> Result<PreparedZone, Refused<PreparedZone>> {
        let roll = first(&mut self.roll, self.places.roll);
        let register = first(&mut self.register, self.places.register);
        let (date, operator, rate) = (event.date, event.operator, event.rate);
        match event.change {
            Change::Commitment => zone.commitment(roll, register, date, operator, rate),
            Change::Raise => zone.raise(roll, register, date, operator, rate),
        }
    }

    // A commitment or raise after the launch, shared out at once.
    fn billed<T: Tariff>(
        &mut self,
        zone: LaunchedZone,
        sheet: &T,
        strips: &mut Strips,
        event: Event,
    ) -> Result<Settled, Refused<LaunchedZone>> {
        let roll = first(&mut self.roll, self.places.roll);
        let register = first(&mut self.register, self.places.register);
        let bill = first(strips.bill.as_mut_slice(), self.places.strip);
        let credits = strips.credits.as_mut_slice();
        let share = self.share;
        bill_and_share_out(zone, sheet, roll, register, bill, credits, share, event)
    }

    // An opening or cabling.
    fn installed<T: Tariff>(
        &mut self,
        zone: LaunchedZone,
        sheet: &T,
        strips: &mut Strips,
        entry: RegisterEntry,
    ) -> Result<Settled, Refused<LaunchedZone>> {
        let roll = first(&mut self.roll, self.places.roll);
        let register = first(&mut self.register, self.places.register);
        let strip = first(strips.bill.as_mut_slice(), self.places.strip);
        let (date, object, dwellings) = (entry.installed, entry.object, entry.dwellings);
        let done = match entry.kind {
            Kind::Covered => zone.opening(sheet, roll, register, strip, date, object, dwellings)?,
            Kind::Connectable => {
                zone.cabling(sheet, roll, register, strip, date, object, false, dwellings)?
            }
            Kind::ThirdParty => {
                zone.cabling(sheet, roll, register, strip, date, object, true, dwellings)?
            }
        };
        Ok(Settled {
            zone: done.zone,
            billed: done.lines,
            turned_down: None,
            credited: 0,
        })
    }
}
