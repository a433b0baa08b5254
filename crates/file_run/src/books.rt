// The books of a run: its zone with its ledger.
ghost use Rattle.std.specs.Prelude.{◌≡◌};
ghost use Rattle.event_file.specs.Entries.{shown_event};
ghost use Rattle.book.specs.Life.{empty_state};
ghost use Rattle.book.specs.Passing.{tables};
ghost use Rattle.book.specs.Runs.{lived};
ghost use Rattle.file_run.specs.Taking.{call_of, steps_for, refusal_to};
ghost use Rattle.file_run.specs.Zones.{state_of, AnsweredAs};

use crate::ledger::{Ledger, STRIP_PLACES};
use crate::notice::RefusedEvent;
use crate::report::{REGISTER_PLACES, ROLL_PLACES};
use crate::zone_state::ZoneState;
use book::entries::{RegisterEntry, RollEntry};
use book::figures::Figures;
use book::lines::Line;
use book::outcome::Refused;
use book::prepared::PreparedZone;
use event_file::event::PlacedEvent;
use std::mem;
use tariff::questions::Tariff;

// The zone of a run between two events, and the ledger that its calls are lent.
#[derive(Drop)]
pub(crate) struct Books {
    pub(crate) zone: ZoneState,
    pub(crate) ledger: Ledger,
}

impl Books {
    // An empty zone, whatever the tables hold.
    pub(crate) fn new(
        roll: [RollEntry; ROLL_PLACES],
        register: [RegisterEntry; REGISTER_PLACES],
    ) -> Books
        ensures state { state_of result ≡ empty_state (tables roll register) }
    {
        Books {
            zone: ZoneState::Prepared(PreparedZone::new()),
            ledger: Ledger {
                roll,
                register,
                bill: [Line::BLANK; STRIP_PLACES],
                credits: [Line::BLANK; STRIP_PLACES],
            },
        }
    }

    // The zone's plain numbers.
    pub(crate) fn figures(&self) -> Figures
        ensures value { result ≡ (state_of self.now).figures }
    {
        match &self.zone {
            ZoneState::Prepared(zone) => zone.figures(),
            ZoneState::Launched(zone) => zone.figures(),
        }
    }

    // Takes an event, with its levy shared out, or refuses it and stays as it was.
    pub(crate) fn take<'a, T: Tariff>(
        &mut self,
        sheet: &T,
        placed: PlacedEvent<'a>,
    ) -> Result<(), RefusedEvent<'a>>
        ensures answer { let call = call_of (shown_event placed.entry.event) in
            let refusal = refusal_to (T.meaning sheet.now) (state_of self.old) call in
            AnsweredAs placed.entry refusal result }
        ensures after { let call = call_of (shown_event placed.entry.event) in
            state_of self.new ≡ lived (T.meaning sheet.now) (state_of self.old) (steps_for call) }
    {
        // An empty zone stands in its place while the zone is moved through the call.
        let before = mem::replace(&mut self.zone, ZoneState::Prepared(PreparedZone::new()));
        match self.ledger.taken(before, sheet, placed.event) {
            Ok(after) => {
                self.zone = after;
                Ok(())
            }
            Err(back) => {
                let Refused { refusal, kept } = back;
                self.zone = kept;
                Err(RefusedEvent { refusal, placed })
            }
        }
    }
}
