// The ledger of a run, and how it takes an event with the zone that is moved through it.
ghost use Rattle.std.specs.Prelude.{◌≡◌};
ghost use Rattle.refusal.specs.declared.Refusal.TheVariants.{OutOfTurn};
ghost use Rattle.tariff.specs.Meaning.{Meaning};
ghost use Rattle.event_file.specs.Entries.{shown_event};
ghost use Rattle.book.specs.Calls.{commitment as call_commitment, raise as call_raise, opening as call_opening, cabling as call_cabling};
ghost use Rattle.book.specs.Promises.{prepared, launched_on};
ghost use Rattle.at_once.specs.Steps.{call_for};
ghost use Rattle.file_run.specs.Taking.{call_of};
ghost use Rattle.file_run.specs.Zones.{state_in, tables_of, ComesTo, StaysLaunched};

use crate::report::{REGISTER_PLACES, ROLL_PLACES};
use crate::zone_state::ZoneState;
use at_once::settled::bill_and_share_out;
use book::entries::{RegisterEntry, RollEntry};
use book::event::{Change, Event};
use book::launched::LaunchedZone;
use book::lines::Line;
use book::outcome::Refused;
use book::prepared::PreparedZone;
use event_file::event::FileEvent;
use refusal::Refusal;
use tariff::questions::Tariff;

// A share-out among 16 operators for 64 objects has at most as many lines.
pub(crate) const STRIP_PLACES: usize = 1024;

// The ledger of a run: the two tables of its zone, and the strips that its calls write on, one for charges and contributions
// and one for credits. It holds the tables themselves, so that their lengths stand in its type and in no contract. The
// sheet stays beside it: no call changes that.
#[derive(Drop)]
pub(crate) struct Ledger {
    pub(crate) roll: [RollEntry; ROLL_PLACES],
    pub(crate) register: [RegisterEntry; REGISTER_PLACES],
    pub(crate) bill: [Line; STRIP_PLACES],
    pub(crate) credits: [Line; STRIP_PLACES],
}

// A zone that takes no call of a kind is left as it was.
fn out_of_turn<Z>(zone: Z) -> Refused<Z>
    ensures refusal { result.refusal ≡ OutOfTurn }
    ensures kept { result.kept ≡ zone }
{
    Refused {
        refusal: Refusal::OutOfTurn,
        kept: zone,
    }
}

impl Ledger {
    // The zone after an event, or why it refuses it and the zone as it was.
    pub(crate) fn taken<T: Tariff>(
        &mut self,
        zone: ZoneState,
        sheet: &T,
        event: FileEvent<'_>,
    ) -> Result<ZoneState, Refused<ZoneState>>
        ensures answer { let before = state_in zone (tables_of self.old) in
            let call = call_of (shown_event event.entry) in
            let after = tables_of self.new in
            ComesTo state_in state_in (T.meaning sheet.now) before call after result }
    {
        match zone {
            ZoneState::Prepared(prepared) => self.taken_before_launch(prepared, event).map_err(
                |Refused { refusal, kept }| Refused {
                    refusal,
                    kept: ZoneState::Prepared(kept),
                },
            ),
            ZoneState::Launched(launched) => self
                .taken_after_launch(launched, sheet, event)
                .map(ZoneState::Launched)
                .map_err(|Refused { refusal, kept }| Refused {
                    refusal,
                    kept: ZoneState::Launched(kept),
                }),
        }
    }

    // Before its launch a zone takes commitments, raises and the launch.
    fn taken_before_launch(
        &mut self,
        zone: PreparedZone,
        event: FileEvent<'_>,
    ) -> Result<ZoneState, Refused<PreparedZone>>
        ensures answer { let before = prepared zone (tables_of self.old) in
            let call = call_of (shown_event event.entry) in
            (m : Meaning) → ComesTo state_in prepared m before call (tables_of self.new) result }
    {
        let (roll, register) = (&mut self.roll, &self.register);
        match event {
            FileEvent::Commitment {
                date,
                operator,
                rate,
                ..
            } => {
                let after = zone.commitment(roll, register, date, operator, rate)?;
                Ok(ZoneState::Prepared(after))
            }
            FileEvent::Raise {
                date,
                operator,
                rate,
                ..
            } => {
                let raised = zone.raise(roll, register, date, operator, rate)?;
                Ok(ZoneState::Prepared(raised))
            }
            FileEvent::Launch { date, .. } => {
                let launched = zone.launch(roll, register, date)?;
                Ok(ZoneState::Launched(launched))
            }
            FileEvent::Opening { .. } | FileEvent::Cabling { .. } => Err(out_of_turn(zone)),
        }
    }

    // After its launch a zone takes everything but a launch.
    fn taken_after_launch<T: Tariff>(
        &mut self,
        zone: LaunchedZone,
        sheet: &T,
        event: FileEvent<'_>,
    ) -> Result<LaunchedZone, Refused<LaunchedZone>>
        ensures answer { let before = launched_on zone (tables_of self.old) in
            let call = call_of (shown_event event.entry) in
            StaysLaunched (T.meaning sheet.now) before call (tables_of self.new) result }
    {
        match event {
            FileEvent::Commitment {
                date,
                operator,
                rate,
                ..
            } => self.commitment(zone, sheet, date, operator, rate),
            FileEvent::Raise {
                date,
                operator,
                rate,
                ..
            } => self.raise(zone, sheet, date, operator, rate),
            FileEvent::Opening {
                date,
                object,
                dwellings,
                ..
            } => self.opening(zone, sheet, date, object, dwellings),
            FileEvent::Cabling {
                date,
                object,
                dwellings,
                third_party,
                ..
            } => self.cabling(zone, sheet, date, object, third_party, dwellings),
            FileEvent::Launch { .. } => Err(out_of_turn(zone)),
        }
    }

    fn commitment<T: Tariff>(
        &mut self,
        zone: LaunchedZone,
        sheet: &T,
        date: u32,
        operator: u32,
        rate: u32,
    ) -> Result<LaunchedZone, Refused<LaunchedZone>>
        ensures answer { let before = launched_on zone (tables_of self.old) in
            let call = call_commitment date operator rate in
            StaysLaunched (T.meaning sheet.now) before call (tables_of self.new) result }
    {
        let event = Event {
            change: Change::Commitment,
            date,
            operator,
            rate,
        };
        self.settled(zone, sheet, event)
    }

    fn raise<T: Tariff>(
        &mut self,
        zone: LaunchedZone,
        sheet: &T,
        date: u32,
        operator: u32,
        rate: u32,
    ) -> Result<LaunchedZone, Refused<LaunchedZone>>
        ensures answer { let before = launched_on zone (tables_of self.old) in
            let call = call_raise date operator rate in
            StaysLaunched (T.meaning sheet.now) before call (tables_of self.new) result }
    {
        let event = Event {
            change: Change::Raise,
            date,
            operator,
            rate,
        };
        self.settled(zone, sheet, event)
    }

    // With at most 16 operators and 64 objects each line of a share-out has one of 1,024 places.
    fn settled<T: Tariff>(
        &mut self,
        zone: LaunchedZone,
        sheet: &T,
        event: Event,
    ) -> Result<LaunchedZone, Refused<LaunchedZone>>
        ensures answer { let s = launched_on zone (tables_of self.old) in
            StaysLaunched (T.meaning sheet.now) s (call_for event) (tables_of self.new) result }
    {
        let (roll, register) = (&mut self.roll, &self.register);
        let (bill, credits) = (&mut self.bill, &mut self.credits);
        let done = bill_and_share_out(
            zone,
            sheet,
            roll,
            register,
            bill,
            credits,
            STRIP_PLACES,
            event,
        )?;
        Ok(done.zone)
    }

    // An opening and a cabling differ in the call alone: passed in as a closure, it would take as many lines as each has. A
    // cabling is by a third party or not, a yes or no as in the call.
    fn opening<T: Tariff>(
        &mut self,
        zone: LaunchedZone,
        sheet: &T,
        date: u32,
        object: u32,
        dwellings: u32,
    ) -> Result<LaunchedZone, Refused<LaunchedZone>>
        ensures answer { let before = launched_on zone (tables_of self.old) in
            let call = call_opening date object dwellings in
            StaysLaunched (T.meaning sheet.now) before call (tables_of self.new) result }
    {
        let (roll, register, bill) = (&self.roll, &mut self.register, &mut self.bill);
        let done = zone.opening(sheet, roll, register, bill, date, object, dwellings)?;
        Ok(done.zone)
    }

    fn cabling<T: Tariff>(
        &mut self,
        zone: LaunchedZone,
        sheet: &T,
        date: u32,
        object: u32,
        third_party: bool,
        dwellings: u32,
    ) -> Result<LaunchedZone, Refused<LaunchedZone>>
        ensures answer { let before = launched_on zone (tables_of self.old) in
            let call = call_cabling date object third_party dwellings in
            StaysLaunched (T.meaning sheet.now) before call (tables_of self.new) result }
    {
        let (roll, register, bill) = (&self.roll, &mut self.register, &mut self.bill);
        let done = zone.cabling(
            sheet,
            roll,
            register,
            bill,
            date,
            object,
            third_party,
            dwellings,
        )?;
        Ok(done.zone)
    }
}
