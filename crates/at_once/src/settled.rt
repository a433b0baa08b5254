// What bills an event and shares its levy out, and what that comes to.
ghost use Rattle.std.specs.Prelude.{◌≡◌, ◌*◌, ◌≤◌, IfOk, IfErr};
ghost use Rattle.book.specs.Limits.{most_operators, most_objects};
ghost use Rattle.book.specs.Passing.{tables};
ghost use Rattle.book.specs.Promises.{launched_on, levied_on, written_answer, written_count, IsAnswered, WholeLifeLaws};
ghost use Rattle.at_once.specs.Steps.{strips, room_on, call_for, event_steps, most_lines, event_refusal};
ghost use Rattle.at_once.specs.Promises.{refusal_of, IsSettled, LivesOnBy};

use book::entries::{RegisterEntry, RollEntry};
use book::event::{Change, Event};
use book::launched::LaunchedZone;
use book::levy::OpenLevy;
use book::limits::{MOST_OBJECTS, MOST_OPERATORS};
use book::lines::Line;
use book::outcome::{Refused, Written};
use refusal::Refusal;
use tariff::questions::Tariff;

/// Places enough for any share-out: one for each operator and each object that a zone can count together.
pub const MOST_LINES: usize = MOST_OPERATORS * MOST_OBJECTS;

/// What an accepted event leads to whose levy was shared out at once.
#[derive(Drop)]
#[must_use]
pub struct Settled {
    /// The zone, with no levy open.
    pub zone: LaunchedZone,
    /// The number of lines of the bill, from the start of its strip.
    pub billed: usize,
    /// Why the share-out on the first places was refused, if it was.
    pub turned_down: Option<Refusal>,
    /// The number of lines of the share-out, from the start of its strip.
    pub credited: usize,
}

// A line for each counted operator and each counted object together: no share-out has more.
fn lines_at_most(zone: &LaunchedZone, roll: &[RollEntry], register: &[RegisterEntry]) -> usize
    ensures value { result ≡ most_lines (launched_on zone.now (tables roll.now register.now)) }
{
    let figures = zone.figures();
    let operators = figures.operators.min(roll.len());
    let objects = figures.objects.min(register.len());
    operators * objects
}

// The call of an event.
fn billed<T: Tariff>(
    zone: LaunchedZone,
    sheet: &T,
    roll: &[RollEntry],
    register: &[RegisterEntry],
    strip: &mut [Line],
    event: Event,
) -> Result<Written<OpenLevy>, Refused<LaunchedZone>>
    ensures call { let t = tables roll.now register.now in
        IsAnswered (T.meaning sheet.now) (launched_on zone t) (call_for event)
        strip.old strip.new (written_count result) (written_answer levied_on t strip.new result) }
    ensures kept { IfErr result (λ back. back.kept ≡ zone) }
{
    let (date, operator, rate) = (event.date, event.operator, event.rate);
    match event.change {
        Change::Commitment => zone.commitment(sheet, roll, register, strip, date, operator, rate),
        Change::Raise => zone.raise(sheet, roll, register, strip, date, operator, rate),
    }
}

/// Bills a commitment or raise and shares its levy out at once: first on so many places of the credits' strip, and where
/// those are too few, on all of it.
///
/// Refused where the credits' strip has no place for each counted operator and each counted object together
/// (`StripTooShort`), before anything else, so that no levy is left open; then as the commitment or raise is. A refused
/// event leaves zone, roll and both strips as they were.
pub fn bill_and_share_out<T: Tariff>(
    zone: LaunchedZone,
    sheet: &T,
    roll: &mut [RollEntry],
    register: &[RegisterEntry],
    bill: &mut [Line],
    credits: &mut [Line],
    first: usize,
    event: Event,
) -> Result<Settled, Refused<LaunchedZone>>
    ensures answer { let s = launched_on zone (tables roll.old register.now) in
        let room = room_on (strips bill.old credits.old) first in
        refusal_of result ≡ event_refusal (T.meaning sheet.now) s event room }
    ensures settled { let s = launched_on zone (tables roll.old register.now) in
        let before = strips bill.old credits.old in
        let after = strips bill.new credits.new in
        let t = tables roll.new register.now in
        IfOk result (λ done. IsSettled (T.meaning sheet.now) s event first before after t done) }
    ensures kept { let before = strips bill.old credits.old in
        let after = strips bill.new credits.new in
        IfErr result (λ back. (back.kept ≡ zone) × (roll.new ≡ roll.old) × (after ≡ before)) }
    ensures life { let s = launched_on zone (tables roll.old register.now) in
        let room = room_on (strips bill.old credits.old) first in
        most_lines s ≤ room.credits → LivesOnBy (T.meaning sheet.now) s (event_steps event room) }
    ensures longest { let s = launched_on zone (tables roll.old register.now) in
        most_lines s ≤ most_operators * most_objects }
    ensures laws { WholeLifeLaws }
{
    if lines_at_most(&zone, roll, register) > credits.len() {
        return Err(Refused {
            refusal: Refusal::StripTooShort,
            kept: zone,
        });
    }
    let accepted = billed(zone, sheet, roll, register, bill, event)?;
    let Written { zone: levy, lines } = accepted;
    let few = first.min(credits.len());
    let back = match levy.share_out(sheet, roll, register, &mut credits[..few]) {
        Ok(done) => {
            return Ok(Settled {
                zone: done.zone,
                billed: lines,
                turned_down: None,
                credited: done.lines,
            });
        }
        Err(back) => back,
    };
    let Refused { refusal, kept } = back;
    match kept.share_out(sheet, roll, register, credits) {
        Ok(done) => Ok(Settled {
            zone: done.zone,
            billed: lines,
            turned_down: Some(refusal),
            credited: done.lines,
        }),
        Err(_open) => unreachable(),
    }
}
