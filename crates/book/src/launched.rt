// A zone after its launch, with no levy open, and the calls that it takes: openings, cablings, and commitments and raises
// that bill.
//
// The sheet, the tables and the strip are lent one by one, so that a call's signature says which of them it can change; a
// struct of all four would lend them all to change. A commitment and a raise differ in one word, and stay two calls, as do
// an opening and a cabling: the rules name them so, each takes the numbers that the rules list for it, and a raise alone
// has the cuts law on its contract.
ghost use Rattle.std.specs.Prelude.{◌≡◌, length, IfErr};
ghost use Rattle.book.specs.Answers.{installation, billing};
ghost use Rattle.book.specs.Calls.{commitment as call_commitment, raise as call_raise, opening as call_opening, cabling as call_cabling, cabled};
ghost use Rattle.book.specs.Passing.{tables};
ghost use Rattle.book.specs.Zone.{launch_day};
ghost use Rattle.book.specs.Zone as spec;

use crate::bill::{bill, charge};
use crate::entries::{RegisterEntry, RollEntry};
use crate::event::{Change, Event};
use crate::figures::{Core, Figures};
use crate::increase::Increase;
use crate::levy::OpenLevy;
use crate::lines::Line;
use crate::outcome::{Refused, Written};
use crate::sound_entries::{Object, Objects, Operators};
use crate::tables::Tables;
use calendar::year_index;
use tariff::kinds::Kind;
use tariff::questions::Tariff;

/// A launched zone with no levy open. It is moved from call to call.
#[derive(Drop)]
#[must_use]
pub struct LaunchedZone {
    pub(crate) core: Core,
    pub(crate) launch_date: u32,
}

impl LaunchedZone {
    ghost use Rattle.book.specs.Promises.{launched_on, levied_on, written_answer, written_count, IsAnswered, IsWritten, WholeLifeLaws, CutsFairly};

    /// The zone's plain numbers.
    pub const fn figures(&self) -> Figures
        ensures value { (t : spec.Tables) → result ≡ (launched_on self.now t).figures }
    {
        self.core.figures
    }

    /// The day of the launch, yyyymmdd.
    pub const fn launch_date(&self) -> u32
        ensures value { (t : spec.Tables) →
            Some result ≡ launch_day (launched_on self.now t).phase }
    {
        self.launch_date
    }

    /// An operator commits itself to a rate, in tranches, on a day, and is billed for every object: the lines stand on the
    /// strip from its start, and the levy is to be shared out. Refused by 1 (tables), 2, 3, 4 (date), 5, 6, 7, 10 (roll),
    /// 14, 15 (sheet), 16 (strip), the first that holds; nothing is changed or written then.
    pub fn commitment<T: Tariff>(
        self,
        sheet: &T,
        roll: &[RollEntry],
        register: &[RegisterEntry],
        strip: &mut [Line],
        date: u32,
        operator: u32,
        rate: u32,
    ) -> Result<Written<OpenLevy>, Refused<LaunchedZone>>
        ensures call { let t = tables roll.now register.now in
            let call = call_commitment date operator rate in
            let answer = written_answer levied_on t strip.new result in
            IsAnswered (T.meaning sheet.now) (launched_on self t) call
            strip.old strip.new (written_count result) answer }
        ensures kept { IfErr result (λ back. back.kept ≡ self) }
        ensures laws { WholeLifeLaws }
    {
        let event = Event {
            change: Change::Commitment,
            date,
            operator,
            rate,
        };
        self.billed(sheet, roll, register, strip, event)
    }

    /// An operator raises its rate to so many tranches, on a day, and is billed for every object: the lines stand on the
    /// strip from its start, and the levy is to be shared out. Refused by 1 (tables), 2, 3, 4 (date), 5, 6, 8, 9 (roll),
    /// 14, 15 (sheet), 16 (strip), the first that holds; nothing is changed or written then.
    pub fn raise<T: Tariff>(
        self,
        sheet: &T,
        roll: &[RollEntry],
        register: &[RegisterEntry],
        strip: &mut [Line],
        date: u32,
        operator: u32,
        rate: u32,
    ) -> Result<Written<OpenLevy>, Refused<LaunchedZone>>
        ensures call { let t = tables roll.now register.now in
            let call = call_raise date operator rate in
            let answer = written_answer levied_on t strip.new result in
            IsAnswered (T.meaning sheet.now) (launched_on self t) call
            strip.old strip.new (written_count result) answer }
        ensures kept { IfErr result (λ back. back.kept ≡ self) }
        ensures laws { WholeLifeLaws }
        ensures cut { let t = tables roll.now register.now in
            CutsFairly (T.meaning sheet.now) (launched_on self t) date operator rate
            (written_answer levied_on t strip.new result) }
    {
        let event = Event {
            change: Change::Raise,
            date,
            operator,
            rate,
        };
        self.billed(sheet, roll, register, strip, event)
    }

    /// A PM is opened on a day: it enters the register last, its dwellings covered, and each operator is charged on the
    /// strip. Refused by 1 (tables), 2, 3, 4 (date), 11, 12, 13 (register), 14 (sheet), 16 (strip), the first that holds;
    /// nothing is changed or written then.
    pub fn opening<T: Tariff>(
        self,
        sheet: &T,
        roll: &[RollEntry],
        register: &mut [RegisterEntry],
        strip: &mut [Line],
        date: u32,
        object: u32,
        dwellings: u32,
    ) -> Result<Written<LaunchedZone>, Refused<LaunchedZone>>
        ensures call { let before = tables roll.now register.old in
            let after = tables roll.now register.new in
            let call = call_opening date object dwellings in
            let answer = written_answer launched_on after strip.new result in
            IsAnswered (T.meaning sheet.now) (launched_on self before) call
            strip.old strip.new (written_count result) answer }
        ensures kept { IfErr result (λ back. (back.kept ≡ self) × (register.new ≡ register.old)) }
        ensures laws { WholeLifeLaws }
    {
        let entry = RegisterEntry {
            object,
            kind: Kind::Covered,
            installed: date,
            dwellings,
        };
        self.installed(sheet, roll, register, strip, entry)
    }

    /// A site is cabled on a day, by a third party or not: the rules ask it as a yes or no, and so does the call. It enters
    /// the register last, and each operator is charged on the strip. Refused as an opening is.
    pub fn cabling<T: Tariff>(
        self,
        sheet: &T,
        roll: &[RollEntry],
        register: &mut [RegisterEntry],
        strip: &mut [Line],
        date: u32,
        object: u32,
        third: bool,
        dwellings: u32,
    ) -> Result<Written<LaunchedZone>, Refused<LaunchedZone>>
        ensures call { let before = tables roll.now register.old in
            let after = tables roll.now register.new in
            let call = call_cabling date object third dwellings in
            let answer = written_answer launched_on after strip.new result in
            IsAnswered (T.meaning sheet.now) (launched_on self before) call
            strip.old strip.new (written_count result) answer }
        ensures kept { IfErr result (λ back. (back.kept ≡ self) × (register.new ≡ register.old)) }
        ensures laws { WholeLifeLaws }
    {
        let entry = site_entry(date, object, third, dwellings);
        self.installed(sheet, roll, register, strip, entry)
    }

    // Enters an object last, and writes a charge line for each operator.
    fn installed<T: Tariff>(
        self,
        sheet: &T,
        roll: &[RollEntry],
        register: &mut [RegisterEntry],
        strip: &mut [Line],
        object: RegisterEntry,
    ) -> Result<Written<LaunchedZone>, Refused<LaunchedZone>>
        ensures answer { let m = T.meaning sheet.now in
            let before = tables roll.now register.old in
            let after = tables roll.now register.new in
            let places = length strip.old in
            let answer = written_answer launched_on after strip.new result in
            IsWritten (installation m self.core.figures self.launch_date before places object)
            strip.old strip.new (written_count result) answer }
        ensures kept { IfErr result (λ back. (back.kept ≡ self) × (register.new ≡ register.old)) }
    {
        match self.check_installation(sheet, Tables { roll, register }, strip.len(), &object) {
            Ok(()) => {
                let LaunchedZone { core, launch_date } = self;
                let figures = core.figures;
                let operators = Operators {
                    items: &roll[..figures.operators],
                };
                let lines = charge(sheet, Object { item: &object }, operators, strip);
                register[figures.objects] = object;
                let zone = LaunchedZone {
                    core: Core {
                        figures: Figures {
                            last: Some(object.installed),
                            objects: figures.objects + 1,
                            ..figures
                        },
                    },
                    launch_date,
                };
                Ok(Written { zone, lines })
            }
            Err(refusal) => Err(Refused {
                refusal,
                kept: self,
            }),
        }
    }

    // Bills every object for what an event adds, and opens a levy that keeps the event.
    fn billed<T: Tariff>(
        self,
        sheet: &T,
        roll: &[RollEntry],
        register: &[RegisterEntry],
        strip: &mut [Line],
        event: Event,
    ) -> Result<Written<OpenLevy>, Refused<LaunchedZone>>
        ensures answer { let m = T.meaning sheet.now in
            let t = tables roll.now register.now in
            let places = length strip.old in
            let answer = written_answer levied_on t strip.new result in
            IsWritten (billing m self.core.figures self.launch_date t places event)
            strip.old strip.new (written_count result) answer }
        ensures kept { IfErr result (λ back. back.kept ≡ self) }
    {
        match self.check_billing(sheet, Tables { roll, register }, strip.len(), &event) {
            Ok(()) => {
                let LaunchedZone { core, launch_date } = self;
                let figures = core.figures;
                let index = year_index(launch_date, event.date);
                let increase = Increase::of_event(&event, index, &roll[..figures.operators]);
                let objects = Objects {
                    items: &register[..figures.objects],
                };
                let lines = bill(sheet, increase, objects, strip);
                let zone = LaunchedZone {
                    core: Core {
                        figures: Figures {
                            last: Some(event.date),
                            ..figures
                        },
                    },
                    launch_date,
                };
                let levy = OpenLevy { zone, event };
                Ok(Written { zone: levy, lines })
            }
            Err(refusal) => Err(Refused {
                refusal,
                kept: self,
            }),
        }
    }
}

// The entry of a site.
fn site_entry(date: u32, object: u32, third: bool, dwellings: u32) -> RegisterEntry
    ensures value { result ≡ cabled date object third dwellings }
{
    let kind = if third {
        Kind::ThirdParty
    } else {
        Kind::Connectable
    };
    RegisterEntry {
        object,
        kind,
        installed: date,
        dwellings,
    }
}
