// A zone whose last event is billed and not yet shared out, and the call that it takes: the share-out.
ghost use Rattle.std.specs.Prelude.{◌≡◌, ◌≤◌, T as Holds, length, IfErr};
ghost use Rattle.calendar.specs.Days.{is_date, index_of};
ghost use Rattle.book.specs.Limits.{most_index};
ghost use Rattle.book.specs.Calls.{share_out as call_share_out};
ghost use Rattle.book.specs.Passing.{tables};
ghost use Rattle.book.specs.Zone.{launch_day, open_event};
ghost use Rattle.book.specs.Zone as spec;

use crate::entries::{RegisterEntry, RollEntry};
use crate::event::Event;
use crate::figures::{Core, Figures, Totals};
use crate::increase::Increase;
use crate::launched::LaunchedZone;
use crate::lines::Line;
use crate::outcome::{Refused, Written};
use crate::share::settle;
use crate::sound_entries::Objects;
use crate::tables::Tables;
use calendar::year_index;
use tariff::questions::Tariff;

/// An open levy: the launched zone that it goes back to, and the event that it keeps. It takes a share-out and nothing
/// else. It has no `Drop`, so that no code can let it go: a levy may not lapse.
#[must_use]
pub struct OpenLevy {
    pub(crate) zone: LaunchedZone,
    pub(crate) event: Event,
    ghost in_time: { index_of zone.launch_date event.date ≤ most_index },
    ghost real: { Holds (is_date event.date) },
}

impl OpenLevy {
    ghost use Rattle.book.specs.Promises.{launched_on, levied_on, written_answer, written_count, IsAnswered, WholeLifeLaws};

    /// The zone's plain numbers.
    pub const fn figures(&self) -> Figures
        ensures value { (t : spec.Tables) → result ≡ (levied_on self.now t).figures }
    {
        self.zone.core.figures
    }

    /// The day of the launch, yyyymmdd.
    pub const fn launch_date(&self) -> u32
        ensures value { (t : spec.Tables) → Some result ≡ launch_day (levied_on self.now t).phase }
    {
        self.zone.launch_date
    }

    /// The event that is to be shared out.
    pub const fn event(&self) -> Event
        ensures value { (t : spec.Tables) → Some result ≡ open_event (levied_on self.now t).phase }
    {
        self.event
    }

    // The year index of the event.
    pub(crate) const fn index(&self) -> u32
        ensures value { result ≡ index_of self.now.zone.launch_date self.now.event.date }
    {
        year_index(self.zone.launch_date, self.event.date)
    }

    /// Credits the operators that the event found with their shares, in lines on the strip from its start and on their
    /// balances, in micro-euros; then enters the event's tranches. Refused by 1 (tables), 5 to 10 (roll), 14 (sheet), 16
    /// (strip), the first that holds; nothing is changed or written then, and the levy is handed back.
    pub fn share_out<T: Tariff>(
        self,
        sheet: &T,
        roll: &mut [RollEntry],
        register: &[RegisterEntry],
        strip: &mut [Line],
    ) -> Result<Written<LaunchedZone>, Refused<OpenLevy>>
        ensures call { let before = tables roll.old register.now in
            let after = tables roll.new register.now in
            let answer = written_answer launched_on after strip.new result in
            IsAnswered (T.meaning sheet.now) (levied_on self before) call_share_out
            strip.old strip.new (written_count result) answer }
        ensures kept { IfErr result (λ back. (back.kept ≡ self) × (roll.new ≡ roll.old)) }
        ensures laws { WholeLifeLaws }
    {
        let index = self.index();
        let lent = Tables { roll, register };
        if let Err(refusal) = self.check_share_out(sheet, lent, strip.len()) {
            return Err(Refused {
                refusal,
                kept: self,
            });
        }
        let OpenLevy { zone, event } = self;
        let LaunchedZone { core, launch_date } = zone;
        let figures = core.figures;
        let increase = Increase::of_event(&event, index, &roll[..figures.operators]);
        let objects = Objects {
            items: &register[..figures.objects],
        };
        let (moved, operators) = settle(sheet, increase, objects, roll, figures.operators, strip);
        let totals = Totals {
            contributed: figures.totals.contributed + moved.contributed,
            credited: figures.totals.credited + moved.credited,
            unshared: figures.totals.unshared + moved.unshared,
            credit_lines: figures.totals.credit_lines + moved.credit_lines,
        };
        let zone = LaunchedZone {
            core: Core {
                figures: Figures {
                    operators,
                    totals,
                    ..figures
                },
            },
            launch_date,
        };
        Ok(Written {
            zone,
            lines: moved.credit_lines as usize,
        })
    }
}
