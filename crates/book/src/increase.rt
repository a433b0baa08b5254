// What a commitment or raise adds.
ghost use Rattle.std.specs.Prelude.{◌≡◌, ◌≤◌, T as Holds};
ghost use Rattle.calendar.specs.Days.{is_date};
ghost use Rattle.book.specs.Limits.{most_index};
ghost use Rattle.checks.specs.Numbers.{most_tranches};

use crate::entries::RollEntry;
use crate::event::Event;
use crate::zone_checks::rate_on;

// The tranches that an operator adds to its rate, on a real day that lies in a year index of the zone. The sheet stays beside
// it in what is billed and shared: an increase is the same on every sheet.
#[derive(Clone, Copy)]
pub(crate) struct Increase {
    pub(crate) operator: u32,
    pub(crate) date: u32,
    pub(crate) index: u32,
    pub(crate) tranches: u32,
    ghost few: { tranches ≤ most_tranches },
    ghost in_time: { index ≤ most_index },
    ghost real: { Holds (is_date date) },
}

impl Increase {
    ghost use Rattle.book.specs.Members.{addition, members_of};
    ghost use Rattle.book.specs.Increases.{addition_in};

    // The tranches by which an event's rate exceeds the present one, in a year index.
    pub(crate) fn of_event(event: &Event, index: u32, counted: &[RollEntry]) -> Increase
        requires rate { event.now.rate ≤ most_tranches }
        requires index { index ≤ most_index }
        requires real { Holds (is_date event.now.date) }
        ensures value { addition_in result ≡ addition index event.now (members_of counted.now) }
    {
        let present = rate_on(counted, event.operator).unwrap_or(0);
        let rate = u64::from(event.rate);
        Increase {
            operator: event.operator,
            date: event.date,
            index,
            tranches: rate.saturating_sub(present) as u32,
        }
    }
}
