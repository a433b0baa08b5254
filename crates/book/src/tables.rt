// Whether the tables that a call is lent are lawful, and what a counted entry of each may be.
ghost use Rattle.std.specs.Prelude.{◌≡◌};
ghost use Rattle.refusal.specs.Checks.{passing};
ghost use Rattle.checks.specs.Tables.{one_of};
ghost use Rattle.book.specs.Passing.{tables_in};
ghost use Rattle.book.specs.Refusals.{huge, entry_faults, object_faults, figure_faults, table_faults, table_checks};

use crate::entries::{RegisterEntry, RollEntry};
use crate::figures::Figures;
use crate::limits::MOST_AMOUNT;
use crate::weights::rate_of;
use calendar::is_date;
use checks::numbers::{MOST_DWELLINGS, MOST_TRANCHES};
use checks::tables::{TableEntry, is_bad_long_table, is_bad_table};
use refusal::Refusal;

// The tables that a call is lent. A zone's figures stay beside them: they are the zone's own.
#[derive(Clone, Copy)]
pub(crate) struct Tables<'a> {
    pub(crate) roll: &'a [RollEntry],
    pub(crate) register: &'a [RegisterEntry],
}

impl TableEntry for RollEntry {
    ghost numbered = { λ e. e.operator };

    ghost faulty = { λ e. one_of (entry_faults e) };

    fn number(&self) -> u32 {
        self.operator
    }

    fn is_faulty(&self) -> bool {
        let rate = rate_of(&self.tranches);
        self.operator == 0
            || rate < 1
            || rate > u64::from(MOST_TRANCHES)
            || self.balance > MOST_AMOUNT
    }
}

impl TableEntry for RegisterEntry {
    ghost numbered = { λ o. o.object };

    ghost faulty = { λ o. one_of (object_faults o) };

    fn number(&self) -> u32 {
        self.object
    }

    fn is_faulty(&self) -> bool {
        self.object == 0
            || !is_date(self.installed)
            || self.dwellings < 1
            || self.dwellings > MOST_DWELLINGS
    }
}

// Refuses tables that are not lawful, before anything else is asked.
pub(crate) fn check_tables(figures: &Figures, lent: Tables<'_>) -> Result<(), Refusal>
    ensures answer { result ≡ passing (table_checks figures.now (tables_in lent.entry)) }
{
    if are_faulty(figures, lent) {
        return Err(Refusal::BadTables);
    }
    Ok(())
}

// Whether a table or one of the zone's plain numbers is not lawful.
fn are_faulty(figures: &Figures, lent: Tables<'_>) -> bool
    ensures value { result ≡ one_of (table_faults figures.now (tables_in lent.entry)) }
{
    is_bad_table(lent.roll, figures.operators)
        || is_bad_long_table(lent.register, figures.objects)
        || are_huge(figures)
}

// Whether one of the zone's plain numbers is too large.
fn are_huge(figures: &Figures) -> bool
    ensures value { result ≡ one_of (figure_faults figures.now) }
{
    let totals = figures.totals;
    is_huge(figures.operators as u64)
        || is_huge(figures.objects as u64)
        || is_huge(totals.contributed)
        || is_huge(totals.credited)
        || is_huge(totals.unshared)
        || is_huge(totals.credit_lines)
}

// Whether a count, total or balance is too large.
const fn is_huge(amount: u64) -> bool
    ensures value { result ≡ huge amount }
{
    amount > MOST_AMOUNT
}
