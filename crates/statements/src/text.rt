// The text of a statement.
ghost use Rattle.std.specs.Prelude.{◌≡◌, take, map, IfOk, string_bytes};
ghost use Rattle.money.specs.Signs.{signed_text};
ghost use Rattle.file_run.specs.Steps.{shown_notice};
ghost use Rattle.statements.specs.Statements.{account_of, statement_text};

use crate::parts::{Account, Lines, Sums};
use book::entries::RollEntry;
use file_run::report::Report;
use std::alloc::{AllocError, Global};

/// A statement: what was refused, the operators that the zone counts on this roll, and the totals.
pub fn statement_text(
    heap: Global,
    report: &Report<'_>,
    roll: &[RollEntry],
) -> Result<String, AllocError>
    ensures value { let r = report.now in
        let notices = map shown_notice r.notices.items in
        let members = take r.figures.operators roll.now in
        let held = signed_text r.held.negative r.held.amount.micros in
        let said = statement_text notices members r.figures.totals held in
        IfOk result (λ s. string_bytes s ≡ said) }
{
    let members = accounts(heap, roll, report.figures.operators)?;
    let notices = Lines {
        items: report.notices.as_slice(),
    };
    let accounts = Lines {
        items: members.as_slice(),
    };
    let totals = Sums {
        totals: report.figures.totals,
        held: report.held,
    };
    format!(in heap; "{notices}{accounts}{totals}\n")
}

// The accounts of the first members of a roll.
fn accounts(heap: Global, roll: &[RollEntry], operators: usize) -> Result<Vec<Account>, AllocError>
    ensures value { IfOk result (λ v. v.items ≡ map account_of (take operators roll.now)) }
{
    roll.iter().take(operators).map(Account::from).collect(heap)
}
