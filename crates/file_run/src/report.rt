// An event file run through the book, from an empty zone to its report.
ghost use Rattle.std.specs.Prelude.{◌≡◌, IfOk, OnErr, OnOk, map};
ghost use Rattle.book.specs.Passing.{tables};
ghost use Rattle.file_run.specs.Reports.{ending, file_notices, paid_out, Closed, IsHeld, RunsAsLife};
ghost use Rattle.file_run.specs.Steps.{shown_notice};

use crate::books::Books;
use crate::notice::Notice;
use crate::reading::read_file;
use book::entries::{RegisterEntry, RollEntry};
use book::figures::Figures;
use money::signed::SignedMoney;
use std::alloc::{AllocError, Global};
use tariff::questions::Tariff;

/// The places of the roll of a run.
pub const ROLL_PLACES: usize = 16;

/// The places of the register of a run.
pub const REGISTER_PLACES: usize = 64;

/// What a run of an event file reports.
#[derive(Drop)]
pub struct Report<'a> {
    /// What was refused, in the order of the file.
    pub notices: Vec<Notice<'a>>,
    /// The zone's numbers at the end.
    pub figures: Figures,
    /// Contributed less credited less unshared, in micro-euros.
    pub held: SignedMoney,
}

/// Runs a file through an empty zone with these tables, each levy shared out at once. Whatever the file holds it gives a
/// report; only want of memory stops it, and then the tables stay as they were.
pub fn run_file<'a, T: Tariff>(
    heap: Global,
    sheet: &T,
    bytes: &'a [u8],
    roll: &mut [RollEntry; ROLL_PLACES],
    register: &mut [RegisterEntry; REGISTER_PLACES],
) -> Result<Report<'a>, AllocError>
    ensures notices { let t = tables roll.old register.old in
        let said = file_notices (T.meaning sheet.now) t bytes.now in
        IfOk result (λ x. map shown_notice x.notices.items ≡ said) }
    ensures figures { let t = tables roll.old register.old in
        let end = ending (T.meaning sheet.now) t bytes.now in
        IfOk result (λ x. x.figures ≡ end.figures) }
    ensures tables { let t = tables roll.old register.old in
        let end = ending (T.meaning sheet.now) t bytes.now in
        OnOk result (tables roll.new register.new ≡ end.tables) }
    ensures held { let t = tables roll.old register.old in
        let end = ending (T.meaning sheet.now) t bytes.now in
        IfOk result (λ x. IsHeld x.held x.figures.totals.contributed (paid_out end)) }
    ensures closed { let t = tables roll.old register.old in
        let end = ending (T.meaning sheet.now) t bytes.now in
        OnOk result (Closed end.phase) }
    ensures kept { OnErr result ((roll.new ≡ roll.old) × (register.new ≡ register.old)) }
    ensures life { RunsAsLife (T.meaning sheet.now) (tables roll.old register.old) bytes.now }
{
    // The books hold copies of the tables, and what becomes of them is handed back at the end.
    let mut books = Books::new(*roll, *register);
    let notices = read_file(heap, bytes, &mut books, sheet)?;
    *roll = books.ledger.roll;
    *register = books.ledger.register;
    let figures = books.figures();
    let totals = figures.totals;
    let held = SignedMoney::difference(totals.contributed, totals.credited + totals.unshared);
    Ok(Report {
        notices,
        figures,
        held,
    })
}
