// The statement of an event file for the network: on its own price records, over tables in which no entry counts.
ghost use Rattle.std.specs.Prelude.{◌≡◌, ℕ, List, take, IfOk, string_bytes};
ghost use Rattle.sheets.specs.DatedSheets.{dated_meaning};
ghost use Rattle.file_run.specs.Reports.{RunsAsLife};
ghost use Rattle.statements.specs.Network.{network_sheet, empty_tables};
ghost use Rattle.statements.specs.Statements.{statement_of};

use crate::text::statement_text;
use book::entries::{RegisterEntry, RollEntry};
use file_run::report::{REGISTER_PLACES, ROLL_PLACES, run_file};
use sheet_parts::given::Terms;
use sheets::dated::DatedSheet;
use sheets::network::network_records;
use std::alloc::{AllocError, Global};
use tariff::questions::YEAR_INDICES;

// A contribution of 15 hundredths, and tranches that weigh alike.
const TERMS: Terms = Terms {
    contribution: 15,
    weights: [100; YEAR_INDICES],
};

// The network's own records make a sheet, so that filling it is never refused.
fn network_sheet() -> DatedSheet<'static>
    ensures meaning { dated_meaning result ≡ network_sheet }
{
    let mut place = None;
    let filled = DatedSheet::fill(&mut place, network_records(), TERMS);
    let (Ok(()), Some(sheet)) = (filled, place) else {
        unreachable!()
    };
    sheet
}

/// Runs a file through an empty zone and states what came of it. Of an input that is too long the first bytes say so, one
/// more than the longest file has: their statement is that of all of it. Only want of memory stops it.
pub fn network_statement(heap: Global, bytes: &[u8]) -> Result<String, AllocError>
    ensures value { let said = statement_of network_sheet empty_tables bytes.now in
        IfOk result (λ s. string_bytes s ≡ said) }
    ensures input { (given : List ℕ) → bytes.now ≡ take 65537 given →
        IfOk result (λ s. string_bytes s ≡ statement_of network_sheet empty_tables given) }
    ensures life { RunsAsLife network_sheet empty_tables bytes.now }
{
    let sheet = network_sheet();
    let mut roll = [RollEntry::BLANK; ROLL_PLACES];
    let mut register = [RegisterEntry::BLANK; REGISTER_PLACES];
    let report = run_file(heap, &sheet, bytes, &mut roll, &mut register)?;
    statement_text(heap, &report, &roll)
}
