// Examples over the definitions: the numbers that a person works out by hand are those that the
// definitions give.
ghost use Rattle.std.specs.Prelude.{◌≡◌, [], ◌∷◌, ◌++◌, replicate, Some};
ghost use Rattle.book.specs.Runs.{blank, told};
ghost use Rattle.sheet_parts.specs.Rounding.{five_up};
ghost use Rattle.worked_sums.specs.Sheets.{sheet_up, sheet_down, holed_sheet};
ghost use Rattle.worked_sums.specs.Cases.{statement, statement_end, seven_end, balances, rates, moved, AmountsWorked};
ghost use Rattle.worked_sums.specs.RefusalOrder.{RefusalsInOrder};
ghost use Rattle.worked_sums.specs.OtherTables.{TablesLimited};

/// Operators of 4 and 2 tranches share what the third's tranche contributes to a PM of 300
/// dwellings at 6.91 euros: 310.95 euros, 207.30 and 103.65, in micro-euros. An opening dated
/// before it is refused by 3.
#[tactic(auto, unfolding(sheet_parts::specs::Row::coefficient_after))]
pub const fn statement_example()
    ensures refusal { told sheet_up (blank 4 3) statement ≡
        Some 0 ∷ Some 0 ∷ Some 0 ∷ Some 0 ∷ Some 0 ∷ Some 0 ∷ Some 3 ∷ [] }
    ensures balances { balances (statement_end sheet_up) ≡ 207300000 ∷ 103650000 ∷ 0 ∷ [] }
    ensures rates { rates (statement_end sheet_up) ≡ 4 ∷ 2 ∷ 1 ∷ [] }
    ensures totals { moved (statement_end sheet_up).figures.totals ≡
        310950000 ∷ 310950000 ∷ 0 ∷ 2 ∷ [] }
{}

/// 310.95 euros among seven equal weights hold 4 micro-euros five-down, and overpay 3 five-up. All
/// seven get the same: the last does not get the rest.
#[tactic(auto, unfolding(sheet_parts::specs::Row::coefficient_after))]
pub const fn seven_equal_weights()
    ensures down { moved (seven_end sheet_down).figures.totals ≡
        310950000 ∷ 310949996 ∷ 0 ∷ 7 ∷ [] }
    ensures up { moved (seven_end sheet_up).figures.totals ≡
        310950000 ∷ 310950003 ∷ 0 ∷ 7 ∷ [] }
    ensures balances { balances (seven_end sheet_down) ≡ replicate 7 44421428 ++ (0 ∷ []) }
{}

/// What is billed, entered and shared in small cases, which of several refusals comes first, and
/// what tables at their limits or other than an event's own lead to.
pub const fn cases_work()
    ensures value { AmountsWorked 15 }
    ensures refusal { RefusalsInOrder (holed_sheet five_up) }
    ensures tables { TablesLimited }
{}
