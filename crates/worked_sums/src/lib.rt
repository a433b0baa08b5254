// The sums worked by hand: theorems over the definitions, the code run on the same examples, and
// lives that the laws of a zone speak of.
#![tactic(auto)]

ghost use Rattle.std.specs.Prelude.{◌≡◌, [], ◌∷◌, map, Some};
ghost use Rattle.sheet_parts.specs.Row.{in_1200ths};
ghost use Rattle.worked_sums.specs.Sums.{WorkedSums};

pub mod examples;
pub mod witnesses;

use calendar::year_index;
use sheet_parts::row::Row;
use tariff::kinds::Coefficient;

/// The coefficients of the common row after some months, and the year indices of two dates after a
/// launch on 20170315.
#[derive(Clone, Copy)]
pub struct Worked {
    /// After 0, 3, 18, 65 and 239 months.
    pub coefficients: [Option<Coefficient>; 5],
    /// Of the day after the launch, and of the next year's first day.
    pub indices: [u32; 2],
}

/// The code's answers to the worked examples, with the theorem that the definitions give the sums
/// worked by hand.
pub fn worked_examples() -> Worked
    ensures sums { WorkedSums }
    ensures coefficients { let worked = 1200 ∷ 1230 ∷ 1368 ∷ 1531 ∷ 300 ∷ [] in
        result.coefficients ≡ map (λ n. Some (in_1200ths n)) worked }
    ensures indices { result.indices ≡ 1 ∷ 2 ∷ [] }
{
    Worked {
        coefficients: [
            Row::COMMON.coefficient_after(0),
            Row::COMMON.coefficient_after(3),
            Row::COMMON.coefficient_after(18),
            Row::COMMON.coefficient_after(65),
            Row::COMMON.coefficient_after(239),
        ],
        indices: [
            year_index(20170315, 20170316),
            year_index(20170315, 20180101),
        ],
    }
}
