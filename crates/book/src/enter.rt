// How the tranches of a commitment or raise enter a roll.
ghost use Rattle.std.specs.Prelude.{◌≡◌, ◌≤◌, false, length, take, nat_eq, position};
ghost use Rattle.std.specs.List.{list_any};
ghost use Rattle.book.specs.Lists.{written};
ghost use Rattle.book.specs.Members.{rate_of, entered_roll};
ghost use Rattle.book.specs.Increases.{addition_in};
ghost use Rattle.checks.specs.Numbers.{bad_rate};

use crate::entries::RollEntry;
use crate::increase::Increase;
use tariff::questions::YEAR_INDICES;

// Adds the tranches to their operator, or places a newcomer after the counted entries, and gives the new count. The count
// stands beside the roll, since a newcomer's place is the one after it.
pub(crate) fn enter(increase: Increase, roll: &mut [RollEntry], counted: usize) -> usize
    requires counted { counted ≤ length roll.old }
    requires rates { list_any (λ e. bad_rate (rate_of e.tranches)) (take counted roll.old) ≡ false }
    requires room { let a = addition_in increase in
        length (entered_roll a (take counted roll.old)) ≤ length roll.old }
    ensures number { result ≡ length (entered_roll (addition_in increase) (take counted roll.old)) }
    ensures roll { let a = addition_in increase in
        roll.new ≡ written (entered_roll a (take counted roll.old)) roll.old }
{
    let year = increase.index as usize;
    match place_of(&roll[..counted], increase.operator) {
        Some(place) => {
            roll[place].tranches[year] += increase.tranches;
            counted
        }
        None => {
            let mut tranches = [0; YEAR_INDICES];
            tranches[year] = increase.tranches;
            roll[counted] = RollEntry {
                operator: increase.operator,
                tranches,
                balance: 0,
            };
            counted + 1
        }
    }
}

// Where an operator stands, if it is there.
fn place_of(roll: &[RollEntry], operator: u32) -> Option<usize>
    ensures value { result ≡ position (λ e. nat_eq e.operator operator) roll.now }
{
    roll.iter().position(|member| member.operator == operator)
}
