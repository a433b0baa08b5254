// How a share-out credits the operators of a roll.
ghost use Rattle.std.specs.Prelude.{◌≡◌, ◌<◌, ◌≤◌, false, length, if◌then◌else◌, nat_eq, nat_lt, take};
ghost use Rattle.std.specs.List.{list_any};
ghost use Rattle.refusal.specs.Checks.{passing};
ghost use Rattle.tariff.specs.Meaning.{Meaning};
ghost use Rattle.checks.specs.Numbers.{most_tranches};
ghost use Rattle.book.specs.Limits.{most_operators, most_weight};
ghost use Rattle.checks.specs.Tables.{one_of};
ghost use Rattle.book.specs.Lists.{written};
ghost use Rattle.book.specs.Members.{members_of, rate_of, weight_to, entered_roll};
ghost use Rattle.book.specs.Sharing.{serves, due, credits, moved_by, IsShareOutsMost};
ghost use Rattle.book.specs.Answers.{credited_roll};
ghost use Rattle.book.specs.Increases.{addition_in, contributing, weighing, lines_shared};
ghost use Rattle.book.specs.Refusals.{entry_faults, strip_checks};
ghost use Rattle.book.specs.Weights.{AreAsked};

use crate::bill::line_of;
use crate::enter::enter;
use crate::entries::RollEntry;
use crate::figures::Totals;
use crate::increase::Increase;
use crate::lines::{Line, Nature};
use crate::sound_entries::{Object, Objects, Operators};
use crate::year_weights::YearWeights;
use crate::zone_checks::check_strip;
use refusal::Refusal;
use tariff::questions::{Tariff, YEAR_INDICES};
use tariff::quotient::Quotient;

// The weight by which an operator shares an amount, 0 where there is nothing to share.
fn weight_for(amount: u64, weights: &YearWeights, tranches: &[u32; YEAR_INDICES]) -> u64
    requires rate { rate_of tranches.now ≤ most_tranches }
    ensures due { (m : Meaning) → AreAsked m weights.now →
        nat_lt 0 result ≡ serves amount (weight_to m weights.now.index tranches.now) }
    ensures value { (m : Meaning) → AreAsked m weights.now → 0 < result →
        result ≡ weight_to m weights.now.index tranches.now }
    ensures most { result ≤ most_weight }
{
    if amount == 0 {
        return 0;
    }
    u64::from(weights.of_tranches(tranches))
}

// What nobody is there to take.
const fn unshared_of(whole: u32, contributed: u64) -> u64
    ensures value { result ≡ (if nat_eq whole 0 then contributed else 0) }
    ensures most { result ≤ contributed }
{
    if whole == 0 { contributed } else { 0 }
}

// Goes over the objects in register order and, for each, over the operators in roll order: writes the credit
// lines, credits the balances, and gives what was moved and how many lines were written. The loops are the rule's own
// words; an operator may have no share, so that the place of the next line is kept beside the strip, as in a bill.
pub(crate) fn share_out<T: Tariff>(
    sheet: &T,
    increase: Increase,
    objects: Objects<'_>,
    roll: &mut [RollEntry],
    strip: &mut [Line],
) -> Totals
    requires operators { length roll.old ≤ most_operators }
    requires roll { list_any (λ e. one_of (entry_faults e)) roll.old ≡ false }
    requires room { let m = T.meaning sheet.now in
        let a = addition_in increase in
        length (credits m a objects.items.now (members_of roll.old)) ≤ length strip.old }
    ensures moved { let m = T.meaning sheet.now in
        let a = addition_in increase in
        result ≡ moved_by m a objects.entry.items.now (members_of roll.old) }
    ensures strip { let m = T.meaning sheet.now in
        let a = addition_in increase in
        strip.new ≡ written (credits m a objects.entry.items.now (members_of roll.old)) strip.old }
    ensures roll { let m = T.meaning sheet.now in
        let a = addition_in increase in
        roll.new ≡ credited_roll m a objects.entry.items.now roll.old }
    ensures most { IsShareOutsMost result }
{
    let weights = YearWeights::up_to(sheet, increase.index);
    let whole = Operators { items: roll }.whole_weight(&weights);
    let mut contributed = 0u64;
    let mut credited = 0u64;
    let mut next = 0usize;
    for item in objects.items {
        let amount = Object { item }.contribution(sheet, increase);
        contributed += amount;
        for member in roll.iter_mut() {
            let weight = weight_for(amount, &weights, &member.tranches);
            if weight > 0 {
                let part = sheet.rounded(Quotient {
                    numerator: amount * weight,
                    denominator: whole,
                });
                strip[next] = line_of(Nature::Credit, member.operator, item.object, part, 1);
                member.balance += part;
                credited += part;
                next += 1;
            }
        }
    }
    Totals {
        contributed,
        credited,
        unshared: unshared_of(whole, contributed),
        credit_lines: next as u64,
    }
}

impl<'a> Operators<'a> {
    // How many weigh something. A loop and no chain, as `whole_weight` is: a step asks that its entry is within its limits,
    // which no closure is told.
    fn weighing(self, weights: &YearWeights) -> usize
        ensures number { (m : Meaning) → AreAsked m weights.now →
            result ≡ weighing m weights.now.index (members_of self.entry.items.now) }
        ensures most { result ≤ length self.entry.items.now }
    {
        let mut lines = 0usize;
        for member in self.items {
            if weights.of_tranches(&member.tranches) > 0 {
                lines += 1;
            }
        }
        lines
    }
}

// 1 for an amount above 0, else 0. A function of its own, so that what it tells is there where the loop goes on.
const fn one_if_some(amount: u64) -> usize
    ensures number { result ≡ due amount 1 }
    ensures most { result ≤ 1 }
{
    if amount > 0 { 1 } else { 0 }
}

impl<'a> Objects<'a> {
    // How many contribute something to an increase.
    fn contributing<T: Tariff>(self, sheet: &T, increase: Increase) -> usize
        ensures number { let m = T.meaning sheet.now in
            result ≡ contributing m (addition_in increase) self.entry.items.now }
        ensures most { result ≤ length self.entry.items.now }
    {
        let mut lines = 0usize;
        for item in self.items {
            lines += one_if_some(Object { item }.contribution(sheet, increase));
        }
        lines
    }
}

// How many credit lines a share-out writes: each object that contributes has one for each operator that weighs something.
fn lines_shared<T: Tariff>(
    sheet: &T,
    increase: Increase,
    objects: Objects<'_>,
    operators: Operators<'_>,
) -> usize
    ensures number { let m = T.meaning sheet.now in
        let a = addition_in increase in
        let members = members_of operators.entry.items.now in
        result ≡ lines_shared m a objects.entry.items.now members }
{
    let weights = YearWeights::up_to(sheet, increase.index);
    objects.contributing(sheet, increase) * operators.weighing(&weights)
}

// A strip with a place for each credit line. One with a place for each pair of an object and an operator has room, and then
// no line is counted.
pub(crate) fn check_room<T: Tariff>(
    sheet: &T,
    increase: Increase,
    objects: Objects<'_>,
    operators: Operators<'_>,
    places: usize,
) -> Result<(), Refusal>
    ensures answer { let m = T.meaning sheet.now in
        let a = addition_in increase in
        let members = members_of operators.entry.items.now in
        let lines = lines_shared m a objects.entry.items.now members in
        result ≡ passing (strip_checks places lines) }
{
    if objects.items.len() * operators.items.len() <= places {
        return Ok(());
    }
    check_strip(places, lines_shared(sheet, increase, objects, operators))
}

// Shares out among the counted entries, then enters the tranches; gives what was moved and the new count. The count stands
// beside the roll, as in entering.
pub(crate) fn settle<T: Tariff>(
    sheet: &T,
    increase: Increase,
    objects: Objects<'_>,
    roll: &mut [RollEntry],
    counted: usize,
    strip: &mut [Line],
) -> (Totals, usize)
    requires operators { counted ≤ most_operators }
    requires counted { counted ≤ length roll.old }
    requires roll { list_any (λ e. one_of (entry_faults e)) (take counted roll.old) ≡ false }
    requires place { let a = addition_in increase in
        length (entered_roll a (take counted roll.old)) ≤ length roll.old }
    requires room { let m = T.meaning sheet.now in
        let a = addition_in increase in
        let members = members_of (take counted roll.old) in
        length (credits m a objects.items.now members) ≤ length strip.old }
    ensures moved { let m = T.meaning sheet.now in
        let a = addition_in increase in
        result.0 ≡ moved_by m a objects.entry.items.now (members_of (take counted roll.old)) }
    ensures most { IsShareOutsMost result.0 }
    ensures strip { let m = T.meaning sheet.now in
        let a = addition_in increase in
        let members = members_of (take counted roll.old) in
        strip.new ≡ written (credits m a objects.entry.items.now members) strip.old }
    ensures roll { let m = T.meaning sheet.now in
        let a = addition_in increase in
        let credited = credited_roll m a objects.entry.items.now (take counted roll.old) in
        roll.new ≡ written (entered_roll a credited) roll.old }
    ensures number { let m = T.meaning sheet.now in
        let a = addition_in increase in
        let credited = credited_roll m a objects.entry.items.now (take counted roll.old) in
        result.1 ≡ length (entered_roll a credited) }
{
    let totals = share_out(sheet, increase, objects, &mut roll[..counted], strip);
    let operators = enter(increase, roll, counted);
    (totals, operators)
}
