// What is billed: the lines of a commitment or raise, and those of an object that is entered.
ghost use Rattle.std.specs.Prelude.{◌≡◌, ◌*◌, ◌≤◌, length};
ghost use Rattle.book.specs.Limits.{most_amount};
ghost use Rattle.book.specs.Lists.{written};
ghost use Rattle.book.specs.Lines.{line};
ghost use Rattle.book.specs.Members.{members_of};
ghost use Rattle.book.specs.Billing.{bill as billing_of, charged};
ghost use Rattle.book.specs.Increases.{addition_in, lines_of, lines_billed};

use crate::entries::RegisterEntry;
use crate::increase::Increase;
use crate::lines::{Line, Nature};
use crate::sound_entries::{Object, Objects, Operators};
use crate::weights::rate_of;
use tariff::questions::Tariff;

// The line of a unit and a quantity.
pub(crate) fn line_of(nature: Nature, operator: u32, object: u32, unit: u64, quantity: u32) -> Line
    requires most { unit * quantity ≤ most_amount }
    ensures value { result ≡ line nature operator object unit quantity }
{
    Line {
        nature,
        operator,
        object,
        unit,
        quantity,
        total: unit * u64::from(quantity),
    }
}

// Writes the lines of a commitment or raise for every object, and gives their number. An object has one line or two, so
// that the place of its line is not the object's own, and is counted beside the strip.
pub(crate) fn bill<T: Tariff>(
    sheet: &T,
    increase: Increase,
    objects: Objects<'_>,
    strip: &mut [Line],
) -> usize
    requires room { let m = T.meaning sheet.now in
        length (billing_of m (addition_in increase) objects.items.now) ≤ length strip.old }
    ensures number { let m = T.meaning sheet.now in
        result ≡ length (billing_of m (addition_in increase) objects.entry.items.now) }
    ensures strip { let m = T.meaning sheet.now in
        let lines = billing_of m (addition_in increase) objects.entry.items.now in
        strip.new ≡ written lines strip.old }
{
    let operator = increase.operator;
    let mut next = 0;
    for item in objects.items {
        let object = Object { item };
        let price = object.unit_price(sheet, increase);
        strip[next] = line_of(Nature::Charge, operator, item.object, price, item.dwellings);
        next += 1;
        if item.installed < increase.date {
            let part = object.unit_contribution(sheet, increase);
            strip[next] = line_of(
                Nature::Contribution,
                operator,
                item.object,
                part,
                item.dwellings,
            );
            next += 1;
        }
    }
    next
}

// Writes the charge lines of an entered object, one for each operator, and gives their number.
pub(crate) fn charge<T: Tariff>(
    sheet: &T,
    object: Object<'_>,
    operators: Operators<'_>,
    strip: &mut [Line],
) -> usize
    requires room { let m = T.meaning sheet.now in
        length (charged m object.item.now (members_of operators.items.now)) ≤ length strip.old }
    ensures number { let m = T.meaning sheet.now in
        let members = members_of operators.entry.items.now in
        result ≡ length (charged m object.entry.item.now members) }
    ensures strip { let m = T.meaning sheet.now in
        let members = members_of operators.entry.items.now in
        strip.new ≡ written (charged m object.entry.item.now members) strip.old }
{
    let price = object.price(sheet);
    for (place, member) in operators.items.iter().enumerate() {
        strip[place] = line_of(
            Nature::Charge,
            member.operator,
            object.item.object,
            price * rate_of(&member.tranches),
            object.item.dwellings,
        );
    }
    operators.items.len()
}

// How many lines a commitment or raise of a day has: two for each object that was installed earlier, one for the others.
pub(crate) fn lines_billed(register: &[RegisterEntry], date: u32) -> usize
    ensures number { result ≡ lines_billed date register.now }
{
    let mut lines = 0;
    for object in register {
        lines += lines_of(object, date);
    }
    lines
}

fn lines_of(object: &RegisterEntry, date: u32) -> usize
    ensures number { result ≡ lines_of date object.now }
    ensures most { result ≤ 2 }
{
    if object.installed < date { 2 } else { 1 }
}
