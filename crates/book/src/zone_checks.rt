// The checks of date, roll, register and strip that calls make before anything is moved or written.
ghost use Rattle.std.specs.Prelude.{◌≡◌, ◌≤◌, length, nat_eq, find};
ghost use Rattle.std.specs.Option.{option_map};
ghost use Rattle.refusal.specs.Checks.{passing};
ghost use Rattle.book.specs.Members.{rate_of, member, members_of};
ghost use Rattle.book.specs.Refusals.{date_checks, launched_date_checks, change_checks, roll_checks, register_checks, strip_checks};
ghost use Rattle.book.specs.Passing.{tables_in, changing};

use crate::entries::{RegisterEntry, RollEntry};
use crate::event::{Change, Event};
use crate::figures::Figures;
use crate::limits::{MOST_INDEX, MOST_OBJECTS, MOST_OPERATORS};
use crate::tables::Tables;
use crate::weights::rate_of;
use calendar::year_index;
use checks::numbers;
use checks::tables::has_number;
use refusal::Refusal;

// A date, and not before the zone's last one.
pub(crate) fn check_date(figures: &Figures, date: u32) -> Result<(), Refusal>
    ensures answer { result ≡ passing (date_checks figures.now date) }
{
    numbers::check_date(date)?;
    match figures.last {
        Some(last) if date < last => Err(Refusal::BeforeLastDate),
        _ => Ok(()),
    }
}

// The same after the launch, and a year index within the zone's life.
pub(crate) fn check_launched_date(
    figures: &Figures,
    launch_date: u32,
    date: u32,
) -> Result<(), Refusal>
    ensures answer { result ≡ passing (launched_date_checks figures.now launch_date date) }
{
    check_date(figures, date)?;
    if year_index(launch_date, date) > MOST_INDEX {
        return Err(Refusal::IndexTooHigh);
    }
    Ok(())
}

// The entry of an operator, if it has one.
fn entry_of(roll: &[RollEntry], operator: u32) -> Option<&RollEntry>
    ensures value { let own = find (λ e. nat_eq e.operator operator) roll.now in
        option_map (λ e. e.now) result ≡ own }
{
    roll.iter().find(|member| member.operator == operator)
}

// The rate of an operator among the counted entries, if it is one of them.
pub(crate) fn rate_on(roll: &[RollEntry], operator: u32) -> Option<u64>
    ensures value { let own = member operator (members_of roll.now) in
        result ≡ option_map (λ x. rate_of x.tranches) own }
{
    let member = entry_of(roll, operator)?;
    Some(rate_of(&member.tranches))
}

// An operator number, and a rate of 1 to 20 tranches, that fit the roll as it stands.
pub(crate) fn check_roll(figures: &Figures, lent: Tables<'_>, event: &Event) -> Result<(), Refusal>
    requires { figures.now.operators ≤ length lent.roll.now }
    ensures answer { result ≡ passing (roll_checks figures.now (tables_in lent.entry) event.now) }
{
    numbers::check_operator(event.operator)?;
    numbers::check_rate(event.rate)?;
    check_change(figures, lent, event)
}

// A change that the roll as it stands allows.
fn check_change(figures: &Figures, lent: Tables<'_>, event: &Event) -> Result<(), Refusal>
    requires { figures.now.operators ≤ length lent.roll.now }
    ensures answer { let t = tables_in lent.entry in
        result ≡ passing (change_checks event.now.change figures.now t event.now) }
{
    let present = rate_on(&lent.roll[..figures.operators], event.operator);
    let full = figures.operators >= MOST_OPERATORS || figures.operators >= lent.roll.len();
    check_change_from(event, present, full)
}

// A commitment is by a newcomer that finds a place; a raise by an operator on the roll, above its
// present rate.
fn check_change_from(event: &Event, present: Option<u64>, full: bool) -> Result<(), Refusal>
    ensures answer { result ≡ passing (changing event.now.change present full event.now.rate) }
{
    match event.change {
        Change::Commitment => {
            if present.is_some() {
                return Err(Refusal::AlreadyOnRoll);
            }
            if full {
                return Err(Refusal::RollFull);
            }
            Ok(())
        }
        Change::Raise => {
            let Some(rate) = present else {
                return Err(Refusal::NotOnRoll);
            };
            if u64::from(event.rate) <= rate {
                return Err(Refusal::RateNotRaised);
            }
            Ok(())
        }
    }
}

// An object that the register does not have, of 1 to 10,000 dwellings, that finds a place.
pub(crate) fn check_register(
    figures: &Figures,
    lent: Tables<'_>,
    object: &RegisterEntry,
) -> Result<(), Refusal>
    requires { figures.now.objects ≤ length lent.register.now }
    ensures answer { let t = tables_in lent.entry in
        result ≡ passing (register_checks figures.now t object.now) }
{
    numbers::check_object(object.object)?;
    if has_number(&lent.register[..figures.objects], object.object) {
        return Err(Refusal::ObjectUnusable);
    }
    numbers::check_dwellings(object.dwellings)?;
    if figures.objects >= MOST_OBJECTS || figures.objects >= lent.register.len() {
        return Err(Refusal::RegisterFull);
    }
    Ok(())
}

// A strip with a place for each line.
pub(crate) fn check_strip(places: usize, lines: usize) -> Result<(), Refusal>
    ensures answer { result ≡ passing (strip_checks places lines) }
{
    if places < lines {
        return Err(Refusal::StripTooShort);
    }
    Ok(())
}
