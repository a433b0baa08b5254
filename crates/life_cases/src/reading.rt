// How the words of a line are read. A line that cannot be read gives none.
use crate::instruction::{Call, Choice, Instruction, Places, Setting};
use book::entries::RegisterEntry;
use book::event::{Change, Event};
use series::{Dated, IndexNumber};
use sheet_parts::given::Prices;
use tariff::kinds::Kind;
use tariff::questions::YEAR_INDICES;

// What a line says by its words.
pub(crate) fn instruction_in(words: &[&str]) -> Option<Instruction> {
    match words {
        ["life", ..] => Some(Instruction::Life),
        ["L", date] => Some(Instruction::Call(Call::Launch(date.parse().ok()?))),
        [letter, date, number, amount] if letter.len() == 1 => {
            Some(Instruction::Call(call_in(letter, date, number, amount)?))
        }
        ["sheet" | "prices" | "contribution" | "weights", ..] => {
            Some(Instruction::Setting(terms_in(words)?))
        }
        _ => Some(Instruction::Setting(rows_or_places_in(words)?)),
    }
}

// A call by its letter, its date and its two numbers.
fn call_in(letter: &str, date: &str, number: &str, amount: &str) -> Option<Call> {
    let date = date.parse().ok()?;
    let number = number.parse().ok()?;
    let amount = amount.parse().ok()?;
    match letter {
        "E" => Some(subscription(Change::Commitment, date, number, amount)),
        "A" => Some(subscription(Change::Raise, date, number, amount)),
        "P" => Some(installation(Kind::Covered, date, number, amount)),
        "S" => Some(installation(Kind::Connectable, date, number, amount)),
        "T" => Some(installation(Kind::ThirdParty, date, number, amount)),
        _ => None,
    }
}

const fn subscription(change: Change, date: u32, operator: u32, rate: u32) -> Call {
    Call::Subscription(Event {
        change,
        date,
        operator,
        rate,
    })
}

const fn installation(kind: Kind, installed: u32, object: u32, dwellings: u32) -> Call {
    Call::Installation(RegisterEntry {
        object,
        kind,
        installed,
        dwellings,
    })
}

// Which sheet, and its prices and terms.
fn terms_in(words: &[&str]) -> Option<Setting> {
    match words {
        ["sheet", "flat"] => Some(Setting::Sheet(Choice::Flat)),
        ["sheet", "indexed"] => Some(Setting::Sheet(Choice::Indexed)),
        ["sheet", "dated"] => Some(Setting::Sheet(Choice::Dated)),
        ["prices", prices @ ..] => Some(Setting::Prices(prices_in(prices)?)),
        ["contribution", hundredths] => Some(Setting::Contribution(hundredths.parse().ok()?)),
        ["weights", weights @ ..] => Some(Setting::Weights(weights_in(weights)?)),
        _ => None,
    }
}

// A row of a series, the places that are lent, or a balance.
fn rows_or_places_in(words: &[&str]) -> Option<Setting> {
    match words {
        ["wages", date, number] => Some(Setting::Wages(index_in(date, number)?)),
        ["consumer", date, number] => Some(Setting::Consumer(index_in(date, number)?)),
        ["record", date, prices @ ..] => Some(Setting::Record(Dated {
            date: date.parse().ok()?,
            value: prices_in(prices)?,
        })),
        ["lend", roll, register, strip] => Some(Setting::Lend(Places {
            roll: roll.parse().ok()?,
            register: register.parse().ok()?,
            strip: strip.parse().ok()?,
        })),
        ["share", places] => Some(Setting::Share(places.parse().ok()?)),
        ["balance", operator, micros] => Some(Setting::Balance {
            operator: operator.parse().ok()?,
            micros: micros.parse().ok()?,
        }),
        _ => None,
    }
}

fn prices_in(words: &[&str]) -> Option<Prices> {
    let [covered, connectable, third] = words else {
        return None;
    };
    Some(Prices {
        covered: covered.parse().ok()?,
        connectable: connectable.parse().ok()?,
        third: third.parse().ok()?,
    })
}

fn index_in(date: &str, number: &str) -> Option<Dated<IndexNumber>> {
    Some(Dated {
        date: date.parse().ok()?,
        value: IndexNumber(number.parse().ok()?),
    })
}

// The weights from year index 0 on; the last one goes on to the last index.
fn weights_in(words: &[&str]) -> Option<[u32; YEAR_INDICES]> {
    if words.len() > YEAR_INDICES {
        return None;
    }
    let mut weights = [words.last()?.parse().ok()?; YEAR_INDICES];
    for (weight, word) in weights.iter_mut().zip(words) {
        *weight = word.parse().ok()?;
    }
    Some(weights)
}
