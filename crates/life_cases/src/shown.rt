// The lines that are printed.
use crate::played_zone::{PlayedZone, ZoneState};
use book::entries::{RegisterEntry, RollEntry};
use book::lines::Line;
use refusal::Refusal;
use std::fmt;

/// What stands on a line of its own.
#[derive(Clone, Copy)]
pub enum Shown<'a> {
    Written(&'a Line),
    Refused(Refusal),
    Operator(&'a RollEntry),
    Object(&'a RegisterEntry),
}

impl<'a> fmt::Display for Shown<'a> {
    fn fmt<W: fmt::Write>(&self, f: &mut fmt::Formatter<W>) -> fmt::Result {
        match self {
            Shown::Written(line) => {
                let nature = line.nature.number();
                let (operator, object) = (line.operator, line.object);
                let (unit, quantity, total) = (line.unit, line.quantity, line.total);
                write!(
                    f,
                    "LINE {nature} {operator} {object} {unit} {quantity} {total}"
                )
            }
            Shown::Refused(refusal) => {
                let number = refusal.number();
                write!(f, "REFUSED {number}")
            }
            Shown::Operator(member) => {
                let (operator, tranches) = (member.operator, member.rate());
                let balance = member.balance;
                write!(f, "OP {operator} TRANCHES {tranches} BALANCE {balance}")
            }
            Shown::Object(entry) => {
                let (object, installed) = (entry.object, entry.installed);
                let dwellings = entry.dwellings;
                write!(
                    f,
                    "OBJECT {object} INSTALLED {installed} DWELLINGS {dwellings}"
                )
            }
        }
    }
}

// A day that may not have come.
#[derive(Clone, Copy)]
struct Day(Option<u32>);

impl fmt::Display for Day {
    fn fmt<W: fmt::Write>(&self, f: &mut fmt::Formatter<W>) -> fmt::Result {
        match self.0 {
            Some(date) => write!(f, "{date}"),
            None => write!(f, "none"),
        }
    }
}

// The totals of a zone, and its days.
impl fmt::Display for PlayedZone {
    fn fmt<W: fmt::Write>(&self, f: &mut fmt::Formatter<W>) -> fmt::Result {
        let figures = self.figures();
        let totals = figures.totals;
        let (contributed, credited) = (totals.contributed, totals.credited);
        let (unshared, lines) = (totals.unshared, totals.credit_lines);
        let last = Day(figures.last);
        let launched = Day(match &self.zone {
            ZoneState::Prepared(_) => None,
            ZoneState::Launched(zone) => Some(zone.launch_date()),
        });
        write!(
            f,
            "TOTAL {contributed} CREDITED {credited} UNSHARED {unshared} LINES {lines} LAST {last} LAUNCHED {launched}"
        )
    }
}
