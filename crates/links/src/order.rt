// What is ordered, and its text.
ghost use Rattle.std.specs.Prelude.{Some};
ghost use Rattle.links.specs.Texts.{order_text};

use std::fmt;

/// An order for a link, or for an extra fibre on one. Dates are written yyyymmdd; the service date is the PM's, where it is
/// known. Lengths are in metres; for an extra fibre, the fibres are those first ordered. Nothing is checked before it is
/// priced.
#[derive(Clone, Copy, PartialEq, Eq, Debug)]
pub struct Order {
    /// The day of the order.
    pub ordered: u32,
    /// The PM's service date, where it is known.
    pub service: Option<u32>,
    /// The link's length.
    pub metres: u32,
    /// The fibres ordered, or first ordered.
    pub fibres: u32,
}

impl fmt::Display for Order {
    ghost output = { λ order. Some (order_text order) };

    fn fmt<W: fmt::Write>(&self, f: &mut fmt::Formatter<W>) -> fmt::Result {
        let ordered = self.ordered;
        let metres = self.metres;
        let fibres = self.fibres;
        match self.service {
            Some(service) => write!(
                f,
                "ORDERED {ordered} METRES {metres} FIBRES {fibres} SERVICE {service}"
            ),
            None => write!(
                f,
                "ORDERED {ordered} METRES {metres} FIBRES {fibres} SERVICE UNKNOWN"
            ),
        }
    }
}
