// What an order costs, how its price comes about, and the text of both.
ghost use Rattle.std.specs.Prelude.{Some};
ghost use Rattle.links.specs.Texts.{basis_text, quotation_text};

use money::Money;
use std::fmt;
use tariff::kinds::Coefficient;

/// Whether the network was built for the order, or the PM was in service before it: the shape of an
/// `Option<Coefficient>`, whose `None` would not say what its absence means, nor have a text of its own.
#[derive(Clone, Copy, PartialEq, Eq, Debug)]
pub enum Basis {
    /// Built for the order.
    AbInitio,
    /// In service before it: the reference price is multiplied by this.
    ExPost(Coefficient),
}

/// A price in micro-euros, and how it came about.
#[derive(Clone, Copy, PartialEq, Eq, Debug)]
pub struct Quotation {
    /// How the price came about.
    pub basis: Basis,
    /// Micro-euros.
    pub price: u64,
}

// What an order is priced by: its basis, and its row and column in the tables, both counted from 0.
#[derive(Clone, Copy)]
pub(crate) struct Cell {
    pub(crate) basis: Basis,
    pub(crate) row: usize,
    pub(crate) column: usize,
}

impl fmt::Display for Basis {
    ghost output = { λ basis. Some (basis_text basis) };

    fn fmt<W: fmt::Write>(&self, f: &mut fmt::Formatter<W>) -> fmt::Result {
        match self {
            Basis::AbInitio => f.write_str("AB INITIO"),
            Basis::ExPost(coefficient) => {
                let numerator = coefficient.numerator;
                let denominator = coefficient.denominator;
                write!(f, "EX POST {numerator}/{denominator}")
            }
        }
    }
}

impl fmt::Display for Quotation {
    ghost output = { λ quotation. Some (quotation_text quotation) };

    fn fmt<W: fmt::Write>(&self, f: &mut fmt::Formatter<W>) -> fmt::Result {
        let basis = self.basis;
        let price = Money::from_micros(self.price);
        write!(f, "{basis} PRICE {price}")
    }
}
