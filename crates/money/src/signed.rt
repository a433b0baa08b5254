// Money with a sign.
ghost use Rattle.std.specs.Prelude.{◌≡◌, Some};
ghost use Rattle.money.specs.Signs.{apart, below_zero, signed_text, SignTold};

use crate::Money;
use std::fmt;

/// An amount, and whether it is below zero: both are always there, as in its text, which is a minus sign where it is below
/// zero and the amount's text.
#[derive(Clone, Copy, PartialEq, Eq, Debug)]
pub struct SignedMoney {
    negative: bool,
    amount: Money,
}

impl SignedMoney {
    /// An amount of micro-euros less another. Its text tells how far the two are apart, and which is larger.
    pub const fn difference(micros: u64, less: u64) -> SignedMoney
        ensures negative { result.negative ≡ below_zero micros less }
        ensures value { result.amount.micros ≡ apart micros less }
        ensures no_loss { SignTold }
    {
        SignedMoney {
            negative: micros < less,
            amount: Money::from_micros(micros.abs_diff(less)),
        }
    }
}

impl fmt::Display for SignedMoney {
    ghost output = { λ m. Some (signed_text m.negative m.amount.micros) };

    fn fmt<W: fmt::Write>(&self, f: &mut fmt::Formatter<W>) -> fmt::Result {
        let amount = self.amount;
        if self.negative {
            write!(f, "-{amount}")
        } else {
            write!(f, "{amount}")
        }
    }
}
