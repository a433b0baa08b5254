// The lines of a statement.
ghost use Rattle.std.specs.Prelude.{◌≡◌, Some};
ghost use Rattle.money.specs.Signs.{signed_text};
ghost use Rattle.statements.specs.Lines.{lines_shown};
ghost use Rattle.statements.specs.Statements.{account_of, account_text, totals_text};

use book::entries::RollEntry;
use book::figures::Totals;
use money::Money;
use money::signed::SignedMoney;
use std::fmt;

// An operator with its tranches of all years together and its balance.
#[derive(Drop)]
pub(crate) struct Account {
    operator: u32,
    tranches: u64,
    balance: Money,
}

impl<'a> From<&'a RollEntry> for Account {
    ghost from_gives = { λ member r. r ≡ account_of member.now };

    fn from(member: &'a RollEntry) -> Account {
        Account {
            operator: member.operator,
            tranches: member.rate(),
            balance: Money::from_micros(member.balance),
        }
    }
}

impl fmt::Display for Account {
    ghost output = { λ account. Some (account_text account) };

    fn fmt<W: fmt::Write>(&self, f: &mut fmt::Formatter<W>) -> fmt::Result {
        let operator = self.operator;
        let tranches = self.tranches;
        let balance = self.balance;
        write!(f, "OP {operator} TRANCHES {tranches} BALANCE {balance}")
    }
}

// The totals, and what is held.
#[derive(Drop)]
pub(crate) struct Sums {
    pub(crate) totals: Totals,
    pub(crate) held: SignedMoney,
}

impl fmt::Display for Sums {
    ghost output = { λ sums.
        Some (totals_text sums.totals (signed_text sums.held.negative sums.held.amount.micros)) };

    fn fmt<W: fmt::Write>(&self, f: &mut fmt::Formatter<W>) -> fmt::Result {
        let contributed = Money::from_micros(self.totals.contributed);
        let credited = Money::from_micros(self.totals.credited);
        let unshared = Money::from_micros(self.totals.unshared);
        let held = self.held;
        write!(
            f,
            "TOTAL {contributed} CREDITED {credited} UNSHARED {unshared} HELD {held}"
        )
    }
}

// Each item on a line of its own.
#[derive(Drop)]
pub(crate) struct Lines<'a, T> {
    pub(crate) items: &'a [T],
}

impl<'a, T: fmt::Display> fmt::Display for Lines<'a, T> {
    ghost output = { λ lines. lines_shown T.output lines.items.now };

    fn fmt<W: fmt::Write>(&self, f: &mut fmt::Formatter<W>) -> fmt::Result {
        for item in self.items {
            writeln!(f, "{item}")?;
        }
        Ok(())
    }
}
