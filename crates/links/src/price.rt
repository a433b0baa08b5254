// The price of an order over any tariff.
ghost use Rattle.std.specs.Prelude.{◌≡◌, ◌≤◌, IfOk};
ghost use Rattle.refusal.specs.Checks.{passing};
ghost use Rattle.links.specs.Quotations.{date_checks, basis_checked, placed, CellLimits, BasisLimits, price_on, most_reference, link_at, fibre_at, link_quotation, fibre_quotation};

use crate::order::Order;
use crate::quotation::{Basis, Cell, Quotation};
use crate::tables::{EXTRA, INITIAL, REFERENCE, column_of, price_at, row_of};
use checks::numbers::check_date;
use refusal::Refusal;
use tariff::questions::Tariff;
use tariff::quotient::Quotient;

/// The price of a link, or the first check that refuses it: `NoDate` where a date is not real, `NoCoefficient` where it is
/// ex post and the sheet has none, `MetresOutOfRange` and `FibresOutOfRange` outside the tables.
pub fn link_price<T: Tariff>(sheet: &T, order: &Order) -> Result<Quotation, Refusal>
    ensures answer { result ≡ link_quotation (T.meaning sheet.now) order.now }
{
    let cell = cell_of(sheet, order)?;
    Ok(link_at(sheet, cell))
}

/// The price of an extra fibre on a link, refused as a link is.
pub fn fibre_price<T: Tariff>(sheet: &T, order: &Order) -> Result<Quotation, Refusal>
    ensures answer { result ≡ fibre_quotation (T.meaning sheet.now) order.now }
{
    let cell = cell_of(sheet, order)?;
    Ok(fibre_at(sheet, cell))
}

// All checks of an order, and what it is priced by.
fn cell_of<T: Tariff>(sheet: &T, order: &Order) -> Result<Cell, Refusal>
    ensures answer { result ≡ placed (T.meaning sheet.now) order.now }
    ensures limits { IfOk result CellLimits }
{
    check_dates(order)?;
    let basis = basis_of(sheet, order)?;
    let row = row_of(order.metres)?;
    let column = column_of(order.fibres)?;
    Ok(Cell { basis, row, column })
}

// Whether the order date, and the service date where it is known, are real.
fn check_dates(order: &Order) -> Result<(), Refusal>
    ensures answer { result ≡ passing (date_checks order.now) }
{
    check_date(order.ordered)?;
    match order.service {
        Some(service) => check_date(service),
        None => Ok(()),
    }
}

// Whether an order is ab initio, or by which coefficient it is ex post.
fn basis_of<T: Tariff>(sheet: &T, order: &Order) -> Result<Basis, Refusal>
    ensures answer { result ≡ basis_checked (T.meaning sheet.now) order.now }
{
    match order.service {
        Some(service) if service < order.ordered => {
            let coefficient = sheet.coefficient(service, order.ordered);
            Ok(Basis::ExPost(coefficient.ok_or(Refusal::NoCoefficient)?))
        }
        _ => Ok(Basis::AbInitio),
    }
}

fn link_at<T: Tariff>(sheet: &T, cell: Cell) -> Quotation
    requires { CellLimits cell }
    ensures value { result ≡ link_at (T.meaning sheet.now) cell }
{
    let Cell { basis, row, column } = cell;
    let price = price_on(
        sheet,
        basis,
        price_at(&INITIAL, row, column),
        price_at(&REFERENCE, row, column),
    );
    Quotation { basis, price }
}

fn fibre_at<T: Tariff>(sheet: &T, cell: Cell) -> Quotation
    requires { CellLimits cell }
    ensures value { result ≡ fibre_at (T.meaning sheet.now) cell }
{
    let Cell { basis, row, column } = cell;
    let extra = price_at(&EXTRA, row, column.min(4));
    let price = price_on(sheet, basis, extra, extra);
    Quotation { basis, price }
}

// Ab initio the first price; ex post the reference price times the coefficient, rounded by the sheet.
fn price_on<T: Tariff>(sheet: &T, basis: Basis, first: u64, reference: u64) -> u64
    requires limits { BasisLimits basis }
    requires most { reference ≤ most_reference }
    ensures value { result ≡ price_on (T.meaning sheet.now) basis first reference }
{
    match basis {
        Basis::AbInitio => first,
        Basis::ExPost(coefficient) => sheet.rounded(Quotient {
            numerator: reference * u64::from(coefficient.numerator),
            denominator: coefficient.denominator,
        }),
    }
}
