// Dated series, made once for every kind of value: rows of a date and a value, lent by the caller, and what is in force.
#![tactic(auto)]

pub mod dated_series;
pub mod limits;
pub mod rows;

pub use dated_series::Series;
pub use limits::{IndexNumber, Limited};
pub use rows::Dated;
