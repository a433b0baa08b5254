// What price sheets are made of: a row, both roundings, and what a sheet is given.
#![tactic(auto)]

pub mod given;
pub mod rounding;
pub mod row;
