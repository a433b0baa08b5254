// The book of one zone: its types, and the laws of a zone's life.
#![tactic(auto)]

mod bill;
mod call_checks;
mod enter;
pub mod entries;
pub mod event;
pub mod figures;
mod increase;
pub mod launched;
pub mod laws;
pub mod levy;
pub mod limits;
pub mod lines;
pub mod outcome;
pub mod prepared;
mod price;
mod share;
mod sheet_checks;
mod sound_entries;
mod tables;
mod weights;
mod year_weights;
mod zone_checks;
