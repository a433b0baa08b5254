// An event file run through the book of a zone: what was refused, and what the accounts come to.
#![tactic(auto)]

mod books;
mod label;
mod ledger;
pub mod notice;
mod reading;
pub mod report;
mod zone_state;
