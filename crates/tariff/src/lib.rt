// The tariff: five questions, and all that the layers above a price sheet know of it.
#![tactic(auto)]

pub mod kinds;
pub mod questions;
pub mod quotient;
