// The price of a link between an NRO (the operators' exchange) and a PM, and of an extra fibre on one, over any tariff.
#![tactic(auto)]

pub mod order;
pub mod price;
pub mod quotation;
mod tables;
