// The checks that several layers ask: of single numbers, and of any table of numbered entries.
#![tactic(auto)]

pub mod numbers;
pub mod tables;
