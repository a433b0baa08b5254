// What the programs share: what they say when they cannot go on, how they end, and the pieces in which they read and write.
#![tactic(auto)]

pub mod cause;
pub mod ending;
pub mod failure;
pub mod pieces;
