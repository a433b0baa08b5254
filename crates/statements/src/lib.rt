// The statement of an event file: its text, and how it is made for the network.
#![tactic(auto)]

pub mod network;
mod parts;
pub mod text;
