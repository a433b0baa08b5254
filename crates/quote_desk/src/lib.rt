// The desk that lines are brought to: it prices links and fibres on a chosen sheet, and answers in text.
#![tactic(auto)]

pub mod desk;
pub mod reply;
pub mod service;
