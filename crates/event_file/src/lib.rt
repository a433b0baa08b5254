// Event files: blocks that carry a check, and entries that tell what happened in a zone.
#![tactic(auto)]

pub mod block;
pub mod entry;
pub mod event;
pub mod fault;
pub mod input;
pub mod label;
pub mod reader;
