// A commitment or raise of a launched zone whose levy is shared out at once.
#![tactic(auto)]

pub mod settled;
