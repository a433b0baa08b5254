// The three price sheets: flat, indexed and dated. Each answers the five questions in lines of its own: what they share
// stands in sheet_parts, and one more function round a line such as `self.terms.weight(index)` would be no plainer; a
// look-up that may be absent is taken apart by let-else where it is asked.
#![tactic(auto)]

pub mod dated;
pub mod flat;
pub mod indexed;
pub mod network;
