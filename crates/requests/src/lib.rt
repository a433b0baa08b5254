// What a line of text asks of the quote desk: the price of a link or fibre, a sheet to use, or one more row of a series.
#![tactic(auto)]

mod fields;
pub mod number;
pub mod reading;
pub mod request;
pub mod unreadable;
pub mod words;
