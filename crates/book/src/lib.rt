//! The book of a year: it takes entries over any store, keeps their sums, and draws the statement.
#![tactic(auto)]

pub mod book;
pub mod calendar;
pub mod refusal;
pub mod sources;
