//! Runs of calls: a list of visits is attended by a new book, and every visit gets its answer.
#![tactic(auto)]

pub mod visits;
