//! What a quarter-hour's entry holds, its six readings and their marks, the four metering cases, and the quarters of a year.
#![tactic(auto)]

pub mod case;
pub mod entry;
pub mod quarters;
pub mod readings;
