//! The sums over a year's entries: as plain numbers, and as a record that always balances.
#![tactic(auto)]

pub mod sums;
pub mod totals;
