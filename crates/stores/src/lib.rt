//! Stores: what keeps entries by quarter. The trait, two makes of it, and code over any store.
#![tactic(auto)]

pub mod any_store;
mod slip;
pub mod slip_box;
pub mod store;
pub mod year_table;
