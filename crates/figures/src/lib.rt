//! The figures that a year's statement takes from its sums.
#![tactic(auto)]

pub mod figures;
mod share;
pub mod split;
