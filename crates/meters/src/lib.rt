//! Meters and value lists of every make, and layers over any meters.
#![tactic(auto)]

pub mod change;
pub mod full;
pub mod interval;
pub mod register;
mod rows;
pub mod sum;
pub mod transformer;
