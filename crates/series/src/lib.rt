//! Meters and value lists. Both are series: for each quarter they have an item or a fault. Layers
//! stand over any meter, and searches and totals go over a span of quarters.
#![tactic(auto)]

pub mod fault;
pub mod gap;
pub mod limits;
pub mod series;
pub mod total;
