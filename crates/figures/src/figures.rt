//! The figures of a year's statement.

/// The figures of a year's statement, in Wh.
#[derive(Clone, Copy, PartialEq, Eq, Default, Debug)]
pub struct Figures {
    /// Stored feed-in that had been imported before: no levies are due on it.
    pub nettable: u64,
    /// The grid's share of what the storage lost; below zero where the storage gave more than it drew.
    pub loss: i64,
    /// The import on which levies are due.
    pub levied: u64,
    /// Direct feed-in in paid times.
    pub fund_direct: u64,
    /// Stored feed-in in paid times that had come from the plant.
    pub fund_stored: u64,
    /// Both: what the premium is paid for.
    pub fund_all: u64,
    /// Direct feed-in in zero-times.
    pub zero_direct: u64,
    /// Stored feed-in in zero-times that had come from the plant.
    pub zero_stored: u64,
    /// Stored feed-in that storage and charge point gave beyond what they drew.
    pub foreign: u64,
    /// What the roundings of the four shares leave together, 0 to 3.
    pub loose: u64,
}
