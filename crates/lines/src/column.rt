//! What a column of a file holds.
use entries::readings::Mark;

/// What a column holds, which its name says.
#[derive(Clone, Copy, PartialEq, Eq, Debug)]
pub enum Column {
    /// Q, the quarter.
    Quarter,
    /// AW, the applicable value.
    Value,
    /// One of the six readings.
    Reading(Mark),
}
