//! What a slip box keeps its entries on.
use entries::entry::Entry;

/// A slip: a quarter with its entry written beside it. A slip can lie anywhere in its box, whatever its quarter.
#[derive(Clone, Copy, PartialEq, Eq, Debug)]
pub struct Slip {
    pub quarter: u64,
    pub entry: Entry,
}
