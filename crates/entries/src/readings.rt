//! The six readings of a site's meters, and the marks they go by.
ghost use Rattle.std.specs.Prelude.{◌≡◌};
ghost use Rattle.entries.specs.Marks.{mark_number, lowest_over};

/// The mark of a reading.
#[derive(Clone, Copy, PartialEq, Eq, Debug)]
pub enum Mark {
    /// Z1NB, drawn from the grid.
    Import = 1,
    /// Z1NE, fed into the grid.
    FeedIn = 2,
    /// Z2V, drawn by storage and charge point.
    Drawn = 3,
    /// Z2E, given by storage and charge point.
    Given = 4,
    /// Z3V, drawn by the storage alone.
    StorageDrawn = 5,
    /// Z3E, given by the storage alone.
    StorageGiven = 6,
}

impl Mark {
    /// The mark's number, 1 to 6.
    pub fn number(self) -> u64
        ensures { result ≡ mark_number self }
    {
        self as u64
    }
}

/// An amount in Wh for each mark: the readings of one quarter, their sums over quarters, or their limits.
#[derive(Clone, Copy, PartialEq, Eq, Default, Debug)]
pub struct Readings {
    pub import: u64,
    pub feed_in: u64,
    pub drawn: u64,
    pub given: u64,
    pub storage_drawn: u64,
    pub storage_given: u64,
}

impl Readings {
    /// The lowest mark whose amount is over its limit.
    // Written out: a search over the six marks would look up each amount by a match.
    #[tactic(auto, unfolding(crate::specs::Marks::lowest_over))]
    pub fn lowest_over(self, limits: Readings) -> Option<Mark>
        ensures { result ≡ lowest_over limits self }
    {
        if self.import > limits.import {
            Some(Mark::Import)
        } else if self.feed_in > limits.feed_in {
            Some(Mark::FeedIn)
        } else if self.drawn > limits.drawn {
            Some(Mark::Drawn)
        } else if self.given > limits.given {
            Some(Mark::Given)
        } else if self.storage_drawn > limits.storage_drawn {
            Some(Mark::StorageDrawn)
        } else if self.storage_given > limits.storage_given {
            Some(Mark::StorageGiven)
        } else {
            None
        }
    }
}
