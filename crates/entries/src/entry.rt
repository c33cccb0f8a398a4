//! A quarter-hour's entry, and whether it keeps the limits of its case.
ghost use Rattle.std.specs.Prelude.{◌≡◌};
ghost use Rattle.entries.specs.Entries.{unfit_reading, value_over, within_limits};

use crate::case::Case;
use crate::readings::{Mark, Readings};

/// No applicable value is over this, in hundredths of a cent per kWh.
pub const VALUE_LIMIT: u64 = 100_000;

/// The readings of a quarter-hour, and AW, the plant's applicable value in it, in hundredths of a cent per kWh.
/// A quarter with value 0 is a zero-time.
#[derive(Clone, Copy, PartialEq, Eq, Default, Debug)]
pub struct Entry {
    pub readings: Readings,
    pub value: u64,
}

impl Entry {
    /// The lowest mark whose reading is over its limit, or not 0 where the case has no such meter.
    pub fn unfit_reading(self, case: Case) -> Option<Mark>
        ensures { result ≡ unfit_reading case self }
    {
        self.readings.lowest_over(case.reading_limits())
    }

    /// Whether the value is over its limit.
    pub fn value_over(self) -> bool
        ensures { result ≡ value_over self }
    {
        self.value > VALUE_LIMIT
    }

    /// Whether every reading and the value keep their limits.
    pub fn within_limits(self, case: Case) -> bool
        ensures { result ≡ within_limits case self }
    {
        self.unfit_reading(case).is_none() && !self.value_over()
    }
}
