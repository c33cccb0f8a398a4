//! The quarters of a year.
ghost use Rattle.std.specs.Prelude.{◌≡◌};
ghost use Rattle.book.specs.Calendar.{quarters};

use entries::quarters::{COMMON_QUARTERS, MOST_QUARTERS};

/// How many quarter-hours a year has: a leap year has a day more, and the year 0, before any has begun, has none.
#[tactic(auto, unfolding(crate::specs::Calendar::quarters))]
pub fn quarters_of(year: u64) -> u64
    ensures { result ≡ quarters year }
{
    if year == 0 {
        0
    } else if year % 4 == 0 {
        MOST_QUARTERS
    } else {
        COMMON_QUARTERS
    }
}
