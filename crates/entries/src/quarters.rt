//! How many quarters a year can have.

/// The quarters of a common year.
pub const COMMON_QUARTERS: u64 = 35_040;

/// The quarters of the longest year, a leap year.
pub const MOST_QUARTERS: u64 = 35_136;
