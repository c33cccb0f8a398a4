//! The limits of readings and of values, for every make.
ghost use Rattle.std.specs.Prelude.{◌≡◌};
ghost use Rattle.series.specs.Limits.{reading_of, value_of};

use crate::fault::{Cause, Fault};
use entries::case::READING_LIMIT;
use entries::entry::VALUE_LIMIT;

/// Taken and given energy as a reading, if both are within the limit.
// Each limit is tested where the casts to 32 bits are, which it makes safe.
pub fn limited_reading(taken: u64, given: u64, quarter: u64) -> Result<(u32, u32), Fault>
    ensures { result ≡ reading_of taken given quarter }
{
    if taken > READING_LIMIT || given > READING_LIMIT {
        return Err(Fault::here(Cause::TooBig, quarter));
    }
    Ok((taken as u32, given as u32))
}

/// A number as a value, if it is within the limit.
pub fn limited_value(number: u64, quarter: u64) -> Result<u32, Fault>
    ensures { result ≡ value_of number quarter }
{
    if number > VALUE_LIMIT {
        return Err(Fault::here(Cause::TooBig, quarter));
    }
    Ok(number as u32)
}
