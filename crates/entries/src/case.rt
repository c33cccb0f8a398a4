//! The four ways in which a site is metered.
ghost use Rattle.std.specs.Prelude.{◌≡◌};
ghost use Rattle.entries.specs.Cases.{case_number, case_read, reading_limits};

use crate::readings::Readings;

/// No reading of a quarter-hour is over this, in Wh.
pub const READING_LIMIT: u64 = 1_000_000;

/// What stands behind the site's second meter.
#[derive(Clone, Copy, PartialEq, Eq, Debug)]
pub enum Case {
    /// Storage.
    Storage = 1,
    /// A charge point that feeds back.
    ChargePoint = 2,
    /// Storage and charge point.
    Both = 3,
    /// Storage and charge point, and a third meter for the storage alone.
    BothMetered = 4,
}

/// A number that no case has.
#[derive(Clone, Copy, PartialEq, Eq, Debug)]
pub struct NoSuchCase(pub u64);

impl TryFrom<u64> for Case {
    type Error = NoSuchCase;

    ghost try_from_gives = { λ number read. read ≡ case_read number };

    fn try_from(number: u64) -> Result<Case, NoSuchCase> {
        match number {
            1 => Ok(Case::Storage),
            2 => Ok(Case::ChargePoint),
            3 => Ok(Case::Both),
            4 => Ok(Case::BothMetered),
            _ => Err(NoSuchCase(number)),
        }
    }
}

impl Case {
    /// The case's number, 1 to 4.
    pub fn number(self) -> u64
        ensures { result ≡ case_number self }
    {
        self as u64
    }

    /// The most that each reading of a quarter may be: without a meter for the storage alone its two readings must be 0.
    pub fn reading_limits(self) -> Readings
        ensures { result ≡ reading_limits self }
    {
        let storage_alone = match self {
            Case::Storage | Case::ChargePoint | Case::Both => 0,
            Case::BothMetered => READING_LIMIT,
        };
        Readings {
            import: READING_LIMIT,
            feed_in: READING_LIMIT,
            drawn: READING_LIMIT,
            given: READING_LIMIT,
            storage_drawn: storage_alone,
            storage_given: storage_alone,
        }
    }
}
