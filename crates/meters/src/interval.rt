//! A meter that keeps the energy of each quarter.
ghost use Rattle.std.specs.Result.{result_err};
ghost use Rattle.meters.specs.Interval.{interval_reading};
ghost use Rattle.std.proofs.Common.{rules};

use crate::rows::row_at;
use series::fault::{Cause, Fault};
use series::limits::limited_reading;
use series::series::{Meter, Series};

/// The mark of a valid row.
const VALID: u8 = 1;

/// What was metered in one quarter.
#[derive(Clone, Copy, PartialEq, Eq, Default, Debug)]
pub struct IntervalRow {
    /// Energy taken, in Wh.
    pub taken: u64,
    /// Energy given, in Wh.
    pub given: u64,
    /// 1 where the row is valid; a row with another mark does not count. Rows are handed over with a number here.
    pub mark: u8,
}

/// Row q of an interval meter has the energy of quarter q.
#[derive(Drop)]
pub struct IntervalMeter {
    /// The rows, from quarter 0 on.
    pub rows: Vec<IntervalRow>,
}

impl Series for IntervalMeter {
    ghost faults = { λ m q. result_err (interval_reading m.rows.items q) };

    ghost asked = { Prim.search rules };

    fn fault_at(&self, quarter: u64) -> Option<Fault> {
        self.read(quarter).err()
    }
}

impl Meter for IntervalMeter {
    ghost readings = { λ m q. interval_reading m.rows.items q };

    ghost agrees = { Prim.search rules };

    ghost within = { Prim.search rules };

    fn read(&self, quarter: u64) -> Result<(u32, u32), Fault> {
        let row = row_at(&self.rows, quarter)
            .filter(|row| row.mark == VALID)
            .ok_or(Fault::here(Cause::Missing, quarter))?;
        limited_reading(row.taken, row.given, quarter)
    }
}
