//! A meter that keeps running counts, as they stood at the start of each quarter.
ghost use Rattle.std.specs.Result.{result_err};
ghost use Rattle.meters.specs.Register.{register_reading};
ghost use Rattle.std.proofs.Common.{rules};

use crate::rows::row_at;
use series::fault::{Cause, Fault};
use series::limits::limited_reading;
use series::series::{Meter, Series};

/// The two counts at the start of one quarter.
#[derive(Clone, Copy, PartialEq, Eq, Default, Debug)]
pub struct RegisterRow {
    /// Energy taken so far, in Wh.
    pub taken: u64,
    /// Energy given so far, in Wh.
    pub given: u64,
}

/// Row q of a register meter has the counts at the start of quarter q, which are those at the end of
/// the quarter before it.
#[derive(Drop)]
pub struct RegisterMeter {
    /// The rows, from quarter 0 on.
    pub rows: Vec<RegisterRow>,
}

impl Series for RegisterMeter {
    ghost faults = { λ m q. result_err (register_reading m.rows.items q) };

    ghost asked = { Prim.search rules };

    fn fault_at(&self, quarter: u64) -> Option<Fault> {
        self.read(quarter).err()
    }
}

impl Meter for RegisterMeter {
    ghost readings = { λ m q. register_reading m.rows.items q };

    ghost agrees = { Prim.search rules };

    ghost within = { Prim.search rules };

    fn read(&self, quarter: u64) -> Result<(u32, u32), Fault> {
        // By hand, since `ok_or` and `checked_sub` with `?` take more than half as long again.
        let Some(start) = row_at(&self.rows, quarter) else {
            return Err(Fault::here(Cause::Missing, quarter));
        };
        let Some(end) = row_at(&self.rows, quarter + 1) else {
            return Err(Fault::here(Cause::Missing, quarter));
        };
        if end.taken < start.taken || end.given < start.given {
            return Err(Fault::here(Cause::Fell, quarter));
        }
        limited_reading(end.taken - start.taken, end.given - start.given, quarter)
    }
}
