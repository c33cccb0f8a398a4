//! A value list that keeps a number for each quarter.
ghost use Rattle.std.specs.Result.{result_err};
ghost use Rattle.meters.specs.FullList.{full_value};
ghost use Rattle.std.proofs.Common.{rules};

use crate::rows::row_at;
use series::fault::{Cause, Fault};
use series::limits::limited_value;
use series::series::{Series, ValueList};

/// Stands in a row that has no value: rows are handed over as one 32-bit number a quarter.
pub const NO_VALUE: u32 = 4_294_967_295;

/// Row q of a full value list has the value of quarter q.
#[derive(Drop)]
pub struct FullValueList {
    /// The rows, from quarter 0 on.
    pub rows: Vec<u32>,
}

impl Series for FullValueList {
    ghost faults = { λ l q. result_err (full_value l.rows.items q) };

    ghost asked = { Prim.search rules };

    fn fault_at(&self, quarter: u64) -> Option<Fault> {
        self.value(quarter).err()
    }
}

impl ValueList for FullValueList {
    ghost values = { λ l q. full_value l.rows.items q };

    ghost agrees = { Prim.search rules };

    ghost within = { Prim.search rules };

    fn value(&self, quarter: u64) -> Result<u32, Fault> {
        let number = row_at(&self.rows, quarter)
            .filter(|number| *number != NO_VALUE)
            .ok_or(Fault::here(Cause::Missing, quarter))?;
        limited_value(u64::from(number), quarter)
    }
}
