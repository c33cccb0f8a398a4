//! A value list that keeps only the changes of its value.
ghost use Rattle.std.specs.Prelude.{◌≡◌, nat_le};
ghost use Rattle.std.specs.Result.{result_err};
ghost use Rattle.meters.specs.Changes.{held, HeldIsLast, change_value};
ghost use Rattle.std.proofs.Common.{rules};

use series::fault::{Cause, Fault};
use series::limits::limited_value;
use series::series::{Series, ValueList};

/// A value, and the quarter from which on it can hold.
#[derive(Clone, Copy, PartialEq, Eq, Default, Debug)]
pub struct Change {
    /// The first quarter of the value.
    pub quarter: u64,
    /// The value.
    pub value: u64,
}

impl Change {
    /// Whether the change has come by a quarter, so that its value can hold. A method, so that the search below has a contract to go by.
    fn reached(self, quarter: u64) -> bool
        ensures { result ≡ nat_le self.quarter quarter }
    {
        self.quarter <= quarter
    }
}

/// Changes in any order. At a quarter that several of them have reached, the last in the list holds.
#[derive(Drop)]
pub struct ChangeList {
    /// The changes.
    pub rows: Vec<Change>,
}

/// The row that holds at a quarter, as it is defined; and the definition gives the last such row.
#[tactic(auto, using(crate::proofs::Held::held_is_last))]
fn row_that_holds(rows: &[Change], quarter: u64) -> Option<Change>
    ensures row { result ≡ held rows.now quarter }
    ensures last { HeldIsLast rows.now quarter }
{
    rows.iter().rev().find(|row| row.reached(quarter)).copied()
}

impl Series for ChangeList {
    ghost faults = { λ l q. result_err (change_value l.rows.items q) };

    ghost asked = { Prim.search rules };

    fn fault_at(&self, quarter: u64) -> Option<Fault> {
        self.value(quarter).err()
    }
}

impl ValueList for ChangeList {
    ghost values = { λ l q. change_value l.rows.items q };

    ghost agrees = { Prim.search rules };

    ghost within = { Prim.search rules };

    fn value(&self, quarter: u64) -> Result<u32, Fault>
        ensures value { result ≡ change_value self.now.rows.items quarter }
        ensures last { HeldIsLast self.now.rows.items quarter }
    {
        let row = row_that_holds(&self.rows, quarter).ok_or(Fault::here(Cause::Missing, quarter))?;
        limited_value(row.value, quarter)
    }
}
