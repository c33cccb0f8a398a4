//! How a year table is made.
ghost use Rattle.std.specs.Prelude.{min, IfOk};
ghost use Rattle.entries.specs.Pairs.{most_quarters};
ghost use Rattle.stores.specs.Makes.{EmptyStore};
ghost use Rattle.stores.specs.contracts.year_table.YearTableStore.TheImpl.{ghosts as year_table};

use crate::store::MOST_QUARTERS;
use crate::year_table::YearTable;
use std::alloc::{AllocError, Global};

impl YearTable {
    /// An empty table with so many places, and with 35,136 where more are asked for. All its memory is taken here.
    pub fn new(heap: Global, places: u64) -> Result<YearTable, AllocError>
        ensures { IfOk result (EmptyStore year_table (min places most_quarters) (min places most_quarters)) }
    {
        let places = places.min(MOST_QUARTERS) as usize;
        let places = vec![in heap; None; places]?;
        Ok(YearTable {
            places,
            standing: 0,
        })
    }
}
