//! How a slip box is made.
ghost use Rattle.std.specs.Prelude.{min, IfOk};
ghost use Rattle.entries.specs.Pairs.{most_quarters};
ghost use Rattle.stores.specs.Makes.{EmptyStore};
ghost use Rattle.stores.specs.contracts.slip_box.SlipBoxStore.TheImpl.{ghosts as slip_box};

use crate::slip_box::SlipBox;
use crate::store::MOST_QUARTERS;
use std::alloc::{AllocError, Global};

impl SlipBox {
    /// An empty box with so many slips, and with 35,136 where more are asked for. All its memory is taken here.
    pub fn new(heap: Global, slips: u64) -> Result<SlipBox, AllocError>
        ensures { IfOk result (EmptyStore slip_box most_quarters (min slips most_quarters)) }
    {
        let slips = slips.min(MOST_QUARTERS);
        let written = Vec::with_capacity(heap, slips as usize)?;
        Ok(SlipBox { written, slips })
    }
}
