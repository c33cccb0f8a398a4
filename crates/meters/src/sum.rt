//! A layer that reads any two meters as one.
ghost use Rattle.std.specs.Result.{result_err};
ghost use Rattle.meters.specs.Layers.{summed};
ghost use Rattle.std.proofs.Common.{rules};

use series::fault::{Fault, from_below};
use series::limits::limited_reading;
use series::series::{Meter, Series};

/// Two meters whose readings are added.
#[derive(Drop)]
pub struct SumMeter<A, B> {
    /// The meter whose fault comes first.
    pub first: A,
    /// The other meter.
    pub second: B,
}

impl<A: Meter, B: Meter> Series for SumMeter<A, B> {
    ghost faults = { λ s q. result_err (summed (A.Meter.readings s.first q) (B.Meter.readings s.second q) q) };

    ghost asked = { Prim.search rules };

    fn fault_at(&self, quarter: u64) -> Option<Fault> {
        self.read(quarter).err()
    }
}

impl<A: Meter, B: Meter> Meter for SumMeter<A, B> {
    ghost readings = { λ s q. summed (A.Meter.readings s.first q) (B.Meter.readings s.second q) q };

    ghost agrees = { Prim.search rules };

    ghost within = { Prim.search rules };

    fn read(&self, quarter: u64) -> Result<(u32, u32), Fault> {
        let (taken, given) = from_below(self.first.read(quarter))?;
        let (more_taken, more_given) = from_below(self.second.read(quarter))?;
        limited_reading(
            u64::from(taken) + u64::from(more_taken),
            u64::from(given) + u64::from(more_given),
            quarter,
        )
    }
}
