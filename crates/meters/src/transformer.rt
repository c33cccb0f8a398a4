//! A layer over any meter that stands behind a current transformer: what the meter reads is
//! multiplied by a factor.
ghost use Rattle.std.specs.Result.{result_err};
ghost use Rattle.meters.specs.Layers.{scaled};
ghost use Rattle.std.proofs.Common.{rules};

use series::fault::{Cause, Fault, from_below};
use series::limits::limited_reading;
use series::series::{Meter, Series};

/// The highest factor of a transformer.
const FACTOR_LIMIT: u64 = 10_000;

/// A meter and the factor of its transformer.
#[derive(Drop)]
pub struct Transformer<M> {
    /// The meter below.
    pub meter: M,
    /// The factor, 1 to 10,000; with another there is no reading.
    pub factor: u64,
}

impl<M: Meter> Series for Transformer<M> {
    ghost faults = { λ t q. result_err (scaled t.factor (M.Meter.readings t.meter q) q) };

    ghost asked = { Prim.search rules };

    fn fault_at(&self, quarter: u64) -> Option<Fault> {
        self.read(quarter).err()
    }
}

impl<M: Meter> Meter for Transformer<M> {
    ghost readings = { λ t q. scaled t.factor (M.Meter.readings t.meter q) q };

    ghost agrees = { Prim.search rules };

    ghost within = { Prim.search rules };

    fn read(&self, quarter: u64) -> Result<(u32, u32), Fault> {
        let (taken, given) = from_below(self.meter.read(quarter))?;
        let factor = self.factor;
        if !(1..=FACTOR_LIMIT).contains(&factor) {
            return Err(Fault::here(Cause::TooBig, quarter));
        }
        limited_reading(
            u64::from(taken) * factor,
            u64::from(given) * factor,
            quarter,
        )
    }
}
