//! The energy of a span of quarters, over any meter.
ghost use Rattle.std.specs.Prelude.{◌≡◌};
ghost use Rattle.series.specs.declared.total.NoTotal.TheVariants.{Gap, Refused};
ghost use Rattle.series.specs.Totals.{SpanEnergy};

use crate::fault::Fault;
use crate::gap::{SpanRefusal, accepted};
use crate::series::Meter;
use std::ops::Range;

/// Why a span has no total.
#[derive(Clone, Copy, PartialEq, Eq, Debug)]
pub enum NoTotal {
    /// The span itself is refused.
    Refused(SpanRefusal),
    /// The span has a gap: the fault at its lowest faulty quarter.
    Gap(Fault),
}

impl From<SpanRefusal> for NoTotal {
    ghost from_gives = { λ e r. r ≡ Refused e };

    fn from(refusal: SpanRefusal) -> NoTotal {
        NoTotal::Refused(refusal)
    }
}

impl From<Fault> for NoTotal {
    ghost from_gives = { λ f r. r ≡ Gap f };

    fn from(fault: Fault) -> NoTotal {
        NoTotal::Gap(fault)
    }
}

/// The energy that a meter took and the energy that it gave in a span, in Wh. A span with a gap has
/// no total, but the fault of its first gap.
pub fn energy_over<M: Meter>(meter: &M, span: Range<u64>) -> Result<(u64, u64), NoTotal>
    ensures { SpanEnergy (M.Series.faults meter.now) (M.Meter.readings meter.now) span.start span.end result }
{
    let (mut taken, mut given) = (0, 0);
    for quarter in accepted(span)? {
        let (more_taken, more_given) = meter.read(quarter)?;
        taken += u64::from(more_taken);
        given += u64::from(more_given);
    }
    Ok((taken, given))
}
