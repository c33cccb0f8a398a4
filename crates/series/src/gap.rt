//! The gap search, over any series.
ghost use Rattle.std.specs.Prelude.{◌≡◌, Ok, Err, Some, cond, nat_le};
ghost use Rattle.entries.specs.Pairs.{most_quarters};
ghost use Rattle.series.specs.Gaps.{FirstGap, refusal_number, refusal_text};

use crate::fault::Fault;
use crate::series::Series;
use std::error::Error;
use std::fmt;
use std::ops::Range;

/// The number of quarters of the longest year; no span ends after it.
pub use entries::quarters::MOST_QUARTERS as QUARTER_LIMIT;

/// Why a span is not looked at.
#[derive(Clone, Copy, PartialEq, Eq, Debug)]
pub enum SpanRefusal {
    /// The span ends after the last quarter of the longest year.
    Quarter = 4,
}

impl SpanRefusal {
    /// The number under which the refusal is reported.
    pub fn number(self) -> u8
        ensures { result ≡ refusal_number self }
    {
        self as u8
    }
}

impl fmt::Display for SpanRefusal {
    ghost output = { λ refusal. Some (refusal_text refusal) };

    fn fmt<W: fmt::Write>(&self, f: &mut fmt::Formatter<W>) -> fmt::Result {
        write!(f, "refused {}", self.number())
    }
}

impl Error for SpanRefusal {}

/// The span, if it is looked at: it does not end after the last quarter of the longest year.
pub(crate) fn accepted(span: Range<u64>) -> Result<Range<u64>, SpanRefusal>
    ensures { result ≡ cond (nat_le span.end most_quarters) (Ok span) (Err SpanRefusal.Quarter) }
{
    if span.end > QUARTER_LIMIT {
        return Err(SpanRefusal::Quarter);
    }
    Ok(span)
}

/// The fault at the lowest faulty quarter of a span, as the series gives it, or none. A span that
/// starts at its end or after it has no gap.
pub fn first_gap<S: Series>(series: &S, span: Range<u64>) -> Result<Option<Fault>, SpanRefusal>
    ensures { FirstGap (S.Series.faults series.now) span.start span.end result }
{
    Ok(accepted(span)?.find_map(|quarter| series.fault_at(quarter)))
}
