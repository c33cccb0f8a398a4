//! Why a series has no item at a quarter, and how that climbs through the layers.
ghost use Rattle.std.specs.Prelude.{◌≡◌, Some};
ghost use Rattle.series.specs.Faults.{cause_number, cause_text, fault_text, fault_values, own_fault, raised, seen_from_above};

use std::error::Error;
use std::fmt;

/// What is wrong with the item that was asked for.
#[derive(Clone, Copy, PartialEq, Eq, Debug)]
pub enum Cause {
    /// There is no such item.
    Missing = 11,
    /// A count is lower at the quarter's end than at its start.
    Fell = 12,
    /// The item is over its limit, or a setting of the layer is out of its range.
    TooBig = 13,
}

/// The fault that stands in an item's place.
#[derive(Clone, Copy, PartialEq, Eq, Debug)]
pub struct Fault {
    /// What is wrong.
    pub cause: Cause,
    /// The quarter that was asked for.
    pub quarter: u64,
    /// How many layers stand above the place of the fault; 255 also stands for more.
    pub depth: u8,
}

impl Cause {
    /// The number under which the cause is reported.
    pub fn number(self) -> u8
        ensures { result ≡ cause_number self }
    {
        self as u8
    }

    /// The name under which the cause is told.
    pub fn name(self) -> &'static str
        ensures { result.now ≡ cause_text self }
    {
        match self {
            Cause::Missing => "MISSING",
            Cause::Fell => "FELL",
            Cause::TooBig => "TOO BIG",
        }
    }
}

impl fmt::Display for Cause {
    ghost output = { λ cause. Some (cause_text cause) };

    fn fmt<W: fmt::Write>(&self, f: &mut fmt::Formatter<W>) -> fmt::Result {
        f.write_str(self.name())
    }
}

impl Error for Cause {}

impl Fault {
    /// A fault of the asked layer itself.
    pub fn here(cause: Cause, quarter: u64) -> Fault
        ensures { result ≡ own_fault cause quarter }
    {
        Fault {
            cause,
            quarter,
            depth: 0,
        }
    }

    /// The same fault, seen from one layer further up.
    pub fn raise(self) -> Fault
        ensures { result ≡ raised self }
    {
        Fault {
            cause: self.cause,
            quarter: self.quarter,
            depth: self.depth.saturating_add(1),
        }
    }

    /// What is reported beside the cause's number: the quarter asked for and the depth.
    pub fn values(self) -> (u64, u8)
        ensures { result ≡ fault_values self }
    {
        (self.quarter, self.depth)
    }
}

impl fmt::Display for Fault {
    ghost output = { λ fault. Some (fault_text fault) };

    fn fmt<W: fmt::Write>(&self, f: &mut fmt::Formatter<W>) -> fmt::Result {
        let number = self.cause.number();
        let (quarter, depth) = self.values();
        write!(f, "fault {number}, quarter {quarter}, depth {depth}")
    }
}

impl Error for Fault {}

/// What a layer makes of an answer of the layer below it: an item stays, a fault is raised.
/// Each layer takes it apart by `?`.
pub fn from_below<T>(answer: Result<T, Fault>) -> Result<T, Fault>
    ensures { result ≡ seen_from_above answer }
{
    answer.map_err(Fault::raise)
}
