//! Why a call is refused.
ghost use Rattle.std.specs.Prelude.{◌≡◌, Some};
ghost use Rattle.book.specs.declared.refusal.Refusal.TheVariants.{Case as NoCase, Series as Faulty};
ghost use Rattle.book.specs.Sources.{sourced};
ghost use Rattle.book.specs.Refusals.{source_number, refusal_number, refusal_name, refusal_text, put_refused, replace_refused};

use entries::case::NoSuchCase;
use entries::readings::Mark;
use series::fault::Fault;
use std::error::Error;
use std::fmt;
use stores::store::PutRefusal;
use sums::sums::ReplaceRefusal;

/// The series that a fetch asks, numbered in the order of asking.
#[derive(Clone, Copy, PartialEq, Eq, Debug)]
pub enum Source {
    /// The value list.
    Values = 1,
    /// Z1, at the grid connection.
    First = 2,
    /// Z2, at storage and charge point.
    Second = 3,
    /// Z3, at the storage alone.
    Third = 4,
}

/// Why a call is refused. A refusal changes nothing.
#[derive(Clone, Copy, PartialEq, Eq, Debug)]
pub enum Refusal {
    /// No such case.
    Case,
    /// The year is out of range.
    Year,
    /// The store does not reach over the year.
    Reach,
    /// The quarter is not one of the year.
    Quarter,
    /// The reading at this mark, the lowest such, breaks its limit.
    Reading(Mark),
    /// The value is over its limit.
    Value,
    /// The quarter has an entry.
    Standing,
    /// The quarter has none.
    Absent,
    /// The sum at this mark, the lowest such, would pass its limit.
    Sum(Mark),
    /// The store is full.
    Full,
    /// The series has a fault at the quarter.
    Series(Source, Fault),
}

/// A fault, with the series that has it.
#[derive(Clone, Copy, PartialEq, Eq, Debug)]
pub struct SourceFault {
    pub source: Source,
    pub fault: Fault,
}

impl Source {
    /// The number that the series goes by.
    pub fn number(self) -> u64
        ensures { result ≡ source_number self }
    {
        self as u64
    }

    // An answer of this series, with the series that a fault is of.
    pub(crate) fn asked<T>(self, answer: Result<T, Fault>) -> Result<T, SourceFault>
        ensures { result ≡ sourced self answer }
    {
        answer.map_err(|fault| SourceFault {
            source: self,
            fault,
        })
    }
}

impl Refusal {
    /// The number that the refusal goes by.
    // By a match, since a variant with a field can't be declared with a number.
    pub fn number(self) -> u64
        ensures { result ≡ refusal_number self }
    {
        match self {
            Refusal::Case => 1,
            Refusal::Year => 2,
            Refusal::Reach => 3,
            Refusal::Quarter => 4,
            Refusal::Reading(_) => 5,
            Refusal::Value => 6,
            Refusal::Standing => 7,
            Refusal::Absent => 8,
            Refusal::Sum(_) => 9,
            Refusal::Full => 10,
            Refusal::Series(_, fault) => u64::from(fault.cause.number()),
        }
    }

    // The name that the refusal goes by.
    fn name(self) -> &'static str
        ensures { result.now ≡ refusal_name self }
    {
        match self {
            Refusal::Case => "CASE",
            Refusal::Year => "YEAR",
            Refusal::Reach => "REACH",
            Refusal::Quarter => "QUARTER",
            Refusal::Reading(_) => "READING",
            Refusal::Value => "VALUE",
            Refusal::Standing => "STANDING",
            Refusal::Absent => "ABSENT",
            Refusal::Sum(_) => "SUM",
            Refusal::Full => "FULL",
            Refusal::Series(_, fault) => fault.cause.name(),
        }
    }
}

impl fmt::Display for Refusal {
    ghost output = { λ r. Some (refusal_text r) };

    fn fmt<W: fmt::Write>(&self, f: &mut fmt::Formatter<W>) -> fmt::Result {
        let name = self.name();
        let number = self.number();
        write!(f, "{name} ({number})")?;
        match self {
            Refusal::Reading(mark) | Refusal::Sum(mark) => {
                let mark = mark.number();
                write!(f, ", mark {mark}")
            }
            Refusal::Series(source, fault) => {
                let (series, quarter, depth) = (source.number(), fault.quarter, fault.depth);
                write!(f, ", series {series}, quarter {quarter}, depth {depth}")
            }
            _ => Ok(()),
        }
    }
}

impl Error for Refusal {}

impl From<NoSuchCase> for Refusal {
    ghost from_gives = { λ _ r. r ≡ NoCase };

    fn from(_missing: NoSuchCase) -> Refusal {
        Refusal::Case
    }
}

impl From<PutRefusal> for Refusal {
    ghost from_gives = { λ p r. r ≡ put_refused p };

    fn from(refusal: PutRefusal) -> Refusal {
        match refusal {
            PutRefusal::Quarter => Refusal::Quarter,
            PutRefusal::Full => Refusal::Full,
        }
    }
}

impl From<ReplaceRefusal> for Refusal {
    ghost from_gives = { λ p r. r ≡ replace_refused p };

    fn from(refusal: ReplaceRefusal) -> Refusal {
        match refusal {
            ReplaceRefusal::NotHeld => Refusal::Absent,
            ReplaceRefusal::Over(mark) => Refusal::Sum(mark),
        }
    }
}

impl From<SourceFault> for Refusal {
    ghost from_gives = { λ f r. r ≡ Faulty f.source f.fault };

    fn from(faulty: SourceFault) -> Refusal {
        Refusal::Series(faulty.source, faulty.fault)
    }
}
