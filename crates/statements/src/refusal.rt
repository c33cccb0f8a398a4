//! Why a statement is not confirmed, not filed or not printed.
ghost use Rattle.std.specs.Prelude.{◌≡◌, Some};
ghost use Rattle.statements.specs.Refusals.{total_place, differs_number, short_number, fileno_number, differs_told, short_told, fileno_told};

use crate::confirmed::Confirmed;
use crate::draft::Draft;
use std::error::Error;
use std::fmt;

/// A total that the grid operator tells, by its place.
#[derive(Clone, Copy, PartialEq, Eq, Debug)]
pub enum Total {
    /// The metered import.
    Import = 1,
    /// The metered feed-in.
    FeedIn = 2,
}

// Three types with a number each, and no enum: each gives back another thing.

/// DIFFERS: this total, the first such, is another than the draft's. The draft comes back.
#[derive(Debug, Drop)]
pub struct Differs {
    pub total: Total,
    pub draft: Draft,
}

/// SHORT: the buffer has less than 400 bytes.
#[derive(Clone, Copy, PartialEq, Eq, Debug)]
pub struct Short;

/// FILENO: the number is outside 1 to 999,999. The confirmed statement comes back.
#[derive(Debug, Drop)]
pub struct BadFileNumber {
    pub confirmed: Confirmed,
}

impl Total {
    /// The place's number, 1 or 2.
    pub fn place(self) -> u64
        ensures { result ≡ total_place self }
    {
        self as u64
    }
}

impl Differs {
    /// The number that the refusal goes by.
    pub fn number(&self) -> u64
        ensures { result ≡ differs_number }
    {
        16
    }
}

impl Short {
    /// The number that the refusal goes by.
    pub fn number(self) -> u64
        ensures { result ≡ short_number }
    {
        17
    }
}

impl BadFileNumber {
    /// The number that the refusal goes by.
    pub fn number(&self) -> u64
        ensures { result ≡ fileno_number }
    {
        18
    }
}

impl fmt::Display for Differs {
    ghost output = { λ d. Some (differs_told d.total) };

    fn fmt<W: fmt::Write>(&self, f: &mut fmt::Formatter<W>) -> fmt::Result {
        let number = self.number();
        let place = self.total.place();
        write!(f, "DIFFERS ({number}), place {place}")
    }
}

impl fmt::Display for Short {
    ghost output = { λ _. Some short_told };

    fn fmt<W: fmt::Write>(&self, f: &mut fmt::Formatter<W>) -> fmt::Result {
        let number = self.number();
        write!(f, "SHORT ({number})")
    }
}

impl fmt::Display for BadFileNumber {
    ghost output = { λ _. Some fileno_told };

    fn fmt<W: fmt::Write>(&self, f: &mut fmt::Formatter<W>) -> fmt::Result {
        let number = self.number();
        write!(f, "FILENO ({number})")
    }
}

impl Error for Differs {}

impl Error for Short {}

impl Error for BadFileNumber {}
