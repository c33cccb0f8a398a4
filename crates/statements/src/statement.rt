//! The numbers of a statement.
ghost use Rattle.std.specs.Prelude.{map, Some};
ghost use Rattle.std.specs.Fmt.{signed_decimal};
ghost use Rattle.statements.specs.Printed.{column_values, separated};

use crate::text::values_text;
use entries::case::Case;
use figures::figures::Figures;
use std::fmt;

/// A statement is printed only into a buffer of so many bytes or more; its text always fits them.
pub const PRINT_LENGTH: usize = 400;

/// What a yearly statement says, in Wh but for the first three.
// A draft, a confirmed and a filed statement each have their methods to give it out and print it, since each is a type of its own, for what it can become.
#[derive(Clone, Copy, PartialEq, Eq, Debug)]
pub struct Statement {
    /// The metering case.
    pub case: Case,
    /// The calendar year; 0 where none has begun.
    pub year: u64,
    /// N, the number of standing entries.
    pub entries: u64,
    /// The metered import.
    pub import: u64,
    /// The metered feed-in.
    pub feed_in: u64,
    /// The figures over the standing entries.
    pub figures: Figures,
}

/// Its values, in the order of their columns and separated by semicolons.
impl fmt::Display for Statement {
    ghost output = { λ s. Some (separated (map signed_decimal (column_values s))) };

    fn fmt<W: fmt::Write>(&self, f: &mut fmt::Formatter<W>) -> fmt::Result {
        f.write_str(values_text(*self).as_str())
    }
}
