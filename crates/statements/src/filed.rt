//! A filed statement.
ghost use Rattle.std.specs.Prelude.{◌≡◌, true, Some};
ghost use Rattle.statements.specs.Statements.{Sound, fileable};
ghost use Rattle.statements.specs.Printed.{text, Prints};

use crate::refusal::Short;
use crate::statement::Statement;
use crate::text::{Text, print_text, statement_text};

/// A statement filed under a number, with the numbers of the draft that it was. It is moved, never copied, and can only be printed.
#[derive(Debug, Drop)]
pub struct Filed {
    pub(crate) statement: Statement,
    pub(crate) number: u64,
    ghost sound: { Sound statement },
    ghost numbered: { fileable number ≡ true },
}

impl Filed {
    /// The statement's numbers.
    pub fn statement(&self) -> Statement
        ensures { result ≡ self.now.statement }
    {
        self.statement
    }

    /// The number that it is filed under.
    pub fn number(&self) -> u64
        ensures { result ≡ self.now.number }
    {
        self.number
    }

    /// The statement's text, with its number in a last column.
    pub fn text(&self) -> Text
        ensures { result.bytes ≡ text self.now.statement (Some self.now.number) }
    {
        statement_text(self.statement, Some(self.number))
    }

    /// Prints the statement, with its number in a last column, at the buffer's front, and answers the length. Refused with SHORT where the buffer has less
    /// than 400 bytes.
    pub fn print(&self, buffer: &mut [u8]) -> Result<usize, Short>
        ensures { Prints (text self.now.statement (Some self.now.number)) buffer.old result buffer.new }
    {
        print_text(|| self.text(), buffer)
    }
}
