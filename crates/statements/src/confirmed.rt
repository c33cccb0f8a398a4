//! A statement that the grid operator's totals confirm.
ghost use Rattle.std.specs.Prelude.{◌≡◌, true, false, MatchResult};
ghost use Rattle.statements.specs.Statements.{Sound, fileable};

use crate::filed::Filed;
use crate::refusal::BadFileNumber;
use crate::statement::Statement;

/// The first number that a statement can be filed under.
pub const FIRST_FILE_NUMBER: u64 = 1;

/// The last one.
pub const LAST_FILE_NUMBER: u64 = 999_999;

/// A confirmed statement, with the numbers of the draft that it was. It is moved, never copied, and can only be filed.
#[derive(Debug, Drop)]
pub struct Confirmed {
    pub(crate) statement: Statement,
    ghost sound: { Sound statement },
}

impl Confirmed {
    /// The statement's numbers.
    pub fn statement(&self) -> Statement
        ensures { result ≡ self.now.statement }
    {
        self.statement
    }

    /// Files the statement under a number from 1 to 999,999. Refused with FILENO at any other, which gives the confirmed statement back.
    pub fn file(self, number: u64) -> Result<Filed, BadFileNumber>
        ensures { MatchResult result (λ f. (fileable number ≡ true) × (f.statement ≡ self.statement) × (f.number ≡ number)) (λ e. (fileable number ≡ false) × (e.confirmed ≡ self)) }
    {
        if !(FIRST_FILE_NUMBER..=LAST_FILE_NUMBER).contains(&number) {
            return Err(BadFileNumber { confirmed: self });
        }
        Ok(Filed {
            statement: self.statement,
            number,
        })
    }
}
