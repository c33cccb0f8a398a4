//! The draft of a statement.
ghost use Rattle.std.specs.Prelude.{◌≡◌, Some, None, MatchResult};
ghost use Rattle.figures.specs.Laws.{FeedInAddsUp, ImportAddsUp};
ghost use Rattle.statements.specs.Statements.{statement_of, Sound, differing};
ghost use Rattle.statements.specs.Printed.{text, Prints};

use crate::confirmed::Confirmed;
use crate::refusal::{Differs, Short, Total};
use crate::statement::Statement;
use crate::text::{Text, print_text, statement_text};
use entries::case::Case;
use figures::split::figures;
use sums::sums::Sums;

/// A statement as it was drawn. A draft is moved, never copied: it can be confirmed, and printed. Its feed-in always adds up.
#[derive(Debug, Drop)]
pub struct Draft {
    statement: Statement,
    ghost adds_up: { FeedInAddsUp statement.feed_in statement.figures },
    ghost sound: { Sound statement },
}

impl Draft {
    /// The draft of a year with these sums over so many entries.
    pub fn draw_up(case: Case, year: u64, entries: u64, sums: &Sums) -> Draft
        ensures statement { result.statement ≡ statement_of case year entries sums.now.totals }
        ensures import_adds_up { ImportAddsUp case result.statement.import result.statement.figures }
    {
        let readings = sums.totals().readings;
        Draft {
            statement: Statement {
                case,
                year,
                entries,
                import: readings.import,
                feed_in: readings.feed_in,
                figures: figures(case, sums),
            },
        }
    }

    /// The draft's numbers.
    pub fn statement(&self) -> Statement
        ensures { result ≡ self.now.statement }
    {
        self.statement
    }

    /// Confirms the draft by the grid operator's totals of import and feed-in. Refused with DIFFERS where one is another than the draft's: it names the
    /// first such, and gives the draft back.
    pub fn confirm(self, import: u64, feed_in: u64) -> Result<Confirmed, Differs>
        ensures { MatchResult result (λ c. (differing self.statement import feed_in ≡ None) × (c.statement ≡ self.statement)) (λ d. (differing self.statement import feed_in ≡ Some d.total) × (d.draft ≡ self)) }
    {
        let total = if self.statement.import != import {
            Total::Import
        } else if self.statement.feed_in != feed_in {
            Total::FeedIn
        } else {
            return Ok(Confirmed {
                statement: self.statement,
            });
        };
        Err(Differs { total, draft: self })
    }

    /// The draft's text.
    pub fn text(&self) -> Text
        ensures { result.bytes ≡ text self.now.statement None }
    {
        statement_text(self.statement, None)
    }

    /// Prints the draft at the buffer's front, and answers the length. Refused with SHORT where the buffer has less than 400 bytes.
    pub fn print(&self, buffer: &mut [u8]) -> Result<usize, Short>
        ensures { Prints (text self.now.statement None) buffer.old result buffer.new }
    {
        print_text(|| self.text(), buffer)
    }
}
