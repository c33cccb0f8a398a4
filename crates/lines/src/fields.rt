//! The fields of a line, which stand between semicolons.
ghost use Rattle.std.specs.Prelude.{◌≡◌, true, false, MatchResult};
ghost use Rattle.std.specs.Iterator.{YieldsFirstRef, item_count};
ghost use Rattle.lines.specs.Text.{fields, too_long};
ghost use Rattle.lines.specs.Unread.{unread};

use crate::misread::Misread;
use crate::text::{check_length, split};

// The fields of a line that are still to be read.
#[derive(Drop)]
pub(crate) struct Fields<'a> {
    // What is left of the line; none once its last field was read.
    rest: Option<&'a [u8]>,
}

impl<'a> Fields<'a> {
    // The fields of a line, unless it is too long.
    pub(crate) fn of(line: &'a [u8]) -> Result<Fields<'a>, Misread>
        ensures { MatchResult result (λ f. (too_long line.now ≡ false) × (unread f ≡ fields line.now)) (λ e. (too_long line.now ≡ true) × (e ≡ Misread.Field 0)) }
    {
        check_length(line)?;
        Ok(Fields { rest: Some(line) })
    }
}

impl<'a> Iterator for Fields<'a> {
    type Item = &'a [u8];

    ghost next_gives = { YieldsFirstRef unread };

    ghost remaining = { item_count unread };

    fn next(&mut self) -> Option<&'a [u8]> {
        let (field, rest) = split(self.rest?, b';');
        self.rest = rest;
        Some(field)
    }
}
