//! The values of a line: numbers of 1 to 10 digits between semicolons.
ghost use Rattle.std.specs.Prelude.{◌≡◌, ◌+◌, ◌^◌, ◌<◌, true, false, Ok, Err, MatchResult};
ghost use Rattle.lines.specs.Text.{fields, too_long};
ghost use Rattle.lines.specs.Unread.{unread};
ghost use Rattle.lines.specs.Values.{class, number_of, first_value, others, ends_with, pair_in};

use crate::fields::Fields;
use crate::misread::Misread;

// The most digits that a value may have.
const MOST_DIGITS: usize = 10;

// What a character of a line of values is: the three classes of the format, though a value needs the digit alone.
#[derive(Clone, Copy)]
enum Class {
    Digit(u64),
    Separator,
    Other,
}

fn class_of(c: char) -> Class
    ensures { result ≡ class c }
{
    match c {
        '0'..='9' => Class::Digit(u64::from(c) - u64::from('0')),
        ';' => Class::Separator,
        _ => Class::Other,
    }
}

// The value that a field spells; none where it is malformed. A loop, since a closure of `try_fold` would not know that the value fits.
#[tactic(auto, using(std::proofs::lemmas::Grind::common_steps, crate::proofs::Numbers::spelt_whole))]
fn number(field: &[u8]) -> Option<u64>
    ensures { result ≡ number_of field.now }
{
    if field.is_empty() || field.len() > MOST_DIGITS {
        return None;
    }
    let mut value = 0;
    for b in field {
        let Class::Digit(digit) = class_of(char::from(*b)) else {
            return None;
        };
        value = 10 * value + digit;
    }
    Some(value)
}

// The values of a line that are still to be read.
#[derive(Drop)]
pub(crate) struct Values<'a> {
    fields: Fields<'a>,
    // The column of the next value, counted from 1: `end` tells of one after the last.
    column: u64,
}

impl<'a> Values<'a> {
    // The values of a line, unless it is too long.
    pub(crate) fn of(line: &'a [u8]) -> Result<Values<'a>, Misread>
        ensures { MatchResult result (λ vs. (too_long line.now ≡ false) × (vs.column ≡ 1) × (unread vs.fields ≡ fields line.now)) (λ e. (too_long line.now ≡ true) × (e ≡ Misread.Field 0)) }
    {
        Ok(Values {
            fields: Fields::of(line)?,
            column: 1,
        })
    }

    // The value in the next column.
    pub(crate) fn read(&mut self) -> Result<u64, Misread>
        requires { self.old.column + 1 < 2 ^ 64 }
        ensures { MatchResult result (λ v. (first_value self.old.column (unread self.old.fields) ≡ Ok v) × (others (unread self.old.fields) ≡ unread self.new.fields) × (self.new.column ≡ self.old.column + 1)) (λ e. first_value self.old.column (unread self.old.fields) ≡ Err e) }
    {
        let field = self.fields.next();
        let value = field.and_then(number).ok_or(Misread::Field(self.column))?;
        self.column += 1;
        Ok(value)
    }

    // Refuses a column that is one too many: no value may be left.
    pub(crate) fn end(mut self) -> Result<(), Misread>
        ensures { result ≡ ends_with tt self.entry.column (unread self.entry.fields) }
    {
        match self.fields.next() {
            Some(_) => Err(Misread::Field(self.column)),
            None => Ok(()),
        }
    }
}

/// Reads a line of just two values.
#[tactic(auto, unfolding(crate::specs::Values::pair_in))]
pub fn read_pair(line: &[u8]) -> Result<(u64, u64), Misread>
    ensures { result ≡ pair_in line.now }
{
    let mut values = Values::of(line)?;
    let first = values.read()?;
    let second = values.read()?;
    values.end()?;
    Ok((first, second))
}
