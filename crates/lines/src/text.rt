//! Texts cut at a byte, as into lines; and the heading of an input.
ghost use Rattle.std.specs.Prelude.{◌≡◌, ◌<◌, ◌≤◌, [], ◌∷◌, length, Ok, MatchOption};
ghost use Rattle.std.specs.Iterator.{YieldsFirstRef, item_count};
ghost use Rattle.lines.specs.Text.{cut, pieces, Follows, lines, CutsLine, of_line, heading_in};
ghost use Rattle.lines.specs.Unread.{lines_left};

use crate::misread::Misread;

// The most bytes that a line may have before its line feed.
const LONGEST_LINE: usize = 200;

// The piece before the first `at`, and what follows that byte, if there is one.
pub(crate) fn split(text: &[u8], at: u8) -> (&[u8], Option<&[u8]>)
    ensures cuts { cut at text.now ≡ result.0.now ∷ pieces at result.1 }
    ensures rest { Follows at text.now result.0.now result.1 }
{
    match text.iter().position(|b| *b == at) {
        Some(i) => (&text[..i], Some(&text[i + 1..])),
        None => (text, None),
    }
}

/// The first line of a text, without its line feed, and what follows it; none where the text is empty.
#[tactic(auto, using(crate::proofs::Cuts::lines_more, crate::proofs::Cuts::lines_last, crate::proofs::Cuts::rest_shorter))]
pub fn next_line(text: &[u8]) -> Option<(&[u8], &[u8])>
    ensures lines { MatchOption result (text.now ≡ []) (λ p. (lines text.now ≡ p.0.now ∷ lines p.1.now) × (length p.1.now < length text.now)) }
    ensures bytes { MatchOption result (text.now ≡ []) (λ p. CutsLine text.now p.0.now p.1.now) }
{
    if text.is_empty() {
        return None;
    }
    let (line, after) = split(text, b'\n');
    Some((line, after.unwrap_or(&[])))
}

/// The lines of a text, one after another.
#[derive(Drop)]
pub struct Lines<'a> {
    rest: &'a [u8],
}

impl<'a> Lines<'a> {
    /// The lines of a text, no more than it has bytes.
    #[tactic(auto, using(crate::proofs::Cuts::lines_few))]
    pub fn of(text: &'a [u8]) -> Lines<'a>
        ensures lines { lines_left result ≡ lines text.now }
        ensures few { length (lines text.now) ≤ length text.now }
    {
        Lines { rest: text }
    }
}

impl<'a> Iterator for Lines<'a> {
    type Item = &'a [u8];

    ghost next_gives = { YieldsFirstRef lines_left };

    ghost remaining = { item_count lines_left };

    #[tactic(auto, unfolding(crate::specs::Text::lines))]
    fn next(&mut self) -> Option<&'a [u8]> {
        let (line, rest) = next_line(self.rest)?;
        self.rest = rest;
        Some(line)
    }
}

/// Reads the heading of an input, its first line, which has to be `CASE;YEAR`.
#[tactic(auto, unfolding(crate::specs::Text::heading_in))]
pub fn read_heading(line: &[u8]) -> Result<(), Misread>
    ensures { result ≡ heading_in line.now }
{
    check_length(line)?;
    match line {
        b"CASE;YEAR" => Ok(()),
        _ => Err(Misread::Name(1)),
    }
}

// Refuses a line that has more bytes than a line may have.
pub(crate) fn check_length(line: &[u8]) -> Result<(), Misread>
    ensures { result ≡ of_line line.now (Ok tt) }
{
    if line.len() > LONGEST_LINE {
        return Err(Misread::Field(0));
    }
    Ok(())
}
