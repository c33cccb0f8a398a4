//! The line at which an input stops.
ghost use Rattle.std.specs.Prelude.{◌≡◌, Ok, Err, MatchResult};
ghost use Rattle.book.specs.Refusals.{refusal_values};
ghost use Rattle.files.specs.Endings.{place_beside, lacking_line};
ghost use Rattle.files.specs.declared.stop.Cause.{Cause};
ghost use Rattle.files.specs.declared.stop.Cause.TheVariants.{Misread as Unread, Refused};
ghost use Rattle.files.specs.Stops.{stopped_number, stopped_values, stop_at, stop_end, note_of};

use book::refusal::Refusal;
use lines::misread::Misread;
use statements::refusal_note::RefusalNote;

/// Why a line stops an input.
#[derive(Clone, Copy, PartialEq, Eq, Debug)]
pub(crate) enum Cause {
    /// It cannot be read.
    Misread(Misread),
    /// The book refuses the call that it spells.
    Refused(Refusal),
}

/// The line at which an input stops, counted from 1, and why.
#[derive(Clone, Copy, PartialEq, Eq, Debug)]
pub(crate) struct Stop {
    pub(crate) line: u64,
    pub(crate) cause: Cause,
}

impl From<Misread> for Cause {
    ghost from_gives = { λ misread cause. cause ≡ Unread misread };

    fn from(misread: Misread) -> Cause {
        Cause::Misread(misread)
    }
}

impl From<Refusal> for Cause {
    ghost from_gives = { λ refusal cause. cause ≡ Refused refusal };

    fn from(refusal: Refusal) -> Cause {
        Cause::Refused(refusal)
    }
}

impl Cause {
    /// The number of the refusal.
    pub(crate) fn number(self) -> u64
        ensures { result ≡ stopped_number self }
    {
        match self {
            Cause::Misread(misread) => misread.number(),
            Cause::Refused(refusal) => refusal.number(),
        }
    }

    /// The mark or the column that the refusal is about, or 0.
    pub(crate) fn place(self) -> u64
        ensures { result ≡ place_beside (stopped_values self) }
    {
        match self {
            Cause::Misread(misread) => misread.column(),
            Cause::Refused(refusal) => place_of(refusal),
        }
    }
}

impl Stop {
    /// What is told of the stop.
    pub(crate) fn note(self) -> RefusalNote
        ensures { result ≡ note_of self }
    {
        RefusalNote {
            number: self.cause.number(),
            line: self.line,
            place: self.cause.place(),
        }
    }
}

// The mark that a refusal of the book names, or 0.
fn place_of(refusal: Refusal) -> u64
    ensures { result ≡ place_beside (refusal_values refusal) }
{
    match refusal {
        Refusal::Reading(mark) | Refusal::Sum(mark) => mark.number(),
        _ => 0,
    }
}

/// The stop at a line that the input lacks.
pub(crate) fn lacking(line: u64) -> Stop
    ensures { stop_end result ≡ lacking_line line }
{
    Stop {
        line,
        cause: Cause::Misread(Misread::Name(1)),
    }
}

/// An answer about a line, or the stop at it.
pub(crate) fn at_line<T, E: Into<Cause>>(line: u64, answer: Result<T, E>) -> Result<T, Stop>
    ensures { MatchResult answer (λ x. result ≡ Ok x) (λ e. (cause : Cause) × E.converts e cause × (result ≡ Err (stop_at line cause))) }
{
    answer.map_err(|cause| Stop {
        line,
        cause: cause.into(),
    })
}
