//! Answers and statements as they are told.
use statements::statement::Statement;
use std::{fmt, io};
use visits::visits::Answer;

/// A statement as it is told here: in words, where its own print is a line of values.
#[derive(Clone, Copy)]
pub struct ToldStatement(pub Statement);

impl fmt::Display for ToldStatement {
    fn fmt<W: fmt::Write>(&self, f: &mut fmt::Formatter<W>) -> fmt::Result {
        let s = self.0;
        let r = s.figures;
        let case = s.case.number();
        write!(f, "case {case}, year {}, {} entries", s.year, s.entries)?;
        write!(f, "; import {}, feed-in {}", s.import, s.feed_in)?;
        write!(f, "; nettable {}, loss {}", r.nettable, r.loss)?;
        write!(f, ", levied {}", r.levied)?;
        write!(f, "; fundable {} + {}", r.fund_direct, r.fund_stored)?;
        write!(f, " = {}", r.fund_all)?;
        write!(f, "; zero-times {} + {}", r.zero_direct, r.zero_stored)?;
        write!(f, "; foreign {}, loose {}", r.foreign, r.loose)
    }
}

/// Prints an answer under what was asked.
pub(crate) fn print_answer<W: fmt::Display + Drop>(
    rt: &HostRuntime,
    what: W,
    answer: &Answer,
) -> io::Result<()> {
    match answer {
        Ok(None) => println!(rt; "{what}: accepted"),
        Ok(Some(draft)) => println!(rt; "{what}: {}", ToldStatement(draft.statement())),
        Err(refusal) => println!(rt; "{what}: {refusal}"),
    }
}
