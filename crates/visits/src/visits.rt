//! Runs of calls: a list of visits is attended by a new book, and every visit gets its answer.
ghost use Rattle.std.specs.Prelude.{◌≡◌, map, IfOk, MatchResult};
ghost use Rattle.book.specs.Sheet.{blank};
ghost use Rattle.book.specs.Books.{sheet_of, Kept, Attends};
ghost use Rattle.book.specs.Runs.{RunLaw};
ghost use Rattle.visits.specs.Visits.{call_of, outcome_in};

use book::book::Book;
use book::refusal::Refusal;
use book::sources::Sources;
use entries::entry::Entry;
use series::series::{Meter, ValueList};
use statements::draft::Draft;
use std::alloc::Global;
use stores::store::Store;

/// A call that somebody comes with.
#[derive(Drop)]
pub enum Visit<'a, V, A, B, C> {
    /// Begin a year: case and year.
    Begin(u64, u64),
    /// Enter a quarter.
    Post(u64, Entry),
    /// Replace a quarter's entry.
    Amend(u64, Entry),
    /// Enter what the series of a site have at a quarter.
    Fetch(u64, Sources<'a, V, A, B, C>),
    /// Draw the statement.
    Draw,
}

/// What a visit is answered: its refusal, or else the draft where it drew one.
pub type Answer = Result<Option<Draft>, Refusal>;

/// A book after a run, and the answer to each visit.
#[derive(Drop)]
pub struct Attended<S: Store> {
    pub book: Book<S>,
    pub answers: Vec<Answer>,
}

/// There is no memory for the answers: nothing was attended, and the store comes back as it came.
#[derive(Drop)]
pub struct NoMemory<S> {
    pub store: S,
}

/// Makes one call of the book.
pub fn attend<S: Store, V: ValueList, A: Meter, B: Meter, C: Meter>(
    book: &mut Book<S>,
    visit: &Visit<'_, V, A, B, C>,
) -> Answer
    ensures { Attends S.Store book.old (call_of V.ValueList.own A.Meter.own B.Meter.own C.Meter.own visit.now) (outcome_in result) book.new }
{
    match visit {
        Visit::Begin(case, year) => book.begin(*case, *year)?,
        Visit::Post(quarter, entry) => book.post(*quarter, *entry)?,
        Visit::Amend(quarter, entry) => book.amend(*quarter, *entry)?,
        Visit::Fetch(quarter, sources) => book.fetch(*quarter, sources)?,
        Visit::Draw => return Ok(Some(book.draw())),
    }
    Ok(None)
}

/// Makes a book over the store and attends every visit in turn. Each visit, accepted or refused, gets the answer that a sheet kept by hand gives it, the book
/// ends as the sheet does, every draft adds up, and what stands at each quarter is the entry of the last accepted visit that entered it.
/// Where there is no memory for the answers nothing is attended, and the store comes back.
#[tactic(auto, using(crate::proofs::Chains::chain_none, crate::proofs::Chains::chain_turn, book::proofs::Runs::chain_kept))]
pub fn attend_all<S: Store, V: ValueList, A: Meter, B: Meter, C: Meter>(
    heap: Global,
    store: S,
    visits: &[Visit<'_, V, A, B, C>],
) -> Result<Attended<S>, NoMemory<S>>
    ensures law { MatchResult result (λ d. RunLaw (blank (S.Store.reach store) (S.Store.capacity store)) (map (call_of V.ValueList.own A.Meter.own B.Meter.own C.Meter.own) visits.now) (map outcome_in d.answers.items) (sheet_of S.Store d.book)) (λ e. e.store ≡ store) }
    ensures kept { IfOk result (λ d. Kept S.Store d.book) }
{
    let Ok(mut answers) = Vec::with_capacity(heap, visits.len()) else {
        return Err(NoMemory { store });
    };
    let mut book = Book::new(store);
    // There is room for each answer, so nothing can fail between the visits.
    for visit in visits {
        answers.push_reserved(attend(&mut book, visit));
    }
    Ok(Attended { book, answers })
}
