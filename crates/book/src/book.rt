//! The book.
ghost use Rattle.book.specs.Order.{BookFields, sheet_over, InOrder};

use crate::calendar::quarters_of;
use crate::refusal::Refusal;
use crate::sources::Sources;
use entries::case::Case;
use entries::entry::Entry;
use series::series::{Meter, ValueList};
use statements::draft::Draft;
use std::marker::Model;
use stores::any_store::covers;
use stores::store::Store;
use sums::sums::Sums;

/// The first year that can begin.
pub const FIRST_YEAR: u64 = 2025;

/// The last year that can begin.
pub const LAST_YEAR: u64 = 2099;

/// The book of a year, over any store: its case, its year, its standing entries and their sums. The entries are within the case's limits and for quarters
/// of the year, the sums are theirs, and the store reaches over the year.
#[derive(Drop)]
pub struct Book<S: Store> {
    store: S,
    sums: Sums,
    case: Case,
    year: u64,
}

impl<S: Store> Model for Book<S> {
    ghost Value = { BookFields S };

    ghost view = { λ b. record { store = b.store; sums = b.sums; case = b.case; year = b.year } };

    ghost invariant = { λ b. InOrder (sheet_over S.Store b.store b.case b.year) b.sums.totals };
}

#[tactic(auto, unfolding(crate::specs::Sheet::outcome, crate::specs::Sheet::after))]
impl<S: Store> Book<S> {
    ghost use Rattle.std.specs.Prelude.{◌≡◌, ◌≤◌, [], ◌∷◌, Some, None};
    ghost use Rattle.entries.specs.Pairs.{updated, without};
    ghost use Rattle.figures.specs.Laws.{ImportAddsUp};
    ghost use Rattle.sums.specs.Year.{totals};
    ghost use Rattle.book.specs.Books.{sheet_of, Kept, Attends, Steps, outcome_of};
    ghost use Rattle.book.specs.Calendar.{quarters};
    ghost use Rattle.book.specs.Refusals.{refusal_in};
    ghost use Rattle.book.specs.Runs.{Lawful};
    ghost use Rattle.book.specs.Sheet.{begin, post, amend, draw, drafted, blank, begun, written, first_failing, admitted, room_at, entry_checks, summable};
    ghost use Rattle.book.specs.Sources.{fetch_from};

    /// A new book over a store, which it clears: case 1, and no year yet. Whatever calls follow, each with series of whatever types, they keep the law of
    /// runs.
    #[tactic(auto, using(crate::proofs::Keeping::blank_in_order, crate::proofs::Keeping::unbegun))]
    pub fn new(mut store: S) -> Book<S>
        ensures sheet { sheet_of S.Store result ≡ blank (S.Store.reach store) (S.Store.capacity store) }
        ensures kept { Kept S.Store result }
        ensures lawful { Lawful S.Store result (S.Store.reach store) (S.Store.capacity store) }
    {
        store.clear();
        Book {
            store,
            sums: Sums::new(),
            case: Case::Storage,
            year: 0,
        }
    }

    // Whether the quarter is one of the year, and the entry within its limits.
    fn admit(&self, quarter: u64, entry: Entry) -> Result<(), Refusal>
        ensures answer { refusal_in result ≡ first_failing (admitted (sheet_of S.Store self.now) quarter entry) }
        ensures kept { Kept S.Store self.now }
    {
        if quarter >= quarters_of(self.year) {
            return Err(Refusal::Quarter);
        }
        if let Some(mark) = entry.unfit_reading(self.case) {
            return Err(Refusal::Reading(mark));
        }
        if entry.value_over() {
            return Err(Refusal::Value);
        }
        Ok(())
    }

    // Puts an admitted entry into the store, and takes over the sums that go with it.
    // What admits an entry is the book's case and year: a type for admitted entries would carry both, and each step show that they are still the book's.
    fn settle(&mut self, sums: Sums, quarter: u64, entry: Entry) -> Result<(), Refusal>
        requires admitted { first_failing (admitted (sheet_of S.Store self.old) quarter entry) ≡ None }
        requires sums { sums.totals ≡ totals (updated (S.Store.pairs self.old.store) quarter entry) }
        ensures { Steps S.Store self.old (room_at (sheet_of S.Store self.old) quarter) (written (sheet_of S.Store self.old) quarter entry) result self.new }
    {
        self.store.put(quarter, entry)?;
        self.sums = sums;
        Ok(())
    }

    // Enters an admitted entry at a quarter that has none.
    #[tactic(auto, using(crate::proofs::Keeping::new_sums))]
    fn enter(&mut self, quarter: u64, entry: Entry) -> Result<(), Refusal>
        requires { first_failing (admitted (sheet_of S.Store self.old) quarter entry) ≡ None }
        ensures { Steps S.Store self.old (entry_checks (sheet_of S.Store self.old) quarter entry) (written (sheet_of S.Store self.old) quarter entry) result self.new }
    {
        if self.store.look(quarter).is_some() {
            return Err(Refusal::Standing);
        }
        let sums = self.sums.plus(entry).map_err(Refusal::Sum)?;
        self.settle(sums, quarter, entry)
    }

    // Puts an admitted entry in the place of the one that stands at the quarter.
    fn exchange(&mut self, quarter: u64, old: Entry, entry: Entry) -> Result<(), Refusal>
        requires admitted { first_failing (admitted (sheet_of S.Store self.old) quarter entry) ≡ None }
        requires stands { S.Store.pairs self.old.store quarter ≡ Some old }
        ensures { Steps S.Store self.old (summable (without (S.Store.pairs self.old.store) quarter) entry ∷ []) (written (sheet_of S.Store self.old) quarter entry) result self.new }
    {
        let sums = self.sums.replace(old, entry)?;
        self.settle(sums, quarter, entry)
    }

    // Leaves no entry, and writes down case and year.
    fn start(&mut self, case: Case, year: u64)
        requires { quarters year ≤ S.Store.reach self.old.store }
        ensures sheet { sheet_of S.Store self.new ≡ begun (sheet_of S.Store self.old) case year }
        ensures kept { Kept S.Store self.new }
    {
        self.store.clear();
        self.sums = Sums::new();
        self.case = case;
        self.year = year;
    }

    /// Begins a year: writes down case and year, and leaves no entry.
    /// Refused with CASE outside 1 to 4, then YEAR outside 2025 to 2099, then REACH where the store does not reach over the year.
    pub fn begin(&mut self, case: u64, year: u64) -> Result<(), Refusal>
        ensures { Attends S.Store self.old (begin case year) (outcome_of result) self.new }
    {
        // That the book is kept is known from the first use of a field on, and a call that is refused at once has none.
        let _ = &self.year;
        let case = Case::try_from(case)?;
        if !(FIRST_YEAR..=LAST_YEAR).contains(&year) {
            return Err(Refusal::Year);
        }
        if !covers(&self.store, quarters_of(year)) {
            return Err(Refusal::Reach);
        }
        self.start(case, year);
        Ok(())
    }

    /// Enters a quarter. Refused with QUARTER outside the year, READING, VALUE, STANDING where the quarter has an entry, SUM, FULL, in this order.
    pub fn post(&mut self, quarter: u64, entry: Entry) -> Result<(), Refusal>
        ensures { Attends S.Store self.old (post quarter entry) (outcome_of result) self.new }
    {
        self.admit(quarter, entry)?;
        self.enter(quarter, entry)
    }

    /// Replaces a standing entry; the sums are judged without it. Refused with QUARTER, READING, VALUE, ABSENT where the quarter has no entry, SUM, in this
    /// order.
    pub fn amend(&mut self, quarter: u64, entry: Entry) -> Result<(), Refusal>
        ensures { Attends S.Store self.old (amend quarter entry) (outcome_of result) self.new }
    {
        self.admit(quarter, entry)?;
        let Some(old) = self.store.look(quarter) else {
            return Err(Refusal::Absent);
        };
        self.exchange(quarter, old, entry)
    }

    /// Enters what the series of a site have at a quarter. Refused with QUARTER outside the year, then with the first fault of the value list, Z1, Z2 and,
    /// in case 4, Z3, then as a post of the entry that they make.
    pub fn fetch<V: ValueList, A: Meter, B: Meter, C: Meter>(
        &mut self,
        quarter: u64,
        sources: &Sources<'_, V, A, B, C>,
    ) -> Result<(), Refusal>
        ensures { Attends S.Store self.old (fetch_from V.ValueList.own A.Meter.own B.Meter.own C.Meter.own sources.now quarter) (outcome_of result) self.new }
    {
        if quarter >= quarters_of(self.year) {
            return Err(Refusal::Quarter);
        }
        let entry = sources.gather(self.case, quarter)?;
        self.post(quarter, entry)
    }

    /// The draft over the standing entries. Never refused.
    pub fn draw(&self) -> Draft
        ensures answer { Attends S.Store self.now draw (drafted result.statement) self.now }
        ensures import_adds_up { ImportAddsUp self.now.case result.statement.import result.statement.figures }
    {
        Draft::draw_up(self.case, self.year, self.store.count(), &self.sums)
    }
}
