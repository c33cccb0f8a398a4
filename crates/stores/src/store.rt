//! What every store promises.
ghost use Rattle.std.specs.Prelude.{◌≡◌, ℕ, ◌≤◌, Some, None, MatchResult};
ghost use Rattle.entries.specs.Pairs.{Pairs, no_pairs, updated, tally};
ghost use Rattle.stores.specs.Puts.{put_refusal_number, put_refusal_text, refusal_in, put_refusal};

use entries::entry::Entry;
use std::fmt;

// No store has more places or slips.
pub use entries::quarters::MOST_QUARTERS;

/// Why a pair was not put.
#[derive(Clone, Copy, PartialEq, Eq, Debug)]
pub enum PutRefusal {
    /// The quarter is at or beyond the store's reach.
    Quarter = 4,
    /// The quarter has no pair, and as many pairs stand as the store can hold.
    Full = 10,
}

impl PutRefusal {
    /// The number that the refusal goes by.
    pub fn number(self) -> u64
        ensures { result ≡ put_refusal_number self }
    {
        self as u64
    }
}

impl fmt::Display for PutRefusal {
    ghost output = { λ refusal. Some (put_refusal_text refusal) };

    fn fmt<W: fmt::Write>(&self, f: &mut fmt::Formatter<W>) -> fmt::Result {
        f.write_str(match self {
            PutRefusal::Quarter => "QUARTER (4)",
            PutRefusal::Full => "FULL (10)",
        })
    }
}

impl std::error::Error for PutRefusal {}

/// Anything that keeps entries by quarter. It holds pairs of a quarter and its entry: at most one pair a quarter,
/// each quarter below the reach, and no more pairs than the capacity. Reach and capacity never change.
/// Once a store is made its calls need no more memory.
pub trait Store {
    // The quarters below it can have a pair, and no others.
    ghost reach: { Self → ℕ };

    // So many pairs can stand at once.
    ghost capacity: { Self → ℕ };

    // The entry that stands at each quarter, or none.
    ghost pairs: { Self → Pairs };

    /// Leaves no pair.
    fn clear(&mut self)
        ensures pairs { pairs self.new ≡ no_pairs }
        ensures reach { reach self.new ≡ reach self.old }
        ensures capacity { capacity self.new ≡ capacity self.old };

    /// The quarter's entry, or none.
    fn look(&self, quarter: u64) -> Option<Entry>
        ensures { result ≡ pairs self.now quarter };

    /// Puts the pair in place of any older one for its quarter; every other pair remains. Refuses a quarter at or
    /// beyond the reach with QUARTER, then with FULL if the quarter has no pair and the count equals the capacity.
    /// A refusal leaves the store exactly as it was.
    // A quarter and its entry are told as two here and in the book's calls: a slip that pairs them is one store's own.
    fn put(&mut self, quarter: u64, entry: Entry) -> Result<(), PutRefusal>
        ensures answer { refusal_in result ≡ put_refusal (reach self.old) (capacity self.old) (pairs self.old) quarter }
        ensures after { MatchResult result (λ _. pairs self.new ≡ updated (pairs self.old) quarter entry) (λ _. self.new ≡ self.old) }
        ensures reach { reach self.new ≡ reach self.old }
        ensures capacity { capacity self.new ≡ capacity self.old };

    /// How many pairs stand.
    fn count(&self) -> u64
        ensures { result ≡ tally (pairs self.now) (reach self.now) };

    /// Below which number a quarter can have a pair.
    fn reach(&self) -> u64
        ensures { result ≡ reach self.now };

    /// How many pairs can stand at once.
    fn capacity(&self) -> u64
        ensures { result ≡ capacity self.now };

    // No pair stands at or beyond the reach.
    ghost beyond: { (s : Self) (quarter : ℕ) → reach s ≤ quarter → pairs s quarter ≡ None };

    // No more pairs stand than the capacity.
    ghost fitting: { (s : Self) → tally (pairs s) (reach s) ≤ capacity s };
}
