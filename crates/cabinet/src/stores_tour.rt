//! Stores of both makes, led through one tour.
ghost use Rattle.std.specs.Prelude.{◌≡◌, ℕ, ◌<◌, true, is_some, None};
ghost use Rattle.stores.specs.Puts.{refusal_in, put_refusal};

use entries::entry::Entry;
use entries::quarters::COMMON_QUARTERS;
use entries::readings::Readings;
use std::ops::AddAssign;
use std::{fmt, io};
use stores::any_store::{covers, spare, stands};
use stores::slip_box::SlipBox;
use stores::store::{PutRefusal, Store};
use stores::year_table::YearTable;

/// A store with room for more pairs than this is filled without telling each put.
const FEW: u64 = 8;

/// The answer to a put as it is told.
#[derive(Clone, Copy)]
struct Told(Result<(), PutRefusal>);

impl fmt::Display for Told {
    fn fmt<W: fmt::Write>(&self, f: &mut fmt::Formatter<W>) -> fmt::Result {
        match self.0 {
            Ok(()) => f.write_str("accepted"),
            Err(refusal) => write!(f, "{refusal}"),
        }
    }
}

/// What a tour saw: how many puts were accepted and refused, and how many looks after them agreed and disagreed.
#[derive(Clone, Copy, Default)]
struct Seen {
    accepted: u64,
    refused: u64,
    agreed: u64,
    disagreed: u64,
}

impl Seen {
    // What is seen of one put that was answered so.
    fn of(answer: Result<(), PutRefusal>, agreed: bool) -> Seen {
        Seen {
            accepted: u64::from(answer.is_ok()),
            refused: u64::from(answer.is_err()),
            agreed: u64::from(agreed),
            disagreed: u64::from(!agreed),
        }
    }
}

impl AddAssign for Seen {
    fn add_assign(&mut self, more: Seen) {
        self.accepted = self.accepted.saturating_add(more.accepted);
        self.refused = self.refused.saturating_add(more.refused);
        self.agreed = self.agreed.saturating_add(more.agreed);
        self.disagreed = self.disagreed.saturating_add(more.disagreed);
    }
}

/// Leads year tables and slip boxes of several sizes through the tour, and tells what was completed.
pub(crate) fn run(rt: &HostRuntime) -> io::Result<()> {
    let heap = rt.alloc();
    let mut seen = tour(rt, "year table of 4", YearTable::new(heap, 4)?)?;
    seen += tour(rt, "year table of 0", YearTable::new(heap, 0)?)?;
    seen += tour(rt, "year table of 35136", YearTable::new(heap, 40_000)?)?;
    seen += tour(rt, "slip box of 3", SlipBox::new(heap, 3)?)?;
    seen += tour(rt, "slip box of 0", SlipBox::new(heap, 0)?)?;
    let Seen {
        accepted,
        refused,
        agreed,
        disagreed,
    } = seen;
    println!(rt;
        "stores: 5 tours completed: {accepted} puts accepted, {refused} refused; {agreed} looks agreed, {disagreed} disagreed"
    )
}

// Handle, name and store go to each step as three: a struct of them would own the store, and give it back at the end.
// The tour of any store: fills it, replaces, overfills, asks beyond the reach, clears, and fills it again.
fn tour<S: Store + Drop>(rt: &HostRuntime, name: &str, mut store: S) -> io::Result<Seen> {
    describe(rt, name, &store)?;
    let mut seen = fill(rt, name, &mut store, false)?;
    describe(rt, name, &store)?;
    seen += put(rt, name, &mut store, 0, 2)?;
    let unused = first_free(&store);
    seen += put(rt, name, &mut store, unused, 2)?;
    let reach = store.reach();
    seen += put(rt, name, &mut store, reach, 2)?;
    seen += put(rt, name, &mut store, u64::MAX, 2)?;
    store.clear();
    println!(rt; "{name}: cleared")?;
    describe(rt, name, &store)?;
    seen += fill(rt, name, &mut store, true)?;
    describe(rt, name, &store)?;
    Ok(seen)
}

// Tells what the store answers about itself.
fn describe<S: Store>(rt: &HostRuntime, name: &str, store: &S) -> io::Result<()> {
    let reach = store.reach();
    let capacity = store.capacity();
    let count = store.count();
    let spare = spare(store);
    let covers = if covers(store, COMMON_QUARTERS) {
        "covers a year"
    } else {
        "covers no year"
    };
    let first = if stands(store, 0) {
        "quarter 0 stands"
    } else {
        "quarter 0 is free"
    };
    println!(rt;
        "{name}: reach {reach} ({covers}), capacity {capacity}, count {count}, spare {spare}, {first}"
    )
}

// Fills the store with quarters that are spread over its reach: the first of each stretch, or the last.
fn fill<S: Store>(rt: &HostRuntime, name: &str, store: &mut S, last: bool) -> io::Result<Seen> {
    let capacity = store.capacity();
    let stretch = store.reach().checked_div(capacity).unwrap_or(0);
    let offset = if last { stretch.saturating_sub(1) } else { 0 };
    let mut seen = Seen::default();
    for i in 0..capacity {
        let quarter = i.wrapping_mul(stretch).wrapping_add(offset);
        seen += if capacity <= FEW {
            put(rt, name, store, quarter, 1)?
        } else {
            let (answer, agreed) = put_and_look(store, quarter, sample(quarter, 1));
            Seen::of(answer, agreed)
        };
    }
    let Seen {
        accepted,
        refused,
        ..
    } = seen;
    println!(rt; "{name}: filled: {accepted} accepted, {refused} refused")?;
    Ok(seen)
}

// Puts the quarter's entry of this round, and tells the answer.
fn put<S: Store>(
    rt: &HostRuntime,
    name: &str,
    store: &mut S,
    quarter: u64,
    round: u64,
) -> io::Result<Seen> {
    let (answer, agreed) = put_and_look(store, quarter, sample(quarter, round));
    let told = Told(answer);
    let look = if agreed {
        "look agrees"
    } else {
        "look DISAGREES"
    };
    println!(rt; "{name}: put {quarter}: {told}, {look}")?;
    Ok(Seen::of(answer, agreed))
}

// Puts the entry. The second answer is whether a look then finds it, or after a refusal what stood there before:
// that it does is proved, so that a disagreement that is told is a fault of the machine.
fn put_and_look<S: Store>(
    store: &mut S,
    quarter: u64,
    entry: Entry,
) -> (Result<(), PutRefusal>, bool)
    ensures answer { refusal_in result.0 ≡ put_refusal (S.reach store.old) (S.capacity store.old) (S.pairs store.old) quarter }
    ensures agreed { result.1 ≡ true }
{
    let before = store.look(quarter);
    let answer = store.put(quarter, entry);
    let wanted = match answer {
        Ok(()) => Some(entry),
        Err(_) => before,
    };
    (answer, store.look(quarter) == wanted)
}

// The lowest quarter without a pair.
fn first_free<S: Store>(store: &S) -> u64
    ensures free { S.pairs store.now result ≡ None }
    ensures first { (k : ℕ) → k < result → is_some (S.pairs store.now k) ≡ true }
{
    let reach = store.reach();
    (0..reach)
        .find(|quarter| !stands(store, *quarter))
        .unwrap_or(reach)
}

// An entry that tells its quarter, and the round in which it was put.
fn sample(quarter: u64, round: u64) -> Entry {
    Entry {
        readings: Readings {
            import: quarter,
            feed_in: round,
            drawn: 3,
            given: 4,
            storage_drawn: 5,
            storage_given: 6,
        },
        value: 700,
    }
}
