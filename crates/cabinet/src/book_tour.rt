//! The book over both makes of store: a year of visits with nested meters, gaps and late corrections, and the edges of the year, the sums and the stores.
use crate::told::print_answer;
use anyhow::anyhow;
use book::book::Book;
use book::refusal::Refusal;
use book::sources::Sources;
use entries::entry::Entry;
use entries::readings::Readings;
use meters::change::{Change, ChangeList};
use meters::interval::{IntervalMeter, IntervalRow};
use meters::register::{RegisterMeter, RegisterRow};
use meters::sum::SumMeter;
use meters::transformer::Transformer;
use std::alloc::{AllocError, Global};
use std::{fmt, io};
use stores::slip_box::SlipBox;
use stores::store::Store;
use stores::year_table::YearTable;
use visits::visits::{Visit, attend_all};

/// Two meters behind a transformer, at storage and charge point.
type Pair = Transformer<SumMeter<IntervalMeter, RegisterMeter>>;

/// The series of a site with a meter for the storage alone.
#[derive(Drop)]
struct Site {
    values: ChangeList,
    grid: IntervalMeter,
    pair: Pair,
    storage: RegisterMeter,
}

/// A visit to the book of that site.
type SiteVisit<'a> = Visit<'a, ChangeList, IntervalMeter, Pair, RegisterMeter>;

impl Site {
    /// A visit that enters what the series of the site have at a quarter.
    fn fetch(&self, quarter: u64) -> SiteVisit<'_> {
        let sources = Sources {
            values: &self.values,
            first: &self.grid,
            second: &self.pair,
            third: &self.storage,
        };
        Visit::Fetch(quarter, sources)
    }
}

fn row(taken: u64, given: u64, mark: u8) -> IntervalRow {
    IntervalRow { taken, given, mark }
}

/// Import 30,000 in quarter 0, feed-in 60,000 in quarter 1 and 10,000 in quarter 2; quarter 3 was lost.
fn make_grid(heap: Global) -> Result<IntervalMeter, AllocError> {
    let rows = vec![in heap;
        row(30_000, 0, 1),
        row(0, 60_000, 1),
        row(0, 10_000, 1),
        row(0, 0, 0),
        row(5, 0, 1),
    ]?;
    Ok(IntervalMeter { rows })
}

/// Half of the energy by an interval meter, half by a register, a tenth of it each before the transformer; the register falls in quarter 4.
fn make_pair(heap: Global) -> Result<Pair, AllocError> {
    let rows = vec![in heap;
        row(2_500, 0, 1),
        row(0, 2_000, 1),
        row(0, 250, 1),
        row(0, 0, 1),
        row(0, 0, 1),
    ]?;
    let first = IntervalMeter { rows };
    let mut rows = Vec::new(heap);
    for (taken, given) in [
        (100, 0),
        (2_600, 0),
        (2_600, 2_000),
        (2_600, 2_250),
        (2_600, 2_250),
        (0, 2_250),
    ] {
        rows.push(RegisterRow { taken, given })?;
    }
    let second = RegisterMeter { rows };
    Ok(Transformer {
        meter: SumMeter { first, second },
        factor: 10,
    })
}

/// The storage drew 40,000 and gave 36,000.
fn make_storage(heap: Global) -> Result<RegisterMeter, AllocError> {
    let mut rows = Vec::new(heap);
    for (taken, given) in [(0, 0), (40_000, 0), (40_000, 32_000), (40_000, 36_000)] {
        rows.push(RegisterRow { taken, given })?;
    }
    Ok(RegisterMeter { rows })
}

/// A value from quarter 0 on, and a zero-time from quarter 2 on.
fn make_site(heap: Global) -> Result<Site, AllocError> {
    let rows = vec![in heap;
        Change {
            quarter: 0,
            value: 700
        },
        Change {
            quarter: 2,
            value: 0
        },
    ]?;
    Ok(Site {
        values: ChangeList { rows },
        grid: make_grid(heap)?,
        pair: make_pair(heap)?,
        storage: make_storage(heap)?,
    })
}

/// An entry with import, feed-in, drawn and given energy, at a value.
pub(crate) fn entry(import: u64, feed_in: u64, drawn: u64, given: u64, value: u64) -> Entry {
    Entry {
        readings: Readings {
            import,
            feed_in,
            drawn,
            given,
            ..Readings::default()
        },
        value,
    }
}

/// Before a year begins, the begins that are refused, and a year in case 4 with its gaps.
fn plan_start<'a>(visits: &mut Vec<SiteVisit<'a>>, site: &'a Site) -> Result<(), AllocError> {
    visits.push(Visit::Post(0, entry(1, 0, 0, 0, 700)))?;
    visits.push(Visit::Draw)?;
    visits.push(Visit::Begin(5, 2026))?;
    visits.push(Visit::Begin(4, 2024))?;
    visits.push(Visit::Begin(4, 2026))?;
    for quarter in 0..6 {
        visits.push(site.fetch(quarter))?;
    }
    visits.push(site.fetch(35_040))?;
    visits.push(Visit::Draw)?;
    Ok(())
}

/// Late corrections, and what is refused on the way.
fn plan_corrections<'a>(visits: &mut Vec<SiteVisit<'a>>, site: &'a Site) -> Result<(), AllocError> {
    visits.push(site.fetch(1))?;
    visits.push(Visit::Post(3, entry(0, 1_000_001, 0, 0, 700)))?;
    visits.push(Visit::Post(3, entry(0, 0, 0, 0, 100_001)))?;
    visits.push(Visit::Amend(3, entry(7, 0, 7, 0, 700)))?;
    visits.push(Visit::Post(3, entry(7, 0, 7, 0, 700)))?;
    visits.push(Visit::Amend(3, entry(9, 0, 7, 0, 700)))?;
    visits.push(Visit::Post(35_039, entry(0, 4, 0, 0, 0)))?;
    visits.push(Visit::Post(35_040, entry(0, 4, 0, 0, 0)))?;
    visits.push(Visit::Draw)?;
    Ok(())
}

/// A leap year in case 1, where the storage has no meter of its own.
fn plan_leap_year<'a>(visits: &mut Vec<SiteVisit<'a>>, site: &'a Site) -> Result<(), AllocError> {
    visits.push(Visit::Begin(1, 2028))?;
    visits.push(site.fetch(0))?;
    visits.push(Visit::Post(35_135, entry(0, 3, 0, 0, 700)))?;
    visits.push(Visit::Post(35_136, entry(0, 3, 0, 0, 700)))?;
    visits.push(Visit::Amend(0, entry(100, 0, 100, 0, 700)))?;
    visits.push(Visit::Draw)?;
    Ok(())
}

fn plan_all(heap: Global, site: &Site) -> Result<Vec<SiteVisit<'_>>, AllocError> {
    let mut visits = Vec::new(heap);
    plan_start(&mut visits, site)?;
    plan_corrections(&mut visits, site)?;
    plan_leap_year(&mut visits, site)?;
    Ok(visits)
}

/// What a visit asks.
#[derive(Clone, Copy)]
struct Asked<'a>(&'a SiteVisit<'a>);

impl fmt::Display for Asked<'_> {
    fn fmt<W: fmt::Write>(&self, f: &mut fmt::Formatter<W>) -> fmt::Result {
        match self.0 {
            Visit::Begin(case, year) => write!(f, "begin {case} {year}"),
            Visit::Post(quarter, _) => write!(f, "post {quarter}"),
            Visit::Amend(quarter, _) => write!(f, "amend {quarter}"),
            Visit::Fetch(quarter, _) => write!(f, "fetch {quarter}"),
            Visit::Draw => write!(f, "draw"),
        }
    }
}

/// Attends the visits with a book over the store, and prints every answer.
fn visit_all<S: Store + Drop>(
    rt: &HostRuntime,
    store: S,
    visits: &[SiteVisit<'_>],
) -> anyhow::Result<usize> {
    let Ok(attended) = attend_all(rt.alloc(), store, visits) else {
        return Err(anyhow!("no memory for the answers"));
    };
    for (visit, answer) in visits.iter().zip(attended.answers.iter()) {
        print_answer(rt, Asked(visit), answer)?;
    }
    Ok(attended.answers.len())
}

/// Posts 3,000 quarters of 1,000,000 Wh import each, and then 1 Wh more.
fn sum_limit(rt: &HostRuntime) -> anyhow::Result<()> {
    let mut book = Book::new(YearTable::new(rt.alloc(), 35_136)?);
    let _ = book.begin(1, 2026);
    let mut accepted = 0u64;
    for quarter in 0..3_000 {
        if book.post(quarter, entry(1_000_000, 0, 0, 0, 700)).is_ok() {
            accepted = accepted.saturating_add(1);
        }
    }
    println!(rt; "{accepted} entries of 1000000 Wh import accepted")?;
    print_call(rt, "one Wh more", book.post(3_000, entry(1, 0, 0, 0, 700)))?;
    print_call(
        rt,
        "one Wh for one that stands",
        book.amend(2_999, entry(1, 0, 0, 0, 700)),
    )?;
    print_call(rt, "one Wh more", book.post(3_000, entry(1, 0, 0, 0, 700)))?;
    Ok(())
}

/// Prints what a call that draws nothing was answered.
fn print_call(rt: &HostRuntime, what: &str, answer: Result<(), Refusal>) -> io::Result<()> {
    print_answer(rt, what, &answer.map(|()| None))
}

/// A store that does not reach over the year, and one that fills up.
fn store_limits(rt: &HostRuntime) -> anyhow::Result<()> {
    let mut book = Book::new(YearTable::new(rt.alloc(), 35_039)?);
    print_call(rt, "35039 places, begin 1 2026", book.begin(1, 2026))?;
    let mut book = Book::new(SlipBox::new(rt.alloc(), 1)?);
    print_call(rt, "1 slip, begin 1 2026", book.begin(1, 2026))?;
    print_call(rt, "1 slip, post 7", book.post(7, entry(1, 0, 0, 0, 700)))?;
    print_call(rt, "1 slip, post 8", book.post(8, entry(1, 0, 0, 0, 700)))?;
    print_call(rt, "1 slip, amend 7", book.amend(7, entry(2, 0, 0, 0, 700)))?;
    Ok(())
}

/// The whole tour.
pub(crate) fn run(rt: &HostRuntime) -> anyhow::Result<()> {
    let site = make_site(rt.alloc())?;
    let visits = plan_all(rt.alloc(), &site)?;
    println!(rt; "a year of visits over a year table")?;
    let table = visit_all(rt, YearTable::new(rt.alloc(), 35_136)?, &visits)?;
    println!(rt; "the same visits over a slip box of 4")?;
    let slips = visit_all(rt, SlipBox::new(rt.alloc(), 4)?, &visits)?;
    sum_limit(rt)?;
    store_limits(rt)?;
    println!(rt;
        "book: {table} visits over a year table and {slips} over a slip box answered, the limits of sums and stores told"
    )?;
    Ok(())
}
