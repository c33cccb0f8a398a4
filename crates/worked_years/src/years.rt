//! Years worked by hand: their entries, and the figures that they must have.
ghost use Rattle.std.specs.Prelude.{◌≡◌, ℕ, IfOk, Some};
ghost use Rattle.std.specs.List.{slice_get};
ghost use Rattle.worked_years.specs.Postings.{posting};
ghost use Rattle.worked_years.specs.Years.{years as listed_years, IsListed, YearsRight, no_entry, direct_in_a_zero_time, grid_power_stored, grid_and_plant_stored, one_loose, three_loose, began_full, storage_metered_alone};

use entries::case::Case;
use entries::entry::Entry;
use entries::readings::Readings;
use figures::figures::Figures;
use std::alloc::{AllocError, Global};

/// An entry and the quarter at which it stands. A store's slip has the same shape, and is the store's own: a struct for both would show it to all.
#[derive(Clone, Copy)]
pub struct Posting {
    pub quarter: u64,
    pub entry: Entry,
}

impl Posting {
    fn new(quarter: u64, readings: Readings, value: u64) -> Posting
        ensures { result ≡ posting quarter readings value }
    {
        Posting {
            quarter,
            entry: Entry { readings, value },
        }
    }
}

/// A year worked by hand.
#[derive(Drop)]
pub struct WorkedYear {
    pub case: Case,
    pub postings: Vec<Posting>,
    pub expected: Figures,
    /// Whether the import of the year adds up.
    pub import_even: bool,
}

/// The applicable value in a paid quarter.
const PAID: u64 = 700;

/// The same in a zero-time.
const ZERO_TIME: u64 = 0;

/// The listed years, in their order. The figures of each, by the formulas over its entries, are those worked by hand.
#[tactic(auto, using(crate::proofs::ByHand::years_right))]
pub(crate) fn worked_years(heap: Global) -> Result<Vec<WorkedYear>, AllocError>
    ensures listed { IfOk result (λ ys. (k : ℕ) → IsListed (slice_get ys.items k) (slice_get listed_years k)) }
    ensures right { YearsRight }
{
    let years = vec![in heap;
        no_entry(heap)?,
        direct_in_a_zero_time(heap)?,
        grid_power_stored(heap)?,
        grid_and_plant_stored(heap)?,
        one_loose(heap)?,
        three_loose(heap)?,
        began_full(heap)?,
        storage_metered_alone(heap)?,
    ]?;
    Ok(years)
}

fn no_entry(heap: Global) -> Result<WorkedYear, AllocError>
    ensures { IfOk result (λ y. IsListed (Some y) (Some no_entry)) }
{
    Ok(WorkedYear {
        case: Case::Storage,
        postings: Vec::new(heap),
        expected: Figures::default(),
        import_even: true,
    })
}

fn direct_in_a_zero_time(heap: Global) -> Result<WorkedYear, AllocError>
    ensures { IfOk result (λ y. IsListed (Some y) (Some direct_in_a_zero_time)) }
{
    let fed_in = Readings {
        feed_in: 5_000,
        ..Readings::default()
    };
    Ok(WorkedYear {
        case: Case::Storage,
        postings: vec![in heap; Posting::new(0, fed_in, ZERO_TIME)]?,
        expected: Figures {
            zero_direct: 5_000,
            ..Figures::default()
        },
        import_even: true,
    })
}

fn grid_power_stored(heap: Global) -> Result<WorkedYear, AllocError>
    ensures { IfOk result (λ y. IsListed (Some y) (Some grid_power_stored)) }
{
    let charging = Readings {
        import: 130_000,
        drawn: 100_000,
        ..Readings::default()
    };
    let feeding = Readings {
        feed_in: 80_000,
        given: 100_000,
        ..Readings::default()
    };
    Ok(WorkedYear {
        case: Case::Storage,
        postings: vec![in heap;
            Posting::new(0, charging, PAID),
            Posting::new(1, feeding, PAID),
        ]?,
        expected: Figures {
            nettable: 80_000,
            levied: 50_000,
            ..Figures::default()
        },
        import_even: true,
    })
}

fn grid_and_plant_stored(heap: Global) -> Result<WorkedYear, AllocError>
    ensures { IfOk result (λ y. IsListed (Some y) (Some grid_and_plant_stored)) }
{
    let charging = Readings {
        import: 30_000,
        drawn: 50_000,
        ..Readings::default()
    };
    let feeding = Readings {
        feed_in: 60_000,
        given: 40_000,
        ..Readings::default()
    };
    let unpaid = Readings {
        feed_in: 10_000,
        given: 5_000,
        ..Readings::default()
    };
    Ok(WorkedYear {
        case: Case::Storage,
        postings: vec![in heap;
            Posting::new(0, charging, PAID),
            Posting::new(1, feeding, PAID),
            Posting::new(2, unpaid, ZERO_TIME),
        ]?,
        expected: Figures {
            nettable: 27_000,
            loss: 3_000,
            fund_direct: 20_000,
            fund_stored: 16_000,
            fund_all: 36_000,
            zero_direct: 5_000,
            zero_stored: 2_000,
            ..Figures::default()
        },
        import_even: true,
    })
}

fn one_loose(heap: Global) -> Result<WorkedYear, AllocError>
    ensures { IfOk result (λ y. IsListed (Some y) (Some one_loose)) }
{
    let charging = Readings {
        import: 1,
        drawn: 3,
        ..Readings::default()
    };
    let feeding = Readings {
        feed_in: 2,
        given: 2,
        ..Readings::default()
    };
    Ok(WorkedYear {
        case: Case::Storage,
        postings: vec![in heap;
            Posting::new(0, charging, PAID),
            Posting::new(1, feeding, PAID),
        ]?,
        expected: Figures {
            levied: 1,
            fund_stored: 1,
            fund_all: 1,
            loose: 1,
            ..Figures::default()
        },
        import_even: true,
    })
}

fn three_loose(heap: Global) -> Result<WorkedYear, AllocError>
    ensures { IfOk result (λ y. IsListed (Some y) (Some three_loose)) }
{
    let charging = Readings {
        import: 1,
        drawn: 4,
        ..Readings::default()
    };
    let feeding = Readings {
        feed_in: 3,
        given: 3,
        ..Readings::default()
    };
    let unpaid = Readings {
        feed_in: 1,
        given: 2,
        ..Readings::default()
    };
    Ok(WorkedYear {
        case: Case::ChargePoint,
        postings: vec![in heap;
            Posting::new(0, charging, PAID),
            Posting::new(1, feeding, PAID),
            Posting::new(2, unpaid, ZERO_TIME),
        ]?,
        expected: Figures {
            levied: 1,
            fund_stored: 1,
            fund_all: 1,
            loose: 3,
            ..Figures::default()
        },
        import_even: true,
    })
}

fn began_full(heap: Global) -> Result<WorkedYear, AllocError>
    ensures { IfOk result (λ y. IsListed (Some y) (Some began_full)) }
{
    let charging = Readings {
        import: 100,
        drawn: 100,
        ..Readings::default()
    };
    let giving = Readings {
        given: 150,
        ..Readings::default()
    };
    Ok(WorkedYear {
        case: Case::Storage,
        postings: vec![in heap;
            Posting::new(0, charging, PAID),
            Posting::new(1, giving, PAID),
        ]?,
        expected: Figures {
            loss: -33,
            levied: 133,
            ..Figures::default()
        },
        import_even: true,
    })
}

fn storage_metered_alone(heap: Global) -> Result<WorkedYear, AllocError>
    ensures { IfOk result (λ y. IsListed (Some y) (Some storage_metered_alone)) }
{
    let charging = Readings {
        import: 100,
        drawn: 100,
        storage_drawn: 100,
        ..Readings::default()
    };
    let feeding = Readings {
        feed_in: 100,
        given: 100,
        ..Readings::default()
    };
    Ok(WorkedYear {
        case: Case::BothMetered,
        postings: vec![in heap;
            Posting::new(0, charging, PAID),
            Posting::new(1, feeding, PAID),
        ]?,
        expected: Figures {
            nettable: 100,
            loss: 100,
            ..Figures::default()
        },
        import_even: false,
    })
}
