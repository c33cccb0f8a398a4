//! The sums over a year's entries, as plain numbers.
ghost use Rattle.std.specs.Prelude.{◌≡◌, ◌-◌, Decides};
ghost use Rattle.sums.specs.Sums.{Balanced, one, PartOf};

use entries::entry::Entry;
use entries::readings::Readings;

/// No reading's sum passes this, in Wh.
pub const SUM_LIMIT: u64 = 3_000_000_000;

/// Sums over entries, in Wh: of the six readings, and of what each quarter's readings say of where its energy came from and went.
#[derive(Clone, Copy, PartialEq, Eq, Default, Debug)]
pub struct Totals {
    /// The sum of each reading.
    pub readings: Readings,
    /// Drawn by storage and charge point out of the import.
    pub grid_draw: u64,
    /// Drawn by them from the plant.
    pub plant_draw: u64,
    /// Fed in by them.
    pub stored_feed_in: u64,
    /// Fed in straight from the plant, in quarters with a value above 0.
    pub paid_direct: u64,
    /// The same in zero-times.
    pub zero_direct: u64,
    /// The stored feed-in of quarters with a value above 0.
    pub paid_stored: u64,
    /// The same of zero-times.
    pub zero_stored: u64,
}

impl Totals {
    /// Whether `p` is part of these sums: what is left without it balances too.
    pub(crate) fn has_part(self, p: Totals) -> bool
        ensures { Decides result (PartOf p self) }
    {
        p.grid_draw <= self.grid_draw
            && p.plant_draw <= self.plant_draw
            && p.readings.storage_drawn <= self.readings.storage_drawn
            && p.readings.storage_given <= self.readings.storage_given
            && p.paid_direct <= self.paid_direct
            && p.zero_direct <= self.zero_direct
            && p.paid_stored <= self.paid_stored
            && p.zero_stored <= self.zero_stored
            && p.not_drawn() <= self.not_drawn()
            && p.not_fed_in() <= self.not_fed_in()
    }

    // The import that storage and charge point did not draw.
    fn not_drawn(self) -> u64
        ensures { result ≡ self.readings.import - self.grid_draw }
    {
        self.readings.import.saturating_sub(self.grid_draw)
    }

    // What storage and charge point gave that was not fed in.
    fn not_fed_in(self) -> u64
        ensures { result ≡ self.readings.given - self.stored_feed_in }
    {
        self.readings.given.saturating_sub(self.stored_feed_in)
    }
}

/// The sums of one entry: they balance, and keep no limit.
#[derive(Clone, Copy)]
pub(crate) struct Part {
    pub(crate) totals: Totals,
    ghost balanced: { Balanced totals },
}

impl Part {
    pub(crate) fn of(e: Entry) -> Part
        ensures { result.totals ≡ one e }
    {
        let grid_draw = e.readings.import.min(e.readings.drawn);
        let stored = e.readings.feed_in.min(e.readings.given);
        let direct = e.readings.feed_in - stored;
        let paid = 0 < e.value;
        Part {
            totals: Totals {
                readings: e.readings,
                grid_draw,
                plant_draw: e.readings.drawn - grid_draw,
                stored_feed_in: stored,
                paid_direct: if paid { direct } else { 0 },
                zero_direct: if paid { 0 } else { direct },
                paid_stored: if paid { stored } else { 0 },
                zero_stored: if paid { 0 } else { stored },
            },
        }
    }
}
