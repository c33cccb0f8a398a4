//! Splits the feed-in and the import of a year: the figures from the sums.
ghost use Rattle.std.specs.Prelude.{◌≡◌, ◌+◌, ◌≤◌, pos, ◌-ℤ◌};
ghost use Rattle.entries.specs.Pairs.{Pairs};
ghost use Rattle.sums.specs.Year.{totals as year_totals};
ghost use Rattle.sums.specs.Sums.{sum_limit};
ghost use Rattle.figures.specs.Figures.{foreign_energy, total_draw, or_nothing, loss_of, figures_of, year_figures};
ghost use Rattle.figures.specs.Laws.{FeedInAddsUp, ImportAddsUp};

use crate::figures::Figures;
use crate::share::{Share, divide};
use entries::case::Case;
use sums::sums::Sums;

// What storage and charge point gave beyond all that they drew.
fn foreign_energy_of(sums: &Sums) -> u64
    ensures { result ≡ foreign_energy sums.now.totals }
{
    let r = sums.totals().readings;
    r.given.saturating_sub(r.drawn)
}

// All that storage and charge point drew, and the foreign energy that they gave beyond it.
#[tactic(auto, unfolding(crate::specs::Figures::total_draw))]
fn total_draw_of(sums: &Sums) -> u64
    ensures value { result ≡ total_draw sums.now.totals }
    ensures limit { result ≤ sum_limit }
{
    sums.totals().readings.drawn + foreign_energy_of(sums)
}

// The grid's share of what the storage lost: of what it drew less what it gave.
#[tactic(auto, unfolding(crate::specs::Figures::total_draw))]
fn loss_in(case: Case, sums: &Sums) -> i64
    ensures { result ≡ loss_of case sums.now.totals }
{
    let t = sums.totals();
    let (drawn, given) = match case {
        Case::Storage => (t.readings.drawn, t.readings.given),
        Case::ChargePoint | Case::Both => return 0,
        Case::BothMetered => (t.readings.storage_drawn, t.readings.storage_given),
    };
    let lost = Share::new(t.grid_draw, drawn.abs_diff(given), total_draw_of(sums));
    let loss = lost.quotient() as i64;
    if drawn < given { -loss } else { loss }
}

// What is left of the import, or 0 where less than nothing is.
fn left_of(import: u64, nettable: u64, loss: i64) -> u64
    requires { import ≤ sum_limit }
    ensures { result ≡ or_nothing (pos import -ℤ pos nettable -ℤ loss) }
{
    let rest = i128::from(import) - i128::from(nettable) - i128::from(loss);
    u64::try_from(rest).unwrap_or(0)
}

/// The figures of a year from its sums. They add up: all of the metered feed-in is in seven of them, with at most 3 Wh loose, and, where the storage has no
/// meter of its own, all of the metered import is levied, nettable or lost.
#[tactic(auto, using(crate::proofs::Laws::feed_in_is, crate::proofs::Laws::loose_most, crate::proofs::Laws::import_adds_up), unfolding(crate::specs::Figures::figures_of, crate::specs::Figures::total_draw))]
pub fn figures(case: Case, sums: &Sums) -> Figures
    ensures value { result ≡ figures_of case sums.now.totals }
    ensures year { (p : Pairs) → sums.now.totals ≡ year_totals p → result ≡ year_figures case p }
    ensures feed_in_adds_up { FeedInAddsUp sums.now.totals.readings.feed_in result }
    ensures import_adds_up { ImportAddsUp case sums.now.totals.readings.import result }
{
    let t = sums.totals();
    let whole = total_draw_of(sums);
    let nettable = Share::new(t.grid_draw, t.stored_feed_in, whole);
    let fund_stored = Share::new(t.plant_draw, t.paid_stored, whole);
    let zero_stored = Share::new(t.plant_draw, t.zero_stored, whole);
    let foreign = Share::new(foreign_energy_of(sums), t.stored_feed_in, whole);
    let rests = nettable.remainder()
        + fund_stored.remainder()
        + zero_stored.remainder()
        + foreign.remainder();
    let loss = loss_in(case, sums);
    Figures {
        nettable: nettable.quotient(),
        loss,
        levied: left_of(t.readings.import, nettable.quotient(), loss),
        fund_direct: t.paid_direct,
        fund_stored: fund_stored.quotient(),
        fund_all: t.paid_direct + fund_stored.quotient(),
        zero_direct: t.zero_direct,
        zero_stored: zero_stored.quotient(),
        foreign: foreign.quotient(),
        loose: divide(rests, whole),
    }
}
