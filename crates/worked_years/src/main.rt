//! Works years that were worked by hand: from their entries through the sums to the figures, and compares.
#![tactic(auto)]

mod work;
mod years;

use anyhow::anyhow;
use statements::draft::Draft;
use statements::text::COLUMN_NAMES;
use work::{all_fit, import_is_even, sum_up};
use years::{WorkedYear, worked_years};

/// The calendar year that the worked years are printed under.
const YEAR: u64 = 2026;

/// How the years went.
#[derive(Clone, Copy, Default)]
struct Tally {
    worked: u64,
    fit: u64,
    agree: u64,
}

/// Works one year, prints its line, and counts how it went.
fn work_year(rt: &HostRuntime, year: &WorkedYear, tally: Tally) -> anyhow::Result<Tally> {
    let sums = sum_up(&year.postings).map_err(|_| anyhow!("a sum would pass its limit"))?;
    let entries = year.postings.len() as u64;
    let statement = Draft::draw_up(year.case, YEAR, entries, &sums).statement();
    println!(rt; "{statement}")?;
    let fits = all_fit(year.case, &year.postings);
    let even = import_is_even(statement.import, statement.figures);
    let agrees = statement.figures == year.expected && even == year.import_even;
    Ok(Tally {
        worked: tally.worked.saturating_add(1),
        fit: tally.fit.saturating_add(u64::from(fits)),
        agree: tally.agree.saturating_add(u64::from(agrees)),
    })
}

fn main(rt: HostRuntime) -> anyhow::Result<()> {
    let mut tally = Tally::default();
    println!(rt; "{COLUMN_NAMES}")?;
    for year in &worked_years(rt.alloc())? {
        tally = work_year(&rt, year, tally)?;
    }
    let Tally { worked, fit, agree } = tally;
    println!(rt;
        "{worked} years worked, {fit} with every entry within its limits, {agree} agree with the figures worked by hand"
    )?;
    Ok(())
}
