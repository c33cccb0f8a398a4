//! The quarter and the entry that a line of values spells.
ghost use Rattle.std.specs.Prelude.{◌≡◌, ℕ, Ok};
ghost use Rattle.lines.specs.Columns.{names};
ghost use Rattle.lines.specs.Entries.{with_amount, spelt, Spells, Tells};

use crate::column::Column;
use crate::columns::Columns;
use crate::misread::Misread;
use crate::values::Values;
use entries::entry::Entry;
use entries::readings::Mark;

// Puts a value into a column of a quarter and its entry.
fn put(row: &mut (u64, Entry), column: Column, value: u64)
    ensures { row.new ≡ with_amount column value row.old }
{
    let (quarter, entry) = row;
    let readings = &mut entry.readings;
    match column {
        Column::Quarter => *quarter = value,
        Column::Value => entry.value = value,
        Column::Reading(Mark::Import) => readings.import = value,
        Column::Reading(Mark::FeedIn) => readings.feed_in = value,
        Column::Reading(Mark::Drawn) => readings.drawn = value,
        Column::Reading(Mark::Given) => readings.given = value,
        Column::Reading(Mark::StorageDrawn) => readings.storage_drawn = value,
        Column::Reading(Mark::StorageGiven) => readings.storage_given = value,
    }
}

/// Reads a line of values: the quarter and the entry that it spells in the columns of its file.
#[tactic(auto, using(crate::proofs::Spelling::row_stops), unfolding(crate::specs::Entries::spelt))]
pub fn read_entry(columns: &Columns, line: &[u8]) -> Result<(u64, Entry), Misread>
    ensures exact { result ≡ spelt (names columns.now) line.now }
    ensures spells { Tells (names columns.now) line.now result }
    ensures only { (q : ℕ) (e : Entry) → Spells (names columns.now) line.now q e → result ≡ Ok (q, e) }
{
    let mut values = Values::of(line)?;
    let mut row = (0, Entry::default());
    for column in columns.as_slice() {
        put(&mut row, *column, values.read()?);
    }
    values.end()?;
    Ok(row)
}
