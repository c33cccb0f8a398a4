//! The line that names a file's columns.
ghost use Rattle.std.specs.Prelude.{◌≡◌, ℕ, ◌+◌, ◌<◌, true, List, [], ◌∷◌, length, Ok, Err, MatchResult};
ghost use Rattle.lines.specs.Names.{same_column, has, has_all, column_of, new_column, columns_from, columns_in, Names, Misnamed, Misnames};
ghost use Rattle.lines.specs.Columns.{names};

use crate::column::Column;
use crate::columns::Columns;
use crate::fields::Fields;
use crate::misread::Misread;
use entries::readings::Mark;

// The columns that every file has.
const NEEDED: [Column; 6] = [
    Column::Quarter,
    Column::Value,
    Column::Reading(Mark::Import),
    Column::Reading(Mark::FeedIn),
    Column::Reading(Mark::Drawn),
    Column::Reading(Mark::Given),
];

// The column of a reading, by what its name has after the Z.
fn reading_column(digit: u8, rest: &[u8]) -> Option<Column>
    ensures { result ≡ column_of (90 ∷ digit ∷ rest.now) }
{
    let mark = match (digit, rest) {
        (b'1', b"NB") => Mark::Import,
        (b'1', b"NE") => Mark::FeedIn,
        (b'2', b"V") => Mark::Drawn,
        (b'2', b"E") => Mark::Given,
        (b'3', b"V") => Mark::StorageDrawn,
        (b'3', b"E") => Mark::StorageGiven,
        _ => return None,
    };
    Some(Column::Reading(mark))
}

// The column with that name.
fn column_named(name: &[u8]) -> Option<Column>
    ensures { result ≡ column_of name.now }
{
    match name {
        b"Q" => Some(Column::Quarter),
        b"AW" => Some(Column::Value),
        [b'Z', digit, rest @ ..] => reading_column(*digit, rest),
        _ => None,
    }
}

// Whether two columns are the same.
fn same(column: Column, other: Column) -> bool
    ensures { result ≡ same_column column other }
{
    column == other
}

impl Columns {
    // No columns.
    fn none() -> Columns
        ensures { names result ≡ [] }
    {
        Columns {
            names: [Column::Quarter; 8],
            count: 0,
        }
    }

    // The columns, in their order.
    pub(crate) fn as_slice(&self) -> &[Column]
        ensures { result.now ≡ names self.now }
    {
        &self.names[..self.count]
    }

    // Whether a column is among these.
    fn has(&self, column: Column) -> bool
        ensures { result ≡ has column (names self.now) }
    {
        self.as_slice().iter().any(|other| same(*other, column))
    }

    // Whether each of some columns is among these.
    fn has_all(&self, columns: &[Column]) -> bool
        ensures { result ≡ has_all columns.now (names self.now) }
    {
        columns.iter().all(|column| self.has(*column))
    }

    // The column with that name, unless it is among these.
    fn new_column(&self, name: &[u8]) -> Option<Column>
        ensures { result ≡ new_column (names self.now) name.now }
    {
        column_named(name).filter(|column| !self.has(*column))
    }

    // What is told of a bad name after these.
    fn misnamed(&self) -> Misread
        ensures { result ≡ Misread.Name (length (names self.now) + 1) }
    {
        Misread::Name(self.count as u64 + 1)
    }

    // Adds the column with that name, which must not be among these.
    fn add(&mut self, name: &[u8]) -> Result<(), Misread>
        ensures { (fs : List (List ℕ)) → MatchResult result (λ _. columns_from (names self.old) (name.now ∷ fs) ≡ columns_from (names self.new) fs) (λ e. columns_from (names self.old) (name.now ∷ fs) ≡ Err e) }
    {
        let column = self.new_column(name).ok_or(self.misnamed())?;
        self.names[self.count] = column;
        self.count += 1;
        Ok(())
    }
}

/// Reads the line that names a file's columns.
#[tactic(auto, using(crate::proofs::Headed::names_told, crate::proofs::Headed::misnames_told, crate::proofs::Headed::names_only), unfolding(crate::specs::Names::columns_in))]
pub fn read_columns(line: &[u8]) -> Result<Columns, Misread>
    ensures exact { MatchResult result (λ cs. columns_in line.now ≡ Ok (names cs)) (λ e. columns_in line.now ≡ Err e) }
    ensures told { MatchResult result (λ cs. Names line.now (names cs)) (λ e. Misnames line.now e) }
    ensures only { (ns : List Column) → Names line.now ns → columns_in line.now ≡ Ok ns }
    ensures first { (k : ℕ) → Misnamed line.now k → columns_in line.now ≡ Err (Misread.Name k) }
    ensures long { 200 < length line.now → columns_in line.now ≡ Err (Misread.Field 0) }
{
    let mut columns = Columns::none();
    for name in Fields::of(line)? {
        columns.add(name)?;
    }
    if !columns.has_all(&NEEDED) {
        return Err(columns.misnamed());
    }
    Ok(columns)
}
