//! From an input to the text that answers it.
ghost use Rattle.std.specs.Prelude.{◌≡◌, ◌+◌, ◌^◌, ◌<◌, length, is_err};
ghost use Rattle.lines.specs.Columns.{names};
ghost use Rattle.lines.specs.Text.{lines};
ghost use Rattle.statements.specs.declared.statement.Statement.{Statement};
ghost use Rattle.book.specs.Sheet.{blank};
ghost use Rattle.book.specs.Books.{sheet_of};
ghost use Rattle.files.specs.Endings.{rows_end, names_end, begin_end, ending, stated, output_text, is_refused, told};
ghost use Rattle.files.specs.Laws.{Accepted, EndsLawfully};
ghost use Rattle.files.specs.Stops.{Ends, Enters, stop_end};

use crate::stop::{Stop, at_line, lacking};
use book::book::Book;
use lines::columns::Columns;
use lines::names::read_columns;
use lines::rows::read_entry;
use lines::text::{Lines, next_line, read_heading};
use lines::values::read_pair;
use statements::text::Text;
use stores::store::Store;

// Enters the line of values that comes after so many lines.
fn enter_row<S: Store>(
    book: &mut Book<S>,
    columns: &Columns,
    before: u64,
    row: &[u8],
) -> Result<(), Stop>
    requires { before + 1 < 2 ^ 64 }
    ensures { Enters S.Store (names columns.now) (sheet_of S.Store book.old) before row.now result book.new }
{
    let line = before + 1;
    let (quarter, entry) = at_line(line, read_entry(columns, row))?;
    at_line(line, book.post(quarter, entry))
}

// Enters the lines of values, which come after the first three lines.
#[tactic(auto, unfolding(crate::specs::Endings::rows_end))]
fn enter_rows<S: Store>(book: &mut Book<S>, columns: &Columns, text: &[u8]) -> Result<(), Stop>
    ensures { Ends S.Store (rows_end (names columns.now) (sheet_of S.Store book.old) 3 (lines text.now)) result book.new }
{
    for (i, row) in Lines::of(text).enumerate() {
        enter_row(book, columns, 3 + i as u64, row)?;
    }
    Ok(())
}

// Reads the names of the columns, and enters what follows them.
fn enter_named<S: Store>(book: &mut Book<S>, text: &[u8]) -> Result<(), Stop>
    ensures { Ends S.Store (names_end (sheet_of S.Store book.old) (lines text.now)) result book.new }
{
    let Some((line, rest)) = next_line(text) else {
        return Err(lacking(3));
    };
    let columns = at_line(3, read_columns(line))?;
    enter_rows(book, &columns, rest)
}

// Begins the year of the second line, and enters what follows it.
fn enter_year<S: Store>(book: &mut Book<S>, text: &[u8]) -> Result<(), Stop>
    ensures { Ends S.Store (begin_end (sheet_of S.Store book.old) (lines text.now)) result book.new }
{
    let Some((line, rest)) = next_line(text) else {
        return Err(lacking(2));
    };
    let (case, year) = at_line(2, read_pair(line))?;
    at_line(2, book.begin(case, year))?;
    enter_named(book, rest)
}

// Enters a whole input.
fn enter_input<S: Store>(book: &mut Book<S>, input: &[u8]) -> Result<(), Stop>
    ensures { Ends S.Store (ending (sheet_of S.Store book.old) input.now) result book.new }
{
    let Some((line, rest)) = next_line(input) else {
        return Err(lacking(1));
    };
    at_line(1, read_heading(line))?;
    enter_year(book, rest)
}

/// Answers an input with a new book over the store: the input's lines are entered one after the other, and the answer is the text of the statement, or, as an
/// error, that of the first refusal: both are a text to be written. The statement comes just where every line is accepted; the first refusal ends the input.
pub fn split_text<S: Store + Drop>(store: S, input: &[u8]) -> Result<Text, Text>
    ensures text { told result ≡ output_text (ending (blank (S.Store.reach store) (S.Store.capacity store)) input.now) }
    ensures kind { is_err result ≡ is_refused (ending (blank (S.Store.reach store) (S.Store.capacity store)) input.now) }
    ensures lawful { EndsLawfully (blank (S.Store.reach store) (S.Store.capacity store)) (lines input.now) (ending (blank (S.Store.reach store) (S.Store.capacity store)) input.now) }
    ensures only { (d : Statement) → Accepted (blank (S.Store.reach store) (S.Store.capacity store)) (lines input.now) d → ending (blank (S.Store.reach store) (S.Store.capacity store)) input.now ≡ stated d }
{
    let mut book = Book::new(store);
    match enter_input(&mut book, input) {
        Ok(()) => Ok(book.draw().text()),
        Err(stop) => Err(stop.note().text()),
    }
}
