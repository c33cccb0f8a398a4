//! The text of a statement: a line of names and a line of values; and that of a refusal.
ghost use Rattle.std.specs.Prelude.{◌≡◌, ℕ, List, ◌+◌, ◌≤◌, ◌∷◌, ◌++◌, map, length};
ghost use Rattle.std.specs.Fmt.{signed_decimal};
ghost use Rattle.arrayvec.specs.ArrayString.{array_string_len};
ghost use Rattle.statements.specs.Statements.{Sound, Filing};
ghost use Rattle.statements.specs.Printed.{column_values, values_after_case, filed_value, fields, separated, names_line, text as text_of, Prints};

use crate::refusal::Short;
use crate::statement::{PRINT_LENGTH, Statement};
use arrayvec::ArrayString;
use itoa::{Buffer, Integer};

/// A text that fits a print buffer.
pub type Text = ArrayString<PRINT_LENGTH>;

/// The names of a statement's columns.
pub const COLUMN_NAMES: &str =
    "CASE;YEAR;N;IMPORT;FEEDIN;NETTABLE;LOSS;LEVIED;FUND_DIRECT;FUND_STORED;FUND_ALL;ZERO_DIRECT;ZERO_STORED;FOREIGN;LOOSE";

// The values of a statement after its case, in the order of their columns.
fn values_of(s: Statement) -> [i128; 14]
    ensures { result ≡ values_after_case s }
{
    let r = s.figures;
    [
        i128::from(s.year),
        i128::from(s.entries),
        i128::from(s.import),
        i128::from(s.feed_in),
        i128::from(r.nettable),
        i128::from(r.loss),
        i128::from(r.levied),
        i128::from(r.fund_direct),
        i128::from(r.fund_stored),
        i128::from(r.fund_all),
        i128::from(r.zero_direct),
        i128::from(r.zero_stored),
        i128::from(r.foreign),
        i128::from(r.loose),
    ]
}

// Appends a number in decimal digits. Each of these asks for the room of just what it appends.
pub(crate) fn push_number<I: Integer>(text: &mut Text, n: I)
    requires { array_string_len text.old + length (I.text n) ≤ 400 }
    ensures { text.new.bytes ≡ text.old.bytes ++ I.text n }
{
    text.push_str(Buffer::new().format(n));
}

// Appends a number behind a semicolon.
pub(crate) fn push_field<I: Integer>(text: &mut Text, n: I)
    requires { array_string_len text.old + (1 + length (I.text n)) ≤ 400 }
    ensures { text.new.bytes ≡ text.old.bytes ++ (59 ∷ I.text n) }
{
    text.push_str(";");
    push_number(text, n);
}

// Appends values, each behind a semicolon.
fn push_fields(text: &mut Text, values: &[i128])
    requires { array_string_len text.old + length (fields (map signed_decimal values.now)) ≤ 400 }
    ensures { text.new.bytes ≡ text.old.bytes ++ fields (map signed_decimal values.now) }
{
    for value in values {
        push_field(text, *value);
    }
}

// Appends the values of a statement, separated by semicolons.
#[tactic(auto, using(crate::proofs::Fields::valuing))]
fn push_values(text: &mut Text, s: Statement)
    requires { array_string_len text.old + length (separated (map signed_decimal (column_values s))) ≤ 400 }
    ensures { text.new.bytes ≡ text.old.bytes ++ separated (map signed_decimal (column_values s)) }
{
    push_number(text, s.case.number());
    push_fields(text, &values_of(s));
}

/// The values of a statement, separated by semicolons.
pub(crate) fn values_text(s: Statement) -> Text
    ensures { result.bytes ≡ separated (map signed_decimal (column_values s)) }
{
    let mut text = Text::new();
    push_values(&mut text, s);
    text
}

// The line of names: a filed statement has one column more.
#[tactic(auto, unfolding(crate::specs::Printed::names_line))]
fn names_text(filed: Option<u64>) -> Text
    ensures { result.bytes ≡ names_line filed }
{
    let mut text = Text::new();
    text.push_str(COLUMN_NAMES);
    match filed {
        Some(_) => text.push_str(";FILED\n"),
        None => text.push_str("\n"),
    }
    text
}

// Appends the number that a statement is filed under, if it has one, behind a semicolon.
fn push_filed(text: &mut Text, filed: Option<u64>)
    requires { array_string_len text.old + length (fields (map signed_decimal (filed_value filed))) ≤ 400 }
    ensures { text.new.bytes ≡ text.old.bytes ++ fields (map signed_decimal (filed_value filed)) }
{
    if let Some(number) = filed {
        push_field(text, number);
    }
}

/// Both lines of a statement, with the number that it is filed under if it has one.
#[tactic(auto, using(crate::proofs::Lengths::joining))]
pub(crate) fn statement_text(s: Statement, filed: Option<u64>) -> Text
    requires sound { Sound s }
    requires filed { Filing filed }
    ensures { result.bytes ≡ text_of s filed }
{
    let mut text = names_text(filed);
    push_values(&mut text, s);
    push_filed(&mut text, filed);
    text.push_str("\n");
    text
}

/// Prints a text at the buffer's front, and answers its length. The text is made only where the buffer has room for any.
// Into the caller's buffer: the box's print may lack room, but never memory.
pub(crate) fn print_text<F: FnOnce() -> Text>(text: F, buffer: &mut [u8]) -> Result<usize, Short>
    requires { F.pre text }
    ensures { (bytes : List ℕ) → ((t : _) → F.post text t → t.bytes ≡ bytes) → Prints bytes buffer.old result buffer.new }
{
    if buffer.len() < PRINT_LENGTH {
        return Err(Short);
    }
    let text = text();
    let bytes = text.as_str().as_bytes();
    buffer[..bytes.len()].copy_from_slice(bytes);
    Ok(bytes.len())
}
