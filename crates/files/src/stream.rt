//! The answer to an input, into a writer; and to all that a reader has.
ghost use Rattle.std.specs.Prelude.{◌≡◌, List, ℕ, Some, IfOk, OnOk};
ghost use Rattle.std.specs.Io.KnownBytes.{Appends, IsAtEnd};
ghost use Rattle.book.specs.Sheet.{blank};
ghost use Rattle.files.specs.Endings.{ending, output_text, is_refused};

use crate::split::split_text;
use std::alloc::Global;
use std::io;
use std::io::{Read, Write};
use stores::store::Store;

/// Answers an input with a new book over the store, writes the text, and tells whether it is that of a refusal.
pub fn write_answer<S: Store + Drop, W: Write>(
    store: S,
    input: &[u8],
    writer: &mut W,
) -> io::Result<bool>
    ensures { IfOk result (λ refused. Appends (W.contents writer.old) (W.contents writer.new) (output_text (ending (blank (S.Store.reach store) (S.Store.capacity store)) input.now)) × (refused ≡ is_refused (ending (blank (S.Store.reach store) (S.Store.capacity store)) input.now))) }
{
    let answer = split_text(store, input);
    let refused = answer.is_err();
    let text = answer.unwrap_or_else(|text| text);
    writer.write_all(text.as_str().as_bytes())?;
    Ok(refused)
}

/// Reads an input to its end, answers it with a new book over the store, writes the text, and tells whether it is that of a refusal. For a store that is
/// there already: one that is made once the input is read goes to `write_answer`.
pub fn split_stream<S: Store + Drop, R: Read, W: Write>(
    heap: Global,
    store: S,
    reader: &mut R,
    writer: &mut W,
) -> io::Result<bool>
    ensures answer { IfOk result (λ refused. (input : List ℕ) → R.remaining reader.old ≡ Some input → Appends (W.contents writer.old) (W.contents writer.new) (output_text (ending (blank (S.Store.reach store) (S.Store.capacity store)) input)) × (refused ≡ is_refused (ending (blank (S.Store.reach store) (S.Store.capacity store)) input))) }
    ensures end { OnOk result (IsAtEnd (R.remaining reader.new)) }
{
    let mut input = Vec::new(heap);
    let _ = reader.read_to_end(&mut input)?;
    write_answer(store, &input, writer)
}
