//! A year from its begin to a filed statement: the draft is confirmed by the grid operator's totals and filed under a number, with each refusal on the way.
use crate::book_tour::entry;
use anyhow::anyhow;
use book::book::Book;
use book::refusal::Refusal;
use statements::confirmed::Confirmed;
use statements::draft::Draft;
use statements::filed::Filed;
use statements::refusal::{BadFileNumber, Differs, Short};
use statements::statement::{PRINT_LENGTH, Statement};
use std::io;
use std::io::Write;
use stores::slip_box::SlipBox;
use stores::store::Store;

/// The number that the year's statement is filed under.
const FILE_NUMBER: u64 = 4_711;

/// Prints what a print answered: the text that stands at the buffer's front, or the refusal.
fn print_text(rt: &HostRuntime, buffer: &[u8], printed: Result<usize, Short>) -> io::Result<()> {
    match printed {
        Ok(length) => rt.stdout().write_all(buffer.get(..length).unwrap_or(&[])),
        Err(short) => println!(rt; "print: {short}"),
    }
}

/// A year in case 1 with every quarter entered.
fn entered<S: Store + Drop>(store: S) -> Result<Book<S>, Refusal> {
    let mut book = Book::new(store);
    book.begin(1, 2026)?;
    book.post(0, entry(100, 0, 100, 0, 700))?;
    book.post(1, entry(0, 60, 0, 90, 700))?;
    book.post(2, entry(0, 40, 0, 60, 0))?;
    Ok(book)
}

/// The draft that a refused confirmation gave back.
fn differing(rt: &HostRuntime, answer: Result<Confirmed, Differs>) -> anyhow::Result<Draft> {
    let Err(differs) = answer else {
        return Err(anyhow!("confirmed by totals that differ"));
    };
    println!(rt; "confirm: {differs}")?;
    Ok(differs.draft)
}

/// The confirmed statement that a refused filing gave back.
fn misnumbered(
    rt: &HostRuntime,
    answer: Result<Filed, BadFileNumber>,
) -> anyhow::Result<Confirmed> {
    let Err(refused) = answer else {
        return Err(anyhow!("filed under a number outside the limits"));
    };
    println!(rt; "file: {refused}")?;
    Ok(refused.confirmed)
}

/// Confirms a draft and files it, after some totals and numbers that are refused.
fn close_year(rt: &HostRuntime, draft: Draft) -> anyhow::Result<Filed> {
    let Statement {
        import,
        feed_in,
        ..
    } = draft.statement();
    let draft = differing(rt, draft.confirm(import.saturating_add(1), 0))?;
    let draft = differing(rt, draft.confirm(import, feed_in.saturating_add(1)))?;
    let confirmed = draft.confirm(import, feed_in)?;
    let confirmed = misnumbered(rt, confirmed.file(0))?;
    let confirmed = misnumbered(rt, confirmed.file(1_000_000))?;
    Ok(confirmed.file(FILE_NUMBER)?)
}

/// The whole tour.
pub(crate) fn run(rt: &HostRuntime) -> anyhow::Result<()> {
    let book = entered(SlipBox::new(rt.alloc(), 4)?)?;
    let draft = book.draw();
    let mut short = [0u8; PRINT_LENGTH - 1];
    let printed = draft.print(&mut short);
    print_text(rt, &short, printed)?;
    let mut buffer = [0u8; PRINT_LENGTH];
    let printed = draft.print(&mut buffer);
    print_text(rt, &buffer, printed)?;
    let filed = close_year(rt, draft)?;
    let printed = filed.print(&mut buffer);
    print_text(rt, &buffer, printed)?;
    let entries = filed.statement().entries;
    let number = filed.number();
    println!(rt;
        "statements: a year of {entries} entries drawn, confirmed and filed under {number}"
    )?;
    Ok(())
}
