//! Every refusal that an input can meet, its line and its place, and which of several comes first.
use files::split::split_text;
use files::stream::split_stream;
use std::alloc::{AllocError, Global};
use std::process::Abort;
use std::test::Fail;
use stores::slip_box::SlipBox;
use stores::store::Store;
use stores::year_table::YearTable;

/// The lines before the lines of values, in case 1.
const START: &str = "CASE;YEAR\n1;2026\nQ;AW;Z1NB;Z1NE;Z2V;Z2E\n";

/// Checks that the input is refused, and what the second line of the text tells. A failure names the input by `at`.
fn check_told<S: Store + Drop>(
    rt: &impl Abort,
    store: S,
    input: &[u8],
    told: &str,
    at: &str,
) -> Result<(), Fail> {
    let answer = split_text(store, input);
    assert_eq!(rt; answer.is_err(), true, "at {at}");
    let text = answer.unwrap_or_else(|text| text);
    assert_eq!(rt;
        text.as_str().strip_prefix("REFUSAL;LINE;PLACE\n"),
        Some(told),
        "at {at}"
    );
    Ok(())
}

/// The same of rows after the start, over a slip box of 1,000.
fn check_rows(
    rt: &impl Abort,
    heap: Global,
    rows: &[u8],
    told: &str,
    at: &str,
) -> Result<(), Fail> {
    let mut input = START.as_bytes().to_vec(heap)?;
    input.extend_from_slice(rows)?;
    check_told(rt, SlipBox::new(heap, 1_000)?, &input, told, at)
}

#[test]
fn lines_before_the_values(rt: HostRuntime) -> Result<(), Fail> {
    for (input, told) in [
        ("", "14;1;1\n"),
        ("\n", "14;1;1\n"),
        ("CASE;YEAR", "14;2;1\n"),
        ("CASE;YEAR\n", "14;2;1\n"),
        ("CASE;YEAR\r\n1;2026\n", "14;1;1\n"),
        ("YEAR;CASE\n1;2026\n", "14;1;1\n"),
        ("CASE;YEAR\n1;2026", "14;3;1\n"),
        ("CASE;YEAR\n\n", "15;2;1\n"),
        ("CASE;YEAR\n1\n", "15;2;2\n"),
        ("CASE;YEAR\n1;2026;\n", "15;2;3\n"),
        ("CASE;YEAR\n0;2026\n", "1;2;0\n"),
        ("CASE;YEAR\n5;2024\n", "1;2;0\n"),
        ("CASE;YEAR\n4;2024\n", "2;2;0\n"),
        ("CASE;YEAR\n4;2100\n", "2;2;0\n"),
        ("CASE;YEAR\n1;2026\n\n", "14;3;1\n"),
        ("CASE;YEAR\n1;2026\nQ;AW;Z1NB;Z1NE;Z2V\n", "14;3;6\n"),
        ("CASE;YEAR\n1;2026\nQ;AW;Z1NB;Q;Z4V\n", "14;3;4\n"),
        ("CASE;YEAR\n1;2026\nQ;AW;Z4V;Q\n", "14;3;3\n"),
        ("CASE;YEAR\n1;2026\nq;AW;Z1NB;Z1NE;Z2V;Z2E\n", "14;3;1\n"),
        ("CASE;YEAR\n1;2026\nQ;AW;Z1NB;Z1NE;Z2V;Z2E;\n", "14;3;7\n"),
    ] {
        check_told(
            &rt,
            SlipBox::new(rt.alloc(), 1_000)?,
            input.as_bytes(),
            told,
            input,
        )?;
    }
    Ok(())
}

#[test]
fn lines_of_values(rt: HostRuntime) -> Result<(), Fail> {
    for (rows, told) in [
        ("\n", "15;4;1\n"),
        ("0;700;1;2;3;4\n\n1;700;1;2;3;4\n", "15;5;1\n"),
        ("0;700;1;2;3\n", "15;4;6\n"),
        ("0;700;1;2;3;4;5\n", "15;4;7\n"),
        ("0;700;1;2;3;4\r\n", "15;4;6\n"),
        ("0;700;;2;x;4\n", "15;4;3\n"),
        ("0;700;+1;2;3;4\n", "15;4;3\n"),
        ("0;700; 1;2;3;4\n", "15;4;3\n"),
        ("0;700;00000000001;2;3;4\n", "15;4;3\n"),
        ("9999999999;700;1;2;3;4\n", "4;4;0\n"),
        ("35040;999999;9999999;2;3;4\n", "4;4;0\n"),
        ("0;100001;1;1000001;1000001;4\n", "5;4;2\n"),
        ("0;100001;1000000;2;3;4\n", "6;4;0\n"),
        ("0;700;1;2;3;4\n0;700;1;2;3;4", "7;5;0\n"),
        ("0;700;1;2;3;4\n0;100001;1;2;3;4\nx\n", "6;5;0\n"),
    ] {
        check_rows(&rt, rt.alloc(), rows.as_bytes(), told, rows)?;
    }
    check_rows(
        &rt,
        rt.alloc(),
        b"0;700;1\xff;2;3;4\n",
        "15;4;3\n",
        "a byte over 127",
    )?;
    check_rows(&rt, rt.alloc(), b"0;700;1;2;3;\0\n", "15;4;6\n", "a byte 0")
}

/// A start and so many rows, one for each quarter from 0 on, with 1,000,000 Wh imported in each.
fn many_rows(heap: Global, rows: u64) -> Result<String, AllocError> {
    let mut input = String::from_str(heap, START)?;
    for quarter in 0..rows {
        let row = format!(in heap; "{quarter};700;1000000;0;0;0\n")?;
        input.push_str(row.as_str())?;
    }
    Ok(input)
}

/// A line of digits of that length.
fn long_line(heap: Global, length: usize) -> Result<Vec<u8>, AllocError> {
    vec![in heap; b'1'; length]
}

#[test]
fn limits(rt: HostRuntime) -> Result<(), Fail> {
    let heap = rt.alloc();
    let input = many_rows(heap, 0)?;
    check_told(
        &rt,
        YearTable::new(heap, 35_039)?,
        input.as_bytes(),
        "3;2;0\n",
        "REACH",
    )?;
    let input = many_rows(heap, 1_001)?;
    check_told(
        &rt,
        SlipBox::new(heap, 1_000)?,
        input.as_bytes(),
        "10;1004;0\n",
        "FULL",
    )?;
    let input = many_rows(heap, 3_001)?;
    check_told(
        &rt,
        YearTable::new(heap, 35_136)?,
        input.as_bytes(),
        "9;3004;1\n",
        "SUM",
    )?;
    let line = long_line(heap, 200)?;
    check_rows(&rt, heap, &line, "15;4;1\n", "200 bytes")?;
    check_told(&rt, SlipBox::new(heap, 1)?, &line, "14;1;1\n", "200 bytes")?;
    let line = long_line(heap, 201)?;
    check_rows(&rt, heap, &line, "15;4;0\n", "201 bytes")?;
    check_told(&rt, SlipBox::new(heap, 1)?, &line, "15;1;0\n", "201 bytes")
}

/// Checks that the rows give a statement with these values.
fn check_stated(rt: &impl Abort, heap: Global, rows: &str, values: &str) -> Result<(), Fail> {
    let mut input = String::from_str(heap, START)?;
    input.push_str(rows)?;
    let answer = split_text(SlipBox::new(heap, 1_000)?, input.as_bytes());
    assert_eq!(rt; answer.is_err(), false, "at {rows}");
    let text = answer.unwrap_or_else(|text| text);
    assert_eq!(rt; text.as_str().lines().nth(1), Some(values), "at {rows}");
    Ok(())
}

#[test]
fn accepted(rt: HostRuntime) -> Result<(), Fail> {
    for (rows, values) in [
        ("", "1;2026;0;0;0;0;0;0;0;0;0;0;0;0;0"),
        (
            "35039;0;0;5000;0;0",
            "1;2026;1;0;5000;0;0;0;0;0;0;5000;0;0;0",
        ),
        (
            "0000000007;700;100;0;100;0\n1;700;0;0;0;150",
            "1;2026;2;100;0;0;-33;133;0;0;0;0;0;0;0",
        ),
    ] {
        check_stated(&rt, rt.alloc(), rows, values)?;
    }
    Ok(())
}

#[test]
fn a_stream(rt: HostRuntime) -> Result<(), Fail> {
    let heap = rt.alloc();
    let mut reader = b"CASE;YEAR\n5;2026\n".as_slice();
    let mut writer = Vec::new(heap);
    let refused = split_stream(heap, SlipBox::new(heap, 1)?, &mut reader, &mut writer)?;
    assert_eq!(rt; refused, true);
    assert_eq!(rt;
        writer.as_slice(),
        b"REFUSAL;LINE;PLACE\n1;2;0\n".as_slice()
    );
    Ok(())
}
