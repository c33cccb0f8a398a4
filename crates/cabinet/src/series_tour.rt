//! A small site: an interval meter and a register meter read as one behind a transformer, a list of
//! changes and a full list. Prints what they have at each quarter, and the gaps and totals of spans.
use meters::change::{Change, ChangeList};
use meters::full::{FullValueList, NO_VALUE};
use meters::interval::{IntervalMeter, IntervalRow};
use meters::register::{RegisterMeter, RegisterRow};
use meters::sum::SumMeter;
use meters::transformer::Transformer;
use series::fault::{Cause, Fault};
use series::gap::first_gap;
use series::series::{Meter, Series, ValueList};
use series::total::{NoTotal, energy_over};
use std::alloc::{AllocError, Global};
use std::io;
use std::ops::Range;

/// Two meters behind one transformer.
type Site = Transformer<SumMeter<IntervalMeter, RegisterMeter>>;

/// A row of an interval meter that takes energy only.
fn interval_row(taken: u64, mark: u8) -> IntervalRow {
    IntervalRow {
        taken,
        given: 0,
        mark,
    }
}

/// Rows for quarters 0 to 8; quarter 2 is not marked as valid, and quarter 8 is over the limit.
fn interval_meter(heap: Global) -> Result<IntervalMeter, AllocError> {
    let rows = vec![in heap;
        IntervalRow {
            taken: 100,
            given: 20,
            mark: 1
        },
        interval_row(300, 1),
        interval_row(50, 0),
        interval_row(10, 1),
        interval_row(10, 1),
        interval_row(20_000, 1),
        interval_row(20_001, 1),
        interval_row(990_000, 1),
        interval_row(2_000_000, 1),
    ]?;
    Ok(IntervalMeter { rows })
}

/// Counts at the start of quarters 0 to 9; the count of taken energy falls in quarter 3.
fn register_meter(heap: Global) -> Result<RegisterMeter, AllocError> {
    let mut rows = Vec::new(heap);
    for taken in [
        1_000, 1_040, 1_100, 1_200, 1_190, 1_250, 6_250, 11_250, 31_250, 31_300,
    ] {
        let given = if taken < 1_040 { 500 } else { 510 };
        rows.push(RegisterRow { taken, given })?;
    }
    Ok(RegisterMeter { rows })
}

/// The site's meter, with the transformer's factor.
fn site(heap: Global, factor: u64) -> Result<Site, AllocError> {
    let meter = SumMeter {
        first: interval_meter(heap)?,
        second: register_meter(heap)?,
    };
    Ok(Transformer { meter, factor })
}

/// Changes out of order: the value of quarter 4 stands after that of quarter 6, so it holds there too.
fn changes(heap: Global) -> Result<ChangeList, AllocError> {
    let rows = vec![in heap;
        Change {
            quarter: 6,
            value: 700
        },
        Change {
            quarter: 4,
            value: 650
        },
        Change {
            quarter: 8,
            value: 100_001
        },
    ]?;
    Ok(ChangeList { rows })
}

/// A number for each of the quarters 0 to 4, with a hole at quarter 1.
fn full_list(heap: Global) -> Result<FullValueList, AllocError> {
    let rows = vec![in heap; 700, NO_VALUE, 0, 100_000, 100_001]?;
    Ok(FullValueList { rows })
}

/// Prints what a meter reads in a span.
fn print_readings<M: Meter>(
    rt: &HostRuntime,
    what: &str,
    meter: &M,
    span: Range<u64>,
) -> io::Result<()> {
    for quarter in span {
        match meter.read(quarter) {
            Ok((taken, given)) => println!(rt; "{what} {quarter}: taken {taken}, given {given}")?,
            Err(fault) => println!(rt; "{what}: {fault}")?,
        }
    }
    Ok(())
}

/// Prints what a value list has in a span. A reading and a value are told in other words, so this and the function above stay two.
fn print_values<L: ValueList>(
    rt: &HostRuntime,
    what: &str,
    list: &L,
    span: Range<u64>,
) -> io::Result<()> {
    for quarter in span {
        match list.value(quarter) {
            Ok(value) => println!(rt; "{what} {quarter}: {value}")?,
            Err(fault) => println!(rt; "{what}: {fault}")?,
        }
    }
    Ok(())
}

/// Prints the first gap of a span, at a meter or at a value list.
fn print_gap<S: Series>(
    rt: &HostRuntime,
    what: &str,
    series: &S,
    span: Range<u64>,
) -> io::Result<()> {
    let Range { start, end } = span;
    match first_gap(series, start..end) {
        Ok(None) => println!(rt; "{what} {start}..{end}: no gap"),
        Ok(Some(fault)) => println!(rt; "{what}: {fault}"),
        Err(refusal) => println!(rt; "{what} {start}..{end}: {refusal}"),
    }
}

/// Prints the energy of a span, or why there is none.
fn print_energy<M: Meter>(
    rt: &HostRuntime,
    what: &str,
    meter: &M,
    span: Range<u64>,
) -> io::Result<()> {
    let Range { start, end } = span;
    match energy_over(meter, start..end) {
        Ok((taken, given)) => println!(rt; "{what} {start}..{end}: taken {taken}, given {given}"),
        Err(NoTotal::Gap(fault)) => println!(rt; "{what}: {fault}"),
        Err(NoTotal::Refused(refusal)) => println!(rt; "{what} {start}..{end}: {refusal}"),
    }
}

/// The meters: items and faults of every cause and depth, also past the rows.
fn meters(rt: &HostRuntime) -> io::Result<()> {
    let meter = site(rt.alloc(), 40)?;
    print_readings(rt, "site", &meter, 0..10)?;
    print_readings(rt, "site", &meter, u64::MAX - 1..u64::MAX)?;
    let meter = site(rt.alloc(), 10_001)?;
    print_readings(rt, "bad factor", &meter, 4..5)
}

/// The value lists: items and faults.
fn lists(rt: &HostRuntime) -> io::Result<()> {
    print_values(rt, "changes", &changes(rt.alloc())?, 3..9)?;
    print_values(rt, "full list", &full_list(rt.alloc())?, 0..6)
}

/// The gaps of spans, at a meter and at both kinds of value list.
fn gaps(rt: &HostRuntime) -> io::Result<()> {
    let meter = site(rt.alloc(), 40)?;
    print_gap(rt, "site's gap", &meter, 0..10)?;
    print_gap(rt, "site's gap", &meter, 3..10)?;
    print_gap(rt, "site's gap", &meter, 4..6)?;
    print_gap(rt, "site's gap", &meter, 6..4)?;
    print_gap(rt, "site's gap", &meter, 4..35_137)?;
    let list = changes(rt.alloc())?;
    print_gap(rt, "changes' gap", &list, 0..8)?;
    print_gap(rt, "changes' gap", &list, 4..8)?;
    print_gap(rt, "full list's gap", &full_list(rt.alloc())?, 0..35_136)
}

/// The energy of spans.
fn energies(rt: &HostRuntime) -> io::Result<()> {
    let meter = site(rt.alloc(), 40)?;
    print_energy(rt, "energy", &meter, 0..2)?;
    print_energy(rt, "energy", &meter, 0..10)?;
    print_energy(rt, "energy", &meter, 4..4)?;
    print_energy(rt, "energy", &meter, 0..35_137)
}

/// A fault under more layers than its depth can tell.
fn deep_fault(rt: &HostRuntime) -> io::Result<()> {
    let mut fault = Fault::here(Cause::Fell, 7);
    for _ in 0..300 {
        fault = fault.raise();
    }
    println!(rt; "300 layers up: {fault}")
}

/// The whole tour.
pub(crate) fn run(rt: &HostRuntime) -> io::Result<()> {
    meters(rt)?;
    lists(rt)?;
    gaps(rt)?;
    energies(rt)?;
    deep_fault(rt)?;
    println!(rt; "series: meters, value lists, gaps and energies of spans told")
}
