//! Puts and looks in numbers, so that the instructions of one can be counted: bench/stores does that.
//! Arguments: the make (year_table or slip_box), its number of places or slips, rounds of puts, rounds of looks.
//! Each round goes once over as many quarters as the store can hold, spread over its reach.
#![tactic(auto)]

use entries::entry::Entry;
use entries::readings::Readings;
use std::str::FromStr;
use std::{env, io};
use stores::slip_box::SlipBox;
use stores::store::Store;
use stores::year_table::YearTable;

/// What is asked for.
#[derive(Clone, Copy)]
struct Order {
    make: Make,
    size: u64,
    put_rounds: u64,
    look_rounds: u64,
}

#[derive(Clone, Copy)]
enum Make {
    YearTable,
    SlipBox,
}

/// A word that names no make.
#[derive(Clone, Copy, Debug)]
struct NoSuchMake;

impl FromStr for Make {
    type Err = NoSuchMake;

    fn from_str(word: &str) -> Result<Make, NoSuchMake> {
        match word {
            "year_table" => Ok(Make::YearTable),
            "slip_box" => Ok(Make::SlipBox),
            _ => Err(NoSuchMake),
        }
    }
}

fn main(rt: HostRuntime) -> io::Result<()> {
    let Some(order) = read_order(env::args(&rt)?) else {
        return println!(rt; "usage: bench_stores year_table|slip_box SIZE PUT_ROUNDS LOOK_ROUNDS");
    };
    let heap = rt.alloc();
    match order.make {
        Make::YearTable => work(&rt, YearTable::new(heap, order.size)?, order),
        Make::SlipBox => work(&rt, SlipBox::new(heap, order.size)?, order),
    }
}

// The order that the arguments make, if they make one.
fn read_order(mut args: env::Args) -> Option<Order> {
    let _program = args.next()?;
    Some(Order {
        make: args.next()?.parse().ok()?,
        size: args.next()?.parse().ok()?,
        put_rounds: args.next()?.parse().ok()?,
        look_rounds: args.next()?.parse().ok()?,
    })
}

// Does the rounds. Tells how many puts were accepted, and what the amounts of all the entries found add up to.
fn work<S: Store + Drop>(rt: &HostRuntime, mut store: S, order: Order) -> io::Result<()> {
    // A loop, since a round changes the store.
    let mut accepted: u64 = 0;
    for _ in 0..order.put_rounds {
        accepted = accepted.saturating_add(put_round(&mut store));
    }
    let found = (0..order.look_rounds)
        .map(|_| look_round(&store))
        .fold(0, u64::wrapping_add);
    let count = store.count();
    println!(rt; "{count} pairs stand: {accepted} puts accepted, {found} in all found")
}

// Puts at each of the round's quarters, in a loop since each put changes the store. Answers how many puts were accepted.
fn put_round<S: Store>(store: &mut S) -> u64 {
    let stretch = stretch(store);
    let mut accepted: u64 = 0;
    for i in 0..store.capacity() {
        let quarter = i.wrapping_mul(stretch);
        if store.put(quarter, entry_for(quarter)).is_ok() {
            accepted += 1;
        }
    }
    accepted
}

// Looks at each of the round's quarters. Answers the sum of the amounts of what it finds, so that no part of a look
// can be left out.
fn look_round<S: Store>(store: &S) -> u64 {
    let stretch = stretch(store);
    (0..store.capacity())
        .map(|i| store.look(i.wrapping_mul(stretch)).map_or(0, amounts))
        .fold(0, u64::wrapping_add)
}

// How far apart a round's quarters are.
fn stretch<S: Store>(store: &S) -> u64 {
    store.reach().checked_div(store.capacity()).unwrap_or(0)
}

// An entry with seven different amounts.
fn entry_for(quarter: u64) -> Entry {
    Entry {
        readings: Readings {
            import: quarter,
            feed_in: quarter.wrapping_add(1),
            drawn: quarter.wrapping_add(2),
            given: quarter.wrapping_add(3),
            storage_drawn: quarter.wrapping_add(4),
            storage_given: quarter.wrapping_add(5),
        },
        value: 700,
    }
}

// The sum of the seven amounts. A fold over an array would cost more than the look.
fn amounts(entry: Entry) -> u64 {
    let r = entry.readings;
    r.import
        .wrapping_add(r.feed_in)
        .wrapping_add(r.drawn)
        .wrapping_add(r.given)
        .wrapping_add(r.storage_drawn)
        .wrapping_add(r.storage_given)
        .wrapping_add(entry.value)
}
