//! Pools beside vectors, a `Vec` of `Vec<u8>` for each pool: of three rounds the shortest.

mod in_pools;
mod in_vectors;

use crate::trouble::Trouble;
use std::alloc::Global;
use std::time::Clock;

const ROUNDS: u32 = 3;

// What there is before.
#[derive(Clone, Copy)]
enum Before {
    Nothing,
    // the root's strings
    Strings,
    // pools with a string and that many children each
    Pools(u64),
}

// What is timed.
#[derive(Clone, Copy)]
enum Deed {
    // Strings are pushed onto one pool.
    Push,
    // Pools are made with a string each, each destroyed before the next is made.
    OneByOne,
    // The children of the root are destroyed.
    OldestFirst,
    YoungestFirst,
    // All goes at once.
    Clear,
}

// What is timed, in words and by what it does, how long its strings are, and how many there are of what it is named for, in hundredths of
// the pools that are wanted.
struct Row {
    what: &'static str,
    before: Before,
    deed: Deed,
    length: usize,
    hundredths: u64,
}

// More children than there are pools: all of them are the root's.
const SIBLINGS: Before = Before::Pools(u64::MAX);

static ROWS: [Row; 9] = [
    Row {
        what: "pushes of 8 bytes",
        before: Before::Nothing,
        deed: Deed::Push,
        length: 8,
        hundredths: 1_000,
    },
    Row {
        what: "pushes of 100 bytes",
        before: Before::Nothing,
        deed: Deed::Push,
        length: 100,
        hundredths: 1_000,
    },
    Row {
        what: "pushes of 10000 bytes",
        before: Before::Nothing,
        deed: Deed::Push,
        length: 10_000,
        hundredths: 20,
    },
    Row {
        what: "pools made and destroyed one by one",
        before: Before::Nothing,
        deed: Deed::OneByOne,
        length: 8,
        hundredths: 100,
    },
    Row {
        what: "siblings destroyed, the oldest first",
        before: SIBLINGS,
        deed: Deed::OldestFirst,
        length: 8,
        hundredths: 100,
    },
    Row {
        what: "siblings destroyed, the youngest first",
        before: SIBLINGS,
        deed: Deed::YoungestFirst,
        length: 8,
        hundredths: 100,
    },
    Row {
        what: "pools of a tree cleared",
        before: Before::Pools(10),
        deed: Deed::Clear,
        length: 8,
        hundredths: 100,
    },
    Row {
        what: "pools of a chain cleared",
        before: Before::Pools(1),
        deed: Deed::Clear,
        length: 8,
        hundredths: 100,
    },
    Row {
        what: "strings of one pool cleared",
        before: Before::Strings,
        deed: Deed::Clear,
        length: 8,
        hundredths: 1_000,
    },
];

// A row with the string that it pushes, and how many of them, or how many pools.
#[derive(Clone, Copy)]
struct Work<'a> {
    before: Before,
    deed: Deed,
    text: &'a [u8],
    number: u64,
}

// The shortest time in pools, and in vectors, in nanoseconds.
fn shortest<C: Clock>(clock: &C, alloc: Global, work: Work<'_>) -> Result<(u64, u64), Trouble> {
    let (mut pools, mut vectors) = (u64::MAX, u64::MAX);
    for _ in 0..ROUNDS {
        pools = pools.min(in_pools::nanos(clock, alloc, work)?);
        vectors = vectors.min(in_vectors::nanos(clock, alloc, work)?);
    }
    Ok((pools, vectors))
}

fn time<R: Clock + Eprint>(rt: &R, alloc: Global, row: &Row, wanted: u64) -> Result<(), Trouble> {
    let text = Vec::from_elem(alloc, b'x', row.length)?;
    let (what, number) = (row.what, wanted.saturating_mul(row.hundredths) / 100);
    let work = Work {
        before: row.before,
        deed: row.deed,
        text: &text,
        number,
    };
    let (pools, vectors) = shortest(rt, alloc, work)?;
    let (pools, vectors) = (pools / 1_000, vectors / 1_000);
    eprintln!(rt; "{number} {what}: pools {pools} us, vectors {vectors} us")?;
    Ok(())
}

fn rows() -> &'static [Row] {
    &ROWS
}

/// Times the rows with that many pools.
pub(crate) fn run<R: Clock + Eprint>(rt: &R, alloc: Global, wanted: u64) -> Result<(), Trouble> {
    for row in rows() {
        time(rt, alloc, row, wanted)?;
    }
    Ok(())
}
