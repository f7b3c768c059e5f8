//! Times parts of the library that no script shows alone: the order check and reports, pools, and links.

mod edits;
mod link_calls;
mod pools;

use crate::trouble::Trouble;
use std::alloc::Global;
use std::sync::Wait;
use std::thread::Threads;
use std::time::{Clock, Instant};

const DEFAULT_COUNT: u64 = 100_000;

const USAGE: Trouble = Trouble::Other("the words are edits, pools, link or all, and a number");

/// The nanoseconds since a moment.
pub(crate) fn nanos_since<C: Clock>(clock: &C, start: Instant) -> Result<u64, Trouble> {
    let took = start.elapsed(clock)?;
    Ok(u64::try_from(took.as_nanos()).unwrap_or(u64::MAX))
}

fn all<R: Threads + Wait + Sync + Clock + Eprint>(
    rt: &R,
    alloc: Global,
    count: u64,
) -> Result<(), Trouble> {
    edits::run(rt, alloc, count)?;
    pools::run(rt, alloc, count)?;
    link_calls::run(rt, alloc, count)
}

fn count_of(word: Option<&str>) -> Result<u64, Trouble> {
    match word {
        None => Ok(DEFAULT_COUNT),
        Some(word) => word.parse::<u64>().map_err(|_| USAGE),
    }
}

/// Times a part, with so many calls, entries or pools.
pub(crate) fn run<R: Threads + Wait + Sync + Clock + Eprint>(
    rt: &R,
    alloc: Global,
    part: &str,
    count: Option<&str>,
) -> Result<(), Trouble> {
    let count = count_of(count)?;
    match part {
        "edits" => edits::run(rt, alloc, count),
        "pools" => pools::run(rt, alloc, count),
        "link" => link_calls::run(rt, alloc, count),
        "all" => all(rt, alloc, count),
        _ => Err(USAGE),
    }
}
