// The work in vectors: a pool is a vector of its strings, which may be there or not.
use super::{Before, Deed, Work};
use crate::times::nanos_since;
use crate::trouble::Trouble;
use std::alloc::{AllocError, Global};
use std::time::{Clock, Instant};

type Strings = Vec<Vec<u8>>;

type Pools = Vec<Option<Strings>>;

fn filled(alloc: Global, text: &[u8], number: u64) -> Result<Strings, AllocError> {
    let mut strings = Vec::new(alloc);
    for _ in 0..number {
        strings.push(Vec::from_slice(alloc, text)?)?;
    }
    Ok(strings)
}

// A pool with that many strings.
fn add(alloc: Global, pools: &mut Pools, text: &[u8], number: u64) -> Result<(), AllocError> {
    pools.push(Some(filled(alloc, text, number)?))?;
    Ok(())
}

// Pools with a string each; vectors know no parents.
fn grow(alloc: Global, pools: &mut Pools, text: &[u8], number: u64) -> Result<(), AllocError> {
    for _ in 0..number {
        add(alloc, pools, text, 1)?;
    }
    Ok(())
}

fn one_by_one(alloc: Global, text: &[u8], number: u64) -> Result<(), AllocError> {
    for _ in 0..number {
        drop(filled(alloc, text, 1)?);
    }
    Ok(())
}

fn oldest_first(pools: &mut Pools) {
    for pool in pools {
        *pool = None;
    }
}

fn youngest_first(pools: &mut Pools) {
    for pool in pools.iter_mut().rev() {
        *pool = None;
    }
}

fn prepare(alloc: Global, pools: &mut Pools, work: Work<'_>) -> Result<(), AllocError> {
    match work.before {
        Before::Nothing => Ok(()),
        Before::Strings => add(alloc, pools, work.text, work.number),
        Before::Pools(_) => grow(alloc, pools, work.text, work.number),
    }
}

fn perform(alloc: Global, pools: &mut Pools, work: Work<'_>) -> Result<(), AllocError> {
    match work.deed {
        Deed::Push => return add(alloc, pools, work.text, work.number),
        Deed::OneByOne => return one_by_one(alloc, work.text, work.number),
        Deed::OldestFirst => oldest_first(pools),
        Deed::YoungestFirst => youngest_first(pools),
        Deed::Clear => pools.clear(),
    }
    Ok(())
}

/// How long it takes.
pub(crate) fn nanos<C: Clock>(clock: &C, alloc: Global, work: Work<'_>) -> Result<u64, Trouble> {
    let mut pools = Vec::new(alloc);
    prepare(alloc, &mut pools, work)?;
    let start = Instant::now(clock)?;
    perform(alloc, &mut pools, work)?;
    nanos_since(clock, start)
}
