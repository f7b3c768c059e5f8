// The work in pools. A pool's serial is its number, the root's 0.
use super::{Before, Deed, Work};
use crate::times::nanos_since;
use crate::trouble::Trouble;
use std::alloc::Global;
use std::time::{Clock, Instant};
use svn_pool::{PoolFault, PoolId, PoolTree};

type Tree = PoolTree<Global>;

fn push_all(tree: &mut Tree, text: &[u8], number: u64) -> Result<(), PoolFault> {
    for _ in 0..number {
        tree.push(PoolId(0), text)?;
    }
    Ok(())
}

// A pool with a string.
fn add(tree: &mut Tree, parent: u64, text: &[u8]) -> Result<PoolId, PoolFault> {
    let pool = tree.create(PoolId(parent))?;
    tree.push(pool, text)?;
    Ok(pool)
}

// Pools with that many children each.
fn grow(tree: &mut Tree, children: u64, text: &[u8], number: u64) -> Result<(), PoolFault> {
    for made in 0..number {
        add(tree, made / children.max(1), text)?;
    }
    Ok(())
}

fn one_by_one(tree: &mut Tree, text: &[u8], number: u64) -> Result<(), PoolFault> {
    for _ in 0..number {
        let pool = add(tree, 0, text)?;
        tree.destroy(pool)?;
    }
    Ok(())
}

fn oldest_first(tree: &mut Tree, number: u64) -> Result<(), PoolFault> {
    for before in 0..number {
        tree.destroy(PoolId(before.wrapping_add(1)))?;
    }
    Ok(())
}

fn youngest_first(tree: &mut Tree, number: u64) -> Result<(), PoolFault> {
    for before in (0..number).rev() {
        tree.destroy(PoolId(before.wrapping_add(1)))?;
    }
    Ok(())
}

fn prepare(tree: &mut Tree, work: Work<'_>) -> Result<(), PoolFault> {
    match work.before {
        Before::Nothing => Ok(()),
        Before::Strings => push_all(tree, work.text, work.number),
        Before::Pools(children) => grow(tree, children, work.text, work.number),
    }
}

fn perform(tree: &mut Tree, work: Work<'_>) -> Result<(), PoolFault> {
    match work.deed {
        Deed::Push => push_all(tree, work.text, work.number),
        Deed::OneByOne => one_by_one(tree, work.text, work.number),
        Deed::OldestFirst => oldest_first(tree, work.number),
        Deed::YoungestFirst => youngest_first(tree, work.number),
        Deed::Clear => tree.clear(PoolId(0)),
    }
}

// The root alone is left.
fn nanos_to_root<C: Clock>(clock: &C, tree: &mut Tree, work: Work<'_>) -> Result<u64, Trouble> {
    let start = Instant::now(clock)?;
    perform(tree, work)?;
    let took = nanos_since(clock, start)?;
    if tree.live() == 1 {
        Ok(took)
    } else {
        Err(Trouble::Other("pools are left"))
    }
}

/// How long it takes.
pub(crate) fn nanos<C: Clock>(clock: &C, alloc: Global, work: Work<'_>) -> Result<u64, Trouble> {
    let mut tree = PoolTree::new(alloc)?;
    prepare(&mut tree, work)?;
    nanos_to_root(clock, &mut tree, work)
}
