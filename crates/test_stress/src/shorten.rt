//! A history that shows a difference, made short.

use crate::step::Step;
use crate::stop::{Result, Stop};
use crate::world::World;
use std::alloc::Global;
use std::sync::Wait;
use std::thread::Threads;

// Makes the steps, up to the first difference.
fn take_all<R: Threads + Wait + Sync>(rt: &R, world: &mut World, steps: &[Step]) -> Result<()> {
    for step in steps {
        world.take(rt, *step)?;
    }
    Ok(())
}

/// Makes the steps from the beginning, up to the first difference.
pub(crate) fn replay<R: Threads + Wait + Sync>(
    rt: &R,
    alloc: Global,
    steps: &[Step],
) -> Result<()> {
    let mut world = World::new(alloc)?;
    take_all(rt, &mut world, steps)
}

// The steps without that many from one place on.
fn without(alloc: Global, steps: &[Step], from: usize, count: usize) -> Result<Vec<Step>> {
    let mut left = Vec::new(alloc);
    for (at, step) in steps.iter().enumerate() {
        if at < from || at >= from.saturating_add(count) {
            left.push(*step)?;
        }
    }
    Ok(left)
}

// Whether the steps still lead to a difference. What the model can't follow shows none.
fn differs<R: Threads + Wait + Sync>(rt: &R, alloc: Global, steps: &[Step]) -> bool {
    matches!(&replay(rt, alloc, steps), Err(Stop::Differs(_)))
}

// Drops each run of that many steps that isn't needed, the last first.
fn dropped<R: Threads + Wait + Sync>(
    rt: &R,
    alloc: Global,
    steps: Vec<Step>,
    count: usize,
) -> Result<Vec<Step>> {
    let mut kept = steps;
    for back in 1..kept.len().saturating_add(1) {
        let Some(from) = kept.len().checked_sub(back) else {
            break;
        };
        let fewer = without(alloc, &kept, from, count)?;
        if differs(rt, alloc, &fewer) {
            kept = fewer;
        }
    }
    Ok(kept)
}

// How many steps are left out at once.
const DROPS: [usize; 6] = [8, 4, 2, 1, 1, 1];

/// As few of the steps as still lead to a difference.
pub(crate) fn shortened<R: Threads + Wait + Sync>(
    rt: &R,
    alloc: Global,
    steps: Vec<Step>,
) -> Result<Vec<Step>> {
    let mut kept = steps;
    for count in &DROPS {
        kept = dropped(rt, alloc, kept, *count)?;
    }
    Ok(kept)
}
