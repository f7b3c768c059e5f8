//! Pools.
use crate::trouble::{Trouble, holds};
use std::alloc::Global;
use svn_pool::{PoolFault, PoolId, PoolTree};

// A call, and what it returns: a serial, a place or nothing.
#[derive(Clone, Copy)]
enum Step {
    Create(u64),
    // a pool, and the length of a string
    Push(u64, usize),
    Clear(u64),
}

type Answer = Result<u64, PoolFault>;

// After each call live pools, blocks in use and spare blocks.
type Row = (Step, Answer, (u64, u64, u64));

static BRANCH: [Row; 11] = [
    (Step::Create(0), Ok(1), (2, 0, 0)),
    (Step::Create(1), Ok(2), (3, 0, 0)),
    (Step::Create(2), Ok(3), (4, 0, 0)),
    (Step::Push(1, 1), Ok(0), (4, 1, 0)),
    (Step::Push(2, 1), Ok(0), (4, 2, 0)),
    (Step::Push(3, 1), Ok(0), (4, 3, 0)),
    (Step::Clear(1), Ok(0), (2, 0, 3)),
    (Step::Push(3, 1), Err(PoolFault::Gone), (2, 0, 3)),
    (Step::Create(1), Ok(4), (3, 0, 3)),
    (Step::Push(4, 1), Ok(0), (3, 1, 2)),
    (Step::Clear(0), Ok(0), (1, 0, 3)),
];

static LENGTHS: [Row; 7] = [
    (Step::Push(0, 1), Ok(0), (1, 1, 0)),
    (Step::Push(0, 8188), Ok(1), (1, 2, 0)),
    (Step::Push(0, 8189), Ok(2), (1, 3, 0)),
    (Step::Clear(0), Ok(0), (1, 0, 2)),
    (Step::Push(0, 1_048_577), Err(PoolFault::TooLong), (1, 0, 2)),
    (Step::Push(0, 4092), Ok(0), (1, 1, 1)),
    (Step::Push(0, 4092), Ok(1), (1, 1, 1)),
];

fn branch() -> &'static [Row] {
    &BRANCH
}

fn lengths() -> &'static [Row] {
    &LENGTHS
}

fn answer_of(tree: &mut PoolTree<Global>, step: Step, string: &[u8]) -> Answer {
    match step {
        Step::Create(parent) => match tree.create(PoolId(parent)) {
            Ok(child) => Ok(child.0),
            Err(fault) => Err(fault),
        },
        Step::Push(pool, _) => match tree.push(PoolId(pool), string) {
            Ok(place) => Ok(u64::from(place)),
            Err(fault) => Err(fault),
        },
        Step::Clear(pool) => match tree.clear(PoolId(pool)) {
            Ok(()) => Ok(0),
            Err(fault) => Err(fault),
        },
    }
}

fn string_of(alloc: Global, step: Step) -> Result<Vec<u8>, Trouble> {
    match step {
        Step::Push(_, length) => Ok(Vec::from_elem(alloc, b'a', length)?),
        _ => Ok(Vec::new(alloc)),
    }
}

fn counts(tree: &PoolTree<Global>) -> (u64, u64, u64) {
    (tree.live(), tree.blocks(), tree.spare())
}

// A refused call changes nothing, so that it can be made again.
fn answer_or_leave(
    tree: &mut PoolTree<Global>,
    step: Step,
    string: &[u8],
) -> Result<Answer, Trouble> {
    let before = counts(tree);
    let answer = answer_of(tree, step, string);
    if answer == Err(PoolFault::Memory) {
        holds(
            counts(tree) == before,
            "a refused call changes a tree of pools",
        )?;
    }
    Ok(answer)
}

fn answer_anew(tree: &mut PoolTree<Global>, step: Step, string: &[u8]) -> Result<Answer, Trouble> {
    match answer_or_leave(tree, step, string)? {
        Err(PoolFault::Memory) => match answer_of(tree, step, string) {
            Err(PoolFault::Memory) => Err(Trouble::Memory),
            answer => Ok(answer),
        },
        answer => Ok(answer),
    }
}

fn take(alloc: Global, tree: &mut PoolTree<Global>, row: &Row) -> Result<(), Trouble> {
    let (step, wanted, behind) = *row;
    let string = string_of(alloc, step)?;
    let answer = answer_anew(tree, step, &string)?;
    holds(
        answer == wanted && counts(tree) == behind,
        "a tree of pools answers otherwise",
    )
}

fn take_all(alloc: Global, rows: &[Row]) -> Result<(), Trouble> {
    let mut tree = PoolTree::new(alloc)?;
    for row in rows {
        take(alloc, &mut tree, row)?;
    }
    Ok(())
}

// No serial is left after the last.
fn last_serial(alloc: Global) -> Result<(), Trouble> {
    let mut tree = PoolTree::new_from(alloc, u64::MAX)?;
    match tree.create(PoolId(u64::MAX)) {
        Err(PoolFault::Full) => Ok(()),
        _ => Err(Trouble::Other("a serial is left behind the last")),
    }
}

/// Trees of pools.
pub(crate) fn pools(alloc: Global) -> Result<(), Trouble> {
    take_all(alloc, branch())?;
    take_all(alloc, lengths())?;
    last_serial(alloc)
}
