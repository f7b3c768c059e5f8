// More blocks than the first arena of a tree is for, with strings beside their blocks and in them.
use crate::test_pool::call::Answer::{Counted, Done, Place, Serial, Text};
use crate::test_pool::call::Call::{Clear, Counts, Create, Get, Push};
use crate::test_pool::call::{Answer, Call, run};
use linked_list_allocator::LocalHeap;
use std::alloc::{AllocError, Allocator, Global};
use std::process::Abort;
use std::test::Fail;
use svn_pool::PoolTree;

const POOLS: u64 = 150;

// Room for that many blocks, and not for what a tree asks for at once where it finds more.
const HEAP: usize = 4_194_304;

// A pool is made, and gets a string that fits beside its block, one that doesn't, and another that does.
fn made(pool: u64) -> [(Call, Answer); 4] {
    [
        (Create(0), Serial(pool)),
        (Push(pool, 1, 20), Place(0)),
        (Push(pool, 2, 200), Place(1)),
        (Push(pool, 1, 20), Place(2)),
    ]
}

fn kept(pool: u64) -> [(Call, Answer); 3] {
    [
        (Get(pool, 0), Text(1, 20)),
        (Get(pool, 1), Text(2, 200)),
        (Get(pool, 2), Text(1, 20)),
    ]
}

fn make_all<R: Abort, A: Allocator + Copy>(
    rt: &R,
    alloc: Global,
    tree: &mut PoolTree<A>,
) -> Result<(), AllocError> {
    for pool in 1..=POOLS {
        run(rt, alloc, tree, &made(pool))?;
    }
    run(rt, alloc, tree, &[(Counts, Counted(POOLS + 1, POOLS, 0))])
}

// Makes that many pools with strings, and reads them.
fn fill<R: Abort, A: Allocator + Copy>(
    rt: &R,
    alloc: Global,
    tree: &mut PoolTree<A>,
) -> Result<(), AllocError> {
    make_all(rt, alloc, tree)?;
    for pool in 1..=POOLS {
        run(rt, alloc, tree, &kept(pool))?;
    }
    Ok(())
}

// What comes after that.
static AGAIN: [(Call, Answer); 6] = [
    (Clear(0), Done),
    (Counts, Counted(1, 0, POOLS)),
    (Create(0), Serial(POOLS + 1)),
    (Push(POOLS + 1, 2, 200), Place(0)),
    (Get(POOLS + 1, 0), Text(2, 200)),
    (Counts, Counted(2, 1, POOLS - 1)),
];

fn fill_and_again<R: Abort>(
    rt: &R,
    alloc: Global,
    tree: &mut PoolTree<Global>,
) -> Result<(), AllocError> {
    fill(rt, alloc, tree)?;
    run(rt, alloc, tree, &AGAIN)
}

#[test]
fn many_blocks_serve_and_serve_again(rt: HostRuntime) -> Result<(), Fail> {
    let mut tree = PoolTree::new_from(rt.alloc(), 0)?;
    Ok(fill_and_again(&rt, rt.alloc(), &mut tree)?)
}

fn fill_one_on<R: Abort>(rt: &R, alloc: Global, heap: &LocalHeap) -> Result<(), Fail> {
    let mut tree = PoolTree::new(heap)?;
    Ok(fill(rt, alloc, &mut tree)?)
}

#[test]
fn many_blocks_go_back(rt: HostRuntime) -> Result<(), Fail> {
    let heap = LocalHeap::new(rt.alloc(), HEAP)?;
    let before = heap.free();
    fill_one_on(&rt, rt.alloc(), &heap)?;
    assert_eq!(rt; heap.free(), before);
    Ok(())
}
