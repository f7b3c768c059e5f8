// Each block goes back to the heap, as the free bytes of a heap of limited size show.
use crate::test_pool::call::{Answer, Call, run};
use crate::test_pool::rows::{BRANCH, HALVES, HALVES_AND_EMPTY, LENGTHS, LONG_AND_SHORT};
use linked_list_allocator::LocalHeap;
use std::alloc::{AllocError, Global};
use std::process::Abort;
use std::test::Fail;
use svn_pool::PoolTree;

const HEAP: usize = 65_536;

fn rows() -> [&'static [(Call, Answer)]; 5] {
    [
        &BRANCH,
        &LENGTHS,
        &HALVES,
        &HALVES_AND_EMPTY,
        &LONG_AND_SHORT,
    ]
}

// What a heap has left when a tree on it has done a row.
fn left_by<'a, R: Abort>(
    rt: &R,
    alloc: Global,
    (heap, tree): (&'a LocalHeap, &mut PoolTree<&'a LocalHeap>),
    row: &[(Call, Answer)],
) -> Result<usize, AllocError> {
    run(rt, alloc, tree, row)?;
    Ok(heap.free())
}

// The same of a new tree, while that is there.
fn left<R: Abort>(
    rt: &R,
    alloc: Global,
    heap: &LocalHeap,
    row: &[(Call, Answer)],
) -> Result<usize, Fail> {
    let mut tree = PoolTree::new(heap)?;
    Ok(left_by(rt, alloc, (heap, &mut tree), row)?)
}

fn gives_back<R: Abort>(
    rt: &R,
    alloc: Global,
    heap: &LocalHeap,
    row: &[(Call, Answer)],
) -> Result<(), Fail> {
    let before = heap.free();
    let left = left(rt, alloc, heap, row)?;
    assert!(rt; left < before);
    assert_eq!(rt; heap.free(), before);
    Ok(())
}

#[test]
fn dropped_trees_give_all_back(rt: HostRuntime) -> Result<(), Fail> {
    let heap = LocalHeap::new(rt.alloc(), HEAP)?;
    for row in rows() {
        gives_back(&rt, rt.alloc(), &heap, row)?;
    }
    Ok(())
}

// A pool is made, a large string is put into it, and it is cleared.
static LARGE: [[(Call, Answer); 1]; 3] = [
    [(Call::Create(0), Answer::Serial(1))],
    [(Call::Push(1, 7, 20_000), Answer::Place(0))],
    [(Call::Clear(1), Answer::Done)],
];

// What a heap has left after each of these.
fn left_around<'a, R: Abort>(
    rt: &R,
    alloc: Global,
    heap: &'a LocalHeap,
    tree: &mut PoolTree<&'a LocalHeap>,
) -> Result<[usize; 3], AllocError> {
    let mut left = [0; 3];
    for (left, row) in left.iter_mut().zip(&LARGE) {
        *left = left_by(rt, alloc, (heap, tree), row)?;
    }
    Ok(left)
}

fn left_around_in_new<R: Abort>(
    rt: &R,
    alloc: Global,
    heap: &LocalHeap,
) -> Result<[usize; 3], Fail> {
    let mut tree = PoolTree::new(heap)?;
    Ok(left_around(rt, alloc, heap, &mut tree)?)
}

#[test]
fn a_large_string_goes_back_when_its_pool_is_cleared(rt: HostRuntime) -> Result<(), Fail> {
    let heap = LocalHeap::new(rt.alloc(), HEAP)?;
    let [before, between, after] = left_around_in_new(&rt, rt.alloc(), &heap)?;
    assert!(rt; between.saturating_add(20_000) <= before);
    assert_eq!(rt; after, before);
    Ok(())
}
