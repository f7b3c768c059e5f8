// Heaps that run out: a refused call changes nothing, and gives its result once there is memory.
use crate::test_pool::call::{Answer, Call, answer_of, counts, is_wanted, run};
use crate::test_pool::rows::{
    BRANCH, EXHAUSTED, HALVES, HALVES_AND_EMPTY, LENGTHS, LONG_AND_SHORT,
};
use linked_list_allocator::LocalHeap;
use std::alloc::{AllocError, Global};
use std::process::Abort;
use std::test::Fail;
use svn_pool::{PoolFault, PoolTree};

// More than a row needs.
const HEAP: usize = 65_536;

// The heap gives memory in units of that many bytes.
const UNIT: usize = 16;

// By that many bytes a heap grows from one run of a row to the next. No allocation of a tree is smaller, so none is passed over.
const STEP: usize = 32;

// Memory that is kept from a tree until it is refused some.
type Held<'a> = Option<Vec<u8, &'a LocalHeap>>;

// A tree on a heap that is partly held.
#[derive(Drop)]
struct Scarce<'a> {
    tree: PoolTree<&'a LocalHeap>,
    held: Held<'a>,
}

impl<'a> Scarce<'a> {
    fn new(heap: &'a LocalHeap, held: Vec<u8, &'a LocalHeap>) -> Result<Scarce<'a>, PoolFault> {
        if let Ok(tree) = PoolTree::new(heap) {
            return Ok(Scarce {
                tree,
                held: Some(held),
            });
        }
        drop(held);
        let tree = PoolTree::new(heap)?;
        Ok(Scarce { tree, held: None })
    }

    // Makes a call, and if it runs out of memory gives the held part back and makes it again.
    fn answer<R: Abort>(
        &mut self,
        rt: &R,
        alloc: Global,
        call: Call,
    ) -> Result<Answer, AllocError> {
        let before = counts(&self.tree);
        let first = answer_of(alloc, &mut self.tree, call)?;
        if first != Answer::Fault(PoolFault::Memory) {
            return Ok(first);
        }
        assert_eq!(rt; counts(&self.tree), before);
        self.held = None;
        answer_of(alloc, &mut self.tree, call)
    }
}

// Makes the calls of a row, and compares their results.
fn are_answered<R: Abort>(
    rt: &R,
    alloc: Global,
    scarce: &mut Scarce,
    row: &[(Call, Answer)],
) -> Result<(), AllocError> {
    for (at, (call, want)) in row.iter().enumerate() {
        let got = scarce.answer(rt, alloc, *call)?;
        is_wanted(rt, at, got, *want);
    }
    Ok(())
}

// A tree on a heap that is held except for that many steps.
fn scarce_on(heap: &LocalHeap, steps: usize) -> Result<Scarce<'_>, PoolFault> {
    let held = Vec::with_capacity(heap, HEAP.saturating_sub(steps.saturating_mul(STEP)))?;
    Scarce::new(heap, held)
}

// Runs a row with that many steps of the heap at first, and returns whether a call was refused.
fn is_refused<R: Abort>(
    rt: &R,
    alloc: Global,
    steps: usize,
    row: &[(Call, Answer)],
) -> Result<bool, Fail> {
    let heap = LocalHeap::new(alloc, HEAP)?;
    let mut scarce = scarce_on(&heap, steps)?;
    are_answered(rt, alloc, &mut scarce, row)?;
    Ok(scarce.held.is_none())
}

// Runs a row with ever more memory, so that each allocation is the first to be refused, until none is.
fn sweep<R: Abort>(rt: &R, alloc: Global, row: &[(Call, Answer)]) -> Result<(), Fail> {
    for steps in 0..HEAP / STEP {
        if !is_refused(rt, alloc, steps, row)? {
            assert!(rt; steps > 0);
            return Ok(());
        }
    }
    Err(Fail::new("the heap is too small"))
}

#[test]
fn branch_goes_on_after_refusals(rt: HostRuntime) -> Result<(), Fail> {
    sweep(&rt, rt.alloc(), &BRANCH)
}

#[test]
fn lengths_go_on_after_refusals(rt: HostRuntime) -> Result<(), Fail> {
    sweep(&rt, rt.alloc(), &LENGTHS)
}

#[test]
fn blocks_go_on_after_refusals(rt: HostRuntime) -> Result<(), Fail> {
    sweep(&rt, rt.alloc(), &HALVES)?;
    sweep(&rt, rt.alloc(), &HALVES_AND_EMPTY)?;
    sweep(&rt, rt.alloc(), &LONG_AND_SHORT)
}

// Sixty pools below the root, three below each of the first twenty, and their end.
fn forest(alloc: Global) -> Result<Vec<(Call, Answer)>, AllocError> {
    let mut row = Vec::new(alloc);
    for parent in 0..20u64 {
        for child in 1..4u64 {
            row.push((Call::Create(parent), Answer::Serial(3 * parent + child)))?;
        }
    }
    row.push((Call::Counts, Answer::Counted(61, 0, 0)))?;
    row.push((Call::Clear(0), Answer::Done))?;
    row.push((Call::Counts, Answer::Counted(1, 0, 0)))?;
    Ok(row)
}

#[test]
fn forest_goes_on_after_refusals(rt: HostRuntime) -> Result<(), Fail> {
    let row = forest(rt.alloc())?;
    sweep(&rt, rt.alloc(), &row)
}

// Memory that is taken from a heap.
type Pieces<'a> = Vec<Vec<u8, &'a LocalHeap>>;

// Takes pieces of that size until there is no other.
fn take_pieces<'a>(
    heap: &'a LocalHeap,
    size: usize,
    pieces: &mut Pieces<'a>,
) -> Result<(), AllocError> {
    for _ in 0..HEAP {
        let Ok(piece) = Vec::from_elem(heap, 0u8, size) else {
            return Ok(());
        };
        pieces.push(piece)?;
    }
    Ok(())
}

// Takes what is left of a heap, down to the last unit.
fn take_rest<'a>(alloc: Global, heap: &'a LocalHeap) -> Result<Pieces<'a>, AllocError> {
    let mut pieces = Vec::new(alloc);
    for size in [4096usize, 256, UNIT] {
        take_pieces(heap, size, &mut pieces)?;
    }
    Ok(pieces)
}

// Makes the calls of a row, and of another while nothing is left of the heap.
fn run_and_without<R: Abort>(
    rt: &R,
    alloc: Global,
    heap: &LocalHeap,
    tree: &mut PoolTree<&LocalHeap>,
) -> Result<(), AllocError> {
    run(rt, alloc, tree, &BRANCH)?;
    let _pieces = take_rest(alloc, heap)?;
    assert_eq!(rt; heap.free(), 0);
    run(rt, alloc, tree, &EXHAUSTED)
}

fn goes_on<R: Abort>(rt: &R, alloc: Global, heap: &LocalHeap) -> Result<(), Fail> {
    let mut tree = PoolTree::new(heap)?;
    Ok(run_and_without(rt, alloc, heap, &mut tree)?)
}

#[test]
fn goes_on_without_memory(rt: HostRuntime) -> Result<(), Fail> {
    let heap = LocalHeap::new(rt.alloc(), HEAP)?;
    goes_on(&rt, rt.alloc(), &heap)
}
