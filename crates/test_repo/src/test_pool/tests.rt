// The rows with ample memory.
use crate::test_pool::call::{Answer, Call, run};
use crate::test_pool::rows::{
    BRANCH, HALVES, HALVES_AND_EMPTY, LAST_SERIAL, LENGTHS, LONG_AND_SHORT, ONE_BEHIND_THE_OTHER,
    REFUSALS,
};
use std::alloc::Global;
use std::process::Abort;
use std::test::Fail;
use svn_pool::{PoolFault, PoolTree};

// Makes the calls of rows, one row after the other.
fn run_all<R: Abort>(
    rt: &R,
    alloc: Global,
    tree: &mut PoolTree<Global>,
    rows: &[&[(Call, Answer)]],
) -> Result<(), Fail> {
    for row in rows {
        run(rt, alloc, tree, row)?;
    }
    Ok(())
}

// The same in a new tree.
fn from_new<R: Abort>(rt: &R, alloc: Global, rows: &[&[(Call, Answer)]]) -> Result<(), Fail> {
    let mut tree = PoolTree::new(alloc)?;
    run_all(rt, alloc, &mut tree, rows)
}

#[test]
fn clears_a_branch(rt: HostRuntime) -> Result<(), Fail> {
    from_new(&rt, rt.alloc(), &[&BRANCH])
}

#[test]
fn holds_strings_of_all_lengths(rt: HostRuntime) -> Result<(), Fail> {
    from_new(&rt, rt.alloc(), &[&LENGTHS, &REFUSALS])
}

#[test]
fn fills_blocks(rt: HostRuntime) -> Result<(), Fail> {
    from_new(&rt, rt.alloc(), &[&HALVES])?;
    from_new(&rt, rt.alloc(), &[&HALVES_AND_EMPTY])?;
    from_new(&rt, rt.alloc(), &[&LONG_AND_SHORT])
}

#[test]
fn gives_a_block_to_the_next_pool(rt: HostRuntime) -> Result<(), Fail> {
    from_new(&rt, rt.alloc(), &[&ONE_BEHIND_THE_OTHER])
}

#[test]
fn runs_out_of_serials(rt: HostRuntime) -> Result<(), Fail> {
    let mut tree = PoolTree::new_from(rt.alloc(), u64::MAX)?;
    run_all(&rt, rt.alloc(), &mut tree, &[&LAST_SERIAL])
}

static FAULTS: [(PoolFault, &str); 5] = [
    (PoolFault::Gone, "1 the pool is gone"),
    (PoolFault::Memory, "2 out of memory"),
    (PoolFault::TooLong, "3 the string has over 1,048,576 bytes"),
    (PoolFault::IsRoot, "4 the root pool can't be destroyed"),
    (PoolFault::Full, "5 no serial, place or block is left"),
];

// The number of a fault and its text.
fn told(alloc: Global, fault: PoolFault) -> Result<String, Fail> {
    Ok(format!(in alloc; "{} {fault}", fault.number())?)
}

#[test]
fn faults_have_numbers_and_texts(rt: HostRuntime) -> Result<(), Fail> {
    for (fault, text) in &FAULTS {
        let told = told(rt.alloc(), *fault)?;
        assert_eq!(rt; told.as_str(), *text);
    }
    Ok(())
}
