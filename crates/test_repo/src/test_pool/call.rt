// The calls of a row, and what they return.
use std::alloc::{AllocError, Allocator, Global};
use std::process::Abort;
use svn_pool::{PoolFault, PoolId, PoolTree};

// A call on a tree. Pools are named by their serials; a string is one letter, repeated.
#[derive(Clone, Copy)]
pub(crate) enum Call {
    Root,
    // The parent.
    Create(u64),
    // The pool, and the string's letter and length.
    Push(u64, u8, usize),
    // The pool and the place.
    Get(u64, u32),
    Count(u64),
    // All strings of the pool are read.
    Strings(u64),
    Clear(u64),
    Destroy(u64),
    Counts,
}

#[derive(Clone, Copy, Debug, PartialEq, Eq)]
pub(crate) enum Answer {
    // The serial of a pool.
    Serial(u64),
    // The place of a string.
    Place(u32),
    // The letter of a string and its length.
    Text(u8, usize),
    // A string of several letters, which no row pushes.
    Mixed,
    // How many strings there are.
    Number(u32),
    // How many strings were read, and their bytes in all.
    Read(u32, usize),
    // Live pools, blocks in use, spare blocks.
    Counted(u64, u64, u64),
    Done,
    Nothing,
    Fault(PoolFault),
}

// Makes a call.
pub(crate) fn answer_of<A: Allocator + Copy>(
    alloc: Global,
    tree: &mut PoolTree<A>,
    call: Call,
) -> Result<Answer, AllocError> {
    Ok(match call {
        Call::Root => Answer::Serial(tree.root().0),
        Call::Create(parent) => create(tree, parent),
        Call::Push(pool, letter, length) => push(
            tree,
            pool,
            &Vec::from_elem(alloc, letter, length)?,
        ),
        Call::Get(pool, place) => get(tree, pool, place),
        Call::Count(pool) => count(tree, pool),
        Call::Strings(pool) => strings(tree, pool),
        Call::Clear(pool) => done(tree.clear(PoolId(pool))),
        Call::Destroy(pool) => done(tree.destroy(PoolId(pool))),
        Call::Counts => counts(tree),
    })
}

pub(crate) fn counts<A: Allocator + Copy>(tree: &PoolTree<A>) -> Answer {
    Answer::Counted(tree.live(), tree.blocks(), tree.spare())
}

fn done(answer: Result<(), PoolFault>) -> Answer {
    match answer {
        Ok(()) => Answer::Done,
        Err(fault) => Answer::Fault(fault),
    }
}

fn create<A: Allocator + Copy>(tree: &mut PoolTree<A>, parent: u64) -> Answer {
    match tree.create(PoolId(parent)) {
        Ok(child) => Answer::Serial(child.0),
        Err(fault) => Answer::Fault(fault),
    }
}

fn push<A: Allocator + Copy>(tree: &mut PoolTree<A>, pool: u64, string: &[u8]) -> Answer {
    match tree.push(PoolId(pool), string) {
        Ok(place) => Answer::Place(place),
        Err(fault) => Answer::Fault(fault),
    }
}

pub(crate) fn get<A: Allocator + Copy>(tree: &PoolTree<A>, pool: u64, place: u32) -> Answer {
    match tree.get(PoolId(pool), place) {
        Some(string) => text(string),
        None => Answer::Nothing,
    }
}

fn text(string: &[u8]) -> Answer {
    let Some(letter) = string.first() else {
        return Answer::Text(0, 0);
    };
    for byte in string {
        if *byte != *letter {
            return Answer::Mixed;
        }
    }
    Answer::Text(*letter, string.len())
}

pub(crate) fn count<A: Allocator + Copy>(tree: &PoolTree<A>, pool: u64) -> Answer {
    match tree.count(PoolId(pool)) {
        Some(number) => Answer::Number(number),
        None => Answer::Nothing,
    }
}

fn strings<A: Allocator + Copy>(tree: &PoolTree<A>, pool: u64) -> Answer {
    let mut reader = match tree.strings(PoolId(pool)) {
        Ok(reader) => reader,
        Err(fault) => return Answer::Fault(fault),
    };
    let mut bytes = 0usize;
    for read in 0..u32::MAX {
        let Some(string) = reader.next() else {
            return Answer::Read(read, bytes);
        };
        bytes = bytes.wrapping_add(string.len());
    }
    Answer::Read(u32::MAX, bytes)
}

// A call must return what its row has.
pub(crate) fn is_wanted<R: Abort>(rt: &R, at: usize, got: Answer, want: Answer) {
    assert_eq!(rt; got, want, "call {at}");
}

// Makes the calls of a row and compares their results.
pub(crate) fn run<R: Abort, A: Allocator + Copy>(
    rt: &R,
    alloc: Global,
    tree: &mut PoolTree<A>,
    row: &[(Call, Answer)],
) -> Result<(), AllocError> {
    for (at, (call, want)) in row.iter().enumerate() {
        let got = answer_of(alloc, tree, *call)?;
        is_wanted(rt, at, got, *want);
    }
    Ok(())
}
