//! Paths without their first names. A tail may lie in the memory of the whole path, and is the same path in all else.
use crate::parts::{Names, count, is_path, push_all, text_of};
use std::alloc::Global;
use std::process::Abort;
use std::test::Fail;
use svn_types::RelPath;

// The names that are left out, in one cut after the other. In a key each name has a byte more.
type Fronts = &'static [&'static [Names]];

static FRONTS: [Fronts; 29] = [
    // no name, one, four, five, 15 and 16
    &[],
    &[&[]],
    &[&[(1, 1)]],
    &[&[(4, 1)]],
    &[&[(5, 1)]],
    &[&[(15, 1)]],
    &[&[(16, 1)]],
    // keys of 63, 64 and 65 bytes
    &[&[(1, 62)]],
    &[&[(1, 63)]],
    &[&[(1, 64)]],
    &[&[(3, 15), (1, 14)]],
    &[&[(4, 15)]],
    &[&[(3, 15), (1, 16)]],
    &[&[(4, 12), (1, 11)]],
    // of 3,840, 4,095 and 4,096 bytes
    &[&[(15, 255)]],
    &[&[(15, 255), (1, 254)]],
    &[&[(16, 255)]],
    // a tail of a tail
    &[&[], &[(1, 1)]],
    &[&[(1, 1)], &[]],
    &[&[(1, 1)], &[(3, 1)]],
    &[&[(2, 1)], &[(3, 1)]],
    &[&[(4, 1)], &[(1, 1)]],
    &[&[(5, 1)], &[(1, 1)]],
    &[&[(1, 31)], &[(1, 31)]],
    &[&[(1, 31)], &[(1, 32)]],
    &[&[(14, 1)], &[(1, 1)]],
    &[&[(15, 1)], &[(1, 1)]],
    &[&[(8, 255)], &[(7, 255), (1, 254)]],
    &[&[(8, 255)], &[(8, 255)]],
];

// The names that are left. With none, the tail is the root.
static RESTS: [&[Names]; 8] = [
    &[],
    &[(1, 1)],
    &[(2, 9)],
    &[(3, 14)],
    &[(4, 1)],
    &[(1, 15)],
    &[(1, 250)],
    &[(20, 17), (60, 1)],
];

fn all_fronts() -> &'static [Fronts] {
    &FRONTS
}

fn rests() -> &'static [&'static [Names]] {
    &RESTS
}

fn whole(alloc: Global, fronts: Fronts, rest: &[Names]) -> Result<RelPath, Fail> {
    let mut text = String::new(alloc);
    for front in fronts {
        push_all(&mut text, front)?;
    }
    push_all(&mut text, rest)?;
    Ok(RelPath::parse(alloc, text.as_str())?)
}

fn tail(alloc: Global, fronts: Fronts, rest: &[Names]) -> Result<RelPath, Fail> {
    let mut path = whole(alloc, fronts, rest)?;
    for front in fronts {
        path = path.tail(alloc, count(front))?;
    }
    Ok(path)
}

fn is_rest(rt: &impl Abort, alloc: Global, path: &RelPath, rest: &[Names]) -> Result<(), Fail> {
    let text = text_of(alloc, rest)?;
    is_path(rt, alloc, path, text.as_str())
}

fn is_root(rt: &impl Abort, alloc: Global, path: &RelPath, more: usize) -> Result<(), Fail> {
    let count = path.components().len().saturating_add(more);
    let root = path.tail(alloc, count)?;
    is_path(rt, alloc, &root, "")
}

// Without all its names a tail is the root, and without more names than it has.
fn ends(rt: &impl Abort, alloc: Global, path: &RelPath) -> Result<(), Fail> {
    is_root(rt, alloc, path, 0)?;
    is_root(rt, alloc, path, 1)?;
    is_root(rt, alloc, path, usize::MAX)
}

fn leaves(rt: &impl Abort, alloc: Global, fronts: Fronts, rest: &[Names]) -> Result<(), Fail> {
    let path = tail(alloc, fronts, rest)?;
    is_rest(rt, alloc, &path, rest)?;
    ends(rt, alloc, &path)
}

fn leaves_all(rt: &impl Abort, alloc: Global, fronts: Fronts) -> Result<(), Fail> {
    for rest in rests() {
        leaves(rt, alloc, fronts, rest)?;
    }
    Ok(())
}

#[test]
fn a_tail_is_the_path_of_the_other_names(rt: HostRuntime) -> Result<(), Fail> {
    for fronts in all_fronts() {
        leaves_all(&rt, rt.alloc(), fronts)?;
    }
    Ok(())
}
