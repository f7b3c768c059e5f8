//! Paths of few and of many names, of short and of long ones: they lie in memory in different ways, and are alike in all else.
use std::alloc::Global;
use std::process::Abort;
use std::test::Fail;
use svn_types::{PathFault, RelPath};

// In path order. A name of 14 bytes is the longest that is short, and a path of one, two or three of them the longest that lies in one block.
// The first 16 bytes of a key decide most comparisons, eight at a time: rows that begin with `abcdef` are alike in 6 to 8.
static ROWS: [&str; 18] = [
    "",
    "a",
    "a/a",
    "a/a/a",
    "a/a/a/a",
    "a/a/a/a23456789012345",
    "a/a23456789012345",
    "a2345678901234",
    "a2345678901234/a2345678901234/a2345678901234",
    "a2345678901234/a2345678901234/a23456789012345",
    "a23456789012345",
    "a23456789012345/a/a/a/a/a/a/a/a/a/a/a/a/a/a/a/a/a/a/a/a/a/a/a/a/a",
    "abcdefg",
    "abcdefg/b",
    "abcdefga",
    "abcdefgb",
    "abcdefh",
    "é",
];

fn rows() -> &'static [&'static str] {
    &ROWS
}

// The path that is made of a text's names one by one.
fn joined(alloc: Global, text: &str) -> Result<RelPath, PathFault> {
    let parsed = RelPath::parse(alloc, text)?;
    let mut path = RelPath::root(alloc);
    for name in parsed.components() {
        path = path.join(alloc, name)?;
    }
    Ok(path)
}

// The path of a text as the rest of a longer one.
fn cut(alloc: Global, text: &str) -> Result<RelPath, PathFault> {
    let above = RelPath::parse(alloc, "above")?;
    let longer = above.join_path(alloc, &RelPath::parse(alloc, text)?)?;
    Ok(longer.tail(alloc, 1)?)
}

// Whether it is that path, and so is its clone.
fn is_same(path: &RelPath, parsed: &RelPath) -> Result<bool, Fail> {
    Ok(path == parsed && path.clone()? == *parsed)
}

// Whether a path is the parent of the one below it.
fn is_parent(alloc: Global, path: &RelPath) -> Result<bool, Fail> {
    let name = RelPath::parse(alloc, "b")?;
    let below = path.join_path(alloc, &name)?;
    match below.parent(alloc)? {
        Some(above) => Ok(above == *path),
        None => Ok(false),
    }
}

fn is_one(alloc: Global, text: &str, path: &RelPath) -> Result<bool, Fail> {
    let parsed = RelPath::parse(alloc, text)?;
    Ok(is_same(path, &parsed)? && is_parent(alloc, path)?)
}

// Whether it is that path however it is made, and is it again as the parent of one below.
fn are_one(alloc: Global, text: &str) -> Result<bool, Fail> {
    Ok(is_one(alloc, text, &joined(alloc, text)?)? && is_one(alloc, text, &cut(alloc, text)?)?)
}

#[test]
fn a_path_is_one_however_it_is_made(rt: HostRuntime) -> Result<(), Fail> {
    for text in rows() {
        let are_one = are_one(rt.alloc(), text)?;
        assert!(rt; are_one, "{text}");
    }
    Ok(())
}

fn is_before(alloc: Global, text: &str, next: &str) -> Result<bool, PathFault> {
    Ok(RelPath::parse(alloc, text)? < RelPath::parse(alloc, next)?)
}

fn comes_before(rt: &impl Abort, alloc: Global, text: &str, next: &str) -> Result<(), Fail> {
    let is_before = is_before(alloc, text, next)?;
    assert!(rt; is_before, "{text} before {next}");
    Ok(())
}

#[test]
fn paths_of_all_forms_are_in_order(rt: HostRuntime) -> Result<(), Fail> {
    for (text, next) in rows().iter().zip(rows().iter().skip(1)) {
        comes_before(&rt, rt.alloc(), text, next)?;
    }
    Ok(())
}
