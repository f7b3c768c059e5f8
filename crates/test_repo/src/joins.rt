//! Paths that are joined: the names of one after those of another.
use crate::parts::{Names, is_path, text_of};
use std::alloc::Global;
use std::process::Abort;
use std::test::Fail;
use svn_types::{Name, PathFault, RelPath};

// None, one, two and three names.
static ABOVE: [&str; 4] = ["", "a", "a/b", "a/b/g"];

static BELOW: [&str; 4] = ["", "c", "c/de", "c/de/f"];

fn above_rows() -> &'static [&'static str] {
    &ABOVE
}

fn below_rows() -> &'static [&'static str] {
    &BELOW
}

fn joined_text(alloc: Global, above: &str, below: &str) -> Result<String, Fail> {
    let mut text = String::from_str(alloc, above)?;
    if !above.is_empty() && !below.is_empty() {
        text.push('/')?;
    }
    text.push_str(below)?;
    Ok(text)
}

fn joined(alloc: Global, above: &str, below: &str) -> Result<RelPath, PathFault> {
    let above = RelPath::parse(alloc, above)?;
    above.join_path(alloc, &RelPath::parse(alloc, below)?)
}

fn are_joined(rt: &impl Abort, alloc: Global, above: &str, below: &str) -> Result<(), Fail> {
    let path = joined(alloc, above, below)?;
    let text = joined_text(alloc, above, below)?;
    is_path(rt, alloc, &path, text.as_str())
}

fn all_are_joined(rt: &impl Abort, alloc: Global, above: &str) -> Result<(), Fail> {
    for below in below_rows() {
        are_joined(rt, alloc, above, below)?;
    }
    Ok(())
}

#[test]
fn short_paths_are_joined(rt: HostRuntime) -> Result<(), Fail> {
    for above in above_rows() {
        all_are_joined(&rt, rt.alloc(), above)?;
    }
    Ok(())
}

// The names above and below.
type Two = (&'static [Names], &'static [Names]);

static LONG: [Two; 8] = [
    (&[(2, 1)], &[(126, 1)]),
    (&[(128, 1)], &[]),
    (&[], &[(128, 1)]),
    (&[(3, 14)], &[(3, 14)]),
    (&[(1, 14)], &[(2, 14)]),
    (&[(1, 14)], &[(1, 15)]),
    (&[(1, 15)], &[(1, 14)]),
    (&[(1, 255)], &[(16, 255), (1, 1)]),
];

fn long_rows() -> &'static [Two] {
    &LONG
}

fn long_are_joined(rt: &impl Abort, alloc: Global, two: &Two) -> Result<(), Fail> {
    let above = text_of(alloc, two.0)?;
    let below = text_of(alloc, two.1)?;
    are_joined(rt, alloc, above.as_str(), below.as_str())
}

#[test]
fn long_paths_are_joined(rt: HostRuntime) -> Result<(), Fail> {
    for two in long_rows() {
        long_are_joined(&rt, rt.alloc(), two)?;
    }
    Ok(())
}

fn long_path(alloc: Global, rows: &[Names]) -> Result<RelPath, Fail> {
    Ok(RelPath::parse(alloc, text_of(alloc, rows)?.as_str())?)
}

fn fault_of(joined: Result<RelPath, PathFault>) -> Option<PathFault> {
    match joined {
        Ok(_) => None,
        Err(fault) => Some(fault),
    }
}

fn fault_of_two(alloc: Global, two: &Two) -> Result<Option<PathFault>, Fail> {
    let above = long_path(alloc, two.0)?;
    let below = long_path(alloc, two.1)?;
    Ok(fault_of(above.join_path(alloc, &below)))
}

fn fault_of_name(alloc: Global, above: &[Names], name: &str) -> Result<Option<PathFault>, Fail> {
    let above = long_path(alloc, above)?;
    let name = Name::parse(alloc, name)?;
    Ok(fault_of(above.join(alloc, &name)))
}

static TOO_DEEP: [Two; 2] = [(&[(3, 1)], &[(126, 1)]), (&[(128, 1)], &[(1, 1)])];

#[test]
fn a_path_has_at_most_128_names(rt: HostRuntime) -> Result<(), Fail> {
    for two in &TOO_DEEP {
        let fault = fault_of_two(rt.alloc(), two)?;
        assert!(rt; fault == Some(PathFault::TooManyComponents));
    }
    Ok(())
}

#[test]
fn no_name_is_joined_to_128(rt: HostRuntime) -> Result<(), Fail> {
    let fault = fault_of_name(rt.alloc(), &[(128, 1)], "b")?;
    assert!(rt; fault == Some(PathFault::TooManyComponents));
    Ok(())
}
