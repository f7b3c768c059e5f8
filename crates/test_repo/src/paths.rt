//! The ways up and down paths.
use crate::parts::shown;
use Question::{Join, Last, Parent, Within};
use std::alloc::Global;
use std::process::Abort;
use std::test::Fail;
use svn_types::{Name, RelPath};

fn path(alloc: Global, text: &str) -> Result<RelPath, Fail> {
    Ok(RelPath::parse(alloc, text)?)
}

// What is asked of a path.
#[derive(Clone, Copy)]
enum Question {
    // the path with this name more
    Join(&'static str),
    Parent,
    Last,
    // whether it is within this one
    Within(&'static str),
}

fn word(alloc: Global, word: &str) -> Result<String, Fail> {
    Ok(String::from_str(alloc, word)?)
}

fn path_word(alloc: Global, path: &RelPath) -> Result<String, Fail> {
    if path.is_root() {
        word(alloc, "root")
    } else {
        shown(alloc, path)
    }
}

fn joined(alloc: Global, path: &RelPath, name: &str) -> Result<String, Fail> {
    let name = Name::parse(alloc, name)?;
    match path.join(alloc, &name) {
        Ok(joined) => path_word(alloc, &joined),
        Err(fault) => Ok(format!(in alloc; "fault {}", fault.number())?),
    }
}

fn parent(alloc: Global, path: &RelPath) -> Result<String, Fail> {
    match path.parent(alloc)? {
        Some(parent) => path_word(alloc, &parent),
        None => word(alloc, "none"),
    }
}

fn last(alloc: Global, path: &RelPath) -> Result<String, Fail> {
    match path.last_name() {
        Some(name) => word(alloc, name.as_str()),
        None => word(alloc, "none"),
    }
}

fn within(alloc: Global, below: &RelPath, above: &str) -> Result<String, Fail> {
    let above = path(alloc, above)?;
    word(alloc, if below.is_within(&above) { "yes" } else { "no" })
}

fn answer(alloc: Global, path: &RelPath, question: Question) -> Result<String, Fail> {
    match question {
        Join(name) => joined(alloc, path, name),
        Parent => parent(alloc, path),
        Last => last(alloc, path),
        Within(above) => within(alloc, path, above),
    }
}

fn answer_at(alloc: Global, at: &str, question: Question) -> Result<String, Fail> {
    answer(alloc, &path(alloc, at)?, question)
}

// A path, the question and its result.
type Row = (&'static str, Question, &'static str);

static ROWS: [Row; 10] = [
    ("a", Join("b"), "a/b"),
    ("a/b/c", Parent, "a/b"),
    ("a", Parent, "root"),
    ("", Parent, "none"),
    ("a/b", Last, "b"),
    ("", Last, "none"),
    ("a/b", Within("a"), "yes"),
    ("a", Within("a"), "yes"),
    ("ab", Within("a"), "no"),
    ("a", Within("a/b"), "no"),
];

fn rows() -> &'static [Row] {
    &ROWS
}

fn is_answered(rt: &impl Abort, alloc: Global, row: &Row) -> Result<(), Fail> {
    let found = answer_at(alloc, row.0, row.1)?;
    assert_eq!(rt; found.as_str(), row.2, "of {}", row.0);
    Ok(())
}

#[test]
fn paths_lead_up_and_down(rt: HostRuntime) -> Result<(), Fail> {
    for row in rows() {
        is_answered(&rt, rt.alloc(), row)?;
    }
    Ok(())
}
