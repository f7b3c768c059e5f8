//! What a transaction returns, change by change.
use crate::steps::{Act, change_of};
use std::alloc::Global;
use std::process::Abort;
use std::test::Fail;
use svn_repo::{Kind, RelPath, Repo, Transaction};

#[derive(Clone, Copy)]
enum Step {
    At(&'static str, Act),
    Look(&'static str),
    Commit,
    Abort,
    // the repository, and the next transaction
    Close,
}

struct Row {
    steps: &'static [Step],
    told: &'static str,
}

fn word(text: &str, out: &mut String) -> Result<(), Fail> {
    out.push_str(text)?;
    Ok(())
}

fn kind_of(open: &Transaction, path: &RelPath) -> &'static str {
    match open.kind(path) {
        None => "none",
        Some(Kind::File) => "file ",
        Some(Kind::Directory) => "directory",
    }
}

fn look_at_text(
    alloc: Global,
    open: &Transaction,
    path: &RelPath,
    out: &mut String,
) -> Result<(), Fail> {
    if let Some(text) = open.text(path) {
        let text = String::from_utf8_lossy(alloc, text.as_slice())?;
        word(text.as_str(), out)?;
    }
    Ok(())
}

fn look_at_props(open: &Transaction, path: &RelPath, out: &mut String) -> Result<(), Fail> {
    if let Some(props) = open.props(path) {
        write!(out, " {}", props.len())?;
    }
    Ok(())
}

fn look(alloc: Global, open: &Transaction, path: &str, out: &mut String) -> Result<(), Fail> {
    let path = RelPath::parse(alloc, path)?;
    word(kind_of(open, &path), out)?;
    look_at_text(alloc, open, &path, out)?;
    look_at_props(open, &path, out)
}

fn change(
    alloc: Global,
    open: &mut Transaction,
    path: &str,
    act: Act,
    out: &mut String,
) -> Result<(), Fail> {
    let path = RelPath::parse(alloc, path)?;
    let change = change_of(alloc, path, act)?;
    match open.change(&change) {
        Ok(()) => word("ok", out),
        Err(fault) => word(fault.name(), out),
    }
}

fn commit(open: &mut Transaction, out: &mut String) -> Result<(), Fail> {
    match open.commit() {
        Ok(rev) => write!(out, "r{}", rev.0)?,
        Err(fault) => word(fault.name(), out)?,
    }
    write!(out, " latest {}", open.latest().0)?;
    Ok(())
}

// Takes a step, and writes what is returned.
fn answer(
    alloc: Global,
    open: Transaction,
    step: Step,
    out: &mut String,
) -> Result<Transaction, Fail> {
    let mut open = open;
    match step {
        Step::At(path, act) => change(alloc, &mut open, path, act, out)?,
        Step::Look(path) => look(alloc, &open, path, out)?,
        Step::Commit => commit(&mut open, out)?,
        Step::Abort => open.abort(),
        Step::Close => return Ok(open.into_repo().begin()),
    }
    Ok(open)
}

fn told(alloc: Global, steps: &[Step]) -> Result<String, Fail> {
    let mut out = String::new(alloc);
    let mut open = Repo::new(alloc)?.begin();
    for step in steps {
        open = answer(alloc, open, *step, &mut out)?;
        out.push(',')?;
    }
    Ok(out)
}

static ROWS: &[Row] = &[Row {
    steps: &[
        Step::Look(""),
        Step::At("d", Act::MakeDir),
        Step::At("d/f", Act::Put("a")),
        Step::Look("d/f"),
        Step::At("d/f", Act::Set("1")),
        Step::At("d/f", Act::Put("abc")),
        Step::Look("d/f"),
        Step::Commit,
        Step::Look("d/f"),
        Step::At("d", Act::Remove),
        Step::Look("d/f"),
        Step::Abort,
        Step::Look("d/f"),
        Step::At("d", Act::MakeDir),
        Step::At("e", Act::Copy(1, "d")),
        Step::At("e/f", Act::Unset),
        Step::Look("e/f"),
        Step::Look("d"),
        Step::Close,
        Step::Look("e"),
        Step::At("e", Act::Copy(2, "d")),
        Step::At("e", Act::Copy(1, "d")),
        Step::Commit,
        Step::At("x", Act::Copy(2, "e")),
        Step::Look("x/f"),
        Step::Commit,
        Step::Commit,
    ],
    told: "directory 0,ok,ok,file a 0,ok,ok,file abc 1,r1 latest 1,file abc 1,ok,none,,file abc 1,Exists,ok,ok,file abc 0,directory 0,,none,NoSuchRevision,ok,r2 latest 2,ok,file abc 1,r3 latest 3,r4 latest 4,",
}];

fn is_told(rt: &impl Abort, alloc: Global, row: &Row) -> Result<(), Fail> {
    let found = told(alloc, row.steps)?;
    assert_eq!(rt; found.as_str(), row.told);
    Ok(())
}

#[test]
fn changes_are_seen_at_once(rt: HostRuntime) -> Result<(), Fail> {
    for row in ROWS {
        is_told(&rt, rt.alloc(), row)?;
    }
    Ok(())
}
