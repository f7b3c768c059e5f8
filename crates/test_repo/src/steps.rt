//! The steps of a history.
use std::alloc::Global;
use std::test::Fail;
use svn_repo::{Change, PropName, RelPath, Repo, Rev, Text};

/// A change of what is at a path.
#[derive(Clone, Copy)]
pub(crate) enum Act {
    MakeDir,
    Put(&'static str),
    // a text of that many bytes
    PutLong(usize),
    // the value of the property `p`
    Set(&'static str),
    SetLong(usize),
    Unset,
    Remove,
    // what is at this path of this revision
    Copy(u64, &'static str),
}

/// One step of a history: changes, or the commit of those before it.
#[derive(Clone, Copy)]
pub(crate) enum Step {
    At(&'static str, Act),
    // at the path of that many names `a`
    Deep(usize, Act),
    // that many directories `a`, each in the one before
    Nest(usize),
    Commit,
}

// A text, repeated.
fn text_of(alloc: Global, text: &str, times: usize) -> Result<Text, Fail> {
    let text = text.repeat(alloc, times)?;
    Ok(Text::new(text.as_bytes().to_vec(alloc)?))
}

fn put(alloc: Global, path: RelPath, text: &str, times: usize) -> Result<Change, Fail> {
    let text = text_of(alloc, text, times)?;
    Ok(Change::PutFile { path, text })
}

fn set(alloc: Global, path: RelPath, value: Option<Text>) -> Result<Change, Fail> {
    let name = PropName::parse(alloc, "p")?;
    Ok(Change::SetProp { path, name, value })
}

fn set_to(alloc: Global, path: RelPath, value: &str, times: usize) -> Result<Change, Fail> {
    let value = text_of(alloc, value, times)?;
    set(alloc, path, Some(value))
}

fn copy(alloc: Global, path: RelPath, rev: u64, source: &str) -> Result<Change, Fail> {
    let source = RelPath::parse(alloc, source)?;
    let rev = Rev(rev);
    Ok(Change::CopyFrom { rev, source, path })
}

pub(crate) fn change_of(alloc: Global, path: RelPath, act: Act) -> Result<Change, Fail> {
    match act {
        Act::MakeDir => Ok(Change::MakeDir { path }),
        Act::Put(text) => put(alloc, path, text, 1),
        Act::PutLong(len) => put(alloc, path, "a", len),
        Act::Set(value) => set_to(alloc, path, value, 1),
        Act::SetLong(len) => set_to(alloc, path, "a", len),
        Act::Unset => set(alloc, path, None),
        Act::Remove => Ok(Change::Remove { path }),
        Act::Copy(rev, source) => copy(alloc, path, rev, source),
    }
}

fn push(alloc: Global, changes: &mut Vec<Change>, at: &str, act: Act) -> Result<(), Fail> {
    let path = RelPath::parse(alloc, at)?;
    let change = change_of(alloc, path, act)?;
    changes.push(change)?;
    Ok(())
}

fn push_deep(alloc: Global, changes: &mut Vec<Change>, depth: usize, act: Act) -> Result<(), Fail> {
    let text = "/a".repeat(alloc, depth)?;
    push(alloc, changes, text.as_str().trim_start_matches('/'), act)
}

fn push_nested(alloc: Global, changes: &mut Vec<Change>, depth: usize) -> Result<(), Fail> {
    for above in 0..depth {
        push_deep(alloc, changes, above + 1, Act::MakeDir)?;
    }
    Ok(())
}

// The new revision, or 100 and the fault's number.
fn answer_of(repo: &mut Repo, changes: &[Change]) -> u64 {
    match repo.commit(changes) {
        Ok(rev) => rev.0,
        Err(fault) => 100 + u64::from(fault.number()),
    }
}

fn push_answer(answer: u64, out: &mut String) -> Result<(), Fail> {
    write!(out, "{answer},")?;
    Ok(())
}

fn commit(repo: &mut Repo, changes: &mut Vec<Change>, out: &mut String) -> Result<(), Fail> {
    let answer = answer_of(repo, changes);
    changes.clear();
    push_answer(answer, out)
}

fn take(
    alloc: Global,
    repo: &mut Repo,
    changes: &mut Vec<Change>,
    step: Step,
    out: &mut String,
) -> Result<(), Fail> {
    match step {
        Step::At(path, act) => push(alloc, changes, path, act),
        Step::Deep(depth, act) => push_deep(alloc, changes, depth, act),
        Step::Nest(depth) => push_nested(alloc, changes, depth),
        Step::Commit => commit(repo, changes, out),
    }
}

/// Takes the steps in order, and writes the result of each commit.
pub(crate) fn take_all(
    alloc: Global,
    repo: &mut Repo,
    steps: &[Step],
    out: &mut String,
) -> Result<(), Fail> {
    let mut changes = Vec::new(alloc);
    for step in steps {
        take(alloc, repo, &mut changes, *step, out)?;
    }
    Ok(())
}
