// Repositories and copies as lists of steps.
use std::alloc::{AllocError, Global};
use std::test::Fail;
use svn_repo::{Change, Repo};
use svn_types::{PathFault, PropName, RelPath, Rev, Text};
use svn_wc::WorkingCopy;

// A step of a history: a change, or the commit of those before it.
#[derive(Clone, Copy)]
pub(crate) enum Step {
    MakeDir(&'static str),
    Put(&'static str, &'static str),
    SetProp(&'static str, &'static str, Option<&'static str>),
    Remove(&'static str),
    Copy(u64, &'static str, &'static str),
    Commit,
}

// How a copy is made: of a repository path at a revision, and then of other places.
#[derive(Clone, Copy)]
pub(crate) enum Build {
    Checkout(&'static str, u64),
    Place(&'static str, u64),
    Switch(&'static str, &'static str, u64),
    Forget(&'static str),
}

pub(crate) fn path_at(alloc: Global, text: &str) -> Result<RelPath, PathFault> {
    RelPath::parse(alloc, text)
}

fn text_of(alloc: Global, text: &str) -> Result<Text, AllocError> {
    Ok(Text::new(text.as_bytes().to_vec(alloc)?))
}

fn value_of(alloc: Global, value: Option<&str>) -> Result<Option<Text>, AllocError> {
    match value {
        Some(value) => Ok(Some(text_of(alloc, value)?)),
        None => Ok(None),
    }
}

fn put(alloc: Global, path: RelPath, text: &str) -> Result<Change, Fail> {
    let text = text_of(alloc, text)?;
    Ok(Change::PutFile { path, text })
}

fn set_prop(alloc: Global, path: RelPath, name: &str, value: Option<&str>) -> Result<Change, Fail> {
    let name = PropName::parse(alloc, name)?;
    let value = value_of(alloc, value)?;
    Ok(Change::SetProp { path, name, value })
}

fn copy(alloc: Global, path: RelPath, rev: u64, source: &str) -> Result<Change, Fail> {
    let source = path_at(alloc, source)?;
    Ok(Change::CopyFrom {
        rev: Rev(rev),
        source,
        path,
    })
}

// Where a step changes the repository, unless it is a commit.
fn changed_place(step: Step) -> Option<&'static str> {
    match step {
        Step::MakeDir(path)
        | Step::Put(path, _)
        | Step::SetProp(path, _, _)
        | Step::Remove(path)
        | Step::Copy(_, _, path) => Some(path),
        Step::Commit => None,
    }
}

// The change of a step at its path.
fn change_at(alloc: Global, path: RelPath, step: Step) -> Result<Change, Fail> {
    match step {
        Step::MakeDir(_) => Ok(Change::MakeDir { path }),
        Step::Put(_, text) => put(alloc, path, text),
        Step::SetProp(_, name, value) => set_prop(alloc, path, name, value),
        Step::Copy(rev, source, _) => copy(alloc, path, rev, source),
        _ => Ok(Change::Remove { path }),
    }
}

fn change_of(alloc: Global, step: Step, place: &str) -> Result<Change, Fail> {
    change_at(alloc, path_at(alloc, place)?, step)
}

fn commit(repo: &mut Repo, changes: &mut Vec<Change>) -> Result<(), Fail> {
    repo.commit(changes)?;
    changes.clear();
    Ok(())
}

fn take(alloc: Global, repo: &mut Repo, changes: &mut Vec<Change>, step: Step) -> Result<(), Fail> {
    match changed_place(step) {
        Some(place) => Ok(changes.push(change_of(alloc, step, place)?)?),
        None => commit(repo, changes),
    }
}

// The repository with these commits.
pub(crate) fn repository(alloc: Global, steps: &[Step]) -> Result<Repo, Fail> {
    let mut repo = Repo::new(alloc)?;
    let mut changes = Vec::new(alloc);
    for step in steps {
        take(alloc, &mut repo, &mut changes, *step)?;
    }
    Ok(repo)
}

fn checkout(
    alloc: Global,
    repo: &Repo,
    copy: &mut WorkingCopy,
    root: &str,
    rev: u64,
) -> Result<(), Fail> {
    let root = path_at(alloc, root)?;
    *copy = WorkingCopy::checkout_at(alloc, repo, &root, Rev(rev))?;
    Ok(())
}

fn switch(
    alloc: Global,
    repo: &Repo,
    copy: &mut WorkingCopy,
    at: &str,
    to: &str,
    rev: u64,
) -> Result<(), Fail> {
    let (at, to) = (path_at(alloc, at)?, path_at(alloc, to)?);
    Ok(copy.switch(repo, &at, &to, Rev(rev))?)
}

fn place(
    alloc: Global,
    repo: &Repo,
    copy: &mut WorkingCopy,
    path: &str,
    rev: u64,
) -> Result<(), Fail> {
    let path = path_at(alloc, path)?;
    Ok(copy.place(repo, &path, Rev(rev))?)
}

fn forget(alloc: Global, copy: &mut WorkingCopy, path: &str) -> Result<(), Fail> {
    let path = path_at(alloc, path)?;
    Ok(copy.forget(&path)?)
}

fn change_copy(
    alloc: Global,
    repo: &Repo,
    copy: &mut WorkingCopy,
    step: Build,
) -> Result<(), Fail> {
    match step {
        Build::Checkout(root, rev) => checkout(alloc, repo, copy, root, rev),
        Build::Place(path, rev) => place(alloc, repo, copy, path, rev),
        Build::Switch(path, to, rev) => switch(alloc, repo, copy, path, to, rev),
        Build::Forget(path) => forget(alloc, copy, path),
    }
}

// The copy that these steps make.
pub(crate) fn copy_of(alloc: Global, repo: &Repo, steps: &[Build]) -> Result<WorkingCopy, Fail> {
    let mut copy = WorkingCopy::checkout(alloc, repo, Rev(0))?;
    for step in steps {
        change_copy(alloc, repo, &mut copy, *step)?;
    }
    Ok(copy)
}
