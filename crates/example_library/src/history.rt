//! Histories as tables of steps.
use anyhow::Result;
use std::alloc::Global;
use yumbeltir::{Change, PropName, RelPath, Repo, Rev, Text};

/// What a revision changes at a path: it puts a file, makes a directory, copies what revision 1 has at another path, removes the node, or sets the property
/// `p`.
#[derive(Clone, Copy)]
pub(crate) enum Step {
    Put(&'static str),
    MakeDir,
    Copy(&'static str),
    Remove,
    Set(&'static str),
}

/// A path and what is changed there.
pub(crate) type Row = (&'static str, Step);

fn text(alloc: Global, text: &str) -> Result<Text> {
    Ok(Text::from_slice(alloc, text.as_bytes())?)
}

fn put(alloc: Global, path: RelPath, bytes: &str) -> Result<Change> {
    let text = text(alloc, bytes)?;
    Ok(Change::PutFile { path, text })
}

fn copy(alloc: Global, path: RelPath, source: &str) -> Result<Change> {
    let (rev, source) = (Rev(1), RelPath::parse(alloc, source)?);
    Ok(Change::CopyFrom { rev, source, path })
}

fn set(alloc: Global, path: RelPath, value: &str) -> Result<Change> {
    let (name, value) = (PropName::parse(alloc, "p")?, Some(text(alloc, value)?));
    Ok(Change::SetProp { path, name, value })
}

fn change(alloc: Global, path: RelPath, step: Step) -> Result<Change> {
    match step {
        Step::Put(bytes) => put(alloc, path, bytes),
        Step::MakeDir => Ok(Change::MakeDir { path }),
        Step::Copy(source) => copy(alloc, path, source),
        Step::Remove => Ok(Change::Remove { path }),
        Step::Set(value) => set(alloc, path, value),
    }
}

fn push(alloc: Global, changes: &mut Vec<Change>, row: &Row) -> Result<()> {
    let path = RelPath::parse(alloc, row.0)?;
    changes.push(change(alloc, path, row.1)?)?;
    Ok(())
}

fn changes(alloc: Global, rows: &[Row]) -> Result<Vec<Change>> {
    let mut changes = Vec::new(alloc);
    for row in rows {
        push(alloc, &mut changes, row)?;
    }
    Ok(changes)
}

/// A repository with a revision for each list of rows.
pub(crate) fn repository(alloc: Global, revisions: &[&[Row]]) -> Result<Repo> {
    let mut repo = Repo::new(alloc)?;
    for rows in revisions {
        repo.commit(&changes(alloc, rows)?)?;
    }
    Ok(repo)
}
