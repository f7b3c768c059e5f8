// The changes of a commit: `mkdir PATH`, `put PATH [TEXT]`, `prop PATH NAME [VALUE]`, `remove PATH` and `copy REV SOURCE PATH`.
use crate::words::{path, revision, text, value, word};
use std::alloc::Global;
use std::test::Fail;
use svn_repo::Change;
use svn_types::{PropName, RelPath};

fn put(alloc: Global, step: &str, path: RelPath) -> Result<Change, Fail> {
    let text = text(alloc, step, 2)?;
    Ok(Change::PutFile { path, text })
}

fn set_prop(alloc: Global, step: &str, path: RelPath) -> Result<Change, Fail> {
    let name = PropName::parse(alloc, word(step, 2))?;
    let value = value(alloc, step, 3)?;
    Ok(Change::SetProp { path, name, value })
}

fn copy(alloc: Global, step: &str) -> Result<Change, Fail> {
    let rev = revision(step, 1);
    let source = path(alloc, step, 2)?;
    let path = path(alloc, step, 3)?;
    Ok(Change::CopyFrom { rev, source, path })
}

fn change_at(alloc: Global, step: &str, path: RelPath) -> Result<Change, Fail> {
    match word(step, 0) {
        "mkdir" => Ok(Change::MakeDir { path }),
        "put" => put(alloc, step, path),
        "remove" => Ok(Change::Remove { path }),
        _ => set_prop(alloc, step, path),
    }
}

// The change of a step.
pub(crate) fn change(alloc: Global, step: &str) -> Result<Change, Fail> {
    if word(step, 0) == "copy" {
        return copy(alloc, step);
    }
    change_at(alloc, step, path(alloc, step, 1)?)
}
