//! A history that was made here, written as a dump and loaded again.

use super::history::{load_all, loader_of, trees};
use anyhow::Result;
use std::alloc::Global;
use svn_dump::Texts;
use svn_history::{HistoryWriter, push_beginning, push_commit};
use svn_repo::{Change, Repo};
use svn_types::{PropName, RelPath, Rev, Text};

// A change by its paths and a value.
#[derive(Clone, Copy)]
enum Step {
    Commit,
    MakeDir(&'static str),
    PutFile(&'static str, &'static str),
    SetProp(&'static str, &'static str),
    RemoveProp(&'static str),
    Remove(&'static str),
    Copy(u64, &'static str, &'static str),
}

static STEPS: [Step; 19] = [
    Step::MakeDir("trunk"),
    Step::MakeDir("trunk/lib"),
    Step::PutFile("trunk/lib/a.c", "int main;\n"),
    Step::SetProp("trunk/lib/a.c", "native"),
    Step::PutFile("trunk/empty", ""),
    Step::Commit,
    Step::Copy(1, "trunk", "branch"),
    Step::PutFile("branch/lib/a.c", "int other;\n"),
    Step::SetProp("branch", "two\nlines"),
    Step::Commit,
    Step::Commit,
    Step::RemoveProp("branch/lib/a.c"),
    Step::SetProp("", ""),
    Step::Remove("trunk/lib"),
    Step::PutFile("trunk/lib", "K 3\nV"),
    Step::Commit,
    Step::Copy(2, "branch/lib", "trunk/old"),
    Step::Remove("trunk/old/a.c"),
    Step::Commit,
];

fn path_of(alloc: Global, text: &str) -> Result<RelPath> {
    Ok(RelPath::parse(alloc, text)?)
}

fn text_of(alloc: Global, text: &str) -> Result<Text> {
    Ok(Text::from_slice(alloc, text.as_bytes())?)
}

fn make_dir(alloc: Global, path: &str) -> Result<Change> {
    let path = path_of(alloc, path)?;
    Ok(Change::MakeDir { path })
}

fn put_file(alloc: Global, path: &str, text: &str) -> Result<Change> {
    let path = path_of(alloc, path)?;
    let text = text_of(alloc, text)?;
    Ok(Change::PutFile { path, text })
}

fn prop_change(alloc: Global, path: &str, value: Option<Text>) -> Result<Change> {
    let path = path_of(alloc, path)?;
    let name = PropName::parse(alloc, "svn:eol-style")?;
    Ok(Change::SetProp { path, name, value })
}

fn set_prop(alloc: Global, path: &str, value: &str) -> Result<Change> {
    let value = text_of(alloc, value)?;
    prop_change(alloc, path, Some(value))
}

fn remove(alloc: Global, path: &str) -> Result<Change> {
    let path = path_of(alloc, path)?;
    Ok(Change::Remove { path })
}

fn copy(alloc: Global, rev: u64, source: &str, path: &str) -> Result<Change> {
    let source = path_of(alloc, source)?;
    let path = path_of(alloc, path)?;
    Ok(Change::CopyFrom {
        rev: Rev(rev),
        source,
        path,
    })
}

// The change of a step; none where it is a commit.
fn change_of(alloc: Global, step: Step) -> Option<Result<Change>> {
    match step {
        Step::Commit => None,
        Step::MakeDir(path) => Some(make_dir(alloc, path)),
        Step::PutFile(path, text) => Some(put_file(alloc, path, text)),
        Step::SetProp(path, value) => Some(set_prop(alloc, path, value)),
        Step::RemoveProp(path) => Some(prop_change(alloc, path, None)),
        Step::Remove(path) => Some(remove(alloc, path)),
        Step::Copy(rev, source, path) => Some(copy(alloc, rev, source, path)),
    }
}

fn commit(dump: &mut Vec<u8>, writer: &mut HistoryWriter, changes: &mut Vec<Change>) -> Result<()> {
    push_commit(dump, writer, changes)?;
    changes.clear();
    Ok(())
}

fn steps() -> &'static [Step] {
    &STEPS
}

fn take(
    dump: &mut Vec<u8>,
    writer: &mut HistoryWriter,
    changes: &mut Vec<Change>,
    step: Step,
) -> Result<()> {
    match change_of(*dump.allocator(), step) {
        Some(change) => Ok(changes.push(change?)?),
        None => commit(dump, writer, changes),
    }
}

fn make_all(dump: &mut Vec<u8>, writer: &mut HistoryWriter) -> Result<()> {
    let mut changes = Vec::new(*dump.allocator());
    for step in steps() {
        take(dump, writer, &mut changes, *step)?;
    }
    Ok(())
}

// The history as a dump, and as the repository that it was written of.
fn written(alloc: Global) -> Result<(Vec<u8>, Repo)> {
    let mut dump = Vec::new(alloc);
    let mut writer = HistoryWriter::new(alloc, Repo::new(alloc)?);
    push_beginning(&mut dump)?;
    make_all(&mut dump, &mut writer)?;
    Ok((dump, writer.into_repo()))
}

fn loaded(alloc: Global, dump: &[u8]) -> Result<Repo> {
    let mut loader = loader_of(alloc, dump, Texts::Whole)?;
    load_all(&mut loader)?;
    Ok(loader.into_repo())
}

/// One if the history is another when it is loaded, and else none.
pub fn loaded_wrongly(alloc: Global) -> Result<usize> {
    let (dump, repo) = written(alloc)?;
    let again = loaded(alloc, &dump)?;
    Ok(usize::from(trees(alloc, &repo)? != trees(alloc, &again)?))
}
