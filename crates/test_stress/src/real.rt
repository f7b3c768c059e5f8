//! The library's values for those of the model.

use crate::plain::{Edit, PROP_NAMES, PlainPath, Raw, Word};
use crate::stop::Result;
use std::alloc::Global;
use svn_update::{Change, PropName, RelPath, Rev, Text};

pub(crate) fn path(alloc: Global, place: PlainPath) -> Result<RelPath> {
    let raw = Raw(place);
    let text = format!(in alloc; "{raw}")?;
    Ok(RelPath::parse(alloc, text.as_str())?)
}

fn text(alloc: Global, word: Word) -> Result<Text> {
    Ok(Text::new(Vec::from_slice(alloc, word.raw().as_bytes())?))
}

fn prop_name(alloc: Global, name: usize) -> Result<PropName> {
    let name = PROP_NAMES.get(name).copied().unwrap_or("");
    Ok(PropName::parse(alloc, name)?)
}

fn value(alloc: Global, value: Option<Word>) -> Result<Option<Text>> {
    match value {
        Some(word) => Ok(Some(text(alloc, word)?)),
        None => Ok(None),
    }
}

fn put_file(alloc: Global, path: RelPath, word: Word) -> Result<Change> {
    let text = text(alloc, word)?;
    Ok(Change::PutFile { path, text })
}

fn set_prop(alloc: Global, path: RelPath, name: usize, word: Option<Word>) -> Result<Change> {
    let name = prop_name(alloc, name)?;
    let value = value(alloc, word)?;
    Ok(Change::SetProp { path, name, value })
}

fn copy_from(alloc: Global, rev: u64, from: PlainPath, at: RelPath) -> Result<Change> {
    let source = path(alloc, from)?;
    Ok(Change::CopyFrom {
        rev: Rev(rev),
        source,
        path: at,
    })
}

/// A change of a commit.
pub(crate) fn change(alloc: Global, edit: Edit) -> Result<Change> {
    let path = path(alloc, edit.path())?;
    match edit {
        Edit::MakeDir { .. } => Ok(Change::MakeDir { path }),
        Edit::Put { text, .. } => put_file(alloc, path, text),
        Edit::Prop { name, value, .. } => set_prop(alloc, path, name, value),
        Edit::Remove { .. } => Ok(Change::Remove { path }),
        Edit::CopyFrom { rev, source, .. } => copy_from(alloc, rev, source, path),
    }
}
