//! Working copies within a working copy.

use crate::database::Database;
use crate::fault::Fault;
use crate::folder::Folder;
use crate::several::Several;
use std::alloc::Global;
use std::collections::BTreeMap;
use std::io::ErrorKind;
use std::path::PathBuf;
use std::rt::Files;
use std::{fs, io};
use svn_answers::Source;
use svn_model::BaseNode;
use svn_types::RelPath;
use svn_wcdb::BaseTree;

/// The names of a copy's files, by their directories.
type FileNames<'a> = BTreeMap<RelPath, Vec<&'a str>>;

// Adds the name of a file.
fn add_name<'a>(alloc: Global, names: &mut FileNames<'a>, path: &'a RelPath) -> Result<(), Fault> {
    let (Some(directory), Some(name)) = (path.parent(alloc)?, path.last_name()) else {
        return Ok(());
    };
    if let Some(there) = names.get_mut(&directory) {
        there.push(name.as_str())?;
        return Ok(());
    }
    let mut one = Vec::new(alloc);
    one.push(name.as_str())?;
    names.insert(directory, one)?;
    Ok(())
}

fn file_names<'a>(alloc: Global, tree: &'a BaseTree) -> Result<FileNames<'a>, Fault> {
    let mut names = BTreeMap::new(alloc);
    for (path, node) in &tree.nodes {
        if let BaseNode::File { .. } = node {
            add_name(alloc, &mut names, path)?;
        }
    }
    Ok(names)
}

// What can't be listed or looked at is passed over, unless an allocation failed.
fn or_none<X: Drop>(found: io::Result<X>) -> Result<Option<X>, Fault> {
    match found {
        Ok(found) => Ok(Some(found)),
        Err(error) if error.kind() == ErrorKind::OutOfMemory => Err(Fault::Memory),
        Err(_) => Ok(None),
    }
}

// Whether there is a working copy's database in a folder.
fn is_copy<T: Files + AllocGlobal>(rt: &T, root: &PathBuf) -> Result<bool, Fault> {
    Ok(or_none(fs::exists(rt, Database::file_in(rt.alloc(), root)?))? == Some(true))
}

/// A directory of a copy.
#[derive(Clone, Copy)]
struct Place<'a> {
    folder: &'a Folder,
    path: &'a RelPath,
    // the names of its files, in order, at which there is no other copy: the system isn't asked for each
    files: &'a [&'a str],
}

impl Place<'_> {
    // Where it is in the system.
    fn directory(&self, alloc: Global) -> Result<PathBuf, Fault> {
        let path = format!(in alloc; "{}", self.path)?;
        self.folder.working_file(alloc, &path)
    }
}

// Whether what has this name in a directory is a working copy of its own.
fn is_nested<T: Files + AllocGlobal>(
    rt: &T,
    place: &Place<'_>,
    directory: &PathBuf,
    name: &str,
) -> Result<bool, Fault> {
    Ok(
        place.files.binary_search(&name).is_err()
            && is_copy(rt, &directory.join(rt.alloc(), name)?)?,
    )
}

// Adds the folders in a directory that are working copies of their own.
fn add_nested_in<T: Files + AllocGlobal + Clone + Drop>(
    rt: &T,
    place: &Place<'_>,
    nested: &mut Several,
) -> Result<(), Fault> {
    let directory = place.directory(rt.alloc())?;
    let Some(entries) = or_none(fs::read_dir(rt, &directory))? else {
        return Ok(());
    };
    for entry in entries {
        let Some(entry) = or_none(entry)? else {
            return Ok(());
        };
        let name = entry.file_name();
        if is_nested(rt, place, &directory, name)? {
            let path = format!(in rt.alloc(); "{}/{name}", place.path)?;
            nested.add(path.trim_start_matches("./"))?;
        }
    }
    Ok(())
}

fn nested_of<T: Files + AllocGlobal + Clone + Drop>(
    rt: &T,
    folder: &Folder,
    tree: &BaseTree,
) -> Result<Several, Fault> {
    let mut nested = Several::new(rt.alloc());
    let mut names = file_names(rt.alloc(), tree)?;
    for (path, node) in &tree.nodes {
        if let BaseNode::Dir { .. } = node {
            let mut files = match names.remove(path) {
                Some(files) => files,
                None => Vec::new(rt.alloc()),
            };
            files.sort_unstable();
            let place = Place {
                folder,
                path,
                files: &files,
            };
            add_nested_in(rt, &place, &mut nested)?;
        }
    }
    nested.sort();
    Ok(nested)
}

/// Says which folders beside the nodes of a copy, or at its directories, are working copies of their own, also of other repositories. Where this can't be
/// written, the answer alone tells.
pub(crate) fn tell_nested<T: Files + Eprint + AllocGlobal + Clone + Drop>(
    rt: &T,
    name: &str,
    folder: &Folder,
    tree: &BaseTree,
) -> Result<(), Fault> {
    let nested = nested_of(rt, folder, tree)?;
    if !nested.is_empty() {
        let name = Source(name);
        let _ = eprintln!(rt; "svnaudit: {name}: working copies of their own are in it: {nested}");
    }
    Ok(())
}

fn has_externals(node: &BaseNode) -> bool {
    match node {
        BaseNode::Dir { props, .. } => props
            .iter()
            .any(|(name, _)| name.as_str() == "svn:externals"),
        BaseNode::File { .. } | BaseNode::NotPresent => false,
    }
}

/// Says which directories have externals. Where this can't be written, the answer alone tells.
pub(crate) fn tell_externals<T: Eprint + AllocGlobal>(
    rt: &T,
    name: &str,
    tree: &BaseTree,
) -> Result<(), Fault> {
    let alloc = rt.alloc();
    let mut directories = Several::new(alloc);
    for (path, node) in &tree.nodes {
        if has_externals(node) {
            directories.add(&format!(in alloc; "{path}")?)?;
        }
    }
    directories.sort();
    if !directories.is_empty() {
        let name = Source(name);
        let _ = eprintln!(rt;
            "svnaudit: {name}: each folder that svn:externals bring is a working copy of its own; they are at: {directories}"
        );
    }
    Ok(())
}
