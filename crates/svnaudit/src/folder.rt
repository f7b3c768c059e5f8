//! The folder of a working copy.

use crate::database::Database;
use crate::fault::Fault;
use std::alloc::Global;
use std::fs;
use std::path::PathBuf;
use std::rt::Files;
use svn_types::{PathFault, RelPath};

/// The folder of a working copy, and where in it the folder is that was named.
#[derive(Drop)]
pub(crate) struct Folder {
    root: PathBuf,
    below: RelPath,
}

fn has_database<T: Files + AllocGlobal>(rt: &T, root: &PathBuf) -> Result<bool, Fault> {
    Database::of(rt.alloc(), root)?.exists(rt)
}

// A path of the working copy, as the system gives it.
fn path_below(alloc: Global, below: &str) -> Result<RelPath, Fault> {
    match RelPath::parse(alloc, below) {
        Ok(path) => Ok(path),
        Err(PathFault::Memory) => Err(Fault::Memory),
        Err(fault) => Err(Fault::BadPath(fault)),
    }
}

// The whole path of what a word names.
fn canonical<T: Files + AllocGlobal>(rt: &T, word: &str) -> Result<PathBuf, Fault> {
    match fs::canonicalize(rt, word) {
        Ok(here) => Ok(here),
        Err(error) => Err(Fault::Unread(error)),
    }
}

// The folder of a working copy, in which another was named.
fn folder_of(alloc: Global, root: PathBuf, here: &PathBuf) -> Result<Folder, Fault> {
    match here.strip_prefix(&root) {
        Ok(below) => Ok(Folder {
            below: path_below(alloc, below.as_str())?,
            root,
        }),
        Err(_) => Err(Fault::NoCopy),
    }
}

// The folder above, or above that, which is that of a working copy.
fn find_above<T: Files + AllocGlobal>(rt: &T, word: &str) -> Result<Folder, Fault> {
    let alloc = rt.alloc();
    let here = canonical(rt, word)?;
    let mut root = PathBuf::from_str(alloc, here.as_str())?;
    for _ in 0..here.as_str().len() {
        if !root.pop() {
            break;
        }
        if has_database(rt, &root)? {
            return folder_of(alloc, root, &here);
        }
    }
    Err(Fault::NoCopy)
}

// Refuses what isn't a folder.
fn refuse_file<T: Files>(rt: &T, word: &str) -> Result<(), Fault> {
    match fs::metadata(rt, word) {
        Ok(found) if found.is_dir() => Ok(()),
        Ok(_) => Err(Fault::NoFolder),
        Err(error) => Err(Fault::Unread(error)),
    }
}

impl Folder {
    /// The folder that a word names, or the one above it that is a working copy's.
    pub(crate) fn find<T: Files + AllocGlobal>(rt: &T, word: &str) -> Result<Folder, Fault> {
        refuse_file(rt, word)?;
        let root = PathBuf::from_str(rt.alloc(), word)?;
        if has_database(rt, &root)? {
            return Ok(Folder {
                root,
                below: RelPath::root(rt.alloc()),
            });
        }
        find_above(rt, word)
    }

    /// Where in the working copy the folder is that was named.
    pub(crate) fn below(&self) -> &RelPath {
        &self.below
    }

    /// The working copy's database.
    pub(crate) fn database(&self, alloc: Global) -> Result<Database, Fault> {
        Database::of(alloc, &self.root)
    }

    /// A file at a path of the folder that was named.
    pub(crate) fn working_file(&self, alloc: Global, path: &str) -> Result<PathBuf, Fault> {
        if self.below.is_root() {
            return self.file(alloc, path);
        }
        let below = &self.below;
        let name = format!(in alloc; "{below}/{path}")?;
        self.file(alloc, &name)
    }

    /// A file of the working copy's own.
    pub(crate) fn file(&self, alloc: Global, name: &str) -> Result<PathBuf, Fault> {
        Ok(self.root.join(alloc, name)?)
    }
}
