//! The folder of a working copy that a word names, or names something in.

use crate::fault::Fault;
use std::alloc::Global;
use std::fs;
use std::path::PathBuf;
use std::rt::Files;
use svn_types::{PathFault, RelPath};

/// The folder of a working copy, and what of it a word names.
#[derive(Drop)]
pub(crate) struct Root {
    /// The folder, from the root of the system.
    pub(crate) folder: PathBuf,
    /// The path in it.
    pub(crate) path: RelPath,
}

// Whether a folder has a working copy. What is no folder, or can't be looked at, has none.
fn has_copy<T: Files + AllocGlobal>(rt: &T, folder: &PathBuf) -> Result<bool, Fault> {
    match fs::exists(rt, &folder.join(rt.alloc(), ".svn/wc.db")?) {
        Ok(exists) => Ok(exists),
        Err(_) => Ok(false),
    }
}

fn is_directory<T: Files>(rt: &T, word: &str) -> bool {
    match fs::metadata(rt, word) {
        Ok(found) => found.is_dir(),
        Err(_) => false,
    }
}

fn whole_path<T: Files + AllocGlobal>(rt: &T, word: &str) -> Result<PathBuf, Fault> {
    match fs::canonicalize(rt, word) {
        Ok(path) => Ok(path),
        Err(error) => Err(Fault::NoFolder(error)),
    }
}

// The path of what a word names from the root of the system. What is no directory needn't be there, and is no link's target.
fn path_of<T: Files + AllocGlobal>(rt: &T, word: &str) -> Result<PathBuf, Fault> {
    if is_directory(rt, word) {
        return whole_path(rt, word);
    }
    let (above, name) = word.rsplit_once('/').unwrap_or((".", word));
    let above = if above.is_empty() { "/" } else { above };
    Ok(whole_path(rt, above)?.join(rt.alloc(), name)?)
}

// What of a path is below a folder.
fn path_below(alloc: Global, path: &PathBuf, folder: &PathBuf) -> Result<RelPath, Fault> {
    let Ok(below) = path.strip_prefix(folder) else {
        return Err(Fault::BadPath(PathFault::Dots));
    };
    if below.as_str().is_empty() {
        return Ok(RelPath::root(alloc));
    }
    match RelPath::parse(alloc, below.as_str()) {
        Ok(path) => Ok(path),
        Err(PathFault::Memory) => Err(Fault::Memory),
        Err(fault) => Err(Fault::BadPath(fault)),
    }
}

impl Root {
    /// The working copy that a word names, or the next one above what it names. NoFolder, NoCopy, BadPath, Memory.
    pub(crate) fn find<T: Files + AllocGlobal>(rt: &T, word: &str) -> Result<Root, Fault> {
        let alloc = rt.alloc();
        let path = path_of(rt, word)?;
        let mut folder = PathBuf::from_str(alloc, path.as_str())?;
        for _ in 0..path.as_str().len() {
            if has_copy(rt, &folder)? {
                return Ok(Root {
                    path: path_below(alloc, &path, &folder)?,
                    folder,
                });
            }
            if !folder.pop() {
                break;
            }
        }
        Err(Fault::NoCopy)
    }
}
