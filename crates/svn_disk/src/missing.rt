//! What of a copy isn't on disk any more, though nothing says that it was taken away.

use crate::existing::{Existing, is_base, path_of};
use crate::fault::DiskFault;
use std::alloc::Global;
use std::collections::BTreeSet;
use svn_folder::{Entry, Folder, FolderFault};
use svn_types::{Name, RelPath};
use svn_wcdb::TableRow;

// What is looked for, and what is known of the disk so far.
#[derive(Drop)]
struct Looking<'a, F> {
    alloc: Global,
    folder: &'a F,
    existing: &'a Existing,
    // The paths with a local change: nothing is missed there.
    local: BTreeSet<RelPath>,
    // What is on disk in the directories that could be listed.
    there: BTreeSet<RelPath>,
    // The directories that couldn't, since a name in them is none that a path may have.
    unlisted: BTreeSet<RelPath>,
}

impl<F: Folder> Looking<'_, F> {
    // Notes the paths of rows that are local, which of ACTUAL_NODE all are.
    fn note_local(&mut self, rows: &[TableRow], all: bool) -> Result<(), DiskFault> {
        for row in rows {
            if all || !is_base(row) {
                if let Some(path) = path_of(self.alloc, row)? {
                    self.local.insert(path)?;
                }
            }
        }
        Ok(())
    }

    // Notes the names that a directory has.
    fn note_names(&mut self, directory: &RelPath, names: &[Name]) -> Result<(), DiskFault> {
        for name in names {
            self.there.insert(directory.join(self.alloc, name)?)?;
        }
        Ok(())
    }

    // Whether a directory of the copy is one on disk.
    fn is_on_disk(&self, directory: &RelPath) -> Result<bool, DiskFault> {
        if directory.is_root() {
            return Ok(true);
        }
        if !self.has(directory)? {
            return Ok(false);
        }
        Ok(matches!(
            self.folder.look(self.alloc, directory)?,
            Some(Entry::Directory)
        ))
    }

    // Lists a directory of the copy.
    fn list(&mut self, directory: &RelPath) -> Result<(), DiskFault> {
        if !self.is_on_disk(directory)? {
            return Ok(());
        }
        match self.folder.list(self.alloc, directory) {
            Ok(names) => self.note_names(directory, &names),
            Err(FolderFault::Path(_)) => {
                self.unlisted.insert(directory.clone()?)?;
                Ok(())
            }
            Err(fault) => Err(DiskFault::from(fault)),
        }
    }

    // Lists the directories of the copy, those above first.
    fn list_all(&mut self) -> Result<(), DiskFault> {
        let existing = self.existing;
        for (path, node) in existing.copy.iter() {
            if node.is_directory() {
                self.list(path)?;
            }
        }
        Ok(())
    }

    // Whether something is at a path.
    fn has(&self, path: &RelPath) -> Result<bool, DiskFault> {
        if self.there.contains(path) {
            return Ok(true);
        }
        match path.parent(self.alloc)? {
            Some(parent) if self.unlisted.contains(&parent) => {
                Ok(self.folder.look(self.alloc, path)?.is_some())
            }
            _ => Ok(false),
        }
    }

    // Whether the directory above a path is on disk, or missing too: not one that a local change may have taken away.
    fn is_reached(&self, missing: &BTreeSet<RelPath>, path: &RelPath) -> Result<bool, DiskFault> {
        match path.parent(self.alloc)? {
            Some(parent) => {
                Ok(parent.is_root() || missing.contains(&parent) || self.has(&parent)?)
            }
            None => Ok(false),
        }
    }

    // Whether a node is missing, once it is known which of those above are.
    fn is_missing(&self, missing: &BTreeSet<RelPath>, path: &RelPath) -> Result<bool, DiskFault> {
        if self.local.contains(path) || self.has(path)? {
            return Ok(false);
        }
        self.is_reached(missing, path)
    }

    // The nodes at a path and below that are missing.
    fn missing(&self, below: &RelPath) -> Result<BTreeSet<RelPath>, DiskFault> {
        let mut missing = BTreeSet::new(self.alloc);
        for (path, node) in self.existing.copy.iter() {
            if node.is_present() && path.is_within(below) && self.is_missing(&missing, path)? {
                missing.insert(path.clone()?)?;
            }
        }
        Ok(missing)
    }
}

/// The nodes of a copy, at a path and below, that aren't on disk, in path order; without those at which there is a local change, which may have taken them
/// away. Folder, Path, Memory.
pub fn missing_nodes<F: Folder>(
    alloc: Global,
    folder: &F,
    existing: &Existing,
    below: &RelPath,
) -> Result<BTreeSet<RelPath>, DiskFault> {
    let mut looking = Looking {
        alloc,
        folder,
        existing,
        local: BTreeSet::new(alloc),
        there: BTreeSet::new(alloc),
        unlisted: BTreeSet::new(alloc),
    };
    looking.note_local(&existing.tables.nodes, false)?;
    looking.note_local(&existing.tables.actual_node, true)?;
    looking.list_all()?;
    looking.missing(below)
}
