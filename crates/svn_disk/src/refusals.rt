//! What is in the way of a change, by name, before anything is changed.

use crate::above::above_of;
use crate::existing::Existing;
use crate::fault::DiskFault;
use crate::local::refuse_local;
use crate::on_disk::{Found, find, refuse_edit};
use crate::plan::{Change, Plan};
use std::alloc::Global;
use svn_folder::Folder;
use svn_model::BaseNode;
use svn_types::RelPath;

// A folder beside a plan.
#[derive(Drop)]
struct Beside<'a, F> {
    alloc: Global,
    folder: &'a F,
    plan: &'a Plan<'a>,
}

impl<F: Folder> Beside<'_, F> {
    // Refuses a file or a link where the directory above something should be: nothing is written through a link. One that changes itself is looked at with
    // what changes.
    fn refuse_above(&self, path: &RelPath) -> Result<(), DiskFault> {
        if self.plan.changes_on_disk(path) {
            return Ok(());
        }
        match find(self.alloc, self.folder, path)? {
            Found::Leaf(_) => Err(DiskFault::NoDirectory(path.clone()?)),
            Found::Nothing | Found::Directory => Ok(()),
        }
    }

    // Refuses the same above all that changes.
    fn refuse_all_above(&self) -> Result<(), DiskFault> {
        for path in &self.plan.above_changes(self.alloc)? {
            self.refuse_above(path)?;
        }
        Ok(())
    }

    // Whether a path becomes a file, or is in a directory that does.
    fn becomes_file(&self, path: &RelPath) -> Result<bool, DiskFault> {
        if self.plan.changes.get(path) == Some(&Change::Replaced) {
            return Ok(true);
        }
        for above in above_of(self.alloc, path)? {
            if self.plan.changes.get(&above) == Some(&Change::Replaced) {
                return Ok(true);
            }
        }
        Ok(false)
    }

    // Refuses what is in a directory and isn't the copy's.
    fn refuse_others_in(&self, path: &RelPath) -> Result<(), DiskFault> {
        for name in self.folder.list(self.alloc, path)? {
            let below = path.join(self.alloc, &name)?;
            let is_own = match self.plan.was.get(&below) {
                Some(node) => node.is_present(),
                None => false,
            };
            if !is_own {
                return Err(DiskFault::InTheWay(below));
            }
        }
        Ok(())
    }

    // Refuses what is at the path of a directory that goes. What isn't the copy's stays in it, and it stays with that, unless it becomes a file.
    fn refuse_directory(&self, path: &RelPath) -> Result<(), DiskFault> {
        match find(self.alloc, self.folder, path)? {
            Found::Nothing => Ok(()),
            Found::Leaf(_) => Err(DiskFault::NoDirectory(path.clone()?)),
            Found::Directory => {
                if self.becomes_file(path)? {
                    self.refuse_others_in(path)
                } else {
                    Ok(())
                }
            }
        }
    }

    // Refuses whatever is at a path that something is made at.
    fn refuse_any(&self, path: &RelPath) -> Result<(), DiskFault> {
        match find(self.alloc, self.folder, path)? {
            Found::Nothing => Ok(()),
            Found::Directory | Found::Leaf(_) => Err(DiskFault::InTheWay(path.clone()?)),
        }
    }

    // Refuses what is at the path of a node that goes or becomes another.
    fn refuse_node(&self, path: &RelPath, node: &BaseNode) -> Result<(), DiskFault> {
        if node.is_directory() {
            self.refuse_directory(path)
        } else {
            refuse_edit(self.alloc, self.folder, path, node)
        }
    }

    // Refuses what is at a path that changes.
    fn refuse_at(&self, path: &RelPath, change: Change) -> Result<(), DiskFault> {
        match (change, self.plan.was.get(path)) {
            (Change::Recorded | Change::Bumped, _) => Ok(()),
            (Change::Removed | Change::Replaced | Change::Rewritten, Some(node)) => {
                self.refuse_node(path, node)
            }
            _ => self.refuse_any(path),
        }
    }

    // Refuses the first of all.
    fn refuse_all(&self) -> Result<(), DiskFault> {
        for (path, change) in &self.plan.changes {
            self.refuse_at(path, *change)?;
        }
        Ok(())
    }
}

/// Refuses a change of a copy. Local at the first local change that is in the way; NoDirectory at the first directory above something that changes
/// where something else is on disk; then at the first path that changes NoDirectory where the copy has a directory and the disk hasn't, Changed where a
/// file on disk has another text than the copy's, InTheWay where something is on disk that the copy doesn't have. Where nothing changes on disk nothing there
/// is looked at, so that an edited file stays whose text doesn't change. Folder, Path, Memory.
pub(crate) fn refuse<F: Folder>(
    alloc: Global,
    folder: &F,
    existing: &Existing,
    plan: &Plan<'_>,
) -> Result<(), DiskFault> {
    refuse_local(alloc, &existing.tables, plan)?;
    let beside = Beside {
        alloc,
        folder,
        plan,
    };
    beside.refuse_all_above()?;
    beside.refuse_all()
}
