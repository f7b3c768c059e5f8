//! Steps, taken again.

use anyhow::Result;
use std::alloc::{AllocError, Global};
use svn_folder::{Folder, MemoryFolder, Step};

// The same step.
fn again(step: &Step) -> Result<Step, AllocError> {
    Ok(match step {
        Step::Make {
            path,
            entry,
            modified,
        } => Step::Make {
            path: path.clone()?,
            entry: entry.clone()?,
            modified: *modified,
        },
        Step::SyncFile(path) => Step::SyncFile(path.clone()?),
        Step::SyncDirectory(path) => Step::SyncDirectory(path.clone()?),
        Step::Rename { from, to } => Step::Rename {
            from: from.clone()?,
            to: to.clone()?,
        },
        Step::RenameDirectory { from, to } => Step::RenameDirectory {
            from: from.clone()?,
            to: to.clone()?,
        },
        Step::RemoveFile(path) => Step::RemoveFile(path.clone()?),
        Step::RemoveDirectory(path) => Step::RemoveDirectory(path.clone()?),
    })
}

/// The folder that has taken so many of these steps: what a run leaves that is stopped after them.
pub(crate) fn replay(alloc: Global, steps: &[Step], count: usize) -> Result<MemoryFolder> {
    let mut folder = MemoryFolder::new(alloc);
    for step in steps.iter().take(count) {
        folder.take(again(step)?)?;
    }
    Ok(folder)
}
