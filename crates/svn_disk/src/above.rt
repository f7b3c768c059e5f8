//! The directories above a path.

use crate::fault::DiskFault;
use std::alloc::Global;
use std::collections::BTreeSet;
use svn_types::RelPath;

/// The directories above a path, from the nearest, without the root.
pub(crate) fn above_of(alloc: Global, path: &RelPath) -> Result<Vec<RelPath>, DiskFault> {
    let mut all = Vec::new(alloc);
    let mut last = path.clone()?;
    'names: for _ in 0..path.components().len() {
        let Some(parent) = last.parent(alloc)? else {
            break 'names;
        };
        if parent.is_root() {
            break 'names;
        }
        last = parent.clone()?;
        all.push(parent)?;
    }
    Ok(all)
}

/// Adds them to others.
pub(crate) fn note_above(
    alloc: Global,
    directories: &mut BTreeSet<RelPath>,
    path: &RelPath,
) -> Result<(), DiskFault> {
    for directory in above_of(alloc, path)? {
        directories.insert(directory)?;
    }
    Ok(())
}
