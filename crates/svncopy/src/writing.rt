//! The folder in which a copy is changed.

use crate::fault::Fault;
use std::fs::File;
use std::path::PathBuf;
use std::rt::Files;
use std::thread::Threads;
use svn_folder::{FileMaker, Locks, SyncedFolder, WriteBehind};

/// The folder at a path of the system, whose new files are written later, many at once. Without syncs it keeps nothing of what isn't on the disk yet.
pub(crate) fn folder_to_write<
    'a,
    T: Files<File = File> + Threads + Locks + FileMaker + AllocGlobal,
>(rt: &'a T, path: &str, sync: bool) -> Result<SyncedFolder<WriteBehind<'a, T>>, Fault> {
    let alloc = rt.alloc();
    let folder = WriteBehind::new(rt, PathBuf::from_str(alloc, path)?);
    Ok(if sync {
        SyncedFolder::new(alloc, folder)
    } else {
        SyncedFolder::unmarked(alloc, folder)
    })
}
