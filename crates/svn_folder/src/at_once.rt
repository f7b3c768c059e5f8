//! Work on many files in several threads.

use crate::new_file::{NewFile, Unmade, make_share};
use std::alloc::{AllocError, Global};
use std::fs::File;
use std::thread::{JoinHandle, Threads};
use std::{io, thread};
use svn_types::RelPath;

/// A file that was opened, and its path.
#[derive(Drop)]
pub(crate) struct Opened {
    pub(crate) path: RelPath,
    pub(crate) file: File,
}

/// A file that couldn't be synced, and what the system says.
#[derive(Drop)]
pub(crate) struct SyncFault {
    pub(crate) path: RelPath,
    pub(crate) error: io::Error,
}

// Some of the files: a thread works on them, or that was done here. None failed, or the first that did is known.
#[derive(Drop)]
enum Share<X> {
    Running(JoinHandle<Option<X>>),
    Ended(Option<X>),
}

// Syncs files one after the other, up to the first that fails.
fn sync_share(files: Vec<Opened>) -> Option<SyncFault> {
    for opened in files {
        let Opened { path, file } = opened;
        if let Err(error) = file.sync_all() {
            return Some(SyncFault { path, error });
        }
    }
    None
}

// In a thread of its own; where none can be made, in this one.
fn begin_syncs<R: Threads>(rt: &R, files: Vec<Opened>) -> Share<SyncFault> {
    match thread::spawn(rt, move || sync_share(files)) {
        Ok(thread) => Share::Running(thread),
        Err(refused) => Share::Ended((refused.value)()),
    }
}

// The same for new files.
fn begin_making<R: Threads>(rt: &R, system: HostRuntime, files: Vec<NewFile>) -> Share<Unmade> {
    match thread::spawn(rt, move || make_share(system, files)) {
        Ok(thread) => Share::Running(thread),
        Err(refused) => Share::Ended((refused.value)()),
    }
}

fn end<R: Threads, X: Send + Drop>(rt: &R, share: Share<X>) -> Option<X> {
    match share {
        Share::Running(thread) => thread.join(rt),
        Share::Ended(fault) => fault,
    }
}

// Waits for all, and returns the first that failed.
fn end_all<R: Threads, X: Send + Drop>(rt: &R, shares: Vec<Share<X>>) -> Option<X> {
    let mut first = None;
    for share in shares {
        let fault = end(rt, share);
        if first.is_none() {
            first = fault;
        }
    }
    first
}

/// Syncs each share of the files in a thread of its own, and waits for all. The first file that fails is returned, none if all are synced; of the
/// share that it is in, those after it aren't synced. AllocError if an allocation fails.
pub(crate) fn sync_at_once<R: Threads>(
    rt: &R,
    alloc: Global,
    shares: Vec<Vec<Opened>>,
) -> Result<Option<SyncFault>, AllocError> {
    // so that no thread is left running when an allocation fails
    let mut begun = Vec::with_capacity(alloc, shares.len())?;
    for files in shares {
        begun.push(begin_syncs(rt, files))?;
    }
    Ok(end_all(rt, begun))
}

/// The same for new files.
pub(crate) fn make_at_once<R: Threads>(
    rt: &R,
    system: HostRuntime,
    alloc: Global,
    shares: Vec<Vec<NewFile>>,
) -> Result<Option<Unmade>, AllocError> {
    let mut begun = Vec::with_capacity(alloc, shares.len())?;
    for files in shares {
        begun.push(begin_making(rt, system, files))?;
    }
    Ok(end_all(rt, begun))
}
