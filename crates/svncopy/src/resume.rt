//! `svncopy resume`.

use crate::fault::Fault;
use std::fs::File;
use std::path::PathBuf;
use std::rt::Files;
use std::thread::Threads;
use svn_disk::{Resumed, resume};
use svn_folder::{DiskFolder, Locks};

/// Completes a working copy, and says what there was to do.
pub(crate) fn complete<T: Files<File = File> + Threads + Locks + Print + AllocGlobal>(
    rt: &T,
    word: &str,
    sync: bool,
) -> Result<(), Fault> {
    let alloc = rt.alloc();
    let mut folder = DiskFolder::new(rt, PathBuf::from_str(alloc, word)?);
    let what = match resume(alloc, &mut folder, sync)? {
        Resumed::Nothing => "nothing to do",
        Resumed::Completed => "completed",
        Resumed::Cleared => "no copy: removed what a checkout left",
    };
    match println!(rt; "{word}: {what}") {
        Ok(()) => Ok(()),
        Err(_) => Err(Fault::Write),
    }
}
