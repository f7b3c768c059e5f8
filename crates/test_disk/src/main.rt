//! Folders (`test_folder.rt`), and working copies that are brought to disk: each stop of a checkout and of its completion, by the program's end and by a loss of
//! power; each stop of a false copy's being put right, and of an update; what the folder has at the end; what is refused; clients that write meanwhile. The
//! folder of a copy is one in memory, whose crashes are those of `svn_folder`.
#![tactic(auto)]

mod between;
mod clients;
mod copies;
mod histories;
mod mend_refusals;
mod mends;
mod opaque;
mod refusals;
mod replay;
mod stops;
mod test_folder;
mod update_rows;
mod updates;

use anyhow::Result;
use clients::try_clients;
use copies::{copy, empty, inner, make};
use mend_refusals::try_mend_refusals;
use mends::{Falsehood, try_lost_mends, try_stopped_mends};
use refusals::try_refusals;
use std::alloc::Global;
use std::fs::File;
use std::process::ExitCode;
use std::rt::Files;
use std::sync::Wait;
use std::thread::Threads;
use stops::{try_losses, try_resumes, try_stops};
use svn_folder::{FileMaker, Locks, MemoryFolder};
use svn_wc::WorkingCopy;
use test_folder::try_folders;
use update_rows::try_rows;
use updates::{Advance, try_limits, try_lost_updates, try_stopped_updates};

// A folder with the whole copy.
fn whole(alloc: Global, copy: &WorkingCopy) -> Result<MemoryFolder> {
    let mut folder = empty(alloc, u64::MAX);
    make(alloc, &mut folder, copy)?;
    Ok(inner(folder))
}

// Updates, and what is refused of them.
fn try_updates<R: Print + Threads + Wait + Sync + AllocGlobal>(rt: &R) -> Result<()> {
    let advance = Advance::new(rt)?;
    try_stopped_updates(rt, &advance)?;
    try_lost_updates(rt, &advance)?;
    try_limits(rt, &advance)?;
    try_rows(rt, &advance)
}

fn try_copies<R: Print + AllocGlobal>(rt: &R) -> Result<()> {
    let alloc = rt.alloc();
    let copy = copy(alloc, 5)?;
    let whole = whole(alloc, &copy)?;
    println!(rt; "a checkout takes {} steps", whole.steps().len())?;
    try_stops(rt, &copy, &whole)?;
    try_resumes(rt, &copy, &whole)?;
    try_losses(rt)?;
    try_refusals(rt, &copy, &whole)?;
    let falsehood = Falsehood::new(alloc)?;
    try_stopped_mends(rt, &falsehood)?;
    try_lost_mends(rt, &falsehood)?;
    try_mend_refusals(rt, &falsehood)?;
    try_clients(rt, &falsehood)
}

fn try_all<R: Files<File = File> + Threads + Wait + Sync + Locks + FileMaker + Print + AllocGlobal>(
    rt: &R,
) -> Result<()> {
    try_folders(rt)?;
    try_copies(rt)?;
    try_updates(rt)
}

fn main(rt: HostRuntime) -> ExitCode {
    match try_all(&rt) {
        Ok(()) => ExitCode::SUCCESS,
        Err(error) => {
            let _ = eprintln!(&rt; "test_disk: {error}");
            ExitCode::FAILURE
        }
    }
}
