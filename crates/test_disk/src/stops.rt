//! Each stop of a checkout, and of its completion.

use crate::copies::{copy, empty, inner, make};
use anyhow::{Result, bail};
use std::alloc::Global;
use svn_disk::{DiskFault, Resumed, resume};
use svn_folder::{Entry, Folder, Held, MemoryFolder, StoppedFolder};
use svn_types::RelPath;
use svn_wc::WorkingCopy;
use svn_wcdb::read_base_tree;

/// All that the folder may have at the end but for its database and its texts.
const PATHS: [&str; 12] = [
    "a",
    "d",
    "d/b",
    "d/same",
    "d/e",
    "d/e/empty",
    "link",
    ".svn",
    ".svn/format",
    ".svn/entries",
    ".svn/tmp",
    ".svn/pristine",
];

const DATABASE: &str = ".svn/wc.db";

pub(crate) fn look<F: Folder>(alloc: Global, folder: &F, path: &str) -> Result<Option<Entry>> {
    Ok(folder.look(alloc, &RelPath::parse(alloc, path)?)?)
}

// Fails where one folder shows something else than another.
fn compare<F: Folder, G: Folder>(alloc: Global, one: &F, other: &G) -> Result<()> {
    for path in PATHS {
        if look(alloc, one, path)? != look(alloc, other, path)? {
            bail!("another entry at `{path}`")
        }
    }
    if look(alloc, one, DATABASE)? != look(alloc, other, DATABASE)? {
        bail!("another database")
    }
    Ok(())
}

// Fails if the bytes aren't the database of the copy.
fn check_database(alloc: Global, bytes: &[u8], copy: &WorkingCopy) -> Result<()> {
    match read_base_tree(alloc, bytes) {
        Ok(tree) => {
            for (path, node) in &tree.nodes {
                if copy.get(path) != Some(node) {
                    bail!("another node at `{path}`")
                }
            }
            Ok(())
        }
        Err(refusal) => bail!("the database is refused: {refusal}"),
    }
}

// Fails where a crash may leave something that is no copy's database.
fn check_held(alloc: Global, held: &Held, copy: &WorkingCopy) -> Result<()> {
    match &held.entry {
        None => Ok(()),
        Some(Entry::File(bytes, _)) if held.is_synced => {
            check_database(alloc, bytes.as_slice(), copy)
        }
        Some(entry) => bail!("a crash may leave any {entry} as the database"),
    }
}

// Fails where a loss of power may leave something else than no copy, or the whole one.
fn check_left(alloc: Global, folder: &MemoryFolder, copy: &WorkingCopy) -> Result<()> {
    let left = folder.left_at(&RelPath::parse(alloc, DATABASE)?)?;
    check_held(alloc, &left.now, copy)?;
    for held in &left.older {
        check_held(alloc, held, copy)?;
    }
    Ok(())
}

// What there is after a checkout was stopped, in a word, once it was completed.
fn completed(
    alloc: Global,
    folder: &mut MemoryFolder,
    whole: &MemoryFolder,
) -> Result<&'static str> {
    let had_any = look(alloc, folder, ".svn-new")?.is_some();
    let word = match resume(alloc, folder, true) {
        Ok(Resumed::Completed) => "work left",
        Ok(Resumed::Nothing) => "whole",
        Ok(Resumed::Cleared) if had_any => return empty_again(alloc, folder),
        Err(DiskFault::NoCopy) if !had_any => return Ok("nothing"),
        Ok(Resumed::Cleared) => bail!("nothing was to be cleared"),
        Err(fault) => bail!("{fault}"),
    };
    compare(alloc, folder, whole)?;
    Ok(word)
}

// Fails unless the folder is empty.
fn empty_again(alloc: Global, folder: &MemoryFolder) -> Result<&'static str> {
    if folder.list(alloc, &RelPath::root(alloc))?.is_empty() {
        Ok("no copy")
    } else {
        bail!("something is left of a checkout")
    }
}

/// The folder of a checkout that was stopped after so many steps.
pub(crate) fn stopped(alloc: Global, copy: &WorkingCopy, limit: u64) -> Result<MemoryFolder> {
    let mut folder = empty(alloc, limit);
    let _ = make(alloc, &mut folder, copy);
    Ok(inner(folder))
}

fn stop_at(
    alloc: Global,
    copy: &WorkingCopy,
    whole: &MemoryFolder,
    limit: u64,
) -> Result<&'static str> {
    let mut folder = stopped(alloc, copy, limit)?;
    completed(alloc, &mut folder, whole)
}

/// Stops a checkout after each number of steps, and completes it.
pub(crate) fn try_stops<R: Print + AllocGlobal>(
    rt: &R,
    copy: &WorkingCopy,
    whole: &MemoryFolder,
) -> Result<()> {
    let mut last = "";
    for limit in 0..whole.steps().len() as u64 + 1 {
        let word = stop_at(rt.alloc(), copy, whole, limit)?;
        if word != last {
            println!(rt; "stopped after {limit}: {word}")?;
            last = word;
        }
    }
    Ok(())
}

// Completes a copy in a run that is stopped after so many steps, and then in one that isn't.
fn resume_twice(
    alloc: Global,
    copy: &WorkingCopy,
    whole: &MemoryFolder,
    stops: (u64, u64),
) -> Result<()> {
    let mut folder = StoppedFolder::new(stopped(alloc, copy, stops.0)?, stops.1);
    let _ = resume(alloc, &mut folder, true);
    let StoppedFolder { mut folder, .. } = folder;
    completed(alloc, &mut folder, whole)?;
    Ok(())
}

/// Stops the completion of a checkout after each third step, for several stops of the checkout.
pub(crate) fn try_resumes<R: Print + AllocGlobal>(
    rt: &R,
    copy: &WorkingCopy,
    whole: &MemoryFolder,
) -> Result<()> {
    let steps = whole.steps().len() as u64;
    for left in [14, 7, 3] {
        for third in 0..10u64 {
            resume_twice(
                rt.alloc(),
                copy,
                whole,
                (steps.saturating_sub(left), 3 * third + left % 3),
            )?;
        }
    }
    println!(rt; "completions that were stopped: whole")?;
    Ok(())
}

// Whether a checkout that is stopped so is done.
fn lose_power(alloc: Global, copy: &WorkingCopy, limit: u64) -> Result<bool> {
    let folder = stopped(alloc, copy, limit)?;
    check_left(alloc, &folder, copy)?;
    Ok((folder.steps().len() as u64) < limit)
}

/// Loses the power after each step of the checkout of one file: what a crash may leave of more is too much to look at.
pub(crate) fn try_losses<R: Print + AllocGlobal>(rt: &R) -> Result<()> {
    let copy = copy(rt.alloc(), 1)?;
    for limit in 0..100 {
        if lose_power(rt.alloc(), &copy, limit)? {
            println!(rt;
                "losses of power in {} steps: no copy, or the whole one",
                limit.saturating_sub(1)
            )?;
            return Ok(());
        }
    }
    bail!("the checkout of one file doesn't end")
}
