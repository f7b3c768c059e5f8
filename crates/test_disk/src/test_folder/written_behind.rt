//! Files that are written later, on disk (`WriteBehind`).

use crate::test_folder::several::{copy, make_in_pieces};
use crate::test_folder::{behind, do_all, take_all, tried_again, words_at};
use anyhow::{Result, bail};
use std::alloc::Global;
use std::fs::File;
use std::rt::Files;
use std::thread::Threads;
use svn_folder::{FileMaker, Folder, FolderFault, Locks, Step, SyncedFolder};
use svn_types::RelPath;

// With their copies more than wait at once.
const MANY: u64 = 600;

// Makes a file of that number, copies it, and gives the copy another path.
fn make_one<F: Folder>(
    alloc: Global,
    folder: &mut F,
    number: u64,
) -> std::result::Result<(), FolderFault> {
    let text = format!(in alloc; "t{number}")?;
    let one = format!(in alloc; "one{number}")?;
    let new = format!(in alloc; "new{number}")?;
    let to = RelPath::parse(alloc, &format!(in alloc; "two{number}")?)?;
    make_in_pieces(alloc, folder, &one, &text)?;
    copy(alloc, folder, &one, &new)?;
    let from = RelPath::parse(alloc, &new)?;
    folder.take(Step::Rename { from, to })
}

fn count<F: Folder>(alloc: Global, folder: &F) -> Result<usize> {
    Ok(folder.list(alloc, &RelPath::root(alloc))?.len())
}

// Fails where a file isn't as it was made.
fn compare_text<F: Folder>(alloc: Global, folder: &F, word: &str, number: u64) -> Result<()> {
    let path = format!(in alloc; "{word}{number}")?;
    let text = format!(in alloc; "t{number}")?;
    let found = words_at(alloc, folder, &path)?;
    if found != text {
        bail!("{path}: {found}")
    }
    Ok(())
}

// Fails where one of them isn't.
fn compare_all<F: Folder>(alloc: Global, folder: &F) -> Result<()> {
    for number in 0..MANY {
        compare_text(alloc, folder, "one", number)?;
        compare_text(alloc, folder, "two", number)?;
    }
    Ok(())
}

// Makes many, and prints how many are shown, and how many are on disk before and after the rest is written.
fn make_all<R: Files<File = File> + Threads + Locks + FileMaker + Print + AllocGlobal>(
    rt: &R,
) -> Result<()> {
    let alloc = rt.alloc();
    let mut folder = behind(rt)?;
    for number in 0..MANY {
        make_one(alloc, &mut folder, number)?;
    }
    compare_all(alloc, &folder)?;
    let disk = tried_again(rt)?;
    let shown = count(alloc, &folder)?;
    let written = count(alloc, &disk)?;
    folder.finish()?;
    compare_all(alloc, &disk)?;
    println!(rt;
        "behind: {shown} files, of which on disk {written}, then {}",
        count(alloc, &disk)?
    )?;
    Ok(())
}

// Somebody removes a directory in which a file waits: what is said of it, and then.
fn lose<R: Files<File = File> + Threads + Locks + FileMaker + Print + AllocGlobal>(
    rt: &R,
) -> Result<()> {
    let alloc = rt.alloc();
    let mut folder = behind(rt)?;
    std::fs::create_dir(rt, "tried_folder/a")?;
    make_in_pieces(alloc, &mut folder, "a/f", "text")?;
    std::fs::remove_dir(rt, "tried_folder/a")?;
    match folder.finish() {
        Ok(()) => println!(rt; "behind: a/f was written")?,
        Err(fault) => println!(rt; "behind: {fault}")?,
    }
    println!(rt; "behind: {} files are left", count(alloc, &folder)?)?;
    Ok(())
}

/// All steps, and all files in pieces, with files written later; then many files.
pub(crate) fn try_behind<R: Files<File = File> + Threads + Locks + FileMaker + Print + AllocGlobal>(
    rt: &R,
) -> Result<()> {
    take_all(rt, &mut SyncedFolder::new(rt.alloc(), behind(rt)?))?;
    do_all(rt, &mut SyncedFolder::new(rt.alloc(), behind(rt)?))?;
    do_all(rt, &mut SyncedFolder::unmarked(rt.alloc(), behind(rt)?))?;
    make_all(rt)?;
    lose(rt)
}
