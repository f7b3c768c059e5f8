//! Files in pieces, copies of files, and several syncs at once.

use crate::test_folder::tables::{Act, Deed, MANY, deeds, step_of};
use crate::test_folder::{compare, left_words};
use anyhow::{Result, bail};
use std::alloc::Global;
use svn_folder::{
    BytePieces, Folder, FolderFault, MemoryFolder, Mode, StoppedFolder, SyncedFolder,
};
use svn_types::RelPath;

// So many bytes come at once.
const PIECE: usize = 4;

pub(crate) fn make_in_pieces<F: Folder>(
    alloc: Global,
    folder: &mut F,
    path: &str,
    text: &str,
) -> std::result::Result<(), FolderFault> {
    let path = RelPath::parse(alloc, path)?;
    let mut pieces = BytePieces::new(text.as_bytes(), PIECE);
    folder.make_file(alloc, &path, Mode::PLAIN, None, &mut pieces)
}

pub(crate) fn copy<F: Folder>(
    alloc: Global,
    folder: &mut F,
    from: &str,
    to: &str,
) -> std::result::Result<(), FolderFault> {
    let from = RelPath::parse(alloc, from)?;
    let to = RelPath::parse(alloc, to)?;
    folder.copy_file(alloc, &from, &to, Mode::PLAIN, Some(1_700_000_000_000_000))
}

fn sync<F: Folder>(
    alloc: Global,
    folder: &mut F,
    words: &[&str],
) -> std::result::Result<(), FolderFault> {
    let mut paths = Vec::new(alloc);
    for word in words {
        paths.push(RelPath::parse(alloc, word)?)?;
    }
    folder.sync_files(&paths)
}

fn perform<F: Folder>(
    alloc: Global,
    folder: &mut F,
    deed: Deed,
) -> std::result::Result<(), FolderFault> {
    match deed {
        Deed::Step(act) => folder.take(step_of(alloc, act)?),
        Deed::Pieces(path, text) => make_in_pieces(alloc, folder, path, text),
        Deed::Copy(from, to) => copy(alloc, folder, from, to),
        Deed::Sync(paths) => sync(alloc, folder, paths),
    }
}

// What was done, or why it wasn't.
fn told<F: Folder>(alloc: Global, folder: &mut F, deed: Deed) -> Result<(bool, String)> {
    Ok(match perform(alloc, folder, deed) {
        Ok(()) => (true, format!(in alloc; "{deed}")?),
        Err(fault) => (false, format!(in alloc; "{deed}: {fault}")?),
    })
}

// Does it in memory and on disk.
fn do_both<R: Print + AllocGlobal, G: Folder>(
    rt: &R,
    memory: &mut MemoryFolder,
    disk: &mut G,
    deed: Deed,
) -> Result<()> {
    let alloc = rt.alloc();
    let (done, words) = told(alloc, memory, deed)?;
    println!(rt; "{words}")?;
    let (other, other_words) = told(alloc, disk, deed)?;
    if done != other {
        bail!("{words}: {other_words}")
    }
    compare(alloc, memory, disk, &words)
}

/// Does each in memory and on disk, and then brings all of it to the disk.
pub(crate) fn do_all<R: Print + AllocGlobal, G: Folder>(
    rt: &R,
    disk: &mut SyncedFolder<G>,
) -> Result<()> {
    let mut memory = MemoryFolder::new(rt.alloc());
    for deed in deeds() {
        do_both(rt, &mut memory, disk, *deed)?;
    }
    finish(rt, disk)
}

/// Whether all is on the disk, in words.
pub(crate) fn state_of<F: Folder>(folder: &SyncedFolder<F>) -> &'static str {
    if folder.is_synced() {
        "synced"
    } else {
        "not synced"
    }
}

// Brings all to the disk, in words.
fn synced_all<F: Folder>(alloc: Global, folder: &mut SyncedFolder<F>) -> Result<String> {
    Ok(match folder.sync_all(alloc) {
        Ok(()) => String::from_str(alloc, "sync all")?,
        Err(fault) => format!(in alloc; "sync all: {fault}")?,
    })
}

// Brings all to the disk, and prints whether it is there.
fn finish<R: Print + AllocGlobal, F: Folder>(rt: &R, folder: &mut SyncedFolder<F>) -> Result<()> {
    let words = synced_all(rt.alloc(), folder)?;
    println!(rt; "{words}: {}", state_of(folder))?;
    Ok(())
}

/// Does these in memory, and then brings all to the disk.
pub(crate) fn do_and_finish<R: Print + AllocGlobal>(rt: &R, deeds: &[Deed]) -> Result<()> {
    let alloc = rt.alloc();
    let mut folder = SyncedFolder::new(alloc, MemoryFolder::new(alloc));
    for deed in deeds {
        let (_, words) = told(alloc, &mut folder, *deed)?;
        println!(rt; "{words}")?;
    }
    finish(rt, &mut folder)
}

// Syncs two files, in words.
fn sync_two<F: Folder>(alloc: Global, folder: &mut F) -> Result<String> {
    perform(alloc, folder, Deed::Pieces("f", "old"))?;
    perform(alloc, folder, Deed::Pieces("t", "new"))?;
    let (_, words) = told(alloc, folder, Deed::Sync(&["f", "t"]))?;
    Ok(words)
}

/// What a crash may leave at two paths, in words.
pub(crate) fn left_of(
    alloc: Global,
    folder: &MemoryFolder,
    (one, other): (&str, &str),
) -> Result<String> {
    let left = left_words(alloc, folder, one)?;
    let right = left_words(alloc, folder, other)?;
    Ok(format!(in alloc; "{one}: {left}; {other}: {right}")?)
}

/// Syncs two files in a folder that takes so many steps, and prints what a crash may leave of them.
pub(crate) fn stop_between<R: Print + AllocGlobal>(rt: &R, limit: u64) -> Result<()> {
    let mut folder = StoppedFolder::new(MemoryFolder::new(rt.alloc()), limit);
    let words = sync_two(rt.alloc(), &mut folder)?;
    let left = left_of(rt.alloc(), &folder.folder, ("f", "t"))?;
    println!(rt; "stopped after {limit}: {words}; after a crash {left}")?;
    Ok(())
}

// Makes a file of that number in `a`, and brings it to the disk.
fn make_synced(alloc: Global, folder: &mut MemoryFolder, number: u64) -> Result<()> {
    let path = format!(in alloc; "a/{number}")?;
    make_in_pieces(alloc, folder, &path, "text")?;
    sync(alloc, folder, &[path.as_str()])?;
    folder.take(step_of(alloc, Act::SyncDirectory("a"))?)?;
    Ok(())
}

fn fill(alloc: Global, folder: &mut MemoryFolder) -> Result<()> {
    perform(alloc, folder, Deed::Step(Act::Directory("a")))?;
    perform(alloc, folder, Deed::Step(Act::SyncDirectory("")))?;
    for number in 0..MANY {
        make_synced(alloc, folder, number)?;
    }
    Ok(())
}

/// Makes many files, and prints what a crash may leave of the first and the last of them.
pub(crate) fn make_many<R: Print + AllocGlobal>(rt: &R) -> Result<()> {
    let mut folder = MemoryFolder::new(rt.alloc());
    fill(rt.alloc(), &mut folder)?;
    let left = left_of(rt.alloc(), &folder, ("a/0", "a/39"))?;
    println!(rt; "after a crash {left}")?;
    Ok(())
}
