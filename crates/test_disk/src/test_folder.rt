//! Folders: each step and each refusal in memory and on disk, also with files written later, files in pieces, copies and several syncs, a folder that stops
//! after each number of steps, what a crash may leave, and whether all is on the disk.

mod several;
mod tables;
mod written_behind;

use anyhow::{Result, bail};
use several::{do_all, do_and_finish, left_of, make_many, state_of, stop_between};
use std::alloc::Global;
use std::fs::File;
use std::path::PathBuf;
use std::rt::Files;
use std::thread::Threads;
use svn_folder::{
    DiskFolder, Entry, FileMaker, Folder, FolderFault, Held, Locks, MemoryFolder, StoppedFolder,
    Summary, SyncedFolder, WriteBehind,
};
use svn_types::RelPath;
use tables::{
    Act, acts, careless, lost, moved, paths, refused, renamed, replaced, step_of, synced, unsynced,
};
use written_behind::try_behind;

// The folder of the system that is tried, where the program runs.
const TRIED: &str = "tried_folder";

// What is at a path.
fn look<F: Folder>(
    alloc: Global,
    folder: &F,
    path: &str,
) -> std::result::Result<Option<Entry>, FolderFault> {
    folder.look(alloc, &RelPath::parse(alloc, path)?)
}

// Takes a step, and says what was done or why it wasn't.
fn told<F: Folder>(alloc: Global, folder: &mut F, act: Act) -> Result<(bool, String)> {
    let step = step_of(alloc, act)?;
    let words = format!(in alloc; "{step}")?;
    Ok(match folder.take(step) {
        Ok(()) => (true, words),
        Err(fault) => (false, format!(in alloc; "{fault}")?),
    })
}

// What is at a path, without bytes.
fn sum<F: Folder>(
    alloc: Global,
    folder: &F,
    path: &str,
) -> std::result::Result<Option<Summary>, FolderFault> {
    folder.sum(alloc, &RelPath::parse(alloc, path)?)
}

// The names in a directory, or that none is there.
fn names_in<F: Folder>(alloc: Global, folder: &F, path: &str) -> Result<String> {
    let mut words = String::new(alloc);
    match folder.list(alloc, &RelPath::parse(alloc, path)?) {
        Ok(names) => {
            for name in &names {
                write!(words, "{name} ")?;
            }
        }
        Err(_) => words.push_str("none")?,
    }
    Ok(words)
}

fn is_entry_same<F: Folder, G: Folder>(
    alloc: Global,
    one: &F,
    other: &G,
    path: &str,
) -> Result<bool> {
    let entry = look(alloc, one, path)?;
    Ok(entry == look(alloc, other, path)?)
}

fn is_summary_same<F: Folder, G: Folder>(
    alloc: Global,
    one: &F,
    other: &G,
    path: &str,
) -> Result<bool> {
    let summary = sum(alloc, one, path)?;
    Ok(summary == sum(alloc, other, path)?)
}

fn are_names_same<F: Folder, G: Folder>(
    alloc: Global,
    one: &F,
    other: &G,
    path: &str,
) -> Result<bool> {
    let names = names_in(alloc, one, path)?;
    Ok(names == names_in(alloc, other, path)?)
}

// What one folder shows otherwise than another at a path, if anything.
fn difference_at<F: Folder, G: Folder>(
    alloc: Global,
    one: &F,
    other: &G,
    path: &str,
) -> Result<Option<&'static str>> {
    if !is_entry_same(alloc, one, other, path)? {
        return Ok(Some("another entry"));
    }
    if !is_summary_same(alloc, one, other, path)? {
        return Ok(Some("another summary"));
    }
    let same = are_names_same(alloc, one, other, path)?;
    Ok(if same { None } else { Some("other names") })
}

// Fails where one folder shows something else than another.
pub(crate) fn compare<F: Folder, G: Folder>(
    alloc: Global,
    one: &F,
    other: &G,
    words: &str,
) -> Result<()> {
    for path in paths() {
        if let Some(what) = difference_at(alloc, one, other, path)? {
            bail!("{words}: {what} at `{path}`")
        }
    }
    Ok(())
}

// Takes a step in memory and on disk.
fn take_both<R: Print + AllocGlobal, F: Folder, G: Folder>(
    rt: &R,
    memory: &mut F,
    disk: &mut G,
    act: Act,
) -> Result<()> {
    let alloc = rt.alloc();
    let (taken, words) = told(alloc, memory, act)?;
    println!(rt; "{words}")?;
    let (other, other_words) = told(alloc, disk, act)?;
    if taken != other {
        bail!("{words}: {other_words}")
    }
    compare(alloc, memory, disk, &words)
}

// The folder on disk.
fn tried_again<R: Files<File = File> + Threads + AllocGlobal>(rt: &R) -> Result<DiskFolder<'_, R>> {
    Ok(DiskFolder::new(rt, PathBuf::from_str(rt.alloc(), TRIED)?))
}

// Makes it anew, with nothing in it.
fn clear<R: Files<File = File> + AllocGlobal>(rt: &R) -> Result<()> {
    if std::fs::exists(rt, TRIED)? {
        std::fs::remove_dir_all(rt, TRIED)?;
    }
    std::fs::create_dir(rt, TRIED)?;
    Ok(())
}

// The folder on disk, which is empty.
fn tried<R: Files<File = File> + Threads + AllocGlobal>(rt: &R) -> Result<DiskFolder<'_, R>> {
    clear(rt)?;
    tried_again(rt)
}

// The same, with files that are written later.
fn behind<R: Files<File = File> + Threads + Locks + FileMaker + AllocGlobal>(
    rt: &R,
) -> Result<WriteBehind<'_, R>> {
    clear(rt)?;
    Ok(WriteBehind::new(rt, PathBuf::from_str(rt.alloc(), TRIED)?))
}

fn take_all<R: Print + AllocGlobal, G: Folder>(rt: &R, disk: &mut G) -> Result<()> {
    let mut memory = MemoryFolder::new(rt.alloc());
    for act in acts() {
        take_both(rt, &mut memory, disk, *act)?;
    }
    Ok(())
}

fn try_both<R: Files<File = File> + Threads + Locks + Print + AllocGlobal>(rt: &R) -> Result<()> {
    take_all(rt, &mut SyncedFolder::new(rt.alloc(), tried(rt)?))?;
    do_all(rt, &mut SyncedFolder::new(rt.alloc(), tried(rt)?))
}

// Locks a database of the system, while it is locked and afterwards.
fn try_locks<R: Files<File = File> + Threads + Locks + Print + AllocGlobal>(rt: &R) -> Result<()> {
    let folder = tried(rt)?;
    std::fs::write(rt, "tried_folder/database", b"bytes")?;
    let path = RelPath::parse(rt.alloc(), "database")?;
    let lock = folder.lock(&path)?;
    let is_held = matches!(&lock, Some(lock) if lock.is_held());
    let is_refused = folder.lock(&path)?.is_none();
    drop(lock);
    let is_free = folder.lock(&path)?.is_some();
    let names = folder.list(rt.alloc(), &RelPath::root(rt.alloc()))?.len();
    println!(rt;
        "a lock: {is_held}, meanwhile refused: {is_refused}, afterwards: {is_free}; {names} file"
    )?;
    std::fs::remove_dir_all(rt, TRIED)?;
    Ok(())
}

// What a file holds, in words.
fn words_of(alloc: Global, entry: Option<Entry>) -> Result<String> {
    Ok(match entry {
        Some(Entry::File(bytes, _)) => String::from_utf8_lossy(alloc, bytes.as_slice())?,
        Some(entry) => format!(in alloc; "{entry}")?,
        None => String::from_str(alloc, "nothing")?,
    })
}

// How many steps of a replacement are refused.
fn refused_of<F: Folder>(alloc: Global, folder: &mut F) -> Result<u64> {
    let mut refused = 0u64;
    for act in replaced() {
        let (taken, _) = told(alloc, folder, *act)?;
        refused = refused.saturating_add(u64::from(!taken));
    }
    Ok(refused)
}

fn words_at<F: Folder>(alloc: Global, folder: &F, path: &str) -> Result<String> {
    words_of(alloc, look(alloc, folder, path)?)
}

// Prints what is left of a replacement that stops after so many steps.
fn stop<R: Print + AllocGlobal>(rt: &R, limit: u64) -> Result<()> {
    let mut folder = StoppedFolder::new(MemoryFolder::new(rt.alloc()), limit);
    let refused = refused_of(rt.alloc(), &mut folder)?;
    let file = words_at(rt.alloc(), &folder, "f")?;
    let other = words_at(rt.alloc(), &folder, "t")?;
    println!(rt; "stopped after {limit}: {refused} refused; f: {file}, t: {other}")?;
    Ok(())
}

fn write_left(alloc: Global, held: Held, words: &mut String) -> Result<()> {
    if !words.as_str().is_empty() {
        words.push_str(" or ")?;
    }
    if held.is_synced {
        words.push_str(&words_of(alloc, held.entry)?)?;
    } else {
        words.push_str("any file")?;
    }
    Ok(())
}

// What a crash may leave at a path, in words.
pub(crate) fn left_words(alloc: Global, folder: &MemoryFolder, path: &str) -> Result<String> {
    let left = folder.left_at(&RelPath::parse(alloc, path)?)?;
    let mut words = String::new(alloc);
    for held in left.older {
        write_left(alloc, held, &mut words)?;
    }
    write_left(alloc, left.now, &mut words)?;
    Ok(words)
}

// Takes the next step, and prints what a crash may leave at two paths afterwards.
fn crash<R: Print + AllocGlobal>(
    rt: &R,
    folder: &mut MemoryFolder,
    act: Act,
    paths: (&str, &str),
) -> Result<()> {
    let (_, words) = told(rt.alloc(), folder, act)?;
    let left = left_of(rt.alloc(), folder, paths)?;
    println!(rt; "{words}; after a crash {left}")?;
    Ok(())
}

fn crash_in<R: Print + AllocGlobal>(rt: &R, acts: &[Act], paths: (&str, &str)) -> Result<()> {
    let mut folder = MemoryFolder::new(rt.alloc());
    for act in acts {
        crash(rt, &mut folder, *act, paths)?;
    }
    Ok(())
}

// Takes the next step, and prints whether everything is on the disk afterwards.
fn keep<R: Print + AllocGlobal, F: Folder>(
    rt: &R,
    folder: &mut SyncedFolder<F>,
    act: Act,
) -> Result<()> {
    let (_, words) = told(rt.alloc(), folder, act)?;
    println!(rt; "{words}: {}", state_of(folder))?;
    Ok(())
}

fn keep_in<R: Print + AllocGlobal>(rt: &R, acts: &[Act]) -> Result<()> {
    let mut folder = SyncedFolder::new(rt.alloc(), MemoryFolder::new(rt.alloc()));
    for act in acts {
        keep(rt, &mut folder, *act)?;
    }
    Ok(())
}

fn try_crashes<R: Print + AllocGlobal>(rt: &R) -> Result<()> {
    crash_in(rt, replaced(), ("f", "t"))?;
    crash_in(rt, careless(), ("f", "t"))?;
    crash_in(rt, moved(), ("f/x", "t/x"))
}

fn try_syncs<R: Print + AllocGlobal>(rt: &R) -> Result<()> {
    keep_in(rt, synced())?;
    keep_in(rt, lost())?;
    do_and_finish(rt, unsynced())?;
    do_and_finish(rt, refused())?;
    do_and_finish(rt, renamed())
}

fn try_stops<R: Print + AllocGlobal>(rt: &R) -> Result<()> {
    for limit in 0..=6 {
        stop(rt, limit)?;
    }
    Ok(())
}

fn try_stops_between<R: Print + AllocGlobal>(rt: &R) -> Result<()> {
    for limit in 2..=4 {
        stop_between(rt, limit)?;
    }
    Ok(())
}

/// Each of these.
pub(crate) fn try_folders<
    R: Files<File = File> + Threads + Locks + FileMaker + Print + AllocGlobal,
>(rt: &R) -> Result<()> {
    try_both(rt)?;
    try_behind(rt)?;
    try_stops(rt)?;
    try_crashes(rt)?;
    try_syncs(rt)?;
    try_stops_between(rt)?;
    make_many(rt)?;
    try_locks(rt)
}
