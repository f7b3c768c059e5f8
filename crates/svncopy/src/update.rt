//! `svncopy update` and `svncopy switch`.

use crate::clock::now;
use crate::command_line::{Switch, UpdateWords};
use crate::dump::{DumpSource, History};
use crate::fault::Fault;
use crate::lines::{print_all, print_header};
use crate::loading::{Load, LoadBeside};
use crate::root::Root;
use crate::url::switched_to;
use crate::writing::folder_to_write;
use std::fs::File;
use std::io::{Read, Seek};
use std::path::PathBuf;
use std::rt::{Clock, Files};
use std::sync::Wait;
use std::thread::Threads;
use svn_disk::Existing;
use svn_disk_update::{Aim, Updated, update, would_update};
use svn_folder::{DiskFolder, FileMaker, Locks};
use svn_run::Options;
use svn_types::RelPath;

// A copy that is on disk, and what of it a word names.
#[derive(Drop)]
struct OnDisk {
    root: Root,
    existing: Existing,
}

// How a run is made.
fn options_of(words: &UpdateWords<'_>) -> Options {
    Options {
        capacity: Options::default().capacity,
        cancel_after: words.limit,
        late_texts: words.late_texts,
    }
}

// The folder of a copy.
fn folder_of<'a, T: Files<File = File> + Threads + Locks + AllocGlobal>(
    rt: &'a T,
    root: &Root,
) -> Result<DiskFolder<'a, T>, Fault> {
    let path = PathBuf::from_str(rt.alloc(), root.folder.as_str())?;
    Ok(DiskFolder::new(rt, path))
}

// The copy that a word names, or that has what it names, and the history of the dump.
fn read<T: Files<File = File> + Threads + Locks + LoadBeside + AllocGlobal>(
    rt: &T,
    words: &UpdateWords<'_>,
) -> Result<(OnDisk, History, File), Fault> {
    let alloc = rt.alloc();
    let root = Root::find(rt, words.folder)?;
    let folder = folder_of(rt, &root)?;
    let what = Load {
        dump: String::from_str(alloc, words.dump)?,
        beside: root.folder.clone()?,
        progress: words.progress,
    };
    let loading = rt.begin_load(rt, what);
    let existing = Existing::read(alloc, &folder);
    let loaded = loading.end(rt);
    // what is to say of the copy is said first
    let existing = existing?;
    let (history, texts) = loaded?;
    Ok((OnDisk { root, existing }, history, texts))
}

// Updates or switches the copy as it was read, or says what that would do.
fn bring<
    T: Files<File = File> + Threads + Locks + FileMaker + Wait + Sync + Clock + AllocGlobal,
    R: Read + Seek + Drop,
>(
    rt: &T,
    copy: &OnDisk,
    words: &UpdateWords<'_>,
    to: Option<&RelPath>,
    history: &History,
    texts: R,
) -> Result<Updated, Fault> {
    let alloc = rt.alloc();
    let what = Aim {
        existing: &copy.existing,
        repo: &history.repo,
        uuid: history.uuid.as_slice(),
        path: &copy.root.path,
        to,
        rev: words.rev,
        options: options_of(words),
        time: now(rt)?,
        sync: !words.no_sync,
    };
    if words.dry_run {
        return Ok(would_update(rt, alloc, &folder_of(rt, &copy.root)?, &what)?);
    }
    let mut folder = folder_to_write(rt, copy.root.folder.as_str(), what.sync)?;
    let mut source = DumpSource::new(history, texts);
    Ok(update(rt, alloc, &mut folder, &mut source, &what)?)
}

/// Updates a copy, or a path of one, and prints the lines of `svn update`.
pub(crate) fn update_copy<
    T: Files<File = File>
        + Threads
        + Locks
        + FileMaker
        + LoadBeside
        + Wait
        + Sync
        + Print
        + Clock
        + AllocGlobal,
>(rt: &T, words: &UpdateWords<'_>) -> Result<(), Fault> {
    let (copy, history, texts) = read(rt, words)?;
    let updated = bring(rt, &copy, words, None, &history, texts)?;
    print_header(rt, words.folder)?;
    print_all(rt, words, &updated)
}

/// Switches a copy, or a path of one, and prints the lines of `svn switch`.
pub(crate) fn switch_copy<
    T: Files<File = File>
        + Threads
        + Locks
        + FileMaker
        + LoadBeside
        + Wait
        + Sync
        + Print
        + Clock
        + AllocGlobal,
>(rt: &T, words: &Switch<'_>) -> Result<(), Fault> {
    let (copy, history, texts) = read(rt, &words.how)?;
    let root = copy.existing.origin().url.as_slice();
    let (to, rev) = switched_to(rt.alloc(), words.url, root)?;
    let how = UpdateWords {
        rev: words.how.rev.or(rev),
        ..words.how
    };
    let updated = bring(rt, &copy, &how, Some(&to), &history, texts)?;
    print_all(rt, &how, &updated)
}
