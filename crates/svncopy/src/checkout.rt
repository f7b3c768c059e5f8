//! `svncopy checkout`.

use crate::clock::now;
use crate::command_line;
use crate::dump::{DumpSource, History, open};
use crate::fault::Fault;
use crate::progress::Progress;
use crate::url::{Address, address_of};
use crate::writing::folder_to_write;
use std::alloc::Global;
use std::fs;
use std::fs::File;
use std::io::ErrorKind;
use std::path::PathBuf;
use std::rt::{Clock, Files};
use std::thread::Threads;
use svn_disk::{Checkout, check_out, inherited_props, refuse_check_out, refuse_reserved};
use svn_editor::PathWord;
use svn_folder::{DiskFolder, FileMaker, Locks};
use svn_types::{RelPath, Rev};
use svn_wc::{WcFault, WorkingCopy};

// The copy of a path in a revision.
fn copy_of(
    alloc: Global,
    history: &History,
    path: &RelPath,
    rev: Rev,
) -> Result<WorkingCopy, Fault> {
    let last = history.repo.latest();
    if rev > last {
        return Err(Fault::NoRevision(rev.0, last.0));
    }
    match WorkingCopy::checkout_at(alloc, &history.repo, path, rev) {
        Ok(copy) => Ok(copy),
        Err(WcFault::Memory) => Err(Fault::Memory),
        Err(fault) => Err(Fault::NoDirectory(fault)),
    }
}

// Makes the folder, if it isn't there.
fn make_folder<T: Files>(rt: &T, folder: &str) -> Result<(), Fault> {
    match fs::create_dir(rt, folder) {
        Ok(()) => Ok(()),
        Err(error) if error.kind() == ErrorKind::AlreadyExists => Ok(()),
        Err(error) => Err(Fault::NoFolder(error)),
    }
}

// Says what would be made, or refuses it.
fn tell<T: Files<File = File> + Threads + Locks + Print + AllocGlobal>(
    rt: &T,
    word: &str,
    copy: &WorkingCopy,
) -> Result<(), Fault> {
    let alloc = rt.alloc();
    let folder = DiskFolder::new(rt, PathBuf::from_str(alloc, word)?);
    refuse_check_out(alloc, &folder, copy)?;
    for (path, _) in copy.iter() {
        if println!(rt; "{word}: would be made: {}", PathWord(path)).is_err() {
            return Err(Fault::Write);
        }
    }
    Ok(())
}

/// A copy that comes, with its history and its texts.
#[derive(Drop)]
struct Planned {
    history: History,
    texts: File,
    copy: WorkingCopy,
    rev: Rev,
}

// Reads the history, and what of it the copy has.
fn plan<T: Files<File = File> + Input + Eprint + Clock + AllocGlobal>(
    rt: &T,
    words: &command_line::Checkout<'_>,
    address: &Address<'_>,
) -> Result<Planned, Fault> {
    let alloc = rt.alloc();
    let dump = open(rt, words.dump, words.folder)?;
    let mut progress = Progress::begin(rt, words.progress);
    let (history, texts) = dump.load(alloc, &mut progress)?;
    let rev = address.rev.unwrap_or(history.repo.latest());
    let copy = copy_of(alloc, &history, &address.path, rev)?;
    refuse_reserved(&copy)?;
    Ok(Planned {
        history,
        texts,
        copy,
        rev,
    })
}

// Makes the copy in its folder.
fn write<T: Files<File = File> + Threads + Locks + FileMaker + Clock + AllocGlobal>(
    rt: &T,
    words: &command_line::Checkout<'_>,
    address: &Address<'_>,
    planned: Planned,
) -> Result<(), Fault> {
    let alloc = rt.alloc();
    let Planned {
        history,
        texts,
        copy,
        rev,
    } = planned;
    let inherited = inherited_props(alloc, &history.repo, rev, &address.path)?;
    make_folder(rt, words.folder)?;
    let mut folder = folder_to_write(rt, words.folder, !words.no_sync)?;
    let url = address.root.as_bytes();
    let uuid = history.uuid.as_slice();
    let inherited = inherited.as_deref();
    let time = now(rt)?;
    let what = Checkout {
        url,
        uuid,
        copy: &copy,
        inherited,
        time,
        sync: !words.no_sync,
    };
    let mut source = DumpSource::new(&history, texts);
    check_out(alloc, &mut folder, &mut source, &what)?;
    Ok(())
}

/// Makes a working copy, and says of which revision it is; or says what would be made.
pub(crate) fn make<
    T: Files<File = File>
        + Threads
        + Locks
        + FileMaker
        + Input
        + Print
        + Eprint
        + Clock
        + AllocGlobal,
>(rt: &T, words: &command_line::Checkout<'_>) -> Result<(), Fault> {
    let address = address_of(rt.alloc(), words)?;
    let planned = plan(rt, words, &address)?;
    if words.dry_run {
        return tell(rt, words.folder, &planned.copy);
    }
    let rev = planned.rev;
    write(rt, words, &address, planned)?;
    match println!(rt; "Checked out revision {}.", rev.0) {
        Ok(()) => Ok(()),
        Err(_) => Err(Fault::Write),
    }
}
