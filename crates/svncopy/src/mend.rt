//! `svncopy mend`.

use crate::clock::now;
use crate::command_line;
use crate::dump::{DumpSource, open};
use crate::fault::Fault;
use crate::progress::Progress;
use crate::refusing::refuse;
use crate::writing::folder_to_write;
use std::fs::File;
use std::path::PathBuf;
use std::process::ExitCode;
use std::rt::{Clock, Files};
use std::thread::Threads;
use svn_disk::{Change, PathChange, Remedy, Source, mend, mend_changes};
use svn_editor::PathWord;
use svn_folder::{DiskFolder, FileMaker, Locks};

// What becomes of a path, in a word.
fn word_of(change: Change) -> &'static str {
    match change {
        Change::Added => "added",
        Change::Removed => "removed",
        Change::Replaced => "replaced",
        Change::Rewritten => "written anew",
        Change::Recorded | Change::Bumped => "recorded anew",
        Change::Restored => "made again",
    }
}

// Prints that there is nothing to mend.
fn print_true<T: Print>(rt: &T, word: &str) -> Result<(), Fault> {
    match println!(rt; "{word}: true: nothing to mend") {
        Ok(()) => Ok(()),
        Err(_) => Err(Fault::Write),
    }
}

// Prints what was done.
fn print_done<T: Print>(rt: &T, word: &str, paths: usize) -> Result<(), Fault> {
    let end = if paths == 1 { "" } else { "s" };
    match println!(rt; "{word}: mended: {paths} path{end}") {
        Ok(()) => Ok(()),
        Err(_) => Err(Fault::Write),
    }
}

// Prints what would be done.
fn print_changes<T: Print>(rt: &T, word: &str, changes: &[PathChange]) -> Result<(), Fault> {
    for PathChange { path, change } in changes {
        let what = word_of(*change);
        if println!(rt; "{word}: would be mended: {}: {what}", PathWord(path)).is_err() {
            return Err(Fault::Write);
        }
    }
    Ok(())
}

/// What all copies are mended with.
#[derive(Drop)]
struct Mending<'a, T> {
    rt: &'a T,
    what: &'a Remedy<'a>,
    dry_run: bool,
}

impl<T: Files<File = File> + Threads + Locks + FileMaker + Print + AllocGlobal> Mending<'_, T> {
    // Says what would be done with a copy.
    fn tell(&self, word: &str) -> Result<(), Fault> {
        let alloc = self.rt.alloc();
        let folder = DiskFolder::new(self.rt, PathBuf::from_str(alloc, word)?);
        let changes = mend_changes(alloc, &folder, self.what)?;
        if changes.is_empty() {
            return print_true(self.rt, word);
        }
        print_changes(self.rt, word, &changes)
    }

    // Mends a copy, and says how much of it.
    fn mend<S: Source>(&self, source: &mut S, word: &str) -> Result<(), Fault> {
        if self.dry_run {
            return self.tell(word);
        }
        let mut folder = folder_to_write(self.rt, word, self.what.sync)?;
        let changes = mend(self.rt.alloc(), &mut folder, source, self.what)?;
        if changes.is_empty() {
            return print_true(self.rt, word);
        }
        print_done(self.rt, word, changes.len())
    }
}

// Mends each copy in turn; one that is refused doesn't keep the others from it.
fn mend_each<
    T: Files<File = File> + Threads + Locks + FileMaker + Print + Eprint + AllocGlobal,
    S: Source,
>(mending: &Mending<'_, T>, source: &mut S, folders: &[&str]) -> ExitCode {
    let mut status = ExitCode::SUCCESS;
    for folder in folders {
        if let Err(fault) = mending.mend(source, folder) {
            status = refuse(mending.rt, folder, &fault);
        }
    }
    status
}

/// Mends copies by a dump, which is read once for all of them. A refusal that is about the dump is returned, and then nothing was done.
pub(crate) fn mend_all<
    T: Files<File = File>
        + Threads
        + Locks
        + FileMaker
        + Input
        + Print
        + Eprint
        + Clock
        + AllocGlobal,
>(rt: &T, words: &command_line::Mend<'_>) -> Result<ExitCode, Fault> {
    let alloc = rt.alloc();
    let beside = words.folders.first().copied().unwrap_or(".");
    let dump = open(rt, words.dump, beside)?;
    let mut progress = Progress::begin(rt, words.progress);
    let (history, texts) = dump.load(alloc, &mut progress)?;
    let what = Remedy {
        repo: &history.repo,
        uuid: history.uuid.as_slice(),
        time: now(rt)?,
        sync: !words.no_sync,
    };
    let mending = Mending {
        rt,
        what: &what,
        dry_run: words.dry_run,
    };
    let mut source = DumpSource::new(&history, texts);
    Ok(mend_each(&mending, &mut source, &words.folders))
}
