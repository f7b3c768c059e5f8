//! A copy that is updated: each stop of that, by the program's end, with its completion, and each loss of power; each limit of the run.

use crate::between::{Between, memory, opened};
use crate::copies::{Known, TEXTS, UUID, empty, inner, make};
use crate::histories::revisions;
use crate::mends::{check_found, check_lost};
use anyhow::{Result, bail};
use std::alloc::Global;
use std::sync::Wait;
use std::thread::Threads;
use svn_disk::{Existing, Resumed, resume};
use svn_disk_update::{Aim, UpdateFault, Updated, update};
use svn_folder::{Folder, MemoryFolder, SyncedFolder};
use svn_repo::Repo;
use svn_run::Options;
use svn_types::{RelPath, Rev};
use svn_wc::WorkingCopy;

/// One of so many stops is followed by another update.
const EACH: usize = 8;

/// A copy of the first revision that is updated to the second, and the repository.
#[derive(Drop)]
pub(crate) struct Advance {
    pub(crate) repo: Repo,
    pub(crate) between: Between,
}

/// What is asked for in a row.
#[derive(Clone, Copy)]
pub(crate) struct Wish<'a> {
    /// The path in the copy.
    pub(crate) path: &'a RelPath,
    /// The path in the repository that it is switched to.
    pub(crate) to: Option<&'a RelPath>,
    /// The revision.
    pub(crate) rev: u64,
    /// After how many calls to stop.
    pub(crate) limit: Option<u64>,
}

/// Updates the copy that a folder has.
pub(crate) fn update_in<R: Threads + Wait + Sync, F: Folder>(
    rt: &R,
    alloc: Global,
    folder: &mut SyncedFolder<F>,
    repo: &Repo,
    wish: Wish<'_>,
) -> Result<Updated, UpdateFault> {
    let existing = match Existing::read(alloc, folder) {
        Ok(existing) => existing,
        Err(fault) => return Err(UpdateFault::from(fault)),
    };
    let what = Aim {
        existing: &existing,
        repo,
        uuid: UUID,
        path: wish.path,
        to: wish.to,
        rev: Some(Rev(wish.rev)),
        options: Options {
            capacity: 8,
            cancel_after: wish.limit,
            late_texts: false,
        },
        time: 1_700_000_000_000_000,
        sync: true,
    };
    update(rt, alloc, folder, &mut Known::new(&TEXTS), &what)
}

// Updates all of a copy to the second revision.
fn update_all<R: Threads + Wait + Sync, F: Folder>(
    rt: &R,
    alloc: Global,
    folder: &mut SyncedFolder<F>,
    repo: &Repo,
    limit: Option<u64>,
) -> Result<Updated, UpdateFault> {
    let wish = Wish {
        path: &RelPath::root(alloc),
        to: None,
        rev: 2,
        limit,
    };
    update_in(rt, alloc, folder, repo, wish)
}

impl Advance {
    pub(crate) fn new<R: Threads + Wait + Sync + AllocGlobal>(rt: &R) -> Result<Advance> {
        let alloc = rt.alloc();
        let repo = revisions(alloc)?;
        let old = WorkingCopy::checkout(alloc, &repo, Rev(1))?;
        let new = WorkingCopy::checkout(alloc, &repo, Rev(2))?;
        let mut folder = empty(alloc, u64::MAX);
        make(alloc, &mut folder, &old)?;
        let made = folder.folder.folder.steps().len();
        update_all(rt, alloc, &mut folder, &repo, None)?;
        Ok(Advance {
            repo,
            between: Between {
                old,
                new,
                whole: inner(folder),
                made,
            },
        })
    }

    // Fails unless the folder has the new copy.
    fn check_whole(&self, alloc: Global, folder: &MemoryFolder) -> Result<()> {
        if self.between.word_of(alloc, folder)? != "the new copy" {
            bail!("the old copy is left")
        }
        check_found(alloc, folder)?;
        check_lost(alloc, folder)
    }

    // Updates again what was left, and looks at all of it.
    fn update_again<R: Threads + Wait + Sync>(
        &self,
        rt: &R,
        alloc: Global,
        folder: MemoryFolder,
    ) -> Result<()> {
        let mut folder = opened(alloc, folder);
        update_all(rt, alloc, &mut folder, &self.repo, None)?;
        self.check_whole(alloc, &memory(folder))
    }

    // Completes what was left after so many steps; returns which copy there was, and whether work was left.
    fn complete<R: Threads + Wait + Sync>(
        &self,
        rt: &R,
        alloc: Global,
        count: usize,
    ) -> Result<(&'static str, &'static str)> {
        let mut folder = self.between.stopped(alloc, count)?;
        let word = self.between.word_of(alloc, &folder)?;
        let more = match resume(alloc, &mut folder, true)? {
            Resumed::Nothing => "",
            Resumed::Completed => ", with work left",
            Resumed::Cleared => bail!("there was no copy"),
        };
        if word == "the new copy" {
            self.check_whole(alloc, &folder)?;
        }
        if count % EACH == 0 {
            self.update_again(rt, alloc, folder)?;
        }
        Ok((word, more))
    }

    // Stops the run after so many calls, and goes on with another one; returns whether it was stopped.
    fn go_on<R: Threads + Wait + Sync>(&self, rt: &R, alloc: Global, limit: u64) -> Result<bool> {
        let mut folder = opened(alloc, self.between.stopped(alloc, 0)?);
        let updated = update_all(rt, alloc, &mut folder, &self.repo, Some(limit))?;
        self.update_again(rt, alloc, memory(folder))?;
        match updated.stopped {
            None => Ok(false),
            Some(calls) if calls == limit => Ok(true),
            Some(calls) => bail!("stopped after {calls} calls"),
        }
    }
}

/// Stops the update after each number of steps, and completes it.
pub(crate) fn try_stopped_updates<R: Print + Threads + Wait + Sync + AllocGlobal>(
    rt: &R,
    all: &Advance,
) -> Result<()> {
    all.check_whole(rt.alloc(), &all.between.whole)?;
    let steps = all.between.steps();
    println!(rt; "an update takes {steps} steps")?;
    let mut last = ("", "");
    for count in 0..steps.saturating_add(1) {
        let words = all.complete(rt, rt.alloc(), count)?;
        if words != last {
            println!(rt; "stopped after {count}: {}{}", words.0, words.1)?;
            last = words;
        }
    }
    Ok(())
}

/// Loses the power after each number of steps of the update.
pub(crate) fn try_lost_updates<R: Print + AllocGlobal>(rt: &R, all: &Advance) -> Result<()> {
    for count in 0..all.between.steps().saturating_add(1) {
        all.between.lose_power(rt.alloc(), count)?;
    }
    println!(rt;
        "losses of power in {} steps: the old copy, or the new one",
        all.between.steps()
    )?;
    Ok(())
}

/// Stops the run after each number of calls, and goes on with another one.
pub(crate) fn try_limits<R: Print + Threads + Wait + Sync + AllocGlobal>(
    rt: &R,
    all: &Advance,
) -> Result<()> {
    'limits: for limit in 0..100u64 {
        if !all.go_on(rt, rt.alloc(), limit)? {
            println!(rt;
                "an update of {limit} calls, stopped after each: the new copy in the end"
            )?;
            break 'limits;
        }
    }
    Ok(())
}
