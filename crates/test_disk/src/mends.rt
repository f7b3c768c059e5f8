//! A false copy that is put right: each stop of that, by the program's end, with its completion; what is refused; what would be done.

use crate::between::{Between, memory, opened};
use crate::copies::{Known, TEXTS, UUID, empty, inner, make};
use crate::histories::{FOUND, LOST, Node, repo_of};
use crate::stops::look;
use anyhow::{Result, bail};
use std::alloc::Global;
use svn_disk::{Remedy, Resumed, mend, resume};
use svn_folder::{Entry, MemoryFolder, Mode};
use svn_repo::Repo;
use svn_types::{Rev, Text};
use svn_wc::WorkingCopy;

/// One of so many stops is followed by another mend.
const EACH: usize = 8;

/// A false copy that is put right, and the repository.
#[derive(Drop)]
pub(crate) struct Falsehood {
    pub(crate) repo: Repo,
    pub(crate) between: Between,
}

fn copy_of(alloc: Global, repo: &Repo) -> Result<WorkingCopy> {
    Ok(WorkingCopy::checkout(alloc, repo, Rev(1))?)
}

/// By what a copy is put right.
pub(crate) fn what(repo: &Repo) -> Remedy<'_> {
    Remedy {
        repo,
        uuid: UUID,
        time: 1_700_000_000_000_000,
        sync: true,
    }
}

// What of a node is on disk.
fn entry_of(alloc: Global, node: &Node) -> Result<Entry> {
    let (_, text, property) = node;
    let Some(text) = text else {
        return Ok(Entry::Directory);
    };
    if *property == "svn:special" {
        let target = text.strip_prefix("link ").unwrap_or("");
        return Ok(Entry::Link(Text::from_str(alloc, target)?));
    }
    let mode = Mode {
        executable: *property == "svn:executable",
        read_only: *property == "svn:needs-lock",
    };
    Ok(Entry::File(Text::from_str(alloc, text)?, mode))
}

/// Fails where a node of the repository isn't on disk.
pub(crate) fn check_found(alloc: Global, folder: &MemoryFolder) -> Result<()> {
    for node in &FOUND {
        if look(alloc, folder, node.0)? != Some(entry_of(alloc, node)?) {
            bail!("another entry at `{}`", node.0)
        }
    }
    Ok(())
}

/// Fails where something of the old copy is left that the repository doesn't have.
pub(crate) fn check_lost(alloc: Global, folder: &MemoryFolder) -> Result<()> {
    for (path, _, _) in &LOST {
        let is_found = FOUND.iter().any(|(found, _, _)| found == path);
        if !is_found && look(alloc, folder, path)?.is_some() {
            bail!("`{path}` is left")
        }
    }
    Ok(())
}

impl Falsehood {
    pub(crate) fn new(alloc: Global) -> Result<Falsehood> {
        let lost = copy_of(alloc, &repo_of(alloc, &LOST)?)?;
        let repo = repo_of(alloc, &FOUND)?;
        let found = copy_of(alloc, &repo)?;
        let mut folder = empty(alloc, u64::MAX);
        make(alloc, &mut folder, &lost)?;
        let made = folder.folder.folder.steps().len();
        mend(alloc, &mut folder, &mut Known::new(&TEXTS), &what(&repo))?;
        Ok(Falsehood {
            repo,
            between: Between {
                old: lost,
                new: found,
                whole: inner(folder),
                made,
            },
        })
    }

    // Fails unless the folder has the copy put right.
    pub(crate) fn check_whole(&self, alloc: Global, folder: &MemoryFolder) -> Result<()> {
        if self.between.word_of(alloc, folder)? != "the new copy" {
            bail!("the old copy is left")
        }
        check_found(alloc, folder)?;
        check_lost(alloc, folder)
    }

    // Puts right again what was left, and looks at all of it.
    fn mend_again(&self, alloc: Global, folder: MemoryFolder) -> Result<()> {
        let mut folder = opened(alloc, folder);
        mend(
            alloc,
            &mut folder,
            &mut Known::new(&TEXTS),
            &what(&self.repo),
        )?;
        self.check_whole(alloc, &memory(folder))
    }

    // Completes what was left after so many steps; returns which copy there was, and whether work was left.
    fn complete(&self, alloc: Global, count: usize) -> Result<(&'static str, &'static str)> {
        let mut folder = self.between.stopped(alloc, count)?;
        let word = self.between.word_of(alloc, &folder)?;
        let more = match resume(alloc, &mut folder, true)? {
            Resumed::Nothing => "",
            Resumed::Completed => ", with work left",
            Resumed::Cleared => bail!("there was no copy"),
        };
        if word == "the new copy" {
            self.check_whole(alloc, &folder)?;
        }
        if count % EACH == 0 {
            self.mend_again(alloc, folder)?;
        }
        Ok((word, more))
    }
}

/// Stops the mending after each number of steps, and completes it.
pub(crate) fn try_stopped_mends<R: Print + AllocGlobal>(rt: &R, all: &Falsehood) -> Result<()> {
    all.check_whole(rt.alloc(), &all.between.whole)?;
    let steps = all.between.steps();
    println!(rt; "a mend takes {steps} steps")?;
    let mut last = ("", "");
    for count in 0..steps.saturating_add(1) {
        let words = all.complete(rt.alloc(), count)?;
        if words != last {
            println!(rt; "stopped after {count}: {}{}", words.0, words.1)?;
            last = words;
        }
    }
    Ok(())
}

/// Loses the power after each number of steps of the mending.
pub(crate) fn try_lost_mends<R: Print + AllocGlobal>(rt: &R, all: &Falsehood) -> Result<()> {
    for count in 0..all.between.steps().saturating_add(1) {
        all.between.lose_power(rt.alloc(), count)?;
    }
    println!(rt;
        "losses of power in {} steps: the old copy, or the new one",
        all.between.steps()
    )?;
    Ok(())
}
