//! The library in a few lines: two revisions of a file, a working copy of the first, an update to the second with the driver in a
//! thread of its own, and what came of it, printed.
use anyhow::Result;
use std::alloc::Global;
use std::sync::Wait;
use std::thread::Threads;
use yumbeltir::{Change, NoGate, Options, RelPath, Repo, Rev, Text, WorkingCopy, update};

fn commit_file(alloc: Global, repo: &mut Repo, path: &str, text: &str) -> Result<Rev> {
    let path = RelPath::parse(alloc, path)?;
    let text = Text::from_slice(alloc, text.as_bytes())?;
    Ok(repo.commit(&[Change::PutFile { path, text }])?)
}

// Prints how the update ended, and the copy.
fn update_copy<R: Threads + Wait + Sync + Print>(
    rt: &R,
    alloc: Global,
    repo: &Repo,
    copy: &mut WorkingCopy,
) -> Result<()> {
    if copy.check_true(repo).is_ok() {
        let options = Options::default();
        let (outcome, _passed) = update(rt, alloc, repo, copy, Rev(2), options, &NoGate)?;
        println!(rt; "{outcome}")?;
    }
    Ok(print!(rt; "{copy}")?)
}

/// Runs it.
pub(crate) fn run<R: Threads + Wait + Sync + Print>(rt: &R, alloc: Global) -> Result<()> {
    let mut repo = Repo::new(alloc)?;
    commit_file(alloc, &mut repo, "f", "a")?;
    let mut copy = WorkingCopy::checkout(alloc, &repo, Rev(1))?;
    commit_file(alloc, &mut repo, "f", "abc")?;
    update_copy(rt, alloc, &repo, &mut copy)
}
