//! An update whose driver is never more than two calls ahead of the copy, so that it hears of a refused call before it has made all.
use crate::copies::is_true;
use crate::edits::text_of;
use crate::trouble::Trouble;
use std::alloc::Global;
use std::sync::Wait;
use std::sync::atomic::{AtomicU64, Ordering};
use std::thread::{self, Threads};
use svn_repo::{Change, Repo};
use svn_run::{Gate, NoGate, Options, Outcome, update};
use svn_types::{RelPath, Rev};
use svn_wc::WorkingCopy;

const FILES: u64 = 40;

// How often a thread looks for the other before it gives up.
const LOOKS: u64 = 10_000_000;

const OF_ONE_CALL: Options = Options {
    capacity: 1,
    cancel_after: None,
    late_texts: false,
};

// Holds each call back until the one before it was taken.
#[derive(Drop)]
struct InStep {
    taken: AtomicU64,
}

impl Gate for InStep {
    fn before_send(&self, n: u64) {
        for _ in 0..LOOKS {
            if self.taken.load(Ordering::SeqCst) >= n.saturating_sub(1) {
                return;
            }
            thread::yield_now();
        }
    }

    fn after_take(&self, n: u64) {
        self.taken.store(n, Ordering::SeqCst);
    }
}

fn put_file(alloc: Global, file: u64, text: &str) -> Result<Change, Trouble> {
    let name = format!(in alloc; "f{file:02}")?;
    let path = RelPath::parse(alloc, &name)?;
    let text = text_of(alloc, text)?;
    Ok(Change::PutFile { path, text })
}

// Gives each file this text, in one commit.
fn put_all(alloc: Global, repo: &mut Repo, text: &str) -> Result<(), Trouble> {
    let mut changes = Vec::new(alloc);
    for file in 0..FILES {
        changes.push(put_file(alloc, file, text)?)?;
    }
    repo.commit(&changes)?;
    Ok(())
}

// The copy must be true.
fn run<R: Threads + Wait + Sync, G: Gate>(
    rt: &R,
    alloc: Global,
    repo: &Repo,
    copy: &mut WorkingCopy,
    gate: &G,
) -> Result<Outcome, Trouble> {
    if copy.check_true(repo).is_err() {
        return Err(Trouble::Other("a copy isn't true"));
    }
    match update(rt, alloc, repo, copy, Rev(2), OF_ONE_CALL, gate) {
        Ok((outcome, _)) => Ok(outcome),
        Err(fault) => Err(Trouble::from(fault)),
    }
}

// A run that goes on closes, or it wants memory itself.
fn closes(outcome: Outcome) -> Result<(), Trouble> {
    match outcome {
        Outcome::Closed { .. } => Ok(()),
        Outcome::Aborted { .. } => Err(Trouble::Memory),
    }
}

/// The update of forty files, and one more after it, which closes however that ended. The result is how the first did.
pub(crate) fn in_step<R: Threads + Wait + Sync>(rt: &R, alloc: Global) -> Result<Outcome, Trouble> {
    let mut repo = Repo::new(alloc)?;
    put_all(alloc, &mut repo, "a")?;
    put_all(alloc, &mut repo, "abc")?;
    let mut copy = WorkingCopy::checkout(alloc, &repo, Rev(1))?;
    let gate = InStep {
        taken: AtomicU64::new(0),
    };
    let outcome = run(rt, alloc, &repo, &mut copy, &gate)?;
    closes(run(rt, alloc, &repo, &mut copy, &NoGate)?)?;
    is_true(&repo, &copy)?;
    Ok(outcome)
}
