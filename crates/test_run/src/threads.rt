// That the two threads of an update run side by side, and what a gate hears of the calls.
use crate::histories::{copy_of, repository};
use crate::rows::ONE_FILE;
use std::alloc::Global;
use std::process::Abort;
use std::sync::Wait;
use std::sync::atomic::{AtomicBool, AtomicU64, Ordering};
use std::test::Fail;
use std::thread::{self, Threads};
use svn_repo::Repo;
use svn_run::{Gate, Options, Outcome, update};
use svn_types::Rev;

// How often a thread checks for the other before it gives up. Each check yields to others, so that it suffices where much else runs.
const LOOKS: u64 = 10_000_000;

// Waits until the other thread has come that far; the result says whether it has.
fn comes(count: &AtomicU64, n: u64) -> bool {
    for _ in 0..LOOKS {
        if count.load(Ordering::SeqCst) >= n {
            return true;
        }
        thread::yield_now();
    }
    false
}

const IN_PLACE: Options = Options {
    capacity: 1,
    cancel_after: None,
    late_texts: false,
};

// The third call is held back until the first was taken, and that one until the third is about to be sent.
#[derive(Drop)]
struct Meeting {
    begun: AtomicU64,
    taken: AtomicU64,
    given_up: AtomicBool,
}

impl Meeting {
    // Says how far this side has come, and waits until the other has come as far as it must.
    fn meet(&self, here: &AtomicU64, n: u64, there: &AtomicU64, other: u64) {
        here.store(n, Ordering::SeqCst);
        if !comes(there, other) {
            self.given_up.store(true, Ordering::SeqCst);
        }
    }
}

impl Gate for Meeting {
    fn before_send(&self, n: u64) {
        if n == 3 {
            self.meet(&self.begun, 3, &self.taken, 1);
        }
    }

    fn after_take(&self, n: u64) {
        if n == 1 {
            self.meet(&self.taken, 1, &self.begun, 3);
        }
    }
}

// How an update of one file ends, and how many calls were sent and taken.
fn updated<R: Threads + Wait + Sync, G: Gate>(
    rt: &R,
    alloc: Global,
    repo: &Repo,
    options: Options,
    gate: &G,
) -> Result<(Outcome, u64, u64), Fail> {
    let mut copy = copy_of(alloc, repo, ONE_FILE.copy)?;
    if copy.check_true(repo).is_err() {
        return Err(Fail::from("the copy is not true"));
    }
    let (outcome, settled) = update(rt, alloc, repo, &mut copy, Rev(2), options, gate)?;
    Ok((outcome, settled.sent, settled.taken))
}

fn meet_at<R: Threads + Wait + Sync + Abort>(
    rt: &R,
    alloc: Global,
    repo: &Repo,
    capacity: usize,
) -> Result<(), Fail> {
    let gate = Meeting {
        begun: AtomicU64::new(0),
        taken: AtomicU64::new(0),
        given_up: AtomicBool::new(false),
    };
    let options = Options {
        capacity,
        ..IN_PLACE
    };
    let found = updated(rt, alloc, repo, options, &gate)?;
    let given_up = gate.given_up.load(Ordering::SeqCst);
    let met = (Outcome::Closed { calls: 7 }, 7, 7);
    assert_eq!(rt; (found, given_up), (met, false), "at {capacity}");
    Ok(())
}

#[test]
fn the_two_threads_meet(rt: HostRuntime) -> Result<(), Fail> {
    let repo = repository(rt.alloc(), ONE_FILE.history)?;
    meet_at(&rt, rt.alloc(), &repo, 1)?;
    meet_at(&rt, rt.alloc(), &repo, 64)
}

// The last number that was heard at each side, and whether each came after the one before it.
#[derive(Drop)]
struct Counting {
    sent: AtomicU64,
    taken: AtomicU64,
    other: AtomicBool,
}

impl Counting {
    fn count(&self, last: &AtomicU64, n: u64) {
        if last.load(Ordering::SeqCst).checked_add(1) != Some(n) {
            self.other.store(true, Ordering::SeqCst);
        }
        last.store(n, Ordering::SeqCst);
    }

    // The last numbers, and whether one came out of turn.
    fn heard(&self) -> (u64, u64, bool) {
        (
            self.sent.load(Ordering::SeqCst),
            self.taken.load(Ordering::SeqCst),
            self.other.load(Ordering::SeqCst),
        )
    }
}

impl Gate for Counting {
    fn before_send(&self, n: u64) {
        self.count(&self.sent, n);
    }

    fn after_take(&self, n: u64) {
        self.count(&self.taken, n);
    }
}

// A gate hears of that many calls at each side.
fn hears<R: Threads + Wait + Sync + Abort>(
    rt: &R,
    alloc: Global,
    repo: &Repo,
    cancel_after: Option<u64>,
    heard: u64,
) -> Result<(), Fail> {
    let gate = Counting {
        sent: AtomicU64::new(0),
        taken: AtomicU64::new(0),
        other: AtomicBool::new(false),
    };
    let options = Options {
        cancel_after,
        ..IN_PLACE
    };
    updated(rt, alloc, repo, options, &gate)?;
    assert_eq!(rt; gate.heard(), (heard, heard, false));
    Ok(())
}

#[test]
fn a_gate_hears_of_each_call_once(rt: HostRuntime) -> Result<(), Fail> {
    let repo = repository(rt.alloc(), ONE_FILE.history)?;
    // all seven calls; two of them, and the abort
    hears(&rt, rt.alloc(), &repo, None, 7)?;
    hears(&rt, rt.alloc(), &repo, Some(2), 3)
}
