//! A run by any of the four calls.
use crate::copies::is_true;
use crate::printed::has;
use crate::trouble::{Trouble, holds, same};
use std::alloc::Global;
use std::sync::Wait;
use std::thread::Threads;
use svn_repo::Repo;
use svn_run::{
    Cause, NoGate, Options, Outcome, switch_to, switch_to_in_turn, update, update_in_turn,
};
use svn_script::Command;
use svn_types::{RelPath, Rev};
use svn_wc::WorkingCopy;

/// On one thread, or on two with at most that many calls between them.
#[derive(Clone, Copy)]
pub(crate) enum Form {
    InTurn,
    InThreads(usize),
}

/// What is asked of a run: the path that the root must have, where it is a switch of the whole copy, and the target.
#[derive(Clone, Copy)]
pub(crate) struct Wanted<'a> {
    form: Form,
    to: Option<&'a RelPath>,
    target: Rev,
    cancel_after: Option<u64>,
    late_texts: bool,
}

impl<'a> Wanted<'a> {
    /// What a command asks of a run, if it is made by one.
    pub(crate) fn by(form: Form, command: &'a Command) -> Option<Wanted<'a>> {
        match command {
            Command::Update {
                rev,
                cancel_after,
                late,
            } => Some(Wanted {
                form,
                to: None,
                target: *rev,
                cancel_after: *cancel_after,
                late_texts: *late,
            }),
            Command::SwitchTo {
                repos_path,
                rev,
                cancel_after,
                late,
            } => Some(Wanted {
                form,
                to: Some(repos_path),
                target: *rev,
                cancel_after: *cancel_after,
                late_texts: *late,
            }),
            _ => None,
        }
    }
}

fn run_in_turn(
    alloc: Global,
    repo: &Repo,
    copy: &mut WorkingCopy,
    wanted: &Wanted<'_>,
) -> Result<Outcome, Trouble> {
    if copy.check_true(repo).is_err() {
        return Err(Trouble::Other("a copy isn't true"));
    }
    let (target, late_texts) = (wanted.target, wanted.late_texts);
    let cancel_after = wanted.cancel_after;
    Ok(match wanted.to {
        Some(to) => switch_to_in_turn(alloc, repo, copy, to, target, cancel_after, late_texts)?,
        None => update_in_turn(alloc, repo, copy, target, cancel_after, late_texts)?,
    })
}

// Whether that many calls may have gone from thread to thread. `AbortEdit` isn't among those that a run counts; where a call is refused after
// which the driver made all others, there is none.
fn may_pass(outcome: Outcome, sent: u64) -> bool {
    match outcome {
        Outcome::Closed { calls } => sent == calls,
        Outcome::Aborted { made, cause, .. } => {
            sent == made.saturating_add(1) || (cause == Cause::Memory && sent == made)
        }
    }
}

// A run on two threads, if as many calls were taken as were sent.
fn counted(outcome: Outcome, sent: u64, taken: u64) -> Result<Outcome, Trouble> {
    if may_pass(outcome, sent) && taken == sent {
        Ok(outcome)
    } else {
        Err(Trouble::Other("other calls go from thread to thread"))
    }
}

fn run_in_threads<R: Threads + Wait + Sync>(
    rt: &R,
    alloc: Global,
    repo: &Repo,
    copy: &mut WorkingCopy,
    wanted: &Wanted<'_>,
    capacity: usize,
) -> Result<Outcome, Trouble> {
    if copy.check_true(repo).is_err() {
        return Err(Trouble::Other("a copy isn't true"));
    }
    let target = wanted.target;
    let options = Options {
        capacity,
        cancel_after: wanted.cancel_after,
        late_texts: wanted.late_texts,
    };
    let answer = match wanted.to {
        Some(to) => switch_to(rt, alloc, repo, copy, to, target, options, &NoGate),
        None => update(rt, alloc, repo, copy, target, options, &NoGate),
    };
    match answer {
        Ok((outcome, settled)) => counted(outcome, settled.sent, settled.taken),
        Err(fault) => Err(Trouble::from(fault)),
    }
}

// The copy must be true.
fn run<R: Threads + Wait + Sync>(
    rt: &R,
    alloc: Global,
    repo: &Repo,
    copy: &mut WorkingCopy,
    wanted: &Wanted<'_>,
) -> Result<Outcome, Trouble> {
    match wanted.form {
        Form::InTurn => run_in_turn(alloc, repo, copy, wanted),
        Form::InThreads(capacity) => run_in_threads(rt, alloc, repo, copy, wanted, capacity),
    }
}

// A run that doesn't begin leaves the copy as it was.
fn run_or_leave<R: Threads + Wait + Sync>(
    rt: &R,
    alloc: Global,
    repo: &Repo,
    copy: &mut WorkingCopy,
    wanted: &Wanted<'_>,
) -> Result<Outcome, Trouble> {
    let before = format!(in alloc; "{copy}")?;
    let answer = run(rt, alloc, repo, copy, wanted);
    if answer.is_err() {
        let other = "a run that doesn't begin changes the copy";
        has(alloc, copy, &before, other)?;
    }
    answer
}

// One that ran out of memory before it began is made again.
fn run_anew<R: Threads + Wait + Sync>(
    rt: &R,
    alloc: Global,
    repo: &Repo,
    copy: &mut WorkingCopy,
    wanted: &Wanted<'_>,
) -> Result<Outcome, Trouble> {
    match run_or_leave(rt, alloc, repo, copy, wanted) {
        Err(Trouble::Memory) => run_or_leave(rt, alloc, repo, copy, wanted),
        answer => answer,
    }
}

// After a run that was given up for memory the copy is true, and a whole run to the same revision ends.
fn resume<R: Threads + Wait + Sync>(
    rt: &R,
    alloc: Global,
    repo: &Repo,
    copy: &mut WorkingCopy,
    wanted: &Wanted<'_>,
) -> Result<(), Trouble> {
    let whole = Wanted {
        cancel_after: None,
        ..*wanted
    };
    let outcome = run(rt, alloc, repo, copy, &whole)?;
    let is_closed = matches!(outcome, Outcome::Closed { .. });
    holds(is_closed, "a run that is gone on with is given up")?;
    is_true(repo, copy)
}

fn is_given_up(outcome: Outcome) -> bool {
    matches!(
        outcome,
        Outcome::Aborted {
            cause: Cause::Memory,
            ..
        }
    )
}

// What a script prints of a run.
fn ends(alloc: Global, outcome: Outcome, printed: &str) -> Result<(), Trouble> {
    let found = match outcome {
        Outcome::Closed { calls } => format!(in alloc; "closed {calls}\n")?,
        Outcome::Aborted {
            made,
            accepted,
            cause,
            ..
        } => format!(in alloc; "aborted {made} {accepted} {cause:?}\n")?,
    };
    same(&found, printed, "a run ends otherwise")
}

/// Runs, and runs again where memory was refused.
pub(crate) fn run_to_end<R: Threads + Wait + Sync>(
    rt: &R,
    alloc: Global,
    repo: &Repo,
    copy: &mut WorkingCopy,
    wanted: &Wanted<'_>,
    printed: &str,
) -> Result<(), Trouble> {
    let outcome = run_anew(rt, alloc, repo, copy, wanted)?;
    if !is_given_up(outcome) {
        return ends(alloc, outcome, printed);
    }
    resume(rt, alloc, repo, copy, wanted)?;
    // where the run must be stopped early, the lines after it speak of what it leaves
    match wanted.cancel_after {
        Some(_) => Err(Trouble::Memory),
        None => Ok(()),
    }
}
