//! A run on a copy, with the lines that it prints.
ghost use Rattle.std.specs.Prelude.{◌≡◌, IfOk};
ghost use Rattle.svn_model.specs.Nodes.{get_in, IsTrueOf};
ghost use Rattle.svn_run.specs.UpdateTheorem.{asked};
ghost use Rattle.svn_disk_update.specs.Reaching.{IsLeft, IsReached, IsStop, request_of};

use crate::kept::KeptCalls;
use crate::target::{Reached, Target};
use std::alloc::{AllocError, Global};
use std::sync::Wait;
use std::thread::Threads;
use svn_audit::update_lines;
use svn_drive::{DriveOptions, Request};
use svn_editor::Mode;
use svn_repo::Repo;
use svn_run::{Cause, NoGate, Outcome, RunFault, run};
use svn_wc::WorkingCopy;

/// What is asked of a run that leads a copy to a target.
pub(crate) fn request_of(target: &Target<'_>) -> Result<Request, AllocError>
    ensures { IfOk result (λ r. r ≡ request_of target.now) }
{
    let mode = match target.to {
        Some(to) => Mode::SwitchTo(to.clone()?),
        None => Mode::Update,
    };
    Ok(Request {
        target: target.rev,
        mode,
        options: DriveOptions {
            cancel_after: target.options.cancel_after,
            late_texts: target.options.late_texts,
        },
    })
}

// Where a run was stopped by its limit. Memory where it ran out of memory.
fn stop_of(outcome: Outcome) -> Result<Option<u64>, RunFault>
    ensures { IfOk result (IsStop outcome) }
{
    match outcome {
        Outcome::Closed { .. } => Ok(None),
        Outcome::Aborted {
            accepted,
            cause: Cause::Cancelled,
            ..
        } => Ok(Some(accepted)),
        Outcome::Aborted { .. } => Err(RunFault::Memory),
    }
}

// Runs on a copy, which changes, and returns how that ended and what it called.
#[tactic(auto, using(crate::proofs::RunLemmas::is_left))]
fn run_kept<R: Threads + Wait + Sync>(
    rt: &R,
    alloc: Global,
    repo: &Repo,
    copy: &mut WorkingCopy,
    request: &Request,
    capacity: usize,
) -> Result<(Outcome, KeptCalls), RunFault>
    requires truth { IsTrueOf repo.now (get_in copy.old) }
    ensures { IfOk result (λ r. IsLeft (asked repo.now copy.old request.now) copy.new r.0) }
{
    let mut kept = KeptCalls::new(alloc);
    let (outcome, _passed) = run(rt, alloc, repo, copy, request, capacity, &NoGate, &mut kept)?;
    Ok((outcome, kept))
}

/// Runs on a copy, and returns the copy that the run leaves, with the lines that it prints. The faults are those of [`run`], and Memory also where the run
/// ran out of memory.
#[tactic(auto, using(crate::proofs::RunLemmas::is_reached))]
pub(crate) fn run_copy<R: Threads + Wait + Sync>(
    rt: &R,
    alloc: Global,
    repo: &Repo,
    copy: &WorkingCopy,
    request: &Request,
    capacity: usize,
) -> Result<Reached, RunFault>
    requires truth { IsTrueOf repo.now (get_in copy.now) }
    ensures { IfOk result (λ r. IsReached (asked repo.now copy.now request.now) r.copy r.stopped) }
{
    let Ok(mut left) = copy.clone() else {
        return Err(RunFault::Memory);
    };
    let (outcome, kept) = run_kept(rt, alloc, repo, &mut left, request, capacity)?;
    let stopped = stop_of(outcome)?;
    let Ok(calls) = kept.into_calls() else {
        return Err(RunFault::Memory);
    };
    match update_lines(alloc, copy, &calls) {
        Ok(lines) => Ok(Reached {
            copy: left,
            lines,
            stopped,
        }),
        Err(_) => Err(RunFault::Memory),
    }
}
