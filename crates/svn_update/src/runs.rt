//! The runs that the commands of a script make.
ghost use Rattle.std.specs.Prelude.{◌≡◌};
ghost use Rattle.svn_model.specs.Nodes.{get_in, IsTrueOf};
ghost use Rattle.svn_run.specs.UpdateTheorem.{asked};
ghost use Rattle.svn_update.specs.Runs.{ThreadsRun, ScriptRun, outcome_alone};

use std::alloc::Global;
use std::sync::Wait;
use std::thread::Threads;
use svn_drive::{DriveOptions, Request};
use svn_editor::Mode;
use svn_link::Settled;
use svn_repo::Repo;
use svn_run::{NoGate, NoListener, Outcome, RunFault, run, run_in_turn};
use svn_script::Settings;
use svn_types::Rev;
use svn_wc::WorkingCopy;

/// What a command asks of a run.
pub(crate) fn asked_for(
    mode: Mode,
    target: Rev,
    cancel_after: Option<u64>,
    late_texts: bool,
) -> Request
    ensures { result ≡ record { target = target; mode = mode; options = record { cancel_after = cancel_after; late_texts = late_texts } } }
{
    Request {
        target,
        mode,
        options: DriveOptions {
            cancel_after,
            late_texts,
        },
    }
}

// How a run on two threads ended, without what the threads passed.
fn outcome_alone(ended: Result<(Outcome, Settled), RunFault>) -> Result<Outcome, RunFault>
    ensures { result ≡ outcome_alone ended }
{
    match ended {
        Ok((outcome, _passed)) => Ok(outcome),
        Err(fault) => Err(fault),
    }
}

// On two threads.
#[tactic(auto, using(crate::proofs::RunLemmas::threads_run))]
fn run_in_threads<T: Threads + Wait + Sync>(
    rt: &T,
    alloc: Global,
    repo: &Repo,
    copy: &mut WorkingCopy,
    request: &Request,
    capacity: usize,
) -> Result<Outcome, RunFault>
    requires truth { IsTrueOf repo.now (get_in copy.old) }
    ensures { ThreadsRun (asked repo.now copy.old request.now) capacity copy.new result }
{
    outcome_alone(run(
        rt,
        alloc,
        repo,
        copy,
        request,
        capacity,
        &NoGate,
        &mut NoListener,
    ))
}

/// Runs as the settings say, on one thread or two.
#[tactic(auto, using(crate::proofs::RunLemmas::run_in_turn, crate::proofs::RunLemmas::run_in_threads))]
pub(crate) fn run_copy<T: Threads + Wait + Sync>(
    rt: &T,
    alloc: Global,
    settings: Settings,
    repo: &Repo,
    copy: &mut WorkingCopy,
    request: &Request,
) -> Result<Outcome, RunFault>
    requires truth { IsTrueOf repo.now (get_in copy.old) }
    ensures { ScriptRun settings (asked repo.now copy.old request.now) copy.new result }
{
    if settings.in_turn {
        run_in_turn(alloc, repo, copy, request, &mut NoListener)
    } else {
        run_in_threads(rt, alloc, repo, copy, request, settings.capacity)
    }
}
