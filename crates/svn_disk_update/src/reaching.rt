//! The copy that an update or a switch leads to.
ghost use Rattle.std.specs.Prelude.{◌≡◌, [], IfOk};
ghost use Rattle.svn_model.specs.Nodes.{get_in, IsTrueOf};
ghost use Rattle.svn_disk_update.specs.Reaching.{IsReachedWhole};

use crate::alone::{switch_alone, update_alone};
use crate::fault::UpdateFault;
use crate::part::{part_of, with_part};
use crate::runs::{request_of, run_copy};
use crate::target::{Reached, Target};
use std::alloc::Global;
use std::sync::Wait;
use std::thread::Threads;
use svn_repo::Repo;
use svn_run::RunFault;
use svn_wc::WorkingCopy;

// A whole copy, by one run.
#[tactic(auto, using(crate::proofs::RunLemmas::reached_truth))]
fn reach_whole<R: Threads + Wait + Sync>(
    rt: &R,
    alloc: Global,
    repo: &Repo,
    copy: &WorkingCopy,
    target: &Target<'_>,
) -> Result<Reached, UpdateFault>
    requires truth { IsTrueOf repo.now (get_in copy.now) }
    ensures reached { IfOk result (IsReachedWhole repo.now copy.now target.now) }
    ensures truth { IfOk result (λ r. IsTrueOf repo.now (get_in r.copy)) }
{
    let request = request_of(target)?;
    match run_copy(rt, alloc, repo, copy, &request, target.options.capacity) {
        Ok(reached) => Ok(reached),
        Err(fault) => Err(UpdateFault::of_run(fault, target.path.clone()?)),
    }
}

// A path at which no run leads to the target: an update brings it there as one node.
fn reach_alone(
    alloc: Global,
    repo: &Repo,
    copy: &WorkingCopy,
    target: &Target<'_>,
) -> Result<Reached, UpdateFault>
    requires truth { IsTrueOf repo.now (get_in copy.now) }
    ensures { IfOk result (λ r. IsTrueOf repo.now (get_in r.copy)) }
{
    match target.to {
        Some(to) => switch_alone(alloc, repo, copy, target, to),
        None => update_alone(alloc, repo, copy, target.path, target.rev),
    }
}

// A directory below the root, by a run on it as a copy of its own.
fn reach_directory<R: Threads + Wait + Sync>(
    rt: &R,
    alloc: Global,
    repo: &Repo,
    copy: &WorkingCopy,
    target: &Target<'_>,
) -> Result<Reached, UpdateFault>
    requires truth { IsTrueOf repo.now (get_in copy.now) }
    ensures { IfOk result (λ r. IsTrueOf repo.now (get_in r.copy)) }
{
    let part = part_of(alloc, repo, copy, target.path)?;
    let request = request_of(target)?;
    match run_copy(rt, alloc, repo, &part, &request, target.options.capacity) {
        Ok(reached) => Ok(Reached {
            copy: with_part(alloc, repo, copy, target.path, &reached.copy)?,
            lines: reached.lines,
            stopped: reached.stopped,
        }),
        Err(RunFault::NoRoot | RunFault::OtherRoot) if target.to.is_none() => {
            update_alone(alloc, repo, copy, target.path, target.rev)
        }
        Err(fault) => Err(UpdateFault::of_run(fault, target.path.clone()?)),
    }
}

/// The copy that an update or a switch leads to, by a run of `svn_run` where it is of the whole copy or of a directory, and the lines that it prints. The copy
/// must be true of the repository (`WorkingCopy::check_true` is the test), and the repository have the revision.
///
/// Nothing where the target has nothing in the place of the root, or where a switch leads, or at a path that the copy doesn't have either; OtherNode where
/// the root, or what is switched, would become another node; NotInCopy; Copy and Path where a path would be too long; Run where the capacity is refused or
/// no thread could be made; Memory. It may wait for the driver's thread.
pub fn reach<R: Threads + Wait + Sync>(
    rt: &R,
    alloc: Global,
    repo: &Repo,
    copy: &WorkingCopy,
    target: &Target<'_>,
) -> Result<Reached, UpdateFault>
    requires truth { IsTrueOf repo.now (get_in copy.now) }
    ensures whole { target.now.path.now ≡ [] → IfOk result (IsReachedWhole repo.now copy.now target.now) }
    ensures truth { IfOk result (λ r. IsTrueOf repo.now (get_in r.copy)) }
{
    if target.path.is_root() {
        return reach_whole(rt, alloc, repo, copy, target);
    }
    match copy.get(target.path) {
        Some(node) if node.is_directory() => reach_directory(rt, alloc, repo, copy, target),
        _ => reach_alone(alloc, repo, copy, target),
    }
}
