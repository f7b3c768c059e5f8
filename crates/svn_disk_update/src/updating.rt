//! A working copy on disk, updated or switched.
ghost use Rattle.std.specs.Prelude.{◌≡◌, true, [], IfOk, OnOk};
ghost use Rattle.svn_model.specs.Nodes.{get_in, IsTrueOf};
ghost use Rattle.svn_run.specs.UpdateTheorem.{asked};
ghost use Rattle.svn_disk.specs.Crashes.{IsKept, IsThereOrTrue, IsTrueThere, LeavesFrom, AfterFrom};
ghost use Rattle.svn_disk_update.specs.Reaching.{IsReached};
ghost use Rattle.svn_disk_update.specs.Arriving.{request_at, IsArrived, IsUpdated, IsToUpdate};

use crate::fault::UpdateFault;
use crate::reaching::reach;
use crate::target::{Aim, Reached, Target, Updated};
use std::alloc::Global;
use std::collections::BTreeSet;
use std::sync::Wait;
use std::thread::Threads;
use svn_audit::UpdateLine;
use svn_disk::{PathChange, Source, Wanted, bring, changes, missing_nodes, refuse_reserved};
use svn_folder::{Folder, SyncedFolder};
use svn_repo::Repo;
use svn_types::{RelPath, Rev};
use svn_wc::WorkingCopy;

// The revision that is asked for, or the last one.
fn revision_of(repo: &Repo, rev: Option<Rev>) -> Result<Rev, UpdateFault> {
    let last = repo.latest();
    let rev = rev.unwrap_or(last);
    if rev > last {
        return Err(UpdateFault::NoRevision(rev.0, last.0));
    }
    Ok(rev)
}

// Refuses a copy that isn't true of the repository: an update leads from there to no certain copy.
fn refuse_untrue(repo: &Repo, copy: &WorkingCopy) -> Result<(), UpdateFault>
    ensures { OnOk result (IsTrueOf repo.now (get_in copy.now)) }
{
    match copy.check_true(repo) {
        Ok(()) => Ok(()),
        Err(path) => Err(UpdateFault::Untrue(path.clone()?)),
    }
}

// Where an update leads: the new copy, as it is brought to disk, its revision, and what is printed.
#[derive(Drop)]
struct Leading {
    wanted: Wanted,
    rev: Rev,
    restored: Vec<RelPath>,
    lines: Vec<UpdateLine>,
    stopped: Option<u64>,
}

impl Leading {
    // What was done.
    fn updated(self, changes: Vec<PathChange>) -> Updated
        ensures rev { result.rev ≡ self.rev }
        ensures stopped { result.stopped ≡ self.stopped }
        ensures changes { result.changes ≡ changes }
    {
        Updated {
            rev: self.rev,
            restored: self.restored,
            lines: self.lines,
            stopped: self.stopped,
            changes,
        }
    }
}

// Paths from that of the target on.
fn tails(
    alloc: Global,
    paths: &BTreeSet<RelPath>,
    above: &RelPath,
) -> Result<Vec<RelPath>, UpdateFault> {
    let depth = above.components().len();
    let mut tails = Vec::new(alloc);
    for path in paths {
        tails.push(path.tail(alloc, depth)?)?;
    }
    Ok(tails)
}

// Finds the copy that an update leads to.
fn run_to<R: Threads + Wait + Sync>(
    rt: &R,
    alloc: Global,
    what: &Aim<'_>,
    rev: Rev,
) -> Result<Reached, UpdateFault>
    ensures whole { what.now.path.now ≡ [] → IfOk result (λ r. IsReached (asked what.now.repo.now what.now.existing.now.copy (request_at what.now rev)) r.copy r.stopped) }
    ensures truth { IfOk result (λ r. IsTrueOf what.now.repo.now (get_in r.copy)) }
{
    let old = what.existing.copy();
    refuse_untrue(what.repo, old)?;
    let target = Target {
        path: what.path,
        to: what.to,
        rev,
        options: what.options,
    };
    reach(rt, alloc, what.repo, old, &target)
}

// Finds where an update of a folder leads.
fn find<R: Threads + Wait + Sync, F: Folder>(
    rt: &R,
    alloc: Global,
    folder: &F,
    what: &Aim<'_>,
) -> Result<Leading, UpdateFault>
    ensures whole { what.now.path.now ≡ [] → IfOk result (λ leading. IsReached (asked what.now.repo.now what.now.existing.now.copy (request_at what.now leading.rev)) leading.wanted.copy leading.stopped) }
    ensures truth { IfOk result (λ leading. IsTrueOf what.now.repo.now (get_in leading.wanted.copy)) }
{
    what.existing.refuse_busy()?;
    what.existing.refuse_other(alloc, what.uuid)?;
    let rev = revision_of(what.repo, what.rev)?;
    let Reached {
        copy,
        lines,
        stopped,
    } = run_to(rt, alloc, what, rev)?;
    refuse_reserved(&copy)?;
    let missing = missing_nodes(alloc, folder, what.existing, what.path)?;
    let restored = tails(alloc, &missing, what.path)?;
    let old = what.existing.copy();
    let wanted = Wanted::new(alloc, what.repo, old, copy, what.time)?;
    Ok(Leading {
        wanted: wanted.absent_in(rev).restoring(missing),
        rev,
        restored,
        lines,
        stopped,
    })
}

/// What [`update`] would do. It refuses what `update` refuses before it changes anything, and changes nothing.
pub fn would_update<R: Threads + Wait + Sync, F: Folder>(
    rt: &R,
    alloc: Global,
    folder: &F,
    what: &Aim<'_>,
) -> Result<Updated, UpdateFault>
    ensures { IfOk result (λ updated. IsToUpdate what.now.repo.now what.now.existing.now.copy updated.changes.items) }
{
    let leading = find(rt, alloc, folder, what)?;
    let changes = changes(alloc, folder, what.existing, &leading.wanted)?;
    Ok(leading.updated(changes))
}

/// Updates or switches the copy that is in a folder, and returns what was done. Where nothing differs nothing is touched.
///
/// Refused before anything is changed: Disk with Unfinished where work of this library is left, Foreign where a client's is, Repository; NoRevision; Untrue at
/// the first path that isn't what the repository has there; what [`reach`] refuses; Disk with Reserved, and with what is in the way of the change: Local,
/// NoDirectory, Changed and InTheWay at the first path. Then NoText, InUse, Folder, Rows and Path as of [`bring`]: up to the rename of the new database the copy is
/// the old one, and from then on the new one, with work left that [`resume`](svn_disk::resume) and `svn cleanup` do: then also Disk with Changed, InTheWay, InUse
/// and Overwritten. Memory. It may wait for the driver's thread.
pub fn update<R: Threads + Wait + Sync, F: Folder, S: Source>(
    rt: &R,
    alloc: Global,
    folder: &mut SyncedFolder<F>,
    source: &mut S,
    what: &Aim<'_>,
) -> Result<Updated, UpdateFault>
    ensures crash { what.now.sync ≡ true → LeavesFrom (IsKept what.now.existing.now.copy) (IsThereOrTrue what.now.existing.now.copy what.now.repo.now) (F.past folder.old.folder) (F.past folder.new.folder) }
    ensures after { what.now.sync ≡ true → OnOk result (AfterFrom (IsKept what.now.existing.now.copy) (IsTrueThere what.now.repo.now) (F.past folder.old.folder) (F.past folder.new.folder)) }
    ensures ends { IfOk result (λ updated. IsUpdated what.now.repo.now what.now.existing.now.copy (F.past folder.old.folder) updated.changes.items (F.past folder.new.folder)) }
    ensures whole { what.now.sync ≡ true → what.now.path.now ≡ [] → IfOk result (λ updated. AfterFrom (IsKept what.now.existing.now.copy) (IsArrived what.now.repo.now what.now.existing.now.copy (request_at what.now updated.rev) updated.stopped) (F.past folder.old.folder) (F.past folder.new.folder)) }
{
    let leading = find(rt, alloc, folder, what)?;
    let changes = bring(
        alloc,
        folder,
        source,
        what.existing,
        &leading.wanted,
        what.sync,
    )?;
    Ok(leading.updated(changes))
}
