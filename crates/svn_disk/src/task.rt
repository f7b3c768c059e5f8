//! What is left to do on disk for a change: what goes, and then what comes.
ghost use Rattle.std.specs.Prelude.{◌≡◌, [], Bool, true, IfOk, IfSome};
ghost use Rattle.std.specs.List.{list_all, list_any};
ghost use Rattle.svn_wcrows.specs.declared.work.Work.{Work};
ghost use Rattle.svn_disk.specs.Places.{is_outside};
ghost use Rattle.svn_disk.specs.Plans.{path_of};
ghost use Rattle.svn_disk.specs.Tasks.{removals_in, makings_in, is_removal, IsParted};
ghost use Rattle.svn_disk.specs.Changes.{removals_of, makings_of};

use crate::fault::DiskFault;
use crate::layout::is_outside;
use crate::plan::Plan;
use std::alloc::Global;
use std::collections::BTreeSet;
use svn_types::RelPath;
use svn_wcrows::Work;

/// What is left to do on disk.
#[derive(Drop)]
pub(crate) struct Task {
    /// The files that go, and then the directories, from below; then the directories that come, from above, and the files.
    pub(crate) work: Vec<Work>,
    // How many of these remove something.
    removals: usize,
}

fn is_removal(work: &Work) -> bool
    ensures { result ≡ is_removal work.now }
{
    match work {
        Work::RemoveFile(_) | Work::RemoveDirectory(_) => true,
        Work::MakeDirectory(_) | Work::InstallFile(_) => false,
    }
}

// Whether all of it removes something.
fn all_go(work: &[Work]) -> bool
    ensures { result ≡ list_all is_removal work.now }
{
    work.iter().all(|item| is_removal(item))
}

// Whether some of it removes something.
fn any_goes(work: &[Work]) -> bool
    ensures { result ≡ list_any is_removal work.now }
{
    work.iter().any(|item| is_removal(item))
}

// Whether none of it is in the administrative folder, or at the path of the copy itself.
fn is_all_outside(work: &[Work]) -> bool
    ensures { result ≡ list_all (λ item. is_outside (path_of item)) work.now }
{
    work.iter().all(|item| is_outside(item.path()))
}

impl Task {
    /// That of a plan.
    pub(crate) fn of_plan(alloc: Global, plan: &Plan<'_>) -> Result<Task, DiskFault>
        ensures removals { IfOk result (λ task. removals_in task ≡ removals_of plan.now.was.now plan.now.changes.entries) }
        ensures makings { IfOk result (λ task. makings_in task ≡ makings_of plan.now.wanted.now plan.now.changes.entries) }
    {
        let mut work = plan.removals(alloc)?;
        let removals = work.len();
        let mut makings = plan.makings(alloc)?;
        work.append(&mut makings)?;
        Ok(Task { work, removals })
    }

    /// That of a queue which this library left; none if it makes something before all that goes is removed, or is about the administrative folder.
    pub(crate) fn of_queue(work: Vec<Work>) -> Option<Task>
        ensures outside { IfSome result (λ task. list_all (λ item. is_outside (path_of item)) task.work.items ≡ true) }
        ensures same { IfSome result (λ task. task.work.items ≡ work.items) }
        ensures parted { IfSome result (λ task. IsParted task) }
    {
        if !is_all_outside(&work) {
            return None;
        }
        let removals = work
            .iter()
            .position(|item| !is_removal(item))
            .unwrap_or(work.len());
        let task = Task { work, removals };
        if task.is_parted() { Some(task) } else { None }
    }

    // Whether all that goes comes first.
    fn is_parted(&self) -> bool
        ensures { result ≡ true → IsParted self.now }
    {
        all_go(self.removals()) && !any_goes(self.makings())
    }

    /// What goes.
    pub(crate) fn removals(&self) -> &[Work]
        ensures all { (P : Work → Bool) → list_all P self.now.work.items ≡ true → list_all P result.now ≡ true }
        ensures same { result.now ≡ removals_in self.now }
    {
        let count = self.removals.min(self.work.len());
        &self.work[..count]
    }

    /// What comes.
    pub(crate) fn makings(&self) -> &[Work]
        ensures all { (P : Work → Bool) → list_all P self.now.work.items ≡ true → list_all P result.now ≡ true }
        ensures same { result.now ≡ makings_in self.now }
    {
        let count = self.removals.min(self.work.len());
        &self.work[count..]
    }

    /// Whether nothing is left to do.
    pub(crate) fn is_empty(&self) -> bool
        ensures { result ≡ true → self.now.work.items ≡ [] }
    {
        self.work.is_empty()
    }

    /// The paths at which something goes.
    pub(crate) fn gone(&self, alloc: Global) -> Result<BTreeSet<RelPath>, DiskFault> {
        let mut gone = BTreeSet::new(alloc);
        for item in self.removals() {
            gone.insert(item.path().clone()?)?;
        }
        Ok(gone)
    }

    /// Those of them at which a file comes.
    pub(crate) fn replacing_files(&self, alloc: Global) -> Result<BTreeSet<RelPath>, DiskFault> {
        let gone = self.gone(alloc)?;
        let mut files = BTreeSet::new(alloc);
        for item in self.makings() {
            if let Work::InstallFile(path) = item {
                if gone.contains(path) {
                    files.insert(path.clone()?)?;
                }
            }
        }
        Ok(files)
    }

    /// Whether something comes where something else goes. Once such work is half done, not all of it can be done again.
    pub(crate) fn changes_kind(&self, alloc: Global) -> Result<bool, DiskFault> {
        let gone = self.gone(alloc)?;
        Ok(self.makings().iter().any(|item| gone.contains(item.path())))
    }
}
