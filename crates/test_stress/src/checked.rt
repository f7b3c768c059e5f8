//! A copy with its model, and the changes of a copy alone.

use crate::plain::{
    BaseTree, Fault, History, PlainPath, checked_out, crawl, first_untrue, forget, placing_fault,
    put_at,
};
use crate::stop::{Result, Stop, holds};
use crate::{compare, real};
use std::alloc::Global;
use svn_update::{Repo, Rev, WcFault, WorkingCopy};

/// What a stopped run owes: a run to the same target, asked for next, ends with this.
#[derive(Drop)]
pub(crate) struct Promise {
    pub(crate) to: Option<PlainPath>,
    pub(crate) rev: u64,
    pub(crate) result: BaseTree,
}

/// A copy, and what the model has of it.
#[derive(Drop)]
pub(crate) struct Checked {
    pub(crate) copy: WorkingCopy,
    pub(crate) tree: BaseTree,
    pub(crate) promise: Option<Promise>,
}

/// Puts what a revision has at a path's own repository path, or at another, at the path.
#[derive(Clone, Copy)]
pub(crate) struct Placing {
    pub(crate) path: PlainPath,
    pub(crate) repos: Option<PlainPath>,
    pub(crate) rev: u64,
}

impl Placing {
    pub(crate) fn fault(self, history: &History, tree: &BaseTree) -> Option<WcFault> {
        placing_fault(tree, history, self.path, self.repos, self.rev)
    }
}

/// The library's copy of what a revision has at a path.
pub(crate) fn checkout(
    alloc: Global,
    repo: &Repo,
    rev: u64,
    path: PlainPath,
) -> Result<Result<WorkingCopy, WcFault>> {
    let path = real::path(alloc, path)?;
    Ok(WorkingCopy::checkout_at(alloc, repo, &path, Rev(rev)))
}

// No place at which something differs is known.
fn is_nowhere(alloc: Global, what: &str, place: Option<PlainPath>) -> Result<()> {
    match place {
        Some(place) => Err(Stop::Differs(format!(in alloc; "{what} at {place}")?)),
        None => Ok(()),
    }
}

impl Checked {
    /// A copy that was just made, with its model.
    pub(crate) fn new(
        alloc: Global,
        history: &History,
        copy: WorkingCopy,
        rev: u64,
        path: PlainPath,
    ) -> Result<Checked> {
        let tree = checked_out(alloc, history, rev, path)?;
        Ok(Checked {
            copy,
            tree,
            promise: None,
        })
    }

    /// The library's result.
    pub(crate) fn place(
        &mut self,
        alloc: Global,
        repo: &Repo,
        placing: Placing,
    ) -> Result<Result<(), WcFault>> {
        let path = real::path(alloc, placing.path)?;
        match placing.repos {
            Some(repos) => {
                let repos = real::path(alloc, repos)?;
                Ok(self.copy.switch(repo, &path, &repos, Rev(placing.rev)))
            }
            None => Ok(self.copy.place(repo, &path, Rev(placing.rev))),
        }
    }

    /// What the model has afterwards.
    pub(crate) fn place_model(&mut self, history: &History, placing: Placing) -> Result<(), Fault> {
        let Placing { path, repos, rev } = placing;
        self.promise = None;
        put_at(&mut self.tree, history, path, repos, rev)
    }

    /// The library's result.
    pub(crate) fn forget(&mut self, alloc: Global, path: PlainPath) -> Result<Result<(), WcFault>> {
        let path = real::path(alloc, path)?;
        Ok(self.copy.forget(&path))
    }

    /// What the model has afterwards.
    pub(crate) fn forget_model(&mut self, path: PlainPath) -> Result<(), Fault> {
        self.promise = None;
        forget(&mut self.tree, path)
    }

    // Whether the copy has what the model has, and whether the model's is true.
    fn compare_nodes(&self, alloc: Global, history: &History) -> Result<()> {
        let place = compare::copy_difference(&self.copy, &self.tree);
        is_nowhere(alloc, "the copy differs", place)?;
        let place = first_untrue(history, &self.tree);
        is_nowhere(alloc, "the copy isn't true", place)
    }

    fn compare_truth(&self, alloc: Global, repo: &Repo) -> Result<()> {
        let is_true = self.copy.check_true(repo).is_ok();
        holds(alloc, is_true, "a true copy is called untrue")
    }

    fn compare_report(&self, alloc: Global) -> Result<()> {
        let report = self.copy.crawl(alloc)?;
        let model = crawl(alloc, &self.tree)?;
        let place = compare::report_difference(&report, &model);
        is_nowhere(alloc, "the report differs", place)
    }

    /// The copy, whether it is true, and what it reports.
    pub(crate) fn compare(&self, alloc: Global, repo: &Repo, history: &History) -> Result<()> {
        self.compare_nodes(alloc, history)?;
        self.compare_truth(alloc, repo)?;
        self.compare_report(alloc)
    }
}
