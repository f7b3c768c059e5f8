//! A repository and a copy with their model, and what the steps do to both.

use crate::checked::{self, Checked, Placing};
use crate::compare::{self, Ids};
use crate::counts::{Counts, NO_COUNTS};
use crate::plain::{Draft, Edit, History, PlainPath, checkout_fault, forgetting_fault};
use crate::real;
use crate::step::Step;
use crate::stop::{Result, Stop};
use std::alloc::Global;
use std::collections::BTreeMap;
use std::sync::Wait;
use std::thread::Threads;
use svn_update::{Change, CommitFault, Repo, Rev, WcFault, WorkingCopy};

/// A repository and perhaps a copy, each with its model.
#[derive(Drop)]
pub(crate) struct World {
    pub(crate) alloc: Global,
    pub(crate) repo: Repo,
    pub(crate) pending: Vec<Change>,
    pub(crate) history: History,
    pub(crate) draft: Draft,
    pub(crate) ids: Ids,
    pub(crate) checked: Option<Checked>,
    pub(crate) counts: Counts,
}

fn compare_commits(
    alloc: Global,
    answer: Result<Rev, CommitFault>,
    expected: Result<Rev, CommitFault>,
) -> Result<()> {
    if answer == expected {
        return Ok(());
    }
    Err(Stop::Differs(format!(in alloc; "commit gives {answer:?}, not {expected:?}")?))
}

fn compare_answers(
    alloc: Global,
    answer: Result<(), WcFault>,
    expected: Option<WcFault>,
) -> Result<()> {
    if answer.err() == expected {
        return Ok(());
    }
    Err(Stop::Differs(format!(in alloc; "another answer than {expected:?}")?))
}

impl World {
    pub(crate) fn new(alloc: Global) -> Result<World> {
        let history = History::new(alloc)?;
        let draft = Draft::begin(&history)?;
        Ok(World {
            alloc,
            repo: Repo::new(alloc)?,
            pending: Vec::new(alloc),
            history,
            draft,
            ids: BTreeMap::new(alloc),
            checked: None,
            counts: NO_COUNTS,
        })
    }

    fn edit(&mut self, edit: Edit) -> Result<()> {
        self.pending.push(real::change(self.alloc, edit)?)?;
        self.draft.add(&self.history, edit)?;
        Ok(())
    }

    fn compare_revision(&mut self, rev: u64) -> Result<()> {
        let alloc = self.alloc;
        let (repo, history) = (&self.repo, &self.history);
        match compare::revision_difference(alloc, repo, history, &mut self.ids, rev)? {
            Some(place) => Err(Stop::Differs(format!(in alloc;
                "revision {rev} differs at {place}"
            )?)),
            None => Ok(()),
        }
    }

    // Every revision, also the old ones.
    fn compare_revisions(&mut self) -> Result<()> {
        for rev in 0..self.history.latest().saturating_add(1) {
            self.compare_revision(rev)?;
        }
        Ok(())
    }

    fn commit_pending(&mut self) -> Result<Rev, CommitFault> {
        let committed = self.repo.commit(&self.pending);
        self.pending.clear();
        committed
    }

    fn commit_draft(&mut self) -> Result<Result<Rev, CommitFault>> {
        match self.draft.commit(&mut self.history)? {
            Some(fault) => Ok(Err(fault)),
            None => Ok(Ok(Rev(self.history.latest()))),
        }
    }

    fn commit(&mut self) -> Result<()> {
        let committed = self.commit_pending();
        let expected = self.commit_draft()?;
        compare_commits(self.alloc, committed, expected)?;
        self.counts.count_commit(expected.is_ok());
        self.compare_revisions()
    }

    // Goes on with a new copy, and its model.
    fn keep(&mut self, copy: WorkingCopy, rev: u64, path: PlainPath) -> Result<()> {
        let checked = Checked::new(self.alloc, &self.history, copy, rev, path)?;
        self.checked = Some(checked);
        Ok(())
    }

    // The library's result. Where the model expects a copy, it is kept.
    fn make_copy(
        &mut self,
        rev: u64,
        path: PlainPath,
        is_expected: bool,
    ) -> Result<Result<(), WcFault>> {
        match checked::checkout(self.alloc, &self.repo, rev, path)? {
            Ok(copy) if is_expected => Ok(Ok(self.keep(copy, rev, path)?)),
            Ok(_copy) => Ok(Ok(())),
            Err(fault) => Ok(Err(fault)),
        }
    }

    fn checkout(&mut self, rev: u64, path: PlainPath) -> Result<()> {
        let expected = checkout_fault(&self.history, rev, path);
        self.counts.count_build(expected.is_none());
        let answer = self.make_copy(rev, path, expected.is_none())?;
        compare_answers(self.alloc, answer, expected)
    }

    fn place(&mut self, placing: Placing) -> Result<()> {
        let Some(checked) = &mut self.checked else {
            return Ok(());
        };
        let expected = placing.fault(&self.history, &checked.tree);
        let answer = checked.place(self.alloc, &self.repo, placing)?;
        if expected.is_none() {
            checked.place_model(&self.history, placing)?;
        }
        self.counts.count_build(expected.is_none());
        compare_answers(self.alloc, answer, expected)
    }

    fn forget(&mut self, path: PlainPath) -> Result<()> {
        let Some(checked) = &mut self.checked else {
            return Ok(());
        };
        let expected = forgetting_fault(&checked.tree, path);
        let answer = checked.forget(self.alloc, path)?;
        if expected.is_none() {
            checked.forget_model(path)?;
        }
        self.counts.count_build(expected.is_none());
        compare_answers(self.alloc, answer, expected)
    }

    fn compare_copy(&self) -> Result<()> {
        match &self.checked {
            Some(checked) => checked.compare(self.alloc, &self.repo, &self.history),
            None => Ok(()),
        }
    }

    fn make<R: Threads + Wait + Sync>(&mut self, rt: &R, step: Step) -> Result<()> {
        match step {
            Step::Edit(edit) => self.edit(edit),
            Step::Commit => self.commit(),
            Step::Checkout { rev, path } => self.checkout(rev, path),
            Step::Place { path, rev } => self.place(Placing {
                path,
                repos: None,
                rev,
            }),
            Step::Switch { path, repos, rev } => self.place(Placing {
                path,
                repos: Some(repos),
                rev,
            }),
            Step::Forget { path } => self.forget(path),
            Step::Run(run) => self.run(rt, &run),
        }
    }

    /// Makes a step on both sides, and compares what they then have.
    pub(crate) fn take<R: Threads + Wait + Sync>(&mut self, rt: &R, step: Step) -> Result<()> {
        self.make(rt, step)?;
        match step {
            Step::Edit(_) => Ok(()),
            _ => self.compare_copy(),
        }
    }
}
