//! What a run rests on: its laws, and its copy.
ghost use Rattle.law_update.specs.Laws.{IsTrueCopy};
ghost use Rattle.svn_model.specs.Nodes.{get_in, IsTrueOf};
ghost use Rattle.svn_run.specs.RunLaws.{RunLaws};

use law_copy::calls_are_applied_in_turn;
use law_drive::the_calls_are_a_drive;
use law_update::{crawl_says_what_stands, drive_composes, prefixes_stay_true, stopped_run_resumes};
use svn_repo::Repo;
use svn_wc::WorkingCopy;

/// It does nothing. Its contract has the laws of the report, the drive and the copy.
pub(crate) fn laws()
    ensures { RunLaws }
{
    crawl_says_what_stands();
    the_calls_are_a_drive();
    drive_composes();
    prefixes_stay_true();
    stopped_run_resumes();
    calls_are_applied_in_turn();
}

/// It does nothing. Its contract says what the laws ask of a copy: the nodes of one that is true of its repository.
pub(crate) fn true_copy(repo: &Repo, copy: &WorkingCopy)
    requires truth { IsTrueOf repo.now (get_in copy.now) }
    ensures { IsTrueCopy repo.now copy.now }
{
    repo.law();
    copy.law();
}
