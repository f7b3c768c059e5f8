//! What answers rest on: the laws of updates and of whole copies; and the law of the nodes after an update.
ghost use Rattle.svn_answers.specs.Laws.{nodes_are_of_the_target};
ghost use Rattle.svn_answers.specs.Topics.{LeadsToTarget};

use law_drive::the_calls_are_a_drive;
use law_update::{crawl_says_what_stands, drive_composes};
use svn_audit::whole_copies_lack_nothing;
use svn_repo::Repo;
use svn_wc::WorkingCopy;

/// It does nothing. Its contract says where the calls of an update lead, of a copy that is true of the repository.
pub(crate) fn updates_lead_to_targets(repo: &Repo, copy: &WorkingCopy)
    ensures { LeadsToTarget repo.now copy.now }
{
    repo.law();
    copy.law();
    crawl_says_what_stands();
    the_calls_are_a_drive();
    drive_composes();
}

/// The nodes that are printed of a copy that has to be true are those of the target revision.
pub fn nodes_are_of_the_target()
    ensures { nodes_are_of_the_target }
{
    whole_copies_lack_nothing();
}
