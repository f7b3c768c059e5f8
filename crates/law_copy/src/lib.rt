//! The laws of edits and of copies: what calls do to a working copy, one after the other, and what it reports. They are stated
//! over the definitions of `svn_model` alone, in `specs/Laws.antt` (edits) and `specs/CopyLaws.antt` (copies without a drive). Each law is
//! the contract of a function with an empty body: a caller of the function has the law.
//!
//! ```
//! pub fn check_true(&self, repo: &Repo) -> Result<(), &RelPath>
//!     ensures is_true { OnOk result (IsTrueOf repo.now (get_in self.now)) }
//! {
//!     truth_is_tested();
//!     // .. what is left to prove is which path the code finds first
//! ```
//!
//! `svn_edit` and `svn_wc` use them: the builders of a copy and its test of truth by the laws of copies, the applier by those of edits.
//! `proofs/Lib.antt` names the files of lemmas in their order, and `docs/PROOF.md` says how the laws are proved.
#![tactic(auto)]

ghost use Rattle.law_copy.specs.Laws.{a_call_keeps_the_shape, calls_are_applied_in_turn, calls_keep_the_shape};
ghost use Rattle.law_copy.specs.Laws.{directories_stay, files_stay, tokens_have_paths};
ghost use Rattle.law_copy.specs.CopyLaws.{a_checkout_is_a_true_copy, a_crawl_is_a_report, commits_keep_copies_true, forgetting_keeps_a_copy};
ghost use Rattle.law_copy.specs.CopyLaws.{nodes_make_a_copy, placing_keeps_a_copy, switching_keeps_a_copy, truth_is_tested};

/// One more call does to the copy what its effect says.
pub fn calls_are_applied_in_turn()
    ensures { calls_are_applied_in_turn }
{}

/// In a list of calls that are in order each token has a path of its own, and nothing is said of a path that wasn't opened.
pub fn tokens_have_paths()
    ensures { tokens_have_paths }
{}

/// Where an edit opened a directory there is one, as long as each open finds one there.
pub fn directories_stay()
    ensures { directories_stay }
{}

/// What is at an open file's path stays until its close.
pub fn files_stay()
    ensures { files_stay }
{}

/// A call that isn't refused keeps the shape of the copy, with what is at open paths: of an update and of a switch.
pub fn a_call_keeps_the_shape()
    ensures { a_call_keeps_the_shape }
{}

/// Calls leave, if none is refused, a copy that has the shape of one.
pub fn calls_keep_the_shape()
    ensures { calls_keep_the_shape }
{}

/// What a working copy reports is a report, and a reporter refuses none of its entries, each made after those before it.
pub fn a_crawl_is_a_report()
    ensures { a_crawl_is_a_report }
{}

/// No path of a copy is untrue exactly where the copy is true.
pub fn truth_is_tested()
    ensures { truth_is_tested }
{}

/// What a commit makes of a repository leaves every true copy of it true.
pub fn commits_keep_copies_true()
    ensures { commits_keep_copies_true }
{}

/// A checkout that isn't refused is a true copy.
pub fn a_checkout_is_a_true_copy()
    ensures { a_checkout_is_a_true_copy }
{}

/// A tree placed under its parent's repository path keeps a copy's shape and truth, where it isn't refused.
pub fn placing_keeps_a_copy()
    ensures { placing_keeps_a_copy }
{}

/// A tree placed from another repository path keeps a copy's shape and truth, where it isn't refused.
pub fn switching_keeps_a_copy()
    ensures { switching_keeps_a_copy }
{}

/// A path forgotten keeps a copy's shape and truth, where it isn't refused.
pub fn forgetting_keeps_a_copy()
    ensures { forgetting_keeps_a_copy }
{}

/// Nodes without a fault, under allowed names, have the shape of a copy.
pub fn nodes_make_a_copy()
    ensures { nodes_make_a_copy }
{}
