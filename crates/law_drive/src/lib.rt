//! The laws of drives: which calls lead a client from what it reports to a target. They are stated over the definitions of `svn_model`
//! alone, in `specs/Laws.antt`. Each law is the contract of a function with an empty body: a caller of the function has the law.
//!
//! ```
//! pub fn caller()
//!     ensures { drive_is_determined }
//! {
//!     drive_is_determined();
//! }
//! ```
//!
//! The premises of all but [`drive_is_determined`] are a lawful repository, a report that a reporter made and that the repository can serve,
//! and a target without fault (for [`existing_targets_have_no_fault`] one that is there); the contracts `Repo::law`, `Report::law`, `check_report`
//! and `drive` give them. `svn_drive` uses [`the_calls_are_a_drive`]. `proofs/Lib.antt` names the files of lemmas in their order, and `docs/PROOF.md` says
//! how the laws are proved.
#![tactic(auto)]

ghost use Rattle.law_drive.specs.Laws.{drive_is_determined, existing_targets_have_no_fault, new_paths_have_parents};
ghost use Rattle.law_drive.specs.Laws.{the_calls_are_a_drive, the_tree_is_a_drive};

/// The list that a walk makes, by the names below each path, has the steps of each path once, in order of their keys: for every report that
/// the repository can serve, and every target that has the client's root.
pub fn the_tree_is_a_drive()
    ensures { the_tree_is_a_drive }
{}

/// The calls that a walk makes, with the tokens that it counts, are those of a drive: the steps of each path once, in order of their keys,
/// where each token is the place of its path among the paths opened. So it is with late texts and without.
pub fn the_calls_are_a_drive()
    ensures { the_calls_are_a_drive }
{}

/// There is at most one drive of a request.
pub fn drive_is_determined()
    ensures { drive_is_determined }
{}

/// In the drive of a report that the repository can serve, what is added is in a directory that is opened or added.
pub fn new_paths_have_parents()
    ensures { new_paths_have_parents }
{}

/// Where a report is of the repository's root, and leads there, each target that the repository has is without fault.
pub fn existing_targets_have_no_fault()
    ensures { existing_targets_have_no_fault }
{}
