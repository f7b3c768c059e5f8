//! The laws that join the driver and the working copy, over the definitions of `svn_model` alone, in `specs/Laws.antt`. Each law is the
//! contract of a function with an empty body: a caller of the function has the law. So the contracts of driver and copy can be combined without
//! either knowing the other.
//!
//! ```
//! crawl_says_what_stands();
//! drive_composes();
//! // from here on the proof knows that the calls of a copy's drive are accepted and leave the result
//! ```
//!
//! Their premise is `IsRequestOf`: a true working copy, a report that describes it and that the repository can serve, and a target without
//! fault. The crawl of a true copy is such a report ([`crawl_says_what_stands`]). `svn_run` makes the update theorem of them and of the
//! contracts of driver, applier and link. `proofs/Lib.antt` names the files of lemmas in their order, `proofs/Rows` has worked examples, computed from
//! the definitions, and `docs/PROOF.md` says how the laws are proved.
#![tactic(auto)]

ghost use Rattle.law_update.specs.Laws.{crawl_says_what_stands, drive_composes, each_call_is_accepted, prefixes_stay_true};
ghost use Rattle.law_update.specs.Laws.{stopped_drive_resumes, stopped_run_resumes};

/// What a true working copy reports can be served, and says what the copy has.
pub fn crawl_says_what_stands()
    ensures { crawl_says_what_stands }
{}

/// No call of the drive of a true working copy is refused, and after all of them the copy is the result: for every report that
/// describes the copy.
pub fn drive_composes()
    ensures { drive_composes }
{}

/// Each call of the drive of a true working copy is accepted after those before it.
pub fn each_call_is_accepted()
    ensures { each_call_is_accepted }
{}

/// However many calls of its drive are made, a true working copy stays one.
pub fn prefixes_stay_true()
    ensures { prefixes_stay_true }
{}

/// Wherever its drive is stopped, every report that describes what is left leads to the same result.
pub fn stopped_drive_resumes()
    ensures { stopped_drive_resumes }
{}

/// Wherever its drive is stopped, a true working copy is driven on to the same result by what it then reports.
pub fn stopped_run_resumes()
    ensures { stopped_run_resumes }
{}
