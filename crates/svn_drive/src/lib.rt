//! The driver: from what a client reports and a target it makes the calls of an edit (`svn_repos.h`, the reporter's drive).
//!
//! [`check_report`] says whether the repository has what a report says, by a [`ReportFault`]. [`drive`] gives an editor the calls of an
//! update, [`drive_switch`] those of a switch of the whole copy; [`DriveOptions`] say when to give up and where texts come, and
//! [`DriveEnd`] or [`DriveFault`] how it ended.
//!
//! ```
//! let report = copy.crawl(alloc)?;
//! assert!(rt; check_report(alloc, &repo, &report).is_ok());
//! let mut recorder = Recorder::new(alloc);
//! let options = DriveOptions { cancel_after: None, late_texts: false };
//! let end = drive(alloc, &repo, &report, Rev(2), options, &mut recorder)?;
//! assert_eq!(rt; end, DriveEnd::Closed { calls: recorder.calls().len() as u64 });
//! ```
//!
//! Files: `check` reads what a report says of a path, from what it says of the parent, and looks up the nodes. `driving` starts a drive and gives it
//! up; `request` is what a drive is asked for. `visit` walks down and calls the editor; `making` makes the calls and counts calls and tokens. `place` and
//! `walk` find what a path is, `nodes` what a node has. The entries of a report are listed once, in path order, so those at or below a path are a slice
//! of the list (`report_part`); `entries` is what one says. `lists_left` goes through a directory's entries, or through such a slice, name by name;
//! `child_names` through the entries of both sides and the reported names together, so that each name comes once; `children` keeps those at
//! which something must be done.
//!
//! To change which calls a drive makes, begin with the definition (`svn_model/specs/Steps.antt`, `TreeCalls.antt`) and the laws of `law_drive`; then
//! `visit`.
//!
//! Promises: `check_report` returns the first fault in the order of the definition (`answer`). For every report and every editor the calls
//! made are those of one list, `drive_calls` of `svn_model/specs/TreeCalls.antt`, each accepted, or the first of them and then `AbortEdit`, or
//! none (`calls`); for a report that can be served that list is the drive of the definition (`of_definition`).
#![tactic(auto)]

mod check;
mod child_names;
mod children;
mod driving;
mod entries;
mod lists_left;
mod making;
mod nodes;
mod place;
mod report_part;
mod request;
mod visit;
mod walk;

pub use check::check_report;
pub use driving::{drive, drive_request, drive_switch, drive_tested, fault_between};
pub use request::{DriveOptions, Request};
pub use svn_model::{DriveEnd, DriveFault, ReportFault};
