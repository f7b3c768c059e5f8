//! Reports of what a client has (`svn_ra.h`): the reporter that records them, the report, and how it is printed.
//!
//! A [`Reporter`] takes the calls `set_path`, `link_path` and `delete_path`, refuses one with a [`ReporterFault`], and ends as a [`Report`],
//! whose entries ([`ReportEntry`]) are found by place, by path and by what is below a path.
//!
//! ```
//! let mut reporter = Reporter::new(alloc);
//! reporter.set_path(&RelPath::root(alloc), Rev(1), false)?;
//! reporter.delete_path(&RelPath::parse(alloc, "b")?)?;
//! let below = reporter.set_path(&RelPath::parse(alloc, "b/c")?, Rev(1), false);
//! assert_eq!(rt; below, Err(ReporterFault::UnderDeleted));
//! let report = reporter.finish_report();
//! print!(rt; "{report}")?;
//! ```
//!
//! prints `set . 1` and `delete b`.
//!
//! Files: `report` has the reporter and the report, `entry` and `reporter_fault` their values, `report_iter` the iterator, `lines` the printed form.
//! Both rest on `listing`, which keeps the entries by path in the order of the calls. If that is path order, `in_order` finds what is above, below
//! or after a path among them. Else `path_index` has their paths in path order, which gives what is above and below, and in the order in which
//! directories end, which gives what comes after a whole subtree. A drive needs neither: `in_path_order` lists the entries once, sorted if they came
//! otherwise. `specs/ReportOrder.antt` says what both find; `proofs/InOrder` is about the first, `EndOrder` about the second, `NextNames` has the next
//! name by either, `Sorting` the sorted list.
//!
//! Promises: each call returns the first fault in the order and no other, with Memory last (`answer`); an accepted one adds exactly
//! its entry (`added`), a refused one leaves the reporter as it was (`unchanged`). The readers of a `Report` are exact, and
//! `next_name_below` enumerates the names below a path, each once (`first`, `in_turn`); `in_path_order` has the same entries, in the order
//! of their paths (`same`, `ordered`). What holds of every report is the contract of `Report::law` (`IsReport` of
//! `specs/LawfulReports.antt`). `Display` has exactly the bytes of `specs/Lines.antt`. `check_report` of `svn_drive` tests whether a repository has
//! what a report says.
#![tactic(auto)]

mod entry;
mod in_order;
mod lines;
mod listing;
mod path_index;
mod report;
mod report_iter;
mod reporter_fault;

pub use entry::ReportEntry;
pub use lines::EntryLine;
pub use report::{Report, Reporter};
pub use report_iter::ReportIter;
pub use reporter_fault::ReporterFault;
