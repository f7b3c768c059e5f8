//! What a copy knows of itself, so that a crawl need not look at its nodes, and how it learns it.
ghost use Rattle.std.specs.Prelude.{◌≡◌, true, false, IfOk, IfErr, slice_get};
ghost use Rattle.std.specs.List.{list_any};
ghost use Rattle.std.specs.Option.{option_to_list};
ghost use Rattle.svn_model.specs.Crawl.{crawl};
ghost use Rattle.svn_wc.specs.Crawling.{is_link, is_root_alone};

use crate::working_copy::WorkingCopy;
use std::alloc::Global;
use svn_model::WcFault;
use svn_report::{Report, ReportEntry};

/// What is known of all nodes of a copy. What is not known may hold all the same.
#[derive(Clone, Copy)]
pub struct Known {
    /// No path is switched: then a crawl compares no two paths.
    pub unswitched: bool,
    /// All nodes are present, complete and of one revision: then a crawl of a copy without switched paths looks at none of them.
    pub level: bool,
}

impl Known {
    /// Nothing is known.
    pub(crate) fn nothing() -> Known
        ensures unswitched { result.unswitched ≡ false }
        ensures level { result.level ≡ false }
    {
        Known {
            unswitched: false,
            level: false,
        }
    }
}

// Whether an entry of a report says that its path is switched.
fn is_link_at(report: &Report, i: usize) -> bool
    ensures { result ≡ list_any (λ e. is_link e.1) (option_to_list (slice_get report.now.entries i)) }
{
    match report.entry(i) {
        Some((_, entry)) => matches!(entry, ReportEntry::LinkPath { .. }),
        None => false,
    }
}

// Whether one of its entries does.
fn has_link(report: &Report) -> bool
    ensures { result ≡ false → list_any (λ e. is_link e.1) report.now.entries ≡ false }
{
    for i in 0..report.len() {
        if is_link_at(report, i) {
            return true;
        }
    }
    false
}

// Whether a report is of the root alone, and that is complete.
fn is_root_alone(report: &Report) -> bool
    ensures { result ≡ true → is_root_alone report.now.entries ≡ true }
{
    if report.len() != 1 {
        return false;
    }
    matches!(
        report.entry(0),
        Some((
            _,
            ReportEntry::SetPath {
                start_empty: false,
                ..
            },
        ))
    )
}

impl Known {
    // What is known, and what a report of the copy says.
    fn with_report(self, report: &Report) -> Known
        ensures unswitched { result.unswitched ≡ true → self.unswitched ≡ false → list_any (λ e. is_link e.1) report.now.entries ≡ false }
        ensures level { result.level ≡ true → self.level ≡ false → is_root_alone report.now.entries ≡ true }
    {
        Known {
            unswitched: self.unswitched || !has_link(report),
            level: self.level || is_root_alone(report),
        }
    }
}

impl WorkingCopy {
    /// What the copy reports, as `crawl` does. From the report the copy learns for later crawls: without a link, that no path is switched; of a
    /// complete root alone, that all nodes are as that is. It changes nothing that a contract sees.
    pub fn crawl_and_learn(&mut self, alloc: Global) -> Result<Report, WcFault>
        ensures report { IfOk result (λ r. r ≡ crawl self.old) }
        ensures fault { IfErr result (λ e. e ≡ WcFault.Memory) }
        ensures same { self.new ≡ self.old }
    {
        self.law();
        let report = self.crawl(alloc)?;
        self.known = self.known.with_report(&report);
        Ok(report)
    }
}
