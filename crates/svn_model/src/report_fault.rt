//! Why a report can't be served.
ghost use Rattle.std.specs.Prelude.{◌≡◌};
ghost use Rattle.svn_model.specs.FaultNumbers.{report_fault_number, report_fault_name};
ghost use Rattle.svn_model.specs.declared.report_fault.ReportFault.TheVariants.{Memory};

use std::alloc::AllocError;
use thiserror::Error;

/// Why a repository can't serve a report. An entry is named by its place in the report, counted from 0; the first that can't be served decides.
#[derive(Clone, Copy, Debug, PartialEq, Eq, Error)]
pub enum ReportFault {
    /// The report is empty.
    #[error("the report has no entries")]
    NoEntries,
    /// The entry names a revision that the repository doesn't have.
    #[error("entry {0} of the report names a revision that isn't there")]
    NoSuchRevision(usize),
    /// Nothing is in the repository at the entry's path and revision, where the entry isn't a delete.
    #[error("entry {0} of the report names a node that isn't there")]
    NoNode(usize),
    /// The path above the entry isn't a directory in the repository, by what the report says of it.
    #[error("entry {0} of the report is below what isn't a directory")]
    ParentNotDir(usize),
    /// An allocation failed before the first of the other faults was found.
    #[error("out of memory")]
    Memory,
    /// The root of the report isn't a directory in the repository.
    #[error("the root of the report isn't a directory")]
    RootNotDir,
}

impl ReportFault {
    /// The fault's number: from 10, NoEntries, to 15, RootNotDir, in the order of the variants.
    pub fn number(self) -> u32
        ensures { result ≡ report_fault_number self }
    {
        match self {
            ReportFault::NoEntries => 10,
            ReportFault::NoSuchRevision(_) => 11,
            ReportFault::NoNode(_) => 12,
            ReportFault::ParentNotDir(_) => 13,
            ReportFault::Memory => 14,
            ReportFault::RootNotDir => 15,
        }
    }

    /// The fault's name: that of its variant.
    pub fn name(self) -> &'static str
        ensures { result.now ≡ report_fault_name self }
    {
        match self {
            ReportFault::NoEntries => "NoEntries",
            ReportFault::NoSuchRevision(_) => "NoSuchRevision",
            ReportFault::NoNode(_) => "NoNode",
            ReportFault::ParentNotDir(_) => "ParentNotDir",
            ReportFault::Memory => "Memory",
            ReportFault::RootNotDir => "RootNotDir",
        }
    }
}

impl From<AllocError> for ReportFault {
    ghost from_gives = { λ _ e. e ≡ Memory };

    fn from(_error: AllocError) -> ReportFault {
        ReportFault::Memory
    }
}
