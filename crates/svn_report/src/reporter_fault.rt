//! Why a reporter refuses a call.
ghost use Rattle.std.specs.Prelude.{◌≡◌};
ghost use Rattle.svn_report.specs.FaultNumbers.{reporter_fault_number, reporter_fault_name};
ghost use Rattle.svn_report.specs.declared.reporter_fault.ReporterFault.TheVariants.{Memory};

use std::alloc::AllocError;
use thiserror::Error;

/// Why a reporter refuses a call. A refusal leaves the reporter as it was.
#[derive(Clone, Copy, Debug, PartialEq, Eq, Error)]
pub enum ReporterFault {
    /// The first call isn't `set_path` of the root.
    #[error("the root has to be set first")]
    NotRootFirst,
    /// The path has an entry.
    #[error("the path has an entry already")]
    Repeated,
    /// An entry above the path is a `delete_path`.
    #[error("a directory above the path is deleted")]
    UnderDeleted,
    /// An entry is below the path.
    #[error("an entry below the path came before")]
    ParentLater,
    /// The path of a link has over 64 names more than its path in the repository (so that it may have 128).
    #[error("the path of a link has over 64 names more than its path in the repository")]
    TooDeep,
    /// An allocation failed.
    #[error("out of memory")]
    Memory,
}

impl ReporterFault {
    /// The fault's number: from 1, NotRootFirst, to 6, Memory, in the order of the variants.
    pub fn number(self) -> u32
        ensures { result ≡ reporter_fault_number self }
    {
        match self {
            ReporterFault::NotRootFirst => 1,
            ReporterFault::Repeated => 2,
            ReporterFault::UnderDeleted => 3,
            ReporterFault::ParentLater => 4,
            ReporterFault::TooDeep => 5,
            ReporterFault::Memory => 6,
        }
    }

    /// The fault's name: that of its variant.
    pub fn name(self) -> &'static str
        ensures { result.now ≡ reporter_fault_name self }
    {
        match self {
            ReporterFault::NotRootFirst => "NotRootFirst",
            ReporterFault::Repeated => "Repeated",
            ReporterFault::UnderDeleted => "UnderDeleted",
            ReporterFault::ParentLater => "ParentLater",
            ReporterFault::TooDeep => "TooDeep",
            ReporterFault::Memory => "Memory",
        }
    }
}

impl From<AllocError> for ReporterFault {
    ghost from_gives = { λ _ e. e ≡ Memory };

    fn from(_error: AllocError) -> ReporterFault {
        Self::Memory
    }
}
