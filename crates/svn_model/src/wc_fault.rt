//! Why a working copy refuses.
ghost use Rattle.std.specs.Prelude.{◌≡◌};
ghost use Rattle.svn_model.specs.FaultNumbers.{wc_fault_number, wc_fault_name};
ghost use Rattle.svn_model.specs.declared.wc_fault.WcFault.TheVariants.{Memory};

use std::alloc::AllocError;
use thiserror::Error;

/// Why a working copy can't be made, or can't be changed without a drive. Each call says which fault comes first. A refusal leaves the copy as it was.
#[derive(Clone, Copy, Debug, PartialEq, Eq, Error)]
pub enum WcFault {
    /// The repository has no such revision.
    #[error("there is no such revision")]
    NoSuchRevision,
    /// The repository has nothing to check out or to place there, or the copy has no present node to forget.
    #[error("there is nothing there")]
    Missing,
    /// The copy has no directory above the path.
    #[error("the parent isn't a directory of the working copy")]
    NoParent,
    /// The path is the copy's root, which can't be replaced or forgotten.
    #[error("the root can't be replaced or forgotten")]
    IsRoot,
    /// A repository path has over 64 names, or a path over 64 more than its repository path.
    #[error("a path has too many names")]
    TooDeep,
    /// An allocation failed.
    #[error("out of memory")]
    Memory,
    /// A list of nodes has a path twice.
    #[error("a path is given twice")]
    Twice,
    /// A list of nodes has no root, or one that isn't a directory; or what would be checked out is a file.
    #[error("the root isn't a directory")]
    BadRoot,
}

impl WcFault {
    /// The fault's number: from 1, NoSuchRevision, to 8, BadRoot, in the order of the variants.
    pub fn number(self) -> u32
        ensures { result ≡ wc_fault_number self }
    {
        match self {
            WcFault::NoSuchRevision => 1,
            WcFault::Missing => 2,
            WcFault::NoParent => 3,
            WcFault::IsRoot => 4,
            WcFault::TooDeep => 5,
            WcFault::Memory => 6,
            WcFault::Twice => 7,
            WcFault::BadRoot => 8,
        }
    }

    /// The fault's name: that of its variant.
    pub fn name(self) -> &'static str
        ensures { result.now ≡ wc_fault_name self }
    {
        match self {
            WcFault::NoSuchRevision => "NoSuchRevision",
            WcFault::Missing => "Missing",
            WcFault::NoParent => "NoParent",
            WcFault::IsRoot => "IsRoot",
            WcFault::TooDeep => "TooDeep",
            WcFault::Memory => "Memory",
            WcFault::Twice => "Twice",
            WcFault::BadRoot => "BadRoot",
        }
    }
}

impl From<AllocError> for WcFault {
    ghost from_gives = { λ _ e. e ≡ Memory };

    fn from(_error: AllocError) -> WcFault {
        WcFault::Memory
    }
}
