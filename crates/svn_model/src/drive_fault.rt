//! Why a drive isn't made, or is given up.
ghost use Rattle.std.specs.Prelude.{◌≡◌};
ghost use Rattle.svn_model.specs.FaultNumbers.{drive_fault_number, drive_fault_name};
ghost use Rattle.svn_model.specs.declared.drive_fault.DriveFault.TheVariants.{Memory};

use std::alloc::AllocError;
use svn_editor::EditFault;
use thiserror::Error;

/// Why a drive isn't made, or is given up.
#[derive(Clone, Copy, Debug, PartialEq, Eq, Error)]
pub enum DriveFault {
    /// The repository has no such target revision. No call was made.
    #[error("there is no such target revision")]
    NoSuchTarget,
    /// An allocation failed. Calls may have been made; then the last was `AbortEdit`.
    #[error("out of memory")]
    Memory,
    /// The editor refused a call, for this reason. After it the driver made `AbortEdit`.
    #[error("the editor refused a call: {0}")]
    Editor(EditFault),
    /// More calls are needed than the 18,446,744,073,709,551,615 that can be counted. The last was `AbortEdit`.
    #[error("too many calls to count")]
    Full,
    /// The root of the copy isn't in the target. No call was made.
    #[error("the target has nothing where the root would be")]
    NoRoot,
    /// What is in the target where the root would be is of another line. No call was made.
    #[error("the root in the target is another node")]
    OtherRoot,
}

impl DriveFault {
    /// The fault's number: from 21, NoSuchTarget, to 26, OtherRoot, in the order of the variants.
    pub fn number(self) -> u32
        ensures { result ≡ drive_fault_number self }
    {
        match self {
            DriveFault::NoSuchTarget => 21,
            DriveFault::Memory => 22,
            DriveFault::Editor(_) => 23,
            DriveFault::Full => 24,
            DriveFault::NoRoot => 25,
            DriveFault::OtherRoot => 26,
        }
    }

    /// The fault's name: that of its variant; an editor's fault has its own name.
    pub fn name(self) -> &'static str
        ensures { result.now ≡ drive_fault_name self }
    {
        match self {
            DriveFault::NoSuchTarget => "NoSuchTarget",
            DriveFault::Memory => "Memory",
            DriveFault::Editor(fault) => fault.name(),
            DriveFault::Full => "Full",
            DriveFault::NoRoot => "NoRoot",
            DriveFault::OtherRoot => "OtherRoot",
        }
    }
}

impl From<AllocError> for DriveFault {
    ghost from_gives = { λ _ e. e ≡ Memory };

    fn from(_error: AllocError) -> DriveFault {
        DriveFault::Memory
    }
}
