//! How an update ends.
ghost use Rattle.std.specs.Prelude.{◌≡◌, Some};
ghost use Rattle.svn_run.specs.FaultNumbers.{run_fault_number, run_fault_name};
ghost use Rattle.svn_run.specs.Knowing.{is_closed};
ghost use Rattle.svn_run.specs.Printing.{cause_name, outcome_text};
ghost use Rattle.svn_run.specs.UpdateTheorem.{run_fault_of, cause_at};

use std::fmt;
use svn_editor::EditFault;
use svn_model::DriveFault;
use svn_types::impossible;
use thiserror::Error;

/// Why a run was aborted.
#[derive(Clone, Copy, Debug, PartialEq, Eq)]
pub enum Cause {
    /// As many calls were made as `cancel_after` allows, the copy accepted all of them, and the drive has more.
    Cancelled,
    /// An allocation failed, in the driver or in the copy, before that.
    Memory,
}

/// `Cancelled` or `Memory`.
impl fmt::Display for Cause {
    ghost output = { λ c. Some (cause_name c) };

    fn fmt<W: fmt::Write>(&self, f: &mut fmt::Formatter<W>) -> fmt::Result {
        match self {
            Cause::Cancelled => f.write_str("Cancelled"),
            Cause::Memory => f.write_str("Memory"),
        }
    }
}

/// Why a run stopped once that many calls were made and accepted, by its limit. Only the limit and memory stop a run, since its calls are in order
/// and true of the copy. At the limit it is cancelled, even if the driver ran out of memory after the last call that it may make.
pub(crate) fn cause_at(limit: Option<u64>, made: u64, accepted: u64) -> Cause
    ensures { result ≡ cause_at limit made accepted }
{
    match limit {
        Some(limit) if limit == made && accepted == made => Cause::Cancelled,
        _ => Cause::Memory,
    }
}

/// How a run ended that began. Whatever it is, the copy is true of the repository, and the same run made again ends as this one would have.
#[derive(Clone, Copy, Debug, PartialEq, Eq)]
pub enum Outcome {
    /// The last call, `CloseEdit`, was accepted.
    Closed {
        /// How many calls were made, `CloseEdit` included.
        calls: u64,
    },
    /// The edit was aborted.
    Aborted {
        /// How many calls were made, without `AbortEdit`.
        made: u64,
        /// How many of them the working copy accepted.
        accepted: u64,
        /// The number of the refused call that stopped the driver, counted from 1, where it was reported in time; None where both run in turn.
        late: Option<u64>,
        /// Why.
        cause: Cause,
    },
}

impl Outcome {
    /// Whether the last call, `CloseEdit`, was accepted: then the copy is at its target.
    pub fn is_closed(self) -> bool
        ensures { result ≡ is_closed self }
    {
        matches!(self, Outcome::Closed { .. })
    }
}

/// `closed CALLS`, or `aborted MADE ACCEPTED CAUSE`.
impl fmt::Display for Outcome {
    ghost output = { λ o. Some (outcome_text o) };

    fn fmt<W: fmt::Write>(&self, f: &mut fmt::Formatter<W>) -> fmt::Result {
        match self {
            Outcome::Closed { calls } => write!(f, "closed {calls}"),
            Outcome::Aborted {
                made,
                accepted,
                late: _,
                cause,
            } => write!(f, "aborted {made} {accepted} {cause}"),
        }
    }
}

/// Why a run did not begin. No call was made, and the copy is as it was. Of the first four the
/// first that holds is returned; the others come where none of these holds.
#[derive(Clone, Copy, Debug, PartialEq, Eq, Error)]
pub enum RunFault {
    /// The repository has no revision of the target's number.
    #[error("there is no such revision")]
    NoSuchRevision,
    /// In the target revision nothing is where the copy's root would be: at its repository path, or where a switch leads.
    #[error("the copy's root isn't in the target")]
    NoRoot,
    /// In the target revision a node of another line is where the copy's root would be.
    #[error("the root in the target is another node")]
    OtherRoot,
    /// The capacity isn't 1 to 4,096. On one thread it isn't used.
    #[error("the capacity isn't 1 to 4096")]
    Capacity,
    /// An allocation failed before the first call.
    #[error("out of memory")]
    Memory,
    /// The driver's thread couldn't be started.
    #[error("no thread could be started")]
    NoThread,
}

impl RunFault {
    /// The fault's number: 31 NoSuchRevision, 32 Capacity, 33 Memory, 34 NoThread, 35 NoRoot, 36 OtherRoot.
    pub fn number(self) -> u32
        ensures { result ≡ run_fault_number self }
    {
        match self {
            RunFault::NoSuchRevision => 31,
            RunFault::NoRoot => 35,
            RunFault::OtherRoot => 36,
            RunFault::Capacity => 32,
            RunFault::Memory => 33,
            RunFault::NoThread => 34,
        }
    }

    /// The fault's name: that of its variant.
    pub fn name(self) -> &'static str
        ensures { result.now ≡ run_fault_name self }
    {
        match self {
            RunFault::NoSuchRevision => "NoSuchRevision",
            RunFault::NoRoot => "NoRoot",
            RunFault::OtherRoot => "OtherRoot",
            RunFault::Capacity => "Capacity",
            RunFault::Memory => "Memory",
            RunFault::NoThread => "NoThread",
        }
    }
}

/// A fault of the target is the run's; any other is one of memory, since a run's drive has no other.
impl From<DriveFault> for RunFault {
    ghost from_gives = { λ fault e. e ≡ run_fault_of fault };

    fn from(fault: DriveFault) -> RunFault {
        match fault {
            DriveFault::NoSuchTarget => RunFault::NoSuchRevision,
            DriveFault::NoRoot => RunFault::NoRoot,
            DriveFault::OtherRoot => RunFault::OtherRoot,
            DriveFault::Memory | DriveFault::Editor(EditFault::Memory) => RunFault::Memory,
            // a run's calls are in order and true of the copy, and memory ends before their numbers do
            DriveFault::Full | DriveFault::Editor(_) => impossible(RunFault::Memory),
        }
    }
}
