//! Why a row doesn't hold.
use std::alloc::{AllocError, AllocFailed};
use std::{fmt, io};
use svn_drive::DriveFault;
use svn_editor::{EditFault, OrderFault};
use svn_link::LinkFault;
use svn_model::{ReportFault, WcFault};
use svn_pool::PoolFault;
use svn_repo::CommitFault;
use svn_report::ReporterFault;
use svn_run::{Outcome, RunFault};
use svn_script::LineFault;
use svn_types::PathFault;

/// The fault that a command is refused with, other than Memory.
#[derive(Clone, Copy)]
pub(crate) enum Refusal {
    Commit(CommitFault),
    Copy(WcFault),
    Drive(DriveFault),
    Run(RunFault),
}

/// As a script prints it.
impl fmt::Display for Refusal {
    fn fmt<W: fmt::Write>(&self, f: &mut fmt::Formatter<W>) -> fmt::Result {
        f.write_str("refused ")?;
        match self {
            Refusal::Commit(fault) => fmt::Debug::fmt(fault, f),
            Refusal::Copy(fault) => fmt::Debug::fmt(fault, f),
            Refusal::Drive(fault) => fmt::Debug::fmt(fault, f),
            Refusal::Run(fault) => fmt::Debug::fmt(fault, f),
        }
    }
}

/// Why a row doesn't hold.
#[derive(Clone, Copy)]
pub(crate) enum Trouble {
    /// An allocation failed, and the result says so: the row can be begun anew.
    Memory,
    /// A command was refused, which a row may want.
    Refused(Refusal),
    /// A result that is neither the row's nor out of memory, or a state that isn't as promised.
    Other(&'static str),
}

/// How a row ends: it holds, and perhaps says how a run of it ended, or it doesn't.
#[derive(Clone, Copy)]
pub(crate) struct End(pub(crate) Result<Option<Outcome>, Trouble>);

/// As the line of a row says it.
impl fmt::Display for End {
    fn fmt<W: fmt::Write>(&self, f: &mut fmt::Formatter<W>) -> fmt::Result {
        match self.0 {
            Ok(None) => f.write_str("passed"),
            Ok(Some(outcome)) => write!(f, "passed: {outcome:?}"),
            Err(Trouble::Memory) => f.write_str("out of memory"),
            Err(Trouble::Refused(refusal)) => write!(f, "failed: {refusal}"),
            Err(Trouble::Other(other)) => write!(f, "failed: {other}"),
        }
    }
}

impl End {
    /// The status of a program whose row ends so.
    pub(crate) fn status(self) -> u8 {
        match self.0 {
            Ok(_) => 0,
            Err(Trouble::Memory) => 3,
            Err(_) => 1,
        }
    }
}

/// Nothing, or what is otherwise.
pub(crate) fn holds(is_so: bool, other: &'static str) -> Result<(), Trouble> {
    if is_so {
        Ok(())
    } else {
        Err(Trouble::Other(other))
    }
}

/// A text is the expected one, or says what differs.
pub(crate) fn same(found: &str, wanted: &str, other: &'static str) -> Result<(), Trouble> {
    holds(found == wanted, other)
}

// What a result means that isn't the row's.
fn of_refusal(is_memory: bool, other: &'static str) -> Trouble {
    if is_memory {
        Trouble::Memory
    } else {
        Trouble::Other(other)
    }
}

impl From<AllocError> for Trouble {
    fn from(_error: AllocError) -> Trouble {
        Trouble::Memory
    }
}

impl<T: Drop> From<AllocFailed<T>> for Trouble {
    fn from(_error: AllocFailed<T>) -> Trouble {
        Trouble::Memory
    }
}

impl From<PathFault> for Trouble {
    fn from(fault: PathFault) -> Trouble {
        of_refusal(fault == PathFault::Memory, "a path or a name is refused")
    }
}

impl From<CommitFault> for Trouble {
    fn from(fault: CommitFault) -> Trouble {
        match fault {
            CommitFault::Memory => Trouble::Memory,
            _ => Trouble::Refused(Refusal::Commit(fault)),
        }
    }
}

impl From<WcFault> for Trouble {
    fn from(fault: WcFault) -> Trouble {
        match fault {
            WcFault::Memory => Trouble::Memory,
            _ => Trouble::Refused(Refusal::Copy(fault)),
        }
    }
}

impl From<ReporterFault> for Trouble {
    fn from(fault: ReporterFault) -> Trouble {
        of_refusal(fault == ReporterFault::Memory, "a reporter refuses a call")
    }
}

impl From<ReportFault> for Trouble {
    fn from(fault: ReportFault) -> Trouble {
        of_refusal(fault == ReportFault::Memory, "a report is refused")
    }
}

impl From<EditFault> for Trouble {
    fn from(fault: EditFault) -> Trouble {
        of_refusal(fault == EditFault::Memory, "an editor refuses a call")
    }
}

impl From<OrderFault> for Trouble {
    fn from(fault: OrderFault) -> Trouble {
        of_refusal(
            fault == OrderFault::Memory,
            "the order check refuses a call",
        )
    }
}

impl From<io::Error> for Trouble {
    fn from(_error: io::Error) -> Trouble {
        Trouble::Other("the system refuses a call")
    }
}

impl From<DriveFault> for Trouble {
    fn from(fault: DriveFault) -> Trouble {
        match fault {
            DriveFault::Memory | DriveFault::Editor(EditFault::Memory) => Trouble::Memory,
            _ => Trouble::Refused(Refusal::Drive(fault)),
        }
    }
}

impl From<RunFault> for Trouble {
    fn from(fault: RunFault) -> Trouble {
        match fault {
            RunFault::Memory | RunFault::NoThread => Trouble::Memory,
            _ => Trouble::Refused(Refusal::Run(fault)),
        }
    }
}

impl From<LinkFault> for Trouble {
    fn from(fault: LinkFault) -> Trouble {
        of_refusal(fault == LinkFault::Memory, "a link is refused")
    }
}

impl From<PoolFault> for Trouble {
    fn from(fault: PoolFault) -> Trouble {
        of_refusal(fault == PoolFault::Memory, "a pool refuses a call")
    }
}

impl From<LineFault> for Trouble {
    fn from(fault: LineFault) -> Trouble {
        of_refusal(fault == LineFault::Memory, "a line is no command")
    }
}
