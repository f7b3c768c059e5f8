//! Why a history goes no further.

use crate::plain::Fault;
use std::alloc::{AllocError, AllocFailed, Global};
use std::{io, result};
use svn_drive::DriveFault;
use svn_update::{CommitFault, PathFault, WcFault};

/// Why a history goes no further.
#[derive(Drop)]
pub(crate) enum Stop {
    /// The library has something else than its model: what, in words.
    Differs(String),
    /// The model can't follow, or what is no part of a history is refused.
    Fault(&'static str),
}

/// What comes of a part of a history.
pub(crate) type Result<T, E = Stop> = result::Result<T, E>;

/// Nothing, or what differs.
pub(crate) fn holds(alloc: Global, is_so: bool, difference: &str) -> Result<()> {
    if is_so {
        return Ok(());
    }
    Err(Stop::Differs(String::from_str(alloc, difference)?))
}

impl From<Fault> for Stop {
    fn from(fault: Fault) -> Stop {
        Stop::Fault(fault.0)
    }
}

impl From<AllocError> for Stop {
    fn from(_error: AllocError) -> Stop {
        Stop::Fault("out of memory")
    }
}

impl<T: Drop> From<AllocFailed<T>> for Stop {
    fn from(_error: AllocFailed<T>) -> Stop {
        Stop::Fault("out of memory")
    }
}

impl From<PathFault> for Stop {
    fn from(_fault: PathFault) -> Stop {
        Stop::Fault("a path of the model is refused")
    }
}

impl From<CommitFault> for Stop {
    fn from(_fault: CommitFault) -> Stop {
        Stop::Fault("there is no repository")
    }
}

impl From<WcFault> for Stop {
    fn from(_fault: WcFault) -> Stop {
        Stop::Fault("a copy is not crawled")
    }
}

impl From<DriveFault> for Stop {
    fn from(_fault: DriveFault) -> Stop {
        Stop::Fault("a drive is refused")
    }
}

impl From<io::Error> for Stop {
    fn from(_error: io::Error) -> Stop {
        Stop::Fault("the system refuses a call")
    }
}
