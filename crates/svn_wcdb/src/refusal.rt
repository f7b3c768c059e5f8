//! What is refused, and at which path.
ghost use Rattle.std.specs.Prelude.{◌≡◌, None};
ghost use Rattle.svn_wcdb.specs.declared.fault.WcdbFault.TheVariants.{Memory, Refused};

use crate::fault::{Reason, WcdbFault};
use std::alloc::AllocError;
use std::fmt;
use svn_editor::Word;
use svn_types::Text;

/// Why a base tree wasn't read.
#[derive(Debug, PartialEq, Eq, Drop)]
pub struct Refusal {
    /// What is wrong.
    pub fault: WcdbFault,
    /// The path of the node, as the database has it, where a node is at fault.
    pub path: Option<Text>,
}

impl From<WcdbFault> for Refusal {
    ghost from_gives = { λ fault e. e ≡ record { fault = fault; path = None } };

    fn from(fault: WcdbFault) -> Refusal {
        Refusal { fault, path: None }
    }
}

impl From<Reason> for Refusal {
    ghost from_gives = { λ reason e. e ≡ record { fault = Refused reason; path = None } };

    fn from(reason: Reason) -> Refusal {
        Refusal {
            fault: WcdbFault::Refused(reason),
            path: None,
        }
    }
}

impl From<AllocError> for Refusal {
    ghost from_gives = { λ _ e. e ≡ record { fault = Memory; path = None } };

    fn from(_error: AllocError) -> Refusal {
        Refusal {
            fault: WcdbFault::Memory,
            path: None,
        }
    }
}

/// What is wrong, after the path as a word and a colon where there is one. The root is `.`.
impl fmt::Display for Refusal {
    fn fmt<W: fmt::Write>(&self, f: &mut fmt::Formatter<W>) -> fmt::Result {
        let fault = self.fault;
        match &self.path {
            Some(path) if path.is_empty() => write!(f, ".: {fault}"),
            Some(path) => {
                let path = Word(path.as_slice());
                write!(f, "{path}: {fault}")
            }
            None => write!(f, "{fault}"),
        }
    }
}
