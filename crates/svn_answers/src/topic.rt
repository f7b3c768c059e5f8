//! What is asked of a working copy that was audited, but for the verdict on it.
ghost use Rattle.std.specs.Prelude.{◌≡◌};
ghost use Rattle.svn_answers.specs.declared.topic.TopicFault.TheVariants.{Memory};
ghost use Rattle.svn_answers.specs.FaultTexts.{topic_text};
ghost use Rattle.svn_answers.specs.Gone.{is_gone, is_no_root};

use std::alloc::{AllocError, AllocFailed};
use std::fmt;
use svn_model::DriveFault;
use svn_types::Rev;
use thiserror::Error;

/// What is asked of a working copy. An update goes to the revision that is given, or else to the newest.
#[derive(Clone, Copy, Debug, PartialEq, Eq)]
pub enum Topic {
    /// What its client reports.
    Report,
    /// The lines that an update prints, in byte order.
    Update(Option<Rev>),
    /// The calls of an update.
    Calls(Option<Rev>),
    /// The nodes after an update.
    Nodes(Option<Rev>),
}

fn is_no_root(fault: DriveFault) -> bool
    ensures { result ≡ is_no_root fault }
{
    matches!(fault, DriveFault::NoRoot)
}

/// Why it isn't answered.
#[derive(Clone, Copy, Debug, PartialEq, Eq, Error)]
pub enum TopicFault {
    /// The update can't be made.
    Drive(DriveFault),
    /// The output couldn't be written. What was written of it is unknown.
    Write,
    /// An allocation failed.
    Memory,
}

impl TopicFault {
    /// Whether the target has nothing at the path of the copy.
    pub(crate) fn is_gone(self) -> bool
        ensures { result ≡ is_gone self }
    {
        match self {
            TopicFault::Drive(fault) => is_no_root(fault),
            TopicFault::Write | TopicFault::Memory => false,
        }
    }
}

impl fmt::Display for TopicFault {
    ghost output = { topic_text ⟦<DriveFault as fmt::Display>⟧.output };

    fn fmt<W: fmt::Write>(&self, f: &mut fmt::Formatter<W>) -> fmt::Result {
        match self {
            // as Subversion's client says it (E160005)
            TopicFault::Drive(fault) if is_no_root(*fault) => {
                f.write_str("the target path does not exist")
            }
            TopicFault::Drive(fault) => fault.fmt(f),
            TopicFault::Write => f.write_str("write fault"),
            TopicFault::Memory => f.write_str("out of memory"),
        }
    }
}

impl From<AllocError> for TopicFault {
    ghost from_gives = { λ _ e. e ≡ Memory };

    fn from(_error: AllocError) -> TopicFault {
        TopicFault::Memory
    }
}

impl<T: Drop> From<AllocFailed<T>> for TopicFault {
    ghost from_gives = { λ _ e. e ≡ Memory };

    fn from(_error: AllocFailed<T>) -> TopicFault {
        TopicFault::Memory
    }
}
