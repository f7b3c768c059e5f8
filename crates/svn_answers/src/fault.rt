//! Why a question, or that of one copy, isn't answered.
ghost use Rattle.svn_answers.specs.FaultTexts.{copy_fault_text, tell_text};

use crate::examination::ExaminerFault;
use crate::topic::TopicFault;
use std::fmt;
use svn_audit::Untrue;
use svn_disk_audit::{AuditFault, RepositoryFault};
use thiserror::Error;

/// Why the copies aren't answered to the last.
#[derive(Clone, Copy, Debug, PartialEq, Eq, Error)]
pub enum AnswerFault {
    /// The output couldn't be written. What was written of it is unknown.
    #[error("write fault")]
    Write,
}

/// Why a copy is refused.
#[derive(Debug, Drop)]
pub enum CopyFault<F> {
    /// It can't be opened, or was changed while it was read.
    Refused(F),
    /// It isn't audited.
    Audit(AuditFault<ExaminerFault<F>>),
    /// It has nodes of revisions before this one, with which the dump begins: the history doesn't tell of them.
    Early(u64),
    /// The repository's root is untrue by a property, and the dump begins with this revision: it may leave out what the root had before.
    Untold(u64),
}

impl<F: fmt::Display> fmt::Display for CopyFault<F> {
    ghost output = { copy_fault_text F.output ⟦<AuditFault<ExaminerFault<F>> as fmt::Display>⟧.output };

    fn fmt<W: fmt::Write>(&self, f: &mut fmt::Formatter<W>) -> fmt::Result {
        match self {
            CopyFault::Refused(fault) => fault.fmt(f),
            CopyFault::Audit(fault) => fault.fmt(f),
            CopyFault::Early(first) => write!(
                f,
                "the dump begins with r{first}, and the copy has nodes of revisions before"
            ),
            CopyFault::Untold(first) => write!(
                f,
                "the dump begins with r{first}, and may leave out properties of the root that the copy has"
            ),
        }
    }
}

/// Why what is asked of a copy isn't answered.
#[derive(Debug, Drop)]
pub enum TellFault<F> {
    /// The copy is refused.
    Copy(CopyFault<F>),
    /// It isn't true of the history: the first untrue path.
    Untrue(Untrue),
    /// The answer can't be made or written.
    Topic(TopicFault),
}

impl<F: fmt::Display> fmt::Display for TellFault<F> {
    ghost output = { tell_text ⟦<CopyFault<F> as fmt::Display>⟧.output ⟦<TopicFault as fmt::Display>⟧.output };

    fn fmt<W: fmt::Write>(&self, f: &mut fmt::Formatter<W>) -> fmt::Result {
        match self {
            TellFault::Copy(fault) => fault.fmt(f),
            TellFault::Untrue(untrue) => write!(f, "untrue: {untrue} (see --allow-untrue)"),
            TellFault::Topic(fault) => fault.fmt(f),
        }
    }
}
