//! Why a working copy isn't audited.
ghost use Rattle.std.specs.Prelude.{◌≡◌, ◌⊎◌};
ghost use Rattle.svn_disk_audit.specs.declared.fault.AuditFault.TheVariants.{Database, Copy, Memory};
ghost use Rattle.svn_disk_audit.specs.FaultTexts.{pristine_text, pristine_refusal_text, audit_text};

use std::alloc::{AllocError, AllocFailed};
use std::{fmt, io};
use svn_editor::{PathWord, Word};
use svn_model::WcFault;
use svn_types::{RelPath, Text};
use svn_wcdb::{Refusal, WcdbFault};

/// Why a pristine text isn't the one that its stand-in names.
#[derive(Clone, Copy, Debug)]
pub enum PristineFault {
    /// It has another SHA-1 checksum.
    WrongSha1,
    /// It has no byte, and should have some.
    Empty,
    /// It couldn't be read to its end.
    Read(io::Error),
}

/// A pristine text that is refused.
#[derive(Debug, Drop)]
pub struct PristineRefusal {
    /// A file that has the text.
    pub path: RelPath,
    /// The stand-in that names it.
    pub stand_in: Text,
    /// Why.
    pub fault: PristineFault,
}

/// Why a working copy isn't audited.
#[derive(Debug, Drop)]
pub enum AuditFault<F> {
    /// The database is refused.
    Database(Refusal),
    /// The examiner refuses it, or has no such pristine text.
    Examiner(F),
    /// A pristine text is refused.
    Pristine(PristineRefusal),
    /// Its nodes are no working copy, or the path that was asked for has no directory (BadRoot).
    Copy(WcFault),
    /// An allocation failed.
    Memory,
}

impl<F> From<Refusal> for AuditFault<F> {
    ghost from_gives = { λ refusal e. (e ≡ Memory) ⊎ (e ≡ Database refusal) };

    fn from(refusal: Refusal) -> AuditFault<F> {
        match refusal.fault {
            WcdbFault::Memory => AuditFault::Memory,
            WcdbFault::Refused(_) => AuditFault::Database(refusal),
        }
    }
}

impl<F> From<WcFault> for AuditFault<F> {
    ghost from_gives = { λ fault e. (e ≡ Memory) ⊎ (e ≡ Copy fault) };

    fn from(fault: WcFault) -> AuditFault<F> {
        match fault {
            WcFault::Memory => AuditFault::Memory,
            fault => AuditFault::Copy(fault),
        }
    }
}

impl<F> From<AllocError> for AuditFault<F> {
    ghost from_gives = { λ _ e. e ≡ Memory };

    fn from(_error: AllocError) -> AuditFault<F> {
        AuditFault::Memory
    }
}

impl<F, T: Drop> From<AllocFailed<T>> for AuditFault<F> {
    ghost from_gives = { λ _ e. e ≡ Memory };

    fn from(_error: AllocFailed<T>) -> AuditFault<F> {
        AuditFault::Memory
    }
}

impl fmt::Display for PristineFault {
    ghost output = { pristine_text ⟦<io::Error as fmt::Display>⟧.output };

    fn fmt<W: fmt::Write>(&self, f: &mut fmt::Formatter<W>) -> fmt::Result {
        match self {
            PristineFault::WrongSha1 => f.write_str("the file has another SHA-1 checksum"),
            PristineFault::Empty => f.write_str("the file is empty"),
            PristineFault::Read(error) => write!(f, "{error}"),
        }
    }
}

impl fmt::Display for PristineRefusal {
    ghost output = { pristine_refusal_text ⟦<PristineFault as fmt::Display>⟧.output };

    fn fmt<W: fmt::Write>(&self, f: &mut fmt::Formatter<W>) -> fmt::Result {
        let (path, name) = (PathWord(&self.path), Word(self.stand_in.as_slice()));
        let fault = self.fault;
        write!(f, "{path}: pristine text {name}: {fault}")
    }
}

/// Why, after the path of the node or the file that is at fault, where one is.
impl<F: fmt::Display> fmt::Display for AuditFault<F> {
    ghost output = { audit_text ⟦<Refusal as fmt::Display>⟧.output F.output ⟦<PristineRefusal as fmt::Display>⟧.output ⟦<WcFault as fmt::Display>⟧.output };

    fn fmt<W: fmt::Write>(&self, f: &mut fmt::Formatter<W>) -> fmt::Result {
        match self {
            AuditFault::Database(refusal) => write!(f, "{refusal}"),
            AuditFault::Examiner(fault) => write!(f, "{fault}"),
            AuditFault::Pristine(refusal) => write!(f, "{refusal}"),
            AuditFault::Copy(WcFault::BadRoot) => f.write_str("no directory of the working copy"),
            AuditFault::Copy(fault) => write!(f, "{fault}"),
            AuditFault::Memory => f.write_str("out of memory"),
        }
    }
}
