//! The examination of a working copy: is it of the dump's repository?
ghost use Rattle.std.specs.Option.{option_copied};
ghost use Rattle.svn_disk_audit.specs.Repositories.{IsOfRepository};
ghost use Rattle.svn_answers.specs.FaultTexts.{examiner_text};

use std::alloc::Global;
use std::fmt;
use svn_disk_audit::{Examiner, RepositoryFault, compare_repository};
use svn_types::{RelPath, Text};
use svn_wcdb::{BaseTree, Notes};

/// Why a copy that was opened is refused.
#[derive(Debug, Drop)]
pub enum ExaminerFault<F> {
    /// It is of another repository than the dump.
    Repository(RepositoryFault),
    /// Its own examiner refuses it, or has no such pristine text.
    Copy(F),
}

impl<F: fmt::Display> fmt::Display for ExaminerFault<F> {
    ghost output = { examiner_text ⟦<RepositoryFault as fmt::Display>⟧.output F.output };

    fn fmt<W: fmt::Write>(&self, f: &mut fmt::Formatter<W>) -> fmt::Result {
        match self {
            ExaminerFault::Repository(fault) => fault.fmt(f),
            ExaminerFault::Copy(fault) => fault.fmt(f),
        }
    }
}

/// Compares the repository of a copy with the dump's, before the copy's own examiner is asked, and keeps what the database passes over.
#[derive(Drop)]
pub(crate) struct Examination<'a, E> {
    pub(crate) alloc: Global,
    pub(crate) uuid: Option<&'a [u8]>,
    /// What was passed over, once the database was read.
    pub(crate) notes: Option<Notes>,
    pub(crate) examiner: E,
}

impl<E: Examiner> Examiner for Examination<'_, E> {
    type Fault = ExaminerFault<E::Fault>;

    type Text = E::Text;

    ghost text_at = { λ s. E.text_at s.examiner };

    ghost accepts = { λ s base. IsOfRepository (option_copied s.uuid) base };

    fn examine(&mut self, tree: &BaseTree) -> Result<(), ExaminerFault<E::Fault>> {
        self.notes = Some(tree.notes);
        if let Err(fault) = compare_repository(self.alloc, tree, self.uuid) {
            return Err(ExaminerFault::Repository(fault));
        }
        match self.examiner.examine(tree) {
            Ok(()) => Ok(()),
            Err(fault) => Err(ExaminerFault::Copy(fault)),
        }
    }

    fn pristine(
        &mut self,
        path: &RelPath,
        name: &Text,
    ) -> Result<E::Text, ExaminerFault<E::Fault>> {
        match self.examiner.pristine(path, name) {
            Ok(text) => Ok(text),
            Err(fault) => Err(ExaminerFault::Copy(fault)),
        }
    }
}
