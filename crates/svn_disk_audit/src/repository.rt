//! Whether a working copy is of the repository that it is compared with.
ghost use Rattle.std.specs.Prelude.{◌≡◌, Some, IfErr, OnOk};
ghost use Rattle.std.specs.Option.{option_copied};
ghost use Rattle.svn_wcdb.specs.Bases.{seen_base};
ghost use Rattle.svn_disk_audit.specs.FaultTexts.{repository_text};
ghost use Rattle.svn_disk_audit.specs.Repositories.{IsOfRepository, IsRepositoryFault};
ghost use Rattle.svn_disk_audit.specs.declared.repository.RepositoryFault.TheVariants.{Memory};

use std::alloc::{AllocError, Global};
use std::fmt;
use svn_editor::Word;
use svn_types::Text;
use svn_wcdb::BaseTree;

/// Why a working copy isn't known to be of the repository that it is compared with.
#[derive(Debug, Drop)]
pub enum RepositoryFault {
    /// It is of another.
    Other {
        /// The UUID of the copy's repository.
        copy: Text,
        /// The one that it should have.
        wanted: Text,
    },
    /// An allocation failed.
    Memory,
}

impl From<AllocError> for RepositoryFault {
    ghost from_gives = { λ _ e. e ≡ Memory };

    fn from(_error: AllocError) -> RepositoryFault {
        RepositoryFault::Memory
    }
}

impl fmt::Display for RepositoryFault {
    ghost output = { λ f. Some (repository_text f) };

    fn fmt<W: fmt::Write>(&self, f: &mut fmt::Formatter<W>) -> fmt::Result {
        match self {
            RepositoryFault::Other { copy, wanted } => {
                let (copy, wanted) = (Word(copy.as_slice()), Word(wanted.as_slice()));
                write!(
                    f,
                    "the working copy is of repository {copy}, not of {wanted}"
                )
            }
            RepositoryFault::Memory => f.write_str("out of memory"),
        }
    }
}

/// Refuses a working copy of another repository than the one of a UUID, where that is known: Other exactly where the copy's differs. Memory where an
/// allocation failed.
pub fn compare_repository(
    alloc: Global,
    tree: &BaseTree,
    uuid: Option<&[u8]>,
) -> Result<(), RepositoryFault>
    ensures same { OnOk result (IsOfRepository (option_copied uuid.entry) (seen_base tree.now)) }
    ensures other { IfErr result (IsRepositoryFault (option_copied uuid.entry) (seen_base tree.now)) }
{
    match uuid {
        Some(uuid) if tree.origin.uuid.as_slice() != uuid => Err(RepositoryFault::Other {
            copy: tree.origin.uuid.clone()?,
            wanted: Text::from_slice(alloc, uuid)?,
        }),
        _ => Ok(()),
    }
}
