//! A working copy that is on disk, put right where it isn't true.
ghost use Rattle.std.specs.Prelude.{◌≡◌, ◌⊎◌, List, true, IfOk, OnOk};
ghost use Rattle.svn_types.specs.Names.{Path};
ghost use Rattle.svn_model.specs.declared.base_node.BaseNode.{BaseNode};
ghost use Rattle.svn_model.specs.Nodes.{get_in, IsTrueOf};
ghost use Rattle.svn_wcrows.specs.Tables.{AllRows, seen_tables};
ghost use Rattle.svn_disk.specs.Goes.{IsAlways, Goes, no_step};
ghost use Rattle.svn_disk.specs.Queue.{HasDatabaseRows};
ghost use Rattle.svn_disk.specs.Changes.{IsMended, IsToMend};
ghost use Rattle.svn_disk.specs.Spared.{GoesIn, SparesOthers};
ghost use Rattle.svn_disk.specs.Crashes.{HasDatabase, IsThere, IsTrueThere, IsThereOrTrue, IsKept, IsMending, LeavesFrom, AfterFrom};

use crate::bringing::{bring, changes};
use crate::existing::Existing;
use crate::fault::DiskFault;
use crate::plan::PathChange;
use crate::source::Source;
use crate::truth::mended;
use crate::wanted::Wanted;
use std::alloc::Global;
use svn_folder::{Folder, SyncedFolder};
use svn_repo::Repo;

/// What a copy is put right by.
#[derive(Clone, Copy)]
pub struct Remedy<'a> {
    /// The repository. A file's text is its stand-in.
    pub repo: &'a Repo,
    /// The repository's UUID.
    pub uuid: &'a [u8],
    /// The time of files that are written anew, in microseconds since 1970.
    pub time: u64,
    /// Whether everything is brought to the disk before it counts.
    pub sync: bool,
}

// Reads the copy that is on disk, and puts it right.
fn begin<F: Folder>(
    alloc: Global,
    folder: &F,
    what: &Remedy<'_>,
) -> Result<(Existing, Wanted), DiskFault>
    ensures was { IfOk result (λ pair. IsAlways (HasDatabase pair.0.copy) (F.past folder.now)) }
    ensures is_true { IfOk result (λ pair. IsTrueOf what.now.repo.now (get_in pair.1.copy)) }
    ensures rows { IfOk result (λ pair. IsAlways (HasDatabaseRows (seen_tables pair.0.tables)) (F.past folder.now)) }
{
    let existing = Existing::read(alloc, folder)?;
    existing.refuse_busy()?;
    existing.refuse_other(alloc, what.uuid)?;
    let copy = mended(alloc, what.repo, &existing.copy)?;
    let wanted = Wanted::new(alloc, what.repo, &existing.copy, copy, what.time)?;
    Ok((existing, wanted))
}

/// What [`mend`] would do with a copy: the paths that would change, in path order, none of a true copy. It refuses what `mend` refuses before it changes
/// anything, and changes nothing.
pub fn mend_changes<F: Folder>(
    alloc: Global,
    folder: &F,
    what: &Remedy<'_>,
) -> Result<Vec<PathChange>, DiskFault>
    ensures { IfOk result (λ changes. IsToMend what.now.repo.now (F.past folder.now) changes.items) }
{
    let (existing, wanted) = begin(alloc, folder, what)?;
    changes(alloc, folder, &existing, &wanted)
}

/// Puts a copy right where it isn't true of the repository, as [`mended`] says, and returns the paths that changed, in path order; none of a true copy,
/// which stays as it is.
///
/// Refused before anything is changed: NoCopy; InUse where a client is about to write; Journal, Database, Nodes and Rows where the copy can't be read;
/// Unfinished where work of this library is left, Foreign where a client's is; Repository; NoRoot; Reserved; what is in the way of the change: Local,
/// NoDirectory, Changed and InTheWay at the first path. Then NoText at the first file whose text isn't given, InUse where a client changes the copy
/// meanwhile, Folder, Rows, Path and Memory: up to the rename of the new database the copy is the old one, and from then on the new one, with work left that
/// [`resume`](crate::resume) and `svn cleanup` do. Then it also ends with Changed, InTheWay, InUse and Overwritten, as [`bring`](crate::bring) does.
pub fn mend<F: Folder, S: Source>(
    alloc: Global,
    folder: &mut SyncedFolder<F>,
    source: &mut S,
    what: &Remedy<'_>,
) -> Result<Vec<PathChange>, DiskFault>
    ensures steps { IsMending what.now.repo.now (F.past folder.old.folder) result (F.past folder.new.folder) }
    ensures spares { (rows : AllRows) → IsAlways (HasDatabaseRows rows) (F.past folder.old.folder) → Goes no_step (F.past folder.old.folder) result (F.past folder.new.folder) ⊎ SparesOthers what.now.repo.now rows.pristine (λ P. GoesIn P (F.past folder.old.folder) result (F.past folder.new.folder)) }
    ensures crash { what.now.sync ≡ true → (copy : List (Path × BaseNode)) → LeavesFrom (IsKept copy) (IsThereOrTrue copy what.now.repo.now) (F.past folder.old.folder) (F.past folder.new.folder) }
    ensures after { what.now.sync ≡ true → (copy : List (Path × BaseNode)) → OnOk result (AfterFrom (IsKept copy) (IsTrueThere what.now.repo.now) (F.past folder.old.folder) (F.past folder.new.folder)) }
    ensures ends { IfOk result (λ changes. IsMended what.now.repo.now (F.past folder.old.folder) changes.items (F.past folder.new.folder)) }
{
    let (existing, wanted) = begin(alloc, folder, what)?;
    bring(alloc, folder, source, &existing, &wanted, what.sync)
}
