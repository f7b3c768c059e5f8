//! What was done to a folder, brought to the disk.
ghost use Rattle.std.specs.Prelude.{◌≡◌, true, OnOk};
ghost use Rattle.svn_folder.specs.Syncing.{IsSyncedPast};
ghost use Rattle.svn_disk.specs.Goes.{Goes};
ghost use Rattle.svn_folder.specs.Files.{is_sync};

use crate::fault::DiskFault;
use std::alloc::Global;
use svn_folder::{Folder, SyncedFolder};

/// Brings all of a folder to the disk, if that is asked for.
pub(crate) fn settle<F: Folder>(
    alloc: Global,
    folder: &mut SyncedFolder<F>,
    sync: bool,
) -> Result<(), DiskFault>
    ensures steps { Goes is_sync (F.past folder.old.folder) result (F.past folder.new.folder) }
    ensures synced { sync ≡ true → OnOk result (IsSyncedPast (F.past folder.new.folder)) }
{
    if !sync {
        return Ok(());
    }
    folder.sync_all(alloc)?;
    if folder.is_synced() {
        Ok(())
    } else {
        Err(DiskFault::NotSynced)
    }
}
