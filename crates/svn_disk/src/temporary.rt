//! What an earlier run has left in the folder of what has no name yet.
ghost use Rattle.svn_disk.specs.Goes.{Goes};
ghost use Rattle.svn_disk.specs.Places.{is_temporary};

use crate::fault::DiskFault;
use crate::layout::Admin;
use crate::steps::{make_directory_if_none, remove_if_any};
use std::alloc::Global;
use svn_folder::Folder;
use svn_types::Name;

/// What the names that this library gives there begin with. A client's begin otherwise.
const OWN: &str = "new-";

// Removes a file of that name, if it is one of this library's.
fn clear_name<F: Folder>(
    alloc: Global,
    folder: &mut F,
    admin: &Admin,
    name: &Name,
) -> Result<(), DiskFault>
    ensures { Goes (is_temporary admin.now.name) (F.past folder.old) result (F.past folder.new) }
{
    if !name.as_str().starts_with(OWN) {
        return Ok(());
    }
    let path = admin.temporary(alloc)?.join(alloc, name)?;
    remove_if_any(alloc, folder, &path)
}

/// Removes what an earlier run that was cut off has left of what has no name yet, and makes the folder of it, if it isn't there.
pub(crate) fn clear_temporary<F: Folder>(
    alloc: Global,
    folder: &mut F,
    admin: &Admin,
) -> Result<(), DiskFault>
    ensures { Goes (is_temporary admin.now.name) (F.past folder.old) result (F.past folder.new) }
{
    let temporary = admin.temporary(alloc)?;
    make_directory_if_none(alloc, folder, &temporary)?;
    let names = folder.list(alloc, &temporary)?;
    for name in &names {
        clear_name(alloc, folder, admin, name)?;
    }
    Ok(())
}
