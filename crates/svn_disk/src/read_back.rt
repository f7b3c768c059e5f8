//! What was written, read back before it counts.
ghost use Rattle.std.specs.Prelude.{◌≡◌, true, Some, IfOk, OnOk};
ghost use Rattle.svn_wcrows.specs.Copies.{StandsFor};
ghost use Rattle.svn_folder.specs.States.{seen};
ghost use Rattle.svn_disk.specs.Goes.{IsAlways};
ghost use Rattle.svn_disk.specs.Places.{database_place};
ghost use Rattle.svn_disk.specs.Plans.{present_nodes};
ghost use Rattle.svn_disk.specs.Crashes.{HasBytes, IsTextIn, OfText, EachText, IsWhole};

use crate::fault::DiskFault;
use crate::layout::Admin;
use crate::node_file::file_of;
use crate::texts::has_text;
use std::alloc::Global;
use svn_folder::{Entry, Folder};
use svn_model::BaseNode;
use svn_types::{RelPath, Text};
use svn_wc::WorkingCopy;

// Refuses a file whose text isn't under its name.
fn refuse_no_text<F: Folder>(
    alloc: Global,
    folder: &F,
    admin: &Admin,
    path: &RelPath,
    node: &BaseNode,
) -> Result<(), DiskFault>
    ensures { OnOk result (IsAlways (λ s. OfText (IsTextIn admin.now.name (seen s)) node.now) (F.past folder.now)) }
{
    let Some((name, _)) = file_of(node) else {
        return Ok(());
    };
    if has_text(alloc, folder, admin, name)? {
        Ok(())
    } else {
        Err(DiskFault::NoText(path.clone()?))
    }
}

// Refuses a copy of which a text isn't under its name.
fn read_texts<F: Folder>(
    alloc: Global,
    folder: &F,
    admin: &Admin,
    copy: &WorkingCopy,
) -> Result<(), DiskFault>
    ensures { OnOk result (IsAlways (λ s. EachText (IsTextIn admin.now.name (seen s)) copy.now) (F.past folder.now)) }
{
    for (path, node) in copy.iter() {
        refuse_no_text(alloc, folder, admin, path, node)?;
    }
    Ok(())
}

// Whether it is a file with these bytes.
fn has_bytes(entry: &Entry, image: &Text) -> bool
    ensures { result ≡ true → HasBytes image.now (Some entry.now) }
{
    match entry {
        Entry::File(bytes, _) => bytes == image,
        Entry::Directory | Entry::Link(_) => false,
    }
}

/// Whether the database has these bytes.
pub(crate) fn has_database<F: Folder>(
    alloc: Global,
    folder: &F,
    admin: &Admin,
    image: &Text,
) -> Result<bool, DiskFault>
    ensures { IfOk result (λ has. has ≡ true → IsAlways (λ s. HasBytes image.now (seen s (database_place admin.now.name))) (F.past folder.now)) }
{
    let place = admin.database(alloc)?;
    match folder.look(alloc, &place)? {
        Some(entry) => Ok(has_bytes(&entry, image)),
        None => Ok(false),
    }
}

/// Reads back the texts of a copy and its database. NoText at the first file whose text isn't under its name, NoImage where the database hasn't these
/// bytes.
pub(crate) fn read_back<F: Folder>(
    alloc: Global,
    folder: &F,
    admin: &Admin,
    copy: &WorkingCopy,
    image: &Text,
) -> Result<(), DiskFault>
    requires { StandsFor (present_nodes copy.now) image.now }
    ensures { OnOk result (IsAlways (λ s. IsWhole admin.now.name (present_nodes copy.now) (seen s)) (F.past folder.now)) }
{
    read_texts(alloc, folder, admin, copy)?;
    if has_database(alloc, folder, admin, image)? {
        Ok(())
    } else {
        Err(DiskFault::NoImage)
    }
}
