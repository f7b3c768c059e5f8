//! What a checkout left that was cut off before there was a copy, removed.
ghost use Rattle.std.specs.Prelude.{◌≡◌, ◌∷◌, ◌++◌, [], ℕ, List, true, codes, IfOk, OnOk};
ghost use Rattle.std.specs.List.{list_all};
ghost use Rattle.svn_types.specs.Paths.{is_within};
ghost use Rattle.svn_disk.specs.Goes.{Goes};
ghost use Rattle.svn_disk.specs.Places.{is_inside};

use crate::fault::DiskFault;
use crate::layout::Admin;
use crate::steps::{take, take_if};
use std::alloc::Global;
use svn_folder::{Folder, Step, Summary};
use svn_types::{Name, RelPath};

// The path of an entry of a directory.
fn entry_of(alloc: Global, path: &RelPath, name: &Name) -> Result<RelPath, DiskFault>
    ensures { IfOk result (λ entry. entry ≡ path.now ++ name.now ∷ []) }
{
    let entry = path.join(alloc, name)?;
    Ok(entry)
}

// Removes an entry, or adds it to those that are left, if it is a directory.
fn remove_entry<F: Folder>(
    alloc: Global,
    folder: &mut F,
    entry: RelPath,
    left: &mut Vec<RelPath>,
) -> Result<(), DiskFault>
    ensures steps { (n : List ℕ) → is_within (n ∷ []) entry ≡ true → Goes (is_inside n) (F.past folder.old) result (F.past folder.new) }
    ensures left { (n : List ℕ) → is_within (n ∷ []) entry ≡ true → list_all (is_within (n ∷ [])) left.old.items ≡ true → OnOk result (list_all (is_within (n ∷ [])) left.new.items ≡ true) }
{
    if let Some(Summary::Directory) = folder.sum(alloc, &entry)? {
        left.push(entry)?;
        return Ok(());
    }
    take(folder, Step::RemoveFile(entry))
}

// Removes what is in a directory, and adds the directories in it to those that are left.
fn remove_files<F: Folder>(
    alloc: Global,
    folder: &mut F,
    path: &RelPath,
    left: &mut Vec<RelPath>,
) -> Result<(), DiskFault>
    ensures steps { (n : List ℕ) → is_within (n ∷ []) path.now ≡ true → Goes (is_inside n) (F.past folder.old) result (F.past folder.new) }
    ensures left { (n : List ℕ) → is_within (n ∷ []) path.now ≡ true → list_all (is_within (n ∷ [])) left.old.items ≡ true → OnOk result (list_all (is_within (n ∷ [])) left.new.items ≡ true) }
{
    let names = folder.list(alloc, path)?;
    for name in &names {
        remove_entry(alloc, folder, entry_of(alloc, path, name)?, left)?;
    }
    Ok(())
}

// Removes a directory, if nothing is left in it; else what is in it, and the directory comes again after those in it.
fn remove_directory<F: Folder>(
    alloc: Global,
    folder: &mut F,
    path: RelPath,
    left: &mut Vec<RelPath>,
) -> Result<(), DiskFault>
    ensures steps { (n : List ℕ) → is_within (n ∷ []) path ≡ true → Goes (is_inside n) (F.past folder.old) result (F.past folder.new) }
    ensures left { (n : List ℕ) → is_within (n ∷ []) path ≡ true → list_all (is_within (n ∷ [])) left.old.items ≡ true → OnOk result (list_all (is_within (n ∷ [])) left.new.items ≡ true) }
{
    if folder.list(alloc, &path)?.is_empty() {
        return take(folder, Step::RemoveDirectory(path));
    }
    left.push(path.clone()?)?;
    remove_files(alloc, folder, &path, left)
}

// Removes a directory with all that is in it, from below.
fn remove_all<F: Folder>(alloc: Global, folder: &mut F, path: &RelPath) -> Result<(), DiskFault>
    ensures { (n : List ℕ) → is_within (n ∷ []) path.now ≡ true → Goes (is_inside n) (F.past folder.old) result (F.past folder.new) }
{
    let mut left = Vec::new(alloc);
    left.push(path.clone()?)?;
    'directories: for _ in 0..u64::MAX {
        let Some(last) = left.pop() else {
            return Ok(());
        };
        remove_directory(alloc, folder, last, &mut left)?;
    }
    Ok(())
}

// The same, and brings to the disk that it is gone, if `sync` says so.
fn remove_synced<F: Folder>(
    alloc: Global,
    folder: &mut F,
    path: &RelPath,
    sync: bool,
) -> Result<(), DiskFault>
    ensures { (n : List ℕ) → is_within (n ∷ []) path.now ≡ true → Goes (is_inside n) (F.past folder.old) result (F.past folder.new) }
{
    remove_all(alloc, folder, path)?;
    take_if(folder, Step::SyncDirectory(RelPath::root(alloc)), sync)
}

/// Removes what a checkout left that was cut off before there was a copy. NoCopy where nothing is of one.
pub(crate) fn clear<F: Folder>(alloc: Global, folder: &mut F, sync: bool) -> Result<(), DiskFault>
    ensures { Goes (is_inside (codes ".svn-new")) (F.past folder.old) result (F.past folder.new) }
{
    let admin = Admin::of_new(alloc)?;
    let path = admin.folder(alloc)?;
    match folder.sum(alloc, &path)? {
        Some(Summary::Directory) => remove_synced(alloc, folder, &path, sync),
        _ => Err(DiskFault::NoCopy),
    }
}
