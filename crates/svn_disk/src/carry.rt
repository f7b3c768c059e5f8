//! The work of a new copy, done: its directories are made, and its files get their places.
ghost use Rattle.std.specs.Prelude.{◌≡◌, List, Bool, true, codes, OnOk};
ghost use Rattle.std.specs.List.{list_all};
ghost use Rattle.svn_types.specs.Names.{Path};
ghost use Rattle.svn_model.specs.declared.base_node.BaseNode.{BaseNode};
ghost use Rattle.svn_wcrows.specs.Copies.{StandsFor};
ghost use Rattle.svn_folder.specs.Files.{is_sync};
ghost use Rattle.svn_disk.specs.Goes.{Goes};
ghost use Rattle.svn_disk.specs.Places.{is_inside, is_outside, is_placing};
ghost use Rattle.svn_disk.specs.Plans.{path_of};
ghost use Rattle.svn_disk.specs.Crashes.{IsOneOf, IsSafe, IsBoth, IsSet, Runs};
ghost use Rattle.svn_disk.specs.Ends.{Turns, ArePlaced, AreDistinct, AreDirectories, AreMade, IsOneMade, IsOnePlaced, IsExchanged, files_of};

use crate::existing::{lock_unchanged, refuse_overwritten};
use crate::fault::DiskFault;
use crate::layout::Admin;
use crate::steps::{make, make_directory_if_none, remove_if_any, rename, take, take_if};
use std::alloc::Global;
use std::collections::BTreeSet;
use svn_folder::{Entry, Folder, Mode, Step};
use svn_types::{RelPath, Text};
use svn_wcrows::Work;

// Makes a directory.
fn make_one<F: Folder>(
    alloc: Global,
    folder: &mut F,
    admin: &Admin,
    item: &Work,
) -> Result<(), DiskFault>
    ensures steps { (free : Path → Bool) → free (path_of item.now) ≡ true → Goes (is_placing admin.now.name free) (F.past folder.old) result (F.past folder.new) }
    ensures ends { OnOk result (Turns (IsOneMade item.now) (F.past folder.old) (F.past folder.new)) }
{
    match item {
        Work::MakeDirectory(path) => make_directory_if_none(alloc, folder, path),
        Work::InstallFile(_) | Work::RemoveFile(_) | Work::RemoveDirectory(_) => Ok(()),
    }
}

// Makes the directories, which come from above.
fn make_directories<F: Folder>(
    alloc: Global,
    folder: &mut F,
    admin: &Admin,
    work: &[Work],
) -> Result<(), DiskFault>
    ensures steps { (free : Path → Bool) → list_all (λ item. free (path_of item)) work.now ≡ true → Goes (is_placing admin.now.name free) (F.past folder.old) result (F.past folder.new) }
    ensures ends { OnOk result (Turns (AreMade work.now) (F.past folder.old) (F.past folder.new)) }
{
    for item in work {
        make_one(alloc, folder, admin, item)?;
    }
    Ok(())
}

/// How many files an item of work places.
pub(crate) fn files_in(item: &Work) -> usize
    ensures { result ≡ files_of item.now }
{
    match item {
        Work::InstallFile(_) => 1,
        Work::MakeDirectory(_) | Work::RemoveFile(_) | Work::RemoveDirectory(_) => 0,
    }
}

// Gives a file its place.
fn place_one<F: Folder>(
    alloc: Global,
    folder: &mut F,
    admin: &Admin,
    number: usize,
    item: &Work,
) -> Result<(), DiskFault>
    ensures steps { (free : Path → Bool) → free (path_of item.now) ≡ true → Goes (is_placing admin.now.name free) (F.past folder.old) result (F.past folder.new) }
    ensures ends { OnOk result (Turns (IsOnePlaced admin.now.name number item.now) (F.past folder.old) (F.past folder.new)) }
{
    match item {
        Work::InstallFile(path) => rename(folder, &admin.new_file(alloc, number)?, path),
        Work::MakeDirectory(_) | Work::RemoveFile(_) | Work::RemoveDirectory(_) => Ok(()),
    }
}

// Gives the files their places, of which each has the next name of its own.
fn place_files<F: Folder>(
    alloc: Global,
    folder: &mut F,
    admin: &Admin,
    work: &[Work],
) -> Result<(), DiskFault>
    ensures steps { (free : Path → Bool) → list_all (λ item. free (path_of item)) work.now ≡ true → Goes (is_placing admin.now.name free) (F.past folder.old) result (F.past folder.new) }
    ensures ends { admin.now.name ≡ codes ".svn" → list_all (λ item. is_outside (path_of item)) work.now ≡ true → AreDistinct work.now → OnOk result (Turns (λ before left. AreDirectories work.now before → ArePlaced (codes ".svn") 0 work.now before left) (F.past folder.old) (F.past folder.new)) }
{
    let mut number = 0usize;
    for item in work {
        place_one(alloc, folder, admin, number, item)?;
        number = number.saturating_add(files_in(item));
    }
    Ok(())
}

/// The directories in which work is.
pub(crate) fn parents(alloc: Global, work: &[Work]) -> Result<BTreeSet<RelPath>, DiskFault> {
    let mut parents = BTreeSet::new(alloc);
    for item in work {
        if let Some(parent) = item.path().parent(alloc)? {
            parents.insert(parent)?;
        }
    }
    Ok(parents)
}

// Brings all names to the disk, from above, since a directory's names are on the disk only if its own is. Some of them an earlier run may have made,
// which was cut off, so that nothing is known of them.
fn sync_names<F: Folder>(alloc: Global, folder: &mut F, work: &[Work]) -> Result<(), DiskFault>
    ensures { Goes is_sync (F.past folder.old) result (F.past folder.new) }
{
    for path in &parents(alloc, work)? {
        take(folder, Step::SyncDirectory(path.clone()?))?;
    }
    Ok(())
}

/// Does the work of a new copy, whose files have names of their own, and brings all names to the disk if `sync` says so.
pub(crate) fn carry_out<F: Folder>(
    alloc: Global,
    folder: &mut F,
    admin: &Admin,
    work: &[Work],
    sync: bool,
) -> Result<(), DiskFault>
    ensures steps { (free : Path → Bool) → list_all (λ item. free (path_of item)) work.now ≡ true → Goes (is_placing admin.now.name free) (F.past folder.old) result (F.past folder.new) }
    ensures ends { admin.now.name ≡ codes ".svn" → list_all (λ item. is_outside (path_of item)) work.now ≡ true → AreDistinct work.now → OnOk result (Turns (ArePlaced (codes ".svn") 0 work.now) (F.past folder.old) (F.past folder.new)) }
{
    make_directories(alloc, folder, admin, work)?;
    place_files(alloc, folder, admin, work)?;
    if !sync {
        return Ok(());
    }
    sync_names(alloc, folder, work)
}

/// Makes another database, under a name of its own; its bytes are on the disk with `sync`.
pub(crate) fn make_database<F: Folder>(
    alloc: Global,
    folder: &mut F,
    admin: &Admin,
    image: Vec<u8>,
    sync: bool,
) -> Result<(), DiskFault>
    ensures steps { Goes (is_inside admin.now.name) (F.past folder.old) result (F.past folder.new) }
    ensures ends { OnOk result (Turns (IsExchanged admin.now.name) (F.past folder.old) (F.past folder.new)) }
    ensures crash { sync ≡ true → admin.now.name ≡ codes ".svn" → (one two : List (Path × BaseNode)) → StandsFor two image.items → Runs (IsBoth one two) (IsOneOf one two) (IsSet one two) (F.past folder.old) result (F.past folder.new) }
{
    let new = admin.new_database(alloc)?;
    let entry = Entry::File(Text::new(image), Mode::PLAIN);
    remove_if_any(alloc, folder, &new)?;
    make(folder, new.clone()?, entry)?;
    take_if(folder, Step::SyncFile(new), sync)
}

/// Puts it in place of the one that is there; with `sync` its name is on the disk after it. Overwritten where a client began to change that one meanwhile.
pub(crate) fn put_database<F: Folder>(
    alloc: Global,
    folder: &mut F,
    admin: &Admin,
    sync: bool,
) -> Result<(), DiskFault>
    ensures steps { Goes (is_inside admin.now.name) (F.past folder.old) result (F.past folder.new) }
    ensures ends { OnOk result (Turns (IsExchanged admin.now.name) (F.past folder.old) (F.past folder.new)) }
    ensures crash { sync ≡ true → admin.now.name ≡ codes ".svn" → (one two : List (Path × BaseNode)) → Runs (IsSet one two) (IsOneOf one two) (IsSafe (codes ".svn") two) (F.past folder.old) result (F.past folder.new) }
{
    let new = admin.new_database(alloc)?;
    let database = admin.database(alloc)?;
    let above = admin.folder(alloc)?;
    rename(folder, &new, &database)?;
    refuse_overwritten(alloc, folder, admin)?;
    take_if(folder, Step::SyncDirectory(above), sync)
}

/// What takes the place of a database.
#[derive(Drop)]
pub(crate) struct Exchange<'a> {
    /// The bytes of the database that is there.
    pub(crate) now: &'a Text,
    /// The next one.
    pub(crate) image: Vec<u8>,
}

/// Puts a database in place of the one that is there, which has its bytes still; with `sync` its own bytes are on the disk before, and its name after. It may
/// be of another copy, whose texts are there as well: a crash leaves the one copy or the other. InUse where a client has changed the one that is there, or is
/// about to; it stays then.
pub(crate) fn replace_database<F: Folder>(
    alloc: Global,
    folder: &mut F,
    admin: &Admin,
    exchange: Exchange<'_>,
    sync: bool,
) -> Result<(), DiskFault>
    ensures steps { Goes (is_inside admin.now.name) (F.past folder.old) result (F.past folder.new) }
    ensures ends { OnOk result (Turns (IsExchanged admin.now.name) (F.past folder.old) (F.past folder.new)) }
    ensures crash { sync ≡ true → admin.now.name ≡ codes ".svn" → (one two : List (Path × BaseNode)) → StandsFor two exchange.entry.image.items → Runs (IsBoth one two) (IsOneOf one two) (IsSafe (codes ".svn") two) (F.past folder.old) result (F.past folder.new) }
{
    let Exchange { now, image } = exchange;
    make_database(alloc, folder, admin, image, sync)?;
    let _lock = lock_unchanged(alloc, folder, admin, now)?;
    put_database(alloc, folder, admin, sync)
}
