//! The work of a change, done: what goes is removed, and what comes is made. Each part may be done again.
ghost use Rattle.std.specs.Prelude.{◌≡◌, List, Bool, true, false, codes, IfOk, OnOk, MatchOption, ⊤};
ghost use Rattle.std.specs.List.{list_all};
ghost use Rattle.svn_types.specs.Names.{Path};
ghost use Rattle.svn_model.specs.declared.base_node.BaseNode.{BaseNode};
ghost use Rattle.svn_wcrows.specs.Copies.{StandsFor};
ghost use Rattle.svn_folder.specs.Entries.{has_leaf, has_directory};
ghost use Rattle.svn_folder.specs.States.{seen};
ghost use Rattle.svn_folder.specs.Steps.{IsEmpty};
ghost use Rattle.svn_folder.specs.Files.{is_sync};
ghost use Rattle.svn_disk.specs.Goes.{Goes, IsAlways};
ghost use Rattle.svn_disk.specs.Places.{is_inside, is_outside, is_changing, is_doing};
ghost use Rattle.svn_disk.specs.Plans.{path_of};
ghost use Rattle.svn_disk.specs.Crashes.{IsSafe, IsWhole, AreOfNodes, Runs};
ghost use Rattle.svn_disk.specs.Spared.{GoesIn, Spares};
ghost use Rattle.svn_disk.specs.Finding.{has_word};
ghost use Rattle.svn_disk.specs.Ends.{Turns, IsLessAt, IsOneGone, AreRemoved, IsOneMade, AreMade, IsMoved, IsOnePlaced, AreDirectories, AreDistinct, AreDone, AreCarried, IsExchanged, own_place};
ghost use Rattle.svn_disk.specs.Tasks.{makings_in, removals_in};

use crate::carry::{Exchange, files_in, parents, replace_database};
use crate::database_image::Images;
use crate::fault::DiskFault;
use crate::known::KnownTexts;
use crate::layout::Admin;
use crate::on_disk::{Found, find};
use crate::steps::{make_directory_if_none, rename, take};
use crate::task::Task;
use std::alloc::Global;
use std::collections::BTreeSet;
use svn_folder::{Entry, Folder, FolderFault, Step};
use svn_types::{RelPath, Text};
use svn_wcrows::Work;

/// With what work is done.
#[derive(Clone, Copy)]
pub(crate) struct Doing<'a> {
    pub(crate) alloc: Global,
    pub(crate) admin: &'a Admin,
    pub(crate) task: &'a Task,
    /// The texts that the copy keeps: what is on disk with one of them is nobody's edit.
    pub(crate) known: &'a KnownTexts,
    /// Whether everything is brought to the disk before it counts.
    pub(crate) sync: bool,
}

/// The database with all of the work, and those that follow: once all that goes is removed, if something comes in its place, and at the end.
#[derive(Drop)]
pub(crate) struct Databases {
    /// The bytes of the one that is there when the work begins.
    pub(crate) first: Text,
    /// The bytes of the one between.
    between: Option<Text>,
    pub(crate) middle: Option<Vec<u8>>,
    pub(crate) end: Vec<u8>,
}

// The database between, if something comes where something else goes.
fn middle_after(
    alloc: Global,
    images: &mut Images,
    task: &Task,
) -> Result<Option<Vec<u8>>, DiskFault>
    ensures image { IfOk result (λ middle. MatchOption middle ⊤ (λ image. StandsFor images.old.nodes.items image.items)) }
    ensures nodes { images.new.nodes.items ≡ images.old.nodes.items }
{
    if task.changes_kind(alloc)? {
        Ok(Some(images.next(alloc, task.makings())?))
    } else {
        Ok(None)
    }
}

// The bytes of an image, once it is a file.
fn bytes_of(alloc: Global, image: &Option<Vec<u8>>) -> Result<Option<Text>, DiskFault> {
    Ok(match image {
        Some(image) => Some(Text::from_slice(alloc, image)?),
        None => None,
    })
}

impl Databases {
    /// Those that follow the one with all of the work, and that one.
    pub(crate) fn after(
        alloc: Global,
        images: &mut Images,
        task: &Task,
        first: Text,
    ) -> Result<Databases, DiskFault>
        ensures images { IfOk result (λ databases. AreOfNodes images.old.nodes.items databases) }
        ensures nodes { images.new.nodes.items ≡ images.old.nodes.items }
    {
        let middle = middle_after(alloc, images, task)?;
        let between = bytes_of(alloc, &middle)?;
        let end = images.next(alloc, &[])?;
        Ok(Databases {
            first,
            between,
            middle,
            end,
        })
    }
}

// Whether nothing is in a directory. A name that no path may have is something.
fn is_empty<F: Folder>(alloc: Global, folder: &F, path: &RelPath) -> Result<bool, DiskFault>
    ensures { IfOk result (λ is. is ≡ true → IsAlways (λ s. IsEmpty s path.now) (F.past folder.now)) }
{
    match folder.list(alloc, path) {
        Ok(names) => Ok(names.is_empty()),
        Err(FolderFault::Path(_)) => Ok(false),
        Err(fault) => Err(DiskFault::from(fault)),
    }
}

// Whether a directory is at a path, with nothing in it.
fn is_empty_directory<F: Folder>(
    alloc: Global,
    folder: &F,
    path: &RelPath,
) -> Result<bool, DiskFault>
    ensures { IfOk result (λ is. is ≡ true → IsAlways (λ s. (has_directory (seen s path.now) ≡ true) × IsEmpty s path.now) (F.past folder.now)) }
{
    match find(alloc, folder, path)? {
        Found::Directory => is_empty(alloc, folder, path),
        Found::Nothing | Found::Leaf(_) => Ok(false),
    }
}

impl Doing<'_> {
    // Removes a file or a link that is the copy's, if one is there.
    fn remove_file<F: Folder>(&self, folder: &mut F, path: &RelPath) -> Result<(), DiskFault>
        ensures steps { (free : Path → Bool) → free path.now ≡ true → Goes (is_changing self.now.admin.now.name free) (F.past folder.old) result (F.past folder.new) }
        ensures spares { GoesIn (Spares (has_word self.now.known.now) self.now.admin.now.name) (F.past folder.old) result (F.past folder.new) }
        ensures ends { OnOk result (Turns (λ before left. IsLessAt path.now before left × (has_leaf (left path.now) ≡ false)) (F.past folder.old) (F.past folder.new)) }
    {
        if self.known.is_own_leaf(self.alloc, folder, path)? {
            return take(folder, Step::RemoveFile(path.clone()?));
        }
        Ok(())
    }

    // Removes a directory, if one is there. With something in it that isn't the copy's it stays.
    fn remove_directory<F: Folder>(&self, folder: &mut F, path: &RelPath) -> Result<(), DiskFault>
        ensures steps { (free : Path → Bool) → free path.now ≡ true → Goes (is_changing self.now.admin.now.name free) (F.past folder.old) result (F.past folder.new) }
        ensures spares { GoesIn (Spares (has_word self.now.known.now) self.now.admin.now.name) (F.past folder.old) result (F.past folder.new) }
        ensures ends { OnOk result (Turns (IsLessAt path.now) (F.past folder.old) (F.past folder.new)) }
    {
        if is_empty_directory(self.alloc, folder, path)? {
            return take(folder, Step::RemoveDirectory(path.clone()?));
        }
        Ok(())
    }

    // Removes what goes, if it is something that does.
    fn remove_one<F: Folder>(&self, folder: &mut F, item: &Work) -> Result<(), DiskFault>
        ensures steps { (free : Path → Bool) → free (path_of item.now) ≡ true → Goes (is_changing self.now.admin.now.name free) (F.past folder.old) result (F.past folder.new) }
        ensures spares { GoesIn (Spares (has_word self.now.known.now) self.now.admin.now.name) (F.past folder.old) result (F.past folder.new) }
        ensures ends { OnOk result (Turns (IsOneGone item.now) (F.past folder.old) (F.past folder.new)) }
    {
        match item {
            Work::RemoveFile(path) => self.remove_file(folder, path),
            Work::RemoveDirectory(path) => self.remove_directory(folder, path),
            Work::MakeDirectory(_) | Work::InstallFile(_) => Ok(()),
        }
    }

    // Removes all that goes.
    fn remove_all<F: Folder>(&self, folder: &mut F) -> Result<(), DiskFault>
        ensures steps { (free : Path → Bool) → list_all (λ item. free (path_of item)) self.now.task.now.work.items ≡ true → Goes (is_changing self.now.admin.now.name free) (F.past folder.old) result (F.past folder.new) }
        ensures spares { GoesIn (Spares (has_word self.now.known.now) self.now.admin.now.name) (F.past folder.old) result (F.past folder.new) }
        ensures ends { OnOk result (Turns (AreRemoved (removals_in self.now.task.now)) (F.past folder.old) (F.past folder.new)) }
    {
        let removals = self.task.removals();
        for item in removals {
            self.remove_one(folder, item)?;
        }
        self.sync_above(folder, removals)
    }

    // Makes a directory that comes.
    fn make_one<F: Folder>(&self, folder: &mut F, item: &Work) -> Result<(), DiskFault>
        ensures steps { (free : Path → Bool) → free (path_of item.now) ≡ true → Goes (is_changing self.now.admin.now.name free) (F.past folder.old) result (F.past folder.new) }
        ensures spares { GoesIn (Spares (has_word self.now.known.now) self.now.admin.now.name) (F.past folder.old) result (F.past folder.new) }
        ensures ends { OnOk result (Turns (IsOneMade item.now) (F.past folder.old) (F.past folder.new)) }
    {
        match item {
            Work::MakeDirectory(path) => make_directory_if_none(self.alloc, folder, path),
            Work::InstallFile(_) | Work::RemoveFile(_) | Work::RemoveDirectory(_) => Ok(()),
        }
    }

    // Makes all directories that come.
    fn make_directories<F: Folder>(&self, folder: &mut F, work: &[Work]) -> Result<(), DiskFault>
        ensures steps { (free : Path → Bool) → list_all (λ item. free (path_of item)) work.now ≡ true → Goes (is_changing self.now.admin.now.name free) (F.past folder.old) result (F.past folder.new) }
        ensures spares { GoesIn (Spares (has_word self.now.known.now) self.now.admin.now.name) (F.past folder.old) result (F.past folder.new) }
        ensures ends { OnOk result (Turns (AreMade work.now) (F.past folder.old) (F.past folder.new)) }
    {
        for item in work {
            self.make_one(folder, item)?;
        }
        Ok(())
    }

    // Gives the file of that number its place, if nothing is there that isn't the copy's.
    fn place<F: Folder>(
        &self,
        folder: &mut F,
        path: &RelPath,
        number: usize,
    ) -> Result<(), DiskFault>
        ensures steps { (free : Path → Bool) → free path.now ≡ true → Goes (is_changing self.now.admin.now.name free) (F.past folder.old) result (F.past folder.new) }
        ensures spares { GoesIn (Spares (has_word self.now.known.now) self.now.admin.now.name) (F.past folder.old) result (F.past folder.new) }
        ensures ends { OnOk result (Turns (IsMoved (own_place self.now.admin.now.name number) path.now) (F.past folder.old) (F.past folder.new)) }
    {
        self.known.is_own_leaf(self.alloc, folder, path)?;
        rename(folder, &self.admin.new_file(self.alloc, number)?, path)
    }

    // Gives a file that comes its place.
    fn place_one<F: Folder>(
        &self,
        folder: &mut F,
        item: &Work,
        number: usize,
    ) -> Result<(), DiskFault>
        ensures steps { (free : Path → Bool) → free (path_of item.now) ≡ true → Goes (is_changing self.now.admin.now.name free) (F.past folder.old) result (F.past folder.new) }
        ensures spares { GoesIn (Spares (has_word self.now.known.now) self.now.admin.now.name) (F.past folder.old) result (F.past folder.new) }
        ensures ends { OnOk result (Turns (IsOnePlaced self.now.admin.now.name number item.now) (F.past folder.old) (F.past folder.new)) }
    {
        match item {
            Work::InstallFile(path) => self.place(folder, path, number),
            Work::MakeDirectory(_) | Work::RemoveFile(_) | Work::RemoveDirectory(_) => Ok(()),
        }
    }

    // Gives all files that come their places, of which each has the next name of its own.
    fn place_files<F: Folder>(&self, folder: &mut F, work: &[Work]) -> Result<(), DiskFault>
        ensures steps { (free : Path → Bool) → list_all (λ item. free (path_of item)) work.now ≡ true → Goes (is_changing self.now.admin.now.name free) (F.past folder.old) result (F.past folder.new) }
        ensures spares { GoesIn (Spares (has_word self.now.known.now) self.now.admin.now.name) (F.past folder.old) result (F.past folder.new) }
        ensures ends { self.now.admin.now.name ≡ codes ".svn" → list_all (λ item. is_outside (path_of item)) work.now ≡ true → AreDistinct work.now → OnOk result (Turns (λ before left. AreDirectories work.now before → AreDone (codes ".svn") work.now before left) (F.past folder.old) (F.past folder.new)) }
    {
        let mut number = 0usize;
        for item in work {
            self.place_one(folder, item, number)?;
            number = number.saturating_add(files_in(item));
        }
        Ok(())
    }

    // Makes all that comes.
    fn make_all<F: Folder>(&self, folder: &mut F) -> Result<(), DiskFault>
        ensures steps { (free : Path → Bool) → list_all (λ item. free (path_of item)) self.now.task.now.work.items ≡ true → Goes (is_changing self.now.admin.now.name free) (F.past folder.old) result (F.past folder.new) }
        ensures spares { GoesIn (Spares (has_word self.now.known.now) self.now.admin.now.name) (F.past folder.old) result (F.past folder.new) }
        ensures ends { self.now.admin.now.name ≡ codes ".svn" → list_all (λ item. is_outside (path_of item)) (makings_in self.now.task.now) ≡ true → AreDistinct (makings_in self.now.task.now) → OnOk result (Turns (AreDone (codes ".svn") (makings_in self.now.task.now)) (F.past folder.old) (F.past folder.new)) }
    {
        let makings = self.task.makings();
        self.make_directories(folder, makings)?;
        self.place_files(folder, makings)?;
        self.sync_above(folder, makings)
    }

    // Brings the names in the directories of these paths to the disk, those above first, also where they are as they were: an earlier run that was cut off
    // may have changed them.
    fn sync_above<F: Folder>(&self, folder: &mut F, work: &[Work]) -> Result<(), DiskFault>
        ensures { Goes is_sync (F.past folder.old) result (F.past folder.new) }
    {
        if !self.sync {
            return Ok(());
        }
        self.sync_all(folder, &parents(self.alloc, work)?)
    }

    // Brings the names in these directories to the disk, of those that are there.
    fn sync_all<F: Folder>(
        &self,
        folder: &mut F,
        directories: &BTreeSet<RelPath>,
    ) -> Result<(), DiskFault>
        ensures { Goes is_sync (F.past folder.old) result (F.past folder.new) }
    {
        for directory in directories {
            self.sync_one(folder, directory)?;
        }
        Ok(())
    }

    // Brings the names in a directory to the disk, if it is there.
    fn sync_one<F: Folder>(&self, folder: &mut F, directory: &RelPath) -> Result<(), DiskFault>
        ensures { Goes is_sync (F.past folder.old) result (F.past folder.new) }
    {
        match folder.look(self.alloc, directory)? {
            Some(Entry::Directory) => take(folder, Step::SyncDirectory(directory.clone()?)),
            _ => Ok(()),
        }
    }

    // Puts another database of the copy in place of the one that is there, which has these bytes still.
    fn replace<F: Folder>(
        &self,
        folder: &mut F,
        now: &Text,
        image: Vec<u8>,
    ) -> Result<(), DiskFault>
        requires { self.now.admin.now.name ≡ codes ".svn" }
        ensures steps { Goes (is_inside (codes ".svn")) (F.past folder.old) result (F.past folder.new) }
        ensures ends { OnOk result (Turns (IsExchanged (codes ".svn")) (F.past folder.old) (F.past folder.new)) }
        ensures crash { self.now.sync ≡ true → (nodes : List (Path × BaseNode)) → StandsFor nodes image.items → Runs (IsSafe (codes ".svn") nodes) (IsWhole (codes ".svn") nodes) (IsSafe (codes ".svn") nodes) (F.past folder.old) result (F.past folder.new) }
    {
        let exchange = Exchange { now, image };
        replace_database(self.alloc, folder, self.admin, exchange, self.sync)
    }

    // The same, if there is one.
    fn replace_if_any<F: Folder>(
        &self,
        folder: &mut F,
        now: &Text,
        image: Option<Vec<u8>>,
    ) -> Result<(), DiskFault>
        requires { self.now.admin.now.name ≡ codes ".svn" }
        ensures steps { Goes (is_inside (codes ".svn")) (F.past folder.old) result (F.past folder.new) }
        ensures ends { OnOk result (Turns (IsExchanged (codes ".svn")) (F.past folder.old) (F.past folder.new)) }
        ensures crash { self.now.sync ≡ true → (nodes : List (Path × BaseNode)) → MatchOption image ⊤ (λ image. StandsFor nodes image.items) → Runs (IsSafe (codes ".svn") nodes) (IsWhole (codes ".svn") nodes) (IsSafe (codes ".svn") nodes) (F.past folder.old) result (F.past folder.new) }
    {
        match image {
            Some(image) => self.replace(folder, now, image),
            None => Ok(()),
        }
    }

    /// Does the work of a copy whose database has it as its queue, and whose files that come have names of their own. Changed where a file was edited since
    /// the work was begun, InTheWay where something came to be where a directory would be, and InUse where a client has changed the database, or is about to:
    /// it is left then, and so is what follows. Overwritten where a client began to change the database when the next one took its place.
    pub(crate) fn carry_on<F: Folder>(
        &self,
        folder: &mut F,
        databases: Databases,
    ) -> Result<(), DiskFault>
        requires name { self.now.admin.now.name ≡ codes ".svn" }
        requires outside { list_all (λ item. is_outside (path_of item)) self.now.task.now.work.items ≡ true }
        ensures steps { (free : Path → Bool) → list_all (λ item. free (path_of item)) self.now.task.now.work.items ≡ true → Goes (is_doing (codes ".svn") free) (F.past folder.old) result (F.past folder.new) }
        ensures spares { GoesIn (Spares (has_word self.now.known.now) (codes ".svn")) (F.past folder.old) result (F.past folder.new) }
        ensures ends { AreDistinct (makings_in self.now.task.now) → OnOk result (Turns (AreCarried (codes ".svn") (removals_in self.now.task.now) (makings_in self.now.task.now)) (F.past folder.old) (F.past folder.new)) }
        ensures crash { self.now.sync ≡ true → (nodes : List (Path × BaseNode)) → AreOfNodes nodes databases → Runs (IsSafe (codes ".svn") nodes) (IsWhole (codes ".svn") nodes) (IsSafe (codes ".svn") nodes) (F.past folder.old) result (F.past folder.new) }
    {
        // a list has fewer items than a number counts
        let _count = self.task.work.len();
        let Databases {
            first,
            between,
            middle,
            end,
        } = databases;
        self.remove_all(folder)?;
        self.replace_if_any(folder, &first, middle)?;
        self.make_all(folder)?;
        self.replace(folder, between.as_ref().unwrap_or(&first), end)
    }
}
