//! What was cut off, completed.
ghost use Rattle.std.specs.Prelude.{◌≡◌, ◌⊎◌, List, true, codes, Ok, IfOk, OnOk, ⊤};
ghost use Rattle.std.specs.List.{list_all};
ghost use Rattle.svn_types.specs.Names.{Path};
ghost use Rattle.svn_model.specs.declared.base_node.BaseNode.{BaseNode};
ghost use Rattle.svn_wcrows.specs.Tables.{AllRows};
ghost use Rattle.svn_wcrows.specs.Work.{AreItems};
ghost use Rattle.svn_folder.specs.States.{seen};
ghost use Rattle.svn_disk.specs.Goes.{Goes, IsAlways};
ghost use Rattle.svn_disk.specs.Places.{is_inside, is_temporary, is_outside, is_doing};
ghost use Rattle.svn_disk.specs.Plans.{path_of};
ghost use Rattle.svn_disk.specs.Tasks.{makings_in, IsParted, node_at, work_node, work_nodes};
ghost use Rattle.svn_disk.specs.Ends.{Turns, files_at, files_of, AreFiles, AreDistinct, CopiesNode, AreCopied, IsCompleted};
ghost use Rattle.svn_disk.specs.declared.completion.Resumed.TheVariants.{Completed};
ghost use Rattle.svn_disk.specs.Crashes.{HasDatabase, OfText, EachText, IsTextIn, IsThere, IsWhole, IsSafe, IsKept, AreOfNodes, LeavesFrom, AfterFrom, Runs};
ghost use Rattle.svn_disk.specs.Queue.{HasDatabaseRows, is_queued};
ghost use Rattle.svn_disk.specs.Spared.{GoesIn, Spares, texts_in};

use crate::above::above_of;
use crate::carry::files_in;
use crate::clearing::clear;
use crate::doing::{Databases, Doing};
use crate::existing::Existing;
use crate::fault::DiskFault;
use crate::known::KnownTexts;
use crate::layout::Admin;
use crate::node_file::file_at;
use crate::on_disk::{Found, find};
use crate::prepared::{Prepared, prepare_unless_locked};
use crate::repeated::refuse_repeated;
use crate::steps::{remove_if_any, sync_files};
use crate::task::Task;
use crate::texts::has_text;
use std::alloc::Global;
use std::collections::BTreeSet;
use svn_folder::Folder;
use svn_types::RelPath;
use svn_wcrows::{Work, read_work};

/// What was to be done to complete a copy.
#[derive(Clone, Copy, Debug, PartialEq, Eq)]
pub enum Resumed {
    /// Nothing: no work was left.
    Nothing,
    /// The work that was left.
    Completed,
    /// There was no copy yet. What a checkout had left was removed.
    Cleared,
}

// Refuses a file that can't be made anew: of which the copy has no text, or another one.
fn refuse_no_text<F: Folder>(
    alloc: Global,
    folder: &F,
    admin: &Admin,
    existing: &Existing,
    path: &RelPath,
) -> Result<(), DiskFault>
    ensures { OnOk result (IsAlways (λ s. OfText (IsTextIn admin.now.name (seen s)) (node_at existing.now.copy path.now)) (F.past folder.now)) }
{
    let Some((name, _)) = file_at(&existing.copy, path) else {
        return Err(DiskFault::Foreign);
    };
    if has_text(alloc, folder, admin, name)? {
        Ok(())
    } else {
        Err(DiskFault::NoText(path.clone()?))
    }
}

// What is looked at before anything is done.
#[derive(Clone, Copy)]
struct Looking<'a> {
    alloc: Global,
    existing: &'a Existing,
    known: &'a KnownTexts,
    // The paths at which something goes.
    gone: &'a BTreeSet<RelPath>,
    // Those of them at which a file comes.
    files: &'a BTreeSet<RelPath>,
}

// What may be at a path.
#[derive(Clone, Copy)]
struct Takes {
    directory: bool,
    leaf: bool,
}

impl Looking<'_> {
    // What may be at the path of some work: what is the copy's, and, where it is made in the place of something else, that.
    fn takes(&self, work: &Work) -> Takes {
        let other = self.gone.contains(work.path());
        match work {
            Work::MakeDirectory(_) => Takes {
                directory: true,
                leaf: other,
            },
            Work::InstallFile(_) => Takes {
                directory: other,
                leaf: true,
            },
            Work::RemoveDirectory(_) => Takes {
                directory: true,
                leaf: false,
            },
            Work::RemoveFile(_) => Takes {
                directory: false,
                leaf: true,
            },
        }
    }

    // Whether a file or a link has a text that the copy keeps.
    fn is_own_leaf<F: Folder>(&self, folder: &F, path: &RelPath) -> Result<bool, DiskFault> {
        match self.known.is_own_leaf(self.alloc, folder, path) {
            Err(DiskFault::Changed(_)) => Ok(false),
            other => other,
        }
    }

    // Refuses the path of some work where something else is.
    fn refuse_other<F: Folder>(&self, folder: &F, work: &Work) -> Result<(), DiskFault> {
        let takes = self.takes(work);
        let is_fine = match find(self.alloc, folder, work.path())? {
            Found::Nothing => true,
            Found::Directory => takes.directory,
            Found::Leaf(_) => takes.leaf && self.is_own_leaf(folder, work.path())?,
        };
        if is_fine {
            Ok(())
        } else {
            Err(DiskFault::InTheWay(work.path().clone()?))
        }
    }

    // Whether a file comes in the place of a directory, or of one above it.
    fn becomes_file(&self, path: &RelPath) -> Result<bool, DiskFault> {
        if self.files.contains(path) {
            return Ok(true);
        }
        for above in above_of(self.alloc, path)? {
            if self.files.contains(&above) {
                return Ok(true);
            }
        }
        Ok(false)
    }

    // Refuses what is in a directory and doesn't go.
    fn refuse_others_in<F: Folder>(&self, folder: &F, path: &RelPath) -> Result<(), DiskFault> {
        if !self.becomes_file(path)? {
            return Ok(());
        }
        let Found::Directory = find(self.alloc, folder, path)? else {
            return Ok(());
        };
        for name in folder.list(self.alloc, path)? {
            let below = path.join(self.alloc, &name)?;
            if !self.gone.contains(&below) {
                return Err(DiskFault::InTheWay(below));
            }
        }
        Ok(())
    }

    // Refuses a file that comes, and that can't be made anew.
    fn refuse_untold<F: Folder>(
        &self,
        folder: &F,
        admin: &Admin,
        item: &Work,
    ) -> Result<(), DiskFault>
        ensures { OnOk result (IsAlways (λ s. OfText (IsTextIn admin.now.name (seen s)) (work_node self.now.existing.now.copy item.now)) (F.past folder.now)) }
    {
        match item {
            Work::InstallFile(path) => {
                refuse_no_text(self.alloc, folder, admin, self.existing, path)
            }
            Work::MakeDirectory(_) | Work::RemoveFile(_) | Work::RemoveDirectory(_) => Ok(()),
        }
    }

    // Refuses what isn't the copy's, of some work.
    fn refuse_one<F: Folder>(&self, folder: &F, admin: &Admin, item: &Work) -> Result<(), DiskFault>
        ensures { OnOk result (IsAlways (λ s. OfText (IsTextIn admin.now.name (seen s)) (work_node self.now.existing.now.copy item.now)) (F.past folder.now)) }
    {
        self.refuse_untold(folder, admin, item)?;
        self.refuse_other(folder, item)?;
        if let Work::RemoveDirectory(path) = item {
            self.refuse_others_in(folder, path)?;
        }
        Ok(())
    }

    // Refuses what isn't the copy's, of all work.
    fn refuse_all<F: Folder>(
        &self,
        folder: &F,
        admin: &Admin,
        work: &[Work],
    ) -> Result<(), DiskFault>
        ensures { OnOk result (IsAlways (λ s. EachText (IsTextIn admin.now.name (seen s)) (work_nodes self.now.existing.now.copy work.now)) (F.past folder.now)) }
    {
        for item in work {
            self.refuse_one(folder, admin, item)?;
        }
        Ok(())
    }
}

// What files are prepared from anew.
#[derive(Clone, Copy)]
struct Again<'a> {
    alloc: Global,
    admin: &'a Admin,
    existing: &'a Existing,
}

impl Again<'_> {
    // Whether the client has locked the file at a path in the repository.
    fn is_locked(&self, path: &RelPath) -> bool {
        match self.existing.copy.get(path) {
            Some(node) => self.existing.has_lock(node),
            None => false,
        }
    }

    // Prepares a file anew, under the name that it had. Returns its path there if its bytes are to reach the disk.
    fn prepare_file<F: Folder>(
        &self,
        folder: &mut F,
        path: &RelPath,
        number: usize,
    ) -> Result<Option<RelPath>, DiskFault>
        ensures steps { Goes (is_temporary self.now.admin.now.name) (F.past folder.old) result (F.past folder.new) }
        ensures file { OnOk result (files_at (node_at self.now.existing.now.copy path.now) ≡ 1) }
        ensures ends { OnOk result (Turns (CopiesNode self.now.admin.now.name number (λ name. ⊤) (node_at self.now.existing.now.copy path.now)) (F.past folder.old) (F.past folder.new)) }
    {
        let Some((name, props)) = file_at(&self.existing.copy, path) else {
            return Err(DiskFault::Foreign);
        };
        let new = self.admin.new_file(self.alloc, number)?;
        remove_if_any(self.alloc, folder, &new)?;
        let time = self.existing.time_of(path);
        let what = Prepared { name, props, time };
        let is_locked = self.is_locked(path);
        let is_file = prepare_unless_locked(
            self.alloc,
            folder,
            self.admin,
            number,
            (&what, is_locked),
        )?;
        Ok(if is_file { Some(new) } else { None })
    }

    // Does so if some work is a file that comes.
    fn prepare_one<F: Folder>(
        &self,
        folder: &mut F,
        item: &Work,
        number: usize,
    ) -> Result<Option<RelPath>, DiskFault>
        ensures steps { Goes (is_temporary self.now.admin.now.name) (F.past folder.old) result (F.past folder.new) }
        ensures file { OnOk result (files_at (work_node self.now.existing.now.copy item.now) ≡ files_of item.now) }
        ensures ends { OnOk result (Turns (CopiesNode self.now.admin.now.name number (λ name. ⊤) (work_node self.now.existing.now.copy item.now)) (F.past folder.old) (F.past folder.new)) }
    {
        match item {
            Work::InstallFile(path) => self.prepare_file(folder, path, number),
            Work::MakeDirectory(_) | Work::RemoveFile(_) | Work::RemoveDirectory(_) => Ok(None),
        }
    }

    // Prepares each file anew. Returns the paths of those whose bytes are to reach the disk.
    fn prepare_files<F: Folder>(
        &self,
        folder: &mut F,
        work: &[Work],
    ) -> Result<Vec<RelPath>, DiskFault>
        ensures steps { Goes (is_temporary self.now.admin.now.name) (F.past folder.old) result (F.past folder.new) }
        ensures files { OnOk result (AreFiles self.now.existing.now.copy work.now) }
        ensures ends { OnOk result (Turns (λ before left. AreCopied self.now.admin.now.name 0 (work_nodes self.now.existing.now.copy work.now) left) (F.past folder.old) (F.past folder.new)) }
    {
        let mut number = 0usize;
        let mut files = Vec::new(self.alloc);
        for item in work {
            if let Some(file) = self.prepare_one(folder, item, number)? {
                files.push(file)?;
            }
            number = number.saturating_add(files_in(item));
        }
        Ok(files)
    }

    // Prepares each file anew, and brings their bytes to the disk if `sync` says so.
    fn prepare_all<F: Folder>(
        &self,
        folder: &mut F,
        work: &[Work],
        sync: bool,
    ) -> Result<(), DiskFault>
        ensures steps { Goes (is_temporary self.now.admin.now.name) (F.past folder.old) result (F.past folder.new) }
        ensures files { OnOk result (AreFiles self.now.existing.now.copy work.now) }
        ensures ends { OnOk result (Turns (λ before left. AreCopied self.now.admin.now.name 0 (work_nodes self.now.existing.now.copy work.now) left) (F.past folder.old) (F.past folder.new)) }
    {
        let files = self.prepare_files(folder, work)?;
        if !sync {
            return Ok(());
        }
        sync_files(folder, &files)
    }
}

// The work of this library that a copy has left. Foreign where it is none.
fn task_of(alloc: Global, existing: &Existing) -> Result<Task, DiskFault>
    ensures outside { IfOk result (λ task. list_all (λ item. is_outside (path_of item)) task.work.items ≡ true) }
    ensures queue { IfOk result (λ task. list_all (λ item. is_queued existing.now.tables.work_queue.items (path_of item)) task.work.items ≡ true) }
    ensures items { IfOk result (λ task. AreItems existing.now.tables.work_queue.items task.work.items) }
    ensures parted { IfOk result IsParted }
    ensures distinct { IfOk result (λ task. AreDistinct (makings_in task)) }
{
    if !existing.numbers.is_marked() {
        return Err(DiskFault::Foreign);
    }
    let Some(work) = read_work(alloc, &existing.tables.work_queue)? else {
        return Err(DiskFault::Foreign);
    };
    let Some(task) = Task::of_queue(work) else {
        return Err(DiskFault::Foreign);
    };
    refuse_repeated(alloc, task.makings())?;
    Ok(task)
}

// Refuses what isn't the copy's where work is left.
fn refuse_others<F: Folder>(
    alloc: Global,
    folder: &F,
    again: &Again<'_>,
    task: &Task,
    known: &KnownTexts,
) -> Result<(), DiskFault>
    ensures { OnOk result (IsAlways (λ s. EachText (IsTextIn again.now.admin.now.name (seen s)) (work_nodes again.now.existing.now.copy task.now.work.items)) (F.past folder.now)) }
{
    let gone = task.gone(alloc)?;
    let files = task.replacing_files(alloc)?;
    let looking = Looking {
        alloc,
        existing: again.existing,
        known,
        gone: &gone,
        files: &files,
    };
    looking.refuse_all(folder, again.admin, &task.work)
}

// The databases that follow, of the same nodes.
fn databases_of(alloc: Global, existing: Existing, task: &Task) -> Result<Databases, DiskFault>
    ensures { IfOk result (λ databases. AreOfNodes existing.nodes.items databases) }
{
    let first = existing.database.clone()?;
    let mut images = existing.into_images();
    Databases::after(alloc, &mut images, task, first)
}

// Completes the copy that is there.
fn complete<F: Folder>(
    alloc: Global,
    folder: &mut F,
    existing: Existing,
    sync: bool,
) -> Result<(), DiskFault>
    ensures steps { Goes (is_doing (codes ".svn") is_outside) (F.past folder.old) result (F.past folder.new) }
    ensures queue { Goes (is_doing (codes ".svn") (is_queued existing.tables.work_queue.items)) (F.past folder.old) result (F.past folder.new) }
    ensures spares { GoesIn (Spares (texts_in existing.tables.pristine.items) (codes ".svn")) (F.past folder.old) result (F.past folder.new) }
    ensures ends { OnOk result (Turns (λ before left. IsCompleted existing.tables.work_queue.items existing.copy left) (F.past folder.old) (F.past folder.new)) }
    ensures crash { sync ≡ true → Runs (IsSafe (codes ".svn") existing.nodes.items) (IsWhole (codes ".svn") existing.nodes.items) (IsSafe (codes ".svn") existing.nodes.items) (F.past folder.old) result (F.past folder.new) }
{
    let task = task_of(alloc, &existing)?;
    let admin = Admin::of_copy(alloc)?;
    let known = KnownTexts::of(alloc, &existing.tables.pristine)?;
    let again = Again {
        alloc,
        admin: &admin,
        existing: &existing,
    };
    refuse_others(alloc, folder, &again, &task, &known)?;
    again.prepare_all(folder, task.makings(), sync)?;
    let databases = databases_of(alloc, existing, &task)?;
    let doing = Doing {
        alloc,
        admin: &admin,
        task: &task,
        known: &known,
        sync,
    };
    doing.carry_on(folder, databases)
}

// Completes the copy that is there, if work is left.
fn complete_if_busy<F: Folder>(
    alloc: Global,
    folder: &mut F,
    existing: Existing,
    sync: bool,
) -> Result<Resumed, DiskFault>
    ensures steps { Goes (is_doing (codes ".svn") is_outside) (F.past folder.old) result (F.past folder.new) }
    ensures queue { Goes (is_doing (codes ".svn") (is_queued existing.tables.work_queue.items)) (F.past folder.old) result (F.past folder.new) }
    ensures spares { GoesIn (Spares (texts_in existing.tables.pristine.items) (codes ".svn")) (F.past folder.old) result (F.past folder.new) }
    ensures ends { result ≡ Ok Completed → Turns (λ before left. IsCompleted existing.tables.work_queue.items existing.copy left) (F.past folder.old) (F.past folder.new) }
    ensures crash { sync ≡ true → Runs (IsSafe (codes ".svn") existing.nodes.items) (IsWhole (codes ".svn") existing.nodes.items) (IsSafe (codes ".svn") existing.nodes.items) (F.past folder.old) result (F.past folder.new) }
{
    if !existing.is_busy() {
        return Ok(Resumed::Nothing);
    }
    complete(alloc, folder, existing, sync)?;
    Ok(Resumed::Completed)
}

/// Completes a copy whose making was cut off, and returns what there was to do. Where there is no copy yet, what the checkout left is removed. With `sync`
/// everything is brought to the disk, each time before it counts.
///
/// Refused before anything is changed: NoCopy; InUse where a client is about to write, and Journal; Foreign where the work is a client's, or the database was
/// changed since, which `svn cleanup` is for; Repeated at the first path that two items of what comes are about; NoText where a pristine text isn't the one
/// that its stand-in names; InTheWay at the first path where something is that isn't the copy's. Then Changed where a file was edited since, InTheWay where
/// something came to be where a directory would be, InUse where a client has changed the database since, or is about to, Folder, Rows, Path and Memory: what is
/// left of the work waits. Overwritten where a client began to change the database when the next one took its place. It may be cut off, and done again: with
/// `sync` the copy that is on the disk stays there, whenever the program or the power stops.
pub fn resume<F: Folder>(alloc: Global, folder: &mut F, sync: bool) -> Result<Resumed, DiskFault>
    ensures steps { Goes (is_inside (codes ".svn-new")) (F.past folder.old) result (F.past folder.new) ⊎ Goes (is_doing (codes ".svn") is_outside) (F.past folder.old) result (F.past folder.new) }
    ensures queue { (rows : AllRows) → IsAlways (HasDatabaseRows rows) (F.past folder.old) → Goes (is_inside (codes ".svn-new")) (F.past folder.old) result (F.past folder.new) ⊎ Goes (is_doing (codes ".svn") (is_queued rows.work_queue)) (F.past folder.old) result (F.past folder.new) }
    ensures spares { (rows : AllRows) → IsAlways (HasDatabaseRows rows) (F.past folder.old) → Goes (is_inside (codes ".svn-new")) (F.past folder.old) result (F.past folder.new) ⊎ GoesIn (Spares (texts_in rows.pristine) (codes ".svn")) (F.past folder.old) result (F.past folder.new) }
    ensures ends { (rows : AllRows) (copy : List (Path × BaseNode)) → IsAlways (HasDatabaseRows rows) (F.past folder.old) → IsAlways (HasDatabase copy) (F.past folder.old) → result ≡ Ok Completed → Turns (λ before left. IsCompleted rows.work_queue copy left) (F.past folder.old) (F.past folder.new) }
    ensures crash { sync ≡ true → (copy : List (Path × BaseNode)) → LeavesFrom (IsKept copy) (IsThere copy) (F.past folder.old) (F.past folder.new) }
    ensures after { sync ≡ true → (copy : List (Path × BaseNode)) → OnOk result (AfterFrom (IsKept copy) (IsThere copy) (F.past folder.old) (F.past folder.new)) }
{
    match Existing::read(alloc, folder) {
        Ok(existing) => complete_if_busy(alloc, folder, existing, sync),
        Err(DiskFault::NoCopy) => {
            clear(alloc, folder, sync)?;
            Ok(Resumed::Cleared)
        }
        Err(fault) => Err(fault),
    }
}
