//! A working copy that is on disk, brought to another state: the old copy until one rename, and from then on the new one.
ghost use Rattle.std.specs.Prelude.{◌≡◌, ◌||◌, ◌++◌, ◌<◌, ◌^◌, ℕ, List, true, false, length, codes, Some, IfOk, OnOk, ⊤};
ghost use Rattle.std.specs.List.{list_all};
ghost use Rattle.svn_types.specs.Names.{Path};
ghost use Rattle.svn_model.specs.declared.base_node.BaseNode.{BaseNode};
ghost use Rattle.svn_wcrows.specs.declared.work.Work.{Work as WorkItem};
ghost use Rattle.svn_wcrows.specs.Copies.{StandsFor};
ghost use Rattle.svn_folder.specs.Files.{is_sync};
ghost use Rattle.svn_folder.specs.States.{seen};
ghost use Rattle.svn_disk.specs.Goes.{Goes, IsAlways};
ghost use Rattle.svn_disk.specs.Places.{database_place, is_inside, is_either, is_of_change};
ghost use Rattle.svn_disk.specs.Plans.{path_of, text_of_node};
ghost use Rattle.svn_disk.specs.Crashes.{HasBytes, IsTextIn, OfText, EachText, IsWhole, AreNodesOf, IsTextAt, IsThere, IsOldOrNew, IsSafe, IsKept, IsBoth, IsOneOf, IsAdding, LeavesFrom, AfterFrom, Runs};
ghost use Rattle.svn_disk.specs.Spared.{GoesIn, Spares, texts_of, texts_of_either};
ghost use Rattle.svn_disk.specs.Finding.{has_word};
ghost use Rattle.svn_disk.specs.Tasks.{makings_in, removals_in, work_nodes, IsParted};
ghost use Rattle.svn_disk.specs.Changes.{removals_of, makings_of, AreChanged, ArePlanned, HasEachChange};
ghost use Rattle.svn_disk.specs.Ends.{Turns, AreDistinct, AreFiles, AreNoted, EachNoted, is_noted, AreCopied, AreReady, EachDone};

use crate::carry::{make_database, put_database};
use crate::checkout::refuse_reserved;
use crate::doing::{Databases, Doing};
use crate::existing::Existing;
use crate::fault::DiskFault;
use crate::known::KnownTexts;
use crate::layout::{Admin, is_outside};
use crate::node_file::file_of;
use crate::plan::{PathChange, Plan};
use crate::preparing::Ready;
use crate::refusals::refuse;
use crate::repeated::refuse_repeated;
use crate::rows::Sizes;
use crate::settle::settle;
use crate::source::Source;
use crate::task::Task;
use crate::texts::has_text;
use crate::wanted::Wanted;
use std::alloc::Global;
use svn_folder::{DatabaseLock, Folder, SyncedFolder};
use svn_model::BaseNode;
use svn_types::{RelPath, Text};
use svn_wcrows::Work;

/// What is brought where.
#[derive(Clone, Copy)]
pub(crate) struct Bringing<'a> {
    pub(crate) alloc: Global,
    pub(crate) admin: &'a Admin,
    /// The copy that is on disk.
    pub(crate) existing: &'a Existing,
    /// What it is brought to.
    pub(crate) wanted: &'a Wanted,
    // What becomes of each path.
    plan: &'a Plan<'a>,
    // Whether everything is brought to the disk before it counts.
    sync: bool,
}

impl Bringing<'_> {
    // Refuses a copy that was changed since it was looked at: the last look before the new one takes its place. The database comes last, and clients are kept
    // from it until the lock is dropped; but where it was changed, that is what is said.
    fn look_again<F: Folder>(&self, folder: &F) -> Result<DatabaseLock, DiskFault>
        ensures { OnOk result (IsAlways (λ s. HasBytes self.now.existing.now.database (seen s (database_place (codes ".svn")))) (F.past folder.now)) }
    {
        match refuse(self.alloc, folder, self.existing, self.plan) {
            Ok(()) => self.existing.lock_unchanged(self.alloc, folder),
            Err(fault) => {
                self.existing.lock_unchanged(self.alloc, folder)?;
                Err(fault)
            }
        }
    }

    // Whether the old copy has this text at the path of a file that isn't written anew.
    fn is_kept(&self, sizes: &Sizes, path: &RelPath, name: &Text) -> bool
        ensures text { result ≡ true → IsTextAt self.now.existing.now.copy path.now name.now }
        ensures noted { result ≡ true → is_noted sizes.now.entries path.now ≡ false }
    {
        match self.existing.copy.get(path) {
            Some(old) => is_file_of(old, name) && !sizes.contains_key(path),
            None => false,
        }
    }

    // Refuses a file whose text isn't under its name. Of one that the old copy has there that is supposed.
    fn refuse_no_text<F: Folder>(
        &self,
        folder: &F,
        sizes: &Sizes,
        entry: (&RelPath, &BaseNode),
    ) -> Result<(), DiskFault>
        ensures texts { OnOk result ((old : List (Path × BaseNode)) → AreNodesOf self.now.existing.now.copy old → IsAlways (λ s. EachText (IsTextIn self.now.admin.now.name (seen s)) old → OfText (IsTextIn self.now.admin.now.name (seen s)) entry.entry.1.now) (F.past folder.now)) }
        ensures coming { OnOk result (is_noted sizes.now.entries entry.entry.0.now ≡ true → IsAlways (λ s. OfText (IsTextIn self.now.admin.now.name (seen s)) entry.entry.1.now) (F.past folder.now)) }
    {
        let (path, node) = entry;
        let Some((name, _)) = file_of(node) else {
            return Ok(());
        };
        if self.is_kept(sizes, path, name) {
            return Ok(());
        }
        if has_text(self.alloc, folder, self.admin, name)? {
            Ok(())
        } else {
            Err(DiskFault::NoText(path.clone()?))
        }
    }

    // Does so for all files of the new copy.
    fn read_texts<F: Folder>(
        &self,
        folder: &F,
        sizes: &Sizes,
        nodes: &[(RelPath, BaseNode)],
    ) -> Result<(), DiskFault>
        ensures texts { OnOk result ((old : List (Path × BaseNode)) → AreNodesOf self.now.existing.now.copy old → IsAlways (λ s. EachText (IsTextIn self.now.admin.now.name (seen s)) old → EachText (IsTextIn self.now.admin.now.name (seen s)) nodes.now) (F.past folder.now)) }
        ensures coming { OnOk result (IsAlways (λ s. EachNoted sizes.now.entries (IsTextIn self.now.admin.now.name (seen s)) nodes.now) (F.past folder.now)) }
    {
        let mut rest = nodes;
        'nodes: while let Some((first, after)) = rest.split_first() {
            self.refuse_no_text(folder, sizes, (&first.0, &first.1))?;
            rest = after;
        }
        Ok(())
    }

    // Brings all that was prepared to the disk, and reads the texts.
    fn settle_all<F: Folder>(
        &self,
        folder: &mut SyncedFolder<F>,
        sizes: &Sizes,
        nodes: &[(RelPath, BaseNode)],
    ) -> Result<(), DiskFault>
        requires { self.now.admin.now.name ≡ codes ".svn" }
        ensures steps { Goes is_sync (F.past folder.old.folder) result (F.past folder.new.folder) }
        ensures coming { OnOk result (IsAlways (λ s. EachNoted sizes.now.entries (IsTextIn (codes ".svn") (seen s)) nodes.now) (F.past folder.new.folder)) }
        ensures crash { self.now.sync ≡ true → (old : List (Path × BaseNode)) → AreNodesOf self.now.existing.now.copy old → Runs (IsSafe (codes ".svn") old) (IsWhole (codes ".svn") old) (IsBoth old nodes.now) (F.past folder.old.folder) result (F.past folder.new.folder) }
    {
        settle(self.alloc, folder, self.sync)?;
        self.read_texts(folder, sizes, nodes)
    }

    // Puts a database of the new copy in place of the old one, once all is on the disk and was looked at again.
    fn put<F: Folder>(
        &self,
        folder: &mut SyncedFolder<F>,
        ready: &Ready,
        image: Vec<u8>,
    ) -> Result<(), DiskFault>
        requires name { self.now.admin.now.name ≡ codes ".svn" }
        requires image { StandsFor ready.now.images.nodes.items image.items }
        ensures steps { Goes (is_inside (codes ".svn")) (F.past folder.old.folder) result (F.past folder.new.folder) }
        ensures ends { (copy : List (Path × BaseNode)) (work : List WorkItem) → length work < 2 ^ 64 → AreNodesOf copy ready.now.images.nodes.items → AreNoted ready.now.sizes.entries work → OnOk result (Turns (λ before left. AreCopied (codes ".svn") 0 (work_nodes copy work) before → AreReady (codes ".svn") 0 (work_nodes copy work) left) (F.past folder.old.folder) (F.past folder.new.folder)) }
        ensures crash { self.now.sync ≡ true → (old : List (Path × BaseNode)) → AreNodesOf self.now.existing.now.copy old → Runs (IsSafe (codes ".svn") old) (IsOneOf old ready.now.images.nodes.items) (IsSafe (codes ".svn") ready.now.images.nodes.items) (F.past folder.old.folder) result (F.past folder.new.folder) }
    {
        self.settle_all(folder, &ready.sizes, &ready.images.nodes)?;
        make_database(self.alloc, folder, self.admin, image, self.sync)?;
        let _lock = self.look_again(folder)?;
        put_database(self.alloc, folder, self.admin, self.sync)
    }

    // Puts the new copy in place of the old one, where nothing else changes on disk.
    fn record<F: Folder>(
        &self,
        folder: &mut SyncedFolder<F>,
        mut ready: Ready,
    ) -> Result<(), DiskFault>
        requires { self.now.admin.now.name ≡ codes ".svn" }
        ensures steps { Goes (is_inside (codes ".svn")) (F.past folder.old.folder) result (F.past folder.new.folder) }
        ensures ends { (copy : List (Path × BaseNode)) → AreNodesOf copy ready.images.nodes.items → OnOk result (Turns (λ before left. ⊤) (F.past folder.old.folder) (F.past folder.new.folder)) }
        ensures crash { self.now.sync ≡ true → (old : List (Path × BaseNode)) → AreNodesOf self.now.existing.now.copy old → Runs (IsSafe (codes ".svn") old) (IsOneOf old ready.images.nodes.items) (IsSafe (codes ".svn") ready.images.nodes.items) (F.past folder.old.folder) result (F.past folder.new.folder) }
    {
        let end = ready.images.next(self.alloc, &[])?;
        self.put(folder, &ready, end)
    }

    // Adds the text of a file that comes.
    #[tactic(auto, using(crate::proofs::KnownWords::or_last))]
    fn add_coming(&self, known: &mut KnownTexts, item: &Work) -> Result<(), DiskFault>
        ensures { OnOk result ((t : List ℕ) → has_word known.new t ≡ true → (texts_of self.now.wanted.now.copy t || has_word known.old t) ≡ true) }
    {
        let Work::InstallFile(path) = item else {
            return Ok(());
        };
        let Some(node) = self.wanted.copy.get(path) else {
            return Ok(());
        };
        match file_of(node) {
            Some((text, _)) => known.add(text.as_slice()),
            None => Ok(()),
        }
    }

    // The texts that the new copy's database has rows of: those that the old copy keeps, and those of the files that come.
    fn known(&self, task: &Task) -> Result<KnownTexts, DiskFault>
        ensures { IfOk result (λ known. (t : List ℕ) → has_word known t ≡ true → texts_of_either self.now.existing.now.tables.pristine.items self.now.wanted.now.copy t ≡ true) }
    {
        let mut known = KnownTexts::of(self.alloc, &self.existing.tables.pristine)?;
        for item in task.makings() {
            self.add_coming(&mut known, item)?;
        }
        Ok(known)
    }

    // Puts the new copy in place of the old one, and does the work that is left.
    fn change<F: Folder>(
        &self,
        folder: &mut SyncedFolder<F>,
        mut ready: Ready,
        task: &Task,
    ) -> Result<(), DiskFault>
        requires name { self.now.admin.now.name ≡ codes ".svn" }
        requires task { list_all (λ item. is_either self.now.existing.now.copy self.now.wanted.now.copy (path_of item)) task.now.work.items ≡ true }
        ensures steps { Goes (is_of_change self.now.existing.now.copy self.now.wanted.now.copy) (F.past folder.old.folder) result (F.past folder.new.folder) }
        ensures spares { GoesIn (Spares (texts_of_either self.now.existing.now.tables.pristine.items self.now.wanted.now.copy) (codes ".svn")) (F.past folder.old.folder) result (F.past folder.new.folder) }
        ensures ends { IsParted task.now → AreDistinct (makings_in task.now) → AreNodesOf self.now.wanted.now.copy ready.images.nodes.items → AreFiles self.now.wanted.now.copy (makings_in task.now) → AreNoted ready.sizes.entries (makings_in task.now) → OnOk result (Turns (λ before left. AreCopied (codes ".svn") 0 (work_nodes self.now.wanted.now.copy (makings_in task.now)) before → EachDone self.now.wanted.now.copy task.now.work.items task.now.work.items left) (F.past folder.old.folder) (F.past folder.new.folder)) }
        ensures crash { self.now.sync ≡ true → (old : List (Path × BaseNode)) → AreNodesOf self.now.existing.now.copy old → Runs (IsSafe (codes ".svn") old) (IsOneOf old ready.images.nodes.items) (IsSafe (codes ".svn") ready.images.nodes.items) (F.past folder.old.folder) result (F.past folder.new.folder) }
    {
        // a list has fewer items than a number counts
        let _count = task.work.len();
        let known = self.known(task)?;
        let image = ready.images.next(self.alloc, &task.work)?;
        let first = Text::from_slice(self.alloc, &image)?;
        let databases = Databases::after(self.alloc, &mut ready.images, task, first)?;
        self.put(folder, &ready, image)?;
        let doing = Doing {
            alloc: self.alloc,
            admin: self.admin,
            task,
            known: &known,
            sync: self.sync,
        };
        doing.carry_on(folder, databases)
    }

    // Whether some work is at a path of one of the copies, and not in the administrative folder.
    fn is_of_either(&self, path: &RelPath) -> bool
        ensures { result ≡ is_either self.now.existing.now.copy self.now.wanted.now.copy path.now }
    {
        is_outside(path)
            && (self.existing.copy.get(path).is_some() || self.wanted.copy.get(path).is_some())
    }

    // Refuses work that is somewhere else: a fault of this crate.
    fn refuse_elsewhere(&self, work: &[Work]) -> Result<(), DiskFault>
        ensures { OnOk result (list_all (λ item. is_either self.now.existing.now.copy self.now.wanted.now.copy (path_of item)) work.now ≡ true) }
    {
        let mut rest = work;
        'work: while let Some((item, after)) = rest.split_first() {
            if !self.is_of_either(item.path()) {
                return Err(DiskFault::Elsewhere(item.path().clone()?));
            }
            rest = after;
        }
        Ok(())
    }

    // What is left to do on disk.
    fn task(&self) -> Result<Task, DiskFault>
        ensures either { IfOk result (λ task. list_all (λ item. is_either self.now.existing.now.copy self.now.wanted.now.copy (path_of item)) task.work.items ≡ true) }
        ensures parted { IfOk result IsParted }
        ensures distinct { IfOk result (λ task. AreDistinct (makings_in task)) }
        ensures removals { IfOk result (λ task. removals_in task ≡ removals_of self.now.plan.now.was.now self.now.plan.now.changes.entries) }
        ensures makings { IfOk result (λ task. makings_in task ≡ makings_of self.now.plan.now.wanted.now self.now.plan.now.changes.entries) }
    {
        let task = Task::of_plan(self.alloc, self.plan)?;
        self.refuse_elsewhere(&task.work)?;
        refuse_repeated(self.alloc, task.makings())?;
        Ok(task)
    }

    // Puts the new copy in place of the old one.
    fn finish<F: Folder>(
        &self,
        folder: &mut SyncedFolder<F>,
        ready: Ready,
        task: &Task,
    ) -> Result<(), DiskFault>
        requires name { self.now.admin.now.name ≡ codes ".svn" }
        requires task { list_all (λ item. is_either self.now.existing.now.copy self.now.wanted.now.copy (path_of item)) task.now.work.items ≡ true }
        ensures steps { Goes (is_of_change self.now.existing.now.copy self.now.wanted.now.copy) (F.past folder.old.folder) result (F.past folder.new.folder) }
        ensures spares { GoesIn (Spares (texts_of_either self.now.existing.now.tables.pristine.items self.now.wanted.now.copy) (codes ".svn")) (F.past folder.old.folder) result (F.past folder.new.folder) }
        ensures ends { IsParted task.now → AreDistinct (makings_in task.now) → AreNodesOf self.now.wanted.now.copy ready.images.nodes.items → AreFiles self.now.wanted.now.copy (makings_in task.now) → AreNoted ready.sizes.entries (makings_in task.now) → OnOk result (Turns (λ before left. AreCopied (codes ".svn") 0 (work_nodes self.now.wanted.now.copy (makings_in task.now)) before → EachDone self.now.wanted.now.copy task.now.work.items task.now.work.items left) (F.past folder.old.folder) (F.past folder.new.folder)) }
        ensures crash { self.now.sync ≡ true → (old : List (Path × BaseNode)) → AreNodesOf self.now.existing.now.copy old → Runs (IsSafe (codes ".svn") old) (IsOneOf old ready.images.nodes.items) (IsSafe (codes ".svn") ready.images.nodes.items) (F.past folder.old.folder) result (F.past folder.new.folder) }
    {
        if task.is_empty() {
            self.record(folder, ready)
        } else {
            self.change(folder, ready, task)
        }
    }

    // Brings the copy to the other state.
    fn bring<F: Folder, S: Source>(
        &self,
        folder: &mut SyncedFolder<F>,
        source: &mut S,
    ) -> Result<(), DiskFault>
        requires { self.now.admin.now.name ≡ codes ".svn" }
        ensures steps { Goes (is_of_change self.now.existing.now.copy self.now.wanted.now.copy) (F.past folder.old.folder) result (F.past folder.new.folder) }
        ensures spares { GoesIn (Spares (texts_of_either self.now.existing.now.tables.pristine.items self.now.wanted.now.copy) (codes ".svn")) (F.past folder.old.folder) result (F.past folder.new.folder) }
        ensures ends { OnOk result (Turns (λ before left. EachDone self.now.wanted.now.copy (removals_of self.now.plan.now.was.now self.now.plan.now.changes.entries ++ makings_of self.now.plan.now.wanted.now self.now.plan.now.changes.entries) (removals_of self.now.plan.now.was.now self.now.plan.now.changes.entries ++ makings_of self.now.plan.now.wanted.now self.now.plan.now.changes.entries) left) (F.past folder.old.folder) (F.past folder.new.folder)) }
        ensures crash { self.now.sync ≡ true → Runs (IsKept self.now.existing.now.copy) (IsOldOrNew self.now.existing.now.copy self.now.wanted.now.copy) (IsKept self.now.wanted.now.copy) (F.past folder.old.folder) result (F.past folder.new.folder) }
    {
        let task = self.task()?;
        let ready = self.prepare_all(folder, source, &task)?;
        self.finish(folder, ready, &task)
    }
}

// Whether it is a file with this text.
fn is_file_of(node: &BaseNode, name: &Text) -> bool
    ensures { result ≡ true → text_of_node node.now ≡ Some name.now }
{
    match file_of(node) {
        Some((text, _)) => text == name,
        None => false,
    }
}

// What there is to do, if nothing is in its way.
fn plan_of<'a, F: Folder>(
    alloc: Global,
    folder: &F,
    existing: &'a Existing,
    wanted: &'a Wanted,
) -> Result<Plan<'a>, DiskFault>
    ensures copies { IfOk result (λ plan. (plan.was.now ≡ existing.now.copy) × (plan.wanted.now ≡ wanted.now.copy)) }
    ensures each { IfOk result (λ plan. ArePlanned existing.now.copy wanted.now.copy plan.changes.entries) }
{
    refuse_reserved(&existing.copy)?;
    refuse_reserved(&wanted.copy)?;
    let mut plan = Plan::between(alloc, &existing.copy, &wanted.copy)?;
    plan.restore_nodes(&wanted.restored)?;
    plan.restore(alloc, folder)?;
    refuse(alloc, folder, existing, &plan)?;
    Ok(plan)
}

/// What [`bring`] would do: the paths that would change, in path order. It refuses what `bring` refuses before it changes anything, and changes nothing.
pub fn changes<F: Folder>(
    alloc: Global,
    folder: &F,
    existing: &Existing,
    wanted: &Wanted,
) -> Result<Vec<PathChange>, DiskFault>
    ensures { IfOk result (λ changes. HasEachChange existing.now.copy wanted.now.copy changes.items) }
{
    let plan = plan_of(alloc, folder, existing, wanted)?;
    plan.into_changes(alloc)
}

/// Brings a copy that is on disk, and in which no work is left, to another state, and returns the paths that changed, in path order; none where nothing
/// differs, and then nothing is touched. With `sync` everything is brought to the disk, each time before it counts: a crash leaves the old copy or the new
/// one, and one after it the new one, if the old one was on the disk with each of its texts.
///
/// Refused before anything is changed: Reserved at the first node named `.svn` of the old copy, or else of the new one; Local, NoDirectory, Changed and
/// InTheWay at the first path where something is in the way. Then NoText at the first file whose text isn't given, Folder, Rows, Path and Memory, and
/// InUse, or what is refused before, where something was changed since it was looked at: the copy is the old one. Once the new database has its name,
/// Changed where a file was edited since, InTheWay where something came to be where a directory would be, InUse where a client has changed the new database, or
/// is about to, and Folder: the copy is the new one, with work left that [`resume`](crate::resume) and `svn cleanup` do. So it is with Overwritten, where a
/// client began to change a database when the next one took its place; but if that was the last one no work is left.
pub fn bring<F: Folder, S: Source>(
    alloc: Global,
    folder: &mut SyncedFolder<F>,
    source: &mut S,
    existing: &Existing,
    wanted: &Wanted,
    sync: bool,
) -> Result<Vec<PathChange>, DiskFault>
    ensures steps { Goes (is_of_change existing.now.copy wanted.now.copy) (F.past folder.old.folder) result (F.past folder.new.folder) }
    ensures spares { GoesIn (Spares (texts_of_either existing.now.tables.pristine.items wanted.now.copy) (codes ".svn")) (F.past folder.old.folder) result (F.past folder.new.folder) }
    ensures crash { sync ≡ true → LeavesFrom (IsKept existing.now.copy) (IsOldOrNew existing.now.copy wanted.now.copy) (F.past folder.old.folder) (F.past folder.new.folder) }
    ensures after { sync ≡ true → OnOk result (AfterFrom (IsKept existing.now.copy) (IsThere wanted.now.copy) (F.past folder.old.folder) (F.past folder.new.folder)) }
    ensures each { IfOk result (λ changes. HasEachChange existing.now.copy wanted.now.copy changes.items) }
    ensures ends { IfOk result (λ changes. Turns (λ before left. AreChanged existing.now.copy wanted.now.copy changes.items left) (F.past folder.old.folder) (F.past folder.new.folder)) }
{
    let plan = plan_of(alloc, folder, existing, wanted)?;
    bring_by(alloc, folder, source, (existing, wanted, &plan), sync)?;
    plan.into_changes(alloc)
}

// Brings it there, if something differs.
fn bring_by<F: Folder, S: Source>(
    alloc: Global,
    folder: &mut SyncedFolder<F>,
    source: &mut S,
    what: (&Existing, &Wanted, &Plan<'_>),
    sync: bool,
) -> Result<(), DiskFault>
    ensures steps { Goes (is_of_change what.entry.0.now.copy what.entry.1.now.copy) (F.past folder.old.folder) result (F.past folder.new.folder) }
    ensures spares { GoesIn (Spares (texts_of_either what.entry.0.now.tables.pristine.items what.entry.1.now.copy) (codes ".svn")) (F.past folder.old.folder) result (F.past folder.new.folder) }
    ensures ends { what.entry.2.now.wanted.now ≡ what.entry.1.now.copy → OnOk result (Turns (λ before left. EachDone what.entry.1.now.copy (removals_of what.entry.2.now.was.now what.entry.2.now.changes.entries ++ makings_of what.entry.2.now.wanted.now what.entry.2.now.changes.entries) (removals_of what.entry.2.now.was.now what.entry.2.now.changes.entries ++ makings_of what.entry.2.now.wanted.now what.entry.2.now.changes.entries) left) (F.past folder.old.folder) (F.past folder.new.folder)) }
    ensures crash { sync ≡ true → Runs (IsKept what.entry.0.now.copy) (IsOldOrNew what.entry.0.now.copy what.entry.1.now.copy) (IsKept what.entry.1.now.copy) (F.past folder.old.folder) result (F.past folder.new.folder) }
{
    let (existing, wanted, plan) = what;
    if existing.copy.nodes() == wanted.copy.nodes() && plan.is_empty() {
        return Ok(());
    }
    let admin = Admin::of_copy(alloc)?;
    let bringing = Bringing {
        alloc,
        admin: &admin,
        existing,
        wanted,
        plan,
        sync,
    };
    bringing.bring(folder, source)
}
