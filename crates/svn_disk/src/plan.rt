//! What differs between two working copies, and what is done on disk to get from one to the other.
ghost use Rattle.std.specs.Prelude.{◌≡◌, ◌++◌, [], true, false, map, is_some, IfOk, OnOk};
ghost use Rattle.std.specs.List.{flat_map};
ghost use Rattle.std.specs.List.Sorted.{IsStrictlySortedBy};
ghost use Rattle.std.specs.Map.{keys_of};
ghost use Rattle.svn_types.specs.Names.{Path, path_cmp};
ghost use Rattle.svn_model.specs.Nodes.{get_in, is_present, is_dir};
ghost use Rattle.svn_disk.specs.Changes.{comes, goes, making_directory, making_file, removing_directory, removing_file, makings_of, removals_of};
ghost use Rattle.svn_disk.specs.Changes.{is_on_disk, is_on_disk_at, IsPlanned, ArePlanned, StayPlanned};

use crate::above::note_above;
use crate::difference::change_of;
use crate::fault::DiskFault;
use std::alloc::Global;
use std::collections::{BTreeMap, BTreeSet};
use svn_folder::Folder;
use svn_types::RelPath;
use svn_wc::WorkingCopy;
use svn_wcrows::Work;

/// What becomes of a path.
#[derive(Clone, Copy, Debug, PartialEq, Eq)]
pub enum Change {
    /// A node comes where there was none.
    Added,
    /// The node goes.
    Removed,
    /// A file becomes a directory, or a directory a file.
    Replaced,
    /// A file has another text on disk, or is used in another way.
    Rewritten,
    /// What the copy keeps of the node changes, its properties, and nothing on disk.
    Recorded,
    /// Only where the node is from changes, its revision or its path in the repository, or whether all of a directory is there; or a note comes or goes that
    /// there is no node. Nothing of the node itself is touched, so no local change is in the way.
    Bumped,
    /// A node that isn't on disk is made again: a directory for what comes in it, or whatever it was asked for of.
    Restored,
}

impl Change {
    /// Whether something is removed.
    fn removes(self) -> bool
        ensures { result ≡ goes self }
    {
        matches!(self, Change::Removed | Change::Replaced)
    }

    /// Whether something is made.
    fn makes(self) -> bool
        ensures { result ≡ comes self }
    {
        matches!(
            self,
            Change::Added | Change::Replaced | Change::Rewritten | Change::Restored
        )
    }

    // Whether something changes on disk.
    fn is_on_disk(self) -> bool
        ensures { result ≡ is_on_disk self }
    {
        !matches!(self, Change::Recorded | Change::Bumped)
    }

    /// Whether something of the node itself changes, on disk or in what the copy keeps of it.
    pub(crate) fn touches(self) -> bool {
        !matches!(self, Change::Bumped)
    }
}

/// What becomes of a path, with the path.
#[derive(Debug, Drop)]
pub struct PathChange {
    /// The path in the copy.
    pub path: RelPath,
    /// What becomes of it.
    pub change: Change,
}

/// Two copies, and what becomes of each path at which they differ.
#[derive(Drop)]
pub(crate) struct Plan<'a> {
    /// The copy that is there.
    pub(crate) was: &'a WorkingCopy,
    /// The copy that is wanted.
    pub(crate) wanted: &'a WorkingCopy,
    /// What becomes of each path at which something does.
    pub(crate) changes: BTreeMap<RelPath, Change>,
}

impl<'a> Plan<'a> {
    /// What leads from one copy to the other.
    pub(crate) fn between(
        alloc: Global,
        old: &'a WorkingCopy,
        new: &'a WorkingCopy,
    ) -> Result<Plan<'a>, DiskFault>
        ensures copies { IfOk result (λ plan. (plan.was.now ≡ old.now) × (plan.wanted.now ≡ new.now)) }
        ensures each { IfOk result (λ plan. ArePlanned old.now new.now plan.changes.entries) }
    {
        let mut plan = Plan {
            was: old,
            wanted: new,
            changes: BTreeMap::new(alloc),
        };
        plan.note_all(old)?;
        plan.note_all(new)?;
        Ok(plan)
    }

    // Notes what becomes of a path.
    fn note(&mut self, path: &RelPath) -> Result<(), DiskFault>
        ensures copies { (self.new.was ≡ self.old.was) × (self.new.wanted ≡ self.old.wanted) }
        ensures planned { OnOk result (IsPlanned self.old.was.now self.old.wanted.now self.new.changes.entries path.now) }
        ensures stay { OnOk result (StayPlanned self.old.was.now self.old.wanted.now self.old.changes.entries self.new.changes.entries) }
    {
        let Some(change) = change_of(self.was.get(path), self.wanted.get(path)) else {
            return Ok(());
        };
        self.changes.insert(path.clone()?, change)?;
        Ok(())
    }

    // Notes what becomes of each path of a copy.
    fn note_all(&mut self, copy: &WorkingCopy) -> Result<(), DiskFault>
        ensures copies { (self.new.was ≡ self.old.was) × (self.new.wanted ≡ self.old.wanted) }
        ensures each { OnOk result ((p : Path) → is_some (get_in copy.now p) ≡ true → IsPlanned self.old.was.now self.old.wanted.now self.new.changes.entries p) }
        ensures stay { OnOk result (StayPlanned self.old.was.now self.old.wanted.now self.old.changes.entries self.new.changes.entries) }
    {
        for (path, _) in copy.iter() {
            self.note(path)?;
        }
        Ok(())
    }

    // The directories above what is made, without the root, each once.
    fn above_makings(&self, alloc: Global) -> Result<BTreeSet<RelPath>, DiskFault> {
        let mut above = BTreeSet::new(alloc);
        for (path, change) in &self.changes {
            if change.makes() {
                note_above(alloc, &mut above, path)?;
            }
        }
        Ok(above)
    }

    /// The directories above what changes on disk, without the root, each once.
    pub(crate) fn above_changes(&self, alloc: Global) -> Result<BTreeSet<RelPath>, DiskFault> {
        let mut above = BTreeSet::new(alloc);
        for (path, change) in &self.changes {
            if change.is_on_disk() {
                note_above(alloc, &mut above, path)?;
            }
        }
        Ok(above)
    }

    // Plans that something is made again.
    fn restore_at(&mut self, path: RelPath) -> Result<(), DiskFault>
        ensures copies { (self.new.was ≡ self.old.was) × (self.new.wanted ≡ self.old.wanted) }
        ensures stay { is_on_disk_at self.old.changes.entries path ≡ false → is_present (get_in self.old.wanted.now path) ≡ true → OnOk result (StayPlanned self.old.was.now self.old.wanted.now self.old.changes.entries self.new.changes.entries) }
    {
        self.changes.insert(path, Change::Restored)?;
        Ok(())
    }

    // Whether a node stays, and nothing on disk becomes of it so far.
    fn stays(&self, path: &RelPath) -> bool
        ensures { result ≡ true → (is_on_disk_at self.now.changes.entries path.now ≡ false) × (is_present (get_in self.now.wanted.now path.now) ≡ true) }
    {
        match self.wanted.get(path) {
            Some(node) => node.is_present() && !self.changes_on_disk(path),
            None => false,
        }
    }

    // Plans a directory that something comes in, and so stays, to be made again if nothing is there.
    fn restore_if_missing<F: Folder>(
        &mut self,
        alloc: Global,
        folder: &F,
        path: RelPath,
    ) -> Result<(), DiskFault>
        ensures copies { (self.new.was ≡ self.old.was) × (self.new.wanted ≡ self.old.wanted) }
        ensures stay { OnOk result (StayPlanned self.old.was.now self.old.wanted.now self.old.changes.entries self.new.changes.entries) }
    {
        if !self.stays(&path) {
            return Ok(());
        }
        if folder.look(alloc, &path)?.is_some() {
            return Ok(());
        }
        self.restore_at(path)
    }

    /// Plans the directories that aren't on disk, and that something comes in.
    pub(crate) fn restore<F: Folder>(&mut self, alloc: Global, folder: &F) -> Result<(), DiskFault>
        ensures copies { (self.new.was ≡ self.old.was) × (self.new.wanted ≡ self.old.wanted) }
        ensures stay { OnOk result (StayPlanned self.old.was.now self.old.wanted.now self.old.changes.entries self.new.changes.entries) }
    {
        for path in self.above_makings(alloc)? {
            self.restore_if_missing(alloc, folder, path)?;
        }
        Ok(())
    }

    // Plans a node that stays to be made again.
    fn restore_if_it_stays(&mut self, path: &RelPath) -> Result<(), DiskFault>
        ensures copies { (self.new.was ≡ self.old.was) × (self.new.wanted ≡ self.old.wanted) }
        ensures stay { OnOk result (StayPlanned self.old.was.now self.old.wanted.now self.old.changes.entries self.new.changes.entries) }
    {
        if !self.stays(path) {
            return Ok(());
        }
        self.restore_at(path.clone()?)
    }

    /// Plans those of these nodes that stay, since they aren't on disk.
    pub(crate) fn restore_nodes(&mut self, missing: &BTreeSet<RelPath>) -> Result<(), DiskFault>
        ensures copies { (self.new.was ≡ self.old.was) × (self.new.wanted ≡ self.old.wanted) }
        ensures stay { OnOk result (StayPlanned self.old.was.now self.old.wanted.now self.old.changes.entries self.new.changes.entries) }
    {
        for path in missing {
            self.restore_if_it_stays(path)?;
        }
        Ok(())
    }

    /// Whether nothing differs.
    pub(crate) fn is_empty(&self) -> bool
        ensures { result ≡ true → self.now.changes.entries ≡ [] }
    {
        self.changes.is_empty()
    }

    /// Whether something of the node at a path changes, on disk or in what the copy keeps of it.
    pub(crate) fn touches(&self, path: &RelPath) -> bool {
        match self.changes.get(path) {
            Some(change) => change.touches(),
            None => false,
        }
    }

    /// Whether something changes on disk at a path.
    pub(crate) fn changes_on_disk(&self, path: &RelPath) -> bool
        ensures { result ≡ is_on_disk_at self.now.changes.entries path.now }
    {
        match self.changes.get(path) {
            Some(change) => change.is_on_disk(),
            None => false,
        }
    }

    /// Whether what is at a path goes.
    pub(crate) fn removes(&self, path: &RelPath) -> bool {
        match self.changes.get(path) {
            Some(change) => change.removes(),
            None => false,
        }
    }

    // Adds the directory at a path to what goes, if it does.
    fn push_removing_directory(
        &self,
        work: &mut Vec<Work>,
        path: &RelPath,
        change: Change,
    ) -> Result<(), DiskFault>
        ensures { OnOk result (work.new.items ≡ work.old.items ++ removing_directory self.now.was.now (path.now, change)) }
    {
        if change.removes() && is_directory(self.was, path) {
            work.push(Work::RemoveDirectory(path.clone()?))?;
        }
        Ok(())
    }

    // The directories that go.
    fn directories_that_go(&self, alloc: Global) -> Result<Vec<Work>, DiskFault>
        ensures { IfOk result (λ work. work.items ≡ flat_map (removing_directory self.now.was.now) self.now.changes.entries) }
    {
        let mut work = Vec::new(alloc);
        for (path, change) in &self.changes {
            self.push_removing_directory(&mut work, path, *change)?;
        }
        Ok(work)
    }

    // Adds the file at a path to what goes, if it does.
    fn push_removing_file(
        &self,
        work: &mut Vec<Work>,
        path: &RelPath,
        change: Change,
    ) -> Result<(), DiskFault>
        ensures { OnOk result (work.new.items ≡ work.old.items ++ removing_file self.now.was.now (path.now, change)) }
    {
        if change.removes() && !is_directory(self.was, path) {
            work.push(Work::RemoveFile(path.clone()?))?;
        }
        Ok(())
    }

    // The files that go.
    fn files_that_go(&self, alloc: Global) -> Result<Vec<Work>, DiskFault>
        ensures { IfOk result (λ work. work.items ≡ flat_map (removing_file self.now.was.now) self.now.changes.entries) }
    {
        let mut work = Vec::new(alloc);
        for (path, change) in &self.changes {
            self.push_removing_file(&mut work, path, *change)?;
        }
        Ok(work)
    }

    /// The files that go, and then the directories, from below.
    pub(crate) fn removals(&self, alloc: Global) -> Result<Vec<Work>, DiskFault>
        ensures { IfOk result (λ work. work.items ≡ removals_of self.now.was.now self.now.changes.entries) }
    {
        let mut work = self.files_that_go(alloc)?;
        let mut directories = self.directories_that_go(alloc)?;
        directories.reverse();
        work.append(&mut directories)?;
        Ok(work)
    }

    // Adds the directory at a path to what comes, if it does.
    fn push_making_directory(
        &self,
        work: &mut Vec<Work>,
        path: &RelPath,
        change: Change,
    ) -> Result<(), DiskFault>
        ensures { OnOk result (work.new.items ≡ work.old.items ++ making_directory self.now.wanted.now (path.now, change)) }
    {
        if change.makes() && is_directory(self.wanted, path) {
            work.push(Work::MakeDirectory(path.clone()?))?;
        }
        Ok(())
    }

    // The directories that come.
    fn directories_that_come(&self, alloc: Global) -> Result<Vec<Work>, DiskFault>
        ensures { IfOk result (λ work. work.items ≡ flat_map (making_directory self.now.wanted.now) self.now.changes.entries) }
    {
        let mut work = Vec::new(alloc);
        for (path, change) in &self.changes {
            self.push_making_directory(&mut work, path, *change)?;
        }
        Ok(work)
    }

    // Adds the file at a path to what comes, if it does.
    fn push_making_file(
        &self,
        work: &mut Vec<Work>,
        path: &RelPath,
        change: Change,
    ) -> Result<(), DiskFault>
        ensures { OnOk result (work.new.items ≡ work.old.items ++ making_file self.now.wanted.now (path.now, change)) }
    {
        if change.makes() && !is_directory(self.wanted, path) {
            work.push(Work::InstallFile(path.clone()?))?;
        }
        Ok(())
    }

    // The files that come, or become others.
    fn files_that_come(&self, alloc: Global) -> Result<Vec<Work>, DiskFault>
        ensures { IfOk result (λ work. work.items ≡ flat_map (making_file self.now.wanted.now) self.now.changes.entries) }
    {
        let mut work = Vec::new(alloc);
        for (path, change) in &self.changes {
            self.push_making_file(&mut work, path, *change)?;
        }
        Ok(work)
    }

    /// The directories that come, from above, and then the files that come or become others.
    pub(crate) fn makings(&self, alloc: Global) -> Result<Vec<Work>, DiskFault>
        ensures { IfOk result (λ work. work.items ≡ makings_of self.now.wanted.now self.now.changes.entries) }
    {
        let mut work = self.directories_that_come(alloc)?;
        let mut files = self.files_that_come(alloc)?;
        work.append(&mut files)?;
        Ok(work)
    }

    /// What becomes of each path, in path order.
    pub(crate) fn into_changes(self, alloc: Global) -> Result<Vec<PathChange>, DiskFault>
        ensures list { IfOk result (λ list. map (λ change. (change.path, change.change)) list.items ≡ self.entry.changes.entries) }
        ensures order { OnOk result (IsStrictlySortedBy path_cmp (keys_of self.entry.changes.entries)) }
    {
        let Plan { changes, .. } = self;
        let mut list = Vec::new(alloc);
        for (path, change) in changes {
            list.push(PathChange { path, change })?;
        }
        Ok(list)
    }
}

// Whether a copy has a directory at a path.
fn is_directory(copy: &WorkingCopy, path: &RelPath) -> bool
    ensures { result ≡ is_dir (get_in copy.now path.now) }
{
    match copy.get(path) {
        Some(node) => node.is_directory(),
        None => false,
    }
}
