//! A folder in memory.
ghost use Rattle.std.specs.Prelude.{◌≡◌, ◌↔◌, ◌∷◌, [], true, drop, IfOk, OnOk, IsTrue};
ghost use Rattle.svn_types.specs.Paths.{parent};
ghost use Rattle.svn_folder.specs.Entries.{has_file, has_leaf, has_directory};
ghost use Rattle.svn_folder.specs.States.{State, seen, empty, nothing, fresh};
ghost use Rattle.svn_folder.specs.Steps.{put, run, fits, new_name, IsFree, IsEmpty};
ghost use Rattle.svn_folder.specs.Memory.{origin_in, IsOrigin, IsFreeUnder, AddsName, AreNamesIn, Decides, IsPlace, steps_of, state_of};
ghost use Rattle.svn_folder.specs.Pasts.{Known, Takes, IsRefused};
ghost use Rattle.svn_folder.specs.Syncing.{IsSyncedPast};

use crate::entry::Entry;
use crate::fault::{FolderFault, Misfit};
use crate::folder::Folder;
use crate::held::Left;
use crate::left::left_at;
use crate::listing::{add_name, in_order};
use crate::step::Step;
use crate::summary::Summary;
use std::alloc::Global;
use std::collections::BTreeSet;
use std::io;
use std::io::ErrorKind;
use svn_types::{Name, PathFault, RelPath};

/// Where what is at a path after a step was before it.
#[derive(Drop)]
pub(crate) enum Origin {
    /// The step made it, or removed what was there.
    Made(Option<Entry>),
    /// It was at this path.
    At(RelPath),
}

// The path of a name in the folder itself.
fn top(alloc: Global, name: &Name) -> Result<RelPath, PathFault>
    ensures { IfOk result (λ p. p ≡ name.now ∷ []) }
{
    RelPath::root(alloc).join(alloc, name)
}

// The path with another first name.
pub(crate) fn under(alloc: Global, name: &Name, path: &RelPath) -> Result<RelPath, PathFault>
    ensures { IfOk result (λ p. p ≡ name.now ∷ drop 1 path.now) }
{
    let top = top(alloc, name)?;
    let rest = path.tail(alloc, 1)?;
    top.join_path(alloc, &rest)
}

// What is at a path once a file has another path.
fn renamed(from: &RelPath, to: &RelPath, path: &RelPath) -> Result<Origin, PathFault>
    ensures { IfOk result (IsOrigin (Step.Rename from.now to.now) path.now) }
{
    if to == path {
        return Ok(Origin::At(from.clone()?));
    }
    if from == path {
        return Ok(Origin::Made(None));
    }
    Ok(Origin::At(path.clone()?))
}

// What is at a path once a directory has another name.
fn renamed_directory(
    alloc: Global,
    from: &Name,
    to: &Name,
    path: &RelPath,
) -> Result<Origin, PathFault>
    ensures { IfOk result (IsOrigin (Step.RenameDirectory from.now to.now) path.now) }
{
    let Some(first) = path.components().first() else {
        return Ok(Origin::At(path.clone()?));
    };
    if from == first {
        return Ok(Origin::Made(None));
    }
    if to == first {
        return Ok(Origin::At(under(alloc, from, path)?));
    }
    Ok(Origin::At(path.clone()?))
}

// What is at a path once an entry was made.
fn made(made: &RelPath, entry: &Entry, path: &RelPath) -> Result<Origin, PathFault>
    ensures { IfOk result (λ o. (s : State) → seen (put made.now (fresh entry.now) s) path.now ≡ origin_in o s) }
{
    if made == path {
        return Ok(Origin::Made(Some(entry.clone()?)));
    }
    Ok(Origin::At(path.clone()?))
}

// What is at a path once nothing is at one.
fn removed(removed: &RelPath, path: &RelPath) -> Result<Origin, PathFault>
    ensures { IfOk result (λ o. (s : State) → seen (put removed.now nothing s) path.now ≡ origin_in o s) }
{
    if removed == path {
        return Ok(Origin::Made(None));
    }
    Ok(Origin::At(path.clone()?))
}

// Where what is at a path after a step was before it.
fn origin_of(alloc: Global, step: &Step, path: &RelPath) -> Result<Origin, PathFault>
    ensures { IfOk result (IsOrigin step.now path.now) }
{
    match step {
        Step::Make {
            path: at,
            entry,
            ..
        } => made(at, entry, path),
        Step::SyncFile(_) | Step::SyncDirectory(_) => Ok(Origin::At(path.clone()?)),
        Step::Rename { from, to } => renamed(from, to, path),
        Step::RenameDirectory { from, to } => renamed_directory(alloc, from, to, path),
        Step::RemoveFile(at) | Step::RemoveDirectory(at) => removed(at, path),
    }
}

// What is at a path after these steps, beginning with nothing.
fn entry_at(alloc: Global, steps: &[Step], path: &RelPath) -> Result<Option<Entry>, PathFault>
    ensures { IfOk result (λ e. e ≡ seen (run empty steps.now) path.now) }
{
    let mut place = path.clone()?;
    let mut rest = steps;
    'back: while let Some((step, before)) = rest.split_last() {
        match origin_of(alloc, step, &place)? {
            Origin::Made(entry) => return Ok(entry),
            Origin::At(origin) => place = origin,
        }
        rest = before;
    }
    if place.is_root() {
        return Ok(Some(Entry::Directory));
    }
    Ok(None)
}

/// A folder in memory: the steps that it has taken since it was empty. What is at a path is found by going back through them, so each step and each
/// look costs as much as there are steps. Tests run on it.
#[derive(Drop)]
pub struct MemoryFolder {
    alloc: Global,
    steps: Vec<Step>,
}

impl MemoryFolder {
    /// A folder with nothing in it.
    pub fn new(alloc: Global) -> MemoryFolder
        ensures steps { steps_of result ≡ [] }
        ensures synced { IsSyncedPast (Known empty (steps_of result)) }
    {
        MemoryFolder {
            alloc,
            steps: Vec::new(alloc),
        }
    }

    /// The steps that it has taken.
    pub fn steps(&self) -> &[Step]
        ensures { result.now ≡ steps_of self.now }
    {
        &self.steps
    }

    /// What a crash may leave at a path, if each directory on the way to it is there. The error is that of an allocation that fails.
    pub fn left_at(&self, path: &RelPath) -> Result<Left, PathFault>
        ensures { IfOk result (IsPlace (state_of self.now path.now)) }
    {
        left_at(self.alloc, &self.steps, path)
    }

    // What is at a path.
    fn at(&self, path: &RelPath) -> Result<Option<Entry>, PathFault>
        ensures { IfOk result (λ e. e ≡ seen (state_of self.now) path.now) }
    {
        entry_at(self.alloc, &self.steps, path)
    }

    // Whether a directory is there.
    fn is_directory(&self, path: &RelPath) -> Result<bool, PathFault>
        ensures { IfOk result (λ b. b ≡ has_directory (seen (state_of self.now) path.now)) }
    {
        Ok(match self.at(path)? {
            Some(entry) => !entry.is_leaf(),
            None => false,
        })
    }

    // Whether a file or link is there.
    fn is_leaf(&self, path: &RelPath) -> Result<bool, PathFault>
        ensures { IfOk result (λ b. b ≡ has_leaf (seen (state_of self.now) path.now)) }
    {
        Ok(match self.at(path)? {
            Some(entry) => entry.is_leaf(),
            None => false,
        })
    }

    // Whether a file is there.
    fn is_file(&self, path: &RelPath) -> Result<bool, PathFault>
        ensures { IfOk result (λ b. b ≡ has_file (seen (state_of self.now) path.now)) }
    {
        Ok(match self.at(path)? {
            Some(entry) => entry.is_file(),
            None => false,
        })
    }

    // Whether the directory that it would be in is there.
    fn has_parent(&self, path: &RelPath) -> Result<bool, PathFault>
        ensures { IfOk result (λ b. b ≡ has_directory (seen (state_of self.now) (parent path.now))) }
    {
        match path.parent(self.alloc)? {
            Some(parent) => self.is_directory(&parent),
            None => self.is_directory(path),
        }
    }

    // What is in the way of an entry there.
    fn make_misfit(&self, path: &RelPath) -> Result<Option<Misfit>, PathFault>
        ensures { IfOk result (Decides (IsFree (state_of self.now) path.now)) }
    {
        if self.at(path)?.is_some() {
            return Ok(Some(Misfit::Taken));
        }
        if !self.has_parent(path)? {
            return Ok(Some(Misfit::NoParent));
        }
        Ok(None)
    }

    // Why no file there can be synced.
    fn sync_misfit(&self, path: &RelPath) -> Result<Option<Misfit>, PathFault>
        ensures { IfOk result (Decides (has_file (seen (state_of self.now) path.now) ≡ true)) }
    {
        if !self.is_file(path)? {
            return Ok(Some(Misfit::NoFile));
        }
        Ok(None)
    }

    // Why no directory there can be synced.
    fn directory_misfit(&self, path: &RelPath) -> Result<Option<Misfit>, PathFault>
        ensures { IfOk result (Decides (has_directory (seen (state_of self.now) path.now) ≡ true)) }
    {
        if !self.is_directory(path)? {
            return Ok(Some(Misfit::NoDirectory));
        }
        Ok(None)
    }

    // Why no file or link there can be removed.
    fn leaf_misfit(&self, path: &RelPath) -> Result<Option<Misfit>, PathFault>
        ensures { IfOk result (Decides (has_leaf (seen (state_of self.now) path.now) ≡ true)) }
    {
        if !self.is_leaf(path)? {
            return Ok(Some(Misfit::NoFile));
        }
        Ok(None)
    }

    // Why one path can't be renamed to another.
    fn rename_misfit(&self, from: &RelPath, to: &RelPath) -> Result<Option<Misfit>, PathFault>
        ensures { IfOk result (Decides (fits (Step.Rename from.now to.now) (state_of self.now))) }
    {
        if !self.is_leaf(from)? {
            return Ok(Some(Misfit::NoFile));
        }
        if self.is_directory(to)? {
            return Ok(Some(Misfit::Taken));
        }
        if !self.has_parent(to)? {
            return Ok(Some(Misfit::NoParent));
        }
        Ok(None)
    }

    // Why a directory in the folder itself can't have another name.
    fn rename_directory_misfit(&self, from: &Name, to: &Name) -> Result<Option<Misfit>, PathFault>
        ensures { IfOk result (Decides (fits (Step.RenameDirectory from.now to.now) (state_of self.now))) }
    {
        let from = top(self.alloc, from)?;
        let to = top(self.alloc, to)?;
        if !self.is_directory(&from)? {
            return Ok(Some(Misfit::NoDirectory));
        }
        if self.at(&to)?.is_some() {
            return Ok(Some(Misfit::Taken));
        }
        Ok(None)
    }

    // Whether nothing is in a directory under the name that a step has made.
    fn is_free_below(&self, path: &RelPath, step: &Step) -> Result<bool, PathFault>
        ensures { IfOk result (λ b. IsTrue b ↔ IsFreeUnder (state_of self.now) path.now (new_name step.now)) }
    {
        match step.new_name() {
            Some(name) => Ok(self.at(&path.join(self.alloc, name)?)?.is_none()),
            None => Ok(true),
        }
    }

    // Whether nothing is in a directory. Each name in it is one that a step has made.
    fn is_empty(&self, path: &RelPath) -> Result<bool, PathFault>
        ensures { IfOk result (λ b. IsTrue b ↔ IsEmpty (state_of self.now) path.now) }
    {
        let mut rest = self.steps.as_slice();
        'names: while let Some((step, after)) = rest.split_first() {
            if !self.is_free_below(path, step)? {
                return Ok(false);
            }
            rest = after;
        }
        Ok(true)
    }

    // Adds the name that a step has made, if something in a directory has it.
    fn add_name(
        &self,
        path: &RelPath,
        step: &Step,
        names: &mut BTreeSet<Name>,
    ) -> Result<(), PathFault>
        ensures { OnOk result (AddsName (state_of self.now) path.now step.now names.old names.new) }
    {
        let Some(name) = step.new_name() else {
            return Ok(());
        };
        if self.at(&path.join(self.alloc, name)?)?.is_none() {
            return Ok(());
        }
        Ok(add_name(names, name.clone()?)?)
    }

    // The names in a directory. Each is one that a step has made.
    fn names_in(&self, alloc: Global, path: &RelPath) -> Result<BTreeSet<Name>, PathFault>
        ensures { IfOk result (AreNamesIn (state_of self.now) path.now) }
    {
        let mut names = BTreeSet::new(alloc);
        let mut rest = self.steps.as_slice();
        'names: while let Some((step, after)) = rest.split_first() {
            self.add_name(path, step, &mut names)?;
            rest = after;
        }
        Ok(names)
    }

    // Why a directory there can't be removed.
    fn remove_directory_misfit(&self, path: &RelPath) -> Result<Option<Misfit>, PathFault>
        ensures { IfOk result (Decides (fits (Step.RemoveDirectory path.now) (state_of self.now))) }
    {
        if !self.is_directory(path)? {
            return Ok(Some(Misfit::NoDirectory));
        }
        if path.is_root() {
            return Ok(Some(Misfit::NotEmpty));
        }
        if !self.is_empty(path)? {
            return Ok(Some(Misfit::NotEmpty));
        }
        Ok(None)
    }

    // Why a step doesn't fit, if it doesn't.
    fn misfit(&self, step: &Step) -> Result<Option<Misfit>, PathFault>
        ensures { IfOk result (Decides (fits step.now (state_of self.now))) }
    {
        match step {
            Step::Make { path, .. } => self.make_misfit(path),
            Step::SyncFile(path) => self.sync_misfit(path),
            Step::SyncDirectory(path) => self.directory_misfit(path),
            Step::Rename { from, to } => self.rename_misfit(from, to),
            Step::RenameDirectory { from, to } => self.rename_directory_misfit(from, to),
            Step::RemoveFile(path) => self.leaf_misfit(path),
            Step::RemoveDirectory(path) => self.remove_directory_misfit(path),
        }
    }
}

impl Folder for MemoryFolder {
    ghost past = { λ m. Known empty m.steps.items };

    fn take(&mut self, step: Step) -> Result<(), FolderFault>
        ensures takes { Takes step (Known empty self.old.steps.items) result (Known empty self.new.steps.items) }

        // it refuses what doesn't fit, and nothing else
        ensures refused { IsRefused result → ¬ fits step (state_of self.old) }
    {
        if let Some(misfit) = self.misfit(&step)? {
            return Err(FolderFault::Refused { step, misfit });
        }
        self.steps.push(step)?;
        Ok(())
    }

    fn look(&self, _alloc: Global, path: &RelPath) -> Result<Option<Entry>, FolderFault> {
        Ok(self.at(path)?)
    }

    fn sum(&self, _alloc: Global, path: &RelPath) -> Result<Option<Summary>, FolderFault> {
        Ok(match self.at(path)? {
            Some(entry) => Some(entry.summary()?),
            None => None,
        })
    }

    fn list(&self, alloc: Global, path: &RelPath) -> Result<Vec<Name>, FolderFault> {
        if !self.is_directory(path)? {
            return Err(FolderFault::Unread {
                path: path.clone()?,
                error: io::Error::from(ErrorKind::NotADirectory),
            });
        }
        Ok(in_order(alloc, self.names_in(alloc, path)?)?)
    }
}
