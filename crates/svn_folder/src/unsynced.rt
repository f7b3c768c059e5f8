//! What of a folder isn't on the disk yet.
ghost use Rattle.std.specs.Prelude.{◌≡◌, ◌↔◌, ◌&&◌, ◌||◌, ◌⊎◌, ℕ, List, Option, [], not, true, false, IfOk, OnOk, OnErr, IsTrue};
ghost use Rattle.std.specs.BTreeSet.{contains, btree_set_len};
ghost use Rattle.svn_types.specs.Names.{Path, path_cmp};
ghost use Rattle.svn_types.specs.Paths.{path_eq, parent};
ghost use Rattle.svn_folder.specs.Syncing.{no_marks, AreWithin, AreEnough};
ghost use Rattle.svn_folder.specs.Marking.{marks_of, without, without_files};
ghost use Rattle.svn_folder.specs.declared.unsynced.Done.{Done};

use crate::entry::{Entry, Mode};
use crate::fault::FolderFault;
use crate::step::Step;
use std::alloc::{AllocError, Global};
use std::collections::BTreeSet;
use svn_types::{Name, RelPath};

/// What isn't on the disk yet, of what steps have changed since everything was.
#[derive(Drop)]
pub(crate) struct Unsynced {
    pub(crate) alloc: Global,
    /// The files whose bytes may not be.
    pub(crate) files: BTreeSet<RelPath>,
    /// The directories with a name that may not be.
    pub(crate) directories: BTreeSet<RelPath>,
    /// It can't be said what is, as the system failed or a directory was renamed before everything was.
    pub(crate) is_unknown: bool,
}

/// What is on the disk, or is gone, once a step is taken.
#[derive(Drop)]
pub(crate) enum Done {
    Nothing,
    /// The bytes of a file.
    Bytes(RelPath),
    /// The names in a directory.
    Names(RelPath),
    /// From then on nothing is known.
    Unknown,
}

fn mark(paths: &mut BTreeSet<RelPath>, path: &RelPath) -> Result<(), AllocError>
    ensures added { OnOk result ((q : Path) → contains path_cmp paths.new q ≡ (path_eq path.now q || contains path_cmp paths.old q)) }
    ensures unchanged { OnErr result ((q : Path) → contains path_cmp paths.new q ≡ contains path_cmp paths.old q) }
{
    paths.insert(path.clone()?)?;
    Ok(())
}

fn unmark(paths: &mut BTreeSet<RelPath>, path: &RelPath)
    ensures { (q : Path) → contains path_cmp paths.new q ≡ (not (path_eq path.now q) && contains path_cmp paths.old q) }
{
    paths.remove(path);
}

fn is_marked(paths: &BTreeSet<RelPath>, path: &RelPath) -> bool
    ensures { result ≡ contains path_cmp paths.now path.now }
{
    paths.contains(path)
}

// The paths of a set, in their order.
fn listed(alloc: Global, paths: &BTreeSet<RelPath>) -> Result<Vec<RelPath>, AllocError> {
    let mut list = Vec::new(alloc);
    for path in paths {
        list.push(path.clone()?)?;
    }
    Ok(list)
}

impl Unsynced {
    /// Nothing: everything is on the disk.
    pub(crate) fn nothing(alloc: Global) -> Unsynced
        ensures { AreWithin (marks_of result) no_marks }
    {
        Unsynced {
            alloc,
            files: BTreeSet::new(alloc),
            directories: BTreeSet::new(alloc),
            is_unknown: false,
        }
    }

    /// Nothing is known.
    pub(crate) fn unknown(alloc: Global) -> Unsynced
        ensures { AreWithin no_marks (marks_of result) }
    {
        Unsynced {
            alloc,
            files: BTreeSet::new(alloc),
            directories: BTreeSet::new(alloc),
            is_unknown: true,
        }
    }

    /// Whether everything is on the disk.
    pub(crate) fn is_nothing(&self) -> bool
        ensures exact { IsTrue result ↔ ((self.now.is_unknown ≡ false) × (btree_set_len self.now.files ≡ 0) × (btree_set_len self.now.directories ≡ 0)) }
        ensures marks { IsTrue result → AreWithin (marks_of self.now) no_marks }
    {
        !self.is_unknown && self.files.is_empty() && self.directories.is_empty()
    }

    // Marks the bytes of a file.
    fn mark_bytes(&mut self, path: &RelPath) -> Result<(), AllocError>
        ensures marked { OnOk result ((marks_of self.new).files path.now ≡ true) }
        ensures more { AreWithin (marks_of self.old) (marks_of self.new) }
    {
        // of what is unknown everything is marked
        if self.is_unknown {
            return Ok(());
        }
        mark(&mut self.files, path)
    }

    // Marks the names in a directory.
    fn mark_names(&mut self, path: &RelPath) -> Result<(), AllocError>
        ensures marked { OnOk result ((marks_of self.new).directories path.now ≡ true) }
        ensures more { AreWithin (marks_of self.old) (marks_of self.new) }
    {
        if self.is_unknown {
            return Ok(());
        }
        mark(&mut self.directories, path)
    }

    // Marks the name at a path.
    fn mark_name(&mut self, path: &RelPath) -> Result<(), AllocError>
        ensures marked { OnOk result ((marks_of self.new).directories (parent path.now) ≡ true) }
        ensures more { AreWithin (marks_of self.old) (marks_of self.new) }
    {
        match path.parent(self.alloc)? {
            Some(directory) => self.mark_names(&directory),
            None => self.mark_names(path),
        }
    }

    // Whether the bytes of a file are marked.
    fn has_bytes(&self, path: &RelPath) -> bool
        ensures { result ≡ (marks_of self.now).files path.now }
    {
        self.is_unknown || is_marked(&self.files, path)
    }

    // Whether the name of a directory is marked. The folder itself has none.
    fn has_name(&self, path: &RelPath) -> Result<bool, AllocError>
        ensures { IfOk result (λ b. b ≡ false → (path.now ≡ []) ⊎ ((marks_of self.now).directories (parent path.now) ≡ false)) }
    {
        Ok(match path.parent(self.alloc)? {
            Some(directory) => self.is_unknown || is_marked(&self.directories, &directory),
            None => false,
        })
    }

    fn begin_make(&mut self, path: &RelPath, entry: &Entry) -> Result<Done, AllocError>
        ensures more { AreWithin (marks_of self.old) (marks_of self.new) }
        ensures enough { IfOk result (λ done. (t : Option ℕ) → AreEnough (Step.Make path.now entry.now t) (marks_of self.old) (without done (marks_of self.new))) }
    {
        self.mark_name(path)?;
        match entry {
            Entry::File(..) => self.mark_bytes(path)?,
            Entry::Directory => self.mark_names(path)?,
            Entry::Link(_) => {}
        }
        Ok(Done::Nothing)
    }

    /// Before a file is made, of whatever bytes: marks what that leaves.
    pub(crate) fn begin_file(&mut self, path: &RelPath) -> Result<(), AllocError>
        ensures more { AreWithin (marks_of self.old) (marks_of self.new) }
        ensures enough { OnOk result ((bytes : List ℕ) (mode : Mode) (t : Option ℕ) → AreEnough (Step.Make path.now (Entry.File bytes mode) t) (marks_of self.old) (marks_of self.new)) }
    {
        self.mark_name(path)?;
        self.mark_bytes(path)?;
        Ok(())
    }

    fn begin_sync(&self, path: &RelPath) -> Result<Done, AllocError>
        ensures { IfOk result (λ done. AreEnough (Step.SyncDirectory path.now) (marks_of self.now) (without done (marks_of self.now))) }
    {
        if self.has_name(path)? {
            return Ok(Done::Nothing);
        }
        Ok(Done::Names(path.clone()?))
    }

    fn begin_rename(&mut self, from: &RelPath, to: &RelPath) -> Result<Done, AllocError>
        ensures more { AreWithin (marks_of self.old) (marks_of self.new) }
        ensures enough { IfOk result (λ done. AreEnough (Step.Rename from.now to.now) (marks_of self.old) (without done (marks_of self.new))) }
    {
        let is_unsynced = self.has_bytes(from);
        self.mark_name(from)?;
        self.mark_name(to)?;
        if !is_unsynced {
            return Ok(Done::Bytes(to.clone()?));
        }
        self.mark_bytes(to)?;
        if from == to {
            return Ok(Done::Nothing);
        }
        Ok(Done::Bytes(from.clone()?))
    }

    fn begin_remove(&mut self, path: &RelPath) -> Result<Done, AllocError>
        ensures more { AreWithin (marks_of self.old) (marks_of self.new) }
        ensures enough { IfOk result (λ done. AreEnough (Step.RemoveFile path.now) (marks_of self.old) (without done (marks_of self.new))) }
    {
        self.mark_name(path)?;
        Ok(Done::Bytes(path.clone()?))
    }

    fn begin_remove_directory(&mut self, path: &RelPath) -> Result<Done, AllocError>
        ensures more { AreWithin (marks_of self.old) (marks_of self.new) }
        ensures enough { IfOk result (λ done. AreEnough (Step.RemoveDirectory path.now) (marks_of self.old) (without done (marks_of self.new))) }
    {
        self.mark_name(path)?;
        Ok(Done::Names(path.clone()?))
    }

    // A directory takes what is below it along, and its marks aren't followed.
    fn begin_rename_directory(&self, from: &Name, to: &Name) -> Done
        ensures { AreEnough (Step.RenameDirectory from.now to.now) (marks_of self.now) (without result (marks_of self.now)) }
    {
        if self.is_nothing() {
            Done::Nothing
        } else {
            Done::Unknown
        }
    }

    /// Before a step is tried: marks what it leaves, and says what is done once it is taken.
    pub(crate) fn begin(&mut self, step: &Step) -> Result<Done, AllocError>
        ensures more { AreWithin (marks_of self.old) (marks_of self.new) }
        ensures enough { IfOk result (λ done. AreEnough step.now (marks_of self.old) (without done (marks_of self.new))) }
    {
        match step {
            Step::Make { path, entry, .. } => self.begin_make(path, entry),
            Step::SyncFile(path) => Ok(Done::Bytes(path.clone()?)),
            Step::SyncDirectory(path) => self.begin_sync(path),
            Step::Rename { from, to } => self.begin_rename(from, to),
            Step::RenameDirectory { from, to } => Ok(self.begin_rename_directory(from, to)),
            Step::RemoveFile(path) => self.begin_remove(path),
            Step::RemoveDirectory(path) => self.begin_remove_directory(path),
        }
    }

    fn unmark_bytes(&mut self, path: &RelPath)
        ensures { AreWithin (without (Done.Bytes path.now) (marks_of self.old)) (marks_of self.new) }
    {
        unmark(&mut self.files, path)
    }

    /// Once it is taken.
    pub(crate) fn finish(&mut self, done: &Done)
        ensures { AreWithin (without done.now (marks_of self.old)) (marks_of self.new) }
    {
        match done {
            Done::Nothing => {}
            Done::Bytes(path) => self.unmark_bytes(path),
            Done::Names(path) => unmark(&mut self.directories, path),
            Done::Unknown => {
                // nothing can be synced by its mark any more
                self.is_unknown = true;
                self.files.clear();
                self.directories.clear();
            }
        }
    }

    /// Once the bytes of files are on the disk.
    pub(crate) fn finish_files(&mut self, paths: &[RelPath])
        ensures { AreWithin (without_files paths.now (marks_of self.old)) (marks_of self.new) }
    {
        let mut rest = paths;
        'paths: while let Some((path, after)) = rest.split_first() {
            self.unmark_bytes(path);
            rest = after;
        }
    }

    /// The files whose bytes may not be on the disk, and the directories with a name that may not be, each in the order of paths, as far as they are
    /// known. The error is that of an allocation that fails.
    pub(crate) fn marked(&self, alloc: Global) -> Result<(Vec<RelPath>, Vec<RelPath>), AllocError> {
        Ok((
            listed(alloc, &self.files)?,
            listed(alloc, &self.directories)?,
        ))
    }

    /// Once it isn't taken: after a failure nothing is known.
    pub(crate) fn give_up(&mut self, fault: &FolderFault)
        ensures { AreWithin (marks_of self.old) (marks_of self.new) }
    {
        if matches!(fault, FolderFault::Failed { .. }) {
            self.is_unknown = true;
        }
    }
}
