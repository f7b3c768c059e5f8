//! A folder that knows whether all of it is on the disk.
ghost use Rattle.std.specs.Prelude.{◌≡◌, IsTrue};
ghost use Rattle.svn_folder.specs.Syncing.{AreMarksOf, IsSyncedPast};
ghost use Rattle.svn_folder.specs.Marking.{marks_of};
ghost use Rattle.svn_folder.specs.Files.{TakesSyncs};

use crate::database_lock::DatabaseLock;
use crate::entry::{Entry, Mode};
use crate::fault::FolderFault;
use crate::folder::Folder;
use crate::pieces::Pieces;
use crate::step::Step;
use crate::summary::Summary;
use crate::unsynced::Unsynced;
use std::alloc::Global;
use svn_types::{Name, RelPath};

/// A folder that passes each step to another one, and keeps at which paths something may not be on the disk yet: the bytes of files, and names in
/// directories. A step that is refused counts as if it had changed them. If a directory is renamed before everything is on the disk, nothing is known
/// from then on.
#[derive(Drop)]
pub struct SyncedFolder<F: Folder> {
    /// The folder, which takes the steps.
    pub folder: F,
    unsynced: Unsynced,
    ghost marks: { AreMarksOf (F.past folder) (marks_of unsynced) },
}

impl<F: Folder> SyncedFolder<F> {
    /// All of the folder is on the disk, as of an empty one. Of a folder of the system that can't be shown, and is supposed.
    pub fn new(alloc: Global, folder: F) -> SyncedFolder<F>
        requires { IsSyncedPast (F.past folder) }
        ensures { result.folder ≡ folder }
    {
        SyncedFolder {
            folder,
            unsynced: Unsynced::nothing(alloc),
        }
    }

    /// The same for a caller who brings nothing to the disk: it keeps no path, and `is_synced` is never true.
    pub fn unmarked(alloc: Global, folder: F) -> SyncedFolder<F>
        requires { IsSyncedPast (F.past folder) }
        ensures { result.folder ≡ folder }
    {
        SyncedFolder {
            folder,
            unsynced: Unsynced::unknown(alloc),
        }
    }

    /// Whether all of it is on the disk: each file that was made or put somewhere was synced, and each directory after the last change of a name in
    /// it, those above it first. Then a crash leaves what the folder shows. After a failure of the system it is never true.
    pub fn is_synced(&self) -> bool
        ensures { IsTrue result → IsSyncedPast (F.past self.now.folder) }
    {
        self.unsynced.is_nothing()
    }

    /// Brings all of it to the disk: the bytes of each file that isn't there yet, and then the names in each directory, those above first, since a
    /// name is on the disk only with those above it. Nothing that is shown changes. It ends at the first step that isn't taken: `Refused` where a
    /// marked file or directory isn't there, as after a step that was itself refused. `Memory` if an allocation fails. Where it isn't known what is
    /// on the disk, it syncs what is known not to be, and `is_synced` stays false.
    pub fn sync_all(&mut self, alloc: Global) -> Result<(), FolderFault>
        ensures { TakesSyncs (F.past self.old.folder) result (F.past self.new.folder) }
    {
        let (files, directories) = self.unsynced.marked(alloc)?;
        self.sync_files(&files)?;
        let mut rest = directories.as_slice();
        'directories: while let Some((path, after)) = rest.split_first() {
            self.take(Step::SyncDirectory(path.clone()?))?;
            rest = after;
        }
        Ok(())
    }
}

impl<F: Folder> Folder for SyncedFolder<F> {
    ghost past = { λ s. F.past s.folder };

    fn take(&mut self, step: Step) -> Result<(), FolderFault> {
        let done = self.unsynced.begin(&step)?;
        match self.folder.take(step) {
            Ok(()) => {
                self.unsynced.finish(&done);
                Ok(())
            }
            Err(fault) => {
                self.unsynced.give_up(&fault);
                Err(fault)
            }
        }
    }

    fn make_file<P: Pieces>(
        &mut self,
        alloc: Global,
        path: &RelPath,
        mode: Mode,
        modified: Option<u64>,
        pieces: &mut P,
    ) -> Result<(), FolderFault> {
        self.unsynced.begin_file(path)?;
        match self.folder.make_file(alloc, path, mode, modified, pieces) {
            Ok(()) => Ok(()),
            Err(fault) => {
                self.unsynced.give_up(&fault);
                Err(fault)
            }
        }
    }

    fn copy_file(
        &mut self,
        alloc: Global,
        from: &RelPath,
        to: &RelPath,
        mode: Mode,
        modified: Option<u64>,
    ) -> Result<(), FolderFault> {
        self.unsynced.begin_file(to)?;
        match self.folder.copy_file(alloc, from, to, mode, modified) {
            Ok(()) => Ok(()),
            Err(fault) => {
                self.unsynced.give_up(&fault);
                Err(fault)
            }
        }
    }

    fn sync_files(&mut self, paths: &[RelPath]) -> Result<(), FolderFault> {
        match self.folder.sync_files(paths) {
            Ok(()) => {
                self.unsynced.finish_files(paths);
                Ok(())
            }
            Err(fault) => {
                self.unsynced.give_up(&fault);
                Err(fault)
            }
        }
    }

    fn look(&self, alloc: Global, path: &RelPath) -> Result<Option<Entry>, FolderFault> {
        self.folder.look(alloc, path)
    }

    fn sum(&self, alloc: Global, path: &RelPath) -> Result<Option<Summary>, FolderFault> {
        self.folder.sum(alloc, path)
    }

    fn list(&self, alloc: Global, path: &RelPath) -> Result<Vec<Name>, FolderFault> {
        self.folder.list(alloc, path)
    }

    fn is_locked(&self, path: &RelPath) -> Result<bool, FolderFault> {
        self.folder.is_locked(path)
    }

    fn lock(&self, path: &RelPath) -> Result<Option<DatabaseLock>, FolderFault> {
        self.folder.lock(path)
    }
}
