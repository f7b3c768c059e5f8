//! A folder that stops.
ghost use Rattle.std.specs.Prelude.{◌≡◌, ◌+◌, ◌<◌, ◌≤◌, IsErrOf};
ghost use Rattle.svn_folder.specs.Pasts.{Takes};

use crate::database_lock::DatabaseLock;
use crate::entry::Entry;
use crate::fault::FolderFault;
use crate::folder::Folder;
use crate::step::Step;
use crate::summary::Summary;
use std::alloc::Global;
use svn_types::{Name, RelPath};

/// A folder that takes so many steps, and then is as if the program that uses it had been stopped: it refuses each step, so that what it shows is
/// what the steps before have left.
#[derive(Drop)]
pub struct StoppedFolder<F> {
    /// The folder, which takes the steps.
    pub folder: F,
    /// How many steps it has been given so far.
    pub given: u64,
    /// How many it may be given.
    pub limit: u64,
}

impl<F: Folder> StoppedFolder<F> {
    /// A folder that takes so many steps.
    pub fn new(folder: F, limit: u64) -> StoppedFolder<F>
        ensures folder { result.folder ≡ folder }
        ensures given { result.given ≡ 0 }
        ensures limit { result.limit ≡ limit }
    {
        StoppedFolder {
            folder,
            given: 0,
            limit,
        }
    }
}

impl<F: Folder> Folder for StoppedFolder<F> {
    ghost past = { λ s. F.past s.folder };

    fn take(&mut self, step: Step) -> Result<(), FolderFault>
        ensures takes { Takes step (F.past self.old.folder) result (F.past self.new.folder) }

        // after the last step nothing changes
        ensures stopped { self.old.limit ≤ self.old.given → (IsErrOf result FolderFault.Stopped × (self.new ≡ self.old)) }
        ensures counted { self.old.given < self.old.limit → self.new.given ≡ self.old.given + 1 }
        ensures limit { self.new.limit ≡ self.old.limit }
    {
        if self.given >= self.limit {
            return Err(FolderFault::Stopped);
        }
        self.given += 1;
        self.folder.take(step)
    }

    fn look(&self, alloc: Global, path: &RelPath) -> Result<Option<Entry>, FolderFault> {
        self.folder.look(alloc, path)
    }

    fn sum(&self, alloc: Global, path: &RelPath) -> Result<Option<Summary>, FolderFault> {
        self.folder.sum(alloc, path)
    }

    fn list(&self, alloc: Global, path: &RelPath) -> Result<Vec<Name>, FolderFault> {
        self.folder.list(alloc, path)
    }

    fn is_locked(&self, path: &RelPath) -> Result<bool, FolderFault> {
        self.folder.is_locked(path)
    }

    fn lock(&self, path: &RelPath) -> Result<Option<DatabaseLock>, FolderFault> {
        self.folder.lock(path)
    }
}
