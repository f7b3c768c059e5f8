//! A folder of which nothing is known.

use std::alloc::Global;
use svn_folder::{Entry, Folder, FolderFault, Step, Summary};
use svn_types::{Name, RelPath};

/// A folder of whose steps nothing is known, as of one of the system: what an earlier run, which was cut off, has left.
#[derive(Drop)]
pub(crate) struct Opaque<F>(pub(crate) F);

impl<F: Folder> Folder for Opaque<F> {
    fn take(&mut self, step: Step) -> Result<(), FolderFault> {
        self.0.take(step)
    }

    fn look(&self, alloc: Global, path: &RelPath) -> Result<Option<Entry>, FolderFault> {
        self.0.look(alloc, path)
    }

    fn sum(&self, alloc: Global, path: &RelPath) -> Result<Option<Summary>, FolderFault> {
        self.0.sum(alloc, path)
    }

    fn list(&self, alloc: Global, path: &RelPath) -> Result<Vec<Name>, FolderFault> {
        self.0.list(alloc, path)
    }
}
