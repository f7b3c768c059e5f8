//! A folder of the system whose small new files are written later, many at once.
ghost use Rattle.std.specs.Prelude.{OnOk};
ghost use Rattle.svn_folder.specs.Files.{Gives};

use crate::database_lock::{DatabaseLock, Locks};
use crate::disk::DiskFolder;
use crate::entry::{Entry, Mode};
use crate::fault::FolderFault;
use crate::folder::Folder;
use crate::listing::{add_name, in_order};
use crate::new_file::{FileMaker, NewFile, Unmade, create};
use crate::pieces::Pieces;
use crate::step::{Step, make_step};
use crate::summary::Summary;
use std::alloc::{AllocError, Global};
use std::collections::{BTreeMap, BTreeSet};
use std::fs::File;
use std::io::Write;
use std::path::PathBuf;
use std::rt::Files;
use std::thread::Threads;
use std::{io, mem};
use svn_types::{Name, RelPath, Text};

/// So many files wait at most, and so many bytes of theirs.
const MAX_FILES: usize = 512;

const MAX_BYTES: usize = 4_194_304;

/// So many threads write files at once, and each at least so many.
const MAX_THREADS: usize = 8;

const MIN_SHARE: usize = 16;

/// A folder of the system, for whoever makes many small files there. A file that [`Folder::make_file`] gets as one piece, or [`Folder::copy_file`] of such
/// a file, waits in memory, up to 512 of them and 4 MiB in all, and then they are written by up to eight threads. A rename of a file that waits changes its
/// path where the new one is free. Before a step of another kind, but for one that makes an entry elsewhere, and before a sync, all that waits is written.
///
/// It shows each file as if it was written. An error of the system at writing comes with a later step, and names the file; that something is there is said at
/// once. What waits is lost with the program, as what isn't synced is with the power, and some of it where an allocation fails;
/// [`finish`](WriteBehind::finish) writes it.
#[derive(Drop)]
pub struct WriteBehind<'a, T> {
    rt: &'a T,
    disk: DiskFolder<'a, T>,
    waiting: BTreeMap<RelPath, NewFile>,
    // Of all files that wait, or more.
    bytes: usize,
}

// How many of so many files a thread writes.
fn share_size(count: usize) -> usize {
    count.div_ceil(MAX_THREADS).max(MIN_SHARE)
}

// Files in the shares of the threads that write them.
fn shares_of(
    alloc: Global,
    files: BTreeMap<RelPath, NewFile>,
) -> Result<Vec<Vec<NewFile>>, AllocError> {
    let size = share_size(files.len());
    let mut shares = Vec::new(alloc);
    let mut share = Vec::new(alloc);
    for (_, file) in files {
        share.push(file)?;
        if share.len() >= size {
            shares.push(mem::replace(&mut share, Vec::new(alloc)))?;
        }
    }
    shares.push(share)?;
    Ok(shares)
}

// The fault of making a file. Its step lacks the bytes.
fn failed(
    alloc: Global,
    path: &RelPath,
    mode: Mode,
    modified: Option<u64>,
    error: io::Error,
) -> Result<FolderFault, AllocError> {
    let step = make_step(path, Text::new(Vec::new(alloc)), mode, modified)?;
    Ok(FolderFault::Failed { step, error })
}

// The fault of a file that wasn't made.
fn fault_of(alloc: Global, unmade: Unmade) -> Result<FolderFault, AllocError> {
    let Unmade { file, error } = unmade;
    failed(alloc, &file.path, file.mode, file.modified, error)
}

impl<'a, T: Files<File = File> + Threads + Locks + FileMaker + AllocGlobal> WriteBehind<'a, T> {
    /// The folder at a path of the system. Nothing is looked at.
    pub fn new(rt: &'a T, root: PathBuf) -> WriteBehind<'a, T> {
        WriteBehind {
            rt,
            disk: DiskFolder::new(rt, root),
            waiting: BTreeMap::new(rt.alloc()),
            bytes: 0,
        }
    }

    // Whether a file waits to be written there.
    fn waits(&self, path: &RelPath) -> bool {
        self.waiting.contains_key(path)
    }

    /// Writes what waits. `Failed` with a file that the system doesn't take; then, and with `Memory`, which is an allocation that fails, any of the others
    /// may be written, and none waits any more.
    pub fn finish(&mut self) -> Result<(), FolderFault> {
        if self.waiting.is_empty() {
            return Ok(());
        }
        let alloc = self.rt.alloc();
        let waiting = mem::replace(&mut self.waiting, BTreeMap::new(alloc));
        self.bytes = 0;
        match self.rt.make_files(self.rt, shares_of(alloc, waiting)?)? {
            Some(unmade) => Err(fault_of(alloc, unmade)?),
            None => Ok(()),
        }
    }

    // Whether nothing is at a path of the system.
    fn is_free(&self, place: &PathBuf) -> bool {
        matches!(self.disk.is_there(place), Ok(false))
    }

    // Lets a file wait, and writes all if that is enough.
    fn add(
        &mut self,
        path: &RelPath,
        bytes: Text,
        mode: Mode,
        modified: Option<u64>,
    ) -> Result<(), FolderFault> {
        let place = self.disk.place(path)?;
        if !self.is_free(&place) {
            // so that the system says at once why it can't be made
            return self.disk.take(make_step(path, bytes, mode, modified)?);
        }
        self.bytes = self.bytes.saturating_add(bytes.as_slice().len());
        let file = NewFile {
            path: path.clone()?,
            place,
            bytes,
            mode,
            modified,
        };
        self.waiting.insert(path.clone()?, file)?;
        if self.bytes < MAX_BYTES && self.waiting.len() < MAX_FILES {
            return Ok(());
        }
        self.finish()
    }

    // Takes a step once all is written.
    fn take_after_all(&mut self, step: Step) -> Result<(), FolderFault> {
        self.finish()?;
        self.disk.take(step)
    }

    // Gives a file that waits another path, if nothing is there; whether it did.
    fn rename_waiting(&mut self, from: &RelPath, to: &RelPath) -> Result<bool, FolderFault> {
        let place = self.disk.place(to)?;
        if self.waits(to) || !self.is_free(&place) {
            return Ok(false);
        }
        let (path, key) = (to.clone()?, to.clone()?);
        let Some(file) = self.waiting.remove(from) else {
            return Ok(false);
        };
        let NewFile {
            bytes,
            mode,
            modified,
            ..
        } = file;
        let file = NewFile {
            path,
            place,
            bytes,
            mode,
            modified,
        };
        self.waiting.insert(key, file)?;
        Ok(true)
    }

    // Makes a file that comes in more than one piece.
    fn make_large<P: Pieces>(
        &self,
        path: &RelPath,
        how: (Mode, Option<u64>),
        front: (&Text, &Text),
        pieces: &mut P,
    ) -> io::Result<()>
        ensures given { Gives (P.given pieces.old) (P.given pieces.new) }
        ensures over { OnOk result (P.is_over pieces.new) }
    {
        let (mode, modified) = how;
        let place = self.disk.place(path)?;
        let mut file = create(self.rt, &place, mode)?;
        file.write_all(front.0.as_slice())?;
        file.write_all(front.1.as_slice())?;
        self.disk.write_rest(file, modified, pieces)
    }
}

impl<T: Files<File = File> + Threads + Locks + FileMaker + AllocGlobal> Folder
    for WriteBehind<'_, T> {
    fn take(&mut self, step: Step) -> Result<(), FolderFault> {
        match &step {
            Step::Rename { from, to } => {
                if self.waits(from) && self.rename_waiting(from, to)? {
                    return Ok(());
                }
            }
            Step::RemoveFile(path) => {
                if self.waiting.remove(path).is_some() {
                    return Ok(());
                }
            }
            Step::Make { path, .. } => {
                if !self.waits(path) {
                    return self.disk.take(step);
                }
            }
            Step::SyncFile(_)
            | Step::SyncDirectory(_)
            | Step::RenameDirectory { .. }
            | Step::RemoveDirectory(_) => {}
        }
        self.take_after_all(step)
    }

    fn make_file<P: Pieces>(
        &mut self,
        alloc: Global,
        path: &RelPath,
        mode: Mode,
        modified: Option<u64>,
        pieces: &mut P,
    ) -> Result<(), FolderFault> {
        if self.waits(path) {
            self.finish()?;
        }
        let Some(first) = pieces.next_piece(alloc) else {
            let bytes = Text::new(Vec::new(alloc));
            return self.add(path, bytes, mode, modified);
        };
        let Some(second) = pieces.next_piece(alloc) else {
            let bytes = first;
            return self.add(path, bytes, mode, modified);
        };
        match self.make_large(path, (mode, modified), (&first, &second), pieces) {
            Ok(()) => Ok(()),
            Err(error) => Err(failed(alloc, path, mode, modified, error)?),
        }
    }

    fn copy_file(
        &mut self,
        alloc: Global,
        from: &RelPath,
        to: &RelPath,
        mode: Mode,
        modified: Option<u64>,
    ) -> Result<(), FolderFault> {
        if self.waits(to) {
            self.finish()?;
        }
        if let Some(file) = self.waiting.get(from) {
            let bytes = file.bytes.clone()?;
            return self.add(to, bytes, mode, modified);
        }
        self.disk.copy_file(alloc, from, to, mode, modified)
    }

    fn sync_files(&mut self, paths: &[RelPath]) -> Result<(), FolderFault> {
        if paths.is_empty() {
            return Ok(());
        }
        self.finish()?;
        self.disk.sync_files(paths)
    }

    fn look(&self, alloc: Global, path: &RelPath) -> Result<Option<Entry>, FolderFault> {
        match self.waiting.get(path) {
            Some(file) => Ok(Some(Entry::File(file.bytes.clone()?, file.mode))),
            None => self.disk.look(alloc, path),
        }
    }

    fn sum(&self, alloc: Global, path: &RelPath) -> Result<Option<Summary>, FolderFault> {
        match self.waiting.get(path) {
            Some(file) => Ok(Some(Entry::File(file.bytes.clone()?, file.mode).summary()?)),
            None => self.disk.sum(alloc, path),
        }
    }

    fn list(&self, alloc: Global, path: &RelPath) -> Result<Vec<Name>, FolderFault> {
        let mut names = BTreeSet::new(alloc);
        for name in self.disk.list(alloc, path)? {
            add_name(&mut names, name)?;
        }
        for (new, _) in &self.waiting {
            add_new_name(alloc, &mut names, path, new)?;
        }
        Ok(in_order(alloc, names)?)
    }

    fn is_locked(&self, path: &RelPath) -> Result<bool, FolderFault> {
        self.disk.is_locked(path)
    }

    fn lock(&self, path: &RelPath) -> Result<Option<DatabaseLock>, FolderFault> {
        self.disk.lock(path)
    }
}

// Adds the name of a new file, if it is in that directory.
fn add_new_name(
    alloc: Global,
    names: &mut BTreeSet<Name>,
    directory: &RelPath,
    new: &RelPath,
) -> Result<(), AllocError> {
    if new.parent(alloc)?.as_ref() == Some(directory) {
        if let Some(name) = new.last_name() {
            add_name(names, name.clone()?)?;
        }
    }
    Ok(())
}
