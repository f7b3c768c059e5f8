//! A folder of the system.
ghost use Rattle.std.specs.Prelude.{◌<◌, OnOk};
ghost use Rattle.svn_folder.specs.Files.{Gives};

use crate::at_once::{Opened, sync_at_once};
use crate::database_lock::{DatabaseLock, Locks};
use crate::entry::{Entry, Mode};
use crate::fault::{FolderFault, Misfit};
use crate::folder::Folder;
use crate::listing::{add_name, in_order};
use crate::locks::is_locked_at;
use crate::new_file::{create, set_time, write_new};
use crate::pieces::Pieces;
use crate::step::{Step, make_step};
use crate::summary::Summary;
use sha1::Sha1;
use std::alloc::{AllocError, Global};
use std::collections::BTreeSet;
use std::fs::{File, Metadata, OpenFile};
use std::io::{ErrorKind, Read, Write};
use std::os::unix::fs::{PermissionsExt, symlink};
use std::path::PathBuf;
use std::rt::Files;
use std::thread::Threads;
use std::{fs, io, thread};
use svn_types::{Name, PathFault, RelPath, Sha1Sum, Text};

/// So many bytes of a file are read at once.
const PIECE: usize = 65536;

/// So many threads sync files at once: a journal brings to the disk together what waits for it, so it is the number that wait which makes it fast.
const MAX_THREADS: usize = 64;

/// A thread syncs at least so many files.
const MIN_SHARE: usize = 8;

/// So many files may be open at once: half of what a program may have open where nobody raised that.
const MAX_OPEN: usize = 512;

/// A folder of the system. Each step is the calls that it names, and a look before it at what the system wouldn't refuse. What the system refuses is
/// `Failed`, with its error, also where the step doesn't fit.
///
/// `is_locked` reads the list of all locks that Linux has in `/proc/locks`. `lock` waits for some tenths of a second where a program has the database
/// locked; where the system has no such locks, or the database may not be written, it is as by default.
///
/// `make_file` writes each piece as it comes, and `copy_file` from file to file, so that neither holds a text. The step of an error of theirs has no
/// bytes. `sync_files` opens up to 512 files at a time, and syncs them in up to 64 threads.
///
/// No contract says what the system does. That it keeps `specs/Crashes.antt`, that a rename is atomic, and that nobody else changes what is in the
/// folder between a look and a step, is trusted.
#[derive(Drop)]
pub struct DiskFolder<'a, T> {
    rt: &'a T,
    root: PathBuf,
}

// Why what is at a path can't be read.
fn unread(path: &RelPath, error: io::Error) -> Result<FolderFault, AllocError> {
    Ok(FolderFault::Unread {
        path: path.clone()?,
        error,
    })
}

// How many of so many files a thread syncs.
fn share_size(count: usize) -> usize
    ensures { 0 < result }
{
    count.div_ceil(MAX_THREADS).max(MIN_SHARE)
}

// The mode of a file, by what its owner may do.
fn mode_of(file: &Metadata) -> Mode {
    let bits = file.permissions().mode();
    Mode {
        executable: bits & 0o100 != 0,
        read_only: bits & 0o200 == 0,
    }
}

// The names that these texts are.
fn names_of(alloc: Global, texts: &[String]) -> Result<BTreeSet<Name>, PathFault> {
    let mut names = BTreeSet::new(alloc);
    for text in texts {
        add_name(&mut names, Name::parse(alloc, text.as_str())?)?;
    }
    Ok(names)
}

// Whether nothing is at a path: the name isn't there, or what should be a directory on the way isn't one.
fn is_absent(error: &io::Error) -> bool {
    matches!(error.kind(), ErrorKind::NotFound | ErrorKind::NotADirectory)
}

impl<'a, T: Files<File = File> + Threads + AllocGlobal> DiskFolder<'a, T> {
    /// The folder at a path of the system. Nothing is looked at.
    pub fn new(rt: &'a T, root: PathBuf) -> DiskFolder<'a, T> {
        DiskFolder { rt, root }
    }

    // The system's path of a path in the folder.
    pub(crate) fn place(&self, path: &RelPath) -> Result<PathBuf, AllocError> {
        let alloc = self.rt.alloc();
        let below = format!(in alloc; "{path}")?;
        self.root.join(alloc, below.as_str())
    }

    // The system's path of a name in the folder itself.
    fn top(&self, name: &Name) -> Result<PathBuf, AllocError> {
        self.root.join(self.rt.alloc(), name.as_str())
    }

    // Writes pieces to a file as they come, and gives it its time.
    pub(crate) fn write_rest<P: Pieces>(
        &self,
        mut file: T::File,
        modified: Option<u64>,
        pieces: &mut P,
    ) -> io::Result<()>
        ensures given { Gives (P.given pieces.old) (P.given pieces.new) }
        ensures over { OnOk result (P.is_over pieces.new) }
    {
        'pieces: for _ in 0..u64::MAX {
            let Some(piece) = pieces.next_piece(self.rt.alloc()) else {
                return set_time(&file, modified);
            };
            file.write_all(piece.as_slice())?;
        }
        Err(io::Error::from(ErrorKind::FileTooLarge))
    }

    // Makes a file of the pieces, each written as it comes.
    fn write_pieces<P: Pieces>(
        &self,
        place: &PathBuf,
        mode: Mode,
        modified: Option<u64>,
        pieces: &mut P,
    ) -> io::Result<()>
        ensures given { Gives (P.given pieces.old) (P.given pieces.new) }
        ensures over { OnOk result (P.is_over pieces.new) }
    {
        let file = create(self.rt, place, mode)?;
        self.write_rest(file, modified, pieces)
    }

    // Makes a file with the bytes of another one.
    fn write_copy(
        &self,
        source: &PathBuf,
        place: &PathBuf,
        mode: Mode,
        modified: Option<u64>,
    ) -> io::Result<()> {
        let mut from = File::open(self.rt, source)?;
        let mut file = create(self.rt, place, mode)?;
        io::copy(&mut from, &mut file)?;
        set_time(&file, modified)
    }

    // Makes a link. A target that isn't UTF-8 is refused.
    fn make_link(&self, place: &PathBuf, target: &[u8]) -> io::Result<()> {
        match str::from_utf8(target) {
            Ok(target) => symlink(self.rt, target, place),
            Err(_) => Err(io::Error::from(ErrorKind::InvalidInput)),
        }
    }

    fn make(&self, place: &PathBuf, entry: &Entry, modified: Option<u64>) -> io::Result<()> {
        match entry {
            Entry::File(bytes, mode) => {
                write_new(self.rt, place, bytes.as_slice(), *mode, modified)
            }
            Entry::Directory => fs::create_dir(self.rt, place),
            Entry::Link(target) => self.make_link(place, target.as_slice()),
        }
    }

    // Syncs a file or a directory. It is opened for reading, which suffices.
    fn sync(&self, place: &PathBuf) -> io::Result<()> {
        File::open(self.rt, place)?.sync_all()
    }

    fn rename_directory(&self, from: &PathBuf, to: &PathBuf) -> io::Result<()> {
        fs::rename(self.rt, from, to)?;
        self.sync(&self.root)
    }

    // The calls of a step.
    fn call(&self, step: &Step) -> Result<io::Result<()>, AllocError> {
        Ok(match step {
            Step::Make {
                path,
                entry,
                modified,
            } => self.make(&self.place(path)?, entry, *modified),
            Step::SyncFile(path) | Step::SyncDirectory(path) => self.sync(&self.place(path)?),
            Step::Rename { from, to } => {
                fs::rename(self.rt, &self.place(from)?, &self.place(to)?)
            }
            Step::RenameDirectory { from, to } => {
                self.rename_directory(&self.top(from)?, &self.top(to)?)
            }
            Step::RemoveFile(path) => fs::remove_file(self.rt, &self.place(path)?),
            Step::RemoveDirectory(path) => fs::remove_dir(self.rt, &self.place(path)?),
        })
    }

    // What the system knows of an entry, by its own path.
    fn found(&self, place: &PathBuf) -> io::Result<Option<Metadata>> {
        match fs::symlink_metadata(self.rt, place) {
            Ok(found) => Ok(Some(found)),
            Err(error) if is_absent(&error) => Ok(None),
            Err(error) => Err(error),
        }
    }

    /// Whether anything is at a path of the system.
    pub(crate) fn is_there(&self, place: &PathBuf) -> io::Result<bool> {
        Ok(self.found(place)?.is_some())
    }

    fn is_directory(&self, place: &PathBuf) -> io::Result<bool> {
        Ok(match self.found(place)? {
            Some(found) => found.is_dir(),
            None => false,
        })
    }

    fn is_file(&self, place: &PathBuf) -> io::Result<bool> {
        Ok(match self.found(place)? {
            Some(found) => found.is_file(),
            None => false,
        })
    }

    // The system would put a directory in place of an empty one, and would rename a file.
    fn rename_directory_misfit(&self, from: &PathBuf, to: &PathBuf) -> io::Result<Option<Misfit>> {
        if !self.is_directory(from)? {
            return Ok(Some(Misfit::NoDirectory));
        }
        Ok(self.found(to)?.map(|_| Misfit::Taken))
    }

    // Why a step doesn't fit, as far as the system wouldn't refuse it.
    fn misfit(&self, step: &Step) -> Result<io::Result<Option<Misfit>>, AllocError> {
        Ok(match step {
            Step::SyncFile(path) => self
                .is_file(&self.place(path)?)
                .map(|is| if is { None } else { Some(Misfit::NoFile) }),
            Step::SyncDirectory(path) => self
                .is_directory(&self.place(path)?)
                .map(|is| if is { None } else { Some(Misfit::NoDirectory) }),
            Step::Rename { from, .. } => self
                .is_directory(&self.place(from)?)
                .map(|is| if is { Some(Misfit::NoFile) } else { None }),
            Step::RenameDirectory { from, to } => {
                self.rename_directory_misfit(&self.top(from)?, &self.top(to)?)
            }
            Step::Make { .. } | Step::RemoveFile(_) | Step::RemoveDirectory(_) => Ok(None),
        })
    }

    // The entry that was found there.
    fn entry(&self, place: &PathBuf, found: &Metadata) -> io::Result<Entry> {
        if found.is_dir() {
            return Ok(Entry::Directory);
        }
        let alloc = self.rt.alloc();
        if found.is_symlink() {
            let target = fs::read_link(self.rt, place)?;
            return Ok(Entry::Link(Text::from_str(alloc, target.as_str())?));
        }
        // reading anything else, as a pipe, might wait
        if !found.is_file() {
            return Err(io::Error::from(ErrorKind::Unsupported));
        }
        Ok(Entry::File(Text::new(fs::read(self.rt, place)?), mode_of(found)))
    }

    // The checksum of so many bytes of a file.
    fn sum_file(&self, place: &PathBuf, len: u64) -> io::Result<Sha1Sum> {
        let mut file = File::open(self.rt, place)?;
        let mut piece = vec![in self.rt.alloc(); 0u8; PIECE]?;
        let mut hasher = Sha1::new();
        let mut left = len;
        'pieces: while left > 0 {
            let read = file.read(&mut piece)?;
            if read == 0 {
                return Err(io::Error::from(ErrorKind::UnexpectedEof));
            }
            let part = (read as u64).min(left);
            hasher.update(&piece[..part as usize]);
            left -= part;
        }
        Ok(Sha1Sum(hasher.finalize()))
    }

    // The same without its bytes.
    fn summary(&self, place: &PathBuf, found: &Metadata) -> io::Result<Summary> {
        if found.is_file() {
            return Ok(Summary::File {
                len: found.len(),
                sha1: self.sum_file(place, found.len())?,
                mode: mode_of(found),
            });
        }
        Ok(self.entry(place, found)?.summary()?)
    }

    fn summary_at(&self, place: &PathBuf) -> io::Result<Option<Summary>> {
        Ok(match self.found(place)? {
            Some(found) => Some(self.summary(place, &found)?),
            None => None,
        })
    }

    // The texts that are names in a directory. A link to one isn't followed.
    fn texts_in(&self, place: &PathBuf) -> io::Result<Vec<String>> {
        if !self.is_directory(place)? {
            return Err(io::Error::from(ErrorKind::NotADirectory));
        }
        let alloc = self.rt.alloc();
        let mut texts = Vec::new(alloc);
        for entry in fs::read_dir(&self.rt, place)? {
            texts.push(String::from_str(alloc, entry?.file_name())?)?;
        }
        Ok(texts)
    }

    fn entry_at(&self, place: &PathBuf) -> io::Result<Option<Entry>> {
        Ok(match self.found(place)? {
            Some(found) => Some(self.entry(place, &found)?),
            None => None,
        })
    }

    // Takes a step.
    fn try_step(&self, step: Step) -> Result<(), FolderFault> {
        match self.misfit(&step)? {
            Ok(None) => {}
            Ok(Some(misfit)) => return Err(FolderFault::Refused { step, misfit }),
            Err(error) => return Err(FolderFault::Failed { step, error }),
        }
        match self.call(&step)? {
            Ok(()) => Ok(()),
            Err(error) => Err(FolderFault::Failed { step, error }),
        }
    }

    // Opens a file to sync it. It is refused as `try_step` does.
    fn open_file(&self, path: &RelPath) -> Result<File, FolderFault> {
        let step = Step::SyncFile(path.clone()?);
        let place = self.place(path)?;
        match self.is_file(&place) {
            Ok(true) => {}
            Ok(false) => {
                return Err(FolderFault::Refused {
                    step,
                    misfit: Misfit::NoFile,
                });
            }
            Err(error) => return Err(FolderFault::Failed { step, error }),
        }
        match File::open(self.rt, &place) {
            Ok(file) => Ok(file),
            Err(error) => Err(FolderFault::Failed { step, error }),
        }
    }

    // Opens files one after the other, up to the first that can't be opened.
    fn open_share(&self, paths: &[RelPath], files: &mut Vec<Opened>) -> Result<(), FolderFault> {
        for path in paths {
            let file = self.open_file(path)?;
            files.push(Opened {
                path: path.clone()?,
                file,
            })?;
        }
        Ok(())
    }

    // The same, in the shares of the threads that sync them.
    fn open_shares(
        &self,
        paths: &[RelPath],
        shares: &mut Vec<Vec<Opened>>,
    ) -> Result<(), FolderFault> {
        for share in paths.chunks(share_size(paths.len())) {
            let mut files = Vec::new(self.rt.alloc());
            let opened = self.open_share(share, &mut files);
            shares.push(files)?;
            opened?;
        }
        Ok(())
    }

    // Syncs files at once. What couldn't be opened comes after all that were.
    fn sync_batch(&self, paths: &[RelPath]) -> Result<(), FolderFault> {
        let mut shares = Vec::new(self.rt.alloc());
        let opened = self.open_shares(paths, &mut shares);
        match sync_at_once(self.rt, self.rt.alloc(), shares)? {
            Some(fault) => Err(FolderFault::Failed {
                step: Step::SyncFile(fault.path),
                error: fault.error,
            }),
            None => opened,
        }
    }

    // Syncs files, so many at once as may be open.
    fn sync_batches(&self, paths: &[RelPath]) -> Result<(), FolderFault> {
        for batch in paths.chunks(MAX_OPEN) {
            self.sync_batch(batch)?;
        }
        Ok(())
    }
}

impl<T: Files<File = File> + Threads + Locks + AllocGlobal> Folder for DiskFolder<'_, T> {
    fn take(&mut self, step: Step) -> Result<(), FolderFault> {
        self.try_step(step)
    }

    fn make_file<P: Pieces>(
        &mut self,
        alloc: Global,
        path: &RelPath,
        mode: Mode,
        modified: Option<u64>,
        pieces: &mut P,
    ) -> Result<(), FolderFault> {
        match self.write_pieces(&self.place(path)?, mode, modified, pieces) {
            Ok(()) => Ok(()),
            Err(error) => Err(FolderFault::Failed {
                step: make_step(path, Text::new(Vec::new(alloc)), mode, modified)?,
                error,
            }),
        }
    }

    fn copy_file(
        &mut self,
        alloc: Global,
        from: &RelPath,
        to: &RelPath,
        mode: Mode,
        modified: Option<u64>,
    ) -> Result<(), FolderFault> {
        let step = make_step(to, Text::new(Vec::new(alloc)), mode, modified)?;
        let source = self.place(from)?;
        match self.is_file(&source) {
            Ok(true) => {}
            Ok(false) => {
                return Err(FolderFault::Refused {
                    step,
                    misfit: Misfit::NoFile,
                });
            }
            Err(error) => return Err(unread(from, error)?),
        }
        match self.write_copy(&source, &self.place(to)?, mode, modified) {
            Ok(()) => Ok(()),
            Err(error) => Err(FolderFault::Failed { step, error }),
        }
    }

    fn sync_files(&mut self, paths: &[RelPath]) -> Result<(), FolderFault> {
        if paths.is_empty() {
            return Ok(());
        }
        self.sync_batches(paths)
    }

    fn look(&self, _alloc: Global, path: &RelPath) -> Result<Option<Entry>, FolderFault> {
        match self.entry_at(&self.place(path)?) {
            Ok(entry) => Ok(entry),
            Err(error) => Err(unread(path, error)?),
        }
    }

    fn sum(&self, _alloc: Global, path: &RelPath) -> Result<Option<Summary>, FolderFault> {
        match self.summary_at(&self.place(path)?) {
            Ok(summary) => Ok(summary),
            Err(error) => Err(unread(path, error)?),
        }
    }

    fn list(&self, alloc: Global, path: &RelPath) -> Result<Vec<Name>, FolderFault> {
        match self.texts_in(&self.place(path)?) {
            Ok(texts) => Ok(in_order(alloc, names_of(alloc, &texts)?)?),
            Err(error) => Err(unread(path, error)?),
        }
    }

    fn is_locked(&self, path: &RelPath) -> Result<bool, FolderFault> {
        match is_locked_at(self.rt, &self.place(path)?) {
            Ok(is_locked) => Ok(is_locked),
            Err(error) => Err(unread(path, error)?),
        }
    }

    fn lock(&self, path: &RelPath) -> Result<Option<DatabaseLock>, FolderFault> {
        if let Ok(lock) = self.rt.lock(&self.place(path)?) {
            return Ok(lock);
        }
        Ok(if self.is_locked(path)? {
            None
        } else {
            Some(DatabaseLock::none())
        })
    }
}
