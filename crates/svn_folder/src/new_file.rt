//! New files of the system, made one by one or many at once.

use crate::at_once::make_at_once;
use crate::entry::Mode;
use std::alloc::AllocError;
use std::fs::{File, FileTimes, OpenFile, OpenOptions};
use std::io;
use std::io::{ErrorKind, Write};
use std::os::unix::fs::OpenOptionsExt;
use std::path::PathBuf;
use std::rt::Files;
use std::thread::Threads;
use std::time::{Duration, SystemTime, UNIX_EPOCH};
use svn_types::{RelPath, Text};

/// Everybody may read.
const READ: u32 = 0o444;

/// Everybody may write, or run it as a program.
const WRITE: u32 = 0o222;

const EXECUTE: u32 = 0o111;

/// A new file, with all its bytes.
#[derive(Drop)]
pub struct NewFile {
    /// Its path in the folder.
    pub path: RelPath,
    /// Its path in the system.
    pub place: PathBuf,
    /// Its bytes.
    pub bytes: Text,
    /// How it may be used.
    pub mode: Mode,
    /// The time that it gets, in microseconds since 1970; that of the call if there is none.
    pub modified: Option<u64>,
}

/// A file that couldn't be made, and what the system says.
#[derive(Drop)]
pub struct Unmade {
    /// The file.
    pub file: NewFile,
    /// The error.
    pub error: io::Error,
}

/// What makes many files of the system at once.
pub trait FileMaker {
    /// Makes each of these files where nothing is: each share of them in a thread of its own, or here where none can be made. The first that can't be made
    /// is returned, and those of its share after it aren't made; none if all are made. AllocError if an allocation fails, and then any of them are made.
    fn make_files<R: Threads>(
        &self,
        threads: &R,
        shares: Vec<Vec<NewFile>>,
    ) -> Result<Option<Unmade>, AllocError>;
}

impl FileMaker for HostRuntime {
    fn make_files<R: Threads>(
        &self,
        threads: &R,
        shares: Vec<Vec<NewFile>>,
    ) -> Result<Option<Unmade>, AllocError> {
        make_at_once(threads, *self, self.alloc(), shares)
    }
}

// The bits of a mode.
fn bits_of(mode: Mode) -> u32 {
    let write = if mode.read_only { 0 } else { WRITE };
    let execute = if mode.executable { EXECUTE } else { 0 };
    READ | write | execute
}

// A time in microseconds since 1970.
fn time_of(micros: u64) -> io::Result<SystemTime> {
    UNIX_EPOCH
        .checked_add(Duration::from_micros(micros))
        .ok_or(io::Error::from(ErrorKind::InvalidInput))
}

/// Makes a file where none is, with the mode that it is to have, and nothing in it.
pub(crate) fn create<T: Files>(rt: &T, place: &PathBuf, mode: Mode) -> io::Result<T::File> {
    let mut options = OpenOptions::new();
    options.write(true).create_new(true).mode(bits_of(mode));
    options.open(rt, place)
}

/// Gives a file the time that it is to have, once all is written.
pub(crate) fn set_time<F: OpenFile>(file: &F, modified: Option<u64>) -> io::Result<()> {
    match modified {
        Some(micros) => file.set_times(FileTimes::new().set_modified(time_of(micros)?)),
        None => Ok(()),
    }
}

/// Makes a file of these bytes.
pub(crate) fn write_new<T: Files<File = File>>(
    rt: &T,
    place: &PathBuf,
    bytes: &[u8],
    mode: Mode,
    modified: Option<u64>,
) -> io::Result<()> {
    let mut file = create(rt, place, mode)?;
    file.write_all(bytes)?;
    set_time(&file, modified)
}

/// Makes files one after the other, up to the first that can't be made.
pub(crate) fn make_share(rt: HostRuntime, files: Vec<NewFile>) -> Option<Unmade> {
    for file in files {
        let bytes = file.bytes.as_slice();
        if let Err(error) = write_new(&rt, &file.place, bytes, file.mode, file.modified) {
            return Some(Unmade { file, error });
        }
    }
    None
}
