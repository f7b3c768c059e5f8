//! SQLite's lock on a database.

use sqlite_disk::Files;
use sqlite_std_file::{File, OpenError, Unknown};
use std::path::PathBuf;
use std::{fs, io};

/// How often it is tried to take a lock that a program has. A try takes some hundredths of a millisecond.
const TRIES: usize = 20_000;

/// Keeps each program that uses SQLite from a database, from reading it too, until it is dropped; or keeps nobody from anything, where there are no such
/// locks.
#[derive(Drop)]
pub struct DatabaseLock {
    // The open files of the database and of its log.
    files: Option<Files<File>>,
}

impl DatabaseLock {
    /// Keeps nobody from anything.
    pub fn none() -> DatabaseLock {
        DatabaseLock { files: None }
    }

    /// Whether it keeps anybody from anything.
    pub fn is_held(&self) -> bool {
        self.files.is_some()
    }
}

/// What takes SQLite's locks on files of the system.
pub trait Locks {
    /// Locks the database at a path, as SQLite does before it writes its pages: the lock is one of Linux's on parts of the open file. None where another
    /// program has it open within a transaction, and doesn't end that within some tenths of a second. An error of the system where it has no such locks, or
    /// the file may not be written.
    fn lock(&self, place: &PathBuf) -> io::Result<Option<DatabaseLock>>;
}

// Whether a file of SQLite's log would be a new one, or has nothing in it.
fn is_without_log(rt: &HostRuntime, log: &str) -> bool {
    match fs::metadata(rt, log) {
        Ok(found) => found.len() == 0,
        Err(_) => true,
    }
}

// Takes the lock, once.
fn try_lock(rt: &HostRuntime, place: &str) -> io::Result<Option<DatabaseLock>> {
    match sqlite_std_file::open(rt, place, Unknown) {
        Ok(files) => Ok(Some(DatabaseLock { files: Some(files) })),
        Err(OpenError::Busy | OpenError::HotJournal) => Ok(None),
        Err(OpenError::OutOfMemory) => Err(io::Error::from(io::ErrorKind::OutOfMemory)),
        Err(OpenError::Io(error)) => Err(error),
    }
}

// Takes it as soon as others end what they do.
fn lock_in_turn(rt: &HostRuntime, place: &str) -> io::Result<Option<DatabaseLock>> {
    for _ in 0..TRIES {
        if let Some(lock) = try_lock(rt, place)? {
            return Ok(Some(lock));
        }
    }
    Ok(None)
}

impl Locks for HostRuntime {
    fn lock(&self, place: &PathBuf) -> io::Result<Option<DatabaseLock>> {
        // one that isn't there would be made
        if !fs::exists(self, place)? {
            return Ok(Some(DatabaseLock::none()));
        }
        let log = format!(in self.alloc(); "{}-wal", place.as_str())?;
        let is_without = is_without_log(self, log.as_str());
        let lock = lock_in_turn(self, place.as_str())?;
        // the library makes a log, which a database of Subversion has none of
        if is_without && lock.is_some() {
            let _ = fs::remove_file(self, log.as_str());
        }
        Ok(lock)
    }
}
