//! The database of a working copy, read and not written.

use crate::fault::Fault;
use std::alloc::Global;
use std::fs;
use std::fs::File;
use std::io::{ErrorKind, Read};
use std::path::PathBuf;
use std::rt::Files;
use svn_answers::{BusyFault, refuse_journal};

/// How many bytes of a database are compared with it afterwards: its header, where the change counter is.
const HEADER: usize = 100;

/// The files of a database.
#[derive(Drop)]
pub(crate) struct Database {
    file: PathBuf,
    journal: PathBuf,
}

impl Database {
    /// Its file in the folder of a working copy.
    pub(crate) fn file_in(alloc: Global, root: &PathBuf) -> Result<PathBuf, Fault> {
        Ok(root.join(alloc, ".svn/wc.db")?)
    }

    /// That of the working copy in a folder.
    pub(crate) fn of(alloc: Global, root: &PathBuf) -> Result<Database, Fault> {
        Ok(Database {
            file: Database::file_in(alloc, root)?,
            journal: root.join(alloc, ".svn/wc.db-journal")?,
        })
    }

    /// Whether it is there.
    pub(crate) fn exists<T: Files>(&self, rt: &T) -> Result<bool, Fault> {
        match fs::exists(rt, &self.file) {
            Ok(exists) => Ok(exists),
            Err(error) => Err(Fault::Unread(error)),
        }
    }

    // How many bytes its journal has; 0 if it has none.
    fn journal_len<T: Files>(&self, rt: &T) -> Result<u64, Fault> {
        match fs::metadata(rt, &self.journal) {
            Ok(file) => Ok(file.len()),
            Err(error) if error.kind() == ErrorKind::NotFound => Ok(0),
            Err(error) => Err(Fault::Unread(error)),
        }
    }

    /// Reads it, unless a transaction was begun and hasn't ended.
    pub(crate) fn read<T: Files + AllocGlobal>(&self, rt: &T) -> Result<Vec<u8>, Fault> {
        refuse_journal(self.journal_len(rt)?)?;
        match fs::read(rt, &self.file) {
            Ok(bytes) => Ok(bytes),
            Err(error) => Err(Fault::Unread(error)),
        }
    }

    // Whether its header is still that of these bytes.
    fn has_front<T: Files>(&self, rt: &T, bytes: &[u8]) -> Result<bool, Fault> {
        let mut file = match File::open(rt, &self.file) {
            Ok(file) => file,
            Err(error) => return Err(Fault::Unread(error)),
        };
        let mut header = [0u8; HEADER];
        match file.read_exact(&mut header) {
            Ok(()) => Ok(bytes.starts_with(&header)),
            // the reader of the database says what is wrong with one so short
            Err(error) if error.kind() == ErrorKind::UnexpectedEof => Ok(bytes.len() < HEADER),
            Err(error) => Err(Fault::Unread(error)),
        }
    }

    /// Refuses it if a client has changed it since it was read, or is about to.
    pub(crate) fn look_again<T: Files>(&self, rt: &T, bytes: &[u8]) -> Result<(), Fault> {
        if self.journal_len(rt)? > 0 || !self.has_front(rt, bytes)? {
            return Err(Fault::Busy(BusyFault::InUse));
        }
        Ok(())
    }
}
