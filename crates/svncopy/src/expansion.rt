//! A dump of deltas, expanded into a file in which each text is whole.

use crate::fault::Fault;
use std::alloc::Global;
use std::fs::{File, OpenOptions};
use std::io::{Read, Seek, SeekFrom, Write};
use std::os::unix::fs::OpenOptionsExt;
use std::rt::Files;
use std::{fs, io};
use svn_expand::{ExpandFault, Expander, Origins, Store, StoreFault};
use svn_history::LoadListener;

// What a dump begins with that may have deltas.
const FRONT: &[u8] = b"SVN-fs-dump-format-version: 3\n";

/// The file of an expansion, opened to be written, to be read from its beginning, and to be read at the places of its texts.
#[derive(Drop)]
pub(crate) struct Expansion<R> {
    path: String,
    file: R,
    history: R,
    bases: Bases<R>,
}

/// An expansion that is written.
#[derive(Drop)]
pub(crate) struct Expanded<R> {
    /// The file, at its beginning.
    pub(crate) history: R,
    /// The same file, anywhere.
    pub(crate) texts: R,
    /// Where its records come from.
    pub(crate) origins: Origins,
}

// The texts that were written so far.
#[derive(Drop)]
struct Bases<R> {
    file: R,
}

impl<R: Read + Seek> Store for Bases<R> {
    fn read_at(&mut self, alloc: Global, begin: u64, len: usize) -> Result<Vec<u8>, StoreFault> {
        let Ok(mut bytes) = vec![in alloc; 0u8; len] else {
            return Err(StoreFault::Memory);
        };
        if self.file.seek(SeekFrom::Start(begin)).is_err() {
            return Err(StoreFault::Failed);
        }
        match self.file.read_exact(&mut bytes) {
            Ok(()) => Ok(bytes),
            Err(_) => Err(StoreFault::Failed),
        }
    }
}

/// Whether a dump may have deltas, by its first line. The file is read from its beginning, and is left anywhere.
pub(crate) fn may_have_deltas<R: Read>(input: &mut R) -> bool {
    let mut front = [0u8; 30];
    match input.read_exact(&mut front) {
        Ok(()) => front.as_slice() == FRONT,
        // one that is shorter, or that can't be read, is refused when it is loaded
        Err(_) => false,
    }
}

// Makes a file, opens it for each use, and takes its name away.
fn open_new<T: Files>(rt: &T, path: String) -> io::Result<Expansion<T::File>> {
    let mut options = OpenOptions::new();
    options.write(true).create_new(true).mode(0o600);
    let file = options.open(rt, &path)?;
    let history = File::open(rt, &path);
    let bases = File::open(rt, &path);
    fs::remove_file(rt, &path)?;
    let bases = Bases { file: bases? };
    Ok(Expansion {
        history: history?,
        path,
        file,
        bases,
    })
}

/// Makes the file of an expansion, beside the folder of the copy. Its name goes at once.
pub(crate) fn open_expansion<T: Files + AllocGlobal>(
    rt: &T,
    folder: &str,
) -> Result<Expansion<T::File>, Fault> {
    let path = format!(in rt.alloc(); "{folder}.svncopy-texts")?;
    let named = path.clone()?;
    match open_new(rt, path) {
        Ok(expansion) => Ok(expansion),
        Err(error) => Err(Fault::Kept { path: named, error }),
    }
}

impl<R: Read + Write + Seek + Drop> Expansion<R> {
    // Writes at the end.
    fn append(&mut self, bytes: &[u8]) -> Result<(), Fault> {
        match self.file.write_all(bytes) {
            Ok(()) => Ok(()),
            Err(error) => Err(Fault::Kept {
                path: self.path.clone()?,
                error,
            }),
        }
    }

    // Writes what comes next; whether there was something.
    fn append_next(&mut self, expander: &mut Expander<R>) -> Result<bool, Fault> {
        let next = match expander.next_record(&mut self.bases) {
            Ok(next) => next,
            Err(ExpandFault::Memory) => return Err(Fault::Memory),
            Err(fault) => {
                let byte = expander.records().begun();
                return Err(Fault::Deltas { byte, fault });
            }
        };
        match next {
            Some(bytes) => {
                self.append(&bytes)?;
                Ok(true)
            }
            None => Ok(false),
        }
    }

    // Writes all records.
    fn append_all<L: LoadListener>(
        &mut self,
        expander: &mut Expander<R>,
        listener: &mut L,
    ) -> Result<(), Fault> {
        for _ in 0..u64::MAX {
            if !self.append_next(expander)? {
                return Ok(());
            }
            listener.loaded(expander.rev(), expander.records().begun());
        }
        Ok(())
    }

    /// Expands a dump.
    pub(crate) fn expand<L: LoadListener>(
        self,
        alloc: Global,
        input: R,
        listener: &mut L,
    ) -> Result<Expanded<R>, Fault> {
        let mut expansion = self;
        let mut expander = match Expander::new(alloc, input) {
            Ok(expander) => expander,
            Err(ExpandFault::Memory) => return Err(Fault::Memory),
            Err(fault) => return Err(Fault::Deltas { byte: 0, fault }),
        };
        let Ok(front) = expander.begin() else {
            return Err(Fault::Memory);
        };
        expansion.append(&front)?;
        expansion.append_all(&mut expander, listener)?;
        let Expansion { history, bases, .. } = expansion;
        Ok(Expanded {
            history,
            texts: bases.file,
            origins: expander.into_origins(),
        })
    }
}
