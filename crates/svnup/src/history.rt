//! The repository that a script begins with.

use std::alloc::Global;
use std::fs::File;
use std::io;
use std::io::Read;
use std::rt::Files;
use svn_dump::{DumpFault, Limits, Reader, Texts};
use svn_history::{LoadFault, Loader, Refusal};
use svn_update::{History, Repo};
use thiserror::Error;

/// Why a repository wasn't loaded from a dump.
#[derive(Debug, Drop, Error)]
pub(crate) enum HistoryFault {
    /// The system doesn't open the file.
    #[error("{0}")]
    Unopened(io::Error),
    /// The file can't be read to its end: where, and why.
    #[error("{0}")]
    Unread(String),
    /// The dump is refused: where, and why.
    #[error("{0}")]
    Refused(String),
    /// An allocation failed.
    #[error("out of memory")]
    Memory,
}

impl HistoryFault {
    /// The exit status that the program gives for it: 2 where the dump is at fault, else 1.
    pub(crate) fn status(&self) -> u8 {
        match self {
            HistoryFault::Refused(_) => 2,
            _ => 1,
        }
    }
}

fn fault_of(alloc: Global, refusal: &Refusal<'_>) -> HistoryFault {
    let Ok(text) = format!(in alloc; "{refusal}") else {
        return HistoryFault::Memory;
    };
    match refusal.fault {
        LoadFault::Memory => HistoryFault::Memory,
        LoadFault::Dump(DumpFault::Read) => HistoryFault::Unread(text),
        _ => HistoryFault::Refused(text),
    }
}

// A dump whose first record is refused.
fn at_front(alloc: Global, fault: DumpFault) -> HistoryFault {
    let refusal = Refusal {
        byte: 0,
        rev: None,
        path: None,
        fault: LoadFault::from(fault),
    };
    fault_of(alloc, &refusal)
}

// The repository of a dump, if all of it can be loaded.
fn loaded<R: Read + Drop>(alloc: Global, loader: Loader<R>) -> Result<Repo, HistoryFault> {
    let mut loader = loader;
    if loader.load_all().is_ok() {
        return Ok(loader.into_repo());
    }
    match loader.refusal() {
        Some(refusal) => Err(fault_of(alloc, &refusal)),
        None => Err(HistoryFault::Memory),
    }
}

fn texts_of(history: &History<'_>) -> Texts {
    if history.whole_texts {
        Texts::Whole
    } else {
        Texts::Sha1
    }
}

/// The repository of a dump, with all of its revisions.
pub(crate) fn load_history<T: Files + AllocGlobal>(
    rt: &T,
    history: &History<'_>,
) -> Result<Repo, HistoryFault> {
    let file = match File::open(rt, history.dump) {
        Ok(file) => file,
        Err(error) => return Err(HistoryFault::Unopened(error)),
    };
    let Ok(repo) = Repo::new(rt.alloc()) else {
        return Err(HistoryFault::Memory);
    };
    match Reader::new(rt.alloc(), file, Limits::default(), texts_of(history)) {
        Ok(records) => loaded(rt.alloc(), Loader::new(rt.alloc(), records, repo)),
        Err(fault) => Err(at_front(rt.alloc(), fault)),
    }
}
