//! A dump that is loaded in a thread of its own, beside the copy that is read: each takes about as long as the other.

use crate::dump::{History, open};
use crate::fault::Fault;
use crate::progress::Progress;
use std::fs::File;
use std::path::PathBuf;
use std::rt::{Clock, Files};
use std::thread;
use std::thread::{JoinHandle, Threads};

/// Which dump is loaded, and how.
#[derive(Drop)]
pub(crate) struct Load {
    /// The dump, `-` for standard input.
    pub(crate) dump: String,
    /// The folder of the copy, beside which what is kept of the dump lies.
    pub(crate) beside: PathBuf,
    /// Whether to print how far it is.
    pub(crate) progress: bool,
}

/// The history of a dump, and the file of its texts.
pub(crate) type Loaded = Result<(History, File), Fault>;

/// A dump that is being loaded: a thread does it, or it was done here.
#[derive(Drop)]
pub(crate) enum Loading {
    Running(JoinHandle<Loaded>),
    Ended(Loaded),
}

// Opens a dump, and loads it.
fn load_dump<T: Files<File = File> + Input + Eprint + Clock + AllocGlobal>(
    rt: &T,
    what: &Load,
) -> Loaded {
    let dump = open(rt, what.dump.as_str(), what.beside.as_str())?;
    let mut progress = Progress::begin(rt, what.progress);
    dump.load(rt.alloc(), &mut progress)
}

impl Loading {
    /// Waits until the dump is loaded.
    pub(crate) fn end<R: Threads>(self, threads: &R) -> Loaded {
        match self {
            Loading::Running(thread) => thread.join(threads),
            Loading::Ended(loaded) => loaded,
        }
    }
}

/// What loads a dump beside other work.
pub(crate) trait LoadBeside {
    /// Begins to load a dump in a thread of its own; where none can be made, it is loaded here.
    fn begin_load<R: Threads>(&self, threads: &R, what: Load) -> Loading;
}

impl LoadBeside for HostRuntime {
    fn begin_load<R: Threads>(&self, threads: &R, what: Load) -> Loading {
        let system = *self;
        match thread::spawn(threads, move || load_dump(&system, &what)) {
            Ok(thread) => Loading::Running(thread),
            Err(refused) => Loading::Ended((refused.value)()),
        }
    }
}
