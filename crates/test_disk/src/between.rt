//! A folder in memory whose copy was brought from one state to another, and each stop of that.

use crate::opaque::Opaque;
use crate::replay::replay;
use crate::stops::look;
use anyhow::{Result, bail};
use std::alloc::Global;
use svn_folder::{Entry, Held, MemoryFolder, SyncedFolder};
use svn_types::RelPath;
use svn_wc::WorkingCopy;
use svn_wcdb::read_base_tree;

const DATABASE: &str = ".svn/wc.db";

/// A folder that a run has left, of which nothing is known.
pub(crate) type Left = SyncedFolder<Opaque<MemoryFolder>>;

/// Two copies, and the folder in which the one was made and brought to the other.
#[derive(Drop)]
pub(crate) struct Between {
    pub(crate) old: WorkingCopy,
    pub(crate) new: WorkingCopy,
    pub(crate) whole: MemoryFolder,
    /// How many of the folder's steps made the old copy.
    pub(crate) made: usize,
}

/// The folder that a run has left, as one of which nothing is known.
pub(crate) fn opened(alloc: Global, folder: MemoryFolder) -> Left {
    SyncedFolder::new(alloc, Opaque(folder))
}

/// The folder in memory in it.
pub(crate) fn memory(folder: Left) -> MemoryFolder {
    let SyncedFolder { folder, .. } = folder;
    folder.0
}

// Whether the bytes are the database of a copy with these nodes alone.
fn is_database(alloc: Global, bytes: &[u8], copy: &WorkingCopy) -> Result<bool> {
    let Ok(tree) = read_base_tree(alloc, bytes) else {
        bail!("the database is refused")
    };
    for (path, node) in &tree.nodes {
        if copy.get(path) != Some(node) {
            return Ok(false);
        }
    }
    Ok(tree.nodes.len() == copy.iter().count())
}

impl Between {
    /// A folder with the old copy, after so many steps on the way to the new one.
    pub(crate) fn stopped(&self, alloc: Global, count: usize) -> Result<MemoryFolder> {
        replay(alloc, self.whole.steps(), self.made.saturating_add(count))
    }

    /// How many steps lead from the one to the other.
    pub(crate) fn steps(&self) -> usize {
        self.whole.steps().len().saturating_sub(self.made)
    }

    // Which of the two copies a database stands for.
    fn word_of_bytes(&self, alloc: Global, bytes: &[u8]) -> Result<&'static str> {
        if is_database(alloc, bytes, &self.old)? {
            return Ok("the old copy");
        }
        if is_database(alloc, bytes, &self.new)? {
            return Ok("the new copy");
        }
        bail!("neither copy")
    }

    /// Which of the two copies a folder has.
    pub(crate) fn word_of(&self, alloc: Global, folder: &MemoryFolder) -> Result<&'static str> {
        match look(alloc, folder, DATABASE)? {
            Some(Entry::File(bytes, _)) => self.word_of_bytes(alloc, bytes.as_slice()),
            _ => bail!("there is no database"),
        }
    }

    // Fails where a loss of power may leave something else than one of the two copies.
    fn check_held(&self, alloc: Global, held: &Held) -> Result<()> {
        match &held.entry {
            Some(Entry::File(bytes, _)) if held.is_synced => {
                self.word_of_bytes(alloc, bytes.as_slice())?;
                Ok(())
            }
            _ => bail!("a crash may leave another database"),
        }
    }

    /// The same after so many steps.
    pub(crate) fn lose_power(&self, alloc: Global, count: usize) -> Result<()> {
        let folder = self.stopped(alloc, count)?;
        let left = folder.left_at(&RelPath::parse(alloc, DATABASE)?)?;
        self.check_held(alloc, &left.now)?;
        for held in &left.older {
            self.check_held(alloc, held)?;
        }
        Ok(())
    }
}
