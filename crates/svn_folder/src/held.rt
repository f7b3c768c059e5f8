//! What a name may stand for on the disk.
ghost use Rattle.std.specs.Prelude.{◌≡◌, IfOk};
ghost use Rattle.svn_folder.specs.States.{nothing, fresh};

use crate::entry::Entry;
use std::alloc::AllocError;

/// What a name may stand for on the disk, and so after a crash.
#[derive(Debug, PartialEq, Eq, Drop)]
pub struct Held {
    /// The entry, none if the name stands for nothing.
    pub entry: Option<Entry>,
    /// Whether its bytes are on the disk. If not, a crash may leave any file in its place. What has no bytes is always synced.
    pub is_synced: bool,
}

/// What a path stands for, and what it stood for before, the oldest first, as long as its name on the disk may still stand for that: a crash leaves
/// one of these.
#[derive(Debug, Drop)]
pub struct Left {
    /// What it stands for now.
    pub now: Held,
    /// What it stood for before.
    pub older: Vec<Held>,
}

impl Held {
    /// A name that stands for nothing.
    pub(crate) fn nothing() -> Held
        ensures { result ≡ nothing }
    {
        Held {
            entry: None,
            is_synced: true,
        }
    }

    /// An entry that was just made.
    pub(crate) fn fresh(entry: &Entry) -> Result<Held, AllocError>
        ensures { IfOk result (λ held. held ≡ fresh entry.now) }
    {
        Ok(Held {
            is_synced: !entry.is_file(),
            entry: Some(entry.clone()?),
        })
    }
}
