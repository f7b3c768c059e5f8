//! A folder on disk: the steps that change it, what it shows, and what a crash at any moment may leave of it. It is what a working copy is written
//! through, so that whoever writes can prove that a cut leaves the old one or the new one.
//!
//! ```
//! let path = RelPath::parse(alloc, "notes")?;
//! let new = RelPath::parse(alloc, "notes.new")?;
//! folder.take(Step::Make { path: new.clone()?, entry: Entry::File(text, Mode::PLAIN), modified: None })?;
//! folder.take(Step::SyncFile(new.clone()?))?;
//! folder.take(Step::Rename { from: new, to: path })?;
//! folder.take(Step::SyncDirectory(RelPath::root(alloc)))?;
//! ```
//!
//! A [`Folder`] takes [`Step`]s, one by one, shows the [`Entry`] at a path, or its [`Summary`] without the bytes of a file, and lists a directory. Here
//! are [`MemoryFolder`], on which tests run, [`DiskFolder`], a folder of the system, [`StoppedFolder`], which takes so many steps of another one and
//! refuses all after them, and [`SyncedFolder`], which keeps what of another one isn't on the disk yet. [`WriteBehind`] is a folder of the system for
//! whoever makes many files: they wait in memory until some hundreds are written at once, in several threads.
//!
//! A folder also makes a file of [`Pieces`] that come one by one, makes one with the bytes of another, and syncs several files: each has the contract of
//! the steps that it stands for. A folder of the system then holds no text in memory, and syncs in several threads. [`SyncedFolder::sync_all`] brings
//! all to the disk that isn't there yet. [`Folder::is_locked`] tells whether another program is about to write to a file, and
//! [`Folder::lock`] keeps programs that use SQLite from a database.
//!
//! Definitions, in the order of reading: `specs/Entries.antt` and `States.antt` (what a path stands for, and what of it is on the disk), `Steps.antt` (when
//! a step fits, and what it does), `Crashes.antt` (what a crash may leave, and what that assumes of a disk), `Pasts.antt` (what is known of a folder, and
//! what a crash since a moment may have left), `Summaries.antt`, `Files.antt` (files in pieces, copies, several steps), `Syncing.antt` (what
//! isn't on the disk yet), `Laws.antt`.
//!
//! Promises: a step that is taken fitted, and is the next of those that the folder has taken; one that is refused changed nothing; after one that the
//! system failed at, nothing more is promised than what a crash may leave (`Takes`). What is shown, summed and listed is what these steps leave (`Shows`,
//! `Sums`, `Lists`). A folder in memory refuses a step only if it doesn't fit (`refused`). One that has stopped stays as it was (`stopped`). If
//! `is_synced` of a folder that keeps this is true, all of it is on the disk (`IsSyncedPast`). Of a folder of the system no contract speaks (`disk.rt`
//! says what is trusted). The laws, which callers use, are in `laws`: what is on the disk with all of its way stays there, also while steps are taken
//! that are apart from it; a synced file takes the place of another at once; a crash during some steps and more is one during either; once all of a
//! folder is on the disk, a crash leaves what it shows.
//!
//! The tests are in `test_folder`.
#![tactic(auto)]

mod at_once;
mod database_lock;
mod disk;
mod entry;
mod fault;
mod folder;
mod held;
mod laws;
mod left;
mod listing;
mod locks;
mod memory;
mod new_file;
mod pieces;
mod step;
mod stopped;
mod summary;
mod synced;
mod unsynced;
mod write_behind;

pub use database_lock::{DatabaseLock, Locks};
pub use disk::DiskFolder;
pub use entry::{Entry, Mode};
pub use fault::{FolderFault, Misfit};
pub use folder::Folder;
pub use held::{Held, Left};
pub use laws::{
    a_file_is_replaced_at_once, a_synced_folder_stays, an_empty_folder_is_synced,
    steps_apart_change_nothing, steps_are_joined, what_is_shown_may_be_left, what_is_synced_stays,
    what_is_synced_stays_meanwhile,
};
pub use memory::MemoryFolder;
pub use new_file::{FileMaker, NewFile, Unmade};
pub use pieces::{BytePieces, Pieces};
pub use step::Step;
pub use stopped::StoppedFolder;
pub use summary::Summary;
pub use synced::SyncedFolder;
pub use write_behind::WriteBehind;
