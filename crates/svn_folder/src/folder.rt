//! A folder on disk: what it shows, what can be done to it, and what a crash may leave of it.

use crate::database_lock::DatabaseLock;
use crate::entry::{Entry, Mode};
use crate::fault::{FolderFault, Misfit};
use crate::pieces::{Pieces, all_of};
use crate::step::{Step, make_step};
use crate::summary::Summary;
use std::alloc::Global;
use svn_types::{Name, RelPath, Text};

/// A folder on disk. Its paths begin in it: the root is the folder itself.
///
/// A contract sees the steps that it has taken (`past`), and `specs/Pasts.antt` what it shows and what a crash at any moment of these steps may
/// leave. Where that isn't known, as of a folder of the system, no clause says anything.
pub trait Folder {
    ghost use Rattle.std.specs.Prelude.{IfOk, OnOk};
    ghost use Rattle.svn_folder.specs.Pasts.{Past, Unknown, Takes, Shows};
    ghost use Rattle.svn_folder.specs.Summaries.{Sums, Lists};
    ghost use Rattle.svn_folder.specs.Files.{MakesFile, CopiesFile, TakesAll, file_syncs};

    /// The steps that it has taken since some state; by default they aren't known.
    ghost past: { Self → Past } = { λ _. Unknown };

    /// Takes a step. `Refused` if it doesn't fit what is there, `Stopped` if the folder takes no more, `Memory` if an allocation fails: these
    /// change nothing. `Failed` if the system fails: the step was taken, or it wasn't, or in part.
    fn take(&mut self, step: Step) -> Result<(), FolderFault>
        ensures { Takes step (past self.old) result (past self.new) };

    /// What is at a path, with all bytes of a file; none if nothing is there. `Unread` if the system fails, `Memory` if an allocation fails.
    fn look(&self, alloc: Global, path: &RelPath) -> Result<Option<Entry>, FolderFault>
        ensures { IfOk result (Shows (past self.now) path.now) };

    /// The same without the bytes of a file: its length and its SHA-1 checksum. A file of the system isn't held in memory.
    fn sum(&self, alloc: Global, path: &RelPath) -> Result<Option<Summary>, FolderFault>
        ensures { IfOk result (Sums (past self.now) path.now) };

    /// The names in a directory, in byte order. `Unread` if no directory is there, or the system fails, `Path` if a name in it is none that a path
    /// may have, `Memory` if an allocation fails.
    fn list(&self, alloc: Global, path: &RelPath) -> Result<Vec<Name>, FolderFault>
        ensures { IfOk result (λ names. Lists (past self.now) path.now names.items) };

    /// Whether a program has locked a part of the file at a path to write there, as SQLite does with its databases. By default, and where the system
    /// doesn't tell, none has. `Unread` if the system fails, `Memory` if an allocation fails.
    fn is_locked(&self, _path: &RelPath) -> Result<bool, FolderFault> {
        Ok(false)
    }

    /// Locks the database at a path as SQLite does, so that no program that uses SQLite reads or writes it until the lock is dropped; none where one is in
    /// the middle of that. Where the folder has no such locks, as by default, the lock keeps nobody from anything, and none is returned where `is_locked`
    /// says so. `Unread` if the system fails, `Memory` if an allocation fails.
    fn lock(&self, path: &RelPath) -> Result<Option<DatabaseLock>, FolderFault> {
        Ok(if self.is_locked(path)? {
            None
        } else {
            Some(DatabaseLock::none())
        })
    }

    /// Makes a file of all pieces that come, where nothing is: the step `Make`, with the time that it gets as there. A folder of the system writes each
    /// piece as it comes. An error may leave any part of the pieces as given.
    fn make_file<P: Pieces>(
        &mut self,
        alloc: Global,
        path: &RelPath,
        mode: Mode,
        modified: Option<u64>,
        pieces: &mut P,
    ) -> Result<(), FolderFault>
        ensures made { MakesFile path.now mode modified (P.given pieces.old) (P.given pieces.new) (past self.old) result (past self.new) }
        ensures over { OnOk result (P.is_over pieces.new) }
    {
        let bytes = all_of(alloc, pieces)?;
        self.take(make_step(path, bytes, mode, modified)?)
    }

    /// Makes a file with the bytes of another one, where nothing is: the step `Make`. `Refused`, with `NoFile`, if the other one is no file, and
    /// `Unread` if it can't be read; the step that an error names may lack the bytes.
    fn copy_file(
        &mut self,
        alloc: Global,
        from: &RelPath,
        to: &RelPath,
        mode: Mode,
        modified: Option<u64>,
    ) -> Result<(), FolderFault>
        ensures { CopiesFile from.now to.now mode modified (past self.old) result (past self.new) }
    {
        let Some(Entry::File(bytes, _)) = self.look(alloc, from)? else {
            return Err(FolderFault::Refused {
                step: make_step(to, Text::new(Vec::new(alloc)), mode, modified)?,
                misfit: Misfit::NoFile,
            });
        };
        self.take(make_step(to, bytes, mode, modified)?)
    }

    /// Brings the bytes of files to the disk: the step `SyncFile` of each path, in their order, up to the first that isn't taken. A folder of the
    /// system syncs several at a time, and after an error those after the path that it names may be synced too.
    fn sync_files(&mut self, paths: &[RelPath]) -> Result<(), FolderFault>
        ensures { TakesAll (file_syncs paths.now) (past self.old) result (past self.new) }
    {
        let mut rest = paths;
        'paths: while let Some((path, after)) = rest.split_first() {
            self.take(Step::SyncFile(path.clone()?))?;
            rest = after;
        }
        Ok(())
    }
}
