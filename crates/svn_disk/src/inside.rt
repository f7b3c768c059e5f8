//! Steps in the administrative folder.
ghost use Rattle.std.specs.Prelude.{◌≡◌, ◌∷◌, [], true, Some, OnOk};
ghost use Rattle.svn_types.specs.Paths.{is_within};
ghost use Rattle.svn_disk.specs.Goes.{Goes};
ghost use Rattle.svn_disk.specs.Places.{is_inside, is_temporary, temporary_place};
ghost use Rattle.svn_disk.specs.Crashes.{IsAdding};
ghost use Rattle.svn_disk.specs.Ends.{Turns, IsPut, Stays, IsSameBut, CopiesText};

use crate::fault::DiskFault;
use crate::layout::Admin;
use crate::source::Source;
use crate::steps;
use std::alloc::Global;
use svn_folder::{Entry, Folder, Mode};
use svn_types::RelPath;

impl Admin {
    /// Makes an entry.
    pub(crate) fn make<F: Folder>(
        &self,
        folder: &mut F,
        path: RelPath,
        entry: Entry,
    ) -> Result<(), DiskFault>
        requires { is_within (self.now.name ∷ []) path ≡ true }
        ensures steps { Goes (is_inside self.now.name) (F.past folder.old) result (F.past folder.new) }
        ensures ends { OnOk result (Turns (IsPut path (Some entry)) (F.past folder.old) (F.past folder.new)) }
    {
        steps::make(folder, path, entry)
    }

    /// Makes a directory, if nothing is there.
    pub(crate) fn make_directory_if_none<F: Folder>(
        &self,
        alloc: Global,
        folder: &mut F,
        path: &RelPath,
    ) -> Result<(), DiskFault>
        requires { is_within (self.now.name ∷ []) path.now ≡ true }
        ensures adds { IsAdding self.now.name (F.past folder.old) result (F.past folder.new) }
        ensures stays { OnOk result (Turns Stays (F.past folder.old) (F.past folder.new)) }
    {
        steps::make_directory_if_none(alloc, folder, path)
    }

    /// Makes a file of the text that a source has begun, in the folder of what has no name yet.
    pub(crate) fn make_text<F: Folder, S: Source>(
        &self,
        alloc: Global,
        folder: &mut F,
        path: &RelPath,
        mode: Mode,
        source: &mut S,
    ) -> Result<(), DiskFault>
        requires { is_within (temporary_place self.now.name) path.now ≡ true }
        ensures steps { Goes (is_temporary self.now.name) (F.past folder.old) result (F.past folder.new) }
        ensures others { OnOk result (Turns (IsSameBut path.now) (F.past folder.old) (F.past folder.new)) }
    {
        Ok(folder.make_file(alloc, path, mode, None, source)?)
    }

    /// Makes a file with the bytes of another one, in the folder of what has no name yet.
    pub(crate) fn copy_file<F: Folder>(
        &self,
        alloc: Global,
        folder: &mut F,
        from: &RelPath,
        to: &RelPath,
        mode: Mode,
        modified: Option<u64>,
    ) -> Result<(), DiskFault>
        requires { is_within (temporary_place self.now.name) to.now ≡ true }
        ensures steps { Goes (is_temporary self.now.name) (F.past folder.old) result (F.past folder.new) }
        ensures ends { OnOk result (Turns (CopiesText from.now to.now) (F.past folder.old) (F.past folder.new)) }
    {
        Ok(folder.copy_file(alloc, from, to, mode, modified)?)
    }
}
