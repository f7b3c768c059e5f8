//! Steps that belong together.
ghost use Rattle.std.specs.Prelude.{◌≡◌, ◌∷◌, [], ℕ, Bool, List, true, false, Some, None, IfOk, OnOk};
ghost use Rattle.svn_folder.specs.declared.entry.Entry.TheVariants as entry;
ghost use Rattle.svn_folder.specs.declared.step.Step.TheVariants as step;
ghost use Rattle.svn_types.specs.Paths.{is_within};
ghost use Rattle.svn_folder.specs.Files.{is_sync};
ghost use Rattle.svn_folder.specs.States.{seen};
ghost use Rattle.svn_disk.specs.Goes.{Goes, Does, TakesOne, IsAlways};
ghost use Rattle.svn_disk.specs.Crashes.{IsAdding};
ghost use Rattle.svn_disk.specs.Ends.{Turns, IsPut, Stays};
ghost use Rattle.svn_disk.specs.Spared.{GoesIn, Spares};

use crate::fault::DiskFault;
use std::alloc::Global;
use svn_folder::{Entry, Folder, Step};
use svn_types::RelPath;

/// Takes a step.
pub(crate) fn take<F: Folder>(folder: &mut F, step: Step) -> Result<(), DiskFault>
    ensures does { Does (step ∷ []) (F.past folder.old) result (F.past folder.new) }
    ensures one { TakesOne step (F.past folder.old) result (F.past folder.new) }
{
    Ok(folder.take(step)?)
}

/// Takes a step that brings something to the disk, if that is asked for.
#[tactic(auto, using(crate::proofs::Going::keeps_none))]
pub(crate) fn take_if<F: Folder>(folder: &mut F, step: Step, sync: bool) -> Result<(), DiskFault>
    ensures does { Does (step ∷ []) (F.past folder.old) result (F.past folder.new) }
    ensures one { sync ≡ true → TakesOne step (F.past folder.old) result (F.past folder.new) }
{
    if !sync {
        return Ok(());
    }
    take(folder, step)
}

/// Makes an entry, whose time is that of the step.
#[tactic(auto, using(crate::proofs::Going::keeps_more, crate::proofs::Going::stops_more, crate::proofs::Going::stops_there, crate::proofs::Going::stops_none))]
pub(crate) fn make<F: Folder>(folder: &mut F, path: RelPath, entry: Entry) -> Result<(), DiskFault>
    ensures does { Does (step.Make path entry None ∷ []) (F.past folder.old) result (F.past folder.new) }
    ensures one { TakesOne (step.Make path entry None) (F.past folder.old) result (F.past folder.new) }
{
    let modified = None;
    take(
        folder,
        Step::Make {
            path,
            entry,
            modified,
        },
    )
}

// Whether nothing is at a path. InTheWay where something else than a directory is.
fn is_vacant<F: Folder>(alloc: Global, folder: &F, path: &RelPath) -> Result<bool, DiskFault>
    ensures vacant { IfOk result (λ vacant. vacant ≡ true → IsAlways (λ s. seen s path.now ≡ None) (F.past folder.now)) }
    ensures there { IfOk result (λ vacant. vacant ≡ false → IsAlways (λ s. seen s path.now ≡ Some entry.Directory) (F.past folder.now)) }
{
    match folder.look(alloc, path)? {
        None => Ok(true),
        Some(Entry::Directory) => Ok(false),
        Some(_) => Err(DiskFault::InTheWay(path.clone()?)),
    }
}

/// Makes a directory, if nothing is there. InTheWay where something else is.
#[tactic(auto, using(crate::proofs::Going::keeps_more, crate::proofs::Going::stops_more, crate::proofs::Going::stops_there, crate::proofs::Going::stops_none))]
pub(crate) fn make_directory_if_none<F: Folder>(
    alloc: Global,
    folder: &mut F,
    path: &RelPath,
) -> Result<(), DiskFault>
    ensures does { Does (step.Make path.now entry.Directory None ∷ []) (F.past folder.old) result (F.past folder.new) }
    ensures adds { (n : List ℕ) → is_within (n ∷ []) path.now ≡ true → IsAdding n (F.past folder.old) result (F.past folder.new) }
    ensures there { OnOk result (Turns (IsPut path.now (Some entry.Directory)) (F.past folder.old) (F.past folder.new)) }
    ensures stays { OnOk result (Turns Stays (F.past folder.old) (F.past folder.new)) }
    ensures spares { (known : List ℕ → Bool) (n : List ℕ) → GoesIn (Spares known n) (F.past folder.old) result (F.past folder.new) }
{
    if is_vacant(alloc, folder, path)? {
        return make(folder, path.clone()?, Entry::Directory);
    }
    Ok(())
}

/// Removes a file or a link, if one is there.
#[tactic(auto, using(crate::proofs::Going::keeps_more, crate::proofs::Going::stops_more, crate::proofs::Going::stops_there, crate::proofs::Going::stops_none))]
pub(crate) fn remove_if_any<F: Folder>(
    alloc: Global,
    folder: &mut F,
    path: &RelPath,
) -> Result<(), DiskFault>
    ensures { Does (step.RemoveFile path.now ∷ []) (F.past folder.old) result (F.past folder.new) }
{
    match folder.look(alloc, path)? {
        Some(entry) if entry.is_leaf() => take(folder, Step::RemoveFile(path.clone()?)),
        _ => Ok(()),
    }
}

/// Brings the bytes of files to the disk.
pub(crate) fn sync_files<F: Folder>(folder: &mut F, paths: &[RelPath]) -> Result<(), DiskFault>
    ensures { Goes is_sync (F.past folder.old) result (F.past folder.new) }
{
    Ok(folder.sync_files(paths)?)
}

/// Gives a file another path.
#[tactic(auto, using(crate::proofs::Going::keeps_more, crate::proofs::Going::stops_more, crate::proofs::Going::stops_there, crate::proofs::Going::stops_none))]
pub(crate) fn rename<F: Folder>(
    folder: &mut F,
    from: &RelPath,
    to: &RelPath,
) -> Result<(), DiskFault>
    ensures does { Does (step.Rename from.now to.now ∷ []) (F.past folder.old) result (F.past folder.new) }
    ensures one { TakesOne (step.Rename from.now to.now) (F.past folder.old) result (F.past folder.new) }
{
    take(
        folder,
        Step::Rename {
            from: from.clone()?,
            to: to.clone()?,
        },
    )
}
