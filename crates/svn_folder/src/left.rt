//! What a crash may leave at a path of a folder in memory.
ghost use Rattle.std.specs.Prelude.{◌≡◌, ◌⊎◌, [], false, if◌then◌else◌, IfOk, IsTrue, MatchOption};
ghost use Rattle.svn_types.specs.Paths.{path_eq};
ghost use Rattle.svn_folder.specs.States.{Place, State, empty, nothing, fresh, vacant, with_name, becomes};
ghost use Rattle.svn_folder.specs.Steps.{put, sync_file, sync_directory, is_in, moved, after, run};
ghost use Rattle.svn_folder.specs.Memory.{IsPlace};

use crate::entry::Entry;
use crate::held::{Held, Left};
use crate::memory::under;
use crate::step::Step;
use std::alloc::{AllocError, Global};
use svn_types::{Name, PathFault, RelPath};

// At a path that has always stood for this.
fn always(alloc: Global, held: Held) -> Left
    ensures { IsPlace (record { now = held; older = [] }) result }
{
    Left {
        now: held,
        older: Vec::new(alloc),
    }
}

// In an empty folder.
fn at_first(alloc: Global, path: &RelPath) -> Left
    ensures { IsPlace (empty path.now) result }
{
    if path.is_root() {
        let root = Held {
            entry: Some(Entry::Directory),
            is_synced: true,
        };
        return always(alloc, root);
    }
    always(alloc, Held::nothing())
}

// Once it stands for something else.
fn newer(held: Held, left: Left) -> Result<Left, AllocError>
    ensures { IfOk result (λ l. (place : Place) → IsPlace place left → IsPlace (becomes held place) l) }
{
    let Left { now, mut older } = left;
    older.push(now)?;
    Ok(Left { now: held, older })
}

// Once an entry is made somewhere.
fn made(at: &RelPath, entry: &Entry, path: &RelPath, left: Left) -> Result<Left, AllocError>
    ensures { IfOk result (λ l. (s : State) → IsPlace (s path.now) left → IsPlace (put at.now (fresh entry.now) s path.now) l) }
{
    if at == path {
        return newer(Held::fresh(entry)?, left);
    }
    Ok(left)
}

// Once nothing is somewhere.
fn removed(at: &RelPath, path: &RelPath, left: Left) -> Result<Left, AllocError>
    ensures { IfOk result (λ l. (s : State) → IsPlace (s path.now) left → IsPlace (put at.now nothing s path.now) l) }
{
    if at == path {
        return newer(Held::nothing(), left);
    }
    Ok(left)
}

// Once the bytes of a file are synced.
fn synced(at: &RelPath, path: &RelPath, left: Left) -> Left
    ensures { (s : State) → IsPlace (s path.now) left → IsPlace (sync_file at.now s path.now) result }
{
    if at != path {
        return left;
    }
    let Left { now, older } = left;
    Left {
        now: Held {
            entry: now.entry,
            is_synced: true,
        },
        older,
    }
}

// Once its name is synced, if it is.
fn named(alloc: Global, counts: bool, left: Left) -> Left
    ensures { (place : Place) → IsPlace place left → IsPlace (if counts then with_name place else place) result }
{
    if counts {
        return always(alloc, left.now);
    }
    left
}

// Whether a path is that of something in a directory.
fn is_inside(alloc: Global, directory: &RelPath, path: &RelPath) -> Result<bool, AllocError>
    ensures { IfOk result (λ b. b ≡ is_in directory.now path.now) }
{
    Ok(match path.parent(alloc)? {
        Some(parent) => parent == *directory,
        None => false,
    })
}

// Whether a path stands for the same once the names in a directory are synced: it isn't in it, or its name is on the disk already.
fn is_settled(
    alloc: Global,
    directory: &RelPath,
    path: &RelPath,
    left: &Left,
) -> Result<bool, AllocError>
    ensures { IfOk result (λ b. IsTrue b → (left.entry.now.older.items ≡ []) ⊎ (is_in directory.now path.now ≡ false)) }
{
    if left.older.is_empty() {
        return Ok(true);
    }
    Ok(!is_inside(alloc, directory, path)?)
}

// Once the names in a directory are synced, if its own name is.
fn directory_synced(
    alloc: Global,
    at: &RelPath,
    path: &RelPath,
    directory: &Left,
    left: Left,
) -> Result<Left, AllocError>
    ensures { IfOk result (λ l. (s : State) → IsPlace (s at.now) directory.entry.now → IsPlace (s path.now) left → IsPlace (sync_directory at.now s path.now) l) }
{
    let counts = is_inside(alloc, at, path)? && directory.older.is_empty();
    Ok(named(alloc, counts, left))
}

fn is_other(one: &RelPath, path: &RelPath) -> bool
    ensures { IsTrue result → path_eq one.now path.now ≡ false }
{
    one != path
}

// Once a file has another path.
fn renamed(
    from: &RelPath,
    to: &RelPath,
    path: &RelPath,
    source: Left,
    left: Left,
) -> Result<Left, AllocError>
    ensures { IfOk result (λ l. (s : State) → IsPlace (s from.now) source → IsPlace (s path.now) left → IsPlace (after (Step.Rename from.now to.now) s path.now) l) }
{
    let left = removed(from, path, left)?;
    if to == path {
        return newer(source.now, left);
    }
    Ok(left)
}

// Where what is at a path was before a directory was renamed, none if nothing is there.
fn before_rename(
    alloc: Global,
    from: &Name,
    to: &Name,
    path: &RelPath,
) -> Result<Option<RelPath>, PathFault>
    ensures { IfOk result (λ o. (s : State) → MatchOption o (moved from.now to.now s path.now ≡ vacant) (λ q. moved from.now to.now s path.now ≡ s q)) }
{
    let Some(first) = path.components().first() else {
        return Ok(Some(path.clone()?));
    };
    if from == first {
        return Ok(None);
    }
    if to == first {
        return Ok(Some(under(alloc, from, path)?));
    }
    Ok(Some(path.clone()?))
}

/// What the name at a path may stand for after these steps, beginning with nothing. It looks at another path only where that decides: at the source
/// of a rename to this path, and at its directory if that is synced while the name at this path isn't on the disk. So its time mostly grows with the
/// number of steps alone.
pub(crate) fn left_at(alloc: Global, steps: &[Step], path: &RelPath) -> Result<Left, PathFault>
    ensures { IfOk result (IsPlace (run empty steps.now path.now)) }
{
    let Some((step, before)) = steps.split_last() else {
        return Ok(at_first(alloc, path));
    };
    match step {
        Step::Make {
            path: at,
            entry,
            ..
        } => Ok(made(at, entry, path, left_at(alloc, before, path)?)?),
        Step::SyncFile(at) => Ok(synced(at, path, left_at(alloc, before, path)?)),
        Step::SyncDirectory(at) => {
            let left = left_at(alloc, before, path)?;
            if is_settled(alloc, at, path, &left)? {
                return Ok(left);
            }
            let directory = left_at(alloc, before, at)?;
            Ok(directory_synced(alloc, at, path, &directory, left)?)
        }
        Step::Rename { from, to } => {
            let left = left_at(alloc, before, path)?;
            if is_other(to, path) {
                return Ok(removed(from, path, left)?);
            }
            let source = left_at(alloc, before, from)?;
            Ok(renamed(from, to, path, source, left)?)
        }
        Step::RenameDirectory { from, to } => {
            let Some(origin) = before_rename(alloc, from, to, path)? else {
                return Ok(always(alloc, Held::nothing()));
            };
            let left = left_at(alloc, before, &origin)?;
            let root = RelPath::root(alloc);
            if is_settled(alloc, &root, path, &left)? {
                return Ok(left);
            }
            let directory = left_at(alloc, before, &root)?;
            Ok(directory_synced(alloc, &root, path, &directory, left)?)
        }
        Step::RemoveFile(at) => Ok(removed(at, path, left_at(alloc, before, path)?)?),
        Step::RemoveDirectory(at) => Ok(removed(at, path, left_at(alloc, before, path)?)?),
    }
}
