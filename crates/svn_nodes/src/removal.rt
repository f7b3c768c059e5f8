//! What removes nodes from a copy. Nothing here takes memory.
ghost use Rattle.std.specs.Prelude.{◌≡◌, ◌<◌, true, false, not, IsTrue, IfOk, None, is_some, if◌then◌else◌};
ghost use Rattle.std.specs.List.{list_any};
ghost use Rattle.std.specs.Option.{option_map_or};
ghost use Rattle.arrayvec.specs.ArrayVec.{array_vec_len};
ghost use Rattle.svn_types.specs.Names.{Path};
ghost use Rattle.svn_types.specs.Paths.{path_eq, is_within, is_below};
ghost use Rattle.svn_model.specs.Nodes.{get_in};
ghost use Rattle.svn_nodes.specs.Handfuls.{is_noted};

use crate::nodes::Nodes;
use arrayvec::ArrayVec;
use std::alloc::AllocError;
use std::ops::Bound;
use svn_types::RelPath;

// How many paths are noted at a time. A map's own key can't be borrowed while it is removed, so a clone is noted, which shares its names.
const HANDFUL: usize = 32;

// Where over this part of all nodes are below a path, a pass over all of them costs less than looking up each of those.
const MANY: usize = 4;

/// Whether no node is below a path.
pub(crate) fn has_none_below(nodes: &Nodes, at: &RelPath) -> bool
    ensures { IsTrue result → (p : Path) → is_below at.now p ≡ true → get_in nodes.now.entries p ≡ None }
{
    let mut after = nodes.range((Bound::Excluded(at), Bound::Unbounded));
    match after.next() {
        Some((next, _)) => !next.is_within(at),
        None => true,
    }
}

// Whether over that many nodes are below a path.
fn are_over_below(nodes: &Nodes, path: &RelPath, most: usize) -> bool {
    let mut left = most;
    for (next, _) in nodes.range((Bound::Excluded(path), Bound::Unbounded)) {
        if !next.is_within(path) {
            return false;
        }
        if left == 0 {
            return true;
        }
        left -= 1;
    }
    false
}

// Whether a path isn't below another.
fn stays(path: &RelPath, other: &RelPath) -> bool
    ensures { result ≡ not (is_below path.now other.now) }
{
    path == other || !other.is_within(path)
}

// Removes the nodes below a path in one pass over all nodes.
fn sweep_below(nodes: &mut Nodes, path: &RelPath)
    ensures { (p : Path) → get_in nodes.new.entries p ≡ (if is_below path.now p then None else get_in nodes.old.entries p) }
{
    nodes.retain(|other, _| stays(path, other));
}

/// Removes the nodes at these paths; each is looked up.
pub(crate) fn remove_all(nodes: &mut Nodes, paths: &[RelPath])
    ensures { (p : Path) → get_in nodes.new.entries p ≡ (if list_any (λ q. path_eq q p) paths.now then None else get_in nodes.old.entries p) }
{
    for path in paths {
        nodes.remove(path);
    }
}

// The paths of the nodes below a path, in path order, as many as fit. AllocError where a path has all the shares that can be counted.
fn handful_below(
    nodes: &Nodes,
    path: &RelPath,
) -> Result<ArrayVec<Option<RelPath>, HANDFUL>, AllocError>
    ensures below { IfOk result (λ v. (p : Path) → is_below path.now p ≡ false → is_noted v.items p ≡ false) }
    ensures all { IfOk result (λ v. array_vec_len v < 32 → (p : Path) → is_below path.now p ≡ true → is_noted v.items p ≡ is_some (get_in nodes.now.entries p)) }
{
    let mut paths = ArrayVec::new();
    for (other, _) in nodes.range((Bound::Excluded(path), Bound::Unbounded)) {
        if !other.is_within(path) {
            break;
        }
        if paths.is_full() {
            return Ok(paths);
        }
        paths.push(Some(other.clone()?));
    }
    Ok(paths)
}

// Removes the node at a path, if one is noted.
fn remove_at(nodes: &mut Nodes, place: &Option<RelPath>)
    ensures { (p : Path) → get_in nodes.new.entries p ≡ (if option_map_or (λ q. path_eq q p) place.now false then None else get_in nodes.old.entries p) }
{
    let Some(path) = place else {
        return;
    };
    nodes.remove(path);
}

// Removes the nodes at the paths that are noted.
fn remove_noted(nodes: &mut Nodes, places: &[Option<RelPath>])
    ensures { (p : Path) → get_in nodes.new.entries p ≡ (if is_noted places.now p then None else get_in nodes.old.entries p) }
{
    for place in places {
        remove_at(nodes, place);
    }
}

// Removes the first nodes below a path, and returns whether these were all. AllocError where a path can't be shared; then all stay.
fn remove_handful_below(nodes: &mut Nodes, path: &RelPath) -> Result<bool, AllocError>
    ensures others { (p : Path) → is_below path.now p ≡ false → get_in nodes.new.entries p ≡ get_in nodes.old.entries p }
    ensures all { IfOk result (λ all. IsTrue all → (p : Path) → is_below path.now p ≡ true → get_in nodes.new.entries p ≡ None) }
{
    let paths = handful_below(nodes, path)?;
    remove_noted(nodes, &paths);
    Ok(!paths.is_full())
}

// Removes that many of the nodes below a path, and returns whether these were all.
fn remove_few_below(nodes: &mut Nodes, path: &RelPath, most: usize) -> bool
    ensures others { (p : Path) → is_below path.now p ≡ false → get_in nodes.new.entries p ≡ get_in nodes.old.entries p }
    ensures all { IsTrue result → (p : Path) → is_below path.now p ≡ true → get_in nodes.new.entries p ≡ None }
{
    for _round in 0..=most / HANDFUL {
        match remove_handful_below(nodes, path) {
            Ok(true) => return true,
            Ok(false) => {}
            Err(AllocError) => return false,
        }
    }
    false
}

/// Removes the nodes below a path, at the cost of what goes: each is looked up, or all nodes are gone over where many are below. It never
/// fails.
pub fn remove_below(nodes: &mut Nodes, path: &RelPath)
    ensures { (p : Path) → get_in nodes.new.entries p ≡ (if is_below path.now p then None else get_in nodes.old.entries p) }
{
    if has_none_below(nodes, path) {
        return;
    }
    let few = nodes.len() / MANY;
    if are_over_below(nodes, path, few) || !remove_few_below(nodes, path, few) {
        sweep_below(nodes, path);
    }
}

/// Removes the nodes at a path and below, at the cost of what goes. It never fails.
pub fn delete_within(nodes: &mut Nodes, path: &RelPath)
    ensures { (p : Path) → get_in nodes.new.entries p ≡ (if is_within path.now p then None else get_in nodes.old.entries p) }
{
    remove_below(nodes, path);
    nodes.remove(path);
}
