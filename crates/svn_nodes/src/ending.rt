//! What the last call of an edit does to the nodes of a copy.
ghost use Rattle.std.specs.Prelude.{◌≡◌, ◌++◌, Some, IfOk};
ghost use Rattle.std.specs.List.{list_any};
ghost use Rattle.std.specs.Vec.Iter.{into_iter_items};
ghost use Rattle.svn_types.specs.Names.{Path};
ghost use Rattle.svn_editor.specs.declared.mode.Mode.TheVariants.{Update, SwitchTo};
ghost use Rattle.svn_model.specs.Nodes.{get_in, is_present, at_revision};
ghost use Rattle.svn_model.specs.Effects.{settled, is_settled_deep};
ghost use Rattle.svn_nodes.specs.NodeTests.{with_path, moved_paths, settled_next, paths_left};

use crate::nodes::{Nodes, is_present};
use std::alloc::{AllocError, Global};
use std::vec::IntoIter;
use svn_model::BaseNode;
use svn_types::{MAX_DEPTH, PathFault, RelPath, Rev, impossible};

// Gives a present node the revision, and returns whether it is present.
fn settle(node: &mut BaseNode, target: Rev) -> bool
    ensures kept { result ≡ is_present (Some node.old) }
    ensures revised { node.new ≡ at_revision target node.old }
{
    match node {
        BaseNode::File { rev, .. } => {
            *rev = target;
            true
        }
        BaseNode::Dir { rev, .. } => {
            *rev = target;
            true
        }
        BaseNode::NotPresent => false,
    }
}

/// Gives every present node the revision, and removes the others, in one pass. It takes no memory.
pub fn settle_all(nodes: &mut Nodes, target: Rev)
    ensures { (p : Path) → get_in nodes.new.entries p ≡ settled Update target p (get_in nodes.old.entries p) }
{
    nodes.retain(|_, node| settle(node, target));
}

/// Whether the last call of a switch to a root would give a present node a repository path of over 64 names. It takes no memory.
pub fn is_settled_deep(nodes: &Nodes, root: &RelPath) -> bool
    ensures { result ≡ list_any (is_settled_deep (SwitchTo root.now)) nodes.now.entries }
{
    let names = root.components().len();
    for (path, node) in nodes {
        if is_present(Some(node)) && names + path.components().len() > MAX_DEPTH {
            return true;
        }
    }
    false
}

// A path with the names of another after its own.
fn under(alloc: Global, root: &RelPath, path: &RelPath) -> Result<RelPath, AllocError>
    ensures { IfOk result (λ q. q ≡ root.now ++ path.now) }
{
    match root.join_path(alloc, path) {
        Ok(whole) => Ok(whole),
        Err(PathFault::Memory) => Err(AllocError),
        // an edit has called `is_settled_deep` before: no path comes to have over 64 names
        Err(_) => Err(impossible(AllocError)),
    }
}

/// The repository paths that a switch to a root gives the present nodes, in path order. AllocError if an allocation fails, or a path came to
/// have over 128 names.
pub fn moved_paths(alloc: Global, nodes: &Nodes, root: &RelPath) -> Result<Vec<RelPath>, AllocError>
    ensures { IfOk result (λ v. v.items ≡ moved_paths root.now nodes.now.entries) }
{
    let mut moved = Vec::new(alloc);
    for (path, node) in nodes {
        if is_present(Some(node)) {
            moved.push(under(alloc, root, path)?)?;
        }
    }
    Ok(moved)
}

// Gives a node that is present a repository path.
fn set_path(node: &mut BaseNode, moved: RelPath)
    ensures { node.new ≡ with_path moved node.old }
{
    match node {
        BaseNode::File { repos_path, .. } => *repos_path = moved,
        BaseNode::Dir { repos_path, .. } => *repos_path = moved,
        BaseNode::NotPresent => (),
    }
}

// Gives a present node the revision and the next repository path, and returns whether it is present.
fn settle_next(node: &mut BaseNode, target: Rev, moved: &mut IntoIter<RelPath>) -> bool
    ensures kept { result ≡ is_present (Some node.old) }
    ensures settled { node.new ≡ settled_next target (into_iter_items moved.old) node.old }
    ensures left { into_iter_items moved.new ≡ paths_left node.old (into_iter_items moved.old) }
{
    if !settle(node, target) {
        return false;
    }
    if let Some(path) = moved.next() {
        set_path(node, path);
    }
    true
}

/// Gives every present node the revision and the next of these repository paths, and removes the others, in one pass. It takes no memory.
pub fn settle_moved(nodes: &mut Nodes, target: Rev, moved: Vec<RelPath>)
    ensures { (root : Path) → moved.items ≡ moved_paths root nodes.old.entries → (p : Path) → get_in nodes.new.entries p ≡ settled (SwitchTo root) target p (get_in nodes.old.entries p) }
{
    let mut moved = moved.into_iter();
    nodes.retain(|_, node| settle_next(node, target, &mut moved));
}
