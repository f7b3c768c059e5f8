//! The repository paths that an edit gives to nodes.
ghost use Rattle.std.specs.Prelude.{◌≡◌, ◌+◌, ◌<◌, [], ◌∷◌, ◌++◌, length, unwrap_or, IfOk, OnOk};
ghost use Rattle.std.specs.Option.{option_copied};
ghost use Rattle.svn_types.specs.Names.{Path, depth_limit};
ghost use Rattle.svn_types.specs.Paths.{parent, last_name};
ghost use Rattle.svn_model.specs.Nodes.{WorkingCopy, get_in, node_path};
ghost use Rattle.svn_model.specs.Effects.{joined_path, moved_path};
ghost use Rattle.svn_model.specs.Answering.{AnswersCall};
ghost use Rattle.svn_nodes.specs.NodeTests.{Gives, deep_fault};

use crate::memory::or_memory;
use crate::nodes::Nodes;
use std::alloc::{AllocError, Global};
use svn_editor::{EditFault, Mode};
use svn_model::BaseNode;
use svn_types::{MAX_DEPTH, Name, PathFault, RelPath, impossible};

/// The path with one more name. AllocError if an allocation fails, or the path has 128 names, which no path of a repository has.
pub fn child_path(alloc: Global, path: &RelPath, name: &Name) -> Result<RelPath, AllocError>
    ensures path { IfOk result (λ p. p ≡ path.now ++ name.now ∷ []) }
    ensures bounded { OnOk result (length path.now + 1 < depth_limit + 1) }
{
    match path.join(alloc, name) {
        Ok(below) => Ok(below),
        Err(PathFault::Memory) => Err(AllocError),
        // no directory of a repository or of a copy has a path of 128 names
        Err(_) => Err(impossible(AllocError)),
    }
}

/// The path without its last name, the root's being the root. AllocError if an allocation fails.
pub fn parent_path(alloc: Global, path: &RelPath) -> Result<RelPath, AllocError>
    ensures { IfOk result (λ p. p ≡ parent path.now) }
{
    let above = path.parent(alloc)?;
    match above {
        Some(above) => Ok(above),
        None => Ok(RelPath::root(alloc)),
    }
}

// TooDeep for a repository path of that many names, if they are over 64.
fn test_depth(names: usize) -> Result<(), EditFault>
    ensures { (p : Path) → length p ≡ names → AnswersCall (deep_fault p) result }
{
    if names > MAX_DEPTH {
        return Err(EditFault::TooDeep);
    }
    Ok(())
}

// The same of a repository path with the last name of a path after it. That path isn't made.
fn test_last(above: &RelPath, path: &RelPath) -> Result<(), EditFault>
    ensures { AnswersCall (deep_fault (above.now ++ last_name path.now)) result }
{
    test_depth(above.components().len() + usize::from(!path.is_root()))
}

/// TooDeep for a repository path of over 64 names. It takes no memory.
pub fn test_path(path: &RelPath) -> Result<(), EditFault>
    ensures { AnswersCall (deep_fault path.now) result }
{
    test_depth(path.components().len())
}

/// A clone of a repository path. TooDeep for over 64 names; Memory.
pub fn kept(path: &RelPath) -> Result<RelPath, EditFault>
    ensures { Gives (deep_fault path.now) path.now result }
{
    test_path(path)?;
    or_memory(path.clone())
}

// The repository path of the node there. Where none is present it is the root.
fn repos_path<'a>(node: Option<&'a BaseNode>, root: &'a RelPath) -> &'a RelPath
    ensures { root.now ≡ [] → result.now ≡ node_path (option_copied node.entry) }
{
    match node {
        Some(BaseNode::File { repos_path, .. }) => repos_path,
        Some(BaseNode::Dir { repos_path, .. }) => repos_path,
        Some(BaseNode::NotPresent) | None => root,
    }
}

// A repository path with the last name of a path after it. If that is the path itself, a clone shares it.
fn with_last_name(alloc: Global, above: &RelPath, path: &RelPath) -> Result<RelPath, AllocError>
    ensures { IfOk result (λ q. q ≡ above.now ++ last_name path.now) }
{
    match path.components().last() {
        Some(name) => {
            if path.is_child_of(above, name) {
                path.clone()
            } else {
                child_path(alloc, above, name)
            }
        }
        None => above.clone(),
    }
}

/// The repository path that an added node gets: that of the directory above, joined with the name. TooDeep for over 64 names; Memory.
pub fn joined(
    alloc: Global,
    copy: &Nodes,
    above: &RelPath,
    path: &RelPath,
) -> Result<RelPath, EditFault>
    requires { above.now ≡ parent path.now }
    ensures { Gives (deep_fault (joined_path (get_in copy.now.entries) path.now)) (joined_path (get_in copy.now.entries) path.now) result }
{
    let empty = RelPath::root(alloc);
    let above = repos_path(copy.get(above), &empty);
    test_last(above, path)?;
    or_memory(with_last_name(alloc, above, path))
}

/// TooDeep where that path has over 64 names. It isn't made, which would take memory.
pub fn test_joined(
    alloc: Global,
    copy: &Nodes,
    above: &RelPath,
    path: &RelPath,
) -> Result<(), EditFault>
    requires { above.now ≡ parent path.now }
    ensures { AnswersCall (deep_fault (joined_path (get_in copy.now.entries) path.now)) result }
{
    let empty = RelPath::root(alloc);
    test_last(repos_path(copy.get(above), &empty), path)
}

/// TooDeep where the repository path of a node has over 64 names. It isn't cloned: it takes no memory.
pub fn test_standing(alloc: Global, node: Option<&BaseNode>) -> Result<(), EditFault>
    ensures { AnswersCall (deep_fault (node_path (option_copied node.entry))) result }
{
    let empty = RelPath::root(alloc);
    test_path(repos_path(node, &empty))
}

/// The repository path that an added file gets at its close, by the path of the directory above it. Its length was tested when it was added.
/// AllocError if an allocation fails.
pub fn joined_again(
    alloc: Global,
    copy: &Nodes,
    above: &RelPath,
    path: &RelPath,
) -> Result<RelPath, AllocError>
    requires { above.now ≡ parent path.now }
    ensures { IfOk result (λ q. q ≡ joined_path (get_in copy.now.entries) path.now) }
{
    let empty = RelPath::root(alloc);
    with_last_name(alloc, repos_path(copy.get(above), &empty), path)
}

/// The same by the file's path alone, from which the one above is made.
pub fn joined_at(alloc: Global, copy: &Nodes, path: &RelPath) -> Result<RelPath, AllocError>
    ensures { IfOk result (λ q. q ≡ joined_path (get_in copy.now.entries) path.now) }
{
    let above = parent_path(alloc, path)?;
    joined_again(alloc, copy, &above, path)
}

/// The repository path that an opened file gets at its close: nothing where it keeps its own, as in an update, which has no root. Its length was
/// tested when it was opened. AllocError if an allocation fails.
pub fn moved_again(
    alloc: Global,
    mode: &Mode,
    copy: &Nodes,
    path: &RelPath,
) -> Result<Option<RelPath>, AllocError>
    ensures { IfOk result (λ m. (was : Path) → moved_path mode.now (get_in copy.now.entries) path.now was ≡ unwrap_or m was) }
{
    let Mode::SwitchTo(root) = mode else {
        return Ok(None);
    };
    if path.is_root() {
        return Ok(Some(root.clone()?));
    }
    Ok(Some(joined_at(alloc, copy, path)?))
}

/// The same by the path that the file would get if it was added, or by the fault of making that.
pub fn moved_by(
    mode: &Mode,
    path: &RelPath,
    joined: Result<RelPath, AllocError>,
) -> Result<Option<RelPath>, AllocError>
    ensures { (w : WorkingCopy) → IfOk joined (λ j. j ≡ joined_path w path.now) → IfOk result (λ m. (was : Path) → moved_path mode.now w path.now was ≡ unwrap_or m was) }
{
    let Mode::SwitchTo(root) = mode else {
        return Ok(None);
    };
    if path.is_root() {
        return Ok(Some(root.clone()?));
    }
    Ok(Some(joined?))
}
