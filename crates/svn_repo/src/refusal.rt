//! Why a change can't be made on a draft. These functions take no memory.
ghost use Rattle.std.specs.Prelude.{◌≡◌, ◌+◌, ◌<◌, ◌≤◌, ℕ, length, slice_get, nat_lt, take, IfOk, IfErr, OnOk, Some, None};
ghost use Rattle.std.specs.Option.{option_or, is_some};
ghost use Rattle.svn_types.specs.Names.{depth_limit};
ghost use Rattle.svn_repo.specs.History.{walk};
ghost use Rattle.svn_types.specs.Limits.{path_limit};
ghost use Rattle.svn_repo.specs.Stored.{rows};
ghost use Rattle.svn_types.specs.Paths.{parent};
ghost use Rattle.svn_repo.specs.Drafts.{IsClosedIn, IsFound, IsNear, IsOldPart, IsPast, past_in, tree_in};
ghost use Rattle.svn_repo.specs.Trees.{is_directory_place};
ghost use Rattle.svn_repo.specs.Changes.{above_fault, change_fault, copy_fault, directory_fault_at, file_fault_at, copy_depth_fault, fault_if, depth_fault, size_fault, root_fault, walk_fault, value_fault, pending_in};

use crate::change::{Change, CommitFault};
use crate::entries::NodeId;
use crate::store::{Node, Past, child, kind_at};
use svn_types::{Kind, MAX_DEPTH, MAX_SIZE, Name, Rev, Text};

// A path below a root.
#[derive(Clone, Copy, Debug)]
struct PathBelow<'a> {
    root: NodeId,
    names: &'a [Name],
}

// A path in a revision.
#[derive(Clone, Copy, Debug)]
struct RevPath<'a> {
    rev: Rev,
    names: &'a [Name],
}

// What is at a path: else the fault of the first place above that is missing or no directory.
fn find(nodes: &[Node], root: NodeId, names: &[Name]) -> Result<Option<NodeId>, CommitFault>
    requires root_in { root < length nodes.now }
    requires closed { IsClosedIn nodes.now }
    ensures found { IfOk result (λ at. at ≡ walk (rows nodes.now) root names.now) }
    ensures above { OnOk result ((base : ℕ) → above_fault (tree_in base nodes.now root) names.now ≡ None) }
    ensures fault { IfErr result (λ fault. (base : ℕ) → above_fault (tree_in base nodes.now root) names.now ≡ Some fault) }
{
    let mut at = Some(root);
    for name in names {
        let Some(id) = at else {
            return Err(CommitFault::Missing);
        };
        match nodes[id.index].kind() {
            Kind::File => return Err(CommitFault::NotDir),
            Kind::Directory => at = child(nodes, id, name),
        }
    }
    Ok(at)
}

// As `find`, but from `near`, the node of the directory above, if that was looked up before.
fn find_from(
    nodes: &[Node],
    root: NodeId,
    names: &[Name],
    near: &Option<NodeId>,
) -> Result<Option<NodeId>, CommitFault>
    requires near { IsFound nodes.now root (parent names.now) near.now }
    requires root_in { root < length nodes.now }
    requires closed { IsClosedIn nodes.now }
    ensures found { IfOk result (λ at. at ≡ walk (rows nodes.now) root names.now) }
    ensures above { OnOk result ((base : ℕ) → above_fault (tree_in base nodes.now root) names.now ≡ None) }
    ensures fault { IfErr result (λ fault. (base : ℕ) → above_fault (tree_in base nodes.now root) names.now ≡ Some fault) }
{
    if let (Some(at), Some(name)) = (near, names.last()) {
        if nodes[at.index].kind() == Kind::Directory {
            return Ok(child(nodes, *at, name));
        }
    }
    find(nodes, root, names)
}

// The node at a path where one must be: else the fault of the way there, or that nothing is at its end.
fn find_node(nodes: &[Node], root: NodeId, names: &[Name]) -> Result<NodeId, CommitFault>
    requires root_in { root < length nodes.now }
    requires closed { IsClosedIn nodes.now }
    ensures found { IfOk result (λ node. walk (rows nodes.now) root names.now ≡ Some node) }
    ensures no_fault { OnOk result ((base : ℕ) → walk_fault (tree_in base nodes.now root) names.now ≡ None) }
    ensures fault { IfErr result (λ fault. (base : ℕ) → walk_fault (tree_in base nodes.now root) names.now ≡ Some fault) }
{
    match find(nodes, root, names) {
        Ok(Some(node)) => Ok(node),
        Ok(None) => Err(CommitFault::Missing),
        Err(fault) => Err(fault),
    }
}

fn fault_of_depth(names: &[Name]) -> Option<CommitFault>
    ensures { result ≡ depth_fault names.now }
{
    if names.len() > MAX_DEPTH {
        Some(CommitFault::TooDeep)
    } else {
        None
    }
}

fn fault_of_size(text: &Text) -> Option<CommitFault>
    ensures { result ≡ size_fault text.now }
{
    if text.len() > MAX_SIZE {
        Some(CommitFault::TooLong)
    } else {
        None
    }
}

fn fault_of_root(names: &[Name]) -> Option<CommitFault>
    ensures { result ≡ root_fault names.now }
{
    if names.is_empty() {
        Some(CommitFault::IsRoot)
    } else {
        None
    }
}

fn fault_of_dir(
    nodes: &[Node],
    root: NodeId,
    names: &[Name],
    near: &Option<NodeId>,
) -> Option<CommitFault>
    requires near { IsFound nodes.now root (parent names.now) near.now }
    requires root_in { root < length nodes.now }
    requires closed { IsClosedIn nodes.now }
    ensures { (base : ℕ) → let t = tree_in base nodes.now root in result ≡ option_or (root_fault names.now) (directory_fault_at t names.now) }
{
    if let Some(fault) = fault_of_root(names) {
        return Some(fault);
    }
    match find_from(nodes, root, names, near) {
        Ok(Some(_)) => Some(CommitFault::Exists),
        Ok(None) => fault_of_depth(names),
        Err(fault) => Some(fault),
    }
}

fn fault_of_file(
    nodes: &[Node],
    root: NodeId,
    names: &[Name],
    near: &Option<NodeId>,
    text: &Text,
) -> Option<CommitFault>
    requires near { IsFound nodes.now root (parent names.now) near.now }
    requires root_in { root < length nodes.now }
    requires closed { IsClosedIn nodes.now }
    ensures { (base : ℕ) → let t = tree_in base nodes.now root in result ≡ option_or (root_fault names.now) (option_or (size_fault text.now) (file_fault_at t names.now)) }
{
    if let Some(fault) = fault_of_root(names) {
        return Some(fault);
    }
    if let Some(fault) = fault_of_size(text) {
        return Some(fault);
    }
    let at = match find_from(nodes, root, names, near) {
        Ok(at) => at,
        Err(fault) => return Some(fault),
    };
    if kind_at(nodes, at) == Some(Kind::Directory) {
        return Some(CommitFault::NotFile);
    }
    fault_of_depth(names)
}

fn fault_of_removed(nodes: &[Node], root: NodeId, names: &[Name]) -> Option<CommitFault>
    requires root_in { root < length nodes.now }
    requires closed { IsClosedIn nodes.now }
    ensures { (base : ℕ) → result ≡ option_or (root_fault names.now) (walk_fault (tree_in base nodes.now root) names.now) }
{
    if let Some(fault) = fault_of_root(names) {
        return Some(fault);
    }
    find_node(nodes, root, names).err()
}

fn fault_of_value(value: &Option<Text>) -> Option<CommitFault>
    ensures { result ≡ value_fault value.now }
{
    match value {
        Some(value) => fault_of_size(value),
        None => None,
    }
}

fn fault_of_prop(
    nodes: &[Node],
    root: NodeId,
    names: &[Name],
    near: &Option<NodeId>,
    value: &Option<Text>,
) -> Option<CommitFault>
    requires near { IsFound nodes.now root names.now near.now }
    requires root_in { root < length nodes.now }
    requires closed { IsClosedIn nodes.now }
    ensures { (base : ℕ) → result ≡ option_or (value_fault value.now) (walk_fault (tree_in base nodes.now root) names.now) }
{
    if let Some(fault) = fault_of_value(value) {
        return Some(fault);
    }
    if near.is_some() {
        return None;
    }
    find_node(nodes, root, names).err()
}

// Why a copy of a node can't be put at a path: something below it would be too deep. The height of each old node is known.
fn fault_of_height(heights: &[u8], node: NodeId, names: &[Name]) -> Option<CommitFault>
    requires node_in { node < length heights.now }
    requires depth { length names.now ≤ depth_limit }
    ensures { (k : ℕ) → slice_get heights.now node ≡ Some k → result ≡ fault_if (nat_lt path_limit (length names.now + k)) CommitFault.TooDeep }
{
    if names.len() + heights[node.index] as usize > MAX_DEPTH {
        Some(CommitFault::TooDeep)
    } else {
        None
    }
}

// Why what is at the source, below a root that was before, can't be copied to a path.
fn fault_below_top(
    nodes: &[Node],
    heights: &[u8],
    source: &PathBelow<'_>,
    to: &PathBelow<'_>,
) -> Option<CommitFault>
    requires root_in { to.now.root < length nodes.now }
    requires closed { IsClosedIn nodes.now }
    requires depth { length to.now.names.now ≤ depth_limit }
    requires not_root { root_fault to.now.names.now ≡ None }
    requires top_in { source.now.root < length heights.now }
    requires past { IsOldPart heights.now nodes.now }
    ensures { (base : ℕ) → let t = tree_in base nodes.now to.now.root in let names = to.now.names.now in let top = source.now.root in let from = source.now.names.now in result ≡ option_or (walk_fault (tree_in base nodes.now top) from) (option_or (above_fault t names) (option_or (fault_if (is_some (t names)) CommitFault.Exists) (copy_depth_fault (rows (take (length heights.now) nodes.now)) (walk (rows nodes.now) top from) names))) }
{
    let node = match find_node(nodes, source.root, source.names) {
        Ok(node) => node,
        Err(fault) => return Some(fault),
    };
    match find(nodes, to.root, to.names) {
        Ok(Some(_)) => Some(CommitFault::Exists),
        Ok(None) => fault_of_height(heights, node, to.names),
        Err(fault) => Some(fault),
    }
}

// Why what is at a path of a revision can't be copied to a path.
fn fault_of_copy(
    nodes: &[Node],
    past: &Past<'_>,
    source: &RevPath<'_>,
    to: &PathBelow<'_>,
) -> Option<CommitFault>
    requires root_in { to.now.root < length nodes.now }
    requires closed { IsClosedIn nodes.now }
    requires depth { length to.now.names.now ≤ depth_limit }
    requires past { IsPast past.now.roots.now past.now.heights.now nodes.now }
    ensures { (l : ℕ) → let base = length past.now.heights.now in let names = to.now.names.now in result ≡ option_or (root_fault names) (copy_fault (past_in base past.now.roots.now nodes.now l) (tree_in base nodes.now to.now.root) source.now.rev source.now.names.now names) }
{
    if let Some(fault) = fault_of_root(to.names) {
        return Some(fault);
    }
    let Some(root) = past.roots.get(source.rev) else {
        return Some(CommitFault::NoSuchRevision);
    };
    let names = source.names;
    fault_below_top(nodes, past.heights, &PathBelow { root, names }, to)
}

/// Why a change can't be made on a draft, if it can't. There is a height for each node that was before the draft.
pub(crate) fn fault_of(
    nodes: &[Node],
    past: &Past<'_>,
    root: NodeId,
    change: &Change,
    near: &Option<NodeId>,
) -> Option<CommitFault>
    requires near { IsNear nodes.now root change.now near.now }
    requires root_in { root < length nodes.now }
    requires closed { IsClosedIn nodes.now }
    requires past { IsPast past.now.roots.now past.now.heights.now nodes.now }
    ensures { (l next : ℕ) → let base = length past.now.heights.now in result ≡ change_fault (past_in base past.now.roots.now nodes.now l) (pending_in base nodes.now root next) change.now }
{
    match change {
        Change::MakeDir { path } => fault_of_dir(nodes, root, path.components(), near),
        Change::PutFile { path, text } => fault_of_file(nodes, root, path.components(), near, text),
        Change::SetProp {
            path,
            name: _,
            value,
        } => fault_of_prop(nodes, root, path.components(), near, value),
        Change::Remove { path } => fault_of_removed(nodes, root, path.components()),
        Change::CopyFrom { rev, source, path } => {
            let source = RevPath {
                rev: *rev,
                names: source.components(),
            };
            let names = path.components();
            fault_of_copy(nodes, past, &source, &PathBelow { root, names })
        }
    }
}
