//! Copies made of lists of nodes, which are sorted by their paths for it. What is wrong with a list is found without memory, so that Memory
//! never hides a fault.
ghost use Rattle.std.specs.Prelude.{◌≡◌, IfOk, IfErr, OnOk, Some, None, take};
ghost use Rattle.std.specs.List.{list_any};
ghost use Rattle.svn_types.specs.Names.{Path};
ghost use Rattle.svn_types.specs.Paths.{parent};
ghost use Rattle.svn_model.specs.Nodes.{get_in, is_dir};
ghost use Rattle.svn_model.specs.Refusals.{is_of, has_twice, is_orphan, is_node_too_deep, nodes_fault};
ghost use Rattle.law_copy.specs.CopyLaws.{AllEndNamed};
ghost use Rattle.svn_wc.specs.Building.{Refuses};
ghost use Rattle.svn_wc.specs.Listed.{IsSorted, IsSearchable};

use crate::building::is_too_deep;
use crate::known::Known;
use crate::paths::{compare_above, last_name_allowed};
use crate::working_copy::WorkingCopy;
use law_copy::nodes_make_a_copy;
use std::alloc::Global;
use svn_model::{BaseNode, WcFault};
use svn_nodes::gather::map_of;
use svn_types::RelPath;

// The last name of each path is an allowed one.
fn last_names_allowed(nodes: &[(RelPath, BaseNode)])
    ensures { AllEndNamed nodes.now }
{
    let mut rest = nodes;
    'nodes: while let Some((first, after)) = rest.split_first() {
        last_name_allowed(&first.0);
        rest = after;
    }
}

// The nodes in the order of their paths. It takes no memory.
fn sorted(mut nodes: Vec<(RelPath, BaseNode)>) -> Vec<(RelPath, BaseNode)>
    ensures sorted { IsSorted result.items }
    ensures fault { nodes_fault result.items ≡ nodes_fault nodes.items }
    ensures nodes { nodes_fault nodes.items ≡ None → (p : Path) → get_in result.items p ≡ get_in nodes.items p }
{
    nodes.sort_unstable_by(|one, other| one.0.cmp(&other.0));
    nodes
}

// Whether the first of the nodes has that path.
fn begins_with(nodes: &[(RelPath, BaseNode)], path: &RelPath) -> bool
    ensures { result ≡ list_any (is_of path.now) (take 1 nodes.now) }
{
    match nodes.first() {
        Some(node) => path == &node.0,
        None => false,
    }
}

// Whether two of the nodes have the same path: then two neighbours do.
fn has_twice(nodes: &[(RelPath, BaseNode)]) -> bool
    requires { IsSorted nodes.now }
    ensures { result ≡ has_twice nodes.now }
{
    let mut rest = nodes;
    'nodes: while let Some((first, after)) = rest.split_first() {
        if begins_with(after, &first.0) {
            return true;
        }
        rest = after;
    }
    false
}

// Whether the nodes have a directory at the path above another; above the root is the root.
fn has_above(nodes: &[(RelPath, BaseNode)], path: &RelPath) -> bool
    requires { IsSearchable nodes.now }
    ensures { result ≡ is_dir (get_in nodes.now (parent path.now)) }
{
    match nodes.binary_search_by(|node| compare_above(&node.0, path)) {
        Ok(place) => nodes[place].1.is_directory(),
        Err(_) => false,
    }
}

// Whether one of some nodes has no directory above it among all.
fn has_orphan(all: &[(RelPath, BaseNode)], nodes: &[(RelPath, BaseNode)]) -> bool
    requires { IsSearchable all.now }
    ensures { result ≡ list_any (is_orphan (get_in all.now)) nodes.now }
{
    let mut rest = nodes;
    'nodes: while let Some((first, after)) = rest.split_first() {
        if !first.0.is_root() && !has_above(all, &first.0) {
            return true;
        }
        rest = after;
    }
    false
}

fn is_node_too_deep(path: &RelPath, node: &BaseNode) -> bool
    ensures { result ≡ is_node_too_deep (path.now, node.now) }
{
    match node.repos_path() {
        Some(repos_path) => is_too_deep(path, repos_path),
        None => false,
    }
}

// Whether one of the nodes is too deep.
fn has_too_deep(nodes: &[(RelPath, BaseNode)]) -> bool
    ensures { result ≡ list_any is_node_too_deep nodes.now }
{
    let mut rest = nodes;
    'nodes: while let Some((first, after)) = rest.split_first() {
        if is_node_too_deep(&first.0, &first.1) {
            return true;
        }
        rest = after;
    }
    false
}

// Why a copy can't be made of the nodes.
fn nodes_fault(alloc: Global, nodes: &[(RelPath, BaseNode)]) -> Option<WcFault>
    requires { IsSorted nodes.now }
    ensures { result ≡ nodes_fault nodes.now }
{
    if has_twice(nodes) {
        return Some(WcFault::Twice);
    }
    if !has_above(nodes, &RelPath::root(alloc)) {
        return Some(WcFault::BadRoot);
    }
    if has_orphan(nodes, nodes) {
        return Some(WcFault::NoParent);
    }
    if has_too_deep(nodes) {
        return Some(WcFault::TooDeep);
    }
    None
}

impl WorkingCopy {
    /// A copy of these nodes, which may come in any order. Twice for a path that comes twice, BadRoot where the root is missing or is no
    /// directory, NoParent where a node's parent isn't a directory, TooDeep where a repository path has over 64 names, or a path over 64 more;
    /// else Memory alone. Of n nodes it costs the order of n log n.
    pub fn from_nodes(
        alloc: Global,
        nodes: Vec<(RelPath, BaseNode)>,
    ) -> Result<WorkingCopy, WcFault>
        ensures nodes { IfOk result (λ w. (p : Path) → get_in w p ≡ get_in nodes.items p) }
        ensures made { OnOk result (nodes_fault nodes.items ≡ None) }
        ensures fault { IfErr result (Refuses (nodes_fault nodes.items)) }
    {
        nodes_make_a_copy();
        last_names_allowed(&nodes);
        let nodes = sorted(nodes);
        if let Some(fault) = nodes_fault(alloc, &nodes) {
            return Err(fault);
        }
        let map = map_of(alloc, nodes)?;
        Ok(WorkingCopy {
            alloc,
            nodes: map,
            known: Known::nothing(),
        })
    }
}
