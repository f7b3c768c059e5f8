//! Trees of the repository as lists of nodes, in path order.
ghost use Rattle.std.specs.Prelude.{◌≡◌, ◌+◌, ◌<◌, ◌++◌, ◌∷◌, [], length, IfOk, OnOk, Some, None, if◌then◌else◌};
ghost use Rattle.std.specs.BTreeMap.{IsFromIterResult};
ghost use Rattle.svn_types.specs.Names.{Path, path_cmp, depth_limit};
ghost use Rattle.svn_types.specs.Paths.{path_eq};
ghost use Rattle.svn_repo.specs.Readings.{kind_of, text_of, props_of, entries_of};
ghost use Rattle.svn_model.specs.Nodes.{base_node};
ghost use Rattle.svn_nodes.specs.Gathered.{gathered};
ghost use Rattle.svn_nodes.specs.Tails.{IsTail};
ghost use Rattle.svn_nodes.specs.Standing.{standing, Puts};

use crate::paths::child_path;
use std::alloc::{AllocError, Global};
use std::collections::BTreeMap;
use svn_model::BaseNode;
use svn_repo::{NodeId, Repo};
use svn_types::{Kind, Name, Props, RelPath, Rev, Text};

// The properties of a node of the repository.
fn clone_props(alloc: Global, repo: &Repo, id: NodeId) -> Result<Props, AllocError>
    ensures { IfOk result (λ p. p ≡ props_of repo.now id) }
{
    match repo.props(id) {
        Some(props) => props.clone(),
        None => Ok(Props::new(alloc)),
    }
}

// The text of a node of the repository that is no directory.
fn clone_text(alloc: Global, repo: &Repo, id: NodeId) -> Result<Text, AllocError>
    requires { kind_of repo.now id ≡ Kind.File }
    ensures { IfOk result (λ t. t ≡ text_of repo.now id) }
{
    match repo.shared_text(id) {
        Some(text) => text.clone(),
        None => Ok(Text::new(Vec::new(alloc))),
    }
}

/// A node of the repository as a copy has it that is up to date, with the repository path that is passed. AllocError if an allocation fails:
/// properties and text are clones of what the repository has. Inlined, so that it is made in place.
#[inline(always)]
pub fn node_of(
    alloc: Global,
    repo: &Repo,
    rev: Rev,
    repos_path: RelPath,
    id: NodeId,
) -> Result<BaseNode, AllocError>
    ensures { IfOk result (λ n. n ≡ base_node repo.now rev repos_path id) }
{
    let props = clone_props(alloc, repo, id)?;
    match repo.kind(id) {
        Some(Kind::Directory) => Ok(BaseNode::Dir {
            rev,
            repos_path,
            complete: true,
            props,
        }),
        _ => Ok(BaseNode::File {
            rev,
            repos_path,
            text: clone_text(alloc, repo, id)?,
            props,
        }),
    }
}

/// The map of these pairs; of several at one path the last counts. In path order, they are put into it one after the other, and no place is
/// searched. AllocError if an allocation fails.
pub fn map_of(
    alloc: Global,
    pairs: Vec<(RelPath, BaseNode)>,
) -> Result<BTreeMap<RelPath, BaseNode>, AllocError>
    ensures { IfOk result (IsFromIterResult path_cmp pairs.items) }
{
    pairs.into_iter().collect(alloc)
}

/// Where a tree comes from: a revision of a repository. `front` is how many names the repository paths of its nodes have in front of their paths
/// in the copy, if these are tails of those: then the two lie in the same memory.
#[derive(Clone, Copy)]
pub struct Origin<'a> {
    pub alloc: Global,
    pub repo: &'a Repo,
    pub rev: Rev,
    pub front: Option<usize>,
}

/// How many names a repository path has in front of a path in the copy, if that is its tail. It takes no memory.
pub fn front_of(at: &RelPath, repos_path: &RelPath) -> Option<usize>
    ensures { IsTail result at.now repos_path.now }
{
    match repos_path.components().strip_suffix(at.components()) {
        Some(front) => Some(front.len()),
        None => None,
    }
}

// The two paths of an entry.
fn paths_below(
    from: &Origin<'_>,
    at: &RelPath,
    repos_path: &RelPath,
    name: &Name,
) -> Result<(RelPath, RelPath), AllocError>
    requires { IsTail from.now.front at.now repos_path.now }
    ensures at { IfOk result (λ p. p.0 ≡ at.now ++ name.now ∷ []) }
    ensures repos_path { IfOk result (λ p. p.1 ≡ repos_path.now ++ name.now ∷ []) }
    ensures tail { IfOk result (λ p. IsTail from.now.front p.0 p.1) }
    ensures bounded { OnOk result (length at.now + 1 < depth_limit + 1) }
{
    let below = child_path(from.alloc, repos_path, name)?;
    let at_below = match from.front {
        Some(0) => below.clone()?,
        Some(front) => below.tail(from.alloc, front)?,
        None => child_path(from.alloc, at, name)?,
    };
    Ok((at_below, below))
}

// Adds a node of the repository at a path of the copy.
fn push_node(
    from: &Origin<'_>,
    at: &RelPath,
    repos_path: &RelPath,
    id: NodeId,
    pairs: &mut Vec<(RelPath, BaseNode)>,
) -> Result<(), AllocError>
    ensures { OnOk result ((p : Path) → gathered pairs.new.items p ≡ (if path_eq at.now p then Some (base_node from.now.repo.now from.now.rev repos_path.now id) else gathered pairs.old.items p)) }
{
    let own = repos_path.clone()?;
    let node = node_of(from.alloc, from.repo, from.rev, own, id)?;
    pairs.push((at.clone()?, node))?;
    Ok(())
}

// Adds a node below which nothing is, which gets the paths themselves.
fn push_leaf(
    from: &Origin<'_>,
    at: RelPath,
    repos_path: RelPath,
    id: NodeId,
    pairs: &mut Vec<(RelPath, BaseNode)>,
) -> Result<(), AllocError>
    requires free { (r : Path) → gathered pairs.old.items (at ++ r) ≡ None }
    requires leaf { entries_of from.now.repo.now id ≡ [] }
    ensures { OnOk result (Puts (standing from.now.repo.now from.now.rev repos_path id) at (gathered pairs.old.items) (gathered pairs.new.items)) }
{
    let node = node_of(from.alloc, from.repo, from.rev, repos_path, id)?;
    pairs.push((at, node))?;
    Ok(())
}

/// Adds a node of the repository at a path of the copy, and all that is below it, to a list of pairs in path order. AllocError where an allocation
/// fails, or a path in the copy came to have over 128 names; then some of the nodes may have been added.
pub fn gather(
    from: &Origin<'_>,
    at: &RelPath,
    repos_path: &RelPath,
    id: NodeId,
    pairs: &mut Vec<(RelPath, BaseNode)>,
) -> Result<(), AllocError>
    requires free { (r : Path) → gathered pairs.old.items (at.now ++ r) ≡ None }
    requires tail { IsTail from.now.front at.now repos_path.now }
    ensures { OnOk result (Puts (standing from.now.repo.now from.now.rev repos_path.now id) at.now (gathered pairs.old.items) (gathered pairs.new.items)) }
{
    push_node(from, at, repos_path, id, pairs)?;
    let Some(entries) = from.repo.entries(id) else {
        return Ok(());
    };
    for (name, child) in entries.iter() {
        let (at_below, below) = paths_below(from, at, repos_path, name)?;
        match from.repo.entries(*child) {
            Some(_) => gather(from, &at_below, &below, *child, pairs)?,
            None => push_leaf(from, at_below, below, *child, pairs)?,
        }
    }
    Ok(())
}
