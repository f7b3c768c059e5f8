//! Working copies, as the model has them: a flat map from path to what is there.

use crate::plain::fault::{Fault, Result};
use crate::plain::history::{History, Node, Values};
use crate::plain::plain_path::{PlainPath, ROOT};
use crate::plain::words::Word;
use std::alloc::Global;
use std::collections::BTreeMap;
use svn_model::WcFault;
use svn_types::Kind;

/// What is at a path of a copy.
#[derive(Clone, Copy, PartialEq, Eq)]
pub(crate) enum Base {
    File {
        rev: u64,
        repos: PlainPath,
        text: Word,
        values: Values,
    },
    Dir {
        rev: u64,
        repos: PlainPath,
        complete: bool,
        values: Values,
    },
    NotPresent,
}

/// What a copy has at each path.
pub(crate) type BaseTree = BTreeMap<PlainPath, Base>;

/// What a node is in a copy that has it at a revision and a repository path, complete.
pub(crate) fn base_of(node: &Node, rev: u64, repos: PlainPath) -> Base {
    match node.kind {
        Kind::File => Base::File {
            rev,
            repos,
            text: node.text,
            values: node.values,
        },
        Kind::Directory => Base::Dir {
            rev,
            repos,
            complete: true,
            values: node.values,
        },
    }
}

/// Everything at a path and below goes.
pub(crate) fn remove_within(tree: &mut BaseTree, path: PlainPath) {
    tree.retain(|place, _base| !place.is_within(&path));
}

// Puts a node of a revision at a path.
fn put_node(
    tree: &mut BaseTree,
    to: Option<PlainPath>,
    node: &Node,
    rev: u64,
    repos: PlainPath,
) -> Result<()> {
    let to = to.ok_or(Fault("deeper than the model goes"))?;
    tree.insert(to, base_of(node, rev, repos))?;
    Ok(())
}

// What a revision has at a repository path and below, put at a path.
fn put_tree(
    tree: &mut BaseTree,
    history: &History,
    rev: u64,
    repos: PlainPath,
    path: PlainPath,
) -> Result<()> {
    let source = history.tree(rev).ok_or(Fault("no such revision"))?;
    for (place, node) in source {
        if place.is_within(&repos) {
            put_node(tree, place.moved(repos, path), node, rev, *place)?;
        }
    }
    Ok(())
}

/// Why a copy can't be made of what is at a path of a revision.
pub(crate) fn checkout_fault(history: &History, rev: u64, path: PlainPath) -> Option<WcFault> {
    if history.tree(rev).is_none() {
        return Some(WcFault::NoSuchRevision);
    }
    match history.look(rev, Some(path)) {
        None => Some(WcFault::Missing),
        Some(node) if node.kind == Kind::File => Some(WcFault::BadRoot),
        Some(_) => None,
    }
}

/// The copy of what is at a path of a revision.
pub(crate) fn checked_out(
    alloc: Global,
    history: &History,
    rev: u64,
    path: PlainPath,
) -> Result<BaseTree> {
    let mut tree = BTreeMap::new(alloc);
    put_tree(&mut tree, history, rev, path, ROOT)?;
    Ok(tree)
}

/// The repository path that a path has where it isn't switched: that of the directory above with the name after it. None where
/// no directory is above.
pub(crate) fn own_repos(tree: &BaseTree, path: PlainPath) -> Option<PlainPath> {
    let parent = path.parent()?;
    match tree.get(&parent)? {
        Base::Dir { repos, .. } => repos.join(path.last()?),
        Base::File { .. } | Base::NotPresent => None,
    }
}

/// Why nothing can be put at a path: with `repos` what is at another repository path.
pub(crate) fn placing_fault(
    tree: &BaseTree,
    history: &History,
    path: PlainPath,
    repos: Option<PlainPath>,
    rev: u64,
) -> Option<WcFault> {
    if path.is_root() {
        return Some(WcFault::IsRoot);
    }
    if history.tree(rev).is_none() {
        return Some(WcFault::NoSuchRevision);
    }
    let Some(own) = own_repos(tree, path) else {
        return Some(WcFault::NoParent);
    };
    match history.look(rev, Some(repos.unwrap_or(own))) {
        None => Some(WcFault::Missing),
        Some(_) => None,
    }
}

/// Puts what a revision has at the path's own repository path, or at another, in the place of what is at the path.
pub(crate) fn put_at(
    tree: &mut BaseTree,
    history: &History,
    path: PlainPath,
    repos: Option<PlainPath>,
    rev: u64,
) -> Result<()> {
    let own = own_repos(tree, path).ok_or(Fault("no directory is above"))?;
    remove_within(tree, path);
    put_tree(tree, history, rev, repos.unwrap_or(own), path)
}

/// Why a path can't be forgotten.
pub(crate) fn forgetting_fault(tree: &BaseTree, path: PlainPath) -> Option<WcFault> {
    if path.is_root() {
        return Some(WcFault::IsRoot);
    }
    match tree.get(&path) {
        None | Some(Base::NotPresent) => Some(WcFault::Missing),
        Some(_) => None,
    }
}

/// What is at the path counts as not present.
pub(crate) fn forget(tree: &mut BaseTree, path: PlainPath) -> Result<()> {
    remove_within(tree, path);
    tree.insert(path, Base::NotPresent)?;
    Ok(())
}
