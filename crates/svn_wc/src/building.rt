//! Copies made of trees of the repository, and trees of the repository placed in a copy.
ghost use Rattle.std.specs.Prelude.{◌≡◌, ◌++◌, [], true, IsTrue, IsFalse, IfOk, IfErr, OnOk, OnErr, Some, None, nat_le};
ghost use Rattle.std.specs.Option.{option_copied};
ghost use Rattle.svn_types.specs.Names.{Path};
ghost use Rattle.svn_types.specs.Paths.{parent, last_name};
ghost use Rattle.svn_repo.specs.History.{look};
ghost use Rattle.svn_repo.specs.Readings.{kind_of, IsHistory};
ghost use Rattle.svn_model.specs.Nodes.{get_in, IsWorkingCopy, IsTrueOf};
ghost use Rattle.svn_model.specs.Builders.{checkout, placed};
ghost use Rattle.svn_model.specs.Effects.{joined_path};
ghost use Rattle.svn_model.specs.Refusals.{is_missing_revision, is_file_kind, is_too_deep, checkout_fault, place_fault, switch_fault};
ghost use Rattle.law_copy.specs.Laws.{EndsNamed};
ghost use Rattle.svn_wc.specs.Building.{Refuses, tree_at};

use crate::known::Known;
use crate::paths::{compare_above, last_name_allowed};
use crate::truth::entry_under;
use crate::working_copy::WorkingCopy;
use law_copy::{a_checkout_is_a_true_copy, placing_keeps_a_copy, switching_keeps_a_copy};
use std::alloc::{AllocError, Global};
use std::cmp::Ordering;
use std::ops::Bound;
use svn_model::{BaseNode, WcFault};
use svn_nodes::Nodes;
use svn_nodes::gather::{Origin, front_of, gather, map_of, node_of};
use svn_nodes::paths::{child_path, parent_path};
use svn_nodes::replace::{replace_alone, replace_within};
use svn_repo::{NodeId, Repo};
use svn_types::{Kind, MAX_DEPTH, RelPath, Rev};

fn is_missing(repo: &Repo, rev: Rev) -> bool
    ensures { result ≡ is_missing_revision repo.now rev }
{
    rev > repo.latest()
}

fn is_file(repo: &Repo, id: NodeId) -> bool
    ensures { result ≡ is_file_kind (kind_of repo.now id) }
{
    repo.kind(id) != Some(Kind::Directory)
}

// Whether a path may not have a node with this repository path.
pub(crate) fn is_too_deep(path: &RelPath, repos_path: &RelPath) -> bool
    ensures { result ≡ is_too_deep path.now repos_path.now }
{
    let names = repos_path.components().len();
    names > MAX_DEPTH || path.components().len() > MAX_DEPTH + names
}

// The tree at a path of the repository, as nodes at a path of the copy and below.
pub(crate) fn tree_nodes(
    from: &Origin<'_>,
    at: &RelPath,
    repos_path: &RelPath,
    id: NodeId,
) -> Result<Nodes, AllocError>
    requires { look from.now.repo.now from.now.rev repos_path.now ≡ Some id }
    ensures { IfOk result (λ m. (p : Path) → get_in m.entries p ≡ tree_at from.now.repo.now at.now repos_path.now from.now.rev p) }
{
    let from = Origin {
        front: front_of(at, repos_path),
        ..*from
    };
    let mut pairs = Vec::new(from.alloc);
    gather(&from, at, repos_path, id, &mut pairs)?;
    map_of(from.alloc, pairs)
}

// The directory at a path of a revision.
fn find_root(repo: &Repo, root: &RelPath, rev: Rev) -> Result<NodeId, WcFault>
    ensures found { IfOk result (λ id. look repo.now rev root.now ≡ Some id) }
    ensures made { OnOk result (checkout_fault repo.now root.now rev ≡ None) }
    ensures fault { IfErr result (λ e. checkout_fault repo.now root.now rev ≡ Some e) }
{
    if is_missing(repo, rev) {
        return Err(WcFault::NoSuchRevision);
    }
    let Some(id) = repo.lookup(rev, root) else {
        return Err(WcFault::Missing);
    };
    if is_file(repo, id) {
        return Err(WcFault::BadRoot);
    }
    Ok(id)
}

// What is in a revision one name below a path: the last name of another.
fn find_named(repo: &Repo, rev: Rev, above: &RelPath, path: &RelPath) -> Option<NodeId>
    ensures { result ≡ look repo.now rev (above.now ++ last_name path.now) }
{
    let id = repo.lookup(rev, above);
    match path.components().last() {
        Some(name) => entry_under(repo, &id, name),
        None => id,
    }
}

// A path with the last name of another after it.
fn joined(alloc: Global, above: &RelPath, path: &RelPath) -> Result<RelPath, AllocError>
    ensures { IfOk result (λ p. p ≡ above.now ++ last_name path.now) }
{
    match path.components().last() {
        Some(name) => child_path(alloc, above, name),
        None => above.clone(),
    }
}

// Puts a file of the repository in the place of what is at a path of a copy, where that is no directory, and returns whether that was
// done. It looks the path up twice, and asks for no more memory than the node itself.
fn put_file(
    from: &Origin<'_>,
    path: &RelPath,
    repos_path: &RelPath,
    id: NodeId,
    nodes: &mut Nodes,
) -> Result<bool, AllocError>
    requires copy { IsWorkingCopy (get_in nodes.old.entries) }
    requires stands { look from.now.repo.now from.now.rev repos_path.now ≡ Some id }
    requires file { is_file_kind (kind_of from.now.repo.now id) ≡ true }
    requires history { IsHistory from.now.repo.now }
    ensures done { IfOk result (λ done. IsTrue done → (p : Path) → get_in nodes.new.entries p ≡ placed from.now.repo.now (get_in nodes.old.entries) path.now repos_path.now from.now.rev p) }
    ensures left { IfOk result (λ done. IsFalse done → nodes.new.entries ≡ nodes.old.entries) }
    ensures unchanged { OnErr result (nodes.new.entries ≡ nodes.old.entries) }
{
    let own = repos_path.clone()?;
    let node = node_of(from.alloc, from.repo, from.rev, own, id)?;
    replace_alone(nodes, path, node)
}

// Puts the tree at a path of the repository in the place of what is at a path of a copy and below.
fn put_tree(
    from: &Origin<'_>,
    path: &RelPath,
    repos_path: &RelPath,
    id: NodeId,
    nodes: &mut Nodes,
) -> Result<(), AllocError>
    requires stands { look from.now.repo.now from.now.rev repos_path.now ≡ Some id }
    ensures nodes { OnOk result ((p : Path) → get_in nodes.new.entries p ≡ placed from.now.repo.now (get_in nodes.old.entries) path.now repos_path.now from.now.rev p) }
    ensures unchanged { OnErr result (nodes.new.entries ≡ nodes.old.entries) }
{
    let part = tree_nodes(from, path, repos_path, id)?;
    replace_within(from.alloc, nodes, path, part)
}

// The same, in a shorter way for a file.
fn put(
    from: &Origin<'_>,
    path: &RelPath,
    repos_path: &RelPath,
    id: NodeId,
    nodes: &mut Nodes,
) -> Result<(), AllocError>
    requires copy { IsWorkingCopy (get_in nodes.old.entries) }
    requires stands { look from.now.repo.now from.now.rev repos_path.now ≡ Some id }
    requires history { IsHistory from.now.repo.now }
    ensures nodes { OnOk result ((p : Path) → get_in nodes.new.entries p ≡ placed from.now.repo.now (get_in nodes.old.entries) path.now repos_path.now from.now.rev p) }
    ensures unchanged { OnErr result (nodes.new.entries ≡ nodes.old.entries) }
{
    if !is_file(from.repo, id) {
        return put_tree(from, path, repos_path, id, nodes);
    }
    if put_file(from, path, repos_path, id, nodes)? {
        return Ok(());
    }
    put_tree(from, path, repos_path, id, nodes)
}

impl WorkingCopy {
    /// The tree at a path of a revision: each node complete, its repository path the root's joined with its path. NoSuchRevision, Missing where
    /// nothing is there, BadRoot for a file; else Memory alone.
    pub fn checkout_at(
        alloc: Global,
        repo: &Repo,
        root: &RelPath,
        rev: Rev,
    ) -> Result<WorkingCopy, WcFault>
        ensures nodes { IfOk result (λ w. (p : Path) → get_in w p ≡ checkout repo.now root.now rev p) }
        ensures truth { IfOk result (λ w. IsTrueOf repo.now (get_in w)) }
        ensures made { OnOk result (checkout_fault repo.now root.now rev ≡ None) }
        ensures fault { IfErr result (Refuses (checkout_fault repo.now root.now rev)) }
    {
        repo.law();
        a_checkout_is_a_true_copy();
        let id = find_root(repo, root, rev)?;
        let from = Origin {
            alloc,
            repo,
            rev,
            front: None,
        };
        let nodes = tree_nodes(&from, &RelPath::root(alloc), root, id)?;
        Ok(WorkingCopy {
            alloc,
            nodes,
            known: Known {
                unswitched: true,
                level: true,
            },
        })
    }

    // What is at the path above, looked for from a path back: what lies between them is below it.
    fn find_above(&self, path: &RelPath) -> Option<&BaseNode>
        ensures { option_copied result ≡ get_in self.now (parent path.now) }
    {
        let mut left = self.nodes.range((Bound::Unbounded, Bound::Included(path)));
        'nodes: while let Some((other, node)) = left.next_back() {
            match compare_above(other, path) {
                Ordering::Less => return None,
                Ordering::Equal => return Some(node),
                Ordering::Greater => {}
            }
        }
        None
    }

    // What is at the path above. The look-up needs that path: if that can't be allocated, it is looked for without, so that the result is
    // the same.
    fn node_above(&self, path: &RelPath) -> Option<&BaseNode>
        ensures { option_copied result ≡ get_in self.now (parent path.now) }
    {
        match parent_path(self.alloc, path) {
            Ok(above) => self.nodes.get(&above),
            Err(_) => self.find_above(path),
        }
    }

    // What is placed at a path, after its repository path: that of the node above, with the name after it.
    fn find_placed(
        &self,
        repo: &Repo,
        path: &RelPath,
        rev: Rev,
    ) -> Result<(RelPath, NodeId), WcFault>
        ensures path { IfOk result (λ found. found.0 ≡ joined_path (get_in self.now) path.now) }
        ensures node { IfOk result (λ found. look repo.now rev (joined_path (get_in self.now) path.now) ≡ Some found.1) }
        ensures made { OnOk result (place_fault repo.now (get_in self.now) path.now rev ≡ None) }
        ensures fault { IfErr result (Refuses (place_fault repo.now (get_in self.now) path.now rev)) }
    {
        if path.is_root() {
            return Err(WcFault::IsRoot);
        }
        if is_missing(repo, rev) {
            return Err(WcFault::NoSuchRevision);
        }
        let Some(BaseNode::Dir { repos_path, .. }) = self.node_above(path) else {
            return Err(WcFault::NoParent);
        };
        let Some(id) = find_named(repo, rev, repos_path, path) else {
            return Err(WcFault::Missing);
        };
        Ok((joined(self.alloc, repos_path, path)?, id))
    }

    // What is switched to at a path.
    fn find_switched(
        &self,
        repo: &Repo,
        path: &RelPath,
        repos_path: &RelPath,
        rev: Rev,
    ) -> Result<NodeId, WcFault>
        ensures found { IfOk result (λ id. look repo.now rev repos_path.now ≡ Some id) }
        ensures made { OnOk result (switch_fault repo.now (get_in self.now) path.now repos_path.now rev ≡ None) }
        ensures fault { IfErr result (λ e. switch_fault repo.now (get_in self.now) path.now repos_path.now rev ≡ Some e) }
    {
        if path.is_root() {
            return Err(WcFault::IsRoot);
        }
        if is_missing(repo, rev) {
            return Err(WcFault::NoSuchRevision);
        }
        let Some(BaseNode::Dir { .. }) = self.node_above(path) else {
            return Err(WcFault::NoParent);
        };
        if is_too_deep(path, repos_path) {
            return Err(WcFault::TooDeep);
        }
        match repo.lookup(rev, repos_path) {
            Some(id) => Ok(id),
            None => Err(WcFault::Missing),
        }
    }

    /// Puts the tree of a revision at the parent's repository path joined with the name in the place of what is at a path, and below;
    /// nothing needs to be there. IsRoot, NoSuchRevision, NoParent where the parent isn't a present directory, Missing where the repository has
    /// nothing there; else Memory alone. A refusal leaves the copy as it was. It costs what goes and what comes; where memory for the path above
    /// is refused, also what is between the two.
    pub fn place(&mut self, repo: &Repo, path: &RelPath, rev: Rev) -> Result<(), WcFault>
        ensures nodes { OnOk result ((p : Path) → get_in self.new p ≡ placed repo.now (get_in self.old) path.now (joined_path (get_in self.old) path.now) rev p) }
        ensures made { OnOk result (place_fault repo.now (get_in self.old) path.now rev ≡ None) }
        ensures fault { IfErr result (Refuses (place_fault repo.now (get_in self.old) path.now rev)) }
        ensures unchanged { OnErr result (self.new ≡ self.old) }
        ensures truth { OnOk result (IsTrueOf repo.now (get_in self.old) → IsTrueOf repo.now (get_in self.new)) }
    {
        repo.law();
        self.law();
        placing_keeps_a_copy();
        last_name_allowed(path);
        let (repos_path, id) = self.find_placed(repo, path, rev)?;
        let from = Origin {
            alloc: self.alloc,
            repo,
            rev,
            front: None,
        };
        put(&from, path, &repos_path, id, &mut self.nodes)?;
        // the placed tree is where the path above leads, so no path of it is switched
        self.known.level = false;
        Ok(())
    }

    /// Puts the tree at another repository path in the place of what is at a path, and below. As `place`, but TooDeep, after NoParent, where
    /// the repository path has over 64 names, or the path over 64 more.
    pub fn switch(
        &mut self,
        repo: &Repo,
        path: &RelPath,
        repos_path: &RelPath,
        rev: Rev,
    ) -> Result<(), WcFault>
        ensures nodes { OnOk result ((p : Path) → get_in self.new p ≡ placed repo.now (get_in self.old) path.now repos_path.now rev p) }
        ensures made { OnOk result (switch_fault repo.now (get_in self.old) path.now repos_path.now rev ≡ None) }
        ensures fault { IfErr result (Refuses (switch_fault repo.now (get_in self.old) path.now repos_path.now rev)) }
        ensures unchanged { OnErr result (self.new ≡ self.old) }
        ensures truth { OnOk result (IsTrueOf repo.now (get_in self.old) → IsTrueOf repo.now (get_in self.new)) }
    {
        repo.law();
        self.law();
        switching_keeps_a_copy();
        last_name_allowed(path);
        let id = self.find_switched(repo, path, repos_path, rev)?;
        let from = Origin {
            alloc: self.alloc,
            repo,
            rev,
            front: None,
        };
        put(&from, path, repos_path, id, &mut self.nodes)?;
        self.known = Known::nothing();
        Ok(())
    }
}
