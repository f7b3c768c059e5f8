//! Working copies, and how one is made of a revision.
ghost use Rattle.std.specs.Prelude.{◌≡◌, [], IfOk, IfErr, IsErr, None, is_some, if◌then◌else◌};
ghost use Rattle.std.specs.Option.{option_copied};
ghost use Rattle.svn_types.specs.Names.{Path};
ghost use Rattle.svn_repo.specs.History.{look};
ghost use Rattle.svn_model.specs.Nodes.{get_in, InPathOrder, IsTrueOf, IsWorkingCopy};
ghost use Rattle.svn_model.specs.Builders.{checkout};

use crate::known::Known;
use std::alloc::{AllocError, Global};
use std::collections::BTreeMap;
use std::collections::btree_map::Iter;
use std::fmt;
use std::marker::Model;
use svn_model::{BaseNode, WcFault};
use svn_repo::Repo;
use svn_types::{RelPath, Rev};

/// What a client has of a repository: a node for each path that it knows, the root's being a directory, and each other's below one. A path has at
/// most 64 names more than its node's repository path, and that at most 64. Nodes may be of several revisions, and switched. A contract sees a
/// copy as the pairs of a path and its node, in path order.
#[derive(Drop)]
pub struct WorkingCopy {
    pub(crate) alloc: Global,
    pub(crate) nodes: BTreeMap<RelPath, BaseNode>,
    pub(crate) known: Known,
}

impl Model for WorkingCopy {
    ghost use Rattle.std.specs.Prelude.{ℕ, List};
    ghost use Rattle.svn_types.specs.Names.{Path};
    ghost use Rattle.svn_model.specs.declared.base_node.BaseNode.{BaseNode};

    ghost Value = { List (Path × BaseNode) };

    ghost view = { λ w. w.nodes.entries };

    ghost use Rattle.std.specs.Prelude.{◌≡◌, true};
    ghost use Rattle.svn_model.specs.Nodes.{get_in, IsWorkingCopy};
    ghost use Rattle.svn_wc.specs.Unswitched.{IsUnswitched, IsLevel};

    ghost invariant = { λ w. IsWorkingCopy (get_in w.nodes.entries) × (w.known.unswitched ≡ true → IsUnswitched (get_in w.nodes.entries)) × (w.known.level ≡ true → IsLevel (get_in w.nodes.entries)) };
}

impl fmt::Debug for WorkingCopy {
    fn fmt<W: fmt::Write>(&self, f: &mut fmt::Formatter<W>) -> fmt::Result {
        f.debug_struct("WorkingCopy")
            .field("alloc", &self.alloc)
            .field("nodes", &self.nodes)
            .finish()
    }
}

impl WorkingCopy {
    /// The whole tree of a revision: each node complete, its repository path being its path. NoSuchRevision exactly where the repository has
    /// no such revision, else Memory alone.
    pub fn checkout(alloc: Global, repo: &Repo, rev: Rev) -> Result<WorkingCopy, WcFault>
        ensures nodes { IfOk result (λ w. (p : Path) → get_in w p ≡ checkout repo.now [] rev p) }
        ensures truth { IfOk result (λ w. IsTrueOf repo.now (get_in w)) }
        ensures missing { look repo.now rev [] ≡ None → IsErr result }
        ensures fault { IfErr result (λ e. e ≡ (if is_some (look repo.now rev []) then WcFault.Memory else WcFault.NoSuchRevision)) }
    {
        repo.law();
        let root = RelPath::root(alloc);
        if repo.lookup(rev, &root).is_none() {
            return Err(WcFault::NoSuchRevision);
        }
        WorkingCopy::checkout_at(alloc, repo, &root, rev)
    }

    /// It does nothing. Its contract says what holds of every copy: the nodes are in path order, and have the shape of a working copy.
    pub fn law(&self)
        ensures order { InPathOrder self.now }
        ensures shape { IsWorkingCopy (get_in self.now) }
    {
        // an iterator's contract has the order
        let _nodes = self.nodes.iter();
    }

    /// What the copy has at a path; None where it knows nothing there. It takes no memory.
    pub fn get(&self, path: &RelPath) -> Option<&BaseNode>
        ensures { option_copied result ≡ get_in self.now path.now }
    {
        self.nodes.get(path)
    }

    /// All that the copy has, one after the other, in path order. It takes no memory.
    pub fn iter(&self) -> Iter<'_, RelPath, BaseNode>
        ensures rest { result ≡ self.now }
        ensures order { InPathOrder self.now }
    {
        self.nodes.iter()
    }

    /// All that the copy has, in path order. It takes no memory.
    pub fn nodes(&self) -> &BTreeMap<RelPath, BaseNode>
        ensures { result.now.entries ≡ self.now }
    {
        &self.nodes
    }
}

impl Clone for WorkingCopy {
    ghost is_clone = { λ copy clone. clone ≡ copy };

    fn clone(&self) -> Result<WorkingCopy, AllocError> {
        Ok(WorkingCopy {
            alloc: self.alloc,
            nodes: self.nodes.clone()?,
            known: self.known,
        })
    }
}

impl<'a> IntoIterator for &'a WorkingCopy {
    type Item = (&'a RelPath, &'a BaseNode);

    type IntoIter = Iter<'a, RelPath, BaseNode>;

    ghost into_iter_gives = { λ copy nodes. nodes ≡ copy.now };

    fn into_iter(self) -> Iter<'a, RelPath, BaseNode> {
        self.iter()
    }
}
