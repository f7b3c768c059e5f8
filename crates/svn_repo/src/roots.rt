//! The root node of each revision.
ghost use Rattle.std.specs.Prelude.{◌≡◌, ℕ, ◌-◌, ◌≤◌, length, slice_get, [], ◌∷◌, ◌++◌, Some, OnOk, OnErr};

use crate::entries::NodeId;
use std::alloc::{AllocError, Global};
use std::marker::Model;
use svn_types::Rev;

// How many revisions are counted at most, so that the number of all revisions fits a `usize`.
const MOST_COUNTED: usize = 1 << 62;

/// The root node of each revision. The revisions at the front that still have the first root, node 0, are only counted: a history that
/// begins late has many of them, and they take no memory. A contract sees the list of the roots.
#[derive(Debug, Drop)]
pub(crate) struct Roots {
    // How many revisions at the front have the first root.
    counted: usize,
    // The roots of the others.
    later: Vec<NodeId>,
}

impl Model for Roots {
    ghost use Rattle.std.specs.Prelude.{ℕ, List, ◌++◌, ◌≤◌, ◌^◌, replicate};

    ghost Value = { List ℕ };

    ghost view = { λ r. replicate r.counted 0 ++ r.later.items };

    ghost invariant = { λ r. r.counted ≤ 2 ^ 62 };
}

impl Roots {
    /// The first root alone. It takes no memory.
    pub(crate) fn first(alloc: Global) -> Roots
        ensures { result ≡ 0 ∷ [] }
    {
        Roots {
            counted: 1,
            later: Vec::new(alloc),
        }
    }

    /// How many revisions there are.
    pub(crate) fn len(&self) -> usize
        ensures { result ≡ length self.now }
    {
        self.counted + self.later.len()
    }

    /// The root of a revision, if there is such a revision.
    pub(crate) fn get(&self, rev: Rev) -> Option<NodeId>
        ensures { result ≡ slice_get self.now rev }
    {
        let index = usize::try_from(rev.0).ok()?;
        if index < self.counted {
            return Some(NodeId { index: 0 });
        }
        self.later.get(index - self.counted).copied()
    }

    /// The root of the last revision.
    pub(crate) fn last(&self) -> NodeId
        requires { 1 ≤ length self.now }
        ensures { slice_get self.now (length self.now - 1) ≡ Some result }
    {
        match self.later.last() {
            Some(root) => *root,
            None => NodeId { index: 0 },
        }
    }

    /// Puts the root of one more revision after the others.
    pub(crate) fn push(&mut self, root: NodeId) -> Result<(), AllocError>
        ensures ok { OnOk result (self.new ≡ self.old ++ root ∷ []) }
        ensures err { OnErr result (self.new ≡ self.old) }
    {
        if root.index == 0 && self.later.is_empty() && self.counted < MOST_COUNTED {
            self.counted += 1;
            return Ok(());
        }
        self.later.push(root)?;
        Ok(())
    }
}
