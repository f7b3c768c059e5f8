//! Repositories, as the model has them: for each revision a flat map from path to node.

use crate::plain::fault::{Fault, Result};
use crate::plain::plain_path::{PlainPath, ROOT};
use crate::plain::words::{NO_TEXT, Word};
use std::alloc::Global;
use std::collections::BTreeMap;
use svn_types::Kind;

/// The values of the three properties, by the places of their names.
pub(crate) type Values = [Option<Word>; 3];

pub(crate) const NO_VALUES: Values = [None; 3];

/// A node revision. Equal numbers are one node revision, equal lines one thing at two times.
#[derive(Clone, Copy)]
pub(crate) struct Node {
    pub(crate) number: u64,
    pub(crate) line: u64,
    pub(crate) kind: Kind,
    pub(crate) text: Word,
    pub(crate) values: Values,
}

/// What a revision has at each path.
pub(crate) type Tree = BTreeMap<PlainPath, Node>;

/// Revisions from 0 on, and the line and the number that no node has yet.
#[derive(Drop)]
pub(crate) struct History {
    pub(crate) revisions: Vec<Tree>,
    pub(crate) next_line: u64,
    pub(crate) next_number: u64,
}

impl History {
    /// Revision 0 is an empty root.
    pub(crate) fn new(alloc: Global) -> Result<History> {
        let mut first = BTreeMap::new(alloc);
        let root = Node {
            number: 0,
            line: 0,
            kind: Kind::Directory,
            text: NO_TEXT,
            values: NO_VALUES,
        };
        first.insert(ROOT, root)?;
        let mut revisions = Vec::new(alloc);
        revisions.push(first)?;
        Ok(History {
            revisions,
            next_line: 1,
            next_number: 1,
        })
    }

    pub(crate) fn latest(&self) -> u64 {
        (self.revisions.len() as u64).saturating_sub(1)
    }

    pub(crate) fn tree(&self, rev: u64) -> Option<&Tree> {
        self.revisions.get(rev as usize)
    }

    /// What is at a path in a revision.
    pub(crate) fn look(&self, rev: u64, place: Option<PlainPath>) -> Option<Node> {
        let place = place?;
        self.tree(rev)?.get(&place).copied()
    }

    /// The tree that the next commit changes.
    pub(crate) fn last_tree(&self) -> Result<Tree> {
        let tree = self.revisions.last().ok_or(Fault("no revision"))?;
        Ok(tree.clone()?)
    }
}
