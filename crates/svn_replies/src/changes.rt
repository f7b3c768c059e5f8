//! What revisions changed, path by path.
ghost use Rattle.std.specs.Prelude.{◌≡◌};
ghost use Rattle.svn_replies.specs.Changes.{changes_of};

use std::marker::Model;
use svn_dump::{Action, CopySource};
use svn_types::{Kind, RelPath, Rev};

/// A path that a revision changed, as a dump's record of the node says: also one that was touched without another text or other properties.
#[derive(Debug, Drop)]
pub struct PathChange {
    /// The path.
    pub path: RelPath,
    /// What was done there. A node that was deleted, and another put in its place, is replaced.
    pub action: Action,
    /// What is there then; of a node that was deleted the record doesn't say it.
    pub kind: Option<Kind>,
    /// What was copied there.
    pub source: Option<CopySource>,
    /// Whether a text was given.
    pub text: bool,
    /// Whether properties were given.
    pub props: bool,
}

/// The paths that one revision changed.
#[derive(Debug, Drop)]
pub struct PathChanges {
    list: Vec<PathChange>,
}

impl Model for PathChanges {
    ghost use Rattle.std.specs.Prelude.{List};
    ghost use Rattle.svn_replies.specs.declared.changes.PathChange.{PathChange};

    ghost Value = { List PathChange };

    ghost view = { λ c. c.list.items };
}

impl PathChanges {
    /// These changes.
    pub fn new(list: Vec<PathChange>) -> PathChanges
        ensures { result ≡ list.items }
    {
        PathChanges { list }
    }

    /// The changes, in their order.
    pub fn as_slice(&self) -> &[PathChange]
        ensures { result.now ≡ self.now }
    {
        &self.list
    }
}

/// What the revisions of a repository changed.
#[derive(Debug, Drop)]
pub struct Changes {
    revs: Vec<PathChanges>,
}

impl Model for Changes {
    ghost use Rattle.std.specs.Prelude.{List};
    ghost use Rattle.svn_replies.specs.declared.changes.PathChange.{PathChange};

    ghost Value = { List (List PathChange) };

    ghost view = { λ c. c.revs.items };
}

impl Changes {
    /// What the revisions from 0 on changed. Those that are missing at the end changed nothing.
    pub fn new(revs: Vec<PathChanges>) -> Changes
        ensures { result ≡ revs.items }
    {
        Changes { revs }
    }

    /// What a revision changed.
    pub fn of(&self, rev: Rev) -> &[PathChange]
        ensures { result.now ≡ changes_of self.now rev }
    {
        if rev.0 < self.revs.len() as u64 {
            match self.revs.get(rev.0 as usize) {
                Some(changes) => changes.as_slice(),
                None => &[],
            }
        } else {
            &[]
        }
    }
}
