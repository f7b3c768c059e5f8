//! The records of a dump.

ghost use Rattle.std.specs.Prelude.{◌≡◌};

use std::marker::Model;
use svn_types::{Digest, Kind, PropChange, Props, RelPath, Rev, Sha1Sum, Text};

/// What is done to a node (`svn_node_action` of `svn_repos.h`).
#[derive(Clone, Copy, Debug, PartialEq, Eq)]
pub enum Action {
    /// A node is put where none is.
    Add,
    /// The node that is there gets other properties or another text.
    Change,
    /// The node that is there goes, with all below it.
    Delete,
    /// The node that is there goes, and another is put in its place.
    Replace,
}

/// Where a copy comes from.
#[derive(Debug, Drop)]
pub struct CopySource {
    /// An earlier revision.
    pub rev: Rev,
    /// The path in it; the root too.
    pub path: RelPath,
}

/// What changes of the properties before, in order. A contract sees it as the list of changes.
#[derive(Debug, Drop)]
pub struct PropChanges {
    pub(crate) list: Vec<PropChange>,
}

impl Model for PropChanges {
    ghost use Rattle.std.specs.Prelude.{List};
    ghost use Rattle.svn_types.specs.Props.{PropChange};

    ghost Value = { List PropChange };

    ghost view = { λ c. c.list.items };
}

impl PropChanges {
    /// These changes.
    pub fn new(list: Vec<PropChange>) -> PropChanges
        ensures { result ≡ list.items }
    {
        PropChanges { list }
    }

    /// The changes, in order.
    pub fn as_slice(&self) -> &[PropChange]
        ensures { result.now ≡ self.now }
    {
        &self.list
    }
}

/// The properties of a record.
#[derive(Debug, Drop)]
pub enum PropSection {
    /// All that the node has.
    Whole(Props),
    /// What changes of those before (format 3); a property without a value goes.
    Delta(PropChanges),
}

/// A text as a difference from the one before (svndiff), in format 3.
#[derive(Debug, Drop)]
pub struct TextDelta {
    /// The difference.
    pub delta: Text,
    /// The MD5 checksum of the text that it is applied to.
    pub base_md5: Option<Digest>,
    /// The SHA-1 checksum of that text.
    pub base_sha1: Option<Sha1Sum>,
    /// The MD5 checksum of the text that it leads to.
    pub md5: Option<Digest>,
    /// The SHA-1 checksum of the text that it leads to.
    pub sha1: Option<Sha1Sum>,
}

/// The text of a record.
#[derive(Debug, Drop)]
pub enum TextSection {
    /// The text, or its stand-in.
    Whole(Text),
    /// How it differs from the one before.
    Delta(TextDelta),
}

/// What a revision does to one node.
#[derive(Debug, Drop)]
pub struct NodeRecord {
    /// Where it is.
    pub path: RelPath,
    /// What it is, if that is given: a delete has none.
    pub kind: Option<Kind>,
    /// What is done to it.
    pub action: Action,
    /// Where it is copied from, if it is.
    pub source: Option<CopySource>,
    /// Its properties, if they are given.
    pub props: Option<PropSection>,
    /// Its text, if it is given.
    pub text: Option<TextSection>,
}

/// A record of a dump.
#[derive(Debug, Drop)]
pub enum Record {
    /// The identity of the repository, or the format again: nothing that a history has.
    Other,
    /// A revision begins.
    Revision {
        /// Its number. Its own properties, as its log message, are passed over.
        rev: Rev,
    },
    /// A node of the revision that began last.
    Node(NodeRecord),
}
