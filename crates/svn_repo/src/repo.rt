//! A repository: its revisions, and the nodes that they share.
ghost use Rattle.std.specs.Prelude.{◌≡◌, ◌≢◌, ℕ, ◌+◌, length, take, map, option_map, IfOk, Some, None, option_and_then, ◌∷◌, [], ◌⊎◌, IfErr, OnErr, IfNone, IfSome, IsSome};
ghost use Rattle.std.specs.Option.{option_copied};
ghost use Rattle.svn_types.specs.Names.{Path};
ghost use Rattle.svn_repo.specs.Changes.{IsCommit, commit_fault};
ghost use Rattle.svn_repo.specs.History.{look, node_at, text_in, entries_in, empty_directory, new_history};
ghost use Rattle.svn_repo.specs.Readings.{IsHistory, are_related, entries_of, text_of};
ghost use Rattle.svn_repo.specs.Stored.{row_of};

use crate::change::{Change, CommitFault};
use crate::commit::extend;
use crate::entries::{Entries, NodeId};
use crate::roots::Roots;
use crate::store::{Content, Node, Stored, lookup_in};
use std::alloc::{AllocError, Global};
use std::marker::Model;
use svn_types::{Kind, Props, RelPath, Rev, Text};

/// A repository: revisions, each a tree of files and directories with properties (after the filesystem of `svn_fs.h`, which a
/// repository of `svn_repos.h` holds). Revision 0 is an empty root, and each commit makes one more. Revisions share the nodes that
/// didn't change: one node number is one node revision, at whatever paths it is. It is kept in memory. A contract sees it as its history.
#[derive(Debug, Drop)]
pub struct Repo {
    pub(crate) stored: Stored,
    // The line of the next new node.
    pub(crate) lines: u64,
}

impl Model for Repo {
    ghost use Rattle.svn_repo.specs.History.{History};

    ghost Value = { History };

    ghost use Rattle.svn_repo.specs.Stored.{history_of, IsStored};

    ghost view = { λ r. history_of r.stored.roots r.stored.nodes.items r.lines };

    ghost invariant = { λ r. IsStored r.stored.roots r.stored.nodes.items r.lines r.stored.heights.items };
}

// The root of revision 0, which is its one node.
fn first_node(alloc: Global) -> Result<Vec<Node>, AllocError>
    ensures { IfOk result (λ v. map row_of v.items ≡ empty_directory 0 ∷ []) }
{
    let mut nodes = Vec::new(alloc);
    nodes.push(Node {
        line: 0,
        props: Props::new(alloc),
        content: Content::Listing(Entries::new(alloc)),
    })?;
    Ok(nodes)
}

fn first_height(alloc: Global) -> Result<Vec<u8>, AllocError>
    ensures { IfOk result (λ v. v.items ≡ 0 ∷ []) }
{
    let mut heights = Vec::new(alloc);
    heights.push(0)?;
    Ok(heights)
}

impl Repo {
    /// A repository whose revision 0 is an empty root, without properties, of line 0. Memory is its only fault.
    pub fn new(alloc: Global) -> Result<Repo, CommitFault>
        ensures ok { IfOk result (λ r. r ≡ new_history) }
        ensures fault { IfErr result (λ e. e ≡ CommitFault.Memory) }
    {
        let nodes = first_node(alloc)?;
        let heights = first_height(alloc)?;
        let stored = Stored {
            roots: Roots::first(alloc),
            nodes,
            heights,
        };
        Ok(Repo { stored, lines: 1 })
    }

    /// What holds of every repository, for the proofs of its callers; it does nothing. The root of each revision is a directory of
    /// line 0. Each node has a line that was given, and one line has one kind. Files have no entries, directories no text; entries
    /// and properties are in order of their names, which are lawful. Paths have at most 64 names, texts and values at most 1,048,576
    /// bytes.
    pub fn law(&self)
        ensures history { IsHistory self.now }
        // what is at any path is a node that the readers know
        ensures nodes { (r : ℕ) (p : Path) (n : ℕ) → look self.now r p ≡ Some n → IsSome (node_at self.now n) }
    {
        let _lines = &self.lines;
    }

    /// The newest revision; all from 0 to it are there.
    pub fn latest(&self) -> Rev
        ensures { result + 1 ≡ length self.now.roots }
    {
        Rev((self.stored.roots.len() - 1) as u64)
    }

    /// The node at a path in a revision; None where there is no such revision, or nothing is there. It costs the length of the path times the
    /// logarithm of the entries, and takes no memory.
    pub fn lookup(&self, rev: Rev, path: &RelPath) -> Option<NodeId>
        ensures { result ≡ look self.now rev path.now }
    {
        lookup_in(
            &self.stored.nodes,
            &self.stored.roots,
            rev,
            path.components(),
        )
    }

    /// The line of a node (its node-ID), from 0, which is that of the roots: two nodes are related exactly if they have one line. None if there
    /// is no such node.
    pub fn line(&self, id: NodeId) -> Option<u64>
        ensures { result ≡ option_map (λ row. row.line) (node_at self.now id) }
    {
        let node = self.stored.nodes.get(id.index)?;
        Some(node.line)
    }

    /// Whether two nodes are of one line, and so the same thing at two times or two places (`svn_fs_check_related` of `svn_fs.h`).
    /// A node that the repository doesn't have counts as one of line 0. It takes no memory.
    pub fn are_related(&self, a: NodeId, b: NodeId) -> bool
        ensures { result ≡ are_related self.now (Some a) (Some b) }
    {
        self.line(a).unwrap_or(0) == self.line(b).unwrap_or(0)
    }

    /// Whether a node is a file or a directory; None where there is no such node.
    pub fn kind(&self, id: NodeId) -> Option<Kind>
        ensures { result ≡ option_map (λ row. row.kind) (node_at self.now id) }
    {
        let node = self.stored.nodes.get(id.index)?;
        Some(node.kind())
    }

    /// The text of a file; None at a directory, and where there is no such node.
    pub fn text(&self, id: NodeId) -> Option<&[u8]>
        ensures value { option_copied result ≡ option_and_then text_in (node_at self.now id) }
        // only a file has a text
        ensures no_text { IfNone result (text_of self.now id ≡ []) }
        ensures text { IfSome result (λ text. text.now ≡ text_of self.now id) }
    {
        let text = self.shared_text(id)?;
        Some(text.as_slice())
    }

    /// The text of a file as it is stored, whose clones share its bytes; None at a directory, and where there is no such node.
    pub fn shared_text(&self, id: NodeId) -> Option<&Text>
        ensures value { option_copied result ≡ option_and_then text_in (node_at self.now id) }
        // only a file has a text
        ensures no_text { IfNone result (text_of self.now id ≡ []) }
        ensures text { IfSome result (λ text. text.now ≡ text_of self.now id) }
    {
        let node = self.stored.nodes.get(id.index)?;
        match &node.content {
            Content::Text(text) => Some(text),
            Content::Listing(_) => None,
        }
    }

    /// The properties of a node; None where there is no such node.
    pub fn props(&self, id: NodeId) -> Option<&Props>
        ensures { option_copied result ≡ option_map (λ row. row.props) (node_at self.now id) }
    {
        let node = self.stored.nodes.get(id.index)?;
        Some(&node.props)
    }

    /// The entries of a directory; None at a file, and where there is no such node.
    pub fn entries(&self, id: NodeId) -> Option<&Entries>
        ensures value { option_copied result ≡ option_and_then entries_in (node_at self.now id) }
        // only a directory has something below it
        ensures leaf { IfNone result (entries_of self.now id ≡ []) }
        ensures listing { IfSome result (λ entries. entries.now ≡ entries_of self.now id) }
    {
        let node = self.stored.nodes.get(id.index)?;
        match &node.content {
            Content::Text(_) => None,
            Content::Listing(entries) => Some(entries),
        }
    }

    /// Makes the changes in order, as one more revision, which is returned. The first change that can't be made decides
    /// the fault, and then nothing has changed; Memory comes only where the first change can be made. No changes make a revision with
    /// the same root node.
    ///
    /// It costs what the nodes cost that the changes make, those at their paths and the directories above, each once; and for each text that is
    /// put its checksum, which the stored text keeps where it has room.
    pub fn commit(&mut self, changes: &[Change]) -> Result<Rev, CommitFault>
        ensures ok { IfOk result (λ r. (r ≡ length self.old.roots) × IsCommit self.old self.new changes.now) }
        ensures fault { IfErr result (λ e. (e ≡ CommitFault.Memory) ⊎ (commit_fault self.old changes.now ≡ Some e)) }
        // Memory comes last: where the first change can't be made, its fault is returned
        ensures memory { IfErr result (λ e. e ≡ CommitFault.Memory → commit_fault self.old (take 1 changes.now) ≡ None) }
        ensures never_full { IfErr result (λ e. e ≢ CommitFault.Full) }
        ensures unchanged { OnErr result (self.new ≡ self.old) }
    {
        let revision = self.stored.roots.len() as u64;
        match extend(&mut self.stored, self.lines, changes) {
            Ok(lines) => {
                self.lines = lines;
                Ok(Rev(revision))
            }
            Err(fault) => Err(fault),
        }
    }
}
