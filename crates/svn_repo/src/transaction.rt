//! A revision that is made change by change, with look-ups in between.
ghost use Rattle.std.specs.Prelude.{◌≡◌, ◌≢◌, ℕ, ◌+◌, ◌-◌, ◌≤◌, ◌⊎◌, length, take, slice_get, Some, None, [], IfOk, IfErr, Option, IfNone, IfSome, OnOk, OnErr, option_map, option_and_then};
ghost use Rattle.std.specs.Option.{option_copied};
ghost use Rattle.svn_repo.specs.Changes.{IsRevision, change_fault};
ghost use Rattle.svn_repo.specs.Stored.{row_of};
ghost use Rattle.svn_repo.specs.Trees.{place_of};
ghost use Rattle.svn_repo.specs.Transactions.{IsBegun, IsChanged, pending_of, file_text, text_or_empty};

use crate::change::{Change, CommitFault};
use crate::commit::{examine, make, push_root, start_draft};
use crate::repo::Repo;
use crate::store::{Content, Draft, Node, Past, Stored, node_below};
use std::marker::Model;
use svn_types::{Kind, Props, RelPath, Rev, Text};

/// A repository whose next revision is being made, change by change, with look-ups in between (after `svn_fs_begin_txn`,
/// `svn_fs_commit_txn` and `svn_fs_abort_txn` of `svn_fs.h`). It has the repository to itself, from [`Repo::begin`] to
/// [`Transaction::into_repo`], and after a commit makes the revision after that. A contract sees it as the history so far, and the tree
/// that the changes have made of the last revision.
#[derive(Debug, Drop)]
pub struct Transaction {
    // The revisions so far, and after their nodes those of the draft.
    stored: Stored,
    // The line of the next new node, were there no draft.
    lines: u64,
    draft: Draft,
}

impl Model for Transaction {
    ghost use Rattle.svn_repo.specs.Transactions.{OpenRevision, IsOpen, open_in};

    ghost Value = { OpenRevision };

    ghost view = { λ t. open_in t.draft.base t.stored.roots t.stored.nodes.items t.lines t.draft.root t.draft.lines };

    ghost invariant = { λ t. IsOpen t.draft.base t.stored.roots t.stored.nodes.items t.lines t.draft.root t.draft.lines t.stored.heights.items };
}

// Gives up the changes made on a draft over that many nodes, and begins another.
fn give_up(stored: &mut Stored, base: usize, lines: u64) -> Draft
    requires { 1 ≤ length stored.old.roots }
    ensures nodes { stored.new.nodes.items ≡ take base stored.old.nodes.items }
    ensures roots { stored.new.roots ≡ stored.old.roots }
    ensures heights { stored.new.heights.items ≡ stored.old.heights.items }
    ensures base { result.base ≡ length stored.new.nodes.items }
    ensures root { slice_get stored.old.roots (length stored.old.roots - 1) ≡ Some result.root }
    ensures lines { result.lines ≡ lines }
{
    stored.nodes.truncate(base);
    start_draft(stored, lines)
}

impl Repo {
    /// Begins a revision on the last one. It takes no memory.
    pub fn begin(self) -> Transaction
        ensures { IsBegun self result }
    {
        let Repo { stored, lines } = self;
        let draft = start_draft(&stored, lines);
        Transaction {
            stored,
            lines,
            draft,
        }
    }
}

impl Transaction {
    /// Makes a change, after those made so far. One that can't be made is refused and leaves all as it was. Out of memory, all
    /// changes so far are given up. It costs what the change costs in [`Repo::commit`].
    pub fn change(&mut self, change: &Change) -> Result<(), CommitFault>
        ensures made { OnOk result (change_fault self.old.history (pending_of self.old) change.now ≡ None) }
        ensures ok { OnOk result (IsChanged self.old change.now self.new) }
        ensures fault { IfErr result (λ e. (e ≡ CommitFault.Memory) ⊎ (change_fault self.old.history (pending_of self.old) change.now ≡ Some e)) }
        // Memory comes last: where the change can't be made, its fault is returned
        ensures memory { IfErr result (λ e. e ≡ CommitFault.Memory → change_fault self.old.history (pending_of self.old) change.now ≡ None) }
        ensures never_full { IfErr result (λ e. e ≢ CommitFault.Full) }
        ensures unchanged { IfErr result (λ e. e ≢ CommitFault.Memory → self.new ≡ self.old) }
        ensures given_up { IfErr result (λ e. e ≡ CommitFault.Memory → IsBegun self.old.history self.new) }
    {
        let past = Past {
            roots: &self.stored.roots,
            heights: &self.stored.heights,
        };
        let near = match examine(&self.stored.nodes, &past, self.draft.root, change) {
            Ok(near) => near,
            Err(fault) => return Err(fault),
        };
        match make(&mut self.stored.nodes, past.roots, self.draft, change, near) {
            Ok(draft) => {
                self.draft = draft;
                Ok(())
            }
            Err(_) => {
                self.draft = give_up(&mut self.stored, self.draft.base, self.lines);
                Err(CommitFault::Memory)
            }
        }
    }

    // The node at a path of the draft.
    fn node(&self, path: &RelPath) -> Option<&Node>
        ensures none { IfNone result ((pending_of self.now).tree path.now ≡ None) }
        ensures some { IfSome result (λ node. (number : Option ℕ) × ((pending_of self.now).tree path.now ≡ Some (place_of number (row_of node.now)))) }
    {
        let id = node_below(&self.stored.nodes, self.draft.root, path.components())?;
        let node = self.stored.nodes.get(id.index)?;
        Some(node)
    }

    /// Whether a file or a directory is at a path; None where nothing is. It costs the length of the path times the logarithm of the
    /// entries, as the other look-ups, and like them takes no memory.
    pub fn kind(&self, path: &RelPath) -> Option<Kind>
        ensures { result ≡ option_map (λ p. p.kind) ((pending_of self.now).tree path.now) }
    {
        let node = self.node(path)?;
        Some(node.kind())
    }

    /// The text of the file at a path, as it is stored: its clones share its bytes. None at a directory, and where nothing is.
    pub fn text(&self, path: &RelPath) -> Option<&Text>
        ensures value { option_copied result ≡ option_and_then file_text ((pending_of self.now).tree path.now) }
        // only a file has a text
        ensures no_text { IfNone result (text_or_empty ((pending_of self.now).tree path.now) ≡ []) }
        ensures text { IfSome result (λ text. text.now ≡ text_or_empty ((pending_of self.now).tree path.now)) }
    {
        let node = self.node(path)?;
        match &node.content {
            Content::Text(text) => Some(text),
            Content::Listing(_) => None,
        }
    }

    /// The properties of the node at a path; None where nothing is.
    pub fn props(&self, path: &RelPath) -> Option<&Props>
        ensures { option_copied result ≡ option_map (λ p. p.props) ((pending_of self.now).tree path.now) }
    {
        let node = self.node(path)?;
        Some(&node.props)
    }

    /// The newest revision, on which the changes are made; all from 0 to it are there.
    pub fn latest(&self) -> Rev
        ensures { result + 1 ≡ length self.now.history.roots }
    {
        Rev((self.stored.roots.len() - 1) as u64)
    }

    /// Makes a revision of the changes so far, which is returned, and begins the next one. Its only fault is Memory, which leaves all as
    /// it was. No changes make a revision with the same root node. It costs what the nodes cost that the changes made.
    pub fn commit(&mut self) -> Result<Rev, CommitFault>
        ensures ok { IfOk result (λ r. r ≡ length self.old.history.roots) }
        ensures revision { OnOk result (IsRevision self.old.history self.new.history (pending_of self.old)) }
        ensures begun { OnOk result (IsBegun self.new.history self.new) }
        ensures fault { IfErr result (λ e. e ≡ CommitFault.Memory) }
        ensures unchanged { OnErr result (self.new ≡ self.old) }
    {
        let revision = self.stored.roots.len() as u64;
        let base = self.stored.nodes.len();
        match push_root(&mut self.stored, self.draft.root) {
            Ok(()) => {
                self.lines = self.draft.lines;
                self.draft.base = base;
                Ok(Rev(revision))
            }
            Err(_) => {
                self.stored.heights.truncate(self.draft.base);
                Err(CommitFault::Memory)
            }
        }
    }

    /// Gives up the changes so far, and begins again on the last revision. It takes no memory.
    pub fn abort(&mut self)
        ensures { IsBegun self.old.history self.new }
    {
        let base = self.draft.base;
        self.draft = give_up(&mut self.stored, base, self.lines);
    }

    /// The repository. Changes that aren't committed are given up. It takes no memory.
    pub fn into_repo(self) -> Repo
        ensures { result ≡ self.history }
    {
        let Transaction {
            mut stored,
            lines,
            draft,
        } = self;
        stored.nodes.truncate(draft.base);
        Repo { stored, lines }
    }
}
