//! What a dump says beside its history: who made each revision, and when; where each whole text is; and which nodes are copies.
ghost use Rattle.std.specs.Prelude.{◌≡◌, [], true, false, None, Some, IfOk, IfNone, IfSome, OnOk};
ghost use Rattle.std.specs.Option.{option_copied};
ghost use Rattle.svn_dump.specs.Indexes.{date_of, author_of, place_of, rev_after, puts, is_copy, IsCopyOf, NotesNode, NotesCopy, NotesText};

use crate::copy_note::CopyNote;
use crate::notes::{Notes, TextSums};
use crate::record::{Action, CopySource, NodeRecord, Record};
use std::alloc::{AllocError, Global};
use std::collections::BTreeMap;
use svn_types::{Digest, Rev, Sha1Sum, Text};

/// What a revision's properties say.
#[derive(Debug, Drop)]
pub struct RevisionNote {
    pub(crate) date: Option<Text>,
    pub(crate) author: Option<Text>,
}

/// Where a whole text is in a dump.
#[derive(Clone, Copy, Debug, PartialEq, Eq)]
pub struct TextPlace {
    /// How many bytes of the dump are before it.
    pub begin: u64,
    /// How many bytes it has.
    pub len: u64,
    /// Its MD5 checksum.
    pub md5: Digest,
}

/// What a dump says beside its history, as far as it was read.
#[derive(Debug, Drop)]
pub struct DumpIndex {
    // The revision that began last.
    rev: Option<Rev>,
    revisions: BTreeMap<Rev, RevisionNote>,
    texts: BTreeMap<[u8; 20], TextPlace>,
    copies: Vec<CopyNote>,
}

// Whether a node is put there that wasn't.
fn puts(action: Action) -> bool
    ensures { result ≡ puts action }
{
    match action {
        Action::Add | Action::Replace => true,
        Action::Change | Action::Delete => false,
    }
}

// The copy that a node is in the revision that began last, if it is one.
fn copy_of(rev: Option<Rev>, node: &NodeRecord) -> Result<Option<CopyNote>, AllocError>
    ensures copy { IfOk result (λ found. IfSome found (λ note. (is_copy rev node.now.action node.now.source ≡ true) × IsCopyOf rev node.now note)) }
    ensures no_copy { IfOk result (λ found. IfNone found (is_copy rev node.now.action node.now.source ≡ false)) }
{
    let Some(rev) = rev else {
        return Ok(None);
    };
    let Some(source) = &node.source else {
        return Ok(None);
    };
    if !puts(node.action) || source.rev >= rev {
        return Ok(None);
    }
    let path = node.path.clone()?;
    let source = CopySource {
        rev: source.rev,
        path: source.path.clone()?,
    };
    Ok(Some(CopyNote { rev, path, source }))
}

impl DumpIndex {
    // Nothing was read yet.
    pub(crate) fn new(alloc: Global) -> DumpIndex
        ensures rev { result.rev ≡ None }
        ensures copies { result.copies.items ≡ [] }
    {
        DumpIndex {
            rev: None,
            revisions: BTreeMap::new(alloc),
            texts: BTreeMap::new(alloc),
            copies: Vec::new(alloc),
        }
    }

    /// The date of a revision, as its property `svn:date` has it; None if it has none, or its properties couldn't be read.
    pub fn date(&self, rev: Rev) -> Option<&[u8]>
        ensures { option_copied result ≡ date_of self.now rev }
    {
        let note = self.revisions.get(&rev)?;
        match &note.date {
            Some(date) => Some(date.as_slice()),
            None => None,
        }
    }

    /// The author of a revision, as its property `svn:author` has it; None if it has none, or its properties couldn't be read.
    pub fn author(&self, rev: Rev) -> Option<&[u8]>
        ensures { option_copied result ≡ author_of self.now rev }
    {
        let note = self.revisions.get(&rev)?;
        match &note.author {
            Some(author) => Some(author.as_slice()),
            None => None,
        }
    }

    /// Where the text with this SHA-1 checksum was first given whole; None if it wasn't.
    pub fn text(&self, sha1: &Sha1Sum) -> Option<TextPlace>
        ensures { result ≡ place_of self.now sha1.now }
    {
        self.texts.get(&sha1.0).copied()
    }

    /// The copies, in the order of the dump.
    pub fn copies(&self) -> &[CopyNote]
        ensures { result.now ≡ self.now.copies.items }
    {
        &self.copies
    }

    // Notes a revision; of a number that comes twice the last one counts.
    fn note_revision(&mut self, rev: Rev, note: RevisionNote) -> Result<(), AllocError>
        ensures rev { OnOk result (self.new.rev ≡ Some rev) }
        ensures date { OnOk result (date_of self.new rev ≡ note.date) }
        ensures author { OnOk result (author_of self.new rev ≡ note.author) }
        ensures copies { self.new.copies ≡ self.old.copies }
        ensures texts { self.new.texts ≡ self.old.texts }
    {
        self.rev = Some(rev);
        self.revisions.insert(rev, note)?;
        Ok(())
    }

    // Notes a node that is a copy of an earlier revision's.
    #[tactic(auto, using(crate::specs::Indexes::copy, crate::specs::Indexes::no_copy))]
    fn note_copy(&mut self, node: &NodeRecord) -> Result<(), AllocError>
        ensures copies { OnOk result (NotesNode self.old.rev node.now self.old.copies.items self.new.copies.items) }
        ensures rev { self.new.rev ≡ self.old.rev }
        ensures revisions { self.new.revisions ≡ self.old.revisions }
        ensures texts { self.new.texts ≡ self.old.texts }
    {
        match copy_of(self.rev, node)? {
            Some(note) => Ok(self.copies.push(note)?),
            None => Ok(()),
        }
    }

    // Notes where a whole text is, if one was read, that ends after so many bytes of the dump.
    #[tactic(auto, using(crate::proofs::Indexing::one_noted, crate::proofs::Indexing::none_noted))]
    fn note_text(&mut self, text: Option<TextSums>, end: u64) -> Result<(), AllocError>
        ensures texts { OnOk result (NotesText end self.old self.new) }
        ensures rev { self.new.rev ≡ self.old.rev }
        ensures revisions { self.new.revisions ≡ self.old.revisions }
        ensures copies { self.new.copies ≡ self.old.copies }
    {
        let Some(text) = text else {
            return Ok(());
        };
        if self.texts.contains_key(&text.sha1.0) {
            return Ok(());
        }
        let place = TextPlace {
            begin: end.saturating_sub(text.len),
            len: text.len,
            md5: text.md5,
        };
        self.texts.insert(text.sha1.0, place)?;
        Ok(())
    }

    // Notes a record after which so many bytes of the dump were taken.
    #[tactic(auto, using(crate::proofs::Indexing::none_noted))]
    pub(crate) fn note(&mut self, what: &Record, notes: Notes, taken: u64) -> Result<(), AllocError>
        ensures rev { OnOk result (self.new.rev ≡ rev_after self.old.rev what.now) }
        ensures copies { OnOk result (NotesCopy self.old.rev what.now self.old.copies.items self.new.copies.items) }
        ensures texts { OnOk result (NotesText taken self.old self.new) }
    {
        let Notes { revision, text, .. } = notes;
        match what {
            Record::Other => Ok(()),
            Record::Revision { rev } => self.note_revision(*rev, revision),
            Record::Node(node) => {
                self.note_copy(node)?;
                self.note_text(text, taken)
            }
        }
    }
}
