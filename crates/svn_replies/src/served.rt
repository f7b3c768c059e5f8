//! What is served.
ghost use Rattle.std.specs.Prelude.{◌≡◌, ◌↔◌, codes, slice_get, IfOk, IfSome, IsSome};
ghost use Rattle.std.specs.Option.{option_copied};
ghost use Rattle.svn_repo.specs.History.{look};
ghost use Rattle.svn_repo.specs.Readings.{is_directory_at};
ghost use Rattle.svn_history.specs.Made.{RootsRise};
ghost use Rattle.svn_history.specs.Changed.{IsLastChange};
ghost use Rattle.svn_replies.specs.Values.{value_in, value_at};
ghost use Rattle.svn_replies.specs.Nodes.{line_at, has_props};
ghost use Rattle.svn_replies.specs.LastChanges.{IsChangeOrNone};
ghost use Rattle.svn_replies.specs.NodeTexts.{size_of, sum_of};

use crate::changes::Changes;
use std::alloc::{AllocError, Global};
use std::marker::Model;
use svn_drive::DriveOptions;
use svn_dump::DumpIndex;
use svn_history::last_change;
use svn_repo::{NodeId, Repo};
use svn_types::{Digest, Kind, Props, RelPath, Rev, Text};
use svn_wire_calls::Entered;

/// The properties of revisions: author, date, log message.
#[derive(Debug, Drop)]
pub struct Revisions {
    props: Vec<Props>,
}

impl Model for Revisions {
    ghost use Rattle.std.specs.Prelude.{ℕ, List};

    ghost Value = { List (List (List ℕ × List ℕ)) };

    ghost view = { λ r. r.props.items };
}

// The value of the property of that name.
fn value_in<'a>(props: &'a Props, name: &[u8]) -> Option<&'a Text>
    ensures { option_copied result ≡ value_in name.now props.now }
{
    for (found, value) in props.iter() {
        if found.as_str().as_bytes() == name {
            return Some(value);
        }
    }
    None
}

impl Revisions {
    /// The properties of the revisions from 0 on. Those that are missing at the end have none.
    pub fn new(props: Vec<Props>) -> Revisions
        ensures { result ≡ props.items }
    {
        Revisions { props }
    }

    /// The properties of a revision.
    pub fn props(&self, rev: Rev) -> Option<&Props>
        ensures { option_copied result ≡ slice_get self.now rev }
    {
        if rev.0 < self.props.len() as u64 {
            self.props.get(rev.0 as usize)
        } else {
            None
        }
    }

    /// The value of one of them.
    pub fn value(&self, rev: Rev, name: &[u8]) -> Option<&Text>
        ensures { option_copied result ≡ value_at self.now rev name.now }
    {
        value_in(self.props(rev)?, name)
    }
}

/// What a repository holds of texts.
#[derive(Clone, Copy, Debug, PartialEq, Eq)]
pub enum Holds {
    /// The texts themselves.
    Texts,
    /// A stand-in for each, by its SHA-1 checksum: the texts are in the dump, where its index says.
    StandIns,
}

/// What is served. It never changes.
#[derive(Drop)]
pub struct Served {
    /// The repository, loaded from a dump that begins at its first revision.
    pub repo: Repo,
    /// What the dump says of copies, and where the texts are that it gives whole.
    pub index: DumpIndex,
    /// What the repository holds of texts.
    pub holds: Holds,
    /// The properties of its revisions.
    pub revisions: Revisions,
    /// What its revisions changed, path by path.
    pub changes: Changes,
    /// Its UUID.
    pub uuid: Text,
    /// Where it is in URLs, after the host: a slash and a name for each directory, and nothing where it is the host's root.
    pub root: Text,
    /// How drives are made.
    pub options: DriveOptions,
}

fn copied(text: Option<&Text>) -> Result<Option<Text>, AllocError>
    ensures { IfOk result (λ copy. copy ≡ option_copied text.entry) }
{
    match text {
        Some(text) => Ok(Some(text.clone()?)),
        None => Ok(None),
    }
}

impl Served {
    // The revision that changed the node at a path last; None where nothing is there.
    fn changed_rev(
        &self,
        alloc: Global,
        rev: Rev,
        path: &RelPath,
    ) -> Result<Option<Rev>, AllocError>
        ensures found { IfOk result (λ found. IsSome found ↔ IsSome (look self.now.repo rev path.now)) }
        ensures changed { RootsRise self.now.repo → IfOk result (λ found. IfSome found (λ c. IsLastChange self.now.repo self.now.index.copies.items rev path.now c)) }
    {
        match last_change(alloc, &self.repo, &self.index, rev, path) {
            Ok(Some(change)) => Ok(Some(change.rev)),
            Ok(None) => Ok(None),
            // a dump with a path that is too long isn't loaded
            Err(_) => Err(AllocError),
        }
    }

    // What is known of a revision.
    fn entered_by(&self, rev: Rev) -> Result<Entered, AllocError>
        ensures rev { IfOk result (λ told. told.rev ≡ rev) }
        ensures date { IfOk result (λ told. told.date ≡ value_at self.now.revisions rev (codes "svn:date")) }
        ensures author { IfOk result (λ told. told.author ≡ value_at self.now.revisions rev (codes "svn:author")) }
    {
        Ok(Entered {
            rev,
            date: copied(self.revisions.value(rev, b"svn:date"))?,
            author: copied(self.revisions.value(rev, b"svn:author"))?,
        })
    }

    /// The last change of the node at a path; None where nothing is there.
    pub fn entered(
        &self,
        alloc: Global,
        rev: Rev,
        path: &RelPath,
    ) -> Result<Option<Entered>, AllocError>
        ensures { IfOk result (IsChangeOrNone self.now rev path.now) }
    {
        match self.changed_rev(alloc, rev, path)? {
            Some(changed) => Ok(Some(self.entered_by(changed)?)),
            None => Ok(None),
        }
    }

    /// Whether a directory is at a path.
    pub fn has_directory(&self, rev: Rev, path: &RelPath) -> bool
        ensures { result ≡ is_directory_at self.now.repo (look self.now.repo rev path.now) }
    {
        match self.repo.lookup(rev, path) {
            Some(node) => self.repo.kind(node) == Some(Kind::Directory),
            None => false,
        }
    }

    /// The line of the node at a path.
    pub fn line_at(&self, rev: Rev, path: &RelPath) -> Option<u64>
        ensures { result ≡ line_at self.now.repo rev path.now }
    {
        let node = self.repo.lookup(rev, path)?;
        self.repo.line(node)
    }

    /// How many bytes a file has; none at a directory.
    pub(crate) fn size(&self, node: NodeId) -> u64
        ensures { result ≡ size_of self.now node }
    {
        match self.repo.text(node) {
            Some(held) => self.known_len(held),
            None => 0,
        }
    }

    /// The MD5 checksum of a file; None at a directory.
    pub(crate) fn sum(&self, node: NodeId) -> Option<Digest>
        ensures { result ≡ sum_of self.now node }
    {
        match self.repo.shared_text(node) {
            Some(held) => self.known_md5(held),
            None => None,
        }
    }

    /// Whether a node has properties.
    pub(crate) fn has_props(&self, node: NodeId) -> bool
        ensures { result ≡ has_props self.now.repo node }
    {
        match self.repo.props(node) {
            Some(props) => !props.is_empty(),
            None => false,
        }
    }
}
