//! The headers of a dump's records, as far as they say what revisions are and what they changed.

use std::alloc::{AllocError, Global};
use std::str;
use svn_dump::Action;
use svn_types::Kind;

/// The headers of a record.
#[derive(Drop)]
pub(crate) struct Headers {
    /// The number of a revision.
    pub(crate) rev: Option<u64>,
    /// How many bytes the properties have, if there is a section of them.
    pub(crate) props: Option<u64>,
    /// Whether there is a text.
    pub(crate) text: bool,
    /// How many bytes come after the headers.
    pub(crate) content: u64,
    /// The path of a node.
    pub(crate) path: Option<Vec<u8>>,
    /// What it is.
    pub(crate) kind: Option<Kind>,
    /// What is done to it.
    pub(crate) action: Option<Action>,
    /// The revision that it is copied from.
    pub(crate) source_rev: Option<u64>,
    /// The path that it is copied from.
    pub(crate) source_path: Option<Vec<u8>>,
}

/// The number that a text is.
pub(crate) fn number_of(text: &[u8]) -> Option<u64> {
    str::from_utf8(text).ok()?.parse::<u64>().ok()
}

fn kind_of(word: &[u8]) -> Option<Kind> {
    if word == b"file".as_slice() {
        Some(Kind::File)
    } else if word == b"dir".as_slice() {
        Some(Kind::Directory)
    } else {
        None
    }
}

fn action_of(word: &[u8]) -> Option<Action> {
    if word == b"add".as_slice() {
        Some(Action::Add)
    } else if word == b"change".as_slice() {
        Some(Action::Change)
    } else if word == b"delete".as_slice() {
        Some(Action::Delete)
    } else if word == b"replace".as_slice() {
        Some(Action::Replace)
    } else {
        None
    }
}

impl Headers {
    /// None yet.
    pub(crate) fn new() -> Headers {
        Headers {
            rev: None,
            props: None,
            text: false,
            content: 0,
            path: None,
            kind: None,
            action: None,
            source_rev: None,
            source_path: None,
        }
    }

    /// Notes a line.
    pub(crate) fn note(&mut self, alloc: Global, line: &[u8]) -> Result<(), AllocError> {
        self.note_lengths(line);
        self.note_node(line);
        self.note_paths(alloc, line)
    }

    // The number of a revision, and what comes after the headers.
    fn note_lengths(&mut self, line: &[u8]) {
        if let Some(number) = line.strip_prefix(b"Revision-number: ") {
            self.rev = number_of(number);
        } else if let Some(number) = line.strip_prefix(b"Prop-content-length: ") {
            self.props = number_of(number);
        } else if line.starts_with(b"Text-content-length: ") {
            self.text = true;
        } else if let Some(number) = line.strip_prefix(b"Content-length: ") {
            self.content = number_of(number).unwrap_or(0);
        }
    }

    fn note_node(&mut self, line: &[u8]) {
        if let Some(word) = line.strip_prefix(b"Node-kind: ") {
            self.kind = kind_of(word);
        } else if let Some(word) = line.strip_prefix(b"Node-action: ") {
            self.action = action_of(word);
        } else if let Some(number) = line.strip_prefix(b"Node-copyfrom-rev: ") {
            self.source_rev = number_of(number);
        }
    }

    fn note_paths(&mut self, alloc: Global, line: &[u8]) -> Result<(), AllocError> {
        if let Some(path) = line.strip_prefix(b"Node-path: ") {
            self.path = Some(Vec::from_slice(alloc, path)?);
        } else if let Some(path) = line.strip_prefix(b"Node-copyfrom-path: ") {
            self.source_path = Some(Vec::from_slice(alloc, path)?);
        }
        Ok(())
    }
}
