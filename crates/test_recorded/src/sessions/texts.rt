//! A text that is longer than a piece; and files in which a text isn't any more what it was when the dump was loaded.

use crate::sessions::hostile::opened;
use anyhow::Result;
use std::alloc::Global;

/// A text of two pieces, and a part of one.
const LEN: usize = 250000;

/// What is before the text in its dump.
const FRONT: &str =
    "SVN-fs-dump-format-version: 2\n\nUUID: 5f0c6a1e-0000-4000-8000-000000000001\n\n\
    Revision-number: 0\nProp-content-length: 10\nContent-length: 10\n\nPROPS-END\n\n\
    Revision-number: 1\nProp-content-length: 10\nContent-length: 10\n\nPROPS-END\n\n\
    Node-path: f\nNode-kind: file\nNode-action: add\nProp-content-length: 10\nText-content-length: 250000\nContent-length: 250010\n\nPROPS-END\n";

const GET: &str = "( get-file ( 1:f ( 1 ) true true ) ) ( get-latest-rev ( ) ) ";

const CHECKOUT: &str =
    "( update ( ( 1 ) 0: true ) ) ( set-path ( 0: 1 true ) ) ( finish-report ( ) ) ( success ( ) ) ( get-latest-rev ( ) ) ";

/// The file of the texts, when they are sent.
#[derive(Clone, Copy, PartialEq, Eq)]
enum Kept {
    /// It is as it was.
    Whole,
    /// The last byte of the text is another.
    Changed,
    /// The text is cut off after so many bytes.
    CutOff(usize),
}

/// What a client sends of a dump, and what is in its file then.
#[derive(Clone, Copy)]
pub(crate) struct Sent {
    pub(crate) name: &'static str,
    kept: Kept,
    commands: &'static str,
}

static ROWS: [Sent; 5] = [
    Sent {
        name: "a text of three pieces",
        kept: Kept::Whole,
        commands: GET,
    },
    Sent {
        name: "a text of three pieces, checked out",
        kept: Kept::Whole,
        commands: CHECKOUT,
    },
    Sent {
        name: "a text that has become another",
        kept: Kept::Changed,
        commands: GET,
    },
    Sent {
        name: "a text that has become another, checked out",
        kept: Kept::Changed,
        commands: CHECKOUT,
    },
    Sent {
        name: "a text that was cut off",
        kept: Kept::CutOff(220000),
        commands: GET,
    },
];

/// What is sent of the long text.
pub(crate) fn rows() -> &'static [Sent] {
    &ROWS
}

// The front of the dump, and so many bytes of its text.
fn front(alloc: Global, len: usize) -> Result<Vec<u8>> {
    let mut bytes = Vec::from_slice(alloc, FRONT.as_bytes())?;
    for _ in 0..len {
        bytes.push(b'x')?;
    }
    Ok(bytes)
}

// The dump, with this as the last byte of its text.
fn ending(alloc: Global, last: u8) -> Result<Vec<u8>> {
    let mut bytes = front(alloc, LEN - 1)?;
    bytes.push(last)?;
    bytes.extend_from_slice("\n\n".as_bytes())?;
    Ok(bytes)
}

/// The dump of the long text.
pub(crate) fn dump(alloc: Global) -> Result<Vec<u8>> {
    ending(alloc, b'x')
}

impl Sent {
    /// The bytes of the session.
    pub(crate) fn session(&self, alloc: Global) -> Result<Vec<u8>> {
        opened(alloc, self.commands.as_bytes())
    }

    /// The file when the text is sent.
    pub(crate) fn file(&self, alloc: Global) -> Result<Vec<u8>> {
        match self.kept {
            Kept::Whole => dump(alloc),
            Kept::Changed => ending(alloc, b'y'),
            Kept::CutOff(len) => front(alloc, len),
        }
    }
}
