//! What no server should send.

use anyhow::{Result, bail};
use std::alloc::Global;

/// What a server sends. Where a row has a text, it is what comes last.
#[derive(Clone, Copy)]
enum Sent {
    /// Nothing.
    Nothing,
    /// The text alone.
    Alone(&'static str),
    /// The greeting, and the text.
    Greeted(&'static str),
    /// The greeting, and the text a million times.
    Million(&'static str),
    /// All answers about the true copy, and the text.
    Answered(&'static str),
    /// The answers about the untrue copy, and the text in the place of the last one.
    Another(&'static str),
}

/// A row.
#[derive(Clone, Copy)]
pub(crate) struct Row {
    pub(crate) name: &'static str,
    sent: Sent,
}

static ROWS: [Row; 15] = [
    Row {
        name: "nothing",
        sent: Sent::Nothing,
    },
    Row {
        name: "a line of a login shell",
        sent: Sent::Alone("Welcome to this host\n"),
    },
    Row {
        name: "another version",
        sent: Sent::Alone("( success ( 3 4 ( ) ( ) ) ) "),
    },
    Row {
        name: "a greeting alone",
        sent: Sent::Greeted(""),
    },
    Row {
        name: "no mechanism",
        sent: Sent::Greeted("( success ( ( CRAM-MD5 ) 1:x ) ) "),
    },
    Row {
        name: "a string of 2^63 bytes",
        sent: Sent::Greeted("( success ( 9223372036854775808:x "),
    },
    Row {
        name: "a number of 21 digits",
        sent: Sent::Greeted("( success ( 123456789012345678901 "),
    },
    Row {
        name: "a million lists",
        sent: Sent::Million("( "),
    },
    Row {
        name: "spaces",
        sent: Sent::Million(" "),
    },
    Row {
        name: "one answer too many",
        sent: Sent::Answered("( success ( ( ) 0: ) ) ( success ( file ) ) "),
    },
    Row {
        name: "a byte too many",
        sent: Sent::Answered("("),
    },
    Row {
        name: "a directory where none is",
        sent: Sent::Another("( success ( dir ) ) "),
    },
    Row {
        name: "nothing where no directory is",
        sent: Sent::Another("( success ( none ) ) "),
    },
    Row {
        name: "a failure of another sort",
        sent: Sent::Another("( failure ( ( 170001 20:Authorization failed 0: 0 ) ) ) "),
    },
    Row {
        name: "a kind that is no kind",
        sent: Sent::Another("( success ( link ) ) "),
    },
];

/// All of it.
pub(crate) fn rows() -> &'static [Row] {
    &ROWS
}

// Bytes, and a text after them.
fn with_end(alloc: Global, bytes: &[u8], end: &str) -> Result<Vec<u8>> {
    let mut all = Vec::from_slice(alloc, bytes)?;
    all.extend_from_slice(end.as_bytes())?;
    Ok(all)
}

// Bytes, and a text after them a million times.
fn with_million(alloc: Global, bytes: &[u8], text: &str) -> Result<Vec<u8>> {
    let mut all = Vec::from_slice(alloc, bytes)?;
    for _ in 0..1000000 {
        all.extend_from_slice(text.as_bytes())?;
    }
    Ok(all)
}

// The greeting, with which the answers begin.
fn greeting(bytes: &[u8]) -> Result<&[u8]> {
    for at in 0..bytes.len() {
        if bytes[at..].starts_with(b" ( success ( ( ANON") {
            let end = at.saturating_add(1);
            return Ok(&bytes[..end.min(bytes.len())]);
        }
    }
    bail!("no greeting")
}

// The answers without the last one.
fn without_last(bytes: &[u8]) -> &[u8] {
    let last = "( success ( file ) ) ".len();
    &bytes[..bytes.len().saturating_sub(last)]
}

impl Row {
    /// Whether it is sent about the untrue copy.
    pub(crate) fn is_about_untrue(&self) -> bool {
        matches!(self.sent, Sent::Another(_))
    }

    /// The bytes, by those that were sent about the true copy and about the untrue one.
    pub(crate) fn bytes(&self, alloc: Global, bytes: &[u8], others: &[u8]) -> Result<Vec<u8>> {
        match self.sent {
            Sent::Nothing => Ok(Vec::new(alloc)),
            Sent::Alone(text) => with_end(alloc, b"", text),
            Sent::Greeted(text) => with_end(alloc, greeting(bytes)?, text),
            Sent::Million(text) => with_million(alloc, greeting(bytes)?, text),
            Sent::Answered(text) => with_end(alloc, bytes, text),
            Sent::Another(text) => with_end(alloc, without_last(others), text),
        }
    }
}
