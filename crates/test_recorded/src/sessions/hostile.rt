//! What no client should send.

use anyhow::Result;
use std::alloc::Global;

/// What a client sends after the opening.
#[derive(Clone, Copy)]
pub(crate) struct Sent {
    pub(crate) name: &'static str,
    bytes: &'static str,
}

/// The opening.
const OPENING: &str =
    "( 2 ( edit-pipeline svndiff1 ) 26:svn+rec://example.org/repo 4:test ( ) ) ( EXTERNAL ( 0: ) ) ";

static ROWS: [Sent; 16] = [
    Sent {
        name: "a word that is no command",
        bytes: "( frobnicate ( ) ) ( get-latest-rev ( ) ) ",
    },
    Sent {
        name: "a command that writes",
        bytes: "( commit ( 0: ) ) ( get-latest-rev ( ) ) ",
    },
    Sent {
        name: "a string of 2^63 bytes",
        bytes: "( check-path ( 9223372036854775808:",
    },
    Sent {
        name: "a number of 2^64",
        bytes: "( check-path ( 0: ( 18446744073709551616 ) ) ) ",
    },
    Sent {
        name: "a word of 25 letters",
        bytes: "( abcdefghijklmnopqrstuvwxy ( ) ) ",
    },
    Sent {
        name: "no space",
        bytes: "(get-latest-rev ( ) ) ",
    },
    Sent {
        name: "a list that was never opened",
        bytes: ") ",
    },
    Sent {
        name: "fields of another command",
        bytes: "( check-path ( 1 2 3 ) ) ( get-latest-rev ( ) ) ",
    },
    Sent {
        name: "a path with two dots",
        bytes: "( check-path ( 2:.. ( 2 ) ) ) ",
    },
    Sent {
        name: "a revision that is not there",
        bytes: "( check-path ( 0: ( 8 ) ) ) ",
    },
    Sent {
        name: "a report that doesn't begin with the root",
        bytes: "( update ( ( 3 ) 0: true ) ) ( set-path ( 1:f 2 false ) ) ( finish-report ( ) ) ( get-latest-rev ( ) ) ",
    },
    Sent {
        name: "a report of no entries",
        bytes: "( update ( ( 3 ) 0: true ) ) ( finish-report ( ) ) ( get-latest-rev ( ) ) ",
    },
    Sent {
        name: "a report of a revision that is not there",
        bytes: "( update ( ( 3 ) 0: true ) ) ( set-path ( 0: 9 false ) ) ( finish-report ( ) ) ( get-latest-rev ( ) ) ",
    },
    Sent {
        name: "a report that is given up",
        bytes: "( update ( ( 3 ) 0: true ) ) ( set-path ( 0: 2 false ) ) ( abort-report ( ) ) ( get-latest-rev ( ) ) ",
    },
    Sent {
        name: "a target that is not there",
        bytes: "( update ( ( 9 ) 0: true ) ) ( set-path ( 0: 2 false ) ) ( finish-report ( ) ) ( get-latest-rev ( ) ) ",
    },
    Sent {
        name: "a drive that the client fails",
        bytes: "( update ( ( 2 ) 5:trunk true ) ) ( set-path ( 0: 1 false ) ) ( finish-report ( ) ) ( failure ( ( 155000 4:away 0: 0 ) ) ) ( get-latest-rev ( ) ) ",
    },
];

/// Sessions that no client should send.
pub(crate) fn rows() -> &'static [Sent] {
    &ROWS
}

impl Sent {
    /// The bytes of the session.
    pub(crate) fn session(&self, alloc: Global) -> Result<Vec<u8>> {
        opened(alloc, self.bytes.as_bytes())
    }
}

/// The opening, and what comes after it.
pub(crate) fn opened(alloc: Global, sent: &[u8]) -> Result<Vec<u8>> {
    let mut bytes = Vec::from_slice(alloc, OPENING.as_bytes())?;
    bytes.extend_from_slice(sent)?;
    Ok(bytes)
}

/// A session with a path that is no text.
pub(crate) fn not_text(alloc: Global) -> Result<Vec<u8>> {
    let mut bytes = opened(alloc, "( check-path ( 1:".as_bytes())?;
    bytes.push(255)?;
    bytes.extend_from_slice(" ( 2 ) ) ) ".as_bytes())?;
    Ok(bytes)
}

/// A session with a million lists, each in the one before.
pub(crate) fn deep(alloc: Global) -> Result<Vec<u8>> {
    let mut bytes = opened(alloc, &[])?;
    for _ in 0..1000000 {
        bytes.extend_from_slice("( ".as_bytes())?;
    }
    Ok(bytes)
}
