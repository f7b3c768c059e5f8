//! Records that change a node, or don't: which of them make a node revision, compared with what `svnadmin load` makes of them.

use super::history::{load_all, loader_of};
use anyhow::Result;
use std::alloc::Global;
use svn_dump::Texts;
use svn_types::{RelPath, Rev};

// Revision 1 has a directory and a file without properties, and one of each with the property `a`; revision 2 begins.
const BEFORE: &str = "SVN-fs-dump-format-version: 3\n\nRevision-number: 1\n\n\
Node-path: d\nNode-kind: dir\nNode-action: add\n\n\n\
Node-path: e\nNode-kind: dir\nNode-action: add\nProp-content-length: 22\nContent-length: 22\n\nK 1\na\nV 1\n1\nPROPS-END\n\n\n\
Node-path: f\nNode-kind: file\nNode-action: add\nText-content-length: 5\nContent-length: 5\n\nhello\n\n\
Node-path: g\nNode-kind: file\nNode-action: add\nProp-content-length: 22\nText-content-length: 5\nContent-length: 27\n\nK 1\na\nV 1\n1\nPROPS-END\nhello\n\n\
Revision-number: 2\n\n";

// A path; what its record in revision 2 has after the action; and whether it makes a node revision.
#[derive(Clone, Copy)]
struct Row {
    path: &'static str,
    rest: &'static str,
    is_new: bool,
}

const ROWS: [Row; 14] = [
    Row {
        path: "d",
        rest: "\n\n",
        is_new: false,
    },
    Row {
        path: "f",
        rest: "\n\n",
        is_new: false,
    },
    Row {
        path: "d",
        rest: "Prop-content-length: 10\nContent-length: 10\n\nPROPS-END\n\n\n",
        is_new: false,
    },
    Row {
        path: "f",
        rest: "Prop-content-length: 10\nContent-length: 10\n\nPROPS-END\n\n\n",
        is_new: false,
    },
    Row {
        path: "e",
        rest: "Prop-delta: true\nProp-content-length: 10\nContent-length: 10\n\nPROPS-END\n\n\n",
        is_new: false,
    },
    Row {
        path: "e",
        rest: "Prop-content-length: 10\nContent-length: 10\n\nPROPS-END\n\n\n",
        is_new: true,
    },
    Row {
        path: "e",
        rest: "Prop-content-length: 22\nContent-length: 22\n\nK 1\na\nV 1\n1\nPROPS-END\n\n\n",
        is_new: true,
    },
    Row {
        path: "g",
        rest: "Prop-content-length: 22\nContent-length: 22\n\nK 1\na\nV 1\n1\nPROPS-END\n\n\n",
        is_new: true,
    },
    Row {
        path: "d",
        rest: "Prop-content-length: 22\nContent-length: 22\n\nK 1\na\nV 1\n1\nPROPS-END\n\n\n",
        is_new: true,
    },
    Row {
        path: "e",
        rest: "Prop-delta: true\nProp-content-length: 22\nContent-length: 22\n\nK 1\na\nV 1\n1\nPROPS-END\n\n\n",
        is_new: true,
    },
    Row {
        path: "d",
        rest: "Prop-delta: true\nProp-content-length: 16\nContent-length: 16\n\nD 1\nx\nPROPS-END\n\n\n",
        is_new: true,
    },
    Row {
        path: "f",
        rest: "Prop-delta: true\nProp-content-length: 16\nContent-length: 16\n\nD 1\nx\nPROPS-END\n\n\n",
        is_new: true,
    },
    Row {
        path: "f",
        rest: "Text-content-length: 5\nContent-length: 5\n\nhello\n\n",
        is_new: true,
    },
    Row {
        path: "g",
        rest: "Text-content-length: 5\nContent-length: 5\n\nhello\n\n",
        is_new: true,
    },
];

// Whether the record makes a node revision where it must, and the node is the same where it mustn't.
fn is_altered(alloc: Global, row: Row) -> Result<bool> {
    let path = row.path;
    let rest = row.rest;
    let dump = format!(in alloc; "{BEFORE}Node-path: {path}\nNode-action: change\n{rest}")?;
    let mut loader = loader_of(alloc, dump.as_bytes(), Texts::Whole)?;
    load_all(&mut loader)?;
    let repo = loader.into_repo();
    let path = RelPath::parse(alloc, path)?;
    let before = repo.lookup(Rev(1), &path);
    let after = repo.lookup(Rev(2), &path);
    Ok(before.is_some() && after.is_some() && (before != after) == row.is_new)
}

/// How many of these records do something else.
pub fn altered_wrongly(alloc: Global) -> Result<usize> {
    let mut others = 0usize;
    for row in &ROWS {
        others = others.saturating_add(usize::from(!is_altered(alloc, *row)?));
    }
    Ok(others)
}
