//! What dumps say before their first revision: the repository's UUID, and the number of that revision.

use super::history::{load_all, loader_of};
use anyhow::Result;
use std::alloc::Global;
use svn_dump::Texts;
use svn_types::Rev;

// A dump; its UUID, or no bytes; and its first revision, or one that none has.
#[derive(Clone, Copy)]
struct Row {
    dump: &'static str,
    uuid: &'static str,
    first: u64,
}

const NONE: u64 = u64::MAX;

// `svnadmin load` gives a repository these UUIDs, but for the last two: it takes a UUID up to the end of the first revision above 0, and refuses one
// that is none.
const ROWS: [Row; 9] = [
    Row {
        dump: "SVN-fs-dump-format-version: 2\n\nUUID: 11111111-1111-1111-1111-111111111111\n\nRevision-number: 0\n\nRevision-number: 1\n\n",
        uuid: "11111111-1111-1111-1111-111111111111",
        first: 0,
    },
    Row {
        dump: "SVN-fs-dump-format-version: 2\n\nUUID: 11111111-1111-1111-1111-111111111111\n\n\
UUID: 22222222-2222-2222-2222-222222222222\n\nRevision-number: 1\n\n",
        uuid: "22222222-2222-2222-2222-222222222222",
        first: 1,
    },
    Row {
        dump: "SVN-fs-dump-format-version: 2\nUUID: 11111111-1111-1111-1111-111111111111\n\nRevision-number: 0\n\n",
        uuid: "11111111-1111-1111-1111-111111111111",
        first: 0,
    },
    Row {
        dump: "SVN-fs-dump-format-version: 2\n\nUUID: 11111111-1111-1111-1111-111111111111\n\nRevision-number: 7\n\nRevision-number: 8\n\n\
UUID: 22222222-2222-2222-2222-222222222222\n\n",
        uuid: "11111111-1111-1111-1111-111111111111",
        first: 7,
    },
    Row {
        dump: "SVN-fs-dump-format-version: 2\n\nUUID: 11111111-1111-1111-1111-111111111111\nRevision-number: 1\n\n",
        uuid: "",
        first: 1,
    },
    Row {
        dump: "SVN-fs-dump-format-version: 2\n\nUUID: 11111111-1111-1111-1111-111111111111\n\n",
        uuid: "11111111-1111-1111-1111-111111111111",
        first: NONE,
    },
    Row {
        dump: "SVN-fs-dump-format-version: 2\n\n",
        uuid: "",
        first: NONE,
    },
    Row {
        dump: "SVN-fs-dump-format-version: 2\n\nRevision-number: 0\n\nUUID: 11111111-1111-1111-1111-111111111111\n\nRevision-number: 1\n\n",
        uuid: "",
        first: 0,
    },
    Row {
        dump: "SVN-fs-dump-format-version: 2\n\nUUID: no UUID\n\nRevision-number: 5\n\n",
        uuid: "no UUID",
        first: 5,
    },
];

// Whether the loader knows the row's UUID and first revision once it has loaded, and not before.
fn is_known(alloc: Global, row: Row) -> Result<bool> {
    let mut loader = loader_of(alloc, row.dump.as_bytes(), Texts::Whole)?;
    let unknown = loader.uuid().is_none() && loader.first_revision().is_none();
    load_all(&mut loader)?;
    let uuid = loader.uuid().unwrap_or(b"");
    let Rev(first) = loader.first_revision().unwrap_or(Rev(NONE));
    Ok(unknown && uuid == row.uuid.as_bytes() && first == row.first)
}

/// How many fronts aren't as expected.
pub fn known_wrongly(alloc: Global) -> Result<usize> {
    let mut others = 0usize;
    for row in &ROWS {
        others = others.saturating_add(usize::from(!is_known(alloc, *row)?));
    }
    Ok(others)
}
