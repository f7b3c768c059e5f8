//! Rows of NODES for nodes that aren't present.

use crate::fault::RowsFault;
use crate::node_row::{Owner, number, parent_of, string_or_null};
use crate::paths::path_column;
use sqlite_value::value::ValueRef;
use std::alloc::Global;
use svn_image::record;
use svn_types::{RelPath, Rev, Text};

/// What a row records of a node that isn't present: where it would be.
#[derive(Clone, Copy, Debug)]
pub struct Absence<'a> {
    /// The revision in which it wasn't there, or wasn't there yet.
    pub rev: Rev,
    /// Its path in the repository.
    pub repos_path: &'a RelPath,
    /// Whether it was a directory; else a file.
    pub is_directory: bool,
}

// The columns that are texts.
#[derive(Drop)]
struct Paths {
    path: String,
    parent: Option<String>,
    repos_path: String,
}

fn word_of(is_directory: bool) -> &'static [u8] {
    if is_directory { b"dir" } else { b"file" }
}

// The record, by the places of the columns (`wc-metadata.sql`). The date of its last change is 0, as a client writes it.
fn record_of(
    alloc: Global,
    owner: Owner,
    rev: Rev,
    paths: &Paths,
    word: &'static [u8],
) -> Result<Text, RowsFault> {
    let values = [
        number(owner.wc_id)?,
        ValueRef::Text(paths.path.as_bytes()),
        ValueRef::Int(0),
        string_or_null(&paths.parent),
        number(owner.repos_id)?,
        ValueRef::Text(paths.repos_path.as_bytes()),
        number(rev.0)?,
        ValueRef::Text(b"not-present"),
        ValueRef::Null,
        ValueRef::Null,
        ValueRef::Text(word),
        ValueRef::Null,
        ValueRef::Null,
        ValueRef::Null,
        ValueRef::Null,
        ValueRef::Null,
        ValueRef::Int(0),
        ValueRef::Null,
        ValueRef::Null,
        ValueRef::Null,
        ValueRef::Null,
        ValueRef::Null,
        ValueRef::Null,
    ];
    Ok(record(alloc, &values)?)
}

/// The record of a node of the base tree that isn't present, at a path of the working copy. It is read back as one. TooLarge, Image and Memory.
pub fn not_present_record(
    alloc: Global,
    owner: Owner,
    path: &RelPath,
    absence: &Absence<'_>,
) -> Result<Text, RowsFault> {
    let paths = Paths {
        path: path_column(alloc, path)?,
        parent: parent_of(alloc, path)?,
        repos_path: path_column(alloc, absence.repos_path)?,
    };
    record_of(
        alloc,
        owner,
        absence.rev,
        &paths,
        word_of(absence.is_directory),
    )
}
