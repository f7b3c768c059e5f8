//! Rows of the smaller tables.

use crate::fault::RowsFault;
use crate::node_row::Owner;
use sqlite_value::value::ValueRef;
use std::alloc::{AllocError, Global};
use svn_digits::stand_in_of_md5;
use svn_image::record;
use svn_types::{Digest, Text};
use svn_wcdb::TableRow;

/// How many bytes of the stand-in of an MD5 checksum come before the digits.
const MARK: usize = 5;

// A checksum as the column `md5_checksum` has it: its mark has a space, so that it is as long as that of SHA-1.
fn md5_column(alloc: Global, md5: &Digest) -> Result<Vec<u8>, AllocError> {
    let word = stand_in_of_md5(alloc, &md5.0)?;
    let mut column = Vec::from_slice(alloc, b"$md5 $")?;
    column.extend_from_slice(word.as_slice().get(MARK..).unwrap_or(b""))?;
    Ok(column)
}

/// The record of a text in PRISTINE: its stand-in by SHA-1, its size in bytes, and its MD5 checksum. How many nodes have it is counted when the tables
/// are complete. TooLarge, Image, Memory.
pub fn pristine_record(
    alloc: Global,
    stand_in: &[u8],
    size: u64,
    md5: &Digest,
) -> Result<Text, RowsFault> {
    let Ok(size) = i64::try_from(size) else {
        return Err(RowsFault::TooLarge);
    };
    let md5 = md5_column(alloc, md5)?;
    let values = [
        ValueRef::Text(stand_in),
        ValueRef::Null,
        ValueRef::Int(size),
        ValueRef::Int(0),
        ValueRef::Text(&md5),
    ];
    Ok(record(alloc, &values)?)
}

/// The row of a repository: the URL of its root, and its UUID.
pub(crate) fn repository_row<'a>(
    alloc: Global,
    url: &'a [u8],
    uuid: &'a [u8],
) -> Result<TableRow, RowsFault> {
    let bytes = record(
        alloc,
        &[ValueRef::Null, ValueRef::Text(url), ValueRef::Text(uuid)],
    )?;
    Ok(TableRow { rowid: 1, bytes })
}

/// The row of a root, which is where the database is.
pub(crate) fn root_row(alloc: Global) -> Result<TableRow, RowsFault> {
    let bytes = record(alloc, &[ValueRef::Null, ValueRef::Null])?;
    Ok(TableRow { rowid: 1, bytes })
}

/// The row of WC_LOCK that keeps other clients from a whole working copy. TooLarge, Image, Memory.
pub fn lock_row(alloc: Global, owner: Owner) -> Result<TableRow, RowsFault> {
    let Ok(wc_id) = i64::try_from(owner.wc_id) else {
        return Err(RowsFault::TooLarge);
    };
    let values = [ValueRef::Int(wc_id), ValueRef::Text(b""), ValueRef::Int(-1)];
    let bytes = record(alloc, &values)?;
    Ok(TableRow { rowid: 1, bytes })
}
