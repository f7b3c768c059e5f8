//! Files that are written.
use sqlite_value::value::ValueRef;
use std::alloc::Global;
use std::test::Fail;
use svn_image::{Database, ImageFault, Item, record, write_image};
use svn_types::Text;
use svn_wcdb::TableRow;

/// The bytes of a page.
pub(crate) const PAGE: usize = 4096;

/// A text of so many bytes.
pub(crate) fn text(alloc: Global, len: usize) -> Result<Vec<u8>, Fail> {
    Ok(vec![in alloc; b'x'; len]?)
}

/// The file that has these items.
pub(crate) fn written(alloc: Global, items: &[Item]) -> Result<Vec<u8>, ImageFault> {
    write_image(
        alloc,
        &Database {
            items,
            change_counter: 7,
            schema_cookie: 3,
            application_id: 0,
        },
    )
}

/// How many pages the file with these items has.
pub(crate) fn pages(alloc: Global, items: &[Item]) -> Result<usize, Fail> {
    Ok(written(alloc, items)?.len() / PAGE)
}

/// Rows numbered from 1 on, of one text each.
pub(crate) fn rows(alloc: Global, count: u64, len: usize) -> Result<Vec<TableRow>, Fail> {
    let value = text(alloc, len)?;
    let mut rows = Vec::new(alloc);
    for rowid in 1..count.saturating_add(1) {
        let bytes = record(alloc, &[ValueRef::Text(&value)])?;
        rows.push(TableRow { rowid, bytes })?;
    }
    Ok(rows)
}

/// Records of one text and numbers from 2 on, each of which takes as many bytes.
pub(crate) fn records(alloc: Global, count: i64, len: usize) -> Result<Vec<Text>, Fail> {
    let value = text(alloc, len)?;
    let mut records = Vec::new(alloc);
    for number in 2..count.saturating_add(2) {
        let values = [ValueRef::Text(&value), ValueRef::Int(number)];
        records.push(record(alloc, &values)?)?;
    }
    Ok(records)
}
