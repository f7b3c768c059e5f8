//! Indexes. A record of a text of L bytes and a small number takes L + 5 bytes from 58 on; up to 1002 of them are in its page.
use crate::images::index_reader::read_index;
use crate::images::written::{PAGE, records, written};
use std::alloc::Global;
use std::process::Abort;
use std::test::Fail;
use svn_image::Item;
use svn_types::Text;

// How many records, of a text of how many bytes each, and how many pages the file has: page 1, the schema's row, and the index.
type Row = (i64, usize, u32);

static ROWS: [Row; 11] = [
    (0, 0, 3),
    (1, 0, 3),
    // four records in a leaf; a fifth, so that the leaves have three and one
    (4, 900, 3),
    (5, 900, 5),
    (6, 900, 5),
    // two levels above the leaves
    (40, 900, 14),
    // the longest record that is in its page; one that goes on
    (1, 997, 3),
    (1, 998, 4),
    // a full overflow page with the fewest and the most bytes before it, and one byte more
    (1, 4576, 4),
    (1, 5089, 4),
    (1, 5090, 5),
];

fn cases() -> &'static [Row] {
    &ROWS
}

fn file_of(alloc: Global, records: &[Text]) -> Result<Vec<u8>, Fail> {
    Ok(written(
        alloc,
        &[Item::Index {
            name: "i",
            table: "t",
            sql: None,
            records,
        }],
    )?)
}

// Whether these are the records.
fn are_records(found: &[Vec<u8>], records: &[Text]) -> bool {
    if found.len() != records.len() {
        return false;
    }
    for i in 0..found.len() {
        if found[i].as_slice() != records[i].as_slice() {
            return false;
        }
    }
    true
}

// How many pages the file has, if it has the records. The root is the last page before the schema's.
fn pages_of(alloc: Global, row: &Row) -> Result<Option<usize>, Fail> {
    let records = records(alloc, row.0, row.1)?;
    let file = file_of(alloc, &records)?;
    let pages = file.len() / PAGE;
    let found = read_index(alloc, &file, row.2.saturating_sub(1))?;
    if are_records(&found, &records) {
        Ok(Some(pages))
    } else {
        Ok(None)
    }
}

fn has_its_records(rt: &impl Abort, alloc: Global, row: &Row) -> Result<(), Fail> {
    let found = pages_of(alloc, row)?;
    assert_eq!(rt;
        found,
        Some(row.2 as usize),
        "{} records of {} bytes",
        row.0,
        row.1
    );
    Ok(())
}

#[test]
fn an_index_has_its_records_in_order(rt: HostRuntime) -> Result<(), Fail> {
    for row in cases() {
        has_its_records(&rt, rt.alloc(), row)?;
    }
    Ok(())
}
