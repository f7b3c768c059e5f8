//! Tables. A row of one text of L bytes takes L + 2 bytes up to 57, L + 3 up to 8185 and L + 4 beyond; up to 4061 of them are in its page.
use crate::images::written::{pages, rows};
use std::alloc::Global;
use std::process::Abort;
use std::test::Fail;
use svn_image::Item;

// How many rows, of a text of how many bytes each, and how many pages the file has: page 1, the schema's rows, and the table.
type Row = (u64, usize, usize);

static ROWS: [Row; 18] = [
    (0, 0, 3),
    (1, 0, 3),
    (1, 57, 3),
    (1, 58, 3),
    // one leaf that is full; one byte more for each
    (4, 1014, 3),
    (4, 1015, 5),
    // the longest row that is in its page; one that goes on
    (1, 4058, 3),
    (1, 4059, 4),
    // an overflow page that lacks a byte, a full one with the fewest and the most bytes before it, and one byte more
    (1, 4577, 4),
    (1, 4578, 4),
    (1, 4579, 4),
    (1, 8150, 4),
    (1, 8151, 5),
    (1, 8669, 5),
    (1, 12241, 5),
    (1, 12242, 6),
    // as many leaves as a page names; one more
    (256, 2050, 259),
    (257, 2050, 262),
];

fn cases() -> &'static [Row] {
    &ROWS
}

fn pages_of(alloc: Global, row: &Row) -> Result<usize, Fail> {
    let rows = rows(alloc, row.0, row.1)?;
    pages(
        alloc,
        &[Item::Table {
            name: "t",
            sql: "CREATE TABLE t(a)",
            rows: &rows,
        }],
    )
}

fn takes_pages(rt: &impl Abort, alloc: Global, row: &Row) -> Result<(), Fail> {
    let found = pages_of(alloc, row)?;
    assert_eq!(rt; found, row.2, "{} rows of {} bytes", row.0, row.1);
    Ok(())
}

#[test]
fn a_table_takes_the_pages_that_it_needs(rt: HostRuntime) -> Result<(), Fail> {
    for row in cases() {
        takes_pages(&rt, rt.alloc(), row)?;
    }
    Ok(())
}
