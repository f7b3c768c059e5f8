//! The table at page 1.
use crate::images::written::{pages, text};
use std::alloc::Global;
use std::process::Abort;
use std::test::Fail;
use svn_image::Item;

// How many views, of how many bytes of SQL each, and how many pages the file has.
type Row = (usize, usize, usize);

static ROWS: [Row; 5] = [
    (0, 0, 1),
    (1, 10, 2),
    (1, 5000, 3),
    (5, 2050, 6),
    (257, 2050, 260),
];

fn cases() -> &'static [Row] {
    &ROWS
}

fn pages_of(alloc: Global, row: &Row) -> Result<usize, Fail> {
    let sql = String::from_utf8(text(alloc, row.1)?)?;
    let view = Item::View {
        name: "v",
        sql: sql.as_str(),
    };
    let items = vec![in alloc; view; row.0]?;
    pages(alloc, &items)
}

fn takes_pages(rt: &impl Abort, alloc: Global, row: &Row) -> Result<(), Fail> {
    let found = pages_of(alloc, row)?;
    assert_eq!(rt; found, row.2, "{} views of {} bytes", row.0, row.1);
    Ok(())
}

#[test]
fn a_schema_takes_the_pages_that_it_needs(rt: HostRuntime) -> Result<(), Fail> {
    for row in cases() {
        takes_pages(&rt, rt.alloc(), row)?;
    }
    Ok(())
}

#[test]
fn each_kind_of_item_is_written(rt: HostRuntime) -> Result<(), Fail> {
    let items = [
        Item::Table {
            name: "t",
            sql: "CREATE TABLE t(a UNIQUE)",
            rows: &[],
        },
        Item::Index {
            name: "sqlite_autoindex_t_1",
            table: "t",
            sql: None,
            records: &[],
        },
        Item::Index {
            name: "i",
            table: "t",
            sql: Some("CREATE INDEX i ON t(a)"),
            records: &[],
        },
        Item::View {
            name: "v",
            sql: "CREATE VIEW v AS SELECT a FROM t",
        },
        Item::Trigger {
            name: "d",
            table: "t",
            sql: "CREATE TRIGGER d AFTER DELETE ON t BEGIN SELECT 1; END",
        },
    ];
    assert_eq!(&rt; pages(rt.alloc(), &items)?, 5);
    Ok(())
}
