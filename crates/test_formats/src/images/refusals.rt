//! What isn't written.
use crate::images::written::written;
use sqlite_value::value::ValueRef;
use std::alloc::Global;
use std::process::Abort;
use std::test::Fail;
use svn_image::{ImageFault, Item, record};
use svn_types::Text;
use svn_wcdb::TableRow;

// The numbers of two rows, and whether they ascend.
static NUMBERS: [(i64, i64, bool); 6] = [
    (1, 2, true),
    (-1, 0, true),
    (i64::MIN, i64::MAX, true),
    (1, 1, false),
    (2, 1, false),
    (0, -1, false),
];

fn numbers() -> &'static [(i64, i64, bool)] {
    &NUMBERS
}

fn number(alloc: Global, number: i64) -> Result<Text, ImageFault> {
    record(alloc, &[ValueRef::Int(number)])
}

fn row(alloc: Global, rowid: i64) -> Result<TableRow, ImageFault> {
    Ok(TableRow {
        rowid: rowid.cast_unsigned(),
        bytes: number(alloc, 7)?,
    })
}

const VIEW: Item<'static> = Item::View {
    name: "v",
    sql: "CREATE VIEW v AS SELECT 1",
};

fn table_fault(alloc: Global, rows: &[TableRow]) -> Option<ImageFault> {
    let table = Item::Table {
        name: "t",
        sql: "CREATE TABLE t(a)",
        rows,
    };
    written(alloc, &[VIEW, table]).err()
}

fn index_fault(alloc: Global, records: &[Text]) -> Option<ImageFault> {
    let index = Item::Index {
        name: "i",
        table: "t",
        sql: None,
        records,
    };
    written(alloc, &[VIEW, VIEW, index]).err()
}

fn wanted(ascend: bool, place: usize) -> Option<ImageFault> {
    if ascend {
        None
    } else {
        Some(ImageFault::Unordered(place))
    }
}

fn rows_ascend(rt: &impl Abort, alloc: Global, case: &(i64, i64, bool)) -> Result<(), Fail> {
    let rows = [row(alloc, case.0)?, row(alloc, case.1)?];
    assert_eq!(rt;
        table_fault(alloc, &rows),
        wanted(case.2, 1),
        "{} {}",
        case.0,
        case.1
    );
    Ok(())
}

fn records_ascend(rt: &impl Abort, alloc: Global, case: &(i64, i64, bool)) -> Result<(), Fail> {
    let records = [number(alloc, case.0)?, number(alloc, case.1)?];
    assert_eq!(rt;
        index_fault(alloc, &records),
        wanted(case.2, 2),
        "{} {}",
        case.0,
        case.1
    );
    Ok(())
}

#[test]
fn rows_have_to_ascend(rt: HostRuntime) -> Result<(), Fail> {
    for case in numbers() {
        rows_ascend(&rt, rt.alloc(), case)?;
        records_ascend(&rt, rt.alloc(), case)?;
    }
    Ok(())
}

#[test]
fn a_row_has_to_be_a_record(rt: HostRuntime) -> Result<(), Fail> {
    let alloc = rt.alloc();
    let records = [Text::from_str(alloc, "x")?];
    assert_eq!(&rt;
        index_fault(alloc, &records),
        Some(ImageFault::NotARecord(2))
    );
    let rows = [TableRow {
        rowid: 1,
        bytes: record(alloc, &[])?,
    }];
    assert_eq!(&rt; table_fault(alloc, &rows), Some(ImageFault::NotARecord(1)));
    Ok(())
}

#[test]
fn no_number_is_refused(rt: HostRuntime) -> Result<(), Fail> {
    let found = record(rt.alloc(), &[ValueRef::Real(f64::NAN)]);
    assert!(&rt; found.err() == Some(ImageFault::Unstorable));
    Ok(())
}
