//! Which rows can be written: records whose numbers or values ascend.
ghost use Rattle.std.specs.Prelude.{◌≡◌, true, All, IfOk};
ghost use Rattle.svn_image.specs.Items.{is_row_before, rows_ascend, is_record_before, records_ascend, IsOrdered};

use crate::fault::ImageFault;
use crate::item::Item;
use sqlite_format::cell::toggle_sign;
use sqlite_record::check::is_record;
use sqlite_record::compare::with_record;
use sqlite_value::keys::Order;
use std::cmp::Ordering;
use svn_types::Text;
use svn_wcdb::TableRow;

/// Each column ascends, and its texts by their bytes.
const BINARY: Order = Order { digits: 0 };

fn is_row_before(row: &TableRow, rows: &[TableRow]) -> bool
    ensures { result ≡ is_row_before row.now rows.now }
{
    match rows.first() {
        Some(next) => toggle_sign(row.rowid) < toggle_sign(next.rowid),
        None => true,
    }
}

fn rows_ascend(rows: &[TableRow]) -> bool
    ensures { result ≡ rows_ascend rows.now }
{
    let mut rest = rows;
    'rows: while let Some((row, after)) = rest.split_first() {
        if !is_row_before(row, after) {
            return false;
        }
        rest = after;
    }
    true
}

fn is_record_before(first: &Text, records: &[Text]) -> bool
    ensures { result ≡ is_record_before first.now records.now }
{
    match records.first() {
        Some(next) => { with_record(BINARY, first.as_slice(), next.as_slice()) == Ordering::Less }
        None => true,
    }
}

fn records_ascend(records: &[Text]) -> bool
    ensures { result ≡ records_ascend records.now }
{
    let mut rest = records;
    'records: while let Some((first, after)) = rest.split_first() {
        if !is_record_before(first, after) {
            return false;
        }
        rest = after;
    }
    true
}

fn check_rows(place: usize, rows: &[TableRow]) -> Result<(), ImageFault>
    ensures { IfOk result (λ _. rows_ascend rows.now ≡ true) }
{
    if !rows_ascend(rows) {
        Err(ImageFault::Unordered(place))
    } else if !rows.iter().all(|row| is_record(row.bytes.as_slice())) {
        Err(ImageFault::NotARecord(place))
    } else {
        Ok(())
    }
}

fn check_records(place: usize, records: &[Text]) -> Result<(), ImageFault>
    ensures { IfOk result (λ _. records_ascend records.now ≡ true) }
{
    if !records_ascend(records) {
        Err(ImageFault::Unordered(place))
    } else if !records.iter().all(|record| is_record(record.as_slice())) {
        Err(ImageFault::NotARecord(place))
    } else {
        Ok(())
    }
}

fn check_item(place: usize, item: &Item) -> Result<(), ImageFault>
    ensures { IfOk result (λ _. IsOrdered item.now) }
{
    match item {
        Item::Table { rows, .. } => check_rows(place, rows),
        Item::Index { records, .. } => check_records(place, records),
        Item::View { .. } | Item::Trigger { .. } => Ok(()),
    }
}

/// Refuses what can't be written: of the first item at fault Unordered before NotARecord.
pub(crate) fn check_items(items: &[Item]) -> Result<(), ImageFault>
    ensures { IfOk result (λ _. All IsOrdered items.now) }
{
    for (place, item) in items.iter().enumerate() {
        check_item(place, item)?;
    }
    Ok(())
}
