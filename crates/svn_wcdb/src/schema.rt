//! Where the tables of a database are, as its schema says, the table at page 1.
ghost use Rattle.std.specs.Prelude.{◌≡◌};
ghost use Rattle.sqlite_value.specs.Value.{owned};
ghost use Rattle.svn_wcdb.specs.Images.{seen_file};
ghost use Rattle.svn_wcdb.specs.Reading.{Gives};
ghost use Rattle.svn_wcdb.specs.Schema.{name_of, is_text, page_number, root_in, root_of, table_of};

use crate::columns::Columns;
use crate::fault::{Reason, TableName, WcdbFault};
use crate::pages::Image;
use crate::table::TableRow;
use crate::tree::read_table;
use sqlite_value::value::ValueRef;
use std::alloc::Global;

fn name_of(table: TableName) -> &'static [u8]
    ensures { result.now ≡ name_of table }
{
    match table {
        TableName::Nodes => b"NODES",
        TableName::Repository => b"REPOSITORY",
        TableName::Wcroot => b"WCROOT",
        TableName::Pristine => b"PRISTINE",
        TableName::ActualNode => b"ACTUAL_NODE",
        TableName::WcLock => b"WC_LOCK",
        TableName::Lock => b"LOCK",
        TableName::WorkQueue => b"WORK_QUEUE",
    }
}

fn is_text(value: ValueRef<'_>, text: &[u8]) -> bool
    ensures { result ≡ is_text (owned value.entry) text.now }
{
    match value {
        ValueRef::Text(found) => found == text,
        ValueRef::Null | ValueRef::Int(_) | ValueRef::Real(_) | ValueRef::Blob(_) => false,
    }
}

fn page_number(value: ValueRef<'_>) -> Option<u32>
    ensures { result ≡ page_number (owned value.entry) }
{
    match value {
        ValueRef::Int(page) => u32::try_from(page).ok(),
        ValueRef::Null | ValueRef::Real(_) | ValueRef::Text(_) | ValueRef::Blob(_) => None,
    }
}

// The root page of a table, where that is the table that this row of the schema is about.
#[tactic(auto, unfolding(crate::specs::Schema::root_in))]
fn root_in(name: &[u8], row: &[u8]) -> Option<u32>
    ensures { result ≡ root_in name.now row.now }
{
    let columns = Columns::read(row);
    if is_text(columns.value(0), b"table") && is_text(columns.value(1), name) {
        page_number(columns.value(3))
    } else {
        None
    }
}

fn root_of(name: &[u8], schema: &[TableRow]) -> Option<u32>
    ensures { result ≡ root_of name.now schema.now }
{
    let mut rest = schema;
    'rows: while let Some((row, after)) = rest.split_first() {
        let root = root_in(name, row.bytes.as_slice());
        if root.is_some() {
            return root;
        }
        rest = after;
    }
    None
}

/// The rows of a table. NoTable, or why they can't be read.
#[tactic(auto, unfolding(crate::specs::Schema::table_of))]
pub(crate) fn rows_of(
    alloc: Global,
    image: &Image,
    schema: &[TableRow],
    table: TableName,
) -> Result<Vec<TableRow>, WcdbFault>
    ensures { Gives (λ rows. rows.items) result (table_of (seen_file image.now) schema.now table) }
{
    match root_of(name_of(table), schema) {
        Some(root) => read_table(alloc, image, root),
        None => Err(WcdbFault::Refused(Reason::NoTable(table))),
    }
}
