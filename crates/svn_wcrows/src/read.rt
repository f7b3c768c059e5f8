//! The tables of a database, read with all their rows.
ghost use Rattle.std.specs.Prelude.{◌≡◌};
ghost use Rattle.sqlite_value.specs.Value.{owned};
ghost use Rattle.svn_wcdb.specs.Images.{seen_file};
ghost use Rattle.svn_wcdb.specs.Reading.{Gives};
ghost use Rattle.svn_wcdb.specs.Schema.{name_of, page_number, root_in, root_of, table_of};
ghost use Rattle.svn_wcrows.specs.Reading.{Reads};
ghost use Rattle.svn_wcrows.specs.Tables.{copy_tables, node_tables, own_tables, is_among, is_known, is_foreign, has_foreign, rows_if_any, or_zero, last_work, others_in, seen_tables, tables_in, tables_of};

use crate::fault::RowsFault;
use crate::tables::Tables;
use crate::values::{is_text, number_at, value_at};
use sqlite_value::value::ValueRef;
use std::alloc::Global;
use svn_wcdb::{Image, Reason, TableName, TableRow, WcdbFault, read_image, read_table};

fn is_copy_table(name: ValueRef<'_>) -> bool
    ensures { result ≡ is_among (owned name.entry) copy_tables }
{
    is_text(name, b"REPOSITORY")
        || is_text(name, b"WCROOT")
        || is_text(name, b"LOCK")
        || is_text(name, b"WORK_QUEUE")
        || is_text(name, b"WC_LOCK")
}

fn is_node_table(name: ValueRef<'_>) -> bool
    ensures { result ≡ is_among (owned name.entry) node_tables }
{
    is_text(name, b"PRISTINE")
        || is_text(name, b"ACTUAL_NODE")
        || is_text(name, b"NODES")
        || is_text(name, b"EXTERNALS")
}

// Whether it is a table that SQLite keeps for itself.
fn is_own_table(name: ValueRef<'_>) -> bool
    ensures { result ≡ is_among (owned name.entry) own_tables }
{
    is_text(name, b"sqlite_sequence") || is_text(name, b"sqlite_stat1")
}

// Whether a value is the name of a table that a database of this format has.
fn is_known(name: ValueRef<'_>) -> bool
    ensures { result ≡ is_known (owned name.entry) }
{
    is_copy_table(name) || is_node_table(name) || is_own_table(name)
}

// Whether a row of the schema is about a table that isn't known.
#[tactic(auto, unfolding(crate::specs::Tables::is_foreign))]
fn is_foreign(row: &TableRow) -> bool
    ensures { result ≡ is_foreign row.now.bytes }
{
    is_text(value_at(row, 0), b"table") && !is_known(value_at(row, 1))
}

fn has_foreign(schema: &[TableRow]) -> bool
    ensures { result ≡ has_foreign schema.now }
{
    let mut rest = schema;
    'rows: while let Some((row, after)) = rest.split_first() {
        if is_foreign(row) {
            return true;
        }
        rest = after;
    }
    false
}

fn page_number(value: ValueRef<'_>) -> Option<u32>
    ensures { result ≡ page_number (owned value.entry) }
{
    match value {
        ValueRef::Int(page) => u32::try_from(page).ok(),
        ValueRef::Null | ValueRef::Real(_) | ValueRef::Text(_) | ValueRef::Blob(_) => None,
    }
}

// The root page of a table, where that is the table that this row of the schema is about.
#[tactic(auto, unfolding(svn_wcdb::specs::Schema::root_in))]
fn root_in(name: &[u8], row: &TableRow) -> Option<u32>
    ensures { result ≡ root_in name.now row.now.bytes }
{
    if is_text(value_at(row, 0), b"table") && is_text(value_at(row, 1), name) {
        page_number(value_at(row, 3))
    } else {
        None
    }
}

// The root page of a table of that name.
fn root_of(name: &[u8], schema: &[TableRow]) -> Option<u32>
    ensures { result ≡ root_of name.now schema.now }
{
    let mut rest = schema;
    'rows: while let Some((row, after)) = rest.split_first() {
        let root = root_in(name, row);
        if root.is_some() {
            return root;
        }
        rest = after;
    }
    None
}

fn name_of(table: TableName) -> &'static [u8]
    ensures { result.now ≡ name_of table }
{
    match table {
        TableName::Nodes => b"NODES",
        TableName::Repository => b"REPOSITORY",
        TableName::Wcroot => b"WCROOT",
        TableName::Pristine => b"PRISTINE",
        TableName::ActualNode => b"ACTUAL_NODE",
        TableName::WcLock => b"WC_LOCK",
        TableName::Lock => b"LOCK",
        TableName::WorkQueue => b"WORK_QUEUE",
    }
}

// The rows of a table, or a refusal that names it.
#[tactic(auto, unfolding(svn_wcdb::specs::Schema::table_of))]
fn rows_of(
    alloc: Global,
    image: &Image,
    schema: &[TableRow],
    table: TableName,
) -> Result<Vec<TableRow>, WcdbFault>
    ensures { Gives (λ rows. rows.items) result (table_of (seen_file image.now) schema.now table) }
{
    match root_of(name_of(table), schema) {
        Some(root) => read_table(alloc, image, root),
        None => Err(WcdbFault::Refused(Reason::NoTable(table))),
    }
}

// The rows of a table that may be missing: then there are none.
#[tactic(auto, unfolding(crate::specs::Tables::rows_if_any))]
fn rows_if_any(
    alloc: Global,
    image: &Image,
    schema: &[TableRow],
    name: &[u8],
) -> Result<Vec<TableRow>, WcdbFault>
    ensures { Gives (λ rows. rows.items) result (rows_if_any (seen_file image.now) schema.now name.now) }
{
    match root_of(name, schema) {
        Some(root) => read_table(alloc, image, root),
        None => Ok(Vec::new(alloc)),
    }
}

fn or_zero(number: Option<u64>) -> u64
    ensures { result ≡ or_zero number }
{
    match number {
        Some(number) => number,
        None => 0,
    }
}

// The largest number that work has had, by the rows of `sqlite_sequence`.
fn last_work(rows: &[TableRow]) -> u64
    ensures { result ≡ last_work rows.now }
{
    let mut rest = rows;
    'rows: while let Some((row, after)) = rest.split_first() {
        if is_text(value_at(row, 0), b"WORK_QUEUE") {
            return or_zero(number_at(row, 1));
        }
        rest = after;
    }
    0
}

// The rows of EXTERNALS, and that number.
#[tactic(auto, unfolding(crate::specs::Tables::others_in))]
fn others_in(
    alloc: Global,
    image: &Image,
    schema: &[TableRow],
) -> Result<(Vec<TableRow>, u64), WcdbFault>
    ensures { Gives (λ others. (others.0.items, others.1)) result (others_in (seen_file image.now) schema.now) }
{
    let externals = rows_if_any(alloc, image, schema, b"EXTERNALS")?;
    let sequence = rows_if_any(alloc, image, schema, b"sqlite_sequence")?;
    let last = last_work(&sequence);
    Ok((externals, last))
}

#[tactic(auto, unfolding(crate::specs::Tables::tables_in))]
fn tables_in(alloc: Global, image: &Image, schema: &[TableRow]) -> Result<Tables, WcdbFault>
    ensures { Gives seen_tables result (tables_in (seen_file image.now) schema.now) }
{
    let repository = rows_of(alloc, image, schema, TableName::Repository)?;
    let wcroot = rows_of(alloc, image, schema, TableName::Wcroot)?;
    let pristine = rows_of(alloc, image, schema, TableName::Pristine)?;
    let actual_node = rows_of(alloc, image, schema, TableName::ActualNode)?;
    let lock = rows_of(alloc, image, schema, TableName::Lock)?;
    let work_queue = rows_of(alloc, image, schema, TableName::WorkQueue)?;
    let wc_lock = rows_of(alloc, image, schema, TableName::WcLock)?;
    let nodes = rows_of(alloc, image, schema, TableName::Nodes)?;
    let (externals, last_work) = others_in(alloc, image, schema)?;
    Ok(Tables {
        repository,
        wcroot,
        pristine,
        actual_node,
        lock,
        work_queue,
        wc_lock,
        nodes,
        externals,
        last_work,
    })
}

/// Reads all rows of a working copy's tables. The first of these is returned: Refused, of the file's header as `read_image` does, and of the schema's table
/// as `read_table` does; UnknownTable, since what is written afresh would lose it; Refused, table by table of REPOSITORY, WCROOT, PRISTINE, ACTUAL_NODE, LOCK,
/// WORK_QUEUE, WC_LOCK and NODES, with NoTable or what `read_table` refuses; then of EXTERNALS and `sqlite_sequence`, which may be missing. Memory where an
/// allocation failed.
#[tactic(auto, unfolding(crate::specs::Tables::tables_of))]
pub fn read_tables(alloc: Global, bytes: &[u8]) -> Result<Tables, RowsFault>
    ensures { Reads seen_tables result (tables_of bytes.now) }
{
    let image = read_image(bytes)?;
    let schema = read_table(alloc, &image, 1)?;
    if has_foreign(&schema) {
        return Err(RowsFault::UnknownTable);
    }
    Ok(tables_in(alloc, &image, &schema)?)
}
