//! The database of a working copy, written afresh from its tables.
ghost use Rattle.std.specs.Prelude.{IfOk};
ghost use Rattle.svn_wcrows.specs.Databases.{name_of, rows_of, IsTableItem, HasTables, AreWritten};

use crate::indexes::{Indexes, indexes_of};
use crate::schema;
use crate::tables::{Table, Tables};
use sqlite_format::bytes::get_u32;
use sqlite_value::value::ValueRef;
use std::alloc::Global;
use svn_image::{Database, ImageFault, Item, record, write_image};
use svn_types::Text;
use svn_wcdb::TableRow;

/// What a client writes of its indexes, by which SQLite plans (`sqlite_stat1`): table, index, and numbers of rows.
const STATISTICS: [(&str, &str, &str); 9] = [
    ("NODES", "sqlite_autoindex_NODES_1", "8000 8000 2 1"),
    ("NODES", "I_NODES_PARENT", "8000 8000 10 2 1"),
    ("NODES", "I_NODES_MOVED", "8000 8000 1 1"),
    (
        "ACTUAL_NODE",
        "sqlite_autoindex_ACTUAL_NODE_1",
        "8000 8000 1",
    ),
    ("ACTUAL_NODE", "I_ACTUAL_PARENT", "8000 8000 10 1"),
    ("LOCK", "sqlite_autoindex_LOCK_1", "100 100 1"),
    ("WC_LOCK", "sqlite_autoindex_WC_LOCK_1", "100 100 1"),
    ("EXTERNALS", "sqlite_autoindex_EXTERNALS_1", "100 100 1"),
    ("EXTERNALS", "I_EXTERNALS_DEFINED", "100 100 3 1"),
];

/// How often a client has changed the schema once it has made a database.
const SCHEMA_COOKIE: u32 = 23;

fn text(text: &str) -> ValueRef<'_> {
    ValueRef::Text(text.as_bytes())
}

// The rows of `sqlite_stat1`.
fn statistics(alloc: Global) -> Result<Vec<TableRow>, ImageFault> {
    let mut rows = Vec::new(alloc);
    for (table, index, counts) in &STATISTICS {
        let bytes = record(alloc, &[text(table), text(index), text(counts)])?;
        let rowid = rows.len() as u64 + 1;
        rows.push(TableRow { rowid, bytes })?;
    }
    Ok(rows)
}

// The number of the last row.
fn last_number(rows: &[TableRow]) -> u64 {
    match rows.last() {
        Some(row) => row.rowid,
        None => 0,
    }
}

fn sequence_row(alloc: Global, rowid: u64, table: &str, last: u64) -> Result<TableRow, ImageFault> {
    let bytes = record(alloc, &[text(table), ValueRef::Int(last.cast_signed())])?;
    Ok(TableRow { rowid, bytes })
}

// The rows of `sqlite_sequence`: the largest number that a row of each table has had.
fn sequence(alloc: Global, tables: &Tables) -> Result<Vec<TableRow>, ImageFault> {
    let work = tables.last_work.max(last_number(&tables.work_queue));
    let mut rows = Vec::new(alloc);
    rows.push(sequence_row(alloc, 1, "REPOSITORY", last_number(&tables.repository))?)?;
    rows.push(sequence_row(alloc, 2, "WCROOT", last_number(&tables.wcroot))?)?;
    rows.push(sequence_row(alloc, 3, "WORK_QUEUE", work)?)?;
    Ok(rows)
}

/// The tables that SQLite keeps for itself.
#[derive(Debug, Drop)]
struct Kept {
    sequence: Vec<TableRow>,
    statistics: Vec<TableRow>,
}

fn table<'a>(tables: &'a Tables, table: Table, sql: &'a str) -> Item<'a>
    ensures { IsTableItem (name_of table) (rows_of tables.entry.now table) result }
{
    Item::Table {
        name: table.name(),
        sql,
        rows: tables.rows(table),
    }
}

fn own_table<'a>(name: &'a str, sql: &'a str, rows: &'a [TableRow]) -> Item<'a> {
    Item::Table { name, sql, rows }
}

fn index<'a>(name: &'a str, table: &'a str, sql: &'a str, records: &'a [Text]) -> Item<'a> {
    let sql = Some(sql);
    Item::Index {
        name,
        table,
        sql,
        records,
    }
}

// The index of a key.
fn key<'a>(name: &'a str, table: &'a str, records: &'a [Text]) -> Item<'a> {
    let sql = None;
    Item::Index {
        name,
        table,
        sql,
        records,
    }
}

fn trigger<'a>(name: &'a str, sql: &'a str) -> Item<'a> {
    let table = "nodes";
    Item::Trigger { name, table, sql }
}

fn view<'a>(name: &'a str, sql: &'a str) -> Item<'a> {
    Item::View { name, sql }
}

// All that the schema has, in the order in which a client makes it.
fn items_of<'a>(tables: &'a Tables, indexes: &'a Indexes, kept: &'a Kept) -> [Item<'a>; 32]
    ensures { HasTables tables.entry.now result }
{
    [
        table(tables, Table::Repository, schema::REPOSITORY),
        key(
            "sqlite_autoindex_REPOSITORY_1",
            "REPOSITORY",
            &indexes.copy.repository,
        ),
        own_table("sqlite_sequence", schema::SEQUENCE, &kept.sequence),
        index("I_UUID", "REPOSITORY", schema::UUID, &indexes.copy.uuid),
        index("I_ROOT", "REPOSITORY", schema::ROOT, &indexes.copy.root),
        table(tables, Table::Wcroot, schema::WCROOT),
        key("sqlite_autoindex_WCROOT_1", "WCROOT", &indexes.copy.wcroot),
        index(
            "I_LOCAL_ABSPATH",
            "WCROOT",
            schema::LOCAL_ABSPATH,
            &indexes.copy.local_abspath,
        ),
        table(tables, Table::Pristine, schema::PRISTINE),
        key(
            "sqlite_autoindex_PRISTINE_1",
            "PRISTINE",
            &indexes.actual.pristine,
        ),
        index(
            "I_PRISTINE_MD5",
            "PRISTINE",
            schema::PRISTINE_MD5,
            &indexes.actual.pristine_md5,
        ),
        table(tables, Table::ActualNode, schema::ACTUAL_NODE),
        key(
            "sqlite_autoindex_ACTUAL_NODE_1",
            "ACTUAL_NODE",
            &indexes.actual.actual_node,
        ),
        index(
            "I_ACTUAL_PARENT",
            "ACTUAL_NODE",
            schema::ACTUAL_PARENT,
            &indexes.actual.actual_parent,
        ),
        table(tables, Table::Lock, schema::LOCK),
        key("sqlite_autoindex_LOCK_1", "LOCK", &indexes.locks.lock),
        table(tables, Table::WorkQueue, schema::WORK_QUEUE),
        table(tables, Table::WcLock, schema::WC_LOCK),
        key(
            "sqlite_autoindex_WC_LOCK_1",
            "WC_LOCK",
            &indexes.locks.wc_lock,
        ),
        table(tables, Table::Nodes, schema::NODES),
        key("sqlite_autoindex_NODES_1", "NODES", &indexes.nodes.nodes),
        index(
            "I_NODES_PARENT",
            "NODES",
            schema::NODES_PARENT,
            &indexes.nodes.nodes_parent,
        ),
        index(
            "I_NODES_MOVED",
            "NODES",
            schema::NODES_MOVED,
            &indexes.nodes.nodes_moved,
        ),
        view("NODES_CURRENT", schema::NODES_CURRENT),
        view("NODES_BASE", schema::NODES_BASE),
        trigger("nodes_insert_trigger", schema::INSERT_TRIGGER),
        trigger("nodes_delete_trigger", schema::DELETE_TRIGGER),
        trigger("nodes_update_checksum_trigger", schema::CHECKSUM_TRIGGER),
        table(tables, Table::Externals, schema::EXTERNALS),
        key(
            "sqlite_autoindex_EXTERNALS_1",
            "EXTERNALS",
            &indexes.locks.externals,
        ),
        index(
            "I_EXTERNALS_DEFINED",
            "EXTERNALS",
            schema::EXTERNALS_DEFINED,
            &indexes.locks.externals_defined,
        ),
        own_table("sqlite_stat1", schema::STATISTICS, &kept.statistics),
    ]
}

/// The numbers in the header of a database.
#[derive(Clone, Copy, Debug, PartialEq, Eq)]
pub struct Numbers {
    /// How often the file was changed, by which a client notices that it was.
    pub change_counter: u32,
    /// A number of the application's own.
    pub application_id: u32,
}

/// What the application's number is made of, beside the change counter, in a database with work of this crate's.
const MARK: u32 = 0x7975_6d62;

impl Numbers {
    /// Those of a database with work to do, which nobody has changed since: each change by a client raises the counter, so that the mark no longer
    /// fits it.
    pub fn with_work(change_counter: u32) -> Numbers {
        Numbers {
            change_counter,
            application_id: change_counter ^ MARK,
        }
    }

    /// Those of a database with none.
    pub fn at_end(change_counter: u32) -> Numbers {
        Numbers {
            change_counter,
            application_id: 0,
        }
    }

    /// Whether the work is this crate's, and nobody has changed the database since.
    pub fn is_marked(self) -> bool {
        self.application_id == self.change_counter ^ MARK
    }
}

// The number of four bytes at a place of the header.
fn header_number(bytes: &[u8], place: usize) -> u32 {
    match bytes.get(place..place.saturating_add(4)) {
        Some(bytes) => get_u32(bytes, 0),
        None => 0,
    }
}

/// The numbers in the header of a database (fileformat2.html, section 1.3); 0 where it is cut off.
pub fn numbers_of(bytes: &[u8]) -> Numbers {
    Numbers {
        change_counter: header_number(bytes, 24),
        application_id: header_number(bytes, 68),
    }
}

/// Writes the database of these tables. Its header, its schema and the rows of each table were read back; the faults are those of `write_image`, and
/// Memory.
pub fn write_tables(alloc: Global, tables: &Tables, numbers: Numbers) -> Result<Vec<u8>, ImageFault>
    ensures { IfOk result (λ bytes. AreWritten numbers tables.now bytes.items) }
{
    let kept = Kept {
        sequence: sequence(alloc, tables)?,
        statistics: statistics(alloc)?,
    };
    let indexes = indexes_of(alloc, tables)?;
    let items = items_of(tables, &indexes, &kept);
    let database = Database {
        items: &items,
        change_counter: numbers.change_counter,
        schema_cookie: SCHEMA_COOKIE,
        application_id: numbers.application_id,
    };
    write_image(alloc, &database)
}
