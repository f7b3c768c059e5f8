//! What a database has.

use svn_types::Text;
use svn_wcdb::TableRow;

/// A row of the schema (fileformat2.html, section 2.6), with what is in its tree. SQL is as SQLite keeps it: the text of the statement that makes the item.
#[derive(Clone, Copy, Debug)]
pub enum Item<'a> {
    /// A table with rowids, which ascend as signed numbers. A column that stands for the rowid is NULL in the records.
    Table {
        name: &'a str,
        sql: &'a str,
        rows: &'a [TableRow],
    },
    /// An index: the records of the columns and of the rowid, which ascend in SQLite's order under `BINARY`. One that a table has by itself, for a key, has
    /// no SQL.
    Index {
        name: &'a str,
        table: &'a str,
        sql: Option<&'a str>,
        records: &'a [Text],
    },
    /// A view.
    View {
        name: &'a str,
        sql: &'a str,
    },
    /// A trigger of a table or a view.
    Trigger {
        name: &'a str,
        table: &'a str,
        sql: &'a str,
    },
}

/// What a database file has.
#[derive(Clone, Copy, Debug)]
pub struct Database<'a> {
    /// The rows of the schema, in their order.
    pub items: &'a [Item<'a>],
    /// How often the file was changed, by which a client notices that it was.
    pub change_counter: u32,
    /// How often the schema was changed.
    pub schema_cookie: u32,
    /// A number of the application's own.
    pub application_id: u32,
}
