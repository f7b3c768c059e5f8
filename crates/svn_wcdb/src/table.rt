//! The rows of a table, and how many pages of the file it may still take.

use std::alloc::Global;
use svn_types::Text;

/// A row of a table, as the database has it. A `Text` holds any bytes, so a record's too.
#[derive(Debug, Drop, PartialEq, Eq)]
pub struct TableRow {
    /// Its number, as SQLite's 64 bits in two's complement.
    pub rowid: u64,
    /// Its record (fileformat2.html, section 2.1).
    pub bytes: Text,
}

/// The rows of a table that were read so far.
#[derive(Debug, Drop)]
pub(crate) struct Table {
    pub(crate) rows: Vec<TableRow>,
    // How many pages of the file the table may still take.
    pub(crate) spare: usize,
}

impl Table {
    ghost use Rattle.std.specs.Prelude.{◌≡◌, []};
    ghost use Rattle.svn_wcdb.specs.Tables.{seen_rows};

    /// No row yet.
    pub(crate) fn new(alloc: Global, pages: usize) -> Table
        ensures { seen_rows result ≡ ([], pages) }
    {
        Table {
            rows: Vec::new(alloc),
            spare: pages,
        }
    }
}
