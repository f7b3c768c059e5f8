//! The tables of a working copy's database, each with its rows as the database has them.
ghost use Rattle.std.specs.Prelude.{◌≡◌};
ghost use Rattle.svn_wcrows.specs.Databases.{name_of, rows_of};

use crate::counts::count_texts;
use crate::fault::RowsFault;
use crate::small_rows::{repository_row, root_row};
use std::alloc::Global;
use svn_wcdb::TableRow;

/// A table of a working copy's database (`wc-metadata.sql`).
#[derive(Clone, Copy, Debug, PartialEq, Eq)]
pub enum Table {
    Repository,
    Wcroot,
    Pristine,
    ActualNode,
    Lock,
    WorkQueue,
    WcLock,
    Nodes,
    Externals,
}

impl Table {
    /// Its name in the schema.
    pub fn name(self) -> &'static str
        ensures { result.now ≡ name_of self }
    {
        match self {
            Table::Repository => "REPOSITORY",
            Table::Wcroot => "WCROOT",
            Table::Pristine => "PRISTINE",
            Table::ActualNode => "ACTUAL_NODE",
            Table::Lock => "LOCK",
            Table::WorkQueue => "WORK_QUEUE",
            Table::WcLock => "WC_LOCK",
            Table::Nodes => "NODES",
            Table::Externals => "EXTERNALS",
        }
    }
}

/// The tables of a working copy's database (`wc-metadata.sql`). Rows ascend by their numbers.
#[derive(Debug, Drop, PartialEq, Eq)]
pub struct Tables {
    /// REPOSITORY: where nodes are from.
    pub repository: Vec<TableRow>,
    /// WCROOT: the root, one row.
    pub wcroot: Vec<TableRow>,
    /// PRISTINE: the texts that are kept.
    pub pristine: Vec<TableRow>,
    /// ACTUAL_NODE: local properties, conflicts and changelists.
    pub actual_node: Vec<TableRow>,
    /// LOCK: what is locked in the repository.
    pub lock: Vec<TableRow>,
    /// WORK_QUEUE: what is left to do on disk.
    pub work_queue: Vec<TableRow>,
    /// WC_LOCK: folders that a client is at work in.
    pub wc_lock: Vec<TableRow>,
    /// NODES: the base tree, and local changes of the tree.
    pub nodes: Vec<TableRow>,
    /// EXTERNALS: what `svn:externals` puts into the copy.
    pub externals: Vec<TableRow>,
    /// The largest number that work has had, which new work must not have again.
    pub last_work: u64,
}

impl Tables {
    /// Those of a copy with no node, whose repository has a URL and a UUID. Image, Memory.
    pub fn new(alloc: Global, url: &[u8], uuid: &[u8]) -> Result<Tables, RowsFault> {
        let mut repository = Vec::new(alloc);
        repository.push(repository_row(alloc, url, uuid)?)?;
        let mut wcroot = Vec::new(alloc);
        wcroot.push(root_row(alloc)?)?;
        Ok(Tables {
            repository,
            wcroot,
            pristine: Vec::new(alloc),
            actual_node: Vec::new(alloc),
            lock: Vec::new(alloc),
            work_queue: Vec::new(alloc),
            wc_lock: Vec::new(alloc),
            nodes: Vec::new(alloc),
            externals: Vec::new(alloc),
            last_work: 0,
        })
    }

    /// The rows of a table.
    pub fn rows(&self, table: Table) -> &[TableRow]
        ensures { result.now ≡ rows_of self.now table }
    {
        match table {
            Table::Repository => &self.repository,
            Table::Wcroot => &self.wcroot,
            Table::Pristine => &self.pristine,
            Table::ActualNode => &self.actual_node,
            Table::Lock => &self.lock,
            Table::WorkQueue => &self.work_queue,
            Table::WcLock => &self.wc_lock,
            Table::Nodes => &self.nodes,
            Table::Externals => &self.externals,
        }
    }

    /// Counts anew how many nodes have each text, as the triggers of a database do. Image, Memory.
    pub fn count_texts(&mut self, alloc: Global) -> Result<(), RowsFault> {
        count_texts(alloc, self)
    }
}
