//! The databases of a copy that changes: with work left to do, and with none.
ghost use Rattle.std.specs.Prelude.{◌≡◌, IfOk};
ghost use Rattle.svn_wcrows.specs.Copies.{StandsFor};

use crate::fault::DiskFault;
use std::alloc::Global;
use svn_model::BaseNode;
use svn_types::RelPath;
use svn_wcrows::{Numbers, Owner, Tables, Work, lock_row, work_rows, write_copy};

/// The tables of a copy with their nodes, from which its databases are written one after another.
#[derive(Drop)]
pub(crate) struct Images {
    /// The tables. Work and locks are written afresh.
    pub(crate) tables: Tables,
    /// The nodes in the order of their rows.
    pub(crate) nodes: Vec<(RelPath, BaseNode)>,
    /// The numbers of the root and of the repository.
    pub(crate) owner: Owner,
    /// How often the database was changed so far, modulo 2^32.
    pub(crate) change_counter: u32,
}

impl Images {
    /// The next database, with this work to do, and a lock that keeps clients from it; with neither where there is no work.
    pub(crate) fn next(&mut self, alloc: Global, work: &[Work]) -> Result<Vec<u8>, DiskFault>
        ensures image { IfOk result (λ image. StandsFor self.old.nodes.items image.items) }
        ensures nodes { self.new.nodes.items ≡ self.old.nodes.items }
    {
        self.change_counter = self.change_counter.wrapping_add(1);
        self.tables.work_queue = work_rows(alloc, work, self.tables.last_work)?;
        self.tables.last_work = self.tables.last_work.saturating_add(work.len() as u64);
        self.tables.wc_lock = Vec::new(alloc);
        let mut numbers = Numbers::at_end(self.change_counter);
        if !work.is_empty() {
            self.tables.wc_lock.push(lock_row(alloc, self.owner)?)?;
            numbers = Numbers::with_work(self.change_counter);
        }
        Ok(write_copy(alloc, &self.tables, numbers, &self.nodes)?)
    }
}
