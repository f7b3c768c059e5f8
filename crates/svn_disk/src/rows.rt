//! The rows of NODES of a copy that changes: those of nodes that stay as they are, and new ones of the others.

use crate::checkout::last_change;
use crate::existing::{Existing, is_base, path_of};
use crate::fault::DiskFault;
use crate::source::Source;
use crate::wanted::Wanted;
use std::alloc::Global;
use std::collections::BTreeMap;
use svn_model::BaseNode;
use svn_types::{RelPath, Text};
use svn_wcdb::TableRow;
use svn_wcrows::{Absence, Recorded, node_record, not_present_record};

/// The sizes in bytes of the files that are written anew, by their paths; none of a link.
pub(crate) type Sizes = BTreeMap<RelPath, Option<u64>>;

/// Rows of NODES, and the nodes of the base tree in the order of their rows.
#[derive(Drop)]
pub(crate) struct NodeRows {
    rows: Vec<TableRow>,
    nodes: Vec<(RelPath, BaseNode)>,
    // The number of the last row.
    last: u64,
}

impl NodeRows {
    // Adds a row that stays as it is.
    fn push_kept(&mut self, row: &TableRow) -> Result<(), DiskFault> {
        self.last = row.rowid;
        self.rows.push(TableRow {
            rowid: row.rowid,
            bytes: row.bytes.clone()?,
        })?;
        Ok(())
    }

    /// The rows, and the nodes.
    pub(crate) fn into_parts(self) -> (Vec<TableRow>, Vec<(RelPath, BaseNode)>) {
        let NodeRows { rows, nodes, .. } = self;
        (rows, nodes)
    }

    // Adds the row of a node, which is known beside it.
    fn push_node(&mut self, path: &RelPath, node: &BaseNode) -> Result<(), DiskFault> {
        self.nodes.push((path.clone()?, node.clone()?))?;
        Ok(())
    }
}

/// What rows are made of.
#[derive(Drop)]
pub(crate) struct RowMaker<'a, S> {
    pub(crate) alloc: Global,
    pub(crate) source: &'a S,
    pub(crate) existing: &'a Existing,
    pub(crate) wanted: &'a Wanted,
    pub(crate) sizes: &'a Sizes,
}

impl<S: Source> RowMaker<'_, S> {
    // The size and the time that are recorded of a file: those of the new one, or, if its text stays, those that were.
    fn size_and_time(&self, path: &RelPath, node: &BaseNode) -> Option<(u64, u64)> {
        if let Some(size) = self.sizes.get(path) {
            return match size {
                Some(size) => Some((*size, self.wanted.time)),
                None => None,
            };
        }
        match self.existing.copy.get(path) {
            Some(old) if old.text().is_some() && old.text() == node.text() => {
                self.existing.size_and_time_of(path)
            }
            _ => None,
        }
    }

    // Where in the repository a node would be that isn't present, and whether it is a directory: where it was, else below the directory above, as a file that
    // an edit which was stopped has begun to add.
    fn absent_place(&self, path: &RelPath) -> Result<(RelPath, bool), DiskFault> {
        if let Some(old) = self.existing.copy.get(path) {
            if let Some(repos_path) = old.repos_path() {
                return Ok((repos_path.clone()?, old.is_directory()));
            }
        }
        let (Some(name), Some(parent)) = (path.last_name(), path.parent(self.alloc)?) else {
            return Err(DiskFault::NoRoot);
        };
        match self.wanted.copy.get(&parent) {
            Some(BaseNode::Dir { repos_path, .. }) => {
                Ok((repos_path.join(self.alloc, name)?, false))
            }
            _ => Err(DiskFault::NoRoot),
        }
    }

    // The record of a node that isn't present any more, or not yet.
    fn record_absent(&self, path: &RelPath) -> Result<Text, DiskFault> {
        let (repos_path, is_directory) = self.absent_place(path)?;
        let absence = Absence {
            rev: self.wanted.absent_rev(self.alloc),
            repos_path: &repos_path,
            is_directory,
        };
        Ok(not_present_record(self.alloc, self.existing.owner, path, &absence)?)
    }

    // The record of a node that is another than it was.
    fn record(&self, path: &RelPath, node: &BaseNode) -> Result<Text, DiskFault> {
        if node.is_present() {
            self.record_present(path, node)
        } else {
            self.record_absent(path)
        }
    }

    // The same of one that is present.
    fn record_present(&self, path: &RelPath, node: &BaseNode) -> Result<Text, DiskFault> {
        let change = match last_change(self.alloc, self.source, node) {
            Ok(change) => change,
            Err(_) => return Err(DiskFault::Memory),
        };
        let recorded = Recorded {
            change,
            size_and_time: self.size_and_time(path, node),
            inherited: self.wanted.inherited_at(path),
        };
        Ok(node_record(self.alloc, self.existing.owner, path, node, &recorded)?)
    }

    // Whether the row of a node stays as it is.
    fn is_kept(&self, path: &RelPath, node: &BaseNode) -> bool {
        self.existing.copy.get(path) == Some(node) && !self.sizes.contains_key(path)
    }

    // Adds the row that a node of the old copy has in the new one, if it is there.
    fn push_old(
        &self,
        made: &mut NodeRows,
        row: &TableRow,
        path: &RelPath,
    ) -> Result<(), DiskFault> {
        let Some(node) = self.wanted.copy.get(path) else {
            return Ok(());
        };
        if self.is_kept(path, node) {
            made.push_kept(row)?;
        } else {
            let bytes = self.record(path, node)?;
            made.last = row.rowid;
            made.rows.push(TableRow {
                rowid: row.rowid,
                bytes,
            })?;
        }
        made.push_node(path, node)
    }

    // Adds what there was, in its order: rows that aren't of the base tree stay as they are.
    fn push_all_old(&self, made: &mut NodeRows) -> Result<(), DiskFault> {
        for row in &self.existing.tables.nodes {
            match path_of(self.alloc, row)? {
                Some(path) if is_base(row) => self.push_old(made, row, &path)?,
                _ => made.push_kept(row)?,
            }
        }
        Ok(())
    }

    // Adds the row of a node that comes, with the next number.
    fn push_new(
        &self,
        made: &mut NodeRows,
        path: &RelPath,
        node: &BaseNode,
    ) -> Result<(), DiskFault> {
        if self.existing.copy.get(path).is_some() {
            return Ok(());
        }
        let bytes = self.record(path, node)?;
        made.last = made.last.saturating_add(1);
        made.rows.push(TableRow {
            rowid: made.last,
            bytes,
        })?;
        made.push_node(path, node)
    }

    /// All rows, in the order of their numbers.
    pub(crate) fn rows(&self) -> Result<NodeRows, DiskFault> {
        let mut made = NodeRows {
            rows: Vec::new(self.alloc),
            nodes: Vec::new(self.alloc),
            last: 0,
        };
        self.push_all_old(&mut made)?;
        for (path, node) in self.wanted.copy.iter() {
            self.push_new(&mut made, path, node)?;
        }
        Ok(made)
    }
}
