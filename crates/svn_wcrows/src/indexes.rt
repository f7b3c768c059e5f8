//! The records of indexes, made of the rows of their tables.

use crate::tables::Tables;
use crate::values::value_at;
use sqlite_record::compare::with_record;
use sqlite_value::keys::Order;
use sqlite_value::value::ValueRef;
use std::alloc::Global;
use svn_image::{ImageFault, record};
use svn_types::Text;
use svn_wcdb::TableRow;

/// Each column ascends, and its texts by their bytes.
const BINARY: Order = Order { digits: 0 };

// The values of these columns, and the row's number.
fn record_of(alloc: Global, row: &TableRow, columns: &[usize]) -> Result<Text, ImageFault> {
    let mut values = Vec::new(alloc);
    for column in columns {
        values.push(value_at(row, *column))?;
    }
    values.push(ValueRef::Int(row.rowid.cast_signed()))?;
    record(alloc, &values)
}

// The records of the index over these columns of a table, in SQLite's order.
fn index_of(alloc: Global, rows: &[TableRow], columns: &[usize]) -> Result<Vec<Text>, ImageFault> {
    let mut records = Vec::with_capacity(alloc, rows.len())?;
    for row in rows {
        records.push(record_of(alloc, row, columns)?)?;
    }
    records.sort_by(|a, b| with_record(BINARY, a.as_slice(), b.as_slice()))?;
    Ok(records)
}

/// Those of REPOSITORY and WCROOT.
#[derive(Drop)]
pub(crate) struct CopyIndexes {
    pub(crate) repository: Vec<Text>,
    pub(crate) uuid: Vec<Text>,
    pub(crate) root: Vec<Text>,
    pub(crate) wcroot: Vec<Text>,
    pub(crate) local_abspath: Vec<Text>,
}

/// Those of PRISTINE and ACTUAL_NODE.
#[derive(Drop)]
pub(crate) struct ActualIndexes {
    pub(crate) pristine: Vec<Text>,
    pub(crate) pristine_md5: Vec<Text>,
    pub(crate) actual_node: Vec<Text>,
    pub(crate) actual_parent: Vec<Text>,
}

/// Those of LOCK, WC_LOCK and EXTERNALS.
#[derive(Drop)]
pub(crate) struct LockIndexes {
    pub(crate) lock: Vec<Text>,
    pub(crate) wc_lock: Vec<Text>,
    pub(crate) externals: Vec<Text>,
    pub(crate) externals_defined: Vec<Text>,
}

/// Those of NODES.
#[derive(Drop)]
pub(crate) struct NodeIndexes {
    pub(crate) nodes: Vec<Text>,
    pub(crate) nodes_parent: Vec<Text>,
    pub(crate) nodes_moved: Vec<Text>,
}

/// The records of all indexes of a working copy's database.
#[derive(Drop)]
pub(crate) struct Indexes {
    pub(crate) copy: CopyIndexes,
    pub(crate) actual: ActualIndexes,
    pub(crate) locks: LockIndexes,
    pub(crate) nodes: NodeIndexes,
}

fn copy_indexes(alloc: Global, tables: &Tables) -> Result<CopyIndexes, ImageFault> {
    Ok(CopyIndexes {
        repository: index_of(alloc, &tables.repository, &[1])?,
        uuid: index_of(alloc, &tables.repository, &[2])?,
        root: index_of(alloc, &tables.repository, &[1])?,
        wcroot: index_of(alloc, &tables.wcroot, &[1])?,
        local_abspath: index_of(alloc, &tables.wcroot, &[1])?,
    })
}

fn actual_indexes(alloc: Global, tables: &Tables) -> Result<ActualIndexes, ImageFault> {
    Ok(ActualIndexes {
        pristine: index_of(alloc, &tables.pristine, &[0])?,
        pristine_md5: index_of(alloc, &tables.pristine, &[4])?,
        actual_node: index_of(alloc, &tables.actual_node, &[0, 1])?,
        actual_parent: index_of(alloc, &tables.actual_node, &[0, 2, 1])?,
    })
}

fn lock_indexes(alloc: Global, tables: &Tables) -> Result<LockIndexes, ImageFault> {
    Ok(LockIndexes {
        lock: index_of(alloc, &tables.lock, &[0, 1])?,
        wc_lock: index_of(alloc, &tables.wc_lock, &[0, 1])?,
        externals: index_of(alloc, &tables.externals, &[0, 1])?,
        externals_defined: index_of(alloc, &tables.externals, &[0, 6, 1])?,
    })
}

fn node_indexes(alloc: Global, tables: &Tables) -> Result<NodeIndexes, ImageFault> {
    Ok(NodeIndexes {
        nodes: index_of(alloc, &tables.nodes, &[0, 1, 2])?,
        nodes_parent: index_of(alloc, &tables.nodes, &[0, 3, 1, 2])?,
        nodes_moved: index_of(alloc, &tables.nodes, &[0, 9, 2])?,
    })
}

/// All of them, by the places of the columns in their tables.
pub(crate) fn indexes_of(alloc: Global, tables: &Tables) -> Result<Indexes, ImageFault> {
    Ok(Indexes {
        copy: copy_indexes(alloc, tables)?,
        actual: actual_indexes(alloc, tables)?,
        locks: lock_indexes(alloc, tables)?,
        nodes: node_indexes(alloc, tables)?,
    })
}
