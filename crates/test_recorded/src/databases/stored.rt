//! A database that a client wrote: what is read of it, and what is read of it once it is written again with new rows of its nodes.

use anyhow::Result;
use std::alloc::Global;
use std::fs;
use std::rt::Files;
use svn_model::BaseNode;
use svn_types::RelPath;
use svn_wcdb::{TableRow, read_base_tree};
use svn_wcrows::{
    Numbers, Owner, Recorded, Table, Tables, node_record, number_at, read_tables, read_work,
    write_copy,
};

/// The column `op_depth` of NODES, which is 0 in a base node's row.
const OP_DEPTH: usize = 2;

const TABLES: [Table; 9] = [
    Table::Repository,
    Table::Wcroot,
    Table::Pristine,
    Table::ActualNode,
    Table::Lock,
    Table::WorkQueue,
    Table::WcLock,
    Table::Nodes,
    Table::Externals,
];

/// The client's own.
const OWNER: Owner = Owner {
    wc_id: 1,
    repos_id: 1,
};

fn print_rows<R: Print>(rt: &R, tables: &Tables) -> Result<()> {
    for table in TABLES {
        println!(rt; "{} {}", table.name(), tables.rows(table).len())?;
    }
    println!(rt; "work so far {}", tables.last_work)?;
    Ok(())
}

fn print_work<R: Print + AllocGlobal>(rt: &R, tables: &Tables) -> Result<()> {
    match read_work(rt.alloc(), &tables.work_queue)? {
        Some(items) => println!(rt; "{} items of work", items.len())?,
        None => println!(rt; "work of a client")?,
    }
    Ok(())
}

// Makes the row of a node anew. One of a node that isn't present stays.
fn make_row(alloc: Global, row: &mut TableRow, path: &RelPath, node: &BaseNode) -> Result<()> {
    if node.is_present() {
        row.bytes = node_record(alloc, OWNER, path, node, &Recorded::NOTHING)?;
    }
    Ok(())
}

// Makes each base node's row anew, and returns how many there are.
fn make_rows(alloc: Global, rows: &mut [TableRow], nodes: &[(RelPath, BaseNode)]) -> Result<usize> {
    let mut count = 0usize;
    for row in rows {
        if number_at(row, OP_DEPTH) == Some(0) {
            if let Some((path, node)) = nodes.get(count) {
                make_row(alloc, row, path, node)?;
            }
            count = count.saturating_add(1);
        }
    }
    Ok(count)
}

// Whether the tables are read again from a database of them, of which the nodes are read again too.
fn is_read_again(alloc: Global, tables: &Tables, nodes: &[(RelPath, BaseNode)]) -> Result<bool> {
    let bytes = write_copy(alloc, tables, Numbers::at_end(1), nodes)?;
    Ok(&read_tables(alloc, &bytes)? == tables)
}

fn print_made<R: AllocGlobal + Print>(
    rt: &R,
    nodes: &[(RelPath, BaseNode)],
    tables: &mut Tables,
) -> Result<()> {
    let count = make_rows(rt.alloc(), &mut tables.nodes, nodes)?;
    let again = is_read_again(rt.alloc(), tables, nodes)?;
    println!(rt; "{count} base nodes, read again: {again}")?;
    Ok(())
}

// Prints what is read of a database whose nodes have new rows.
fn print_again<R: AllocGlobal + Print>(rt: &R, bytes: &[u8], tables: &mut Tables) -> Result<()> {
    match read_base_tree(rt.alloc(), bytes) {
        Ok(tree) => print_made(rt, &tree.nodes, tables),
        Err(refusal) => {
            println!(rt; "refused: {refusal}")?;
            Ok(())
        }
    }
}

// Prints what is read of the bytes of a database.
fn print_read<R: AllocGlobal + Print>(rt: &R, bytes: &[u8]) -> Result<()> {
    let mut tables = read_tables(rt.alloc(), bytes)?;
    print_rows(rt, &tables)?;
    print_work(rt, &tables)?;
    print_again(rt, bytes, &mut tables)
}

/// Prints what is read of a database.
pub(crate) fn print<R: Files + AllocGlobal + Print>(rt: &R, name: &str) -> Result<()> {
    let bytes = fs::read(rt, name)?;
    println!(rt; "{name}")?;
    print_read(rt, &bytes)
}
