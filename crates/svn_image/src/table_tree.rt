//! The tree of a table (fileformat2.html, section 1.6): rows in the leaves, and above them pages whose cells name a child and its greatest rowid.
ghost use Rattle.std.specs.Prelude.{◌≡◌, ◌≤◌, ◌<◌, length, IfOk};

use crate::fault::ImageFault;
use crate::header::HEADER;
use crate::node::NewNode;
use crate::overflow::push_rest;
use crate::pages::{PAGE, Pages};
use sqlite_format::cell::{self, Key, toggle_sign};
use sqlite_format::{Kind, Tree};
use std::alloc::Global;
use svn_wcdb::TableRow;

const LEAF: Kind = Kind {
    tree: Tree::Table,
    leaf: true,
};

const INTERIOR: Kind = Kind {
    tree: Tree::Table,
    leaf: false,
};

/// How many children a page has at most. A cell that names one takes at most 15 bytes, so page 1 has room for them too.
const MAX_CHILDREN: usize = 256;

/// SQLite reads no tree of more levels.
pub(crate) const MAX_LEVELS: u32 = 20;

// A page of a tree, and the greatest key in it and below.
#[derive(Clone, Copy, Debug, Drop)]
struct Child {
    page: u32,
    last: Key,
}

// Writes a row's cell, and appends its overflow pages.
fn write_cell(
    alloc: Global,
    pages: &mut Pages,
    row: &TableRow,
    cell: &mut Vec<u8>,
) -> Result<(), ImageFault> {
    let payload = row.bytes.as_slice();
    let first = push_rest(alloc, pages, Tree::Table, payload)?;
    cell::write_row(
        cell,
        Tree::Table,
        PAGE,
        toggle_sign(row.rowid),
        payload,
        first,
    )?;
    cell::pad(cell)?;
    Ok(())
}

// Appends the leaves of these rows, one at least.
fn push_leaves(
    alloc: Global,
    pages: &mut Pages,
    rows: &[TableRow],
) -> Result<Vec<Child>, ImageFault> {
    let mut leaves = Vec::new(alloc);
    let mut leaf = NewNode::new(alloc, LEAF, 0)?;
    let mut cell = Vec::new(alloc);
    let mut last = 0;
    for row in rows {
        write_cell(alloc, pages, row, &mut cell)?;
        if leaf.room() < cell.len().saturating_add(2) {
            let page = leaf.flush(alloc, pages, 0)?;
            leaves.push(Child { page, last })?;
        }
        leaf.push(&cell)?;
        last = toggle_sign(row.rowid);
    }
    let page = pages.push(&leaf.finish(0))?;
    leaves.push(Child { page, last })?;
    Ok(leaves)
}

// The page above these, which has the last after its cells.
fn parent_of(alloc: Global, children: &[Child], header: usize) -> Result<Vec<u8>, ImageFault>
    requires { header ≤ 100 }
    ensures { IfOk result (λ page. length page.items ≡ 4096) }
{
    let mut node = NewNode::new(alloc, INTERIOR, header)?;
    let Some((last, others)) = children.split_last() else {
        return Ok(node.finish(0));
    };
    for child in others {
        node.push(&cell::divider(alloc, child.page, child.last)?)?;
    }
    Ok(node.finish(last.page))
}

// How many of so many pages the next page above has: none is left alone, since a page that is no leaf has a cell.
fn next_children(left: usize) -> usize
    requires { 0 < left }
    ensures some { 0 < result }
    ensures within { result ≤ left }
{
    if left == MAX_CHILDREN + 1 {
        MAX_CHILDREN - 1
    } else {
        left.min(MAX_CHILDREN)
    }
}

// Appends the pages above these.
fn push_parents(
    alloc: Global,
    pages: &mut Pages,
    children: &[Child],
) -> Result<Vec<Child>, ImageFault> {
    let mut parents = Vec::new(alloc);
    let mut rest = children;
    'parents: while !rest.is_empty() {
        let (next, after) = rest.split_at(next_children(rest.len()));
        parents.push(push_parent(alloc, pages, next)?)?;
        rest = after;
    }
    Ok(parents)
}

// Appends the page above these.
fn push_parent(alloc: Global, pages: &mut Pages, children: &[Child]) -> Result<Child, ImageFault> {
    let page = pages.push(&parent_of(alloc, children, 0)?)?;
    let last = children.last().map_or(0, |child| child.last);
    Ok(Child { page, last })
}

// Appends levels of a tree, from its leaves on, up to one of at most so many pages.
fn push_levels(
    alloc: Global,
    pages: &mut Pages,
    rows: &[TableRow],
    most: usize,
) -> Result<Vec<Child>, ImageFault> {
    let mut level = push_leaves(alloc, pages, rows)?;
    for _ in 0..MAX_LEVELS {
        if level.len() <= most {
            return Ok(level);
        }
        level = push_parents(alloc, pages, &level)?;
    }
    Err(ImageFault::TooLarge)
}

/// Appends the tree of these rows, which ascend, and returns the number of its root. TooLarge, Memory.
pub(crate) fn push_table(
    alloc: Global,
    pages: &mut Pages,
    rows: &[TableRow],
) -> Result<u32, ImageFault> {
    match push_levels(alloc, pages, rows, 1)?.last() {
        Some(root) => Ok(root.page),
        None => Err(ImageFault::TooLarge),
    }
}

/// Appends the tree of these rows but for its root, and returns that: page 1, which begins with the file's header. It is a leaf only where there is no row. So
/// it has no cell where all rows are in one leaf: of page 1 SQLite takes that, and leaves it so itself (moveToRoot in its btree.c). TooLarge, Memory.
pub(crate) fn push_schema(
    alloc: Global,
    pages: &mut Pages,
    rows: &[TableRow],
) -> Result<Vec<u8>, ImageFault>
    ensures { IfOk result (λ page. length page.items ≡ 4096) }
{
    if rows.is_empty() {
        return Ok(NewNode::new(alloc, LEAF, HEADER)?.finish(0));
    }
    let level = push_levels(alloc, pages, rows, MAX_CHILDREN)?;
    parent_of(alloc, &level, HEADER)
}
