//! The tree of a table: its rows, from left to right.
ghost use Rattle.std.specs.Prelude.{◌≡◌, ◌<◌, ◌≤◌, ◌+◌, length, slice_index, slice_index_or, [], true, false, IfOk, MatchBool};
ghost use Rattle.sqlite_format.specs.Cell.{IsBody};
ghost use Rattle.sqlite_format.specs.Node.{IsSound, node_body};
ghost use Rattle.svn_wcdb.specs.Reading.{Gives, each};
ghost use Rattle.svn_wcdb.specs.Images.{page_in, seen_file};
ghost use Rattle.svn_wcdb.specs.Pages.{kind_of, header_of, table_page, bodies_of, children_of};
ghost use Rattle.svn_wcdb.specs.Tables.{seen_rows, rowid_of, row_after, tree_after, table_rows};
ghost use Rattle.svn_wcdb.specs.Trees.{IsNodeOf};

use crate::fault::{Reason, WcdbFault};
use crate::pages::Image;
use crate::payload::{read_payload, take_page};
use crate::table::{Table, TableRow};
use sqlite_format::cell::{self, toggle_sign};
use sqlite_format::{Node, Tree};
use sqlite_record::check::is_record;
use std::alloc::Global;
use svn_types::Text;

/// SQLite reads no tree of more levels.
const MAX_LEVELS: u32 = 20;

// Page 1 begins with the file's header.
fn header_of(number: u32) -> usize
    ensures value { result ≡ header_of number }
    ensures low { result ≤ 100 }
{
    if number == 1 { 100 } else { 0 }
}

fn is_table(node: &Node) -> bool
    ensures { MatchBool result (node.now.kind.tree ≡ Tree.Table) (node.now.kind.tree ≡ Tree.Index) }
{
    match node.kind.tree {
        Tree::Table => true,
        Tree::Index => false,
    }
}

// A page of a table, if it is one that is well formed.
fn node_at<'a>(alloc: Global, image: &Image<'a>, number: u32) -> Result<Node<'a>, WcdbFault>
    ensures page { Gives (λ node. record { leaf = node.kind.leaf; bytes = node.bytes.now }) result (table_page (page_in (seen_file image.now)) number) }
    ensures node { IfOk result (IsNodeOf image.now.usable number) }
{
    let Some(bytes) = image.page(number) else {
        return Err(WcdbFault::Refused(Reason::BadPage(number)));
    };
    let Some(node) = Node::parse(bytes, header_of(number)) else {
        return Err(WcdbFault::Refused(Reason::BadPage(number)));
    };
    if !is_table(&node) {
        return Err(WcdbFault::Refused(Reason::BadPage(number)));
    }
    if !node.is_sound(alloc)? {
        return Err(WcdbFault::Refused(Reason::BadPage(number)));
    }
    Ok(node)
}

// A row's number.
fn rowid_of(row: &[u8], size: usize) -> u64
    requires { IsBody Tree.Table true size row.now }
    ensures { result ≡ rowid_of row.now }
{
    let Some(key) = cell::key(true, row) else {
        unreachable!()
    };
    toggle_sign(key)
}

// Appends a row.
fn push_row(alloc: Global, image: &Image, row: &[u8], table: &mut Table) -> Result<(), WcdbFault>
    requires { IsBody Tree.Table true image.now.usable row.now }
    ensures { Gives (λ _. seen_rows table.new) result (row_after (page_in (seen_file image.now)) image.now.usable row.now (seen_rows table.old)) }
{
    let bytes = read_payload(alloc, image, row, &mut table.spare)?;
    if !is_record(&bytes) {
        return Err(WcdbFault::Refused(Reason::BadRecord));
    }
    table.rows.push(TableRow {
        rowid: rowid_of(row, image.usable),
        bytes: Text::new(bytes),
    })?;
    Ok(())
}

// A row of a leaf.
fn body_at<'a>(node: &Node<'a>, i: usize) -> &'a [u8]
    requires sound { IsSound node.now }
    requires within { i < node.now.count }
    ensures { result.now ≡ node_body node.now i }
{
    let Some(row) = node.body(i) else {
        unreachable!()
    };
    row
}

// Appends the rows of a leaf.
fn push_leaf(
    alloc: Global,
    image: &Image,
    number: u32,
    node: &Node,
    table: &mut Table,
) -> Result<(), WcdbFault>
    requires node { IsNodeOf image.now.usable number node.now }
    requires leaf { node.now.kind.leaf ≡ true }
    ensures { Gives (λ _. seen_rows table.new) result (each (row_after (page_in (seen_file image.now)) image.now.usable) (bodies_of node.now.bytes.now number) (seen_rows table.old)) }
{
    for i in 0..node.count {
        push_row(alloc, image, body_at(node, i), table)?;
    }
    Ok(())
}

// A page below an interior page; the last is beside its cells.
fn child_at(number: u32, node: &Node, i: usize) -> u32
    requires sound { IsSound node.now }
    requires header { node.now.header ≡ header_of number }
    requires kind { node.now.kind ≡ kind_of false }
    requires within { i ≤ node.now.count }
    ensures { result ≡ slice_index (children_of node.now.bytes.now number) i }
{
    if i == node.count {
        return node.right();
    }
    let Some(child) = node.child(i) else {
        unreachable!()
    };
    child
}

// Appends the rows of a tree of at most so many levels.
fn push_tree(
    alloc: Global,
    image: &Image,
    number: u32,
    levels: u32,
    table: &mut Table,
) -> Result<(), WcdbFault>
    ensures { Gives (λ _. seen_rows table.new) result (tree_after (page_in (seen_file image.now)) image.now.usable levels number (seen_rows table.old)) }
{
    if levels == 0 {
        return Err(WcdbFault::Refused(Reason::TooDeep(number)));
    }
    table.spare = take_page(number, table.spare)?;
    let node = node_at(alloc, image, number)?;
    if node.kind.leaf {
        return push_leaf(alloc, image, number, &node, table);
    }
    for i in 0..node.count + 1 {
        push_tree(alloc, image, child_at(number, &node, i), levels - 1, table)?;
    }
    Ok(())
}

/// The rows of the table with that root page, in their order; the schema's is page 1. It takes no more pages than the file has, one that is there twice
/// counted twice, and 20 levels at most. BadPage, TooDeep, Loop, BadOverflow or BadRecord where it is no table, and Memory.
#[tactic(auto, unfolding(crate::specs::Tables::table_rows))]
pub fn read_table(alloc: Global, image: &Image, root: u32) -> Result<Vec<TableRow>, WcdbFault>
    ensures { Gives (λ rows. rows.items) result (table_rows (seen_file image.now) root) }
{
    let mut table = Table::new(alloc, image.pages());
    push_tree(alloc, image, root, MAX_LEVELS, &mut table)?;
    Ok(table.rows)
}
