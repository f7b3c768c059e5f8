//! Reads the records of an index, in their order, from the bytes of a file.
ghost use Rattle.std.specs.Prelude.{◌≡◌, length};

use crate::images::written::PAGE;
use sqlite_format::bytes::get_u32;
use sqlite_format::{Node, Tree, cell};
use std::alloc::Global;
use std::test::Fail;

// No tree of a test has more levels.
const MAX_LEVELS: u32 = 4;

// A page of the file, or zeros where it has none.
fn page(file: &[u8], number: u32) -> &[u8]
    ensures { length result.now ≡ 4096 }
{
    let start = (number as usize).saturating_sub(1) * PAGE;
    if start + PAGE <= file.len() {
        &file[start..start + PAGE]
    } else {
        &[0; PAGE]
    }
}

// Appends the record of a cell, with what of it is in overflow pages.
fn push_record(
    alloc: Global,
    file: &[u8],
    body: &[u8],
    out: &mut Vec<Vec<u8>>,
) -> Result<(), Fail> {
    let Some(payload) = cell::payload_of(Tree::Index, PAGE, body) else {
        return Ok(());
    };
    let mut record = Vec::from_slice(alloc, payload.local)?;
    let mut next = payload.overflow;
    for _ in 0..payload.spilled.div_ceil(4092) {
        let link = page(file, next);
        record.extend_from_slice(&link[4..])?;
        next = get_u32(link, 0);
    }
    record.truncate(payload.local.len().saturating_add(payload.spilled as usize));
    out.push(record)?;
    Ok(())
}

/// Appends the records of the tree at a page: of each cell those of the page before it, and its own.
pub(crate) fn push_records(
    alloc: Global,
    file: &[u8],
    number: u32,
    levels: u32,
    out: &mut Vec<Vec<u8>>,
) -> Result<(), Fail> {
    let Some(node) = Node::parse(page(file, number), 0) else {
        return Ok(());
    };
    if levels == 0 {
        return Ok(());
    }
    for i in 0..node.count {
        if !node.kind.leaf
            && let Some(child) = node.child(i)
        {
            push_records(alloc, file, child, levels - 1, out)?;
        }
        if let Some(body) = node.body(i) {
            push_record(alloc, file, body, out)?;
        }
    }
    if node.kind.leaf {
        return Ok(());
    }
    push_records(alloc, file, node.right(), levels - 1, out)
}

/// The records of the index with that root page.
pub(crate) fn read_index(alloc: Global, file: &[u8], root: u32) -> Result<Vec<Vec<u8>>, Fail> {
    let mut out = Vec::new(alloc);
    push_records(alloc, file, root, MAX_LEVELS, &mut out)?;
    Ok(out)
}
