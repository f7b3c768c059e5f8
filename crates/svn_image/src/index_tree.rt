//! The tree of an index (fileformat2.html, section 1.6): each record is in one page, a leaf or one above. A record between two pages of a level is in a page
//! above.
ghost use Rattle.std.specs.Prelude.{◌≡◌};

use crate::fault::ImageFault;
use crate::node::NewNode;
use crate::overflow::push_rest;
use crate::pages::{PAGE, Pages};
use crate::table_tree::MAX_LEVELS;
use sqlite_format::{Kind, Tree, cell};
use std::alloc::Global;
use svn_types::Text;

// A record as its cell has it, and the page of the records before it, if it is above a level.
#[derive(Debug, Drop)]
struct Entry {
    child: u32,
    body: Vec<u8>,
}

// What goes above a level, and the level's last page.
#[derive(Debug, Drop)]
struct Level {
    above: Vec<Entry>,
    last: u32,
}

// A record of a leaf. Its overflow pages are appended.
fn entry_of(alloc: Global, pages: &mut Pages, record: &Text) -> Result<Entry, ImageFault> {
    let payload = record.as_slice();
    let first = push_rest(alloc, pages, Tree::Index, payload)?;
    let mut body = Vec::new(alloc);
    cell::write_row(&mut body, Tree::Index, PAGE, 0, payload, first)?;
    Ok(Entry { child: 0, body })
}

fn entries_of(
    alloc: Global,
    pages: &mut Pages,
    records: &[Text],
) -> Result<Vec<Entry>, ImageFault> {
    let mut entries = Vec::new(alloc);
    for record in records {
        entries.push(entry_of(alloc, pages, record)?)?;
    }
    Ok(entries)
}

// How many bytes of a page a record takes, with its pointer.
fn size_in(kind: Kind, entry: &Entry) -> usize {
    let len = entry.body.len();
    let cell = if kind.leaf {
        len.max(4)
    } else {
        len.saturating_add(4)
    };
    cell.saturating_add(2)
}

// Whether the first of these goes above: where the page has no room for it, or where the last would come to be alone, and have no room. So the last never
// does, and the level's last page has a cell.
fn goes_above(kind: Kind, node: &NewNode, rest: &[Entry]) -> bool {
    match rest {
        [] | [_] => false,
        [first, last] => size_in(kind, first).saturating_add(size_in(kind, last)) > node.room(),
        [first, ..] => size_in(kind, first) > node.room(),
    }
}

// Ends a page before a record that goes above, and begins another.
fn push_full(
    alloc: Global,
    pages: &mut Pages,
    node: &mut NewNode,
    entry: &Entry,
) -> Result<Entry, ImageFault> {
    let child = node.flush(alloc, pages, entry.child)?;
    let body = Vec::from_slice(alloc, entry.body.as_slice())?;
    Ok(Entry { child, body })
}

// Appends a level of these records. Of pages that are no leaves the last child is `right`.
fn push_level(
    alloc: Global,
    pages: &mut Pages,
    kind: Kind,
    entries: &[Entry],
    right: u32,
) -> Result<Level, ImageFault> {
    let mut above = Vec::new(alloc);
    let mut node = NewNode::new(alloc, kind, 0)?;
    for i in 0..entries.len() {
        let entry = &entries[i];
        if goes_above(kind, &node, &entries[i..]) {
            above.push(push_full(alloc, pages, &mut node, entry)?)?;
        } else {
            node.push(&cell::of_body(alloc, kind, entry.child, &entry.body)?)?;
        }
    }
    let last = pages.push(&node.finish(right))?;
    Ok(Level { above, last })
}

/// Appends the tree of these records, which ascend, and returns the number of its root. TooLarge, Memory.
pub(crate) fn push_index(
    alloc: Global,
    pages: &mut Pages,
    records: &[Text],
) -> Result<u32, ImageFault> {
    let mut entries = entries_of(alloc, pages, records)?;
    let mut right = 0;
    for height in 0..MAX_LEVELS {
        let kind = Kind {
            tree: Tree::Index,
            leaf: height == 0,
        };
        let level = push_level(alloc, pages, kind, &entries, right)?;
        if level.above.is_empty() {
            return Ok(level.last);
        }
        entries = level.above;
        right = level.last;
    }
    Err(ImageFault::TooLarge)
}
