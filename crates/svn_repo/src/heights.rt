//! How deep the tree below each node is, so that a copy needs no walk to know whether it would go too deep.
ghost use Rattle.std.specs.Prelude.{◌≡◌, ◌≤◌, ℕ, OnOk, OnErr, length, max, slice_get, take};
ghost use Rattle.svn_repo.specs.Stored.{rows, entries_of, IsHeight, AreHeights};
ghost use Rattle.svn_repo.specs.Heights.{height_above, height_from, IsOrdered};

use crate::entries::{Entries, NodeId};
use crate::store::{Content, Node};
use std::alloc::AllocError;
use svn_types::MAX_DEPTH;

// The height of a directory that is at least this high, with one child more. What is deeper than a path may be counts as the longest path.
// Most children are lower than the tallest one before, and are passed over by one comparison.
fn height_with_child(height: u8, heights: &[u8], child: NodeId) -> u8
    ensures { result ≡ max height (height_above (slice_get heights.now child)) }
{
    match heights.get(child.index) {
        Some(below) if *below < height => height,
        Some(below) if (*below as usize) < MAX_DEPTH => *below + 1,
        _ => height.max(MAX_DEPTH as u8),
    }
}

fn height_of_directory(entries: &Entries, heights: &[u8]) -> u8
    ensures { result ≡ height_from heights.now 0 entries.now }
{
    let mut height = 0;
    for (_, child) in entries.iter() {
        height = height_with_child(height, heights, *child);
    }
    height
}

// The height of a node, given those of its children.
fn height_of(node: &Node, heights: &[u8]) -> u8
    ensures { result ≡ height_from heights.now 0 (entries_of node.now.content) }
{
    match &node.content {
        Content::Text(_) => 0,
        Content::Listing(entries) => height_of_directory(entries, heights),
    }
}

/// Adds the heights of the last nodes, from the last one on: each has children that was before, or later ones.
pub(crate) fn add_heights(nodes: &[Node], heights: &mut Vec<u8>) -> Result<(), AllocError>
    requires ordered { IsOrdered nodes.now (length heights.old.items) }
    requires old { (n k : ℕ) → slice_get heights.old.items n ≡ Some k → IsHeight (rows nodes.now) n k }
    ensures ok { OnOk result (AreHeights nodes.now heights.new.items) }
    ensures kept { take (length heights.old.items) heights.new.items ≡ heights.old.items }
{
    let base = heights.len();
    heights.resize(nodes.len(), 0)?;
    let mut n = nodes.len();
    'nodes: while n > base {
        n -= 1;
        heights[n] = height_of(&nodes[n], heights);
    }
    Ok(())
}
