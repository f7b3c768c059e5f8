//! Copies of a list of nodes, or of what of it is below a path.

ghost use Rattle.std.specs.Prelude.{◌≡◌, ◌++◌, IfOk, IfErr, OnOk, None};
ghost use Rattle.svn_types.specs.Names.{Path};
ghost use Rattle.svn_model.specs.Nodes.{get_in};
ghost use Rattle.svn_model.specs.Refusals.{nodes_fault};
ghost use Rattle.svn_audit.specs.Below.{nodes_below, IsFaultOrMemory};

use std::alloc::{AllocError, Global};
use svn_model::{BaseNode, WcFault};
use svn_types::RelPath;
use svn_wc::WorkingCopy;

// The nodes at a path and below, each at its path from there.
fn nodes_below(
    alloc: Global,
    above: &RelPath,
    nodes: Vec<(RelPath, BaseNode)>,
) -> Result<Vec<(RelPath, BaseNode)>, AllocError>
    ensures { IfOk result (λ below. below.items ≡ nodes_below above.now nodes.items) }
{
    let depth = above.components().len();
    let mut below = Vec::new(alloc);
    for (path, node) in nodes {
        if path.is_within(above) {
            below.push((path.tail(alloc, depth)?, node))?;
        }
    }
    Ok(below)
}

/// The copy of the nodes of a list that are at a path and below, as a copy of its own; of all of them, where the path is the root. Refused as
/// [`WorkingCopy::from_nodes`] refuses a list: BadRoot where the path has no directory. Memory may come before any other fault.
pub fn copy_below(
    alloc: Global,
    above: &RelPath,
    nodes: Vec<(RelPath, BaseNode)>,
) -> Result<WorkingCopy, WcFault>
    ensures nodes { IfOk result (λ w. (p : Path) → get_in w p ≡ get_in nodes.items (above.now ++ p)) }
    ensures made { OnOk result (nodes_fault (nodes_below above.now nodes.items) ≡ None) }
    ensures fault { IfErr result (IsFaultOrMemory (nodes_fault (nodes_below above.now nodes.items))) }
{
    if above.is_root() {
        return WorkingCopy::from_nodes(alloc, nodes);
    }
    WorkingCopy::from_nodes(alloc, nodes_below(alloc, above, nodes)?)
}
