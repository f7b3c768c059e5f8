//! A part comes at a path below which no node is: its nodes are appended to those of the copy.
ghost use Rattle.std.specs.Prelude.{◌≡◌, true, false, OnOk, OnErr, Some, None, if◌then◌else◌};
ghost use Rattle.svn_types.specs.Names.{Path};
ghost use Rattle.svn_types.specs.Paths.{path_eq, is_within, is_below};
ghost use Rattle.svn_model.specs.Nodes.{get_in};

use crate::nodes::Nodes;
use crate::removal::remove_below;
use std::alloc::AllocError;
use svn_model::BaseNode;
use svn_types::RelPath;

// Moves nodes below a path to where none is, or leaves what is there as it was.
fn append_below(nodes: &mut Nodes, at: &RelPath, mut part: Nodes) -> Result<(), AllocError>
    requires free { (p : Path) → is_below at.now p ≡ true → get_in nodes.old.entries p ≡ None }
    requires below { (p : Path) → is_below at.now p ≡ false → get_in part.entries p ≡ None }
    ensures moved { OnOk result ((p : Path) → get_in nodes.new.entries p ≡ (if is_below at.now p then get_in part.entries p else get_in nodes.old.entries p)) }
    ensures unchanged { OnErr result (nodes.new.entries ≡ nodes.old.entries) }
{
    // a map's length comes with the order of its keys
    let _before = nodes.len();
    match nodes.append(&mut part) {
        Ok(()) => Ok(()),
        Err(error) => {
            remove_below(nodes, at);
            let _after = nodes.len();
            Err(error)
        }
    }
}

// Puts a node in the place of what is at a path alone.
fn put(nodes: &mut Nodes, at: &RelPath, node: BaseNode) -> Result<(), AllocError>
    ensures put { OnOk result ((p : Path) → get_in nodes.new.entries p ≡ (if path_eq at.now p then Some node else get_in nodes.old.entries p)) }
    ensures unchanged { OnErr result (nodes.new.entries ≡ nodes.old.entries) }
{
    nodes.insert(at.clone()?, node)?;
    Ok(())
}

// The same, or nothing is there then.
fn set(nodes: &mut Nodes, at: &RelPath, node: Option<BaseNode>) -> Result<(), AllocError>
    ensures set { OnOk result ((p : Path) → get_in nodes.new.entries p ≡ (if path_eq at.now p then node else get_in nodes.old.entries p)) }
    ensures unchanged { OnErr result (nodes.new.entries ≡ nodes.old.entries) }
{
    match node {
        Some(node) => put(nodes, at, node),
        None => {
            nodes.remove(at);
            Ok(())
        }
    }
}

/// Puts a part, all of whose nodes are at a path or below it, in the place of a node below which there is none, or where no node is. AllocError
/// where an allocation fails; then the nodes stay as they were. It looks up each path of the part once, or goes over all nodes once where the part
/// is large.
pub(crate) fn append_within(
    nodes: &mut Nodes,
    at: &RelPath,
    mut part: Nodes,
) -> Result<(), AllocError>
    requires free { (p : Path) → is_below at.now p ≡ true → get_in nodes.old.entries p ≡ None }
    requires within { (p : Path) → is_within at.now p ≡ false → get_in part.entries p ≡ None }
    ensures replaced { OnOk result ((p : Path) → get_in nodes.new.entries p ≡ (if is_within at.now p then get_in part.entries p else get_in nodes.old.entries p)) }
    ensures unchanged { OnErr result (nodes.new.entries ≡ nodes.old.entries) }
{
    let _before = nodes.len();
    let own = part.remove(at);
    append_below(nodes, at, part)?;
    match set(nodes, at, own) {
        Ok(()) => Ok(()),
        Err(refused) => {
            remove_below(nodes, at);
            let _after = nodes.len();
            Err(refused)
        }
    }
}
