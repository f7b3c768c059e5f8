//! What is at a path and below is replaced.
ghost use Rattle.std.specs.Prelude.{◌≡◌, ◌&&◌, true, false, IsTrue, IsFalse, IfOk, OnOk, OnErr, Some, None, is_some, is_none, if◌then◌else◌};
ghost use Rattle.std.specs.List.{list_any};
ghost use Rattle.std.specs.Option.{option_or};
ghost use Rattle.std.specs.declared.cmp.Ordering.TheVariants.{Less};
ghost use Rattle.svn_types.specs.Names.{Path, path_cmp};
ghost use Rattle.svn_types.specs.Paths.{path_eq, is_within};
ghost use Rattle.svn_model.specs.Nodes.{get_in, InPathOrder, is_dir};

use crate::ahead::Ahead;
use crate::append::append_within;
use crate::nodes::Nodes;
use crate::overwrite::overwrite_all;
use crate::removal::{has_none_below, remove_all};
use std::alloc::{AllocError, Global};
use std::cmp::Ordering;
use std::ops::Bound;
use svn_model::BaseNode;
use svn_types::RelPath;

// Where a part has over this part of all nodes, a pass over them costs less than looking up each of its paths.
const MANY: usize = 8;

// Whether something is at a path among nodes that are gone through in order: those up to the path are passed.
fn pass_to(beside: &mut Ahead<'_, RelPath, BaseNode>, path: &RelPath) -> bool
    ensures ordered { InPathOrder beside.old → InPathOrder beside.new }
    ensures found { InPathOrder beside.old → result ≡ is_some (get_in beside.old path.now) }
    ensures behind { (p : Path) → path_cmp path.now p ≡ Less → get_in beside.new p ≡ get_in beside.old p }
{
    'beside: while let Some((next, _)) = beside.first() {
        match next.cmp(path) {
            Ordering::Less => beside.advance(),
            Ordering::Equal => {
                beside.advance();
                return true;
            }
            Ordering::Greater => return false,
        }
    }
    false
}

// The paths of nodes, at a path and below, at which others have nothing. Both are gone through together, in order.
fn paths_without(
    alloc: Global,
    at: &RelPath,
    nodes: &Nodes,
    others: &Nodes,
) -> Result<Vec<RelPath>, AllocError>
    ensures { IfOk result (λ v. (p : Path) → list_any (λ q. path_eq q p) v.items ≡ ((is_within at.now p && is_some (get_in nodes.now.entries p)) && is_none (get_in others.now.entries p))) }
{
    let mut beside = Ahead::from(others, at);
    let mut paths = Vec::new(alloc);
    for (path, _) in nodes.range((Bound::Included(at), Bound::Unbounded)) {
        if !path.is_within(at) {
            break;
        }
        if !pass_to(&mut beside, path) {
            paths.push(path.clone()?)?;
        }
    }
    Ok(paths)
}

// Makes places at paths for nodes that come later.
fn make_places(nodes: &mut Nodes, paths: &[RelPath]) -> Result<(), AllocError>
    ensures others { (p : Path) → list_any (λ q. path_eq q p) paths.now ≡ false → get_in nodes.new.entries p ≡ get_in nodes.old.entries p }
    ensures made { OnOk result ((p : Path) → list_any (λ q. path_eq q p) paths.now ≡ true → is_some (get_in nodes.new.entries p) ≡ true) }
{
    for path in paths {
        nodes.insert(path.clone()?, BaseNode::NotPresent)?;
    }
    Ok(())
}

// Makes places at paths where nothing is, or leaves the nodes as they were.
fn make_room(nodes: &mut Nodes, paths: &[RelPath]) -> Result<(), AllocError>
    requires free { (p : Path) → list_any (λ q. path_eq q p) paths.now ≡ true → get_in nodes.old.entries p ≡ None }
    ensures others { OnOk result ((p : Path) → list_any (λ q. path_eq q p) paths.now ≡ false → get_in nodes.new.entries p ≡ get_in nodes.old.entries p) }
    ensures made { OnOk result ((p : Path) → list_any (λ q. path_eq q p) paths.now ≡ true → is_some (get_in nodes.new.entries p) ≡ true) }
    ensures unchanged { OnErr result (nodes.new.entries ≡ nodes.old.entries) }
{
    // a map's length comes with the order of its keys
    let _before = nodes.len();
    match make_places(nodes, paths) {
        Ok(()) => Ok(()),
        Err(refused) => {
            remove_all(nodes, paths);
            let _after = nodes.len();
            Err(refused)
        }
    }
}

// Puts a node in the place of another, for which no memory is needed.
fn put(nodes: &mut Nodes, path: RelPath, node: BaseNode)
    requires { is_some (get_in nodes.old.entries path) ≡ true }
    ensures { (p : Path) → get_in nodes.new.entries p ≡ (if path_eq path p then Some node else get_in nodes.old.entries p) }
{
    match nodes.insert(path, node) {
        Ok(_before) => {}
        Err(_refused) => {}
    }
}

// Puts a part into the nodes, at paths where something is.
fn put_all(nodes: &mut Nodes, part: Nodes)
    requires places { (p : Path) → is_some (get_in part.entries p) ≡ true → is_some (get_in nodes.old.entries p) ≡ true }
    ensures { (p : Path) → get_in nodes.new.entries p ≡ option_or (get_in part.entries p) (get_in nodes.old.entries p) }
{
    // a map's length comes with the order of its keys
    let _count = part.len();
    for (path, node) in part {
        put(nodes, path, node);
    }
}

// Puts a part into the nodes, at paths where something is: in one pass over all nodes, where it has many of them.
fn put_over(nodes: &mut Nodes, part: Nodes)
    requires places { (p : Path) → is_some (get_in part.entries p) ≡ true → is_some (get_in nodes.old.entries p) ≡ true }
    ensures { (p : Path) → get_in nodes.new.entries p ≡ option_or (get_in part.entries p) (get_in nodes.old.entries p) }
{
    if part.len() > nodes.len() / MANY {
        overwrite_all(nodes, part);
    } else {
        put_all(nodes, part);
    }
}

/// Puts a node at a path where no directory is, so that nothing is below it, and returns whether that was done. AllocError where an allocation
/// fails; then the nodes stay as they were.
pub fn replace_alone(nodes: &mut Nodes, at: &RelPath, node: BaseNode) -> Result<bool, AllocError>
    ensures done { IfOk result (λ done. IsTrue done → is_dir (get_in nodes.old.entries at.now) ≡ false) }
    ensures replaced { IfOk result (λ done. IsTrue done → (p : Path) → get_in nodes.new.entries p ≡ (if path_eq at.now p then Some node else get_in nodes.old.entries p)) }
    ensures left { IfOk result (λ done. IsFalse done → nodes.new.entries ≡ nodes.old.entries) }
    ensures unchanged { OnErr result (nodes.new.entries ≡ nodes.old.entries) }
{
    if let Some(BaseNode::Dir { .. }) = nodes.get(at) {
        return Ok(false);
    }
    nodes.insert(at.clone()?, node)?;
    Ok(true)
}

/// Puts a part, all of whose nodes are at a path or below it, in the place of the nodes there. AllocError if an allocation fails; then the nodes
/// stay as they were. It costs what goes and what comes, or one pass over all nodes where the part has over an eighth of them.
pub fn replace_within(
    alloc: Global,
    nodes: &mut Nodes,
    at: &RelPath,
    part: Nodes,
) -> Result<(), AllocError>
    requires within { (p : Path) → is_within at.now p ≡ false → get_in part.entries p ≡ None }
    ensures replaced { OnOk result ((p : Path) → get_in nodes.new.entries p ≡ (if is_within at.now p then get_in part.entries p else get_in nodes.old.entries p)) }
    ensures unchanged { OnErr result (nodes.new.entries ≡ nodes.old.entries) }
{
    if has_none_below(nodes, at) {
        return append_within(nodes, at, part);
    }
    let gone = paths_without(alloc, at, nodes, &part)?;
    let new = paths_without(alloc, at, &part, nodes)?;
    make_room(nodes, &new)?;
    remove_all(nodes, &gone);
    put_over(nodes, part);
    Ok(())
}
