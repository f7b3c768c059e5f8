//! What a checkout writes of a copy: the nodes of its database, and the work that is left once it is there.
ghost use Rattle.std.specs.Prelude.{◌≡◌, ◌++◌, ◌∷◌, [], IfOk, OnOk};
ghost use Rattle.svn_disk.specs.Plans.{present_at, present_nodes, entry_work, work_of};
ghost use Rattle.svn_disk.specs.Crashes.{AreNodesOf};

use crate::fault::DiskFault;
use std::alloc::Global;
use svn_model::BaseNode;
use svn_types::RelPath;
use svn_wc::WorkingCopy;
use svn_wcrows::Work;

/// What a checkout writes of a copy.
#[derive(Drop)]
pub(crate) struct Contents {
    /// The nodes of its database: what the copy has, but for what is not present.
    pub(crate) nodes: Vec<(RelPath, BaseNode)>,
    /// The work that is left once the database is there, from above.
    pub(crate) work: Vec<Work>,
}

// Adds a node, if it is present.
fn push_node(
    nodes: &mut Vec<(RelPath, BaseNode)>,
    path: &RelPath,
    node: &BaseNode,
) -> Result<(), DiskFault>
    ensures { OnOk result (nodes.new.items ≡ nodes.old.items ++ present_at path.now node.now) }
{
    if node.is_present() {
        nodes.push((path.clone()?, node.clone()?))?;
    }
    Ok(())
}

fn nodes_of(alloc: Global, copy: &WorkingCopy) -> Result<Vec<(RelPath, BaseNode)>, DiskFault>
    ensures { IfOk result (λ nodes. nodes.items ≡ present_nodes copy.now) }
{
    let mut nodes = Vec::new(alloc);
    for (path, node) in copy.iter() {
        push_node(&mut nodes, path, node)?;
    }
    Ok(nodes)
}

// Adds a node.
fn push_clone(
    nodes: &mut Vec<(RelPath, BaseNode)>,
    path: &RelPath,
    node: &BaseNode,
) -> Result<(), DiskFault>
    ensures { OnOk result (nodes.new.items ≡ nodes.old.items ++ (path.now, node.now) ∷ []) }
{
    nodes.push((path.clone()?, node.clone()?))?;
    Ok(())
}

fn clone_of(
    alloc: Global,
    nodes: &[(RelPath, BaseNode)],
) -> Result<Vec<(RelPath, BaseNode)>, DiskFault>
    ensures { IfOk result (λ list. list.items ≡ nodes.now) }
{
    let mut list = Vec::new(alloc);
    for entry in nodes {
        push_clone(&mut list, &entry.0, &entry.1)?;
    }
    Ok(list)
}

/// The copy that has these nodes, which may come in any order. Nodes where they are no working copy; Memory.
pub(crate) fn copy_of(
    alloc: Global,
    nodes: &[(RelPath, BaseNode)],
) -> Result<WorkingCopy, DiskFault>
    ensures { IfOk result (λ copy. AreNodesOf copy nodes.now) }
{
    let list = clone_of(alloc, nodes)?;
    let copy = WorkingCopy::from_nodes(alloc, list)?;
    Ok(copy)
}

// Adds the work that a node is.
fn push_work(work: &mut Vec<Work>, path: &RelPath, node: &BaseNode) -> Result<(), DiskFault>
    ensures { OnOk result (work.new.items ≡ work.old.items ++ entry_work (path.now, node.now)) }
{
    if path.is_root() {
        return Ok(());
    }
    match node {
        BaseNode::File { .. } => work.push(Work::InstallFile(path.clone()?))?,
        BaseNode::Dir { .. } => work.push(Work::MakeDirectory(path.clone()?))?,
        BaseNode::NotPresent => {}
    }
    Ok(())
}

fn works_of(alloc: Global, copy: &WorkingCopy) -> Result<Vec<Work>, DiskFault>
    ensures { IfOk result (λ work. work.items ≡ work_of copy.now) }
{
    let mut work = Vec::new(alloc);
    for (path, node) in copy.iter() {
        push_work(&mut work, path, node)?;
    }
    Ok(work)
}

impl Contents {
    /// That of a copy.
    pub(crate) fn of(alloc: Global, copy: &WorkingCopy) -> Result<Contents, DiskFault>
        ensures nodes { IfOk result (λ contents. contents.nodes.items ≡ present_nodes copy.now) }
        ensures work { IfOk result (λ contents. contents.work.items ≡ work_of copy.now) }
    {
        Ok(Contents {
            nodes: nodes_of(alloc, copy)?,
            work: works_of(alloc, copy)?,
        })
    }
}
