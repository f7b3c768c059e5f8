//! The part of a copy that is below a path, as a copy of its own, and its place again.
ghost use Rattle.std.specs.Prelude.{IfOk};
ghost use Rattle.svn_model.specs.Nodes.{get_in, IsTrueOf};

use crate::fault::UpdateFault;
use std::alloc::Global;
use svn_audit::copy_below;
use svn_model::BaseNode;
use svn_repo::Repo;
use svn_types::RelPath;
use svn_wc::WorkingCopy;

/// A copy that is true of the repository, or the first path at which it isn't: Untrue, from `above` on.
pub(crate) fn true_copy(
    alloc: Global,
    repo: &Repo,
    above: &RelPath,
    copy: WorkingCopy,
) -> Result<WorkingCopy, UpdateFault>
    ensures { IfOk result (λ w. IsTrueOf repo.now (get_in w)) }
{
    match copy.check_true(repo) {
        Ok(()) => Ok(copy),
        Err(path) => Err(UpdateFault::Untrue(joined(alloc, above, path)?)),
    }
}

/// A path with all names of another after it.
pub(crate) fn joined(
    alloc: Global,
    above: &RelPath,
    below: &RelPath,
) -> Result<RelPath, UpdateFault> {
    let mut path = above.clone()?;
    for name in below.components() {
        path = path.join(alloc, name)?;
    }
    Ok(path)
}

// The nodes of a copy at a path and below, or all others.
fn nodes_of(
    alloc: Global,
    copy: &WorkingCopy,
    path: &RelPath,
    within: bool,
) -> Result<Vec<(RelPath, BaseNode)>, UpdateFault> {
    let mut nodes = Vec::new(alloc);
    for (at, node) in copy.iter() {
        if at.is_within(path) == within {
            nodes.push((at.clone()?, node.clone()?))?;
        }
    }
    Ok(nodes)
}

/// What a true copy has at a path and below, as a copy of its own.
pub(crate) fn part_of(
    alloc: Global,
    repo: &Repo,
    copy: &WorkingCopy,
    path: &RelPath,
) -> Result<WorkingCopy, UpdateFault>
    ensures { IfOk result (λ w. IsTrueOf repo.now (get_in w)) }
{
    let nodes = nodes_of(alloc, copy, path, true)?;
    let part = copy_below(alloc, path, nodes)?;
    true_copy(alloc, repo, path, part)
}

// Adds the nodes of a part, each at its path in the whole.
fn push_part(
    alloc: Global,
    nodes: &mut Vec<(RelPath, BaseNode)>,
    path: &RelPath,
    part: &WorkingCopy,
) -> Result<(), UpdateFault> {
    for (at, node) in part.iter() {
        nodes.push((joined(alloc, path, at)?, node.clone()?))?;
    }
    Ok(())
}

/// A copy with a part at a path, in place of what is there and below.
pub(crate) fn with_part(
    alloc: Global,
    repo: &Repo,
    copy: &WorkingCopy,
    path: &RelPath,
    part: &WorkingCopy,
) -> Result<WorkingCopy, UpdateFault>
    ensures { IfOk result (λ w. IsTrueOf repo.now (get_in w)) }
{
    let mut nodes = nodes_of(alloc, copy, path, false)?;
    push_part(alloc, &mut nodes, path, part)?;
    let copy = WorkingCopy::from_nodes(alloc, nodes)?;
    true_copy(alloc, repo, &RelPath::root(alloc), copy)
}
