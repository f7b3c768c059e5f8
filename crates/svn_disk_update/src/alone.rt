//! A path of a copy that is brought to its target as one node: a file, what is no longer there, or what another node takes the place of.
ghost use Rattle.std.specs.Prelude.{IfOk};
ghost use Rattle.svn_model.specs.Nodes.{get_in, IsTrueOf};

use crate::fault::UpdateFault;
use crate::part::true_copy;
use crate::target::{Reached, Target};
use std::alloc::{AllocError, Global};
use svn_audit::{NodeChange, UpdateLine};
use svn_model::BaseNode;
use svn_repo::{NodeId, Repo};
use svn_types::{Kind, RelPath, Rev};
use svn_wc::WorkingCopy;

// Where a node is put, and which one.
#[derive(Clone, Copy)]
struct Place<'a, 'b> {
    // Its path in the copy.
    path: &'a RelPath,
    // Its revision and its path in the repository.
    rev: Rev,
    repos_path: &'b RelPath,
    // The node there.
    id: NodeId,
}

// The node of the repository that a node of a copy is.
fn id_of(repo: &Repo, node: &BaseNode) -> Option<NodeId> {
    match (node.rev(), node.repos_path()) {
        (Some(rev), Some(repos_path)) => repo.lookup(rev, repos_path),
        _ => None,
    }
}

// Whether a file of the copy comes to another state of itself, as a file.
fn is_same_file(repo: &Repo, node: &BaseNode, id: NodeId) -> bool {
    if node.is_directory() || repo.kind(id) != Some(Kind::File) {
        return false;
    }
    match id_of(repo, node) {
        Some(was) => repo.are_related(was, id),
        None => false,
    }
}

fn push_line(
    lines: &mut Vec<UpdateLine>,
    node: NodeChange,
    props: bool,
    path: RelPath,
) -> Result<(), AllocError> {
    lines.push(UpdateLine { node, props, path })?;
    Ok(())
}

// The lines of a file that gets another state of itself: one, if its text or its properties change.
fn lines_of_file(
    alloc: Global,
    old: &BaseNode,
    new: &BaseNode,
) -> Result<Vec<UpdateLine>, AllocError> {
    let mut lines = Vec::new(alloc);
    let (text, props) = (old.text() != new.text(), old.props() != new.props());
    let node = if text {
        NodeChange::Updated
    } else {
        NodeChange::Unchanged
    };
    if text || props {
        push_line(&mut lines, node, props, RelPath::root(alloc))?;
    }
    Ok(lines)
}

// Adds the lines of all that comes at a path and below.
fn push_added(
    alloc: Global,
    lines: &mut Vec<UpdateLine>,
    copy: &WorkingCopy,
    path: &RelPath,
) -> Result<(), AllocError> {
    let depth = path.components().len();
    for (at, node) in copy.iter() {
        if node.is_present() && at.is_within(path) {
            push_line(lines, NodeChange::Added, false, at.tail(alloc, depth)?)?;
        }
    }
    Ok(())
}

// The lines of what takes the place of another node, if there was one.
fn lines_of_other(
    alloc: Global,
    was_present: bool,
    new: &WorkingCopy,
    path: &RelPath,
) -> Result<Vec<UpdateLine>, AllocError> {
    let mut lines = Vec::new(alloc);
    if was_present {
        push_line(&mut lines, NodeChange::Deleted, false, RelPath::root(alloc))?;
    }
    push_added(alloc, &mut lines, new, path)?;
    Ok(lines)
}

// The lines of a node that was put somewhere.
fn lines_at(
    alloc: Global,
    repo: &Repo,
    copy: &WorkingCopy,
    new: &WorkingCopy,
    place: &Place<'_, '_>,
) -> Result<Vec<UpdateLine>, AllocError> {
    match (copy.get(place.path), new.get(place.path)) {
        (Some(was), Some(is)) if is_same_file(repo, was, place.id) => {
            lines_of_file(alloc, was, is)
        }
        (Some(was), _) => lines_of_other(alloc, was.is_present(), new, place.path),
        (None, _) => lines_of_other(alloc, false, new, place.path),
    }
}

// Puts the tree of the repository at a place.
fn put(
    alloc: Global,
    repo: &Repo,
    copy: &WorkingCopy,
    place: &Place<'_, '_>,
) -> Result<Reached, UpdateFault>
    requires truth { IsTrueOf repo.now (get_in copy.now) }
    ensures { IfOk result (λ r. IsTrueOf repo.now (get_in r.copy)) }
{
    let mut new = copy.clone()?;
    new.switch(repo, place.path, place.repos_path, place.rev)?;
    let lines = lines_at(alloc, repo, copy, &new, place)?;
    Ok(Reached {
        copy: new,
        lines,
        stopped: None,
    })
}

// A node that is present no longer is.
fn forget(
    alloc: Global,
    repo: &Repo,
    copy: &WorkingCopy,
    path: &RelPath,
) -> Result<Reached, UpdateFault>
    ensures { IfOk result (λ r. IsTrueOf repo.now (get_in r.copy)) }
{
    let mut new = copy.clone()?;
    new.forget(path)?;
    let mut lines = Vec::new(alloc);
    push_line(&mut lines, NodeChange::Deleted, false, RelPath::root(alloc))?;
    Ok(Reached {
        copy: true_copy(alloc, repo, &RelPath::root(alloc), new)?,
        lines,
        stopped: None,
    })
}

// Nothing becomes of the copy.
fn unchanged(alloc: Global, repo: &Repo, copy: &WorkingCopy) -> Result<Reached, UpdateFault>
    requires truth { IsTrueOf repo.now (get_in copy.now) }
    ensures { IfOk result (λ r. IsTrueOf repo.now (get_in r.copy)) }
{
    Ok(Reached {
        copy: copy.clone()?,
        lines: Vec::new(alloc),
        stopped: None,
    })
}

// The target has nothing at a path.
fn leave_out(
    alloc: Global,
    repo: &Repo,
    copy: &WorkingCopy,
    path: &RelPath,
) -> Result<Reached, UpdateFault>
    requires truth { IsTrueOf repo.now (get_in copy.now) }
    ensures { IfOk result (λ r. IsTrueOf repo.now (get_in r.copy)) }
{
    match copy.get(path) {
        Some(node) if node.is_present() => forget(alloc, repo, copy, path),
        Some(_) => unchanged(alloc, repo, copy),
        None => Err(UpdateFault::Nothing(path.clone()?)),
    }
}

// Where in the repository a path of the copy is: its node, else the name below the directory above.
fn repos_path_at(
    alloc: Global,
    copy: &WorkingCopy,
    path: &RelPath,
) -> Result<RelPath, UpdateFault> {
    if let Some(node) = copy.get(path) {
        if let Some(repos_path) = node.repos_path() {
            return Ok(repos_path.clone()?);
        }
    }
    let (Some(name), Some(parent)) = (path.last_name(), path.parent(alloc)?) else {
        return Err(UpdateFault::NotInCopy(path.clone()?));
    };
    match copy.get(&parent) {
        Some(BaseNode::Dir { repos_path, .. }) => Ok(repos_path.join(alloc, name)?),
        _ => Err(UpdateFault::NotInCopy(path.clone()?)),
    }
}

/// Brings a path that isn't the root to a revision, as one node: it gets what the revision has in its place, whether that is another state of the node or
/// another one, or is no longer present. NotInCopy, Nothing, Copy, Path, Memory.
pub(crate) fn update_alone(
    alloc: Global,
    repo: &Repo,
    copy: &WorkingCopy,
    path: &RelPath,
    rev: Rev,
) -> Result<Reached, UpdateFault>
    requires truth { IsTrueOf repo.now (get_in copy.now) }
    ensures { IfOk result (λ r. IsTrueOf repo.now (get_in r.copy)) }
{
    let repos_path = repos_path_at(alloc, copy, path)?;
    match repo.lookup(rev, &repos_path) {
        Some(id) => put(
            alloc,
            repo,
            copy,
            &Place {
                path,
                rev,
                repos_path: &repos_path,
                id,
            },
        ),
        None => leave_out(alloc, repo, copy, path),
    }
}

// The file that a switch of one leads to.
fn switched_file(
    repo: &Repo,
    copy: &WorkingCopy,
    target: &Target<'_>,
    to: &RelPath,
) -> Result<NodeId, UpdateFault> {
    let path = target.path;
    let Some(node) = copy.get(path) else {
        return Err(UpdateFault::NotInCopy(path.clone()?));
    };
    if !node.is_present() {
        return Err(UpdateFault::NotInCopy(path.clone()?));
    }
    let Some(id) = repo.lookup(target.rev, to) else {
        return Err(UpdateFault::Nothing(path.clone()?));
    };
    if is_same_file(repo, node, id) {
        Ok(id)
    } else {
        Err(UpdateFault::OtherNode(path.clone()?))
    }
}

/// Switches a file to another path of the repository, at the target's revision. NotInCopy where no node is present; Nothing; OtherNode where what is there
/// is no state of the same file; Copy, Path, Memory.
pub(crate) fn switch_alone(
    alloc: Global,
    repo: &Repo,
    copy: &WorkingCopy,
    target: &Target<'_>,
    to: &RelPath,
) -> Result<Reached, UpdateFault>
    requires truth { IsTrueOf repo.now (get_in copy.now) }
    ensures { IfOk result (λ r. IsTrueOf repo.now (get_in r.copy)) }
{
    let id = switched_file(repo, copy, target, to)?;
    let place = Place {
        path: target.path,
        rev: target.rev,
        repos_path: to,
        id,
    };
    put(alloc, repo, copy, &place)
}
