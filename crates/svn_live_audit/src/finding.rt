//! What is found of a node that isn't what is in its place.
ghost use Rattle.std.specs.Prelude.{◌≡◌, Some, IfOk};
ghost use Rattle.svn_model.specs.Nodes.{get_in, node_revision, node_path};
ghost use Rattle.svn_audit.specs.Places.{place_reason};
ghost use Rattle.svn_audit.specs.Untrue.{untrue_by};
ghost use Rattle.svn_ask.specs.Answers.{said_value};
ghost use Rattle.svn_live_audit.specs.Verdicts.{said_missing, said_place};
ghost use Rattle.svn_live_audit.specs.Rounds.{suits, finding_of, asks_again};
ghost use Rattle.svn_live_audit.specs.Places.{place_value};

use crate::places::Place;
use std::alloc::{AllocError, Global};
use svn_ask::Said;
use svn_audit::{Found, Reason, Untrue, reason_of};
use svn_digits::stand_in_of_md5;
use svn_model::BaseNode;
use svn_types::{Kind, RelPath, Rev};
use svn_wc::WorkingCopy;

/// A path of a copy whose node isn't what is in its place.
#[derive(Debug, Drop)]
pub struct Finding {
    /// The path, and why.
    pub untrue: Untrue,
    /// Whether no directory is there, and it isn't known yet whether a file is: until that is known the reason is Nothing.
    pub asks_again: bool,
}

// Whether what was said is said of such a node: of one of the kind that was asked for more is said than its kind.
pub(crate) fn suits(node: &BaseNode, said: &Said) -> bool
    ensures { result ≡ suits node.now (said_value said.now) }
{
    match (node, said) {
        (BaseNode::File { .. }, Said::OfKind(kind)) => *kind == Kind::Directory,
        (BaseNode::File { .. }, Said::NoDirectory) => false,
        (BaseNode::Dir { complete: true, .. }, Said::OfKind(kind)) => *kind == Kind::File,
        _ => true,
    }
}

// The revision of a node, and its path in the repository.
fn location_of(alloc: Global, node: &BaseNode) -> Result<(Rev, RelPath), AllocError>
    ensures { IfOk result (λ at. at ≡ (node_revision (Some node.now), node_path (Some node.now))) }
{
    match node {
        BaseNode::File {
            rev,
            repos_path,
            ..
        }
        | BaseNode::Dir {
            rev,
            repos_path,
            ..
        } => Ok((*rev, repos_path.clone()?)),
        BaseNode::NotPresent => Ok((Rev(0), RelPath::root(alloc))),
    }
}

fn untrue_by(
    alloc: Global,
    path: &RelPath,
    node: &BaseNode,
    reason: Reason,
) -> Result<Untrue, AllocError>
    ensures { IfOk result (λ u. u ≡ untrue_by path.now node.now reason) }
{
    let (rev, repos_path) = location_of(alloc, node)?;
    Ok(Untrue {
        path: path.clone()?,
        rev,
        repos_path,
        reason,
    })
}

// Why a node isn't what is said to be in its place.
fn said_reason(
    alloc: Global,
    copy: &WorkingCopy,
    place: Place<'_>,
    said: &Said,
) -> Result<Option<Reason>, AllocError>
    ensures { IfOk result (λ reason. reason ≡ place_reason (get_in copy.now) place.entry.path.now place.entry.node.now (said_missing (said_value said.now)) (said_place (said_value said.now))) }
{
    let Place { path, node } = place;
    match said {
        Said::File { sum, props } => {
            let text = stand_in_of_md5(alloc, &sum.0)?;
            let found = Found::File { text: &text, props };
            reason_of(alloc, copy, path, node, Reason::Nothing, Some(&found))
        }
        Said::Directory { props, names } => {
            let found = Found::Directory { props, names };
            reason_of(alloc, copy, path, node, Reason::Nothing, Some(&found))
        }
        Said::OfKind(kind) => {
            let found = Found::OfKind(*kind);
            reason_of(alloc, copy, path, node, Reason::Nothing, Some(&found))
        }
        Said::Nothing | Said::NoDirectory => {
            reason_of(alloc, copy, path, node, Reason::Nothing, None)
        }
        Said::NoRevision => reason_of(alloc, copy, path, node, Reason::NoRevision, None),
    }
}

// Whether no directory is there, so that it has to be asked whether a file is.
fn asks_again(said: &Said) -> bool
    ensures { result ≡ asks_again (said_value said.now) }
{
    matches!(said, Said::NoDirectory)
}

// What is found of a node by what is said of its place; None where it is what is there.
pub(crate) fn finding_of(
    alloc: Global,
    copy: &WorkingCopy,
    place: Place<'_>,
    said: &Said,
) -> Result<Option<Finding>, AllocError>
    ensures { IfOk result (λ finding. finding ≡ finding_of (get_in copy.now) (place_value place.entry, said_value said.now)) }
{
    let Some(reason) = said_reason(alloc, copy, place, said)? else {
        return Ok(None);
    };
    Ok(Some(Finding {
        untrue: untrue_by(alloc, place.path, place.node, reason)?,
        asks_again: asks_again(said),
    }))
}
