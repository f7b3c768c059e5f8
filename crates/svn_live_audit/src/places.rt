//! The places of a copy's nodes, and what is asked about them.
ghost use Rattle.std.specs.Prelude.{◌≡◌, map, filter, filter_map, option_map, IfOk};
ghost use Rattle.svn_live_audit.specs.Verdicts.{is_asked};
ghost use Rattle.svn_live_audit.specs.Rounds.{question_of, question_value};
ghost use Rattle.svn_live_audit.specs.Places.{place_value};

use std::alloc::{AllocError, Global};
use svn_ask::{Question, Wanted};
use svn_model::BaseNode;
use svn_types::RelPath;
use svn_wc::WorkingCopy;

/// A node of a copy that is present, at its path.
#[derive(Clone, Copy, Debug)]
pub struct Place<'a> {
    /// The path in the copy.
    pub path: &'a RelPath,
    /// The node.
    pub node: &'a BaseNode,
}

/// All nodes of a copy that are present, in path order.
pub fn places_of(alloc: Global, copy: &WorkingCopy) -> Result<Vec<Place<'_>>, AllocError>
    ensures { IfOk result (λ places. map place_value places.items ≡ filter is_asked copy.now) }
{
    let mut places = Vec::new(alloc);
    for (path, node) in copy.nodes() {
        if node.is_present() {
            places.push(Place { path, node })?;
        }
    }
    Ok(places)
}

// The question about a node: nothing where it isn't present, and of an incomplete directory only its kind.
fn question_of(node: &BaseNode) -> Option<Question<'_>>
    ensures { option_map question_value result ≡ question_of node.now }
{
    match node {
        BaseNode::File {
            rev,
            repos_path,
            ..
        } => Some(Question {
            wanted: Wanted::File,
            rev: *rev,
            path: repos_path,
        }),
        BaseNode::Dir {
            rev,
            repos_path,
            complete,
            ..
        } => Some(Question {
            wanted: if *complete {
                Wanted::Directory
            } else {
                Wanted::Kind
            },
            rev: *rev,
            path: repos_path,
        }),
        BaseNode::NotPresent => None,
    }
}

/// The question about each of these nodes: the checksum and properties of a file, the properties and names of a complete directory, and of one that isn't
/// complete only its kind.
pub fn questions_of<'a>(
    alloc: Global,
    places: &[Place<'a>],
) -> Result<Vec<Question<'a>>, AllocError>
    ensures { IfOk result (λ questions. map question_value questions.items ≡ filter_map (λ p. question_of p.node.now) places.now) }
{
    let mut questions = Vec::new(alloc);
    for place in places {
        if let Some(question) = question_of(place.node) {
            questions.extend_from_slice(&[question])?;
        }
    }
    Ok(questions)
}
