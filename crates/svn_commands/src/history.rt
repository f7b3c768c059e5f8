//! Where nodes were in earlier revisions.
ghost use Rattle.std.specs.Prelude.{◌≡◌, ◌++◌, ◌<◌, ◌≤◌, option_map, IfOk, IfSome, OnOk};
ghost use Rattle.std.specs.Option.{option_copied};
ghost use Rattle.svn_commands.specs.Segments.{has_rev, source_path, is_over, copy_over, same_line, gap, is_older, first_here, copied_from, AreSegments};

use std::alloc::{AllocError, Global};
use svn_dump::CopyNote;
use svn_replies::{Place, Served};
use svn_types::{PathFault, RelPath, Rev};

/// Revisions in which a node was at one path, or, without a path, was nowhere.
#[derive(Debug, Drop)]
pub(crate) struct Segment {
    pub(crate) first: Rev,
    pub(crate) last: Rev,
    pub(crate) path: Option<RelPath>,
}

/// Whether a revision is one of a segment.
pub(crate) fn has_rev(segment: &Segment, rev: Rev) -> bool
    ensures { result ≡ has_rev segment.now rev }
{
    segment.first <= rev && rev <= segment.last
}

/// Where what was copied to a path comes from; none where that has too many names for a path.
pub(crate) fn source_path(
    alloc: Global,
    copy: &CopyNote,
    path: &RelPath,
) -> Result<Option<RelPath>, AllocError>
    ensures { IfOk result (λ found. found ≡ source_path copy.now path.now) }
{
    let below = path.tail(alloc, copy.path.components().len())?;
    match copy.source.path.join_path(alloc, &below) {
        Ok(path) => Ok(Some(path)),
        Err(PathFault::Memory) => Err(AllocError),
        Err(_) => Ok(None),
    }
}

// Whether a copy of a revision is at a path or above it.
fn is_over(copy: &CopyNote, rev: Rev, path: &RelPath) -> bool
    ensures { result ≡ is_over rev path.now copy.now }
{
    copy.rev == rev && path.is_within(&copy.path)
}

fn same_line(one: Option<u64>, other: Option<u64>) -> bool
    ensures { result ≡ same_line one other }
{
    match (one, other) {
        (None, None) => true,
        (Some(one), Some(other)) => one == other,
        _ => false,
    }
}

// The revisions between the source of a copy and the copy, in which the node was nowhere.
fn push_gap(segments: &mut Vec<Segment>, source: Rev, first: Rev) -> Result<(), AllocError>
    requires { source < first }
    ensures { OnOk result (segments.new.items ≡ segments.old.items ++ gap source first) }
{
    if source.0 + 1 < first.0 {
        segments.push(Segment {
            first: Rev(source.0 + 1),
            last: Rev(first.0 - 1),
            path: None,
        })?;
    }
    Ok(())
}

/// The last copy of a revision that is at the path or above it.
#[tactic(auto, using(std::proofs::lemmas::List::Sums::fold_more))]
pub(crate) fn copy_over<'a>(served: &'a Served, rev: Rev, path: &RelPath) -> Option<&'a CopyNote>
    ensures last { option_copied result ≡ copy_over served.now.index.copies.items rev path.now }
    ensures here { IfSome result (λ copy. copy.now.rev ≡ rev) }
{
    let copies = served.index.copies();
    let mut last = None;
    for copy in copies {
        if is_over(copy, rev, path) {
            last = Some(copy);
        }
    }
    last
}

// Whether the node at a path was there in the revision before too, and not copied there.
fn is_older(served: &Served, line: Option<u64>, rev: Rev, path: &RelPath) -> bool
    requires { 0 < rev }
    ensures { result ≡ is_older served.now line rev path.now }
{
    let is_copied = copy_over(served, rev, path).is_some() && !path.is_root();
    !is_copied && same_line(served.line_at(Rev(rev.0 - 1), path), line)
}

// The first revision from which on the node at a path was there, without a copy.
fn first_here(served: &Served, rev: Rev, path: &RelPath) -> Rev
    ensures first { result ≡ first_here served.now rev path.now }
    ensures before { result ≤ rev }
{
    let line = served.line_at(rev, path);
    let mut first = rev.0;
    while first > 0 {
        if is_older(served, line, Rev(first), path) {
            first -= 1;
        } else {
            return Rev(first);
        }
    }
    Rev(first)
}

// What the node at a path was copied from in a revision, itself or with a directory above it.
fn copied_from(
    served: &Served,
    alloc: Global,
    rev: Rev,
    path: &RelPath,
) -> Result<Option<Place>, AllocError>
    ensures from { IfOk result (λ from. option_map (λ place. (place.rev, place.path)) from ≡ copied_from served.now rev path.now) }
    ensures earlier { IfOk result (λ from. IfSome from (λ place. place.rev < rev)) }
{
    let Some(copy) = copy_over(served, rev, path) else {
        return Ok(None);
    };
    let Some(from) = source_path(alloc, copy, path)? else {
        return Ok(None);
    };
    if !same_line(
        served.line_at(copy.source.rev, &from),
        served.line_at(rev, path),
    ) {
        return Ok(None);
    }
    Ok(Some(Place {
        rev: copy.source.rev,
        path: from,
    }))
}

/// Where the node at a path of a revision was, from that revision back to its first.
pub(crate) fn trace(
    served: &Served,
    alloc: Global,
    rev: Rev,
    path: &RelPath,
) -> Result<Vec<Segment>, AllocError>
    ensures { IfOk result (λ segments. AreSegments served.now rev path.now segments.items) }
{
    let mut segments = Vec::new(alloc);
    let mut last = rev;
    let mut path = path.clone()?;
    'copies: loop {
        let first = first_here(served, last, &path);
        let from = copied_from(served, alloc, first, &path)?;
        segments.push(Segment {
            first,
            last,
            path: Some(path.clone()?),
        })?;
        let from = match from {
            Some(from) => from,
            None => return Ok(segments),
        };
        push_gap(&mut segments, from.rev, first)?;
        last = from.rev;
        path = from.path;
    }
}
