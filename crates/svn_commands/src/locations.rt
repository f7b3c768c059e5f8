//! Where a node was in other revisions: `get-locations` and `get-location-segments`.
ghost use Rattle.std.specs.Prelude.{◌≡◌, ◌++◌, ℕ, List, OnOk};
ghost use Rattle.std.specs.List.{flat_map};
ghost use Rattle.svn_replies.specs.Refusals.{Gives};
ghost use Rattle.svn_commands.specs.Asking.{asked_as, range_as};
ghost use Rattle.svn_commands.specs.Lists.{Lists};
ghost use Rattle.svn_commands.specs.Segments.{AreSegments};
ghost use Rattle.svn_commands.specs.Locations.{locations_of, segments_of, place_bytes, place_or_none, place_in, revs_of, is_path, was_at, path_or_none, range_bytes, part_bytes, IsThere, IsYounger, IsLocation, AreLocationsIn, AreLocations, AreSegmentsOf};

use crate::ends::{push_all_sent, push_none_sent};
use crate::fields::{location_fields, segment_fields};
use crate::history::{Segment, has_rev, trace};
use std::alloc::AllocError;
use svn_replies::{Refused, View, push_close, push_open, push_rev, push_whole_path};
use svn_types::{RelPath, Rev};
use svn_wire::{Token, number_field};
use svn_wire_calls::push_path;

fn push_place(out: &mut Vec<u8>, rev: Rev, path: &RelPath) -> Result<(), AllocError>
    ensures { OnOk result (out.new.items ≡ out.old.items ++ place_bytes rev path.now) }
{
    push_open(out)?;
    push_rev(out, rev)?;
    push_whole_path(out, path)?;
    push_close(out)
}

// What is asked for: a path, the revision in which it is meant, and the tokens of the list of revisions.
#[derive(Drop)]
struct Asked<'a> {
    peg: Rev,
    path: RelPath,
    revs: &'a [Token],
}

#[tactic(auto, unfolding(crate::specs::Locations::locations_of))]
fn read_locations<'a>(view: View<'_>, fields: &'a [Token]) -> Result<Asked<'a>, Refused>
    ensures { Gives asked_as result (locations_of view.entry.served.now.repo view.entry.session.now.at fields.now) }
{
    let Some((path, peg, revs)) = location_fields(fields) else {
        return Err(Refused::BadFields);
    };
    let peg = view.known(Rev(peg))?;
    let path = view.path(path)?;
    let _node = view.node(peg, &path)?;
    Ok(Asked { peg, path, revs })
}

// Whether a segment is of this path.
fn is_path(segment: &Segment, path: &RelPath) -> bool
    ensures { result ≡ is_path segment.now.path path.now }
{
    match &segment.path {
        Some(other) => other == path,
        None => false,
    }
}

// Whether a node was at a path in a revision.
fn was_at(segments: &[Segment], rev: Rev, path: &RelPath) -> bool
    ensures { result ≡ was_at segments.now rev path.now }
{
    for segment in segments {
        if has_rev(segment, rev) {
            return is_path(segment, path);
        }
    }
    false
}

fn push_place_or_none(out: &mut Vec<u8>, rev: Rev, path: &Option<RelPath>) -> Result<(), AllocError>
    ensures { OnOk result (out.new.items ≡ out.old.items ++ place_or_none rev path.now) }
{
    match path {
        Some(path) => push_place(out, rev, path),
        None => Ok(()),
    }
}

fn push_place_in(out: &mut Vec<u8>, rev: Rev, segment: &Segment) -> Result<(), AllocError>
    ensures { OnOk result (out.new.items ≡ out.old.items ++ place_in rev segment.now) }
{
    if has_rev(segment, rev) {
        push_place_or_none(out, rev, &segment.path)
    } else {
        Ok(())
    }
}

// Where a node was in a revision that isn't younger.
fn push_places(out: &mut Vec<u8>, rev: Rev, segments: &[Segment]) -> Result<(), AllocError>
    ensures { OnOk result (out.new.items ≡ out.old.items ++ flat_map (place_in rev) segments.now) }
{
    for segment in segments {
        push_place_in(out, rev, segment)?;
    }
    Ok(())
}

// Where a node is in a younger revision in which something is at its path.
fn push_there(
    view: View<'_>,
    asked: &Asked<'_>,
    rev: Rev,
    out: &mut Vec<u8>,
) -> Result<(), AllocError>
    ensures { OnOk result ((bytes : List ℕ) × IsThere view.entry.served.now (asked_as asked.now) rev bytes × (out.new.items ≡ out.old.items ++ bytes)) }
{
    let segments = trace(view.served, view.alloc, rev, &asked.path)?;
    if was_at(&segments, asked.peg, &asked.path) {
        push_place(out, rev, &asked.path)
    } else {
        Ok(())
    }
}

fn push_younger(
    view: View<'_>,
    asked: &Asked<'_>,
    rev: Rev,
    out: &mut Vec<u8>,
) -> Result<(), AllocError>
    ensures { OnOk result ((bytes : List ℕ) × IsYounger view.entry.served.now (asked_as asked.now) rev bytes × (out.new.items ≡ out.old.items ++ bytes)) }
{
    let repo = &view.served.repo;
    if rev <= repo.latest() && repo.lookup(rev, &asked.path).is_some() {
        push_there(view, asked, rev, out)
    } else {
        Ok(())
    }
}

// Where a node was in a revision, if it was somewhere.
fn push_location(
    view: View<'_>,
    asked: &Asked<'_>,
    segments: &[Segment],
    rev: Rev,
    out: &mut Vec<u8>,
) -> Result<(), AllocError>
    ensures { OnOk result ((bytes : List ℕ) × IsLocation view.entry.served.now (asked_as asked.now) segments.now rev bytes × (out.new.items ≡ out.old.items ++ bytes)) }
{
    if asked.peg < rev {
        push_younger(view, asked, rev, out)
    } else {
        push_places(out, rev, segments)
    }
}

fn push_locations_in(
    view: View<'_>,
    asked: &Asked<'_>,
    segments: &[Segment],
    out: &mut Vec<u8>,
) -> Result<(), AllocError>
    ensures { OnOk result ((bytes : List ℕ) × AreLocationsIn view.entry.served.now (asked_as asked.now) segments.now (revs_of asked.now.revs.now) bytes × (out.new.items ≡ out.old.items ++ bytes)) }
{
    let mut left = asked.revs;
    'revs: loop {
        match number_field(left) {
            Some((rev, after)) => {
                push_location(view, asked, segments, Rev(rev), out)?;
                left = after;
            }
            None => return Ok(()),
        }
    }
}

fn push_locations(view: View<'_>, asked: &Asked<'_>, out: &mut Vec<u8>) -> Result<(), AllocError>
    ensures { OnOk result ((bytes : List ℕ) × AreLocations view.entry.served.now (asked_as asked.now) bytes × (out.new.items ≡ out.old.items ++ bytes)) }
{
    let segments = trace(view.served, view.alloc, asked.peg, &asked.path)?;
    push_locations_in(view, asked, &segments, out)
}

/// `get-locations`: where the node at a path of a revision is in others.
pub(crate) fn answer_locations(
    view: View<'_>,
    fields: &[Token],
    out: &mut Vec<u8>,
) -> Result<(), Refused>
    ensures { Lists (AreLocations view.entry.served.now) out.old.items result out.new.items (locations_of view.entry.served.now.repo view.entry.session.now.at fields.now) }
{
    match read_locations(view, fields) {
        Ok(asked) => {
            push_locations(view, &asked, out)?;
            Ok(push_all_sent(out)?)
        }
        Err(refused) => Err(push_none_sent(out, refused)),
    }
}

// What is asked for of the segments of a node: the oldest and the youngest revision.
#[derive(Drop)]
struct Range {
    peg: Rev,
    path: RelPath,
    first: Rev,
    last: Rev,
}

#[tactic(auto, unfolding(crate::specs::Locations::segments_of))]
fn read_segments(view: View<'_>, fields: &[Token]) -> Result<Range, Refused>
    ensures { Gives range_as result (segments_of view.entry.served.now.repo view.entry.session.now.at fields.now) }
{
    let Some(asked) = segment_fields(fields) else {
        return Err(Refused::BadFields);
    };
    let peg = view.rev(asked.peg)?;
    let path = view.path(asked.path)?;
    let _node = view.node(peg, &path)?;
    Ok(Range {
        peg,
        path,
        first: Rev(asked.end.unwrap_or(0)),
        last: Rev(asked.start.unwrap_or(peg.0)),
    })
}

fn push_path_or_none(out: &mut Vec<u8>, path: &Option<RelPath>) -> Result<(), AllocError>
    ensures { OnOk result (out.new.items ≡ out.old.items ++ path_or_none path.now) }
{
    match path {
        Some(path) => push_path(out, path),
        None => Ok(()),
    }
}

fn push_range(
    out: &mut Vec<u8>,
    first: Rev,
    last: Rev,
    path: &Option<RelPath>,
) -> Result<(), AllocError>
    ensures { OnOk result (out.new.items ≡ out.old.items ++ range_bytes first last path.now) }
{
    if first > last {
        return Ok(());
    }
    push_open(out)?;
    push_rev(out, first)?;
    push_rev(out, last)?;
    push_open(out)?;
    push_path_or_none(out, path)?;
    push_close(out)?;
    push_close(out)
}

// The part of a segment that is in the range.
fn push_part(out: &mut Vec<u8>, range: &Range, segment: &Segment) -> Result<(), AllocError>
    ensures { OnOk result (out.new.items ≡ out.old.items ++ part_bytes (range_as range.now) segment.now) }
{
    let first = range.first.0.max(segment.first.0);
    let last = range.last.0.min(segment.last.0);
    push_range(out, Rev(first), Rev(last), &segment.path)
}

fn push_parts(out: &mut Vec<u8>, range: &Range, segments: &[Segment]) -> Result<(), AllocError>
    ensures { OnOk result (out.new.items ≡ out.old.items ++ flat_map (part_bytes (range_as range.now)) segments.now) }
{
    for segment in segments {
        push_part(out, range, segment)?;
    }
    Ok(())
}

fn push_segments(view: View<'_>, range: &Range, out: &mut Vec<u8>) -> Result<(), AllocError>
    ensures { OnOk result ((bytes : List ℕ) × AreSegmentsOf view.entry.served.now (range_as range.now) bytes × (out.new.items ≡ out.old.items ++ bytes)) }
{
    let segments = trace(view.served, view.alloc, range.peg, &range.path)?;
    push_parts(out, range, &segments)
}

/// `get-location-segments`: the revisions in which the node at a path of a revision was at one path, from young to old.
pub(crate) fn answer_segments(
    view: View<'_>,
    fields: &[Token],
    out: &mut Vec<u8>,
) -> Result<(), Refused>
    ensures { Lists (AreSegmentsOf view.entry.served.now) out.old.items result out.new.items (segments_of view.entry.served.now.repo view.entry.session.now.at fields.now) }
{
    match read_segments(view, fields) {
        Ok(range) => {
            push_segments(view, &range, out)?;
            Ok(push_all_sent(out)?)
        }
        Err(refused) => Err(push_none_sent(out, refused)),
    }
}
