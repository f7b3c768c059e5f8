//! The fields of commands about where nodes were.
ghost use Rattle.std.specs.Prelude.{◌≡◌, option_map};
ghost use Rattle.svn_commands.specs.CommandFields.{location_fields, segment_fields};

use svn_replies::path_and_rev;
use svn_wire::{Token, list_field, number_field, optional_number, text_field};

/// The fields of `get-locations`: a path, a revision, and the beginning of a list of revisions.
#[tactic(auto, unfolding(crate::specs::CommandFields::location_fields))]
pub(crate) fn location_fields(fields: &[Token]) -> Option<(&[u8], u64, &[Token])>
    ensures { option_map (λ r. (r.0.now, r.1, r.2.now)) result ≡ location_fields fields.now }
{
    let (path, fields) = text_field(fields)?;
    let (peg, fields) = number_field(fields)?;
    Some((path, peg, list_field(fields)?))
}

/// What `get-location-segments` is asked for.
#[derive(Clone, Copy)]
pub(crate) struct SegmentFields<'a> {
    pub(crate) path: &'a [u8],
    pub(crate) peg: Option<u64>,
    pub(crate) start: Option<u64>,
    pub(crate) end: Option<u64>,
}

/// The fields of `get-location-segments`.
#[tactic(auto, unfolding(crate::specs::CommandFields::segment_fields))]
pub(crate) fn segment_fields(fields: &[Token]) -> Option<SegmentFields<'_>>
    ensures { option_map (λ r. (r.path.now, r.peg, r.start, r.end)) result ≡ segment_fields fields.now }
{
    let (path, peg, fields) = path_and_rev(fields)?;
    let (start, fields) = optional_number(fields)?;
    let (end, _more) = optional_number(fields)?;
    Some(SegmentFields {
        path,
        peg,
        start,
        end,
    })
}
