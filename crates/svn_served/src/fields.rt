//! The fields of the commands of a report.
ghost use Rattle.std.specs.Prelude.{◌≡◌, option_map};
ghost use Rattle.svn_served.specs.CommandFields.{link_fields};

use svn_wire::{Token, bool_field, number_field, text_field};

/// What `link-path` says.
#[derive(Clone, Copy)]
pub(crate) struct LinkFields<'a> {
    pub(crate) path: &'a [u8],
    pub(crate) url: &'a [u8],
    pub(crate) rev: u64,
    pub(crate) start_empty: bool,
}

/// The fields of `link-path`.
#[tactic(auto, unfolding(crate::specs::CommandFields::link_fields))]
pub(crate) fn link_fields(fields: &[Token]) -> Option<LinkFields<'_>>
    ensures { option_map (λ r. (r.path.now, r.url.now, r.rev, r.start_empty)) result ≡ link_fields fields.now }
{
    let (path, fields) = text_field(fields)?;
    let (url, fields) = text_field(fields)?;
    let (rev, fields) = number_field(fields)?;
    let (start_empty, _more) = bool_field(fields)?;
    Some(LinkFields {
        path,
        url,
        rev,
        start_empty,
    })
}
