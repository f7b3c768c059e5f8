//! The fields of commands.
ghost use Rattle.std.specs.Prelude.{◌≡◌, option_map};
ghost use Rattle.svn_replies.specs.CommandFields.{path_and_rev, node_fields, prop_fields};

use svn_wire::{Token, bool_field, number_field, optional_number, text_field};

/// A path, a revision or none, and what is after them.
#[tactic(auto, unfolding(crate::specs::CommandFields::path_and_rev))]
pub fn path_and_rev(fields: &[Token]) -> Option<(&[u8], Option<u64>, &[Token])>
    ensures { option_map (λ r. (r.0.now, r.1, r.2.now)) result ≡ path_and_rev fields.now }
{
    let (path, fields) = text_field(fields)?;
    let (rev, rest) = optional_number(fields)?;
    Some((path, rev, rest))
}

/// What `get-file` and `get-dir` are asked for.
#[derive(Clone, Copy)]
pub(crate) struct NodeFields<'a> {
    pub(crate) path: &'a [u8],
    pub(crate) rev: Option<u64>,
    /// Whether properties are wanted.
    pub(crate) props: bool,
    /// Whether the text, or the entries, are wanted.
    pub(crate) content: bool,
}

/// The fields of `get-file` and `get-dir`.
#[tactic(auto, unfolding(crate::specs::CommandFields::node_fields))]
pub(crate) fn node_fields(fields: &[Token]) -> Option<NodeFields<'_>>
    ensures { option_map (λ r. (r.path.now, r.rev, r.props, r.content)) result ≡ node_fields fields.now }
{
    let (path, rev, fields) = path_and_rev(fields)?;
    let (props, fields) = bool_field(fields)?;
    let (content, _more) = bool_field(fields)?;
    Some(NodeFields {
        path,
        rev,
        props,
        content,
    })
}

/// The fields of `rev-prop`: a revision and a name.
#[tactic(auto, unfolding(crate::specs::CommandFields::prop_fields))]
pub(crate) fn prop_fields(fields: &[Token]) -> Option<(u64, &[u8])>
    ensures { option_map (λ r. (r.0, r.1.now)) result ≡ prop_fields fields.now }
{
    let (rev, fields) = number_field(fields)?;
    let (name, _more) = text_field(fields)?;
    Some((rev, name))
}
