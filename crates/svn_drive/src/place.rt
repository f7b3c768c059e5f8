//! What a walk knows at a path.

use crate::check::Seen;
use crate::report_part::ReportPart;
use svn_editor::Token;
use svn_repo::NodeId;
use svn_types::Rev;

/// A path of the client: what the report says of it, its entries below it, whether it and its parent are kept, and the nodes on both sides.
#[derive(Drop)]
pub(crate) struct Place<'a> {
    pub(crate) here: Seen<'a>,
    pub(crate) below: ReportPart<'a>,
    pub(crate) is_kept: bool,
    pub(crate) parent_is_kept: bool,
    pub(crate) source: Option<NodeId>,
    pub(crate) target: Option<NodeId>,
    pub(crate) is_touched: bool,
    // the token of the directory above
    pub(crate) parent: Token,
}

/// The node that a place has in a revision, at the path that the client has there.
#[derive(Clone, Copy)]
pub(crate) struct Known {
    pub(crate) rev: Rev,
    pub(crate) node: Option<NodeId>,
}
