//! Where a change works: what is there is looked up once, to say whether the change can be made and to make it.
ghost use Rattle.std.specs.Prelude.{◌≡◌};
ghost use Rattle.svn_types.specs.Paths.{parent};
ghost use Rattle.svn_repo.specs.Drafts.{IsNear};

use crate::change::Change;
use crate::entries::NodeId;
use crate::store::{Node, node_below};
use svn_types::Name;

// The names of a path but for the last.
fn names_above(names: &[Name]) -> &[Name]
    ensures { result.now ≡ parent names.now }
{
    match names.split_last() {
        Some((_, above)) => above,
        None => names,
    }
}

/// The node whose property a change sets, or the directory in which it puts something new, if that is there. Removing and copying look their
/// paths up themselves.
pub(crate) fn find_near(nodes: &[Node], root: NodeId, change: &Change) -> Option<NodeId>
    ensures { IsNear nodes.now root change.now result }
{
    match change {
        Change::MakeDir { path } => node_below(nodes, root, names_above(path.components())),
        Change::PutFile { path, text: _ } => {
            node_below(nodes, root, names_above(path.components()))
        }
        Change::SetProp {
            path,
            name: _,
            value: _,
        } => node_below(nodes, root, path.components()),
        Change::Remove { path: _ }
        | Change::CopyFrom {
            rev: _,
            source: _,
            path: _,
        } => None,
    }
}
