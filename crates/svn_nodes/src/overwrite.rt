//! Nodes get what a part has at their paths, in one pass over all of them.
ghost use Rattle.std.specs.Prelude.{◌≡◌, true, is_some, unwrap_or};
ghost use Rattle.std.specs.Option.{option_or};
ghost use Rattle.svn_types.specs.Names.{Path};
ghost use Rattle.svn_model.specs.Nodes.{get_in, InPathOrder};
ghost use Rattle.svn_nodes.specs.Overwriting.{next_at, behind_at};

use crate::nodes::Nodes;
use std::alloc::Global;
use std::collections::btree_map::IntoIter;
use std::marker::Model;
use std::mem::replace;
use svn_model::BaseNode;
use svn_types::RelPath;

/// What is left of a part, in path order, with its first node ready to be read. A contract sees it as the list of its nodes.
#[derive(Drop)]
struct Left {
    first: Option<(RelPath, BaseNode)>,
    // after that one
    rest: IntoIter<RelPath, BaseNode, Global>,
}

impl Model for Left {
    ghost use Rattle.std.specs.Prelude.{◌≡◌, List, [], None};
    ghost use Rattle.std.specs.List.{cons_option};
    ghost use Rattle.svn_types.specs.Names.{Path};
    ghost use Rattle.svn_model.specs.declared.base_node.BaseNode.{BaseNode};

    ghost Value = { List (Path × BaseNode) };

    ghost view = { λ l. cons_option l.first l.rest };

    ghost invariant = { λ l. l.first ≡ None → l.rest ≡ [] };
}

impl Left {
    fn of(part: Nodes) -> Left
        ensures all { result ≡ part.entries }
        ensures ordered { InPathOrder result }
    {
        let mut rest = part.into_iter();
        let first = rest.next();
        Left { first, rest }
    }

    // Takes the first node, if it is at a path.
    fn take_at(&mut self, path: &RelPath) -> Option<BaseNode>
        ensures node { result ≡ next_at self.old path.now }
        ensures left { self.new ≡ behind_at self.old path.now }
    {
        match &self.first {
            Some((first, _)) if first == path => {}
            _ => return None,
        }
        let next = self.rest.next();
        match replace(&mut self.first, next) {
            Some((_, node)) => Some(node),
            None => None,
        }
    }
}

// Gives a node what is left of a part at its path, if that comes next.
fn overwrite(path: &RelPath, node: &mut BaseNode, left: &mut Left)
    ensures node { node.new ≡ unwrap_or (next_at left.old path.now) node.old }
    ensures left { left.new ≡ behind_at left.old path.now }
{
    if let Some(new) = left.take_at(path) {
        *node = new;
    }
}

/// Puts a part over nodes that are at all its paths. It takes no memory, and goes over all nodes once.
pub(crate) fn overwrite_all(nodes: &mut Nodes, part: Nodes)
    requires places { (p : Path) → is_some (get_in part.entries p) ≡ true → is_some (get_in nodes.old.entries p) ≡ true }
    ensures { (p : Path) → get_in nodes.new.entries p ≡ option_or (get_in part.entries p) (get_in nodes.old.entries p) }
{
    let mut left = Left::of(part);
    nodes.retain(|path, node| {
        overwrite(path, node, &mut left);
        true
    });
}
