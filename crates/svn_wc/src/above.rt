//! Directories, as nodes below them are compared with them.
ghost use Rattle.std.specs.Prelude.{◌≡◌, ◌++◌, Some};
ghost use Rattle.svn_types.specs.Paths.{path_eq, last_name};
ghost use Rattle.svn_model.specs.Nodes.{node_path};
ghost use Rattle.svn_wc.specs.Aboves.{has_own_path, mark, IsBelow};

use std::marker::Model;
use svn_model::BaseNode;
use svn_types::RelPath;

/// A node that others may be below. A contract sees it as the node, and whether that is known to have its own path as its repository path.
#[derive(Drop)]
pub(crate) struct Above<'a> {
    node: &'a BaseNode,
    // As in most copies: the two paths of an unswitched node below are then one and the same, which a single comparison shows.
    has_own_path: bool,
}

impl<'a> Model for Above<'a> {
    ghost use Rattle.std.specs.Prelude.{Bool};
    ghost use Rattle.svn_model.specs.declared.base_node.BaseNode.{BaseNode};

    ghost Value = { BaseNode × Bool };

    ghost view = { λ a. (a.node.now, a.has_own_path) };
}

// Whether a node is a directory whose repository path is its path in the copy.
fn has_own_path(path: &RelPath, node: &BaseNode) -> bool
    ensures { result ≡ has_own_path path.now node.now }
{
    match node {
        BaseNode::Dir { repos_path, .. } => repos_path == path,
        BaseNode::File { .. } | BaseNode::NotPresent => false,
    }
}

impl<'a> Above<'a> {
    /// The node at a path.
    pub(crate) fn of(path: &RelPath, node: &'a BaseNode) -> Above<'a>
        ensures { result ≡ (node.entry.now, has_own_path path.now node.entry.now) }
    {
        Above {
            node,
            has_own_path: has_own_path(path, node),
        }
    }

    /// The node at a path. It may be known that no path of the copy is switched: then nothing is compared, and it isn't marked.
    pub(crate) fn marked(path: &RelPath, node: &'a BaseNode, unswitched: bool) -> Above<'a>
        ensures { result ≡ (node.entry.now, mark unswitched path.now node.entry.now) }
    {
        if unswitched {
            return Above {
                node,
                has_own_path: false,
            };
        }
        Above::of(path, node)
    }

    /// The node.
    pub(crate) fn node(&self) -> &'a BaseNode
        ensures { result.now ≡ self.now.0 }
    {
        self.node
    }

    /// Whether the node at a path one name below is not switched: whether its repository path is the directory's with that name after it.
    pub(crate) fn is_unswitched(&self, path: &RelPath, repos_path: &RelPath) -> bool
        ensures { IsBelow path.now (Some self.now) → result ≡ path_eq repos_path.now (node_path (Some self.now.0) ++ last_name path.now) }
    {
        if self.has_own_path {
            return repos_path == path;
        }
        match (self.node, path.last_name()) {
            (
                BaseNode::Dir {
                    repos_path: front,
                    ..
                },
                Some(name),
            ) => repos_path.is_child_of(front, name),
            _ => false,
        }
    }
}
