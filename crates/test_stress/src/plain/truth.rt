//! When a copy is true of a repository, each node asked by itself.

use crate::plain::base::{Base, BaseTree};
use crate::plain::history::History;
use crate::plain::plain_path::PlainPath;
use svn_types::Kind;

// Whether each name of a directory in the repository has an entry in the copy.
fn has_all_entries(
    history: &History,
    tree: &BaseTree,
    path: PlainPath,
    rev: u64,
    repos: PlainPath,
) -> bool {
    let Some(source) = history.tree(rev) else {
        return false;
    };
    for place in source.keys() {
        if place.parent() == Some(repos) {
            let entry = place.last().and_then(|name| path.join(name));
            match entry {
                Some(entry) if tree.contains_key(&entry) => {}
                _ => return false,
            }
        }
    }
    true
}

fn is_true_at(history: &History, tree: &BaseTree, path: PlainPath, base: &Base) -> bool {
    match base {
        Base::NotPresent => true,
        Base::File {
            rev,
            repos,
            text,
            values,
        } => match history.look(*rev, Some(*repos)) {
            Some(node) => {
                node.kind == Kind::File && node.text == *text && node.values == *values
            }
            None => false,
        },
        Base::Dir {
            rev,
            repos,
            complete,
            values,
        } => match history.look(*rev, Some(*repos)) {
            Some(node) if node.kind == Kind::Directory => {
                !*complete
                    || (node.values == *values
                        && has_all_entries(history, tree, path, *rev, *repos))
            }
            _ => false,
        },
    }
}

/// The first path, in path order, at which the copy isn't true.
pub(crate) fn first_untrue(history: &History, tree: &BaseTree) -> Option<PlainPath> {
    for (path, base) in tree {
        if !is_true_at(history, tree, *path, base) {
            return Some(*path);
        }
    }
    None
}
