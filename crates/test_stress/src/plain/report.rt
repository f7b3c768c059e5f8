//! What a copy reports, and what a report says of each path.

use crate::plain::base::{Base, BaseTree};
use crate::plain::fault::Result;
use crate::plain::history::{History, Node};
use crate::plain::plain_path::{PlainPath, ROOT};
use std::alloc::Global;
use std::collections::BTreeMap;

/// An entry of a report.
#[derive(Clone, Copy)]
pub(crate) enum Said {
    Set {
        rev: u64,
        start_empty: bool,
    },
    Link {
        repos: PlainPath,
        rev: u64,
        start_empty: bool,
    },
    Delete,
}

/// The repository path of the root, and entries by path.
#[derive(Drop)]
pub(crate) struct Report {
    pub(crate) root: PlainPath,
    pub(crate) entries: BTreeMap<PlainPath, Said>,
}

// The revision and the repository path of what is present, and whether it is a directory that isn't complete.
fn present(base: &Base) -> Option<(u64, PlainPath, bool)> {
    match base {
        Base::File { rev, repos, .. } => Some((*rev, *repos, false)),
        Base::Dir {
            rev,
            repos,
            complete,
            ..
        } => Some((*rev, *repos, !*complete)),
        Base::NotPresent => None,
    }
}

// What is said of a path below a directory, if anything is.
fn said_below(above: &Base, path: PlainPath, base: &Base) -> Option<Said> {
    let (above_rev, above_repos, is_incomplete) = present(above)?;
    let Some((rev, repos, start_empty)) = present(base) else {
        return if is_incomplete {
            None
        } else {
            Some(Said::Delete)
        };
    };
    let own = path.last().and_then(|name| above_repos.join(name));
    if own != Some(repos) {
        return Some(Said::Link {
            repos,
            rev,
            start_empty,
        });
    }
    if is_incomplete || start_empty || rev != above_rev {
        return Some(Said::Set { rev, start_empty });
    }
    None
}

fn said_at(tree: &BaseTree, path: PlainPath, base: &Base) -> Option<Said> {
    match path.parent() {
        Some(parent) => said_below(tree.get(&parent)?, path, base),
        None => {
            let (rev, _repos, start_empty) = present(base)?;
            Some(Said::Set { rev, start_empty })
        }
    }
}

/// The report of a copy.
pub(crate) fn crawl(alloc: Global, tree: &BaseTree) -> Result<Report> {
    let mut entries = BTreeMap::new(alloc);
    let mut root = ROOT;
    for (path, base) in tree {
        if path.is_root() {
            if let Some((_rev, repos, _start_empty)) = present(base) {
                root = repos;
            }
        }
        if let Some(said) = said_at(tree, *path, base) {
            entries.insert(*path, said)?;
        }
    }
    Ok(Report { root, entries })
}

impl Report {
    /// The entry that governs a path: the nearest at it or above, with its own path.
    pub(crate) fn governing(&self, path: PlainPath) -> Option<(PlainPath, Said)> {
        let depth = path.depth();
        let mut nearest = None;
        for length in 0..depth.saturating_add(1) {
            let above = path.prefix(length);
            if let Some(said) = self.entries.get(&above) {
                nearest = Some((above, *said));
            }
        }
        nearest
    }

    /// The repository path of a path: that of a link at it, else that of the parent with the name after it.
    pub(crate) fn repos(&self, path: PlainPath) -> Option<PlainPath> {
        let mut repos = Some(self.root);
        for length in 1..path.depth().saturating_add(1) {
            let at = path.prefix(length);
            repos = match self.entries.get(&at) {
                Some(Said::Link { repos: own, .. }) => Some(*own),
                _ => {
                    let name = at.last()?;
                    repos.and_then(|above: PlainPath| above.join(name))
                }
            };
        }
        repos
    }

    /// The revision at which the report has a path.
    pub(crate) fn revision(&self, path: PlainPath) -> u64 {
        match self.governing(path) {
            Some((_, Said::Set { rev, .. })) | Some((_, Said::Link { rev, .. })) => rev,
            _ => 0,
        }
    }

    /// Whether an entry at the path itself says that the directory there has nothing yet.
    pub(crate) fn starts_empty(&self, path: PlainPath) -> bool {
        match self.entries.get(&path) {
            Some(Said::Set { start_empty, .. }) => *start_empty,
            Some(Said::Link { start_empty, .. }) => *start_empty,
            _ => false,
        }
    }

    /// Whether an entry is strictly below a path.
    pub(crate) fn has_entry_below(&self, path: PlainPath) -> bool {
        for place in self.entries.keys() {
            if place.is_within(&path) && *place != path {
                return true;
            }
        }
        false
    }

    /// The node that the client has at a path.
    pub(crate) fn source(&self, history: &History, path: PlainPath) -> Option<Node> {
        let (at, said) = self.governing(path)?;
        match said {
            Said::Delete => None,
            Said::Set { rev, start_empty } => {
                if start_empty && at != path {
                    return None;
                }
                history.look(rev, self.repos(path))
            }
            Said::Link {
                rev,
                start_empty,
                ..
            } => {
                if start_empty && at != path {
                    return None;
                }
                history.look(rev, self.repos(path))
            }
        }
    }
}
