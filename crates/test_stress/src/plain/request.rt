//! Where each path of a copy leads in the target, and what the copy must have then.

use crate::plain::base::{Base, BaseTree, base_of};
use crate::plain::fault::Result;
use crate::plain::history::{History, Node};
use crate::plain::plain_path::{PlainPath, ROOT};
use crate::plain::report::Report;
use std::alloc::Global;
use std::collections::{BTreeMap, BTreeSet};
use svn_types::Kind;

/// What is asked for: the target, and the path to which the whole copy is switched.
#[derive(Clone, Copy)]
pub(crate) struct Request<'a> {
    pub(crate) history: &'a History,
    pub(crate) report: &'a Report,
    pub(crate) target: u64,
    pub(crate) to: Option<PlainPath>,
}

// Whether a path goes on as what it is, and the place that it has in the target.
#[derive(Clone, Copy)]
struct Way {
    is_kept: bool,
    place: Option<PlainPath>,
}

/// What is known of one path.
#[derive(Clone, Copy)]
pub(crate) struct Facts {
    pub(crate) path: PlainPath,
    pub(crate) base: u64,
    pub(crate) starts_empty: bool,
    pub(crate) has_entry_below: bool,
    pub(crate) source: Option<Node>,
    pub(crate) is_kept: bool,
    pub(crate) is_parent_kept: bool,
    pub(crate) leads_to: Option<PlainPath>,
    pub(crate) target: Option<Node>,
}

/// Why no run leads to the target. The first that holds is returned.
#[derive(Clone, Copy, Debug, PartialEq, Eq)]
pub(crate) enum TargetFault {
    /// There is no such revision.
    NoSuchRevision,
    /// Nothing is in the target where the copy's root would be.
    NoRoot,
    /// Another thing is there.
    OtherRoot,
}

fn are_related(source: Option<Node>, target: Option<Node>) -> bool {
    match (source, target) {
        (Some(source), Some(target)) => source.line == target.line,
        _ => false,
    }
}

impl Request<'_> {
    // The place that a path has in the target as long as it is kept.
    fn candidate(&self, path: PlainPath) -> Option<PlainPath> {
        match self.to {
            Some(to) => to.with(path.names()),
            None => self.report.repos(path),
        }
    }

    fn target_node(&self, place: Option<PlainPath>) -> Option<Node> {
        self.history.look(self.target, place)
    }

    fn way_below(&self, above: Way, path: PlainPath) -> Way {
        let candidate = self.candidate(path);
        let source = self.report.source(self.history, path);
        if above.is_kept && are_related(source, self.target_node(candidate)) {
            return Way {
                is_kept: true,
                place: candidate,
            };
        }
        let place = match (above.place, path.last()) {
            (Some(place), Some(name)) => place.join(name),
            _ => None,
        };
        Way {
            is_kept: false,
            place,
        }
    }

    fn way(&self, path: PlainPath) -> Way {
        let mut way = Way {
            is_kept: true,
            place: self.candidate(ROOT),
        };
        for length in 1..path.depth().saturating_add(1) {
            way = self.way_below(way, path.prefix(length));
        }
        way
    }

    fn facts(&self, path: PlainPath) -> Facts {
        let way = self.way(path);
        let is_parent_kept = match path.parent() {
            Some(parent) => self.way(parent).is_kept,
            None => true,
        };
        Facts {
            path,
            base: self.report.revision(path),
            starts_empty: self.report.starts_empty(path),
            has_entry_below: self.report.has_entry_below(path),
            source: self.report.source(self.history, path),
            is_kept: way.is_kept,
            is_parent_kept,
            leads_to: way.place,
            target: self.target_node(way.place),
        }
    }

    // What the target has below the place to which an entry's path leads.
    fn add_targets(&self, paths: &mut BTreeSet<PlainPath>, entry: PlainPath) -> Result<()> {
        let Some(tree) = self.history.tree(self.target) else {
            return Ok(());
        };
        let Some(front) = self.way(entry).place else {
            return Ok(());
        };
        for place in tree.keys() {
            if place.is_within(&front) {
                if let Some(path) = place.moved(front, entry) {
                    paths.insert(path)?;
                }
            }
        }
        Ok(())
    }

    /// What is known of each path that the copy has, or that the target gives it.
    pub(crate) fn all_facts(&self, alloc: Global, copy: &BaseTree) -> Result<Vec<Facts>> {
        let mut paths = BTreeSet::new(alloc);
        for path in copy.keys() {
            paths.insert(*path)?;
        }
        for entry in self.report.entries.keys() {
            self.add_targets(&mut paths, *entry)?;
        }
        let mut all = Vec::new(alloc);
        for path in &paths {
            all.push(self.facts(*path))?;
        }
        Ok(all)
    }

    /// Why no run leads to the target.
    pub(crate) fn fault(&self) -> Option<TargetFault> {
        if self.history.tree(self.target).is_none() {
            return Some(TargetFault::NoSuchRevision);
        }
        let root = self.facts(ROOT);
        if root.target.is_none() {
            return Some(TargetFault::NoRoot);
        }
        if !are_related(root.source, root.target) {
            return Some(TargetFault::OtherRoot);
        }
        None
    }
}

impl Facts {
    /// Whether the path goes on as what it is, and something of it changes.
    pub(crate) fn is_touched(&self) -> bool {
        let (Some(source), Some(target)) = (self.source, self.target) else {
            return false;
        };
        self.is_kept
            && (self.path.is_root()
                || source.number != target.number
                || (self.starts_empty && target.kind == Kind::Directory)
                || self.has_entry_below)
    }

    /// Whether something comes that wasn't there.
    pub(crate) fn is_new(&self) -> bool {
        !self.is_kept && self.target.is_some()
    }

    /// Whether something goes by itself.
    pub(crate) fn is_gone(&self) -> bool {
        self.source.is_some() && !self.is_kept && self.is_parent_kept
    }
}

/// What the copy has at the end, of the facts alone.
pub(crate) fn result(
    alloc: Global,
    all: &[Facts],
    target: u64,
) -> Result<BTreeMap<PlainPath, Base>> {
    let mut tree = BTreeMap::new(alloc);
    for facts in all {
        if let (Some(node), Some(repos)) = (&facts.target, facts.leads_to) {
            tree.insert(facts.path, base_of(node, target, repos))?;
        }
    }
    Ok(tree)
}
