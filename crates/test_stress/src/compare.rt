//! What the library has, compared with what the model has.

use crate::plain::{
    Base, BaseTree, History, NAMES, Node, PROP_NAMES, PlainPath, ROOT, Report, Said, Tree, Values,
    Word,
};
use crate::real;
use crate::stop::Result;
use std::alloc::Global;
use std::collections::BTreeMap;
use svn_report::ReportEntry;
use svn_update::{
    BaseNode, Kind, Name, NodeId, PropName, Props, RelPath, Repo, Rev, Text, WorkingCopy,
};

fn is_name(name: &Name, number: u8) -> bool {
    let at = usize::from(number).wrapping_sub(1);
    match NAMES.get(at) {
        Some((raw, _printed)) => name.as_str() == *raw,
        None => false,
    }
}

/// Whether a path is this place.
pub(crate) fn is_path(path: &RelPath, place: &PlainPath) -> bool {
    let names = path.components();
    if names.len() != place.depth() {
        return false;
    }
    for (name, number) in names.iter().zip(place.names().iter()) {
        if !is_name(name, *number) {
            return false;
        }
    }
    true
}

fn is_text(text: &[u8], word: Word) -> bool {
    text == word.raw().as_bytes()
}

fn expected_value(values: &Values, name: &PropName) -> Option<Word> {
    for (known, value) in PROP_NAMES.iter().zip(values.iter()) {
        if *known == name.as_str() {
            return *value;
        }
    }
    None
}

fn has_value(values: &Values, name: &PropName, text: &Text) -> bool {
    match expected_value(values, name) {
        Some(word) => is_text(text.as_slice(), word),
        None => false,
    }
}

fn are_props(props: &Props, values: &Values) -> bool {
    let mut count = 0usize;
    for value in values {
        if value.is_some() {
            count = count.saturating_add(1);
        }
    }
    if props.len() != count {
        return false;
    }
    for (name, text) in props.as_map() {
        if !has_value(values, name, text) {
            return false;
        }
    }
    true
}

// Whether a node of a copy is what the model has there.
fn is_base(node: &BaseNode, base: &Base) -> bool {
    match (node, base) {
        (BaseNode::NotPresent, Base::NotPresent) => true,
        (
            BaseNode::File {
                rev,
                repos_path,
                text,
                props,
            },
            Base::File {
                rev: wanted,
                repos,
                text: word,
                values,
            },
        ) => {
            rev.0 == *wanted
                && is_path(repos_path, repos)
                && is_text(text.as_slice(), *word)
                && are_props(props, values)
        }
        (
            BaseNode::Dir {
                rev,
                repos_path,
                complete,
                props,
            },
            Base::Dir {
                rev: wanted,
                repos,
                complete: is_complete,
                values,
            },
        ) => {
            rev.0 == *wanted
                && is_path(repos_path, repos)
                && *complete == *is_complete
                && are_props(props, values)
        }
        _ => false,
    }
}

/// The first path at which a copy isn't what the model has.
pub(crate) fn copy_difference(copy: &WorkingCopy, tree: &BaseTree) -> Option<PlainPath> {
    let nodes = copy.nodes();
    for ((path, node), (place, base)) in nodes.iter().zip(tree.iter()) {
        if !is_path(path, place) || !is_base(node, base) {
            return Some(*place);
        }
    }
    if nodes.len() != tree.len() {
        return Some(ROOT);
    }
    None
}

fn is_said(entry: &ReportEntry, said: &Said) -> bool {
    match (entry, said) {
        (ReportEntry::DeletePath, Said::Delete) => true,
        (
            ReportEntry::SetPath { rev, start_empty },
            Said::Set {
                rev: wanted,
                start_empty: is_empty,
            },
        ) => rev.0 == *wanted && *start_empty == *is_empty,
        (
            ReportEntry::LinkPath {
                repos_path,
                rev,
                start_empty,
            },
            Said::Link {
                repos,
                rev: wanted,
                start_empty: is_empty,
            },
        ) => rev.0 == *wanted && is_path(repos_path, repos) && *start_empty == *is_empty,
        _ => false,
    }
}

fn has_entry(report: &svn_report::Report, at: usize, place: &PlainPath, said: &Said) -> bool {
    match report.entry(at) {
        Some((path, entry)) => is_path(path, place) && is_said(entry, said),
        None => false,
    }
}

/// The first path at which a report says what the model's doesn't.
pub(crate) fn report_difference(report: &svn_report::Report, model: &Report) -> Option<PlainPath> {
    if !is_path(report.root(), &model.root) || report.len() != model.entries.len() {
        return Some(ROOT);
    }
    for (at, (place, said)) in model.entries.iter().enumerate() {
        if !has_entry(report, at, place, said) {
            return Some(*place);
        }
    }
    None
}

/// Which node of the repository each number of the model is.
pub(crate) type Ids = BTreeMap<u64, NodeId>;

// Whether a number of the model is this node and no other, by what is known.
fn is_same_node(ids: &mut Ids, number: u64, id: NodeId) -> Result<bool> {
    for (known, other) in ids.iter() {
        if (*known == number) != (*other == id) {
            return Ok(false);
        }
    }
    ids.insert(number, id)?;
    Ok(true)
}

// How many entries the model's tree has in a directory.
fn count_entries(tree: &Tree, above: PlainPath) -> usize {
    let mut count = 0usize;
    for place in tree.keys() {
        if place.parent() == Some(above) {
            count = count.saturating_add(1);
        }
    }
    count
}

fn has_text(repo: &Repo, id: NodeId, word: Word) -> bool {
    match repo.text(id) {
        Some(text) => is_text(text, word),
        None => false,
    }
}

fn has_entries(repo: &Repo, id: NodeId, count: usize) -> bool {
    match repo.entries(id) {
        Some(listing) => listing.len() == count,
        None => false,
    }
}

fn has_props(repo: &Repo, id: NodeId, values: &Values) -> bool {
    match repo.props(id) {
        Some(props) => are_props(props, values),
        None => false,
    }
}

// Whether a node reads as the model's.
fn reads_as(repo: &Repo, id: NodeId, node: &Node, entries: usize) -> bool {
    let is_same = repo.line(id) == Some(node.line)
        && repo.kind(id) == Some(node.kind)
        && has_props(repo, id, &node.values);
    is_same
        && match node.kind {
            Kind::File => has_text(repo, id, node.text),
            Kind::Directory => has_entries(repo, id, entries),
        }
}

// A revision, and what the model has of it.
#[derive(Clone, Copy)]
struct Revision<'a> {
    repo: &'a Repo,
    tree: &'a Tree,
    rev: u64,
}

impl Revision<'_> {
    fn has(&self, alloc: Global, ids: &mut Ids, place: PlainPath, node: &Node) -> Result<bool> {
        let path = real::path(alloc, place)?;
        let Some(id) = self.repo.lookup(Rev(self.rev), &path) else {
            return Ok(false);
        };
        if !reads_as(self.repo, id, node, count_entries(self.tree, place)) {
            return Ok(false);
        }
        is_same_node(ids, node.number, id)
    }
}

/// The first path at which a revision isn't what the model has.
pub(crate) fn revision_difference(
    alloc: Global,
    repo: &Repo,
    history: &History,
    ids: &mut Ids,
    rev: u64,
) -> Result<Option<PlainPath>> {
    let Some(tree) = history.tree(rev) else {
        return Ok(Some(ROOT));
    };
    let revision = Revision { repo, tree, rev };
    for (place, node) in tree {
        if !revision.has(alloc, ids, *place, node)? {
            return Ok(Some(*place));
        }
    }
    Ok(None)
}
