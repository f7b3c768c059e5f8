//! Histories: two of one repository, the one that a copy was made of and the one that took its place; and one of several revisions, to which copies are updated.

use anyhow::Result;
use std::alloc::Global;
use svn_digits::stand_in;
use svn_repo::{Change, PropName, Repo};
use svn_types::{RelPath, Rev, Text};

/// What a revision has at a path: a directory where it has no text, else a file, with a property.
pub(crate) type Node = (&'static str, Option<&'static str>, &'static str);

/// What the copy was made of.
pub(crate) const LOST: [Node; 12] = [
    ("d", None, "p"),
    ("d/extra", Some("extra\n"), "p"),
    ("d/same", Some("same\n"), "p"),
    ("gone", None, "p"),
    ("gone/e", None, "p"),
    ("gone/e/f", Some("gone\n"), "p"),
    ("kind", Some("a file\n"), "p"),
    ("other", None, "p"),
    ("other/f", Some("in other\n"), "p"),
    ("props", Some("props\n"), "p"),
    ("text", Some("old text\n"), "p"),
    ("use", Some("same\n"), "svn:executable"),
];

/// What the repository has now.
pub(crate) const FOUND: [Node; 10] = [
    ("d", None, "p"),
    ("d/missing", Some("missing\n"), "p"),
    ("d/same", Some("same\n"), "p"),
    ("kind", None, "p"),
    ("kind/f", Some("in kind\n"), "p"),
    ("other", Some("link text"), "svn:special"),
    ("props", Some("props\n"), "q"),
    ("text", Some("new text\n"), "p"),
    ("use", Some("same\n"), "svn:needs-lock"),
    ("z", Some("new text\n"), "p"),
];

// The changes that make a node.
fn push_node(alloc: Global, changes: &mut Vec<Change>, node: &Node) -> Result<()> {
    let (path, text, name) = node;
    let path = RelPath::parse(alloc, path)?;
    changes.push(match text {
        Some(text) => Change::PutFile {
            path: path.clone()?,
            text: stand_in(alloc, text.as_bytes())?,
        },
        None => Change::MakeDir {
            path: path.clone()?,
        },
    })?;
    changes.push(Change::SetProp {
        path,
        name: PropName::parse(alloc, name)?,
        value: Some(Text::from_slice(alloc, b"*")?),
    })?;
    Ok(())
}

/// The repository whose first revision has these nodes.
pub(crate) fn repo_of(alloc: Global, nodes: &[Node]) -> Result<Repo> {
    let mut changes = Vec::new(alloc);
    for node in nodes {
        push_node(alloc, &mut changes, node)?;
    }
    let mut repo = Repo::new(alloc)?;
    repo.commit(&changes)?;
    Ok(repo)
}

/// What the fourth revision of `revisions` does: a path, and the file's text; none where the file goes.
const BRANCHED: [(&str, &str); 3] = [
    ("branch/d/extra", ""),
    ("branch/d/same", "new text\n"),
    ("branch/text", "text of the branch\n"),
];

fn has(nodes: &[Node], path: &str, is_file: bool) -> bool {
    nodes.iter().any(|(other, text, _)| *other == path && text.is_some() == is_file)
}

// The property that a node has among these.
fn property_of(nodes: &[Node], path: &str) -> &'static str {
    for (other, _, name) in nodes {
        if *other == path {
            return name;
        }
    }
    ""
}

// The changes that take what `FOUND` doesn't have, or has as another kind, from what `LOST` has.
fn push_removals(alloc: Global, changes: &mut Vec<Change>) -> Result<()> {
    for (path, text, _) in &LOST {
        let above_goes = path.starts_with("gone/") || path.starts_with("other/");
        if !above_goes && !has(&FOUND, path, text.is_some()) {
            let path = RelPath::parse(alloc, path)?;
            changes.push(Change::Remove { path })?;
        }
    }
    Ok(())
}

// The change that takes a property from a node that stays and has another one.
fn push_taken(alloc: Global, changes: &mut Vec<Change>, node: &Node) -> Result<()> {
    let (path, text, name) = node;
    let old = property_of(&LOST, path);
    if has(&LOST, path, text.is_some()) && old != *name {
        changes.push(Change::SetProp {
            path: RelPath::parse(alloc, path)?,
            name: PropName::parse(alloc, old)?,
            value: None,
        })?;
    }
    Ok(())
}

// The changes that make a node of `FOUND`: its directory is there if `LOST` has it.
fn push_found(alloc: Global, changes: &mut Vec<Change>, node: &Node) -> Result<()> {
    let (path, text, _) = node;
    push_taken(alloc, changes, node)?;
    if text.is_none() && has(&LOST, path, false) {
        return Ok(());
    }
    push_node(alloc, changes, node)
}

// The changes of the second revision.
fn second(alloc: Global) -> Result<Vec<Change>> {
    let mut changes = Vec::new(alloc);
    push_removals(alloc, &mut changes)?;
    for node in &FOUND {
        push_found(alloc, &mut changes, node)?;
    }
    Ok(changes)
}

// The changes of the fourth revision.
fn fourth(alloc: Global) -> Result<Vec<Change>> {
    let mut changes = Vec::new(alloc);
    for (path, text) in &BRANCHED {
        let path = RelPath::parse(alloc, path)?;
        changes.push(if text.is_empty() {
            Change::Remove { path }
        } else {
            Change::PutFile {
                path,
                text: stand_in(alloc, text.as_bytes())?,
            }
        })?;
    }
    Ok(changes)
}

/// The repository whose first revision has `LOST`, whose second `FOUND`, whose third the first one's root as `branch` too, in which the fourth removes
/// `branch/d/extra` and changes the text of two files.
pub(crate) fn revisions(alloc: Global) -> Result<Repo> {
    let mut repo = repo_of(alloc, &LOST)?;
    repo.commit(&second(alloc)?)?;
    let mut changes = Vec::new(alloc);
    changes.push(Change::CopyFrom {
        rev: Rev(1),
        source: RelPath::root(alloc),
        path: RelPath::parse(alloc, "branch")?,
    })?;
    repo.commit(&changes)?;
    repo.commit(&fourth(alloc)?)?;
    Ok(repo)
}
