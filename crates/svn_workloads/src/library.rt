//! Changes and copies by the library's own calls.

use crate::digest::Digest;
use crate::source::Source;
use anyhow::Result;
use std::alloc::Global;
use svn_update::{BaseNode, Change, RelPath, Repo, Rev, Text, WorkingCopy};

/// The path of a tree's node below a directory of the root.
pub(crate) fn path_below(alloc: Global, root: &str, path: &str) -> Result<RelPath> {
    let text = if path.is_empty() {
        format!(in alloc; "{root}")?
    } else {
        format!(in alloc; "{root}/{path}")?
    };
    Ok(RelPath::parse(alloc, text.as_str())?)
}

/// A file gets a text.
pub(crate) fn put(alloc: Global, root: &str, path: &str, text: &str) -> Result<Change> {
    Ok(Change::PutFile {
        path: path_below(alloc, root, path)?,
        text: Text::from_slice(alloc, text.as_bytes())?,
    })
}

// A text for a file of the tree.
fn put_drawn(alloc: Global, source: &mut Source, place: usize) -> Result<Change> {
    let path = source.tree.file(place);
    let text = source.texts.draw(&mut source.dice, source.least);
    put(alloc, "trunk", path, text)
}

fn make_directory(alloc: Global, path: &str) -> Result<Change> {
    let path = path_below(alloc, "trunk", path)?;
    Ok(Change::MakeDir { path })
}

fn make_directories(alloc: Global, source: &Source, changes: &mut Vec<Change>) -> Result<()> {
    for path in &source.tree.directories {
        changes.push(make_directory(alloc, path.as_str())?)?;
    }
    Ok(())
}

// That many in a hundred of the files get texts.
fn put_some(
    alloc: Global,
    source: &mut Source,
    hundredths: u64,
    changes: &mut Vec<Change>,
) -> Result<()> {
    for place in 0..source.tree.files.len() {
        if source.dice.below(100) < hundredths {
            changes.push(put_drawn(alloc, source, place)?)?;
        }
    }
    Ok(())
}

fn put_all(alloc: Global, source: &mut Source, changes: &mut Vec<Change>) -> Result<()> {
    for place in 0..source.tree.files.len() {
        changes.push(put_drawn(alloc, source, place)?)?;
    }
    Ok(())
}

fn commit(repo: &mut Repo, changes: &[Change]) -> Result<()> {
    repo.commit(changes)?;
    Ok(())
}

/// Makes all directories and files of a tree, below the directory trunk, with texts, a tenth of them shorter than the least.
pub(crate) fn commit_all(alloc: Global, source: &mut Source, repo: &mut Repo) -> Result<()> {
    let mut changes = Vec::new(alloc);
    make_directories(alloc, source, &mut changes)?;
    put_all(alloc, source, &mut changes)?;
    commit(repo, &changes)
}

/// Gives some of a tree's files new texts: that many in a hundred are chosen.
pub(crate) fn commit_some(
    alloc: Global,
    source: &mut Source,
    hundredths: u64,
    repo: &mut Repo,
) -> Result<()> {
    let mut changes = Vec::new(alloc);
    put_some(alloc, source, hundredths, &mut changes)?;
    commit(repo, &changes)
}

// A node's revision, its path in the repository, and one more number.
fn tell_parts(digest: &mut Digest, rev: Rev, path: &RelPath, number: u64) {
    digest.tell_number(rev.0);
    digest.tell(path.key().as_bytes());
    digest.tell_number(number);
}

fn tell_node(digest: &mut Digest, node: &BaseNode) {
    match node {
        BaseNode::File {
            rev,
            repos_path,
            text,
            ..
        } => tell_parts(digest, *rev, repos_path, text.len() as u64),
        BaseNode::Dir {
            rev,
            repos_path,
            complete,
            ..
        } => tell_parts(digest, *rev, repos_path, u64::from(*complete)),
        BaseNode::NotPresent => digest.tell_number(0),
    }
}

/// Adds all nodes of a copy.
pub(crate) fn tell_copy(digest: &mut Digest, copy: &WorkingCopy) {
    for (path, node) in copy.nodes() {
        digest.tell(path.key().as_bytes());
        tell_node(digest, node);
    }
}
