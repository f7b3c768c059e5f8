//! Which nodes of a history are one and the same, through copies and changes.

use super::history::{load_all, loader_of};
use anyhow::Result;
use std::alloc::Global;
use std::collections::BTreeMap;
use svn_dump::Texts;
use svn_editor::PathWord;
use svn_repo::Repo;
use svn_types::{RelPath, Rev};
use svn_wc::WorkingCopy;

// The number of a line, in the order in which lines come.
fn number_of(numbers: &mut BTreeMap<u64, usize>, line: u64) -> Result<usize> {
    if let Some(number) = numbers.get(&line) {
        return Ok(*number);
    }
    let number = numbers.len();
    numbers.insert(line, number)?;
    Ok(number)
}

fn line_at(repo: &Repo, rev: u64, path: &RelPath) -> u64 {
    match repo.lookup(Rev(rev), path) {
        Some(node) => repo.line(node).unwrap_or(u64::MAX),
        None => u64::MAX,
    }
}

// The nodes of a revision, each with the number of its line.
fn push_revision(
    out: &mut String,
    numbers: &mut BTreeMap<u64, usize>,
    repo: &Repo,
    rev: u64,
) -> Result<()> {
    let alloc = *out.allocator();
    let copy = WorkingCopy::checkout(alloc, repo, Rev(rev))?;
    for (path, _) in &copy {
        let number = number_of(numbers, line_at(repo, rev, path))?;
        let path = PathWord(path);
        out.push_str(&format!(in alloc; "{rev} {path} {number}\n")?)?;
    }
    Ok(())
}

/// A line for each node of each revision: the revision, the path, and the number of the node's line.
pub fn lines(alloc: Global, dump: &[u8]) -> Result<String> {
    let mut loader = loader_of(alloc, dump, Texts::Whole)?;
    load_all(&mut loader)?;
    let repo = loader.into_repo();
    let mut out = String::new(alloc);
    let mut numbers = BTreeMap::new(alloc);
    for rev in 0..=repo.latest().0 {
        push_revision(&mut out, &mut numbers, &repo, rev)?;
    }
    Ok(out)
}
