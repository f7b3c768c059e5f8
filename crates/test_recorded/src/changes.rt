//! The last change of each node of each revision of a dump, and where each text is in it. The dump is read from standard input. The end of `stdout` is
//! what Subversion itself has of them, and what is at the places in the dump: `examples/subversion/last_changes.py` makes both.
//!
//! Of a node it prints its revision and path, the revision of its last change with its date and author, and for a file where its text begins in the
//! dump, how many bytes it has, and its MD5 checksum.

use anyhow::{Result, bail};
use hex::FromHex;
use std::alloc::Global;
use std::io::Read;
use std::rt::Files;
use svn_dump::{DumpIndex, Limits, Reader, Sha1Sum, TextPlace, Texts};
use svn_editor::Word;
use svn_history::{LastChange, Loader, last_change};
use svn_repo::{NodeId, RelPath, Repo, Rev};

// The checksum that the stand-in for a text has.
fn sum_of(text: &[u8]) -> Option<Sha1Sum> {
    let digits = text.get(6..)?;
    match <[u8; 20]>::from_hex(digits) {
        Ok(sum) => Some(Sha1Sum(sum)),
        Err(_) => None,
    }
}

// Where the text of a file is.
fn place_of(repo: &Repo, index: &DumpIndex, node: NodeId) -> Option<TextPlace> {
    let text = repo.text(node)?;
    index.text(&sum_of(text)?)
}

fn print_change<R: Print>(rt: &R, at: Rev, path: &RelPath, change: &LastChange<'_>) -> Result<()> {
    let author = Word(change.author.unwrap_or(b"-"));
    match change.date {
        Some(date) => println!(rt; "{at} {path} {} {date} {author}", change.rev)?,
        None => println!(rt; "{at} {path} {} - {author}", change.rev)?,
    }
    Ok(())
}

fn print_last_change<R: Print + AllocGlobal>(
    rt: &R,
    repo: &Repo,
    index: &DumpIndex,
    rev: Rev,
    path: &RelPath,
) -> Result<()> {
    match last_change(rt.alloc(), repo, index, rev, path) {
        Ok(Some(change)) => print_change(rt, rev, path, &change),
        Ok(None) => bail!("no last change of a node"),
        Err(_) => bail!("out of memory"),
    }
}

fn print_place<R: Print>(rt: &R, place: Option<TextPlace>) -> Result<()> {
    if let Some(place) = place {
        println!(rt; "  {} {} {}", place.begin, place.len, place.md5)?;
    }
    Ok(())
}

// Puts the paths of a directory's entries after others.
fn push_entries(
    alloc: Global,
    repo: &Repo,
    node: NodeId,
    path: &RelPath,
    paths: &mut Vec<RelPath>,
) -> Result<()> {
    if let Some(entries) = repo.entries(node) {
        for (name, _) in entries {
            paths.push(path.join(alloc, name)?)?;
        }
    }
    Ok(())
}

// Prints a node, and puts the paths of its entries after others.
fn print_node<R: Print + AllocGlobal>(
    rt: &R,
    repo: &Repo,
    index: &DumpIndex,
    rev: Rev,
    path: &RelPath,
    paths: &mut Vec<RelPath>,
) -> Result<()> {
    let Some(node) = repo.lookup(rev, path) else {
        bail!("no node at an entry")
    };
    print_last_change(rt, repo, index, rev, path)?;
    print_place(rt, place_of(repo, index, node))?;
    push_entries(rt.alloc(), repo, node, path, paths)
}

fn print_revision<R: Print + AllocGlobal>(
    rt: &R,
    repo: &Repo,
    index: &DumpIndex,
    rev: Rev,
) -> Result<()> {
    let mut paths = Vec::new(rt.alloc());
    paths.push(RelPath::root(rt.alloc()))?;
    for _ in 0..u64::MAX {
        let Some(path) = paths.pop() else {
            return Ok(());
        };
        print_node(rt, repo, index, rev, &path, &mut paths)?;
    }
    Ok(())
}

fn load<I: Read + Drop>(alloc: Global, input: I) -> Result<(Repo, Option<DumpIndex>)> {
    let reader = Reader::new(alloc, input, Limits::default(), Texts::Sha1)?;
    let mut loader = Loader::new(alloc, reader.with_index(), Repo::new(alloc)?);
    loader.load_all()?;
    Ok(loader.into_parts())
}

fn print_all<R: Print + AllocGlobal>(rt: &R, repo: &Repo, index: &DumpIndex) -> Result<()> {
    for rev in 0..=repo.latest().0 {
        print_revision(rt, repo, index, Rev(rev))?;
    }
    Ok(())
}

/// Prints the last changes of a dump.
pub(crate) fn print<R: Print + AllocGlobal, I: Read + Drop>(rt: &R, input: I) -> Result<()> {
    let (repo, index) = load(rt.alloc(), input)?;
    match &index {
        Some(index) => print_all(rt, &repo, index),
        None => bail!("no index"),
    }
}
