//! The large update, with the driver in a thread of its own: half of all files are changed, or a directory of thousands comes or goes, with texts in
//! place and late.

use crate::dice::Dice;
use crate::digest::Digest;
use crate::library::{commit_all, commit_some, put, tell_copy};
use crate::source::Source;
use crate::tree::Size;
use anyhow::{Result, bail};
use std::alloc::Global;
use std::sync::Wait;
use std::thread::Threads;
use svn_update::{Change, NoGate, Options, RelPath, Repo, Rev, WorkingCopy, update};

const FILES: u64 = 16_000;

const ADDED: u64 = 4_000;

const LEAST_TEXT: u64 = 60;

// Half of all files change in a revision.
const CHANGED: u64 = 50;

// Revisions 2 to 4 change files, 5 adds a directory.
const CHANGES: u64 = 3;

// The revisions to which the copy goes one after the other, from the first on: each pair of them once.
static TARGETS: [u64; 20] = [2, 3, 4, 5, 1, 3, 5, 2, 4, 1, 4, 2, 5, 3, 1, 5, 4, 3, 2, 1];

fn targets() -> &'static [u64] {
    &TARGETS
}

fn directory(alloc: Global) -> Result<Change> {
    Ok(Change::MakeDir {
        path: RelPath::parse(alloc, "trunk/newly-added")?,
    })
}

fn file(alloc: Global, source: &mut Source, number: u64) -> Result<Change> {
    let path = format!(in alloc; "newly-added/GeneratedSource{number:05}.java")?;
    let text = source.texts.draw(&mut source.dice, LEAST_TEXT);
    put(alloc, "trunk", path.as_str(), text)
}

// A directory of many files.
fn add(alloc: Global, source: &mut Source, count: u64, changes: &mut Vec<Change>) -> Result<()> {
    changes.push(directory(alloc)?)?;
    for number in 0..count {
        changes.push(file(alloc, source, number)?)?;
    }
    Ok(())
}

fn commit_added(alloc: Global, source: &mut Source, count: u64, repo: &mut Repo) -> Result<()> {
    let mut changes = Vec::new(alloc);
    add(alloc, source, count, &mut changes)?;
    repo.commit(&changes)?;
    Ok(())
}

fn fill(alloc: Global, source: &mut Source, added: u64, repo: &mut Repo) -> Result<()> {
    commit_all(alloc, source, repo)?;
    for _ in 0..CHANGES {
        commit_some(alloc, source, CHANGED, repo)?;
    }
    commit_added(alloc, source, added, repo)
}

fn repository(alloc: Global, size: Size) -> Result<Repo> {
    let dice = Dice::new(size.seed, 6);
    let mut source = Source::new(alloc, dice, size.of(FILES), LEAST_TEXT)?;
    let mut repo = Repo::new(alloc)?;
    fill(alloc, &mut source, size.of(ADDED), &mut repo)?;
    Ok(repo)
}

// Brings the copy to a revision.
fn go_to<R: Threads + Wait + Sync>(
    rt: &R,
    alloc: Global,
    repo: &Repo,
    copy: &mut WorkingCopy,
    rev: u64,
    late_texts: bool,
) -> Result<()> {
    let options = Options {
        capacity: 64,
        cancel_after: None,
        late_texts,
    };
    if copy.check_true(repo).is_err() {
        bail!("the copy is untrue");
    }
    let (_outcome, _passed) = update(rt, alloc, repo, copy, Rev(rev), options, &NoGate)?;
    Ok(())
}

// Every second time with texts late.
fn go_to_all<R: Threads + Wait + Sync>(
    rt: &R,
    alloc: Global,
    repo: &Repo,
    copy: &mut WorkingCopy,
    digest: &mut Digest,
) -> Result<()> {
    let mut late_texts = false;
    for rev in targets() {
        go_to(rt, alloc, repo, copy, *rev, late_texts)?;
        tell_copy(digest, copy);
        late_texts = !late_texts;
    }
    Ok(())
}

fn first_copy(alloc: Global, repo: &Repo) -> Result<WorkingCopy> {
    let trunk = RelPath::parse(alloc, "trunk")?;
    Ok(WorkingCopy::checkout_at(alloc, repo, &trunk, Rev(1))?)
}

/// Makes the repository, and a copy that goes from revision to revision.
pub(crate) fn run<R: Threads + Wait + Sync>(rt: &R, alloc: Global, size: Size) -> Result<Digest> {
    let repo = repository(alloc, size)?;
    let mut copy = first_copy(alloc, &repo)?;
    let mut digest = Digest::new();
    go_to_all(rt, alloc, &repo, &mut copy, &mut digest)?;
    Ok(digest)
}
