//! The first checkout of trunk, and of a branch of it, of several revisions: each is tested for truth and crawled.

use crate::dice::Dice;
use crate::digest::Digest;
use crate::library::{commit_all, commit_some, tell_copy};
use crate::source::Source;
use crate::tree::Size;
use anyhow::{Result, bail};
use std::alloc::Global;
use svn_update::{Change, RelPath, Repo, Rev, WorkingCopy};

const FILES: u64 = 40_000;

const REVISIONS: u64 = 7;

const LEAST_TEXT: u64 = 16;

// One percent of all files changes in a revision.
const CHANGED: u64 = 1;

const TRUNK: &str = "trunk";

const BRANCH: &str = "branches/release-1.0";

fn directory(alloc: Global, path: &str) -> Result<Change> {
    Ok(Change::MakeDir {
        path: RelPath::parse(alloc, path)?,
    })
}

// Trunk as it was first.
fn copied(alloc: Global, path: &str) -> Result<Change> {
    Ok(Change::CopyFrom {
        rev: Rev(1),
        source: RelPath::parse(alloc, TRUNK)?,
        path: RelPath::parse(alloc, path)?,
    })
}

fn branch(alloc: Global, repo: &mut Repo) -> Result<()> {
    let above = directory(alloc, "branches")?;
    let copy = copied(alloc, BRANCH)?;
    repo.commit(&[above, copy])?;
    Ok(())
}

// A tree, its branch, and some more revisions.
fn fill(alloc: Global, source: &mut Source, repo: &mut Repo) -> Result<()> {
    commit_all(alloc, source, repo)?;
    branch(alloc, repo)?;
    for _ in 0..REVISIONS {
        commit_some(alloc, source, CHANGED, repo)?;
    }
    Ok(())
}

fn repository(alloc: Global, size: Size) -> Result<Repo> {
    let dice = Dice::new(size.seed, 5);
    let mut source = Source::new(alloc, dice, size.of(FILES), LEAST_TEXT)?;
    let mut repo = Repo::new(alloc)?;
    fill(alloc, &mut source, &mut repo)?;
    Ok(repo)
}

fn tell(alloc: Global, digest: &mut Digest, repo: &Repo, copy: &WorkingCopy) -> Result<()> {
    if copy.check_true(repo).is_err() {
        bail!("a checkout is untrue");
    }
    let report = copy.crawl(alloc)?;
    digest.tell_number(report.len() as u64);
    tell_copy(digest, copy);
    Ok(())
}

// Checks out what is at a path of a revision.
fn check_out(alloc: Global, digest: &mut Digest, repo: &Repo, root: &str, rev: u64) -> Result<()> {
    let root = RelPath::parse(alloc, root)?;
    let copy = WorkingCopy::checkout_at(alloc, repo, &root, Rev(rev))?;
    tell(alloc, digest, repo, &copy)
}

fn check_out_all(alloc: Global, digest: &mut Digest, repo: &Repo) -> Result<()> {
    for rev in 0..REVISIONS {
        check_out(alloc, digest, repo, TRUNK, rev.saturating_add(2))?;
    }
    check_out(alloc, digest, repo, BRANCH, 2)?;
    check_out(alloc, digest, repo, BRANCH, 3)?;
    check_out(alloc, digest, repo, "", 1)
}

/// Makes the repository, and a copy of each revision of trunk, of two of the branch, and of the whole.
pub(crate) fn run(alloc: Global, size: Size) -> Result<Digest> {
    let repo = repository(alloc, size)?;
    let mut digest = Digest::new();
    check_out_all(alloc, &mut digest, &repo)?;
    Ok(digest)
}
