//! Histories, loaded and printed.

use anyhow::Result;
use std::alloc::Global;
use std::io::Read;
use svn_dump::{Limits, Reader, Texts};
use svn_editor::Word;
use svn_history::{LoadFault, Loader};
use svn_repo::Repo;
use svn_types::Rev;
use svn_wc::WorkingCopy;

/// What is held at a time.
pub const LIMITS: Limits = Limits {
    headers: 1 << 16,
    props: 1 << 20,
    text: 1 << 20,
};

/// A loader of a dump into a new repository.
pub fn loader_of<R: Read + Drop>(alloc: Global, input: R, texts: Texts) -> Result<Loader<R>> {
    let reader = Reader::new(alloc, input, LIMITS, texts)?;
    let repo = Repo::new(alloc)?;
    Ok(Loader::new(alloc, reader, repo))
}

/// Loads all revisions that are left.
pub fn load_all<R: Read + Drop>(loader: &mut Loader<R>) -> Result<(), LoadFault> {
    for _ in 0..u64::MAX {
        if loader.next_revision()?.is_none() {
            return Ok(());
        }
    }
    Ok(())
}

/// The tree of a revision, as a checkout is printed.
pub fn tree(alloc: Global, repo: &Repo, rev: u64) -> Result<String> {
    let copy = WorkingCopy::checkout(alloc, repo, Rev(rev))?;
    Ok(format!(in alloc; "{copy}")?)
}

/// The trees of all revisions, one after another.
pub fn trees(alloc: Global, repo: &Repo) -> Result<String> {
    let mut out = String::new(alloc);
    for rev in 0..=repo.latest().0 {
        out.push_str(&tree(alloc, repo, rev)?)?;
    }
    Ok(out)
}

// Where and why a dump isn't loaded further.
fn refusal<R: Read + Drop>(alloc: Global, loader: &Loader<R>, fault: LoadFault) -> Result<String> {
    let begun = loader.records().begun();
    let rev = loader.rev().unwrap_or(Rev(0));
    let path = Word(loader.records().path().unwrap_or(b""));
    Ok(format!(in alloc; "byte {begun} r{} {path}: {fault}\n", rev.0)?)
}

/// The trees of a dump, or why it isn't loaded.
pub fn outcome(alloc: Global, dump: &[u8], texts: Texts) -> Result<String> {
    let mut loader = loader_of(alloc, dump, texts)?;
    match load_all(&mut loader) {
        Ok(()) => trees(alloc, &loader.into_repo()),
        Err(fault) => refusal(alloc, &loader, fault),
    }
}
