//! Dumps that are cut off or changed at a byte. Whatever comes of them, the revisions that end before that byte are those of the whole dump.

use super::history::{load_all, loader_of, tree};
use anyhow::Result;
use std::alloc::Global;
use std::io::Read;
use svn_dump::Texts;
use svn_history::Loader;
use svn_repo::Repo;
use svn_types::Rev;

/// What a whole dump is.
#[derive(Drop)]
pub struct Whole {
    trees: Vec<String>,
    // Before how many bytes each revision ends.
    ends: Vec<usize>,
}

// Where the records of each revision end: where those of the next begin.
fn ends_of(alloc: Global, dump: &[u8]) -> Result<Vec<usize>> {
    let mut ends = Vec::new(alloc);
    let mut loader = loader_of(alloc, dump, Texts::Whole)?;
    for _ in 0..dump.len() {
        if loader.next_revision()?.is_none() {
            return Ok(ends);
        }
        ends.push(loader.records().begun() as usize)?;
    }
    Ok(ends)
}

fn trees_of(alloc: Global, dump: &[u8]) -> Result<Vec<String>> {
    let mut loader = loader_of(alloc, dump, Texts::Whole)?;
    load_all(&mut loader)?;
    let repo = loader.into_repo();
    let mut trees = Vec::new(alloc);
    for rev in 0..=repo.latest().0 {
        trees.push(tree(alloc, &repo, rev)?)?;
    }
    Ok(trees)
}

impl Whole {
    /// A dump, which loads.
    pub fn of(alloc: Global, dump: &[u8]) -> Result<Whole> {
        Ok(Whole {
            trees: trees_of(alloc, dump)?,
            ends: ends_of(alloc, dump)?,
        })
    }

    // How many revisions end at a byte or before.
    fn count(&self, at: usize) -> usize {
        self.ends.iter().filter(|end| **end <= at).count()
    }

    // Whether the first revisions are those of the whole dump, as many as that.
    fn begins(&self, alloc: Global, repo: &Repo, count: usize) -> Result<bool> {
        for (rev, wanted) in self.trees.iter().enumerate().take(count) {
            if tree(alloc, repo, rev as u64)? != *wanted {
                return Ok(false);
            }
        }
        Ok(true)
    }

    /// Whether of a dump that is the same up to a byte, what is loaded begins with the revisions that end before.
    pub fn begins_up_to(&self, alloc: Global, ending: &Ending, at: usize) -> Result<bool> {
        let count = self.count(at);
        let there = ending.count();
        if there < count && !ending.ends_at(count) {
            return Ok(false);
        }
        self.begins(alloc, &ending.repo, count.min(there))
    }

    /// Whether what is loaded is the first revisions of the whole dump.
    pub fn is_begun(&self, alloc: Global, ending: &Ending) -> Result<bool> {
        let count = ending.count();
        if count > self.trees.len() {
            return Ok(false);
        }
        self.begins(alloc, &ending.repo, count)
    }
}

/// What is there of a dump that was loaded, or refused.
#[derive(Drop)]
pub struct Ending {
    repo: Repo,
    // The revision in which it was refused, if it was.
    refused: Option<u64>,
}

impl Ending {
    /// Whether nothing was refused.
    pub fn is_whole(&self) -> bool {
        self.refused.is_none()
    }

    // How many revisions are there.
    fn count(&self) -> usize {
        (self.repo.latest().0 as usize).saturating_add(1)
    }

    // Whether so many revisions would be there had the last not been refused: what begins the next one is read before it is committed.
    fn ends_at(&self, count: usize) -> bool {
        let last = self.count();
        last.saturating_add(1) == count && self.refused == Some(last as u64)
    }
}

/// Loads what is left of a dump. None where a refusal doesn't stay one.
pub fn ending_of<R: Read + Drop>(loader: Loader<R>) -> Option<Ending> {
    let mut loader = loader;
    let refused = match load_all(&mut loader) {
        Ok(()) => None,
        Err(fault) => {
            if load_all(&mut loader) != Err(fault) {
                return None;
            }
            Some(loader.rev().unwrap_or(Rev(0)).0)
        }
    };
    let repo = loader.into_repo();
    Some(Ending { repo, refused })
}

// Whether the front of a dump leaves what it should.
fn is_cut_well(alloc: Global, whole: &Whole, front: &[u8]) -> Result<bool> {
    let Ok(loader) = loader_of(alloc, front, Texts::Whole) else {
        return Ok(whole.count(front.len()) == 0);
    };
    let Some(ending) = ending_of(loader) else {
        return Ok(false);
    };
    // where the last record is whole, nothing says that others came after it in this revision
    let is_begun = ending.is_whole() || whole.is_begun(alloc, &ending)?;
    Ok(is_begun && whole.begins_up_to(alloc, &ending, front.len())?)
}

/// How many fronts of a dump don't leave what they should.
pub fn cut_wrongly(alloc: Global, dump: &[u8]) -> Result<usize> {
    let whole = Whole::of(alloc, dump)?;
    let mut others = 0usize;
    for end in 0..dump.len() {
        if !is_cut_well(alloc, &whole, &dump[..end])? {
            others = others.saturating_add(1);
        }
    }
    Ok(others)
}

// Whether a dump that differs in one byte leaves what it should.
fn is_changed_well(alloc: Global, whole: &Whole, dump: &[u8], at: usize) -> Result<bool> {
    let Ok(loader) = loader_of(alloc, dump, Texts::Whole) else {
        return Ok(whole.count(at) == 0);
    };
    let Some(ending) = ending_of(loader) else {
        return Ok(false);
    };
    whole.begins_up_to(alloc, &ending, at)
}

// The values that the byte at a place is changed to.
fn others_of(byte: u8, at: usize) -> [u8; 2] {
    let far = if at % 2 == 0 { b'\n' } else { 0xff };
    [byte ^ 1, far]
}

/// How many changes of a byte of a dump don't leave what they should.
pub fn changed_wrongly(alloc: Global, dump: &[u8]) -> Result<usize> {
    let whole = Whole::of(alloc, dump)?;
    let mut changed = dump.to_vec(alloc)?;
    let mut others = 0usize;
    for (at, byte) in dump.iter().enumerate() {
        for other in others_of(*byte, at) {
            put(&mut changed, at, other);
            if !is_changed_well(alloc, &whole, &changed, at)? {
                others = others.saturating_add(1);
            }
        }
        put(&mut changed, at, *byte);
    }
    Ok(others)
}

fn put(bytes: &mut Vec<u8>, at: usize, byte: u8) {
    if let Some(place) = bytes.get_mut(at) {
        *place = byte;
    }
}
