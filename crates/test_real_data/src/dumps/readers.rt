//! Readers that give a few bytes at a time, or fail.

use super::broken::{Whole, ending_of};
use super::history::loader_of;
use anyhow::Result;
use std::alloc::Global;
use std::io;
use std::io::{ErrorKind, Read};
use svn_dump::Texts;

/// A reader of bytes, so many at a time, which fails after so many reads.
#[derive(Drop)]
struct Pieces<'a> {
    left: &'a [u8],
    size: usize,
    reads: usize,
}

impl Read for Pieces<'_> {
    fn read(&mut self, buf: &mut [u8]) -> io::Result<usize> {
        if self.reads == 0 {
            return Err(io::Error::from(ErrorKind::Other));
        }
        self.reads -= 1;
        let count = self.size.min(buf.len()).min(self.left.len());
        let (front, rest) = self.left.split_at(count);
        buf[..count].copy_from_slice(front);
        self.left = rest;
        Ok(count)
    }
}

// A number of reads that no dump here needs.
const ENOUGH: usize = 1 << 40;

// Whether a reader leaves the first revisions of a dump, and all of them just where it doesn't fail.
fn reads_well(alloc: Global, whole: &Whole, reader: Pieces<'_>, fails: bool) -> Result<bool> {
    let Ok(loader) = loader_of(alloc, reader, Texts::Whole) else {
        return Ok(fails);
    };
    let Some(ending) = ending_of(loader) else {
        return Ok(false);
    };
    Ok(ending.is_whole() != fails && whole.is_begun(alloc, &ending)?)
}

/// How many readers of pieces of some size don't leave the whole history.
pub fn pieces_wrongly(alloc: Global, dump: &[u8]) -> Result<usize> {
    let whole = Whole::of(alloc, dump)?;
    let mut others = 0usize;
    for size in 1..40 {
        let reader = Pieces {
            left: dump,
            size,
            reads: ENOUGH,
        };
        if !reads_well(alloc, &whole, reader, false)? {
            others = others.saturating_add(1);
        }
    }
    Ok(others)
}

/// How many readers of pieces of 16 bytes that fail at some read don't leave the revisions before.
pub fn failed_wrongly(alloc: Global, dump: &[u8]) -> Result<usize> {
    let whole = Whole::of(alloc, dump)?;
    let mut others = 0usize;
    for reads in 0..=dump.len() / 16 {
        let reader = Pieces {
            left: dump,
            size: 16,
            reads,
        };
        if !reads_well(alloc, &whole, reader, true)? {
            others = others.saturating_add(1);
        }
    }
    Ok(others)
}
