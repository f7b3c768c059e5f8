//! Where each text of an expansion is.

use std::alloc::{AllocError, Global};
use std::collections::BTreeMap;
use svn_types::{Digest, Text};

/// Where a text is.
#[derive(Clone, Copy)]
pub(crate) struct Span {
    /// How many bytes of the expansion are before it.
    pub(crate) begin: u64,
    /// How many it has.
    pub(crate) len: usize,
}

/// Where each text was written first, by its MD5 checksum.
#[derive(Drop)]
pub(crate) struct Spans {
    map: BTreeMap<[u8; 16], Span>,
}

impl Spans {
    /// The empty text alone, which is anywhere.
    pub(crate) fn new(alloc: Global) -> Result<Spans, AllocError> {
        let mut map = BTreeMap::new(alloc);
        map.insert(Digest::of(b"").0, Span { begin: 0, len: 0 })?;
        Ok(Spans { map })
    }

    pub(crate) fn get(&self, sum: Digest) -> Option<Span> {
        self.map.get(&sum.0).copied()
    }

    /// Notes a text that ends after so many bytes of the expansion.
    pub(crate) fn note(&mut self, text: &Text, end: u64) -> Result<(), AllocError> {
        let sum = text.checksum().0;
        if self.map.contains_key(&sum) {
            return Ok(());
        }
        let len = text.as_slice().len();
        let begin = end.saturating_sub(len as u64);
        self.map.insert(sum, Span { begin, len })?;
        Ok(())
    }
}
