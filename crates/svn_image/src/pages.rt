//! The pages of a database file, in their order.
ghost use Rattle.std.specs.Prelude.{◌≡◌, ◌*◌, ◌≤◌, length};

use crate::fault::ImageFault;
use std::alloc::{AllocError, Global};

/// The bytes of a page, all of which are used.
pub(crate) const PAGE: usize = 4096;

/// A file has no more pages (fileformat2.html, section 1.3.1).
const MAX_PAGES: u32 = 4_294_967_294;

/// The pages before the one at 2^30 bytes, in which SQLite keeps its locks and nothing else (section 1.4).
const BEFORE_LOCKS: u32 = 262_144;

/// The pages so far.
#[derive(Debug, Drop)]
pub(crate) struct Pages {
    bytes: Vec<u8>,
    count: u32,
    ghost sized: { length bytes.items ≡ 4096 * count },
    ghost some: { 4096 ≤ length bytes.items },
}

impl Pages {
    /// An empty page 1, which is written last.
    pub(crate) fn new(alloc: Global) -> Result<Pages, AllocError> {
        Ok(Pages {
            bytes: vec![in alloc; 0u8; PAGE]?,
            count: 1,
        })
    }

    /// How many there are.
    pub(crate) fn count(&self) -> u32 {
        self.count
    }

    fn append(&mut self, page: &[u8]) -> Result<u32, ImageFault>
        requires { length page.now ≡ 4096 }
    {
        if self.count >= MAX_PAGES {
            return Err(ImageFault::TooLarge);
        }
        self.bytes.extend_from_slice(page)?;
        self.count += 1;
        Ok(self.count)
    }

    /// Appends a page, and returns its number. TooLarge, Memory.
    pub(crate) fn push(&mut self, page: &[u8]) -> Result<u32, ImageFault>
        requires { length page.now ≡ 4096 }
    {
        if self.count == BEFORE_LOCKS {
            self.append(&[0; PAGE])?;
        }
        self.append(page)
    }

    /// The whole file, with this page 1.
    pub(crate) fn finish(self, first: &[u8]) -> Vec<u8>
        requires { length first.now ≡ 4096 }
    {
        let mut bytes = self.bytes;
        let (front, _) = bytes.split_at_mut(PAGE);
        front.copy_from_slice(first);
        bytes
    }
}
