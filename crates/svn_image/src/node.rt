//! A page of a tree.
ghost use Rattle.std.specs.Prelude.{◌≡◌, ◌^◌, ◌<◌, ◌≤◌, length};

use crate::fault::ImageFault;
use crate::pages::{PAGE, Pages};
use sqlite_format::bytes::{get_u16, put_u32};
use sqlite_format::{Kind, page};
use std::alloc::{AllocError, Global};
use std::mem;

/// A page of a tree that is filled in order.
#[derive(Debug, Drop)]
pub(crate) struct NewNode {
    bytes: Vec<u8>,
    kind: Kind,
    // How many bytes are before the page's own header.
    header: usize,
    ghost sized: { length bytes.items ≡ 4096 },
    ghost low: { header ≤ 100 },
}

impl NewNode {
    /// A page without cells, whose own header begins after so many bytes.
    pub(crate) fn new(alloc: Global, kind: Kind, header: usize) -> Result<NewNode, AllocError>
        requires { header ≤ 100 }
    {
        let mut bytes = vec![in alloc; 0u8; PAGE]?;
        page::clear(bytes.as_mut_slice(), header, kind, 0);
        Ok(NewNode {
            bytes,
            kind,
            header,
        })
    }

    // How many cells it has.
    fn count(&self) -> usize
        ensures { result < 2 ^ 16 }
    {
        get_u16(&self.bytes, self.header + 3)
    }

    /// How many bytes are free for cells, each with its pointer of two bytes.
    pub(crate) fn room(&self) -> usize {
        let taken = page::pointers(self.kind.leaf, self.header) + 2 * self.count();
        page::content(&self.bytes, self.header).saturating_sub(taken)
    }

    /// Adds a cell after the others. NoRoom where it has none.
    pub(crate) fn push(&mut self, cell: &[u8]) -> Result<(), ImageFault> {
        let at = self.count();
        if page::insert_cell(self.bytes.as_mut_slice(), self.header, self.kind, at, cell) {
            Ok(())
        } else {
            Err(ImageFault::NoRoom)
        }
    }

    /// Its bytes. A page that is no leaf has this child after those of its cells.
    pub(crate) fn finish(self, right: u32) -> Vec<u8>
        ensures { length result.items ≡ 4096 }
    {
        let mut bytes = self.bytes;
        if !self.kind.leaf {
            put_u32(bytes.as_mut_slice(), self.header + 8, right);
        }
        bytes
    }

    /// Appends its bytes to the pages, and is without cells again. Returns the page's number. TooLarge, Memory.
    pub(crate) fn flush(
        &mut self,
        alloc: Global,
        pages: &mut Pages,
        right: u32,
    ) -> Result<u32, ImageFault> {
        let empty = NewNode::new(alloc, self.kind, self.header)?;
        let full = mem::replace(self, empty);
        pages.push(&full.finish(right))
    }
}
