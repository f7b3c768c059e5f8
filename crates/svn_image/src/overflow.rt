//! What of a payload has no room in its page: a chain of overflow pages (fileformat2.html, section 1.6).
ghost use Rattle.std.specs.Prelude.{◌≡◌, ◌≤◌, length, IfOk};
ghost use Rattle.sqlite_format.specs.Cell.{max_local};

use crate::fault::ImageFault;
use crate::pages::{PAGE, Pages};
use sqlite_format::bytes::put_u32;
use sqlite_format::{Tree, cell};
use std::alloc::Global;

/// The bytes of an overflow page after the number of the next.
const ROOM: usize = PAGE - 4;

// Appends an overflow page.
fn push_link(alloc: Global, pages: &mut Pages, next: u32, bytes: &[u8]) -> Result<u32, ImageFault>
    requires { length bytes.now ≤ 4092 }
{
    let mut page = vec![in alloc; 0u8; PAGE]?;
    put_u32(page.as_mut_slice(), 0, next);
    page[4..4 + bytes.len()].copy_from_slice(bytes);
    pages.push(page.as_slice())
}

// Appends a chain with these bytes, the last page first, so that each can name the next. The number of the first, 0 where there are no bytes.
fn push_chain(alloc: Global, pages: &mut Pages, bytes: &[u8]) -> Result<u32, ImageFault>
    ensures { IfOk result (λ first. length bytes.now ≡ 0 → first ≡ 0) }
{
    let mut next = 0;
    let mut rest = bytes;
    'links: while !rest.is_empty() {
        let (before, last) = rest.split_at((rest.len() - 1) / ROOM * ROOM);
        next = push_link(alloc, pages, next, last)?;
        rest = before;
    }
    Ok(next)
}

/// Appends what of a payload has no room in its page of a tree. The number of the first overflow page, 0 where the payload has room. TooLarge, Memory.
#[tactic(auto, unfolding(sqlite_format::specs::Cell::local_len))]
pub(crate) fn push_rest(
    alloc: Global,
    pages: &mut Pages,
    tree: Tree,
    payload: &[u8],
) -> Result<u32, ImageFault>
    ensures { IfOk result (λ first. length payload.now ≤ max_local tree 4096 → first ≡ 0) }
{
    let local = cell::local(tree, PAGE, payload.len() as u64);
    push_chain(alloc, pages, &payload[local..])
}
