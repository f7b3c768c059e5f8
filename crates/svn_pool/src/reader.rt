//! The strings of one pool, in order.
ghost use Rattle.std.specs.Prelude.{◌≡◌, [], ◌∷◌, length};
ghost use Rattle.std.specs.Iterator.{at_most};
ghost use Rattle.std.specs.Map.Iter.{TakesFirst, deref};

use crate::framing::{after_first, first};
use crate::page::Page;
use std::alloc::Allocator;
use std::marker::Model;

/// The strings of a pool in the order in which they were pushed, each block read once. A step takes no memory. The tree can't be changed while
/// one is there.
#[derive(Drop)]
pub struct Reader<'a, A: Allocator + Copy> {
    // The pages that are not begun, the newest first.
    pages: Vec<&'a Page<A>, A>,
    // What is left of the page that was begun, and how many strings lie there.
    rest: &'a [u8],
    left: u32,
}

impl<'a, A: Allocator + Copy> Model for Reader<'a, A> {
    ghost use Rattle.std.specs.Prelude.{ℕ, List};
    ghost use Rattle.svn_pool.specs.Frames.{IsFramed};
    ghost use Rattle.svn_pool.specs.Readers.{targets, to_read};

    ghost Value = { List (List ℕ) };

    ghost view = { λ r. to_read r.left r.rest.now (targets r.pages.items) };

    ghost invariant = { λ r. IsFramed r.left r.rest.now };
}

impl<'a, A: Allocator + Copy> Reader<'a, A> {
    ghost use Rattle.svn_pool.specs.Layout.{strings_of};
    ghost use Rattle.svn_pool.specs.Readers.{targets};

    pub(crate) fn new(pages: Vec<&'a Page<A>, A>) -> Reader<'a, A>
        ensures { result ≡ strings_of (targets pages.entry.items) }
    {
        Reader {
            pages,
            rest: &[],
            left: 0,
        }
    }
}

impl<'a, A: Allocator + Copy> Iterator for Reader<'a, A> {
    type Item = &'a [u8];

    ghost next_gives = { TakesFirst deref };

    ghost remaining = { λ s. at_most (length s) };

    fn next(&mut self) -> Option<&'a [u8]> {
        while self.left == 0 {
            let Some(page) = self.pages.pop() else {
                return None;
            };
            self.rest = page.bytes();
            self.left = page.count();
        }
        let string = first(self.rest);
        self.rest = after_first(self.rest);
        self.left -= 1;
        Some(string)
    }

    // The number of strings is not used.
    fn size_hint(&self) -> (usize, Option<usize>) {
        (0, None)
    }
}
