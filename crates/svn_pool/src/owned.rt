// A block with what it was taken from, to which it goes back.
ghost use Rattle.std.specs.Prelude.{◌≡◌, ◌+◌, ◌==◌, ◌^◌, ◌<◌, ◌≤◌, ◌++◌, [], length, IfSome};

use crate::block::Block;
use crate::source::Arena;
use bumpalo::Bump;
use std::alloc::Allocator;
use std::marker::Model;

pub(crate) struct Owned<A: Allocator + Copy> {
    block: Block<Bump<A>>,
    arena: Arena<A>,
    cap: usize,
    // The bytes that are written.
    len: usize,
}

impl<A: Allocator + Copy> Model for Owned<A> {
    ghost use Rattle.std.specs.Prelude.{◌≡◌, length};
    ghost use Rattle.svn_pool.specs.Memory.{Written};

    ghost Value = { Written };

    ghost view = { λ o. record { cap = o.cap; bytes = o.block.bytes } };

    ghost invariant = { λ o. (o.block.alloc ≡ o.arena.value) × (o.block.cap ≡ o.cap) × (o.len ≡ length o.block.bytes) };
}

impl<A: Allocator + Copy> Owned<A> {
    // An empty block, or `None` if the allocation fails.
    pub(crate) fn new(arena: Arena<A>, cap: usize) -> Option<Owned<A>>
        requires { cap < 2 ^ 63 }
        ensures { IfSome result (λ o. o ≡ record { cap = cap; bytes = [] }) }
    {
        let block = Block::make(&*arena, cap)?;
        Some(Owned {
            block,
            arena,
            cap,
            len: 0,
        })
    }

    pub(crate) fn capacity(&self) -> usize
        ensures { result ≡ self.now.cap }
    {
        self.cap
    }

    pub(crate) fn len(&self) -> usize
        ensures { result ≡ length self.now.bytes }
    {
        self.len
    }

    pub(crate) fn is_empty(&self) -> bool
        ensures { result ≡ (length self.now.bytes == 0) }
    {
        self.len == 0
    }

    pub(crate) fn bytes(&self) -> &[u8]
        ensures { result.now ≡ self.now.bytes }
    {
        self.block.slice(self.len)
    }

    // Writes bytes after those that are there.
    pub(crate) fn append(&mut self, bytes: &[u8])
        requires { length self.old.bytes + length bytes.now ≤ self.old.cap }
        ensures { self.new ≡ record { cap = self.old.cap; bytes = self.old.bytes ++ bytes.now } }
    {
        self.block.append(self.len, bytes);
        self.len += bytes.len();
    }

    // Gives up all bytes that are written.
    pub(crate) fn reset(&mut self)
        ensures { self.new ≡ record { cap = self.old.cap; bytes = [] } }
    {
        self.block.reset();
        self.len = 0;
    }
}

impl<A: Allocator + Copy> Drop for Owned<A> {
    fn drop(self) {
        let Owned {
            block,
            arena,
            cap,
            len: _,
        } = self;
        block.free(&*arena, cap);
    }
}
