// The bytes of a page: beside its block while they are few, and then in it. So pools that hold little lie close together,
// and the memory of their blocks, which must be ready for more strings, is not touched. Until a block is written it may serve for any
// other that holds as much, and may be exchanged for one whose memory was touched before.
ghost use Rattle.std.specs.Prelude.{◌≡◌, ◌+◌, ◌^◌, ◌<◌, ◌≤◌, ◌++◌, [], length, IfSome};

use crate::owned::Owned;
use crate::source::Arena;
use arrayvec::ArrayVec;
use std::alloc::Allocator;
use std::marker::Model;
use std::mem::swap;

// How many bytes lie beside a block: a path of up to 148 bytes, or a shorter one and a short text.
const FEW: usize = 152;

#[derive(Drop)]
pub(crate) struct Memory<A: Allocator + Copy> {
    few: ArrayVec<u8, FEW>,
    many: Owned<A>,
}

impl<A: Allocator + Copy> Model for Memory<A> {
    ghost use Rattle.std.specs.Prelude.{◌≡◌, ◌⊎◌, ◌++◌, []};
    ghost use Rattle.svn_pool.specs.Memory.{Written};

    ghost Value = { Written };

    ghost view = { λ m. record { cap = m.many.cap; bytes = m.few.items ++ m.many.bytes } };

    ghost invariant = { λ m. (m.few.items ≡ []) ⊎ (m.many.bytes ≡ []) };
}

impl<A: Allocator + Copy> Memory<A> {
    // Room for `cap` bytes, none of it written, or `None` if the allocation fails.
    pub(crate) fn new(arena: Arena<A>, cap: usize) -> Option<Memory<A>>
        requires { cap < 2 ^ 63 }
        ensures { IfSome result (λ m. m ≡ record { cap = cap; bytes = [] }) }
    {
        let many = Owned::new(arena, cap)?;
        Some(Memory {
            few: ArrayVec::new(),
            many,
        })
    }

    pub(crate) fn capacity(&self) -> usize
        ensures { result ≡ self.now.cap }
    {
        self.many.capacity()
    }

    // The bytes that are left.
    pub(crate) fn room(&self) -> usize
        requires { length self.now.bytes ≤ self.now.cap }
        ensures { result + length self.now.bytes ≡ self.now.cap }
    {
        self.many.capacity() - (self.few.len() + self.many.len())
    }

    // The bytes that are written.
    pub(crate) fn bytes(&self) -> &[u8]
        ensures { result.now ≡ self.now.bytes }
    {
        if self.many.is_empty() {
            return self.few.as_slice();
        }
        self.many.bytes()
    }

    // Whether that many bytes more would be the first in the block.
    pub(crate) fn begins_block(&self, more: usize) -> bool {
        self.many.is_empty() && more > self.few.remaining_capacity()
    }

    // Exchanges the blocks, where nothing is written in either and they hold as much: what they hold stays.
    pub(crate) fn exchange(&mut self, other: &mut Memory<A>)
        ensures same { self.new ≡ self.old }
        ensures other { other.new ≡ other.old }
    {
        let are_blank = self.many.is_empty() && other.many.is_empty();
        if are_blank && self.many.capacity() == other.many.capacity() {
            swap(&mut self.many, &mut other.many);
        }
    }

    // Writes bytes after those that are there.
    pub(crate) fn append(&mut self, bytes: &[u8])
        requires { length self.old.bytes + length bytes.now ≤ self.old.cap }
        ensures { self.new ≡ record { cap = self.old.cap; bytes = self.old.bytes ++ bytes.now } }
    {
        if self.many.is_empty() && bytes.len() <= self.few.remaining_capacity() {
            let _fits = self.few.try_extend_from_slice(bytes);
            return;
        }
        if self.few.is_empty() {
            self.many.append(bytes);
            return;
        }
        self.many.append(self.few.as_slice());
        self.few.clear();
        self.many.append(bytes);
    }

    // Gives up all bytes that are written.
    pub(crate) fn reset(&mut self)
        ensures { self.new ≡ record { cap = self.old.cap; bytes = [] } }
    {
        self.few.clear();
        self.many.reset();
    }
}
