// Where the blocks of a tree come from.
use bumpalo::Bump;
use std::alloc::Allocator;
use std::rc::Rc;

// What blocks are taken from, and go back to. Its memory goes back with the last of them.
pub(crate) type Arena<A> = Rc<Bump<A>, A>;

// As many blocks as pools that lie below one another may need come from an arena that is as small as it can be.
const FEW_BLOCKS: u64 = 64;

// What the arena of the others has for its first blocks, in bytes. It is requested at once, and not touched: an allocator gives a piece
// of this size addresses of its own, and memory as it is written.
const MANY_BYTES: usize = 1 << 26;

#[derive(Drop)]
pub(crate) struct Source<A: Allocator + Copy> {
    alloc: A,
    // The arena of the fixed blocks, once there is one.
    shared: Option<Arena<A>>,
    // The fixed blocks that it was made for.
    asked: u64,
}

impl<A: Allocator + Copy> Source<A> {
    pub(crate) fn new(alloc: A) -> Source<A> {
        Source {
            alloc,
            shared: None,
            asked: 0,
        }
    }

    pub(crate) fn alloc(&self) -> A {
        self.alloc
    }

    // An arena for one block: `None` if the allocation fails.
    pub(crate) fn arena_of_its_own(&self) -> Option<Arena<A>> {
        shared_out(self.alloc, Bump::new(self.alloc))
    }

    // The arena of the fixed blocks, for one more of them: `None` if the allocation fails. For many blocks there is a second one; if that fails,
    // the first goes on.
    pub(crate) fn arena_of_all(&mut self) -> Option<Arena<A>> {
        if self.shared.is_none() {
            self.shared = self.arena_of_its_own();
        }
        if self.asked == FEW_BLOCKS {
            if let Some(arena) = self.arena_of_many() {
                self.shared = Some(arena);
            }
        }
        self.asked = self.asked.saturating_add(1);
        match &self.shared {
            Some(arena) => arena.clone().ok(),
            None => None,
        }
    }

    fn arena_of_many(&self) -> Option<Arena<A>> {
        match Bump::try_with_capacity(self.alloc, MANY_BYTES) {
            Ok(arena) => shared_out(self.alloc, arena),
            Err(_) => None,
        }
    }
}

fn shared_out<A: Allocator + Copy>(alloc: A, arena: Bump<A>) -> Option<Arena<A>> {
    match Rc::new(alloc, arena) {
        Ok(arena) => Some(arena),
        Err(_) => None,
    }
}
