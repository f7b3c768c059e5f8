// How all pools below one are removed: step by step, or all at once where that is the root.
ghost use Rattle.std.specs.Prelude.{◌≡◌, ℕ, ◌+◌, ◌<◌, ◌≤◌, None, IsSome};
ghost use Rattle.svn_serials.specs.Serials.{get};
ghost use Rattle.svn_pool.specs.Linked.{IsAlone, IsLinked, IsPruned, bare, blocks_held, first_of, fixed_held, live_at};

use crate::links::{Live, first_child, remove_leaf, unlinked};
use crate::pool::Pool;
use crate::stock::Stock;
use std::alloc::Allocator;

// Removes the pools below `top`, where `first` is its first child. It goes down to a pool without children, removes it and
// goes on next to it: at its next sibling, or at its parent where none is left. So each step goes down once or removes one: the
// steps are at most twice the pools that go, and none takes memory. Inlined, since most pools that are destroyed have no children.
#[inline(always)]
pub(crate) fn prune<A: Allocator + Copy>(
    pools: &mut Live<A>,
    stock: &mut Stock<A>,
    top: u64,
    first: Option<u64>,
)
    requires linked { IsLinked pools.old }
    requires live { IsSome (live_at (bare pools.old) top) }
    requires first { first ≡ first_of (get pools.old top) }
    requires counted { stock.old.used ≡ blocks_held (bare pools.old) }
    ensures pruned { IsPruned (bare pools.old) (bare pools.new) top }
    ensures linked { IsLinked pools.new }
    ensures counted { stock.new.used ≡ blocks_held (bare pools.new) }
    ensures fixed { stock.new.spare + fixed_held (bare pools.new) ≡ stock.old.spare + fixed_held (bare pools.old) }
{
    let mut at = top;
    let mut first = first;
    'walk: loop {
        if let Some(child) = first {
            at = child;
            first = first_child(pools, at);
            continue 'walk;
        }
        if at == top {
            return;
        }
        let Some(beside) = remove_leaf(pools, stock, at) else {
            return;
        };
        at = beside.serial;
        first = beside.first;
    }
}

// Removes all pools whose serials are above one, from the newest on. No link is followed, and none is mended.
fn remove_newer<A: Allocator + Copy>(pools: &mut Live<A>, stock: &mut Stock<A>, last: u64)
    requires counted { stock.old.used ≡ blocks_held (bare pools.old) }
    ensures older { (q : ℕ) → q ≤ last → get pools.new q ≡ get pools.old q }
    ensures newer { (q : ℕ) → last < q → get pools.new q ≡ None }
    ensures counted { stock.new.used ≡ blocks_held (bare pools.new) }
    ensures fixed { stock.new.spare + fixed_held (bare pools.new) ≡ stock.old.spare + fixed_held (bare pools.old) }
{
    'newest: while let Some(serial) = pools.newest() {
        if serial <= last {
            return;
        }
        let Some(mut linked) = pools.remove(serial) else {
            return;
        };
        linked.pool.clear(stock);
    }
}

// Empties the root and removes all others: what `prune` would leave of a whole tree. No link is followed, since none is left.
pub(crate) fn leave_root<A: Allocator + Copy>(pools: &mut Live<A>, stock: &mut Stock<A>, root: u64)
    requires live { IsSome (get pools.old root) }
    requires lowest { (q : ℕ) → IsSome (get pools.old q) → root ≤ q }
    requires counted { stock.old.used ≡ blocks_held (bare pools.old) }
    ensures alone { IsAlone pools.new root }
    ensures used { stock.new.used ≡ 0 }
    ensures spare { stock.new.spare ≡ stock.old.spare + fixed_held (bare pools.old) }
{
    remove_newer(pools, stock, root);
    let Some(linked) = pools.get_mut(root) else {
        return;
    };
    linked.pool.clear(stock);
    *linked = unlinked(Pool::new(None));
}
