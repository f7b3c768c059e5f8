// What changes one live pool and leaves the others.
ghost use Rattle.std.specs.Prelude.{◌≡◌, ◌+◌, ◌++◌, [], ◌∷◌, true, length, is_some, Some, None, IfSome, OnSome, IfNone, IfOk, IsOk, OnOk, OnErr};
ghost use Rattle.svn_serials.specs.Serials.{get};
ghost use Rattle.svn_pool.specs.Faults.{Answers};
ghost use Rattle.svn_pool.specs.Linked.{Changes, IsLinked, bare, blocks_held, first_of, fixed_held, live_at};
ghost use Rattle.svn_pool.specs.Pools.{parent_of, strings_of_pool};
ghost use Rattle.svn_pool.specs.Refusals.{fault_if_live};
ghost use Rattle.svn_pool.specs.Stores.{needs_none, stored, string_fault};

use crate::fault::PoolFault;
use crate::links::Live;
use crate::stock::Stock;
use std::alloc::Allocator;

// Appends a copy of `bytes` to the strings of a pool.
pub(crate) fn push_onto<A: Allocator + Copy>(
    pools: &mut Live<A>,
    stock: &mut Stock<A>,
    serial: u64,
    bytes: &[u8],
) -> Result<u32, PoolFault>
    requires linked { IsLinked pools.old }
    requires counted { stock.old.used ≡ blocks_held (bare pools.old) }
    ensures linked { IsLinked pools.new }
    ensures counted { stock.new.used ≡ blocks_held (bare pools.new) }
    ensures answers { Answers (fault_if_live (live_at (bare pools.old) serial) (λ e. string_fault stock.old e.strings (length bytes.now))) result }
    ensures served { fault_if_live (live_at (bare pools.old) serial) (λ e. string_fault stock.old e.strings (length bytes.now)) ≡ None
        → needs_none stock.old (strings_of_pool (live_at (bare pools.old) serial)) (length bytes.now) ≡ true → IsOk result }
    ensures place { IfOk result (λ place. place ≡ length (strings_of_pool (live_at (bare pools.old) serial))) }
    ensures pushed { OnOk result (Changes (bare pools.old) (bare pools.new) serial
        (Some (record { parent = parent_of (live_at (bare pools.old) serial); strings = strings_of_pool (live_at (bare pools.old) serial) ++ bytes.now ∷ [] }))) }
    ensures spare { OnOk result (stock.new.spare ≡ (stored stock.old (strings_of_pool (live_at (bare pools.old) serial)) (length bytes.now)).spare) }
    ensures refused { OnErr result (bare pools.new ≡ bare pools.old) }
    ensures refused_stock { OnErr result (stock.new ≡ stock.old) }
{
    let Some(linked) = pools.get_mut(serial) else {
        return Err(PoolFault::Gone);
    };
    linked.pool.push(stock, bytes)
}

// Gives up the strings of a pool, and returns its first child, if the pool is live.
pub(crate) fn empty<A: Allocator + Copy>(
    pools: &mut Live<A>,
    stock: &mut Stock<A>,
    serial: u64,
) -> Option<Option<u64>>
    requires linked { IsLinked pools.old }
    requires counted { stock.old.used ≡ blocks_held (bare pools.old) }
    ensures live { is_some result ≡ is_some (live_at (bare pools.old) serial) }
    ensures first { IfSome result (λ first. first ≡ first_of (get pools.new serial)) }
    ensures linked { IsLinked pools.new }
    ensures counted { stock.new.used ≡ blocks_held (bare pools.new) }
    ensures fixed { stock.new.spare + fixed_held (bare pools.new) ≡ stock.old.spare + fixed_held (bare pools.old) }
    ensures emptied { OnSome result (Changes (bare pools.old) (bare pools.new) serial (Some (record { parent = parent_of (live_at (bare pools.old) serial); strings = [] }))) }
    ensures gone { IfNone result (bare pools.new ≡ bare pools.old) }
    ensures gone_stock { IfNone result (stock.new ≡ stock.old) }
{
    let Some(linked) = pools.get_mut(serial) else {
        return None;
    };
    linked.pool.clear(stock);
    Some(linked.first)
}
