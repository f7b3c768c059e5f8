// The live pools by their serials, linked: each knows its first child and the siblings beside it.
ghost use Rattle.std.specs.Prelude.{◌≡◌, ◌≢◌, ℕ, ◌+◌, ◌<◌, [], length, Some, None, is_some, option_copied, IsSome, IfSome, IfNone, OnOk, OnErr};
ghost use Rattle.svn_serials.specs.Serials.{get};
ghost use Rattle.svn_pool.specs.Faults.{Answers};
ghost use Rattle.svn_pool.specs.Linked.{Changes, IsBeside, IsLeaf, IsLinked, bare, blocks_held, fixed_held, first_of, holder, live_at, next_of, parent_in, place_by, place_in, place_of, sibling_before, standing};
ghost use Rattle.svn_pool.specs.Pools.{parent_of};
ghost use Rattle.svn_pool.specs.Refusals.{fault_if_live};

use crate::fault::PoolFault;
use crate::pool::Pool;
use crate::stock::Stock;
use std::alloc::Allocator;
use std::mem::replace;
use svn_serials::SerialMap;

// A place for one pool.
#[derive(Clone, Copy)]
pub(crate) enum Anchor {
    // The first child of a pool.
    First(u64),
    // The sibling that follows a pool.
    Next(u64),
}

// A live pool, and its first child.
#[derive(Clone, Copy)]
pub(crate) struct Beside {
    pub(crate) serial: u64,
    pub(crate) first: Option<u64>,
}

// A pool with its links. Its children are the first, the one that follows that, and so on, from the newest to the oldest.
#[derive(Drop)]
pub(crate) struct Linked<P> {
    pub(crate) pool: P,
    pub(crate) first: Option<u64>,
    next: Option<u64>,
    // The sibling that this one follows.
    before: Option<u64>,
}

pub(crate) type Live<A> = SerialMap<Linked<Pool<A>>, A>;

// A pool without children and siblings, which is nowhere.
pub(crate) fn unlinked<P>(pool: P) -> Linked<P>
    ensures { result ≡ record { pool = pool; first = None; next = None; before = None } }
{
    Linked {
        pool,
        first: None,
        next: None,
        before: None,
    }
}

pub(crate) fn is_live<A: Allocator + Copy>(pools: &Live<A>, serial: u64) -> bool
    ensures { result ≡ is_some (live_at (bare pools.now) serial) }
{
    pools.get(serial).is_some()
}

pub(crate) fn live_pool<'a, A: Allocator + Copy>(
    pools: &'a Live<A>,
    serial: u64,
) -> Option<&'a Pool<A>>
    ensures { option_copied result ≡ live_at (bare pools.now) serial }
{
    let Some(linked) = pools.get(serial) else {
        return None;
    };
    Some(&linked.pool)
}

// The newest child of a pool.
pub(crate) fn first_child<A: Allocator + Copy>(pools: &Live<A>, parent: u64) -> Option<u64>
    ensures { result ≡ first_of (get pools.now parent) }
{
    let Some(linked) = pools.get(parent) else {
        return None;
    };
    linked.first
}

// Sets the first child of a pool, and returns the one before, if the pool is live.
fn set_first<A: Allocator + Copy>(
    pools: &mut Live<A>,
    serial: u64,
    first: Option<u64>,
) -> Option<Option<u64>>
    ensures live { is_some result ≡ is_some (get pools.old serial) }
    ensures was { IfSome result (λ was. was ≡ first_of (get pools.old serial)) }
    ensures first { IsSome (get pools.old serial) → first_of (get pools.new serial) ≡ first }
    ensures next { next_of (get pools.new serial) ≡ next_of (get pools.old serial) }
    ensures place { place_in (get pools.new serial) ≡ place_in (get pools.old serial) }
    ensures others { (q : ℕ) → q ≢ serial → get pools.new q ≡ get pools.old q }
    ensures pools { bare pools.new ≡ bare pools.old }
{
    let Some(linked) = pools.get_mut(serial) else {
        return None;
    };
    Some(replace(&mut linked.first, first))
}

// Sets the sibling that follows a pool, and returns the pool's first child.
fn set_next<A: Allocator + Copy>(pools: &mut Live<A>, serial: u64, next: Option<u64>) -> Option<u64>
    ensures child { result ≡ first_of (get pools.old serial) }
    ensures next { IsSome (get pools.old serial) → next_of (get pools.new serial) ≡ next }
    ensures first { first_of (get pools.new serial) ≡ first_of (get pools.old serial) }
    ensures place { place_in (get pools.new serial) ≡ place_in (get pools.old serial) }
    ensures others { (q : ℕ) → q ≢ serial → get pools.new q ≡ get pools.old q }
    ensures pools { bare pools.new ≡ bare pools.old }
{
    let Some(linked) = pools.get_mut(serial) else {
        return None;
    };
    linked.next = next;
    linked.first
}

// Where a pool is. The root, which has no parent, is nowhere.
fn place_by(parent: Option<u64>, before: Option<u64>) -> Option<Anchor>
    ensures { result ≡ place_by parent before }
{
    if let Some(before) = before {
        return Some(Anchor::Next(before));
    }
    let Some(parent) = parent else {
        return None;
    };
    Some(Anchor::First(parent))
}

fn sibling_before(place: Anchor) -> Option<u64>
    ensures { result ≡ sibling_before place }
{
    match place {
        Anchor::First(_) => None,
        Anchor::Next(before) => Some(before),
    }
}

// Sets what is at a place, and returns the pool whose link the place is, with its first child.
fn set_standing<A: Allocator + Copy>(
    pools: &mut Live<A>,
    place: Anchor,
    pool: Option<u64>,
) -> Beside
    ensures holder { result.serial ≡ holder place }
    ensures first { IsSome (get pools.old (holder place)) → result.first ≡ first_of (get pools.new (holder place)) }
    ensures here { IsSome (get pools.old (holder place)) → standing pools.new place ≡ pool }
    ensures standing { (x : Anchor) → x ≢ place → standing pools.new x ≡ standing pools.old x }
    ensures places { (c : ℕ) → place_of pools.new c ≡ place_of pools.old c }
    ensures pools { bare pools.new ≡ bare pools.old }
{
    match place {
        Anchor::First(parent) => {
            set_first(pools, parent, pool);
            Beside {
                serial: parent,
                first: pool,
            }
        }
        Anchor::Next(before) => Beside {
            serial: before,
            first: set_next(pools, before, pool),
        },
    }
}

// Sets where a pool is, if there is one: as the first child of its parent, or after a sibling. It returns that pool.
fn move_to<A: Allocator + Copy>(
    pools: &mut Live<A>,
    pool: Option<u64>,
    place: Anchor,
) -> Option<Beside>
    ensures told { IfSome result (λ b. (pool ≡ Some b.serial) × (b.first ≡ first_of (get pools.new b.serial))) }
    ensures moved { (c : ℕ) → pool ≡ Some c → IsSome (get pools.old c) → ((p : ℕ) → place ≡ Anchor.First p → parent_in pools.old c ≡ Some p)
        → place_of pools.new c ≡ Some place }
    ensures others { (c : ℕ) → pool ≢ Some c → place_of pools.new c ≡ place_of pools.old c }
    ensures standing { (x : Anchor) → standing pools.new x ≡ standing pools.old x }
    ensures pools { bare pools.new ≡ bare pools.old }
{
    let Some(serial) = pool else {
        return None;
    };
    let Some(linked) = pools.get_mut(serial) else {
        return None;
    };
    linked.before = sibling_before(place);
    Some(Beside {
        serial,
        first: linked.first,
    })
}

// Adds a child of a pool, before its other children. Its serial is greater than all others. The errors are `Gone` and `Memory`.
pub(crate) fn add_child<A: Allocator + Copy>(
    pools: &mut Live<A>,
    parent: u64,
    serial: u64,
) -> Result<(), PoolFault>
    requires linked { IsLinked pools.old }
    requires fresh { (s : ℕ) → IsSome (live_at (bare pools.old) s) → s < serial }
    ensures answers { Answers (fault_if_live (live_at (bare pools.old) parent) (λ _. None)) result }
    ensures linked { IsLinked pools.new }
    ensures added { OnOk result (Changes (bare pools.old) (bare pools.new) serial (Some (record { parent = Some parent; strings = [] }))) }
    ensures blocks { blocks_held (bare pools.new) ≡ blocks_held (bare pools.old) }
    ensures fixed { fixed_held (bare pools.new) ≡ fixed_held (bare pools.old) }
    ensures refused { OnErr result (bare pools.new ≡ bare pools.old) }
{
    let Some(older) = set_first(pools, parent, Some(serial)) else {
        return Err(PoolFault::Gone);
    };
    let child = Linked {
        pool: Pool::new(Some(parent)),
        first: None,
        next: older,
        before: None,
    };
    let Ok(_) = pools.insert(serial, child) else {
        set_first(pools, parent, older);
        return Err(PoolFault::Memory);
    };
    move_to(pools, older, Anchor::Next(serial));
    Ok(())
}

// Removes a pool without children. Its fixed blocks become spare. It returns the pool that took its place, or else the one whose link
// that place is: its parent or a sibling. Inlined, since `destroy` has no use for what it returns.
#[inline(always)]
pub(crate) fn remove_leaf<A: Allocator + Copy>(
    pools: &mut Live<A>,
    stock: &mut Stock<A>,
    serial: u64,
) -> Option<Beside>
    requires linked { IsLinked pools.old }
    requires leaf { IsLeaf (bare pools.old) serial }
    requires counted { stock.old.used ≡ blocks_held (bare pools.old) }
    ensures root { IfNone result (parent_of (live_at (bare pools.old) serial) ≡ None) }
    ensures beside { IfSome result (λ b. IsBeside (bare pools.old) serial b.serial) }
    ensures first { IfSome result (λ b. b.first ≡ first_of (get pools.new b.serial)) }
    ensures linked { IsLinked pools.new }
    ensures counted { stock.new.used ≡ blocks_held (bare pools.new) }
    ensures fixed { stock.new.spare + fixed_held (bare pools.new) ≡ stock.old.spare + fixed_held (bare pools.old) }
    ensures gone { Changes (bare pools.old) (bare pools.new) serial None }
    ensures fewer { IsSome (live_at (bare pools.old) serial) → length (bare pools.new) + 1 ≡ length (bare pools.old) }
{
    let Some(mut linked) = pools.remove(serial) else {
        return None;
    };
    linked.pool.clear(stock);
    let Some(place) = place_by(linked.pool.parent(), linked.before) else {
        return None;
    };
    let holder = set_standing(pools, place, linked.next);
    let taken = move_to(pools, linked.next, place);
    Some(taken.unwrap_or(holder))
}
