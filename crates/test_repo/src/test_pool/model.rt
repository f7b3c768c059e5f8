// Pools as a list with a parent each: what the tree is compared with.

// The root and four pools below it.
pub(crate) const POOLS: usize = 5;

// The place of the pool's parent, whether it is live, and whether it has its string.
#[derive(Clone, Copy, Debug)]
pub(crate) struct Plain {
    parent: usize,
    pub(crate) live: bool,
    pub(crate) filled: bool,
}

// Each pool is live and has a string, and is after its parent.
pub(crate) fn planted(parents: [usize; POOLS]) -> [Plain; POOLS] {
    parents.map(|parent| Plain {
        parent,
        live: true,
        filled: true,
    })
}

pub(crate) fn is_live(pools: &[Plain], at: usize) -> bool {
    match pools.get(at) {
        Some(pool) => pool.live,
        None => false,
    }
}

// Takes the pools below one away: those whose parent is that pool, or went before them.
fn remove_beneath(pools: &mut [Plain; POOLS], top: usize) {
    for at in 1..POOLS {
        let parent = pools[at].parent;
        if parent == top || !is_live(pools, parent) {
            pools[at].live = false;
        }
    }
}

pub(crate) fn clear(pools: &mut [Plain; POOLS], top: usize) {
    remove_beneath(pools, top);
    if let Some(pool) = pools.get_mut(top) {
        pool.filled = false;
    }
}

pub(crate) fn destroy(pools: &mut [Plain; POOLS], top: usize) {
    remove_beneath(pools, top);
    if let Some(pool) = pools.get_mut(top) {
        pool.live = false;
    }
}
