// All trees of four pools below the root, emptied in all orders, beside the plain model.
use crate::test_pool::call::{Answer, count, counts, get};
use crate::test_pool::model::{POOLS, Plain, clear, destroy, is_live, planted};
use std::alloc::Global;
use std::test::Fail;
use svn_pool::{PoolFault, PoolId, PoolTree};

// The parents that a number from 0 to 23 encodes: one for the first pool, one of two for the second, and so on.
fn parents(shape: usize) -> [usize; POOLS] {
    [0, 0, shape % 2, shape / 2 % 3, shape / 6 % 4]
}

// The order that a number from 0 to 23 encodes: one of four places, one of the three that are left, and so on.
fn order(number: usize) -> [usize; 4] {
    let mut places = [1usize, 2, 3, 4];
    places.swap(0, number % 4);
    places.swap(1, 1 + number / 4 % 3);
    places.swap(2, 2 + number / 12 % 2);
    places
}

// A pool with that parent, and a string in it.
fn grow(tree: &mut PoolTree<Global>, parent: usize) -> Result<(), PoolFault> {
    let pool = tree.create(PoolId(parent as u64))?;
    tree.push(pool, b"x")?;
    Ok(())
}

// A tree with those parents, a string in each pool.
fn grown(alloc: Global, parents: [usize; POOLS]) -> Result<PoolTree<Global>, PoolFault> {
    let mut tree = PoolTree::new(alloc)?;
    tree.push(PoolId(0), b"x")?;
    for parent in &parents[1..] {
        grow(&mut tree, *parent)?;
    }
    Ok(tree)
}

// Whether the pool of a serial is as the model has it.
fn pool_agrees(tree: &PoolTree<Global>, serial: u64, plain: Plain) -> bool {
    let (number, string) = match (plain.live, plain.filled) {
        (true, true) => (Answer::Number(1), Answer::Text(b'x', 1)),
        (true, false) => (Answer::Number(0), Answer::Nothing),
        (false, _) => (Answer::Nothing, Answer::Nothing),
    };
    count(tree, serial) == number && get(tree, serial, 0) == string
}

// Whether all pools are, and the counts: each block was taken for one pool's string.
fn agrees(tree: &PoolTree<Global>, model: &[Plain; POOLS]) -> bool {
    let mut live = 0u64;
    let mut blocks = 0u64;
    for (plain, serial) in model.iter().zip(0u64..) {
        if !pool_agrees(tree, serial, *plain) {
            return false;
        }
        live = live.wrapping_add(u64::from(plain.live));
        blocks = blocks.wrapping_add(u64::from(plain.live && plain.filled));
    }
    counts(tree) == Answer::Counted(live, blocks, (POOLS as u64).wrapping_sub(blocks))
}

// Clears a pool in both, and returns whether the result is right.
fn clears(tree: &mut PoolTree<Global>, model: &mut [Plain; POOLS], at: usize) -> bool {
    let live = is_live(model, at);
    if live {
        clear(model, at);
    }
    tree.clear(PoolId(at as u64)) == if live { Ok(()) } else { Err(PoolFault::Gone) }
}

fn destroys(tree: &mut PoolTree<Global>, model: &mut [Plain; POOLS], at: usize) -> bool {
    let live = is_live(model, at);
    if live {
        destroy(model, at);
    }
    tree.destroy(PoolId(at as u64)) == if live { Ok(()) } else { Err(PoolFault::Gone) }
}

// Whether the tree goes along with the model where a pool is destroyed or cleared.
fn goes(
    tree: &mut PoolTree<Global>,
    model: &mut [Plain; POOLS],
    at: usize,
    is_destroyed: bool,
) -> bool {
    let right = if is_destroyed {
        destroys(tree, model, at)
    } else {
        clears(tree, model, at)
    };
    right && agrees(tree, model)
}

// The pools in that order, each destroyed where the next bit of `destroyed` is set, and else cleared; then the root
// is cleared.
fn holds(alloc: Global, shape: usize, number: usize, destroyed: usize) -> Result<bool, Fail> {
    let mut tree = grown(alloc, parents(shape))?;
    let mut model = planted(parents(shape));
    let mut bits = destroyed;
    for at in &order(number) {
        if !goes(&mut tree, &mut model, *at, bits % 2 == 1) {
            return Ok(false);
        }
        bits /= 2;
    }
    Ok(goes(&mut tree, &mut model, 0, false))
}

#[test]
fn agrees_with_the_plain_model(rt: HostRuntime) -> Result<(), Fail> {
    for shape in 0..24usize {
        for number in 0..24usize {
            for destroyed in 0..16usize {
                let right = holds(rt.alloc(), shape, number, destroyed)?;
                assert!(rt;
                    right,
                    "shape {shape}, order {number}, destroyed {destroyed}"
                );
            }
        }
    }
    Ok(())
}
