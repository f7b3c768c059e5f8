// The map that has the entries of a directory, beside the library's tree map.
use std::alloc::{AllocError, Global};
use std::collections::BTreeMap;
use svn_name_map::NameMap;
use svn_types::Name;

// A step from one number to the next, and how many numbers there are: names in order, which fill runs, and names that halve them.
static ORDERS: [(u64, u64); 3] = [(1, 600), (13, 997), (7, 300)];

#[derive(Drop)]
struct Both {
    map: NameMap<u64>,
    tree: BTreeMap<Name, u64>,
}

fn name_of(alloc: Global, n: u64) -> Result<Name, AllocError> {
    let text = format!(in alloc; "name-{n:04}")?;
    match Name::parse(alloc, text.as_str()) {
        Ok(name) => Ok(name),
        Err(_) => Err(AllocError),
    }
}

// Puts a name in, or takes it out: whether both had the same under it.
fn change(both: &mut Both, name: Name, round: u64) -> Result<bool, AllocError> {
    if round % 3 == 2 {
        return Ok(both.map.remove(&name)? == both.tree.remove(&name));
    }
    let other = name.clone()?;
    Ok(both.map.insert(name, round)? == both.tree.insert(other, round)?)
}

// Whether a name has the same value in both, also where it is set.
fn reads_the_same(both: &mut Both, name: &Name) -> bool {
    let found = both.map.get(name).copied();
    let value = found.unwrap_or(0);
    found == both.tree.get(name).copied() && both.map.set(name, value) == found
}

// Whether both have the same pairs in the same order.
fn are_same(map: &NameMap<u64>, tree: &BTreeMap<Name, u64>) -> bool {
    let mut same = map.len() == tree.len() && map.is_empty() == tree.is_empty();
    for ((name, value), (other, expected)) in map.iter().zip(tree.iter()) {
        same &= name == other && value == expected;
    }
    same
}

fn change_all(both: &mut Both, alloc: Global, order: (u64, u64)) -> Result<bool, AllocError> {
    let (step, count) = order;
    let mut same = true;
    for round in 0..count.saturating_mul(2) {
        let at = round.wrapping_mul(step).checked_rem(count).unwrap_or(0);
        let name = name_of(alloc, at)?;
        same &= reads_the_same(both, &name);
        same &= change(both, name, round)?;
    }
    Ok(same)
}

fn clone_of(both: &Both) -> Result<Both, AllocError> {
    let tree = both.tree.clone()?;
    let map = both.map.clone()?;
    Ok(Both { map, tree })
}

// Whether all calls return the same, and a clone from before them stays as it was.
fn stay_same(both: &mut Both, alloc: Global, order: (u64, u64)) -> Result<bool, AllocError> {
    let kept = clone_of(both)?;
    let same = change_all(both, alloc, order)?;
    Ok(same && are_same(&both.map, &both.tree) && are_same(&kept.map, &kept.tree))
}

// Whether all calls return the same, from empty maps on.
fn agree(alloc: Global, order: (u64, u64)) -> Result<bool, AllocError> {
    let mut both = Both {
        map: NameMap::new(alloc),
        tree: BTreeMap::new(alloc),
    };
    let same = change_all(&mut both, alloc, order)?;
    Ok(stay_same(&mut both, alloc, (order.0.wrapping_add(2), order.1))? && same)
}

#[test]
fn agrees_with_a_tree_map(rt: HostRuntime) {
    for order in &ORDERS {
        assert_eq!(&rt; agree(rt.alloc(), *order), Ok(true));
    }
}
