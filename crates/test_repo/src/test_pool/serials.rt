// The map in which a tree finds its pools, call by call.
use std::alloc::{AllocError, Global};
use std::process::Abort;
use std::test::Fail;
use svn_serials::SerialMap;

#[derive(Clone, Copy)]
enum Call {
    // A serial and its value. The result is the value that it had.
    Insert(u64, u64),
    Get(u64),
    Remove(u64),
    // The greatest serial.
    Newest,
    // How many there are.
    Len,
    Clear,
}

use Call::{Clear, Get, Insert, Len, Newest, Remove};

// Serials that rise and leave some out, one below others, one twice, and ones that are removed at the end and before it.
static CALLS: [(Call, Option<u64>); 32] = [
    (Newest, None),
    (Get(0), None),
    (Remove(0), None),
    (Insert(3, 30), None),
    (Insert(4, 40), None),
    (Insert(9, 90), None),
    (Insert(12, 120), None),
    (Newest, Some(12)),
    (Get(4), Some(40)),
    (Get(5), None),
    (Get(13), None),
    (Insert(6, 60), None),
    (Insert(0, 1), None),
    (Len, Some(6)),
    (Insert(6, 61), Some(60)),
    (Insert(12, 121), Some(120)),
    (Len, Some(6)),
    (Remove(6), Some(61)),
    (Remove(6), None),
    (Get(6), None),
    (Insert(6, 62), None),
    (Get(6), Some(62)),
    (Remove(9), Some(90)),
    (Remove(12), Some(121)),
    (Newest, Some(6)),
    (Get(9), None),
    (Get(0), Some(1)),
    (Len, Some(4)),
    (Clear, None),
    (Len, Some(0)),
    (Newest, None),
    (Insert(2, 20), None),
];

fn answer_of(map: &mut SerialMap<u64, Global>, call: Call) -> Result<Option<u64>, AllocError> {
    match call {
        Insert(serial, value) => map.insert(serial, value),
        Get(serial) => Ok(map.get(serial).copied()),
        Remove(serial) => Ok(map.remove(serial)),
        Newest => Ok(map.newest()),
        Len => Ok(Some(map.len() as u64)),
        Clear => {
            map.clear();
            Ok(None)
        }
    }
}

fn is_answered<R: Abort>(
    rt: &R,
    map: &mut SerialMap<u64, Global>,
    call: Call,
    want: Option<u64>,
) -> Result<(), AllocError> {
    let got = answer_of(map, call)?;
    assert_eq!(rt; got, want);
    Ok(())
}

#[test]
fn finds_what_was_put_in(rt: HostRuntime) -> Result<(), Fail> {
    let mut map = SerialMap::new(rt.alloc());
    for (call, want) in &CALLS {
        is_answered(&rt, &mut map, *call, *want)?;
    }
    Ok(())
}

fn is_kept(serial: u64) -> bool {
    serial % 10 == 3
}

fn thin<R: Abort>(rt: &R, map: &mut SerialMap<u64, Global>, serial: u64) {
    if !is_kept(serial) {
        assert_eq!(rt; map.remove(serial), Some(serial));
    }
}

// Whether a serial has its value if it is kept, and else none.
fn is_found(map: &mut SerialMap<u64, Global>, serial: u64) -> bool {
    let want = if is_kept(serial) { Some(serial) } else { None };
    map.get(serial).copied() == want && map.get_mut(serial).is_some() == is_kept(serial)
}

fn insert_all(map: &mut SerialMap<u64, Global>) -> Result<(), AllocError> {
    for serial in 0..1000 {
        map.insert(serial, serial)?;
    }
    Ok(())
}

fn thin_all<R: Abort>(rt: &R, map: &mut SerialMap<u64, Global>) {
    for serial in 0..1000 {
        thin(rt, map, serial);
    }
}

fn find_all<R: Abort>(rt: &R, map: &mut SerialMap<u64, Global>) {
    for serial in 0..1000 {
        assert!(rt; is_found(map, serial), "serial {serial}");
    }
}

// From the oldest on, nine of ten are removed: the slots of those that are gone go more than once.
#[test]
fn drops_what_is_empty(rt: HostRuntime) -> Result<(), Fail> {
    let mut map = SerialMap::new(rt.alloc());
    insert_all(&mut map)?;
    thin_all(&rt, &mut map);
    find_all(&rt, &mut map);
    assert_eq!(rt; map.len(), 100);
    Ok(())
}
