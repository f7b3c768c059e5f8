// The worked rows.
use crate::test_pool::call::Answer::{
    Counted, Done, Fault, Nothing, Number, Place, Read, Serial, Text,
};
use crate::test_pool::call::Call::{
    Clear, Count, Counts, Create, Destroy, Get, Push, Root, Strings,
};
use crate::test_pool::call::{Answer, Call};
use svn_pool::PoolFault::{Full, Gone, IsRoot, Memory, TooLong};

// A chain of three pools with a string each. The uppermost is cleared, and gets a child that takes a spare block.
pub(crate) static BRANCH: [(Call, Answer); 20] = [
    (Root, Serial(0)),
    (Create(0), Serial(1)),
    (Create(1), Serial(2)),
    (Create(2), Serial(3)),
    (Push(1, b'a', 1), Place(0)),
    (Push(2, b'b', 1), Place(0)),
    (Push(3, b'c', 1), Place(0)),
    (Counts, Counted(4, 3, 0)),
    (Clear(1), Done),
    (Counts, Counted(2, 0, 3)),
    (Count(1), Number(0)),
    (Get(2, 0), Nothing),
    (Count(2), Nothing),
    (Push(3, b'c', 1), Fault(Gone)),
    (Strings(3), Fault(Gone)),
    (Create(1), Serial(4)),
    (Push(4, b'd', 1), Place(0)),
    (Get(4, 0), Text(b'd', 1)),
    (Get(1, 0), Nothing),
    (Counts, Counted(3, 1, 2)),
];

// What a tree still does after `BRANCH` when each allocation is refused: a string goes into the newest block or a
// spare one, and pools are emptied and destroyed. To read all strings of a pool takes memory.
pub(crate) static EXHAUSTED: [(Call, Answer); 17] = [
    (Push(1, b'e', 8188), Place(0)),
    (Counts, Counted(3, 2, 1)),
    (Get(1, 0), Text(b'e', 8188)),
    (Push(1, b'f', 8189), Fault(Memory)),
    (Push(4, b'g', 8183), Place(1)),
    (Counts, Counted(3, 2, 1)),
    (Push(4, b'h', 0), Place(2)),
    (Counts, Counted(3, 3, 0)),
    (Push(1, b'i', 1), Fault(Memory)),
    (Count(1), Number(1)),
    (Strings(1), Fault(Memory)),
    (Get(4, 1), Text(b'g', 8183)),
    (Destroy(4), Done),
    (Push(1, b'i', 1), Place(1)),
    (Counts, Counted(2, 2, 1)),
    (Clear(0), Done),
    (Counts, Counted(1, 0, 3)),
];

// A short string, the longest that a fixed block holds, and one that has a block of its own.
pub(crate) static LENGTHS: [(Call, Answer); 12] = [
    (Push(0, b'a', 1), Place(0)),
    (Push(0, b'b', 8188), Place(1)),
    (Push(0, b'c', 8189), Place(2)),
    (Counts, Counted(1, 3, 0)),
    (Get(0, 0), Text(b'a', 1)),
    (Get(0, 1), Text(b'b', 8188)),
    (Get(0, 2), Text(b'c', 8189)),
    (Get(0, 3), Nothing),
    (Count(0), Number(3)),
    (Strings(0), Read(3, 16_378)),
    (Clear(0), Done),
    (Counts, Counted(1, 0, 2)),
];

// What is refused after `LENGTHS`, and the longest string of all.
pub(crate) static REFUSALS: [(Call, Answer); 6] = [
    (Push(0, b'd', 1_048_577), Fault(TooLong)),
    (Destroy(0), Fault(IsRoot)),
    (Destroy(1), Fault(Gone)),
    (Counts, Counted(1, 0, 2)),
    (Push(0, b'd', 1_048_576), Place(0)),
    (Get(0, 0), Text(b'd', 1_048_576)),
];

// A block holds two strings of 4,092 bytes, and neither a third nor an empty one beside them.
pub(crate) static HALVES: [(Call, Answer); 6] = [
    (Push(0, b'a', 4092), Place(0)),
    (Counts, Counted(1, 1, 0)),
    (Push(0, b'b', 4092), Place(1)),
    (Counts, Counted(1, 1, 0)),
    (Push(0, b'c', 4092), Place(2)),
    (Counts, Counted(1, 2, 0)),
];

pub(crate) static HALVES_AND_EMPTY: [(Call, Answer); 8] = [
    (Push(0, b'a', 4092), Place(0)),
    (Counts, Counted(1, 1, 0)),
    (Push(0, b'b', 4092), Place(1)),
    (Counts, Counted(1, 1, 0)),
    (Push(0, b'c', 0), Place(2)),
    (Counts, Counted(1, 2, 0)),
    (Get(0, 2), Text(0, 0)),
    (Strings(0), Read(3, 8184)),
];

// Nothing follows a long string in its block, and that block is given back.
pub(crate) static LONG_AND_SHORT: [(Call, Answer); 6] = [
    (Push(0, b'a', 8189), Place(0)),
    (Counts, Counted(1, 1, 0)),
    (Push(0, b'b', 1), Place(1)),
    (Counts, Counted(1, 2, 0)),
    (Clear(0), Done),
    (Counts, Counted(1, 0, 1)),
];

// Pools of a few bytes, to which long strings come one after the other, each when the pool before has gone: its block serves the next.
pub(crate) static ONE_BEHIND_THE_OTHER: [(Call, Answer); 20] = [
    (Create(0), Serial(1)),
    (Create(0), Serial(2)),
    (Create(0), Serial(3)),
    (Push(1, b'a', 8), Place(0)),
    (Push(2, b'b', 8), Place(0)),
    (Push(3, b'c', 8), Place(0)),
    (Counts, Counted(4, 3, 0)),
    (Push(1, b'd', 5000), Place(1)),
    (Destroy(1), Done),
    (Counts, Counted(3, 2, 1)),
    (Push(2, b'e', 5000), Place(1)),
    (Get(2, 0), Text(b'b', 8)),
    (Get(2, 1), Text(b'e', 5000)),
    (Get(3, 0), Text(b'c', 8)),
    (Destroy(2), Done),
    (Push(3, b'f', 5000), Place(1)),
    (Strings(3), Read(2, 5008)),
    (Get(3, 0), Text(b'c', 8)),
    (Get(3, 1), Text(b'f', 5000)),
    (Counts, Counted(2, 1, 2)),
];

// A tree whose root has the last serial.
pub(crate) static LAST_SERIAL: [(Call, Answer); 4] = [
    (Root, Serial(18_446_744_073_709_551_615)),
    (Create(18_446_744_073_709_551_615), Fault(Full)),
    (Create(0), Fault(Gone)),
    (Push(18_446_744_073_709_551_615, b'a', 1), Place(0)),
];
