//! What is large: a million open lists, endless digits, a string of 2^63 bytes, a list of 50,000 numbers, spaces.
use crate::items::read_of;
use std::alloc::Global;
use std::process::Abort;
use std::test::Fail;
use svn_wire::Limits;

const PIECE: usize = 8192;

// A front, what is after it so many times, an end; how deep lists may be; the number of bytes that are written of it, and their end.
#[derive(Clone, Copy)]
struct Row {
    front: &'static str,
    again: &'static str,
    times: usize,
    end: &'static str,
    depth: usize,
    len: usize,
    written: &'static str,
}

static ROWS: &[Row] = &[
    Row {
        front: "",
        again: "( ",
        times: 1_000_000,
        end: "",
        depth: 64,
        len: 25,
        written: "! lists that are too deep",
    },
    Row {
        front: "",
        again: "( ",
        times: 50_000,
        end: "",
        depth: 50_000,
        len: 0,
        written: "",
    },
    Row {
        front: "",
        again: "1",
        times: 1_000_000,
        end: "",
        depth: 64,
        len: 28,
        written: "! a number that is too large",
    },
    Row {
        front: "9223372036854775808:",
        again: "a",
        times: 100_000,
        end: "",
        depth: 64,
        len: 0,
        written: "",
    },
    Row {
        front: "( ",
        again: "7 ",
        times: 50_000,
        end: ") ",
        depth: 1,
        len: 100_004,
        written: "7 7 ) ",
    },
    Row {
        front: "100000:",
        again: "a",
        times: 100_000,
        end: " ",
        depth: 0,
        len: 100_008,
        written: "aaa ",
    },
    Row {
        front: "( ",
        again: "    \n",
        times: 20_000,
        end: ") ",
        depth: 1,
        len: 4,
        written: "( ) ",
    },
];

fn rows() -> &'static [Row] {
    ROWS
}

fn bytes_of(alloc: Global, row: Row) -> Result<Vec<u8>, Fail> {
    let again = row.again.repeat(alloc, row.times)?;
    let mut bytes = Vec::from_slice(alloc, row.front.as_bytes())?;
    bytes.extend_from_slice(again.as_bytes())?;
    bytes.extend_from_slice(row.end.as_bytes())?;
    Ok(bytes)
}

fn written_of(alloc: Global, row: Row) -> Result<Vec<u8>, Fail> {
    let limits = Limits {
        text: u64::MAX,
        depth: row.depth,
        tokens: 2_000_000,
    };
    read_of(alloc, limits, &bytes_of(alloc, row)?, PIECE)
}

// The last bytes, so many of them if there are.
fn end_of(bytes: &[u8], len: usize) -> &[u8] {
    &bytes[bytes.len().saturating_sub(len)..]
}

fn is_written(rt: &impl Abort, alloc: Global, row: &Row) -> Result<(), Fail> {
    let written = written_of(alloc, *row)?;
    assert_eq!(rt; written.len(), row.len);
    let end = end_of(&written, row.written.len());
    assert!(rt; end == row.written.as_bytes(), "{:?}", row.again);
    Ok(())
}

#[test]
fn large_items_cost_what_they_are(rt: HostRuntime) -> Result<(), Fail> {
    for row in rows() {
        is_written(&rt, rt.alloc(), row)?;
    }
    Ok(())
}
