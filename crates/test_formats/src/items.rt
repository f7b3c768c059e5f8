//! Items of a stream in pieces of several sizes: what Subversion 1.14.2 and its server write, and bytes that are no item.
use std::alloc::Global;
use std::process::Abort;
use std::test::Fail;
use svn_wire::{ItemStream, Limits, push_item};

const LIMITS: Limits = Limits {
    text: 40,
    depth: 4,
    tokens: 20,
};

// Bytes, and what is read of them: each item as it is written, and last the fault of one that is malformed.
type Row = (&'static str, &'static str);

static ROWS: &[Row] = &[
    // recorded
    ("( get-latest-rev ( ) ) ", "( get-latest-rev ( ) ) "),
    (
        "( success ( ( ) 0: ) ) ( success ( 10 ) ) ",
        "( success ( ( ) 0: ) ) ( success ( 10 ) ) ",
    ),
    ("( EXTERNAL ( 0: ) ) ", "( EXTERNAL ( 0: ) ) "),
    ("( success ( dir ) ) done ", "( success ( dir ) ) done "),
    (
        "( set-path ( 0: 3 true ( ) infinity ) ) ",
        "( set-path ( 0: 3 true ( ) infinity ) ) ",
    ),
    (
        "( failure ( ( 160013 28:Path '/trunk/nope' not found 0: 0 ) ) ) ",
        "( failure ( ( 160013 28:Path '/trunk/nope' not found 0: 0 ) ) ) ",
    ),
    (
        "( change-dir-prop ( 2:d0 10:svn:ignore ( 4:*.o\n ) ) ) ",
        "( change-dir-prop ( 2:d0 10:svn:ignore ( 4:*.o\n ) ) ) ",
    ),
    // one token
    ("0 ", "0 "),
    ("18446744073709551615 ", "18446744073709551615 "),
    ("00000000000000000007 ", "7 "),
    ("a-Z9 ", "a-Z9 "),
    ("abcdefghijklmnopqrstuvwx ", "abcdefghijklmnopqrstuvwx "),
    ("0: ", "0: "),
    ("3:) ( ", "3:) ( "),
    (
        "40:0123456789012345678901234567890123456789 ",
        "40:0123456789012345678901234567890123456789 ",
    ),
    // more space, and line feeds
    ("  \n( \n 7\n)\n", "( 7 ) "),
    // not whole
    ("", ""),
    ("( 7 ) (", "( 7 ) "),
    ("( ( 7 ) ", ""),
    ("7", ""),
    ("done", ""),
    ("4:abc", ""),
    ("4:abcd", ""),
    ("4:", ""),
    // as deep and as long as may be
    ("( ( ( ( 1 ) ) ) ) ", "( ( ( ( 1 ) ) ) ) "),
    (
        "( 1 2 3 4 5 6 7 8 9 10 11 12 13 14 15 16 17 18 ) ",
        "( 1 2 3 4 5 6 7 8 9 10 11 12 13 14 15 16 17 18 ) ",
    ),
    // each fault
    ("( -1 ) ", "! a byte that begins no item"),
    ("7 \u{e9}", "7 ! a byte that begins no item"),
    ("(2 ) ", "! an item without a space after it"),
    ("( )) ", "! an item without a space after it"),
    ("2:abc ", "! an item without a space after it"),
    ("7\t", "! an item without a space after it"),
    ("18446744073709551616 ", "! a number that is too large"),
    ("000000000000000000007 ", "! a number that is too large"),
    ("abcdefghijklmnopqrstuvwxy ", "! a word that is too long"),
    ("41:", "! a string that is too long"),
    ("9223372036854775808:", "! a string that is too long"),
    ("( ( ( ( ( ", "! lists that are too deep"),
    (") ", "! the end of a list that hasn't begun"),
    ("( ) ) ", "( ) ! the end of a list that hasn't begun"),
    (
        "( 1 2 3 4 5 6 7 8 9 10 11 12 13 14 15 16 17 18 19 ) ",
        "! an item of too many parts",
    ),
    // the first of two
    ("( ( ( ( ( - ", "! lists that are too deep"),
    ("- ) ", "! a byte that begins no item"),
];

fn rows() -> &'static [Row] {
    ROWS
}

/// Writes the items that came, and why there is no more; whether one is malformed.
pub(crate) fn push_items(
    alloc: Global,
    stream: &mut ItemStream,
    out: &mut Vec<u8>,
) -> Result<bool, Fail> {
    for _ in 0..u64::MAX {
        match stream.next_item() {
            Ok(Some(item)) => push_item(out, &item)?,
            Ok(None) => return Ok(false),
            Err(fault) => {
                let fault = format!(in alloc; "! {fault}")?;
                out.extend_from_slice(fault.as_bytes())?;
                return Ok(true);
            }
        }
    }
    Ok(false)
}

/// What is read of bytes that come in pieces of that size.
pub(crate) fn read_of(
    alloc: Global,
    limits: Limits,
    bytes: &[u8],
    size: usize,
) -> Result<Vec<u8>, Fail> {
    let mut stream = ItemStream::new(alloc, limits);
    let mut out = Vec::new(alloc);
    for piece in bytes.chunks(size.max(1)) {
        stream.feed(piece)?;
        if push_items(alloc, &mut stream, &mut out)? {
            return Ok(out);
        }
    }
    Ok(out)
}

fn is_read(rt: &impl Abort, alloc: Global, row: &Row, size: usize) -> Result<(), Fail> {
    let out = read_of(alloc, LIMITS, row.0.as_bytes(), size)?;
    assert!(rt;
        out.as_slice() == row.1.as_bytes(),
        "{:?} in pieces of {size}",
        row.0
    );
    Ok(())
}

fn are_read(rt: &impl Abort, alloc: Global, size: usize) -> Result<(), Fail> {
    for row in rows() {
        is_read(rt, alloc, row, size)?;
    }
    Ok(())
}

#[test]
fn items_are_read_in_any_pieces(rt: HostRuntime) -> Result<(), Fail> {
    for size in &[1, 2, 3, 7, 1000] {
        are_read(&rt, rt.alloc(), *size)?;
    }
    Ok(())
}
