//! Deltas that Subversion wrote or takes, and their texts.
use anyhow::Result;
use std::alloc::Global;
use svndiff::{decode, encode};

/// A source, a delta and its text, in hexadecimal.
pub(crate) type Row = (&'static str, &'static str, &'static str);

/// A text of 302 bytes.
const LINES: &str =
    "6c696e652030206f662074686520666972737420746578740a6c696e652031206f662074686520666972737420746578740a6c696e652032206f662074686520666972737420746578740a6c696e652033206f662074686520666972737420746578740a6c696e652034206f662074686520666972737420746578740a6c696e652035206f662074686520666972737420746578740a6c696e652036206f662074686520666972737420746578740a6c696e652037206f662074686520666972737420746578740a6c696e652038206f662074686520666972737420746578740a6c696e652039206f662074686520666972737420746578740a6c696e65203130206f662074686520666972737420746578740a6c696e65203131206f662074686520666972737420746578740a";

/// `svnrdump dump` and `svnadmin dump --deltas` of Subversion 1.14.2 wrote these of real files: an edit, and whole texts.
static WRITTEN: [Row; 4] = [
    (
        LINES,
        "53564e0000822e82280a5300520092008103638041697320616e6f74686572206f6e65206e6f773130206f662074686520666972737420746578740a6c696e65203131206f662074686520666972737420746578740a616e64206f6e65206d6f7265206c696e650a",
        "6c696e652030206f662074686520666972737420746578740a6c696e652031206f662074686520666972737420746578740a6c696e652032206f662074686520666972737420746578740a6c696e65203320697320616e6f74686572206f6e65206e6f770a6c696e652034206f662074686520666972737420746578740a6c696e652035206f662074686520666972737420746578740a6c696e652036206f662074686520666972737420746578740a6c696e652037206f662074686520666972737420746578740a6c696e652038206f662074686520666972737420746578740a6c696e65203130206f662074686520666972737420746578740a6c696e65203131206f662074686520666972737420746578740a616e64206f6e65206d6f7265206c696e650a",
    ),
    ("", "53564e00", ""),
    ("", "53564e000000040104846162630a", "6162630a"),
    (
        "",
        "53564e000000822e03822e80822e6c696e652030206f662074686520666972737420746578740a6c696e652031206f662074686520666972737420746578740a6c696e652032206f662074686520666972737420746578740a6c696e652033206f662074686520666972737420746578740a6c696e652034206f662074686520666972737420746578740a6c696e652035206f662074686520666972737420746578740a6c696e652036206f662074686520666972737420746578740a6c696e652037206f662074686520666972737420746578740a6c696e652038206f662074686520666972737420746578740a6c696e652039206f662074686520666972737420746578740a6c696e65203130206f662074686520666972737420746578740a6c696e65203131206f662074686520666972737420746578740a",
        LINES,
    ),
];

/// Written by hand. `svnadmin load` of Subversion 1.14.2 takes them, and `svnlook cat` prints the text.
static TAKEN: [Row; 10] = [
    // all of the source view
    (
        "30313233343536373839",
        "53564e00000a0a02000a00",
        "30313233343536373839",
    ),
    // new data
    (
        "30313233343536373839",
        "53564e00000003010383616263",
        "616263",
    ),
    // six bytes of the target view from the first, which is all that was made
    (
        "30313233343536373839",
        "53564e00000007030181460061",
        "61616161616161",
    ),
    // a window that makes nothing
    (
        "30313233343536373839",
        "53564e000000000000000003010383616263",
        "616263",
    ),
    // an empty view may be anywhere
    ("30313233343536373839", "53564e006400020102826162", "6162"),
    (
        "30313233343536373839",
        "53564e00ffffffffffffffff7f00020102826162",
        "6162",
    ),
    // views slide forward
    (
        "30313233343536373839",
        "53564e000006030200030004040402000400",
        "30313234353637",
    ),
    // integers with leading zeros
    (
        "30313233343536373839",
        "53564e00800080800003010383616263",
        "616263",
    ),
    // an integer of ten bytes
    (
        "30313233343536373839",
        "53564e00808080808080808080000003010383616263",
        "616263",
    ),
    // a short length in the long form
    (
        "30313233343536373839",
        "53564e0000000302038003616263",
        "616263",
    ),
];

/// The deltas that Subversion wrote.
pub(crate) fn written() -> &'static [Row] {
    &WRITTEN
}

/// Those that it takes.
pub(crate) fn taken() -> &'static [Row] {
    &TAKEN
}

// Whether a delta gives its text over its source.
fn is_decoded(alloc: Global, row: &Row) -> Result<bool> {
    let source = hex::decode(alloc, row.0)?;
    let delta = hex::decode(alloc, row.1)?;
    let text = decode(alloc, source.as_slice(), delta.as_slice(), 302)?;
    Ok(hex::encode(alloc, text.as_slice())?.as_str() == row.2)
}

/// How many of these deltas give another text.
pub(crate) fn decoded_wrongly(alloc: Global, rows: &[Row]) -> Result<usize> {
    let mut others = 0usize;
    for row in rows {
        others = others.saturating_add(usize::from(!is_decoded(alloc, row)?));
    }
    Ok(others)
}

// Whether a whole text is written in the same bytes.
fn is_encoded(alloc: Global, row: &Row) -> Result<bool> {
    let text = hex::decode(alloc, row.2)?;
    let delta = encode(alloc, text.as_slice())?;
    Ok(hex::encode(alloc, delta.as_slice())?.as_str() == row.1)
}

/// How many whole texts Subversion wrote in other bytes.
pub(crate) fn encoded_wrongly(alloc: Global) -> Result<usize> {
    let mut others = 0usize;
    for row in written() {
        if row.0.is_empty() {
            others = others.saturating_add(usize::from(!is_encoded(alloc, row)?));
        }
    }
    Ok(others)
}
