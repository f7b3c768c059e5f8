// The words of a step, with one space between two.
use std::alloc::{AllocError, Global};
use std::test::Fail;
use svn_editor::{Digest, Token};
use svn_types::{RelPath, Rev, Text};

// The checksums of nothing, of `a` and of `abc` (RFC 1321, appendix A.5).
const OF_NOTHING: Digest = Digest([
    0xd4, 0x1d, 0x8c, 0xd9, 0x8f, 0x00, 0xb2, 0x04, 0xe9, 0x80, 0x09, 0x98, 0xec, 0xf8, 0x42, 0x7e,
]);

const OF_A: Digest = Digest([
    0x0c, 0xc1, 0x75, 0xb9, 0xc0, 0xf1, 0xb6, 0xa8, 0x31, 0xc3, 0x99, 0xe2, 0x69, 0x77, 0x26, 0x61,
]);

const OF_ABC: Digest = Digest([
    0x90, 0x01, 0x50, 0x98, 0x3c, 0xd2, 0x4f, 0xb0, 0xd6, 0x96, 0x3f, 0x7d, 0x28, 0xe1, 0x7f, 0x72,
]);

// The word at a place, counted from 0; nothing where there are fewer.
pub(crate) fn word(step: &str, place: usize) -> &str {
    step.split(' ').nth(place).unwrap_or("")
}

// A number, as `1` or `#1`; where there is none, the greatest, which no row means.
pub(crate) fn number(step: &str, place: usize) -> u64 {
    let digits = word(step, place).trim_start_matches('#');
    digits.parse::<u64>().unwrap_or(u64::MAX)
}

pub(crate) fn revision(step: &str, place: usize) -> Rev {
    Rev(number(step, place))
}

pub(crate) fn token(step: &str, place: usize) -> Token {
    Token(number(step, place))
}

// A path; `.` is the root.
pub(crate) fn path(alloc: Global, step: &str, place: usize) -> Result<RelPath, Fail> {
    let text = word(step, place);
    Ok(RelPath::parse(alloc, if text == "." { "" } else { text })?)
}

// That many bytes `x`.
fn long_text(alloc: Global, times: &str) -> Result<Text, AllocError> {
    let long = "x".repeat(alloc, times.parse::<usize>().unwrap_or(0))?;
    Ok(Text::new(long.into_bytes()))
}

fn text_of(alloc: Global, text: &str) -> Result<Text, AllocError> {
    Ok(Text::new(Vec::from_slice(alloc, text.as_bytes())?))
}

// A text; `""` is the empty one, and `x*3` is `xxx`.
pub(crate) fn text(alloc: Global, step: &str, place: usize) -> Result<Text, AllocError> {
    let text = word(step, place);
    if let Some(times) = text.strip_prefix("x*") {
        return long_text(alloc, times);
    }
    text_of(alloc, if text == "\"\"" { "" } else { text })
}

// A text, where there is such a word.
pub(crate) fn value(alloc: Global, step: &str, place: usize) -> Result<Option<Text>, AllocError> {
    if word(step, place).is_empty() {
        return Ok(None);
    }
    Ok(Some(text(alloc, step, place)?))
}

// A checksum: of nothing `E`, of `a` `A`, of `abc` `B`; else none.
pub(crate) fn checksum(step: &str, place: usize) -> Option<Digest> {
    match word(step, place) {
        "E" => Some(OF_NOTHING),
        "A" => Some(OF_A),
        "B" => Some(OF_ABC),
        _ => None,
    }
}
