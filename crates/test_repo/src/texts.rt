//! Texts and their checksums. A checksum is kept for up to 14 bytes and for over 30, and is computed again for 15 to 30.
use std::alloc::Global;
use std::convert::AsSlice;
use std::process::Abort;
use std::test::Fail;
use svn_types::{Digest, Sha1Sum, Text};

// A text and the sixteen bytes of its checksum.
type Row = (&'static str, [u8; 16]);

// The examples of RFC 1321.
static ROWS: [Row; 7] = [
    (
        "",
        [
            0xd4, 0x1d, 0x8c, 0xd9, 0x8f, 0x00, 0xb2, 0x04, 0xe9, 0x80, 0x09, 0x98, 0xec, 0xf8,
            0x42, 0x7e,
        ],
    ),
    (
        "a",
        [
            0x0c, 0xc1, 0x75, 0xb9, 0xc0, 0xf1, 0xb6, 0xa8, 0x31, 0xc3, 0x99, 0xe2, 0x69, 0x77,
            0x26, 0x61,
        ],
    ),
    (
        "abc",
        [
            0x90, 0x01, 0x50, 0x98, 0x3c, 0xd2, 0x4f, 0xb0, 0xd6, 0x96, 0x3f, 0x7d, 0x28, 0xe1,
            0x7f, 0x72,
        ],
    ),
    (
        "message digest",
        [
            0xf9, 0x6b, 0x69, 0x7d, 0x7c, 0xb7, 0x93, 0x8d, 0x52, 0x5a, 0x2f, 0x31, 0xaa, 0xf1,
            0x61, 0xd0,
        ],
    ),
    (
        "abcdefghijklmnopqrstuvwxyz",
        [
            0xc3, 0xfc, 0xd3, 0xd7, 0x61, 0x92, 0xe4, 0x00, 0x7d, 0xfb, 0x49, 0x6c, 0xca, 0x67,
            0xe1, 0x3b,
        ],
    ),
    (
        "ABCDEFGHIJKLMNOPQRSTUVWXYZabcdefghijklmnopqrstuvwxyz0123456789",
        [
            0xd1, 0x74, 0xab, 0x98, 0xd2, 0x77, 0xd9, 0xf5, 0xa5, 0x61, 0x1c, 0x2c, 0x9f, 0x41,
            0x9d, 0x9f,
        ],
    ),
    (
        "12345678901234567890123456789012345678901234567890123456789012345678901234567890",
        [
            0x57, 0xed, 0xf4, 0xa2, 0x2b, 0xe3, 0xc9, 0x55, 0xac, 0x49, 0xda, 0x2e, 0x21, 0x07,
            0xb6, 0x7a,
        ],
    ),
];

fn rows() -> &'static [Row] {
    &ROWS
}

fn checksum(row: &Row) -> Digest {
    Digest(row.1)
}

fn text(alloc: Global, bytes: &str) -> Result<Text, Fail> {
    Ok(Text::new(Vec::from_slice(alloc, bytes.as_bytes())?))
}

// Whether a text, and its clone, is of these bytes and this checksum.
fn is_text(text: &Text, bytes: &str, checksum: &Digest) -> Result<bool, Fail> {
    let clone = text.clone()?;
    let is_same = text.as_slice() == bytes.as_bytes() && clone == *text;
    Ok(is_same && text.checksum() == *checksum && clone.checksum() == *checksum)
}

// How a text is made from bytes.
#[derive(Clone, Copy)]
enum Form {
    Plain,
    OfString,
    Summed,
    Kept,
    KeptOfClone,
    KeptAgain,
}

static FORMS: [(Form, &str); 6] = [
    (Form::Plain, "plain"),
    (Form::OfString, "of a string"),
    (Form::Summed, "with its checksum"),
    (Form::Kept, "kept"),
    (Form::KeptOfClone, "of a clone"),
    (Form::KeptAgain, "again"),
];

fn forms() -> &'static [(Form, &'static str)] {
    &FORMS
}

fn summed(alloc: Global, bytes: &str) -> Result<Text, Fail> {
    let bytes = Vec::from_slice(alloc, bytes.as_bytes())?;
    let checksum = Digest::of(&bytes);
    Ok(Text::summed(bytes, checksum)?)
}

fn kept(alloc: Global, text: &Text) -> Result<Text, Fail> {
    Ok(text.clone_with_checksum(alloc)?)
}

fn kept_of_clone(alloc: Global, text: &Text) -> Result<Text, Fail> {
    kept(alloc, &text.clone()?)
}

fn kept_again(alloc: Global, text: &Text) -> Result<Text, Fail> {
    kept(alloc, &kept(alloc, text)?)
}

fn made(alloc: Global, bytes: &str, form: Form) -> Result<Text, Fail> {
    let plain = text(alloc, bytes)?;
    match form {
        Form::Plain => Ok(plain),
        Form::OfString => Ok(Text::from_str(alloc, bytes)?),
        Form::Summed => summed(alloc, bytes),
        Form::Kept => kept(alloc, &plain),
        Form::KeptOfClone => kept_of_clone(alloc, &plain),
        Form::KeptAgain => kept_again(alloc, &plain),
    }
}

fn is_made(alloc: Global, row: &Row, form: Form) -> Result<bool, Fail> {
    let text = made(alloc, row.0, form)?;
    is_text(&text, row.0, &checksum(row))
}

fn is_made_so(rt: &impl Abort, alloc: Global, row: &Row) -> Result<(), Fail> {
    for (form, word) in forms() {
        let is_made = is_made(alloc, row, *form)?;
        assert!(rt; is_made, "{} {word}", row.0);
    }
    Ok(())
}

#[test]
fn a_text_has_its_checksum_whether_it_keeps_it_or_not(rt: HostRuntime) -> Result<(), Fail> {
    for row in rows() {
        is_made_so(&rt, rt.alloc(), row)?;
    }
    Ok(())
}

// What a text keeps that was made to keep its checksum: from 15 to 30 bytes leave no room.
fn kept_of(bytes: &str, checksum: &Digest) -> Option<Digest> {
    if (15..=30).contains(&bytes.len()) {
        None
    } else {
        Some(*checksum)
    }
}

fn kept_in(alloc: Global, bytes: &str, form: Form) -> Result<Option<Digest>, Fail> {
    Ok(made(alloc, bytes, form)?.kept_checksum())
}

fn keeps(rt: &impl Abort, alloc: Global, row: &Row) -> Result<(), Fail> {
    let plain = kept_in(alloc, row.0, Form::Plain)?;
    let kept = kept_in(alloc, row.0, Form::Kept)?;
    let summed = kept_in(alloc, row.0, Form::Summed)?;
    assert!(rt;
        plain.is_none() && kept == kept_of(row.0, &checksum(row)) && summed == kept,
        "{}",
        row.0
    );
    Ok(())
}

#[test]
fn a_checksum_is_kept_where_there_is_room(rt: HostRuntime) -> Result<(), Fail> {
    for row in rows() {
        keeps(&rt, rt.alloc(), row)?;
    }
    Ok(())
}

// Whether bytes are taken with their checksum.
fn is_verified(alloc: Global, bytes: &str, checksum: &Digest) -> Result<bool, Fail> {
    match Text::verified(alloc, bytes.as_bytes(), checksum)? {
        Some(text) => is_text(&text, bytes, checksum),
        None => Ok(false),
    }
}

fn is_refused(alloc: Global, bytes: &str, checksum: &Digest) -> Result<bool, Fail> {
    Ok(Text::verified(alloc, bytes.as_bytes(), checksum)?.is_none())
}

#[test]
fn bytes_are_verified_by_their_checksum(rt: HostRuntime) -> Result<(), Fail> {
    let mut other = Digest([0; 16]);
    for row in rows() {
        let own = checksum(row);
        let is_verified = is_verified(rt.alloc(), row.0, &own)?;
        assert!(rt; is_verified, "{}", row.0);
        let is_refused = is_refused(rt.alloc(), row.0, &other)?;
        assert!(rt; is_refused, "{}", row.0);
        other = own;
    }
    Ok(())
}

// The examples of FIPS 180-4, and its checksum of no bytes.
static SHA1_ROWS: [(&str, &str); 3] = [
    ("", "da39a3ee5e6b4b0d3255bfef95601890afd80709"),
    ("abc", "a9993e364706816aba3e25717850c26c9cd0d89d"),
    (
        "abcdbcdecdefdefgefghfghighijhijkijkljklmklmnlmnomnopnopq",
        "84983e441c3bd26ebaae4aa1f95129e5e54670f1",
    ),
];

fn sha1_rows() -> &'static [(&'static str, &'static str)] {
    &SHA1_ROWS
}

// The SHA-1 checksum of a text, made of what the text lends.
fn sha1_word(alloc: Global, bytes: &str) -> Result<String, Fail> {
    let text = Text::from_str(alloc, bytes)?;
    let sum = Sha1Sum::of(lent(&text));
    Ok(format!(in alloc; "{sum}")?)
}

fn lent<T: AsSlice<u8>>(text: &T) -> &[u8] {
    text.as_slice()
}

fn is_sha1_word(rt: &impl Abort, alloc: Global, row: &(&str, &str)) -> Result<(), Fail> {
    let found = sha1_word(alloc, row.0)?;
    assert_eq!(rt; found.as_str(), row.1);
    Ok(())
}

#[test]
fn sha1_checksums_are_printed(rt: HostRuntime) -> Result<(), Fail> {
    for row in sha1_rows() {
        is_sha1_word(&rt, rt.alloc(), row)?;
    }
    Ok(())
}
