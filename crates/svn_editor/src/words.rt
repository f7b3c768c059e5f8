//! The words of printed lines.
ghost use Rattle.std.specs.Prelude.{◌≡◌, ◌+◌, ◌<◌, ◌≤◌, ◌++◌, Some, true, length, map, take};
ghost use Rattle.std.specs.List.{flat_map, list_all};
ghost use Rattle.std.specs.Str.{IsAscii};
ghost use Rattle.std.specs.Fmt.{DisplaysOnOk, digit_glyph};
ghost use Rattle.svn_editor.specs.Words.{is_shown, escaped, word, path_byte, path_word, token_word, checksum_word};

use crate::token::Token;
use itoa::write_digits;
use std::fmt::Display;
use std::{fmt, str};
use svn_types::{Digest, RelPath};

// How many bytes of a path, or of a word with bytes that are escaped, are printed at a time.
const PIECE: usize = 64;

// How many bytes these are printed as at most.
const MAX_ESCAPED: usize = 3 * PIECE;

// How many bytes a token is printed as at most: `#` and 20 digits.
const MAX_TOKEN: usize = 21;

pub(crate) fn is_shown(byte: u8) -> bool
    ensures { result ≡ is_shown byte }
{
    (33 <= byte) & (byte <= 126) & (byte != b'%') & (byte != b'"')
}

fn hex_digit(digit: u8) -> u8
    requires { digit < 16 }
    ensures value { result ≡ digit_glyph true digit }
    ensures ascii { result < 128 }
{
    if digit < 10 {
        b'0' + digit
    } else {
        b'A' + (digit - 10)
    }
}

// Whether all bytes are printed as they are. It doesn't stop at one that isn't, so that many are tested at a time.
pub(crate) fn are_shown(bytes: &[u8]) -> bool
    ensures { result ≡ list_all is_shown bytes.now }
{
    let mut all = true;
    for byte in bytes {
        all &= is_shown(*byte);
    }
    all
}

// Bytes that are printed as they are, all at once.
fn write_shown<W: fmt::Write>(bytes: &[u8], f: &mut fmt::Formatter<W>) -> fmt::Result
    requires { list_all is_shown bytes.now ≡ true }
    ensures { DisplaysOnOk W.write_str_gives f.old result (Some (flat_map escaped bytes.now)) f.new }
{
    // they are ASCII
    f.write_str(unsafe { str::from_utf8_unchecked(bytes) })
}

// Puts what a byte is printed as after the first bytes of a text, and returns how many they are then.
fn put_byte(byte: u8, text: &mut [u8; 192], len: usize) -> usize
    requires { len + 3 ≤ 192 }
    ensures bounded { result ≤ len + 3 }
    ensures text { take result text.new ≡ take len text.old ++ escaped byte }
    ensures ascii { IsAscii (escaped byte) }
{
    if is_shown(byte) {
        text[len] = byte;
        len + 1
    } else {
        text[len] = b'%';
        text[len + 1] = hex_digit(byte / 16);
        text[len + 2] = hex_digit(byte % 16);
        len + 3
    }
}

// Puts what a part of a word is printed as at the beginning of a text, and returns how many bytes that is.
fn put_escaped(piece: &[u8], text: &mut [u8; 192]) -> usize
    requires { length piece.now ≤ 64 }
    ensures bounded { result ≤ 192 }
    ensures text { take result text.new ≡ flat_map escaped piece.now }
    ensures ascii { IsAscii (flat_map escaped piece.now) }
{
    let mut len = 0;
    for byte in piece {
        len = put_byte(*byte, text, len);
    }
    len
}

// A part of a word is printed by one write.
fn write_piece<W: fmt::Write>(piece: &[u8], f: &mut fmt::Formatter<W>) -> fmt::Result
    requires { length piece.now ≤ 64 }
    ensures { DisplaysOnOk W.write_str_gives f.old result (Some (flat_map escaped piece.now)) f.new }
{
    if are_shown(piece) {
        return write_shown(piece, f);
    }
    let mut text = [0; MAX_ESCAPED];
    let len = put_escaped(piece, &mut text);
    // what bytes are escaped to is ASCII
    f.write_str(unsafe { str::from_utf8_unchecked(&text[..len]) })
}

fn write_pieces<W: fmt::Write>(bytes: &[u8], f: &mut fmt::Formatter<W>) -> fmt::Result
    ensures { DisplaysOnOk W.write_str_gives f.old result (Some (flat_map escaped bytes.now)) f.new }
{
    let mut rest = bytes;
    'rest: while !rest.is_empty() {
        let (piece, behind) = rest.split_at(rest.len().min(PIECE));
        write_piece(piece, f)?;
        rest = behind;
    }
    Ok(())
}

// Most words have no byte that is escaped.
fn write_escaped<W: fmt::Write>(bytes: &[u8], f: &mut fmt::Formatter<W>) -> fmt::Result
    ensures { DisplaysOnOk W.write_str_gives f.old result (Some (flat_map escaped bytes.now)) f.new }
{
    if are_shown(bytes) {
        write_shown(bytes, f)
    } else {
        write_pieces(bytes, f)
    }
}

/// Prints bytes as one word: those from 0x21 to 0x7E but for `%` and `"` as they are, any other as `%` and two upper-case hexadecimal
/// digits, and no bytes at all as `""`.
#[derive(Clone, Copy, Debug)]
pub struct Word<'a>(pub &'a [u8]);

impl fmt::Display for Word<'_> {
    ghost output = { λ w. Some (word w.0.now) };

    fn fmt<W: fmt::Write>(&self, f: &mut fmt::Formatter<W>) -> fmt::Result {
        if self.0.is_empty() {
            f.write_str("\"\"")
        } else {
            write_escaped(self.0, f)
        }
    }
}

// A byte of a path's key as it is printed: a slash where a name ends.
pub(crate) fn path_byte(byte: u8) -> u8
    ensures { result ≡ path_byte byte }
{
    if byte == 1 { b'/' } else { byte }
}

// Puts the text of a part of a key in its place.
fn put_slashes(text: &mut [u8; 64])
    ensures { text.new ≡ map path_byte text.old }
{
    for byte in text.iter_mut() {
        *byte = path_byte(*byte);
    }
}

// A part of a key is printed by one write.
fn write_key_piece<W: fmt::Write>(key: &[u8], f: &mut fmt::Formatter<W>) -> fmt::Result
    requires { length key.now ≤ 64 }
    ensures { DisplaysOnOk W.write_str_gives f.old result (Some (flat_map escaped (map path_byte key.now))) f.new }
{
    // what is after the key is printed as it is, so that all of the array can be tested
    let mut text = [b'/'; PIECE];
    text[..key.len()].copy_from_slice(key);
    put_slashes(&mut text);
    let names = &text[..key.len()];
    if are_shown(&text) {
        write_shown(names, f)
    } else {
        write_piece(names, f)
    }
}

// The names of a path, given its key without the last byte.
fn write_names<W: fmt::Write>(key: &[u8], f: &mut fmt::Formatter<W>) -> fmt::Result
    ensures { DisplaysOnOk W.write_str_gives f.old result (Some (flat_map escaped (map path_byte key.now))) f.new }
{
    let mut rest = key;
    'rest: while !rest.is_empty() {
        let (piece, behind) = rest.split_at(rest.len().min(PIECE));
        write_key_piece(piece, f)?;
        rest = behind;
    }
    Ok(())
}

/// Prints a path as the word of its names joined by `/`, and the root as `.`.
#[derive(Clone, Copy, Debug)]
pub struct PathWord<'a>(pub &'a RelPath);

impl fmt::Display for PathWord<'_> {
    ghost output = { λ w. Some (path_word w.0.now) };

    fn fmt<W: fmt::Write>(&self, f: &mut fmt::Formatter<W>) -> fmt::Result {
        match self.0.key().as_bytes().split_last() {
            Some((_, names)) => write_names(names, f),
            None => f.write_str("."),
        }
    }
}

// The word of a token, at the end of a text that has room for it.
fn token_text(number: u64, text: &mut [u8; 21]) -> &str
    ensures { result.now ≡ token_word number }
{
    let start = write_digits(number, text, MAX_TOKEN) - 1;
    text[start] = b'#';
    // a sign and digits are ASCII
    let all = &text[..];
    unsafe { str::from_utf8_unchecked(&all[start..]) }
}

/// A token is printed as `#` and its number.
impl fmt::Display for Token {
    ghost output = { λ t. Some (token_word t) };

    fn fmt<W: fmt::Write>(&self, f: &mut fmt::Formatter<W>) -> fmt::Result {
        let mut text = [0; MAX_TOKEN];
        f.write_str(token_text(self.0, &mut text))
    }
}

/// Prints a checksum, and `-` where there is none.
#[derive(Clone, Copy, Debug)]
pub struct ChecksumWord(pub Option<Digest>);

impl fmt::Display for ChecksumWord {
    ghost output = { λ w. Some (checksum_word w.0) };

    fn fmt<W: fmt::Write>(&self, f: &mut fmt::Formatter<W>) -> fmt::Result {
        match self.0 {
            Some(digest) => digest.fmt(f),
            None => f.write_str("-"),
        }
    }
}
