//! Words that are appended to others in a text, if no byte of them is escaped: a line built so is printed by one write.
ghost use Rattle.std.specs.Prelude.{◌≡◌, ◌≤◌, ◌++◌, length, map, true, OnOk};
ghost use Rattle.std.specs.List.{flat_map, list_all};
ghost use Rattle.svn_editor.specs.Words.{escaped, is_shown, path_byte, path_word, word};

use crate::words::{are_shown, is_shown, path_byte};
use arrayvec::ArrayString;
use std::fmt::Write;
use std::{fmt, str};
use svn_types::RelPath;

// The longest key of a path that is appended at all, and the longest ones for which smaller arrays suffice.
const MAX_KEY: usize = 512;

const LONG_KEY: usize = 384;

const SHORT_KEY: usize = 64;

// Appends bytes that are printed as they are.
fn push_shown(bytes: &[u8], text: &mut ArrayString<1024>) -> fmt::Result
    requires { list_all is_shown bytes.now ≡ true }
    ensures { OnOk result (text.new.bytes ≡ text.old.bytes ++ flat_map escaped bytes.now) }
{
    // they are ASCII
    text.write_str(unsafe { str::from_utf8_unchecked(bytes) })?;
    Ok(())
}

// Puts the text of a key in its place, and returns whether all bytes are then printed as they are.
#[inline(always)]
fn put_names<const K: usize>(text: &mut [u8; K]) -> bool
    ensures text { text.new ≡ map path_byte text.old }
    ensures shown { result ≡ list_all is_shown (map path_byte text.old) }
{
    let mut all = true;
    for byte in text.iter_mut() {
        let name = path_byte(*byte);
        *byte = name;
        all &= is_shown(name);
    }
    all
}

// Appends the names of a path to a text, given its key without the last byte. All of an array is tested at once, and not byte by
// byte; what is after the key is printed as it is.
#[inline(always)]
fn push_key<const K: usize>(key: &[u8], text: &mut ArrayString<1024>) -> fmt::Result
    requires fits { length key.now ≤ K }
    requires small { K ≤ 512 }
    ensures { OnOk result (text.new.bytes ≡ text.old.bytes ++ flat_map escaped (map path_byte key.now)) }
{
    let mut names = [b'/'; K];
    names[..key.len()].copy_from_slice(key);
    if put_names(&mut names) {
        push_shown(&names[..key.len()], text)
    } else {
        Err(fmt::Error)
    }
}

fn push_names(key: &[u8], text: &mut ArrayString<1024>) -> fmt::Result
    ensures { OnOk result (text.new.bytes ≡ text.old.bytes ++ flat_map escaped (map path_byte key.now)) }
{
    if key.len() <= SHORT_KEY {
        push_key::<SHORT_KEY>(key, text)
    } else if key.len() <= LONG_KEY {
        push_key::<LONG_KEY>(key, text)
    } else if key.len() <= MAX_KEY {
        push_key::<MAX_KEY>(key, text)
    } else {
        Err(fmt::Error)
    }
}

/// Appends the word of a path to a text. Error where there is no room for it, where a byte of it is escaped, and over 512 bytes.
pub fn push_path(path: &RelPath, text: &mut ArrayString<1024>) -> fmt::Result
    ensures { OnOk result (text.new.bytes ≡ text.old.bytes ++ path_word path.now) }
{
    match path.key().as_bytes().split_last() {
        Some((_, names)) => {
            push_names(names, text)?;
            Ok(())
        }
        None => text.write_str("."),
    }
}

/// Appends bytes as one word to a text. Error where there is no room for it, and where a byte of it is escaped.
pub fn push_word(bytes: &[u8], text: &mut ArrayString<1024>) -> fmt::Result
    ensures { OnOk result (text.new.bytes ≡ text.old.bytes ++ word bytes.now) }
{
    if bytes.is_empty() {
        text.write_str("\"\"")
    } else if bytes.len() <= text.remaining_capacity() && are_shown(bytes) {
        push_shown(bytes, text)
    } else {
        Err(fmt::Error)
    }
}
