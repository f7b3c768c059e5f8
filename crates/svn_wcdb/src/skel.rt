//! Lists of atoms in Subversion's notation (`skel.h`): atoms in parentheses, with white space between them where it is needed. An atom is a
//! number of bytes, one space and those bytes, or a word that begins with a letter.
ghost use Rattle.std.specs.Prelude.{◌≡◌, ◌<◌, ◌≤◌, length, drop, None, Some, IfSome, MatchOption};
ghost use Rattle.svn_wcdb.specs.Skels.{is_space, goes_on, run_len, after_run, sized, sized_at, begins_word, atom_at, item_at, is_end};

use svn_digits::read_number;

/// A run of bytes of one kind.
#[derive(Clone, Copy, Debug, PartialEq, Eq)]
pub(crate) enum Run {
    /// White space.
    Spaces,
    /// Decimal digits.
    Digits,
    /// Neither white space nor parentheses.
    Word,
}

// Tab, line feed, form feed, carriage return or space.
fn is_space(byte: u8) -> bool
    ensures { result ≡ is_space byte }
{
    byte == 9 || byte == 10 || byte == 12 || byte == 13 || byte == 32
}

fn goes_on(run: Run, byte: u8) -> bool
    ensures { result ≡ goes_on run byte }
{
    match run {
        Run::Spaces => is_space(byte),
        Run::Digits => byte.is_ascii_digit(),
        Run::Word => !(is_space(byte)
            || byte == b'('
            || byte == b')'
            || byte == b'['
            || byte == b']'),
    }
}

// How many bytes of that kind come first.
fn run_len(run: Run, bytes: &[u8]) -> usize
    ensures value { result ≡ run_len run bytes.now }
    ensures within { result ≤ length bytes.now }
{
    let mut len = 0;
    let mut rest = bytes;
    'bytes: while let Some((first, after)) = rest.split_first() {
        if !goes_on(run, *first) {
            return len;
        }
        len += 1;
        rest = after;
    }
    len
}

fn skip_spaces(bytes: &[u8]) -> &[u8]
    ensures value { result.now ≡ after_run Run.Spaces bytes.now }
    ensures shorter { length result.now ≤ length bytes.now }
{
    let (_, rest) = bytes.split_at(run_len(Run::Spaces, bytes));
    rest
}

// One space and so many bytes, and what is after them.
fn cut_sized(len: Option<u64>, bytes: &[u8]) -> Option<(&[u8], &[u8])>
    ensures parts { MatchOption result (sized len bytes.now ≡ None) (λ r. sized len bytes.now ≡ Some (r.0.now, r.1.now)) }
    ensures shorter { IfSome result (λ r. length r.1.now < length bytes.now) }
{
    match (len, bytes) {
        (Some(len), [space, after @ ..]) => {
            if is_space(*space) && len <= after.len() as u64 {
                Some(after.split_at(len as usize))
            } else {
                None
            }
        }
        _ => None,
    }
}

// An atom with its number of bytes, and what is after it.
fn read_sized(bytes: &[u8]) -> Option<(&[u8], &[u8])>
    ensures parts { MatchOption result (sized_at bytes.now ≡ None) (λ r. sized_at bytes.now ≡ Some (r.0.now, r.1.now)) }
    ensures shorter { IfSome result (λ r. length r.1.now < length bytes.now) }
{
    let (digits, rest) = bytes.split_at(run_len(Run::Digits, bytes));
    cut_sized(read_number(digits), rest)
}

fn begins_word(bytes: &[u8]) -> bool
    ensures { result ≡ begins_word bytes.now }
{
    match bytes {
        [first, ..] => first.is_ascii_alphabetic(),
        [] => false,
    }
}

// The atom that the bytes begin with, and the bytes after it.
fn read_atom(bytes: &[u8]) -> Option<(&[u8], &[u8])>
    ensures parts { MatchOption result (atom_at bytes.now ≡ None) (λ r. atom_at bytes.now ≡ Some (r.0.now, r.1.now)) }
    ensures shorter { IfSome result (λ r. length r.1.now < length bytes.now) }
{
    if begins_word(bytes) {
        Some(bytes.split_at(run_len(Run::Word, bytes)))
    } else {
        read_sized(bytes)
    }
}

/// The next atom of a list, and the bytes after it; None where there is none.
pub(crate) fn next_atom(bytes: &[u8]) -> Option<(&[u8], &[u8])>
    ensures parts { MatchOption result (item_at bytes.now ≡ None) (λ r. item_at bytes.now ≡ Some (r.0.now, r.1.now)) }
    ensures shorter { IfSome result (λ r. length r.1.now < length bytes.now) }
{
    read_atom(skip_spaces(bytes))
}

/// Whether a list ends here, and the bytes too.
pub(crate) fn is_end(bytes: &[u8]) -> bool
    ensures { result ≡ is_end bytes.now }
{
    skip_spaces(bytes) == b")".as_slice()
}
