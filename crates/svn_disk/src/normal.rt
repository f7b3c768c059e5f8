//! What a text on disk is in the repository: with keywords that aren't expanded, and the repository's line ends (`svn_subst.h`).
ghost use Rattle.std.specs.Prelude.{◌≡◌, ◌++◌, ◌∷◌, [], ◌<◌, ◌||◌, ℕ, List, true, not, nat_eq, length, codes, replicate, IfOk, OnOk};
ghost use Rattle.std.specs.List.{list_all};
ghost use Rattle.svn_disk.specs.Readings.{Rewrites, IsKeyword, AreEnds, is_end};
ghost use Rattle.svn_disk.specs.Signs.{no_end, no_sign, IsAfterName, Pushes, IsEnded};

use std::alloc::{AllocError, Global};
use svn_types::split_once;

/// The most bytes between the signs of a keyword, with its value.
const LONGEST: usize = 253;

/// Names of keywords: those of a row are names of one.
const NAMES: [&[&str]; 6] = [
    &["LastChangedRevision", "Revision", "Rev"],
    &["LastChangedDate", "Date"],
    &["LastChangedBy", "Author"],
    &["HeadURL", "URL"],
    &["Id"],
    &["Header"],
];

/// Which keywords are expanded.
#[derive(Clone, Copy, Debug)]
pub(crate) enum Keywords<'a> {
    /// Those that the value of `svn:keywords` names.
    Named(&'a [u8]),
    /// Any.
    All,
}

// Whether one of these is a name.
fn has_name(row: &[&str], name: &[u8]) -> bool {
    for it in row {
        if it.as_bytes() == name {
            return true;
        }
    }
    false
}

// Whether one of these is a word of `svn:keywords`, where letters may be large or small.
fn has_word(row: &[&str], word: &[u8]) -> bool {
    for it in row {
        if it.as_bytes().eq_ignore_ascii_case(word) {
            return true;
        }
    }
    false
}

// Whether a word of `svn:keywords` names the same keyword as a name.
fn is_named_by(word: &[u8], name: &[u8]) -> bool {
    if let Some((own, _)) = split_once(word, b'=') {
        return own == name;
    }
    for row in &NAMES {
        if has_name(row, name) && has_word(row, word) {
            return true;
        }
    }
    false
}

// Whether one of the words names the same keyword as a name.
fn is_named(words: &[u8], name: &[u8]) -> bool {
    for word in words.split(|sign| sign.is_ascii_whitespace()) {
        if !word.is_empty() && is_named_by(word, name) {
            return true;
        }
    }
    false
}

// Whether a name is that of a keyword which is expanded.
fn is_keyword(keywords: Keywords<'_>, name: &[u8]) -> bool {
    match keywords {
        Keywords::Named(words) => is_named(words, name),
        Keywords::All => !name.is_empty(),
    }
}

// Whether a byte ends no line.
fn is_in_line(sign: u8) -> bool
    ensures { result ≡ no_end sign }
{
    !matches!(sign, b'\n' | b'\r')
}

// Whether all of it is on one line.
fn is_line(keyword: &[u8]) -> bool
    ensures { result ≡ list_all no_end keyword.now }
{
    keyword.iter().all(|sign| is_in_line(*sign))
}

// The name of a keyword, and what is after it.
fn split_name(keyword: &[u8]) -> (&[u8], &[u8])
    ensures parts { keyword.now ≡ result.0.now ++ result.1.now }
    ensures after { IsAfterName result.1.now }
{
    match split_once(keyword, b':') {
        Some((name, _)) => {
            let at = name.len().min(keyword.len());
            keyword.split_at(at)
        }
        None => (keyword, b""),
    }
}

// Whether what is after a name is a value, or none.
fn is_value(value: &[u8]) -> bool {
    value == b":".as_slice()
        || (value.len() >= 2 && value.starts_with(b": ") && value.ends_with(b" "))
}

// Whether what is after a name is a value of fixed length.
fn is_fixed(value: &[u8]) -> bool
    ensures { result ≡ true → 4 < length value.now }
{
    value.len() > 4 && value.starts_with(b":: ") && (value.ends_with(b" ") || value.ends_with(b"#"))
}

// Writes a keyword with so many blanks in place of its value.
fn push_blanked(out: &mut Vec<u8>, name: &[u8], count: usize) -> Result<(), AllocError>
    ensures { OnOk result (out.new.items ≡ out.old.items ++ (codes "$" ++ name.now ++ codes "::" ++ replicate count 32 ++ codes "$")) }
{
    out.push(b'$')?;
    out.extend_from_slice(name)?;
    out.extend_from_slice(b"::")?;
    'blanks: for _blank in 0..count {
        out.push(b' ')?;
    }
    out.push(b'$')?;
    Ok(())
}

// Writes a keyword without its value.
fn push_name(out: &mut Vec<u8>, name: &[u8]) -> Result<(), AllocError>
    ensures { OnOk result (out.new.items ≡ out.old.items ++ (codes "$" ++ name.now ++ codes "$")) }
{
    out.push(b'$')?;
    out.extend_from_slice(name)?;
    out.push(b'$')?;
    Ok(())
}

// Writes what is between the signs of a keyword without its value, if it is a keyword.
fn push_keyword(
    out: &mut Vec<u8>,
    keywords: Keywords<'_>,
    keyword: &[u8],
) -> Result<bool, AllocError>
    ensures { IfOk result (λ is. list_all no_sign keyword.now ≡ true → Pushes keyword.now out.old.items is out.new.items) }
{
    let (name, value) = split_name(keyword);
    if !is_line(keyword) || keyword.len() > LONGEST || !is_keyword(keywords, name) {
        return Ok(false);
    }
    if is_fixed(value) {
        push_blanked(out, name, value.len() - 2)?;
        return Ok(true);
    }
    if !value.is_empty() && !is_value(value) {
        return Ok(false);
    }
    push_name(out, name)?;
    Ok(true)
}

/// The text without values of keywords.
pub(crate) fn without_values(
    alloc: Global,
    text: &[u8],
    keywords: Keywords<'_>,
) -> Result<Vec<u8>, AllocError>
    ensures { IfOk result (λ out. Rewrites IsKeyword text.now out.items) }
{
    let mut out = Vec::new(alloc);
    let mut rest = text;
    'signs: for _ in 0..text.len() {
        let Some((front, after)) = split_once(rest, b'$') else {
            break 'signs;
        };
        out.extend_from_slice(front)?;
        rest = after;
        if let Some((keyword, after)) = split_once(rest, b'$') {
            if push_keyword(&mut out, keywords, keyword)? {
                rest = after;
                continue 'signs;
            }
        }
        out.push(b'$')?;
    }
    out.extend_from_slice(rest)?;
    Ok(out)
}

// Writes a byte of a text, of which the one before it was written, with line ends as these.
fn push_sign(out: &mut Vec<u8>, before: u8, sign: u8, end: &[u8]) -> Result<(), AllocError>
    ensures { OnOk result ((text : List ℕ) → is_end end.now ≡ true → IsEnded end.now text out.old.items before → IsEnded end.now (text ++ sign ∷ []) out.new.items sign) }
{
    if before == b'\r' && sign == b'\n' {
        return Ok(());
    }
    if is_in_line(sign) {
        out.push(sign)?;
        return Ok(());
    }
    out.extend_from_slice(end)?;
    Ok(())
}

/// The text with all line ends as these.
pub(crate) fn with_line_ends(alloc: Global, text: &[u8], end: &[u8]) -> Result<Vec<u8>, AllocError>
    ensures { IfOk result (λ out. is_end end.now ≡ true → Rewrites AreEnds text.now out.items) }
{
    let mut out = Vec::new(alloc);
    let mut before = b'\n';
    for sign in text {
        push_sign(&mut out, before, *sign, end)?;
        before = *sign;
    }
    Ok(out)
}
