//! What the words of a script mean.
ghost use Rattle.std.specs.Prelude.{◌≡◌, ◌≤◌, ◌∷◌, ◌++◌, [], length, bytes_eq, Some, None, MatchOption, IfSome, OnOk};
ghost use Rattle.svn_script.specs.declared.words.LineFault.TheVariants.{Memory};
ghost use Rattle.svn_script.specs.Reading.{hex_byte, onto, unescaped, bytes_of, path_of, path_of_bytes, prop_name_of, prop_name_of_bytes};
ghost use Rattle.svn_script.specs.Gives.{Gives};

use hex::FromHex;
use std::alloc::{AllocError, Global};
use svn_types::{PathBytesFault, PathFault, PropName, RelPath, Text, split_once};

/// Why a line was not read.
#[derive(Clone, Copy, Debug, PartialEq, Eq)]
pub enum LineFault {
    /// It is no command with just its words, each of its form.
    Bad,
    /// An allocation failed.
    Memory,
}

impl From<AllocError> for LineFault {
    ghost from_gives = { λ _ e. e ≡ Memory };

    fn from(_error: AllocError) -> LineFault {
        LineFault::Memory
    }
}

/// Up to that many bytes of a text are copied without memory.
const FEW: usize = 30;

// The byte of two hexadecimal digits of either case.
fn read_hex(high: u8, low: u8) -> Option<u8>
    ensures { result ≡ hex_byte high low }
{
    match <[u8; 1]>::from_hex([high, low]) {
        Ok(bytes) => Some(bytes[0]),
        Err(_) => None,
    }
}

// The byte of an escape whose percent sign was read, and what is after it.
fn read_escape(behind: &[u8]) -> Option<(u8, &[u8])>
    ensures byte { MatchOption result (unescaped (37 ∷ behind.now) ≡ None) (λ r. unescaped (37 ∷ behind.now) ≡ onto (Some r.0) (unescaped r.1.now)) }
    ensures shorter { IfSome result (λ r. length r.1.now ≤ length behind.now) }
{
    match behind {
        [high, low, rest @ ..] => match read_hex(*high, *low) {
            Some(byte) => Some((byte, rest)),
            None => None,
        },
        _ => None,
    }
}

// A run of bytes without escapes, and the byte of the escape after it.
fn push_run(bytes: &mut Vec<u8>, run: &[u8], byte: u8) -> Result<(), AllocError>
    ensures { OnOk result (bytes.new.items ≡ bytes.old.items ++ (run.now ++ byte ∷ [])) }
{
    bytes.extend_from_slice(run)?;
    bytes.push(byte)?;
    Ok(())
}

// The bytes of a word with escapes.
fn unescape(alloc: Global, word: &[u8]) -> Result<Vec<u8>, LineFault>
    ensures { Gives (λ v. v.items) result (unescaped word.now) }
{
    let mut bytes = Vec::with_capacity(alloc, word.len())?;
    let mut rest = word;
    'escapes: while let Some((plain, behind)) = split_once(rest, b'%') {
        let Some((byte, after)) = read_escape(behind) else {
            return Err(LineFault::Bad);
        };
        push_run(&mut bytes, plain, byte)?;
        rest = after;
    }
    bytes.extend_from_slice(rest)?;
    Ok(bytes)
}

// Whether a word is two quotation marks, which mean no bytes.
fn is_quoted_nothing(word: &[u8]) -> bool
    ensures { result ≡ bytes_eq word.now (34 ∷ 34 ∷ []) }
{
    matches!(word, [b'"', b'"'])
}

// The bytes of a word without escapes, which are in the word itself.
fn plain_bytes(word: &[u8]) -> Option<&[u8]>
    ensures { MatchOption result (bytes_of word.now ≡ unescaped word.now) (λ bytes. bytes_of word.now ≡ Some bytes.now) }
{
    if is_quoted_nothing(word) {
        return Some(b"".as_slice());
    }
    match split_once(word, b'%') {
        Some(_) => None,
        None => Some(word),
    }
}

/// Reads the bytes that a word means.
pub(crate) fn read_bytes(alloc: Global, word: &[u8]) -> Result<Text, LineFault>
    ensures { Gives (λ t. t) result (bytes_of word.now) }
{
    match plain_bytes(word) {
        Some(bytes) => Ok(Text::from_slice(alloc, bytes)?),
        None => Ok(Text::new(unescape(alloc, word)?)),
    }
}

/// Reads the text of a file. A long one keeps its checksum, and lies where its clones share it: so it isn't copied when it is committed.
pub(crate) fn read_text(alloc: Global, word: &[u8]) -> Result<Text, LineFault>
    ensures { Gives (λ t. t) result (bytes_of word.now) }
{
    let text = read_bytes(alloc, word)?;
    if text.len() <= FEW {
        Ok(text)
    } else {
        Ok(text.clone_with_checksum(alloc)?)
    }
}

// Whether bytes are one point.
fn is_point(bytes: &[u8]) -> bool
    ensures { result ≡ bytes_eq bytes.now (46 ∷ []) }
{
    matches!(bytes, [b'.'])
}

// The path that bytes spell: the root is `.` or no bytes.
#[tactic(auto, using(crate::proofs::WordLemmas::reads_path, crate::proofs::WordLemmas::refuses_path))]
fn parse_bytes(alloc: Global, bytes: &[u8]) -> Result<RelPath, LineFault>
    ensures { Gives (λ p. p) result (path_of_bytes bytes.now) }
{
    if is_point(bytes) {
        return Ok(RelPath::root(alloc));
    }
    match RelPath::from_bytes(alloc, bytes) {
        Ok(path) => Ok(path),
        Err(PathBytesFault::Path(PathFault::Memory)) => Err(LineFault::Memory),
        Err(_) => Err(LineFault::Bad),
    }
}

/// Reads a path.
pub(crate) fn read_path(alloc: Global, word: &[u8]) -> Result<RelPath, LineFault>
    ensures { Gives (λ p. p) result (path_of word.now) }
{
    match plain_bytes(word) {
        Some(bytes) => parse_bytes(alloc, bytes),
        None => parse_bytes(alloc, &unescape(alloc, word)?),
    }
}

// The property name that bytes are.
fn parse_prop_name(alloc: Global, bytes: &[u8]) -> Result<PropName, LineFault>
    ensures { Gives (λ n. n) result (prop_name_of_bytes bytes.now) }
{
    match PropName::from_bytes(alloc, bytes) {
        Ok(name) => Ok(name),
        Err(PathFault::Memory) => Err(LineFault::Memory),
        Err(_) => Err(LineFault::Bad),
    }
}

/// Reads the name of a property.
pub(crate) fn read_prop_name(alloc: Global, word: &[u8]) -> Result<PropName, LineFault>
    ensures { Gives (λ n. n) result (prop_name_of word.now) }
{
    match plain_bytes(word) {
        Some(bytes) => parse_prop_name(alloc, bytes),
        None => parse_prop_name(alloc, &unescape(alloc, word)?),
    }
}
