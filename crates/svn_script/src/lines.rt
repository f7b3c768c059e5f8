//! A script as bytes, and its lines and words.
ghost use Rattle.std.specs.Prelude.{◌≡◌, ℕ, ◌<◌, ◌≤◌, ◌≢◌, ◌∷◌, [], length, IfSome, IfOk, IfErr, MatchOption};
ghost use Rattle.std.specs.Io.KnownBytes.{IsAtEnd};
ghost use Rattle.svn_script.specs.Reading.{without_return, words_of};

use crate::fault::ScriptFault;
use std::alloc::Global;
use std::io::Read;
use svn_types::{MAX_SCRIPT, split_once};

/// The most bytes that are read at a time.
const BLOCK: usize = 8192;

/// Reads a script to its end, or until it is too long: after 16,777,217 bytes it reads no more, and returns TooLong. Read where the reader
/// fails; Memory if an allocation fails.
pub fn read_script<R: Read>(alloc: Global, reader: &mut R) -> Result<Vec<u8>, ScriptFault>
    ensures bounded { IfOk result (λ v. length v.items ≤ MAX_SCRIPT) }
    ensures bytes { IfOk result (λ v. IfSome (R.remaining reader.old) (λ bytes. v.items ≡ bytes)) }
    ensures end { IfOk result (λ _. IsAtEnd (R.remaining reader.new)) }
    ensures too_long { IfErr result (λ e. e ≡ ScriptFault.TooLong → IfSome (R.remaining reader.old) (λ bytes. MAX_SCRIPT < length bytes)) }
    ensures no_line { IfErr result (λ e. (n : ℕ) → e ≢ ScriptFault.BadLine n) }
    ensures no_write { IfErr result (λ e. e ≢ ScriptFault.Write) }
{
    let mut script = Vec::new(alloc);
    let mut block = [0u8; BLOCK];
    'reads: while script.len() <= MAX_SCRIPT {
        let room = BLOCK.min(MAX_SCRIPT + 1 - script.len());
        let Ok(count) = reader.read(&mut block[..room]) else {
            return Err(ScriptFault::Read);
        };
        if count == 0 {
            return Ok(script);
        }
        if script.extend_from_slice(&block[..count]).is_err() {
            return Err(ScriptFault::Memory);
        }
    }
    Err(ScriptFault::TooLong)
}

/// A line without the carriage return at its end, if there is one. It takes no memory.
pub fn without_return(line: &[u8]) -> &[u8]
    ensures { result.now ≡ without_return line.now }
{
    match line.split_last() {
        Some((last, front)) => { if *last == b'\r' { front } else { line } }
        None => line,
    }
}

/// The first word of a line, and what is after it. Words are between spaces.
pub(crate) fn next_word(line: &[u8]) -> Option<(&[u8], &[u8])>
    ensures { MatchOption result (words_of line.now ≡ []) (λ r. words_of line.now ≡ r.0.now ∷ words_of r.1.now) }
{
    let mut rest = line;
    'pieces: while let Some((piece, after)) = split_once(rest, b' ') {
        if !piece.is_empty() {
            return Some((piece, after));
        }
        rest = after;
    }
    if rest.is_empty() {
        None
    } else {
        Some(rest.split_at(rest.len()))
    }
}
