//! The words after the name of a command.
ghost use Rattle.std.specs.Prelude.{◌≡◌, MatchOption, Some, None};
ghost use Rattle.svn_digits.specs.Numbers.{number_of};
ghost use Rattle.svn_script.specs.Reading.{words_of};
ghost use Rattle.svn_script.specs.Gives.{Gives};
ghost use Rattle.svn_script.specs.Operands.{no_words, only_word, two_words, three_words, only_path, path_or_root, is_late, late_of, ending_of};

use crate::lines::next_word;
use crate::words::{LineFault, read_path};
use std::alloc::Global;
use svn_digits::read_number;
use svn_types::{RelPath, Rev};

/// Whether a line has no word.
pub(crate) fn is_blank(line: &[u8]) -> bool
    ensures { result ≡ no_words (words_of line.now) }
{
    // Mostly nothing is left, and then there is nothing to look through.
    line.is_empty() || next_word(line).is_none()
}

/// The one word that is left of a line.
pub(crate) fn last_word(line: &[u8]) -> Option<&[u8]>
    ensures { MatchOption result (only_word (words_of line.now) ≡ None) (λ w. only_word (words_of line.now) ≡ Some w.now) }
{
    match next_word(line) {
        Some((word, rest)) => { if is_blank(rest) { Some(word) } else { None } }
        None => None,
    }
}

/// The two words that are left of a line.
#[tactic(auto, using(crate::proofs::OperandLemmas::two_words_of))]
pub(crate) fn last_two_words(line: &[u8]) -> Option<(&[u8], &[u8])>
    ensures { MatchOption result (two_words (words_of line.now) ≡ None) (λ w. two_words (words_of line.now) ≡ Some (w.0.now, w.1.now)) }
{
    match next_word(line) {
        Some((first, rest)) => match last_word(rest) {
            Some(second) => Some((first, second)),
            None => None,
        },
        None => None,
    }
}

/// The three words that are left of a line.
#[tactic(auto, using(crate::proofs::OperandLemmas::three_words_of))]
pub(crate) fn last_three_words(line: &[u8]) -> Option<(&[u8], &[u8], &[u8])>
    ensures { MatchOption result (three_words (words_of line.now) ≡ None) (λ w. three_words (words_of line.now) ≡ Some (w.0.now, w.1.now, w.2.now)) }
{
    match next_word(line) {
        Some((first, rest)) => match last_two_words(rest) {
            Some((second, third)) => Some((first, second, third)),
            None => None,
        },
        None => None,
    }
}

/// The path that is left of a line.
pub(crate) fn last_path(alloc: Global, line: &[u8]) -> Result<RelPath, LineFault>
    ensures { Gives (λ p. p) result (only_path (words_of line.now)) }
{
    match last_word(line) {
        Some(word) => read_path(alloc, word),
        None => Err(LineFault::Bad),
    }
}

/// The revision that a word names.
pub(crate) fn read_rev(word: &[u8]) -> Result<Rev, LineFault>
    ensures { Gives (λ r. r) result (number_of word.now) }
{
    match read_number(word) {
        Some(number) => Ok(Rev(number)),
        None => Err(LineFault::Bad),
    }
}

/// The path that is left of a line, or the root where no word is left.
pub(crate) fn read_path_or_root(alloc: Global, line: &[u8]) -> Result<RelPath, LineFault>
    ensures { Gives (λ p. p) result (path_or_root (words_of line.now)) }
{
    if is_blank(line) {
        Ok(RelPath::root(alloc))
    } else {
        last_path(alloc, line)
    }
}

fn is_late(word: &[u8]) -> bool
    ensures { result ≡ is_late word.now }
{
    word == b"late".as_slice()
}

/// Whether the word `late` is left of a line. No other may be.
pub(crate) fn read_late(line: &[u8]) -> Result<bool, LineFault>
    ensures { Gives (λ l. l) result (late_of (words_of line.now)) }
{
    match next_word(line) {
        Some((word, rest)) => {
            if is_late(word) && is_blank(rest) {
                Ok(true)
            } else {
                Err(LineFault::Bad)
            }
        }
        None => Ok(false),
    }
}

/// How a run may end: a cancel number, and then the word `late`, where they are left of a line. No other word may be.
pub(crate) fn read_ending(line: &[u8]) -> Result<(Option<u64>, bool), LineFault>
    ensures { Gives (λ e. e) result (ending_of (words_of line.now)) }
{
    let Some((word, rest)) = next_word(line) else {
        return Ok((None, false));
    };
    if is_late(word) {
        if is_blank(rest) {
            return Ok((None, true));
        }
        return Err(LineFault::Bad);
    }
    let Some(number) = read_number(word) else {
        return Err(LineFault::Bad);
    };
    let late = read_late(rest)?;
    Ok((Some(number), late))
}
