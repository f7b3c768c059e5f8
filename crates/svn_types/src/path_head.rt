//! The first bytes of a path's key as two numbers, which compare in a step or two.
ghost use Rattle.std.specs.Prelude.{◌≡◌, ◌<◌, drop};
ghost use Rattle.svn_types.specs.LeadingBytes.{IsByteList, leading};
ghost use Rattle.svn_types.specs.PathHeads.{head_number, second_limit};

use crate::leading_bytes::word_at;
use crate::short_bytes::ShortBytes;

// How many bytes of a key make one number.
const WORD: usize = 8;

// Two bytes of the second word have no place in a head: it is shifted right by them.
const AFTER_HEAD: u64 = 65536;

/// The first 14 bytes of a key, the first byte the highest: eight and six. Zeros are after a shorter key.
#[derive(Clone, Copy)]
pub(crate) struct Head {
    pub(crate) first: u64,
    pub(crate) second: u64,
}

// The first 8 bytes as one number, zeros after fewer.
fn word_of(bytes: &[u8]) -> u64
    ensures { result ≡ leading 8 bytes.now }
{
    if bytes.len() >= WORD {
        return word_at(bytes, 0);
    }
    ShortBytes::<8>::of(bytes).first_word()
}

// The next 6 bytes.
fn second_word_of(bytes: &[u8]) -> u64
    ensures { result ≡ leading 6 (drop 8 bytes.now) }
{
    if bytes.len() <= WORD {
        return 0;
    }
    let (_, behind) = bytes.split_at(WORD);
    word_of(behind) / AFTER_HEAD
}

/// The head of a key.
pub(crate) fn head_of(key: &str) -> Head
    ensures head { head_number result ≡ leading 14 key.now }
    ensures small { result.second < second_limit }
    ensures bytes { IsByteList key.now }
{
    let bytes = key.as_bytes();
    Head {
        first: word_of(bytes),
        second: second_word_of(bytes),
    }
}
