//! Stand-ins of texts: `$sha1$` and the text's SHA-1 checksum in lower-case hexadecimal digits, or `$md5$` and its MD5 checksum.
ghost use Rattle.std.specs.Prelude.{◌≡◌, bytes_eq, codes, IfOk};
ghost use Rattle.std.specs.List.{list_all};
ghost use Rattle.svn_digits.specs.StandIns.{stand_in_of, stand_in, stand_in_of_md5, is_stand_in, is_lower_digit};

use sha1::Sha1;
use std::alloc::{AllocError, Global};
use svn_types::Text;

/// How many bytes a stand-in has.
pub const STAND_IN_LEN: usize = 46;

/// How many bytes one by an MD5 checksum has.
const MD5_STAND_IN_LEN: usize = 37;

/// How many of them come before the digits.
const MARK: usize = 6;

fn is_digit(byte: u8) -> bool
    ensures { result ≡ is_lower_digit byte }
{
    48 <= byte && byte <= 57 || 97 <= byte && byte <= 102
}

fn are_digits(bytes: &[u8]) -> bool
    ensures { result ≡ list_all is_lower_digit bytes.now }
{
    bytes.iter().all(|byte| is_digit(*byte))
}

fn has_mark(mark: &[u8]) -> bool
    ensures { result ≡ bytes_eq mark.now (codes "$sha1$") }
{
    mark == b"$sha1$".as_slice()
}

/// Whether these bytes have the form of a stand-in.
pub fn is_stand_in(bytes: &[u8]) -> bool
    ensures { result ≡ is_stand_in bytes.now }
{
    if bytes.len() != STAND_IN_LEN {
        return false;
    }
    let (mark, digits) = bytes.split_at(MARK);
    has_mark(mark) && are_digits(digits)
}

/// The stand-in of the text with this SHA-1 checksum: `$sha1$` and the checksum in lower-case hexadecimal digits.
pub fn stand_in_of(alloc: Global, sum: &[u8; 20]) -> Result<Text, AllocError>
    ensures { IfOk result (λ word. word ≡ stand_in_of sum.now) }
{
    let mut word = Vec::with_capacity(alloc, STAND_IN_LEN)?;
    word.extend_from_slice(b"$sha1$")?;
    word.extend_from_slice(hex::encode(alloc, &sum[..])?.as_bytes())?;
    Ok(Text::new(word))
}

/// The stand-in of the text with this MD5 checksum: `$md5$` and the checksum in lower-case hexadecimal digits.
pub fn stand_in_of_md5(alloc: Global, sum: &[u8; 16]) -> Result<Text, AllocError>
    ensures { IfOk result (λ word. word ≡ stand_in_of_md5 sum.now) }
{
    let mut word = Vec::with_capacity(alloc, MD5_STAND_IN_LEN)?;
    word.extend_from_slice(b"$md5$")?;
    word.extend_from_slice(hex::encode(alloc, &sum[..])?.as_bytes())?;
    Ok(Text::new(word))
}

/// The stand-in of a text, by its SHA-1 checksum.
pub fn stand_in(alloc: Global, text: &[u8]) -> Result<Text, AllocError>
    ensures { IfOk result (λ word. word ≡ stand_in text.now) }
{
    stand_in_of(alloc, &Sha1::digest(text))
}
