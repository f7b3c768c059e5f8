//! The text that a delta makes.
ghost use Rattle.std.specs.Prelude.{◌≡◌, ◌≤◌, length, IfOk};
ghost use Rattle.md5.specs.Md5.{md5};
ghost use Rattle.svndiff.specs.Format.{IsDelta};
ghost use Rattle.svn_expand.specs.Results.{Gives};
ghost use Rattle.svn_expand.specs.Deltas.{HasSums, IsMade, checked, checked_base, decoded, text_made};

use crate::fault::ExpandFault;
use std::alloc::Global;
use svn_dump::{DumpFault, Reason, Sha1Sum, TextDelta};
use svn_types::{Digest, Text};
use svndiff::{SvndiffFault, decode};

// What a delta gives over the text before, of at most so many bytes.
fn decode_delta(
    alloc: Global,
    base: &[u8],
    delta: &[u8],
    max: usize,
) -> Result<Vec<u8>, ExpandFault>
    ensures exact { Gives (λ bytes. bytes.items) result (decoded max base.now delta.now) }
    ensures text { IfOk result (λ bytes. IsDelta base.now delta.now bytes.items) }
    ensures bounded { IfOk result (λ bytes. length bytes.items ≤ max) }
{
    match decode(alloc, base, delta, max) {
        Ok(bytes) => Ok(bytes),
        Err(SvndiffFault::Memory) => Err(ExpandFault::Memory),
        Err(fault) => Err(ExpandFault::Delta(fault)),
    }
}

// Compares the checksums of a text, of which one is known, with those that its delta gives.
fn check_sums(bytes: &[u8], known: Digest, delta: &TextDelta) -> Result<(), ExpandFault>
    requires { known ≡ md5 bytes.now }
    ensures exact { Gives (λ _. bytes.now) result (checked delta.now bytes.now) }
    ensures sums { IfOk result (λ _. HasSums delta.now.md5 delta.now.sha1 bytes.now) }
{
    if delta.md5.is_some_and(|sum| sum != known) {
        return Err(ExpandFault::Dump(DumpFault::Refused(Reason::WrongMd5)));
    }
    if delta.sha1.is_some_and(|sum| sum != Sha1Sum::of(bytes)) {
        return Err(ExpandFault::Dump(DumpFault::Refused(Reason::WrongSha1)));
    }
    Ok(())
}

// Compares the checksums of the text before with those that a delta gives for it.
fn check_base(base: &[u8], delta: &TextDelta) -> Result<(), ExpandFault>
    ensures exact { Gives (λ _. base.now) result (checked_base delta.now base.now) }
    ensures sums { IfOk result (λ _. HasSums delta.now.base_md5 delta.now.base_sha1 base.now) }
{
    if delta.base_md5.is_some_and(|sum| sum != Digest::of(base)) {
        return Err(ExpandFault::Dump(DumpFault::Refused(Reason::WrongBaseMd5)));
    }
    if delta.base_sha1.is_some_and(|sum| sum != Sha1Sum::of(base)) {
        return Err(ExpandFault::Dump(DumpFault::Refused(Reason::WrongBaseSha1)));
    }
    Ok(())
}

/// The text that a delta makes of the one before it, of at most so many bytes: what `svndiff` decodes, if both texts have the checksums that are given
/// for them. It keeps its MD5 checksum.
pub(crate) fn make_text(
    alloc: Global,
    base: &[u8],
    delta: &TextDelta,
    max: usize,
) -> Result<Text, ExpandFault>
    ensures exact { Gives (λ text. text) result (text_made max base.now delta.now) }
    ensures made { IfOk result (λ text. IsMade base.now delta.now text) }
    ensures bounded { IfOk result (λ text. length text ≤ max) }
{
    check_base(base, delta)?;
    let bytes = decode_delta(alloc, base, delta.delta.as_slice(), max)?;
    let md5 = Digest::of(&bytes);
    check_sums(&bytes, md5, delta)?;
    Ok(Text::summed(bytes, md5)?)
}
