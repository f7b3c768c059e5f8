//! Texts that are given as differences from those before them.
ghost use Rattle.std.specs.Prelude.{◌≡◌};
ghost use Rattle.svn_history.specs.Results.{Gives};
ghost use Rattle.svn_history.specs.Deltas.{decoded, checked, checked_base, text_after};

use crate::fault::LoadFault;
use sha1::Sha1;
use std::alloc::Global;
use svn_dump::{DumpFault, Reason, Sha1Sum, TextDelta};
use svn_types::{Digest, MAX_SIZE, Text};
use svndiff::{SvndiffFault, decode};

// The text that a delta gives over the one before it.
fn decode_delta(alloc: Global, base: &[u8], delta: &[u8]) -> Result<Text, LoadFault>
    ensures { Gives (λ text. text) result (decoded base.now delta.now) }
{
    match decode(alloc, base, delta, MAX_SIZE) {
        Ok(bytes) => Ok(Text::new(bytes)),
        Err(SvndiffFault::Memory) => Err(LoadFault::Memory),
        Err(fault) => Err(LoadFault::Delta(fault)),
    }
}

// Compares the checksums of a text with those that its delta gives.
fn check_sums(text: &Text, delta: &TextDelta) -> Result<(), LoadFault>
    ensures { Gives (λ _. text.now) result (checked delta.now text.now) }
{
    if delta.md5.is_some_and(|sum| sum != text.checksum()) {
        return Err(LoadFault::Dump(DumpFault::Refused(Reason::WrongMd5)));
    }
    let sha1 = Sha1Sum(Sha1::digest(text.as_slice()));
    if delta.sha1.is_some_and(|sum| sum != sha1) {
        return Err(LoadFault::Dump(DumpFault::Refused(Reason::WrongSha1)));
    }
    Ok(())
}

// Compares the checksums of the text before with those that a delta gives for it.
fn check_base(base: &[u8], delta: &TextDelta) -> Result<(), LoadFault>
    ensures { Gives (λ _. base.now) result (checked_base delta.now base.now) }
{
    if delta.base_md5.is_some_and(|sum| sum != Digest::of(base)) {
        return Err(LoadFault::Dump(DumpFault::Refused(Reason::WrongBaseMd5)));
    }
    if delta
        .base_sha1
        .is_some_and(|sum| sum != Sha1Sum(Sha1::digest(base)))
    {
        return Err(LoadFault::Dump(DumpFault::Refused(Reason::WrongBaseSha1)));
    }
    Ok(())
}

/// The text that a delta leads to from the one before it, of at most `MAX_SIZE` bytes: what `svndiff` decodes, if both texts have the checksums that are
/// given for them.
pub(crate) fn apply_delta(alloc: Global, base: &[u8], delta: &TextDelta) -> Result<Text, LoadFault>
    ensures { Gives (λ text. text) result (text_after base.now delta.now) }
{
    check_base(base, delta)?;
    let text = decode_delta(alloc, base, delta.delta.as_slice())?;
    check_sums(&text, delta)?;
    Ok(text)
}
