//! The two sections after a record's headers.
ghost use Rattle.std.specs.Prelude.{◌≡◌, ◌≤◌, ◌&&◌, nat_lt, IfOk};
ghost use Rattle.svn_dump.specs.Counts.{Counts};
ghost use Rattle.svn_dump.specs.Reading.{Gives, Reads, FailsWith};
ghost use Rattle.svn_dump.specs.Sections.{after_sections, empty_delta_at, keeps, kept, prop_section_of, sized_props_at, prop_section_at, whole_text_at, delta_with, text_delta_at, text_at, text_section_at, skipped};

use crate::fault::{DumpFault, Reason};
use crate::input::{Input, PIECE, has_ahead, read_bytes, read_piece};
use crate::notes::{Notes, TextSums};
use crate::properties::{read_changes, read_props};
use crate::record::{PropChanges, PropSection, TextDelta, TextSection};
use crate::shape::{GivenSums, Lengths, Shape};
use crate::sums::{check_sums, md5_stand_in, read_text, stand_in};
use std::alloc::{AllocError, Global};
use svn_types::{Digest, MAX_SIZE, Sha1Sum, Text};

/// How texts are kept.
#[derive(Clone, Copy, Debug, PartialEq, Eq)]
pub enum Texts {
    /// As they are.
    Whole,
    /// Each replaced by `$sha1$` and its SHA-1 checksum in hexadecimal digits: texts that differ have stand-ins that differ, as far as SHA-1 goes.
    Sha1,
    /// Each replaced by `$md5$` and its MD5 checksum, where only that is given.
    Md5,
}

/// The most bytes of what is held at a time.
#[derive(Clone, Copy, Debug)]
pub struct Limits {
    /// Of a record's headers, with the blank lines before them.
    pub headers: usize,
    /// Of a property section.
    pub props: usize,
    /// Of a text or a text delta that is kept.
    pub text: usize,
}

/// What is kept of a record, and by which allocator.
#[derive(Clone, Copy)]
pub(crate) struct Keeping {
    pub(crate) alloc: Global,
    pub(crate) limits: Limits,
    pub(crate) texts: Texts,
}

/// Room for two paths of 64 names of 255 bytes in the headers, for 16 MiB of properties, and for the longest text that a repository takes.
impl Default for Limits {
    ghost is_default = { λ l. (l.headers ≡ 65536) × (l.props ≡ 16777216) × (l.text ≡ 1048576) };

    fn default() -> Limits {
        Limits {
            headers: 1 << 16,
            props: 1 << 24,
            text: MAX_SIZE,
        }
    }
}

/// Passes over so many bytes.
pub(crate) fn skip_bytes<S: Input>(source: &mut S, len: u64) -> Result<(), DumpFault>
    ensures bytes { Reads (λ u. u) (S.remaining source.old) (S.remaining source.new) result (skipped len) }
    ensures counted { Counts (S.taken source.old) (S.remaining source.old) (S.taken source.new) (S.remaining source.new) }
    ensures grows { S.taken source.old ≤ S.taken source.new }
    ensures failed { FailsWith (S.failed source.old) (S.failed source.new) result }
{
    if has_ahead(source, len) {
        source.consume(len as usize);
        return Ok(());
    }
    skip_pieces(source, len)
}

// Passes over so many bytes, piece by piece.
fn skip_pieces<S: Input>(source: &mut S, len: u64) -> Result<(), DumpFault>
    ensures bytes { Reads (λ u. u) (S.remaining source.old) (S.remaining source.new) result (skipped len) }
    ensures counted { Counts (S.taken source.old) (S.remaining source.old) (S.taken source.new) (S.remaining source.new) }
    ensures grows { S.taken source.old ≤ S.taken source.new }
    ensures failed { FailsWith (S.failed source.old) (S.failed source.new) result }
{
    let mut piece = [0u8; PIECE];
    let mut left = len;
    'pieces: while left > 0 {
        let count = read_piece(source, &mut piece, left)?;
        left -= count as u64;
    }
    Ok(())
}

/// Passes over both sections.
pub(crate) fn skip_sections<S: Input>(source: &mut S, lengths: Lengths) -> Result<(), DumpFault>
    ensures bytes { Reads (λ u. u) (S.remaining source.old) (S.remaining source.new) result (after_sections lengths) }
    ensures counted { Counts (S.taken source.old) (S.remaining source.old) (S.taken source.new) (S.remaining source.new) }
    ensures grows { S.taken source.old ≤ S.taken source.new }
    ensures failed { FailsWith (S.failed source.old) (S.failed source.new) result }
{
    skip_bytes(source, lengths.props.unwrap_or(0))?;
    skip_bytes(source, lengths.text.unwrap_or(0))
}

// The properties that a section's bytes give.
fn props_of(alloc: Global, bytes: &[u8], changes: bool) -> Result<PropSection, DumpFault>
    ensures { Gives (λ section. section) result (prop_section_of changes bytes.now) }
{
    if changes {
        let list = read_changes(alloc, bytes)?;
        return Ok(PropSection::Delta(PropChanges::new(list)));
    }
    Ok(PropSection::Whole(read_props(alloc, bytes)?))
}

// Reads a property section of so many bytes.
fn read_sized_props<S: Input>(
    alloc: Global,
    source: &mut S,
    len: u64,
    changes: bool,
    limit: usize,
) -> Result<PropSection, DumpFault>
    ensures bytes { Reads (λ section. section) (S.remaining source.old) (S.remaining source.new) result (sized_props_at changes limit len) }
    ensures counted { Counts (S.taken source.old) (S.remaining source.old) (S.taken source.new) (S.remaining source.new) }
    ensures grows { S.taken source.old ≤ S.taken source.new }
    ensures failed { FailsWith (S.failed source.old) (S.failed source.new) result }
{
    if len > limit as u64 {
        return Err(DumpFault::Refused(Reason::PropsTooLong(len, limit as u64)));
    }
    let bytes = read_bytes(alloc, source, len as usize)?;
    props_of(alloc, &bytes, changes)
}

/// Reads the property section, if there is one.
pub(crate) fn read_prop_section<S: Input>(
    alloc: Global,
    source: &mut S,
    shape: &Shape,
    limit: usize,
) -> Result<Option<PropSection>, DumpFault>
    ensures bytes { Reads (λ section. section) (S.remaining source.old) (S.remaining source.new) result (prop_section_at shape.now limit) }
    ensures counted { Counts (S.taken source.old) (S.remaining source.old) (S.taken source.new) (S.remaining source.new) }
    ensures grows { S.taken source.old ≤ S.taken source.new }
    ensures failed { FailsWith (S.failed source.old) (S.failed source.new) result }
{
    let Some(len) = shape.lengths.props else {
        return Ok(None);
    };
    let section = read_sized_props(alloc, source, len, shape.changes_props, limit)?;
    Ok(Some(section))
}

// Reads a text of so many bytes, as it is kept, and notes its checksums.
fn read_whole_text<S: Input>(
    keeping: Keeping,
    source: &mut S,
    len: u64,
    given: GivenSums,
    notes: &mut Notes,
) -> Result<Text, DumpFault>
    ensures bytes { Reads (λ text. text) (S.remaining source.old) (S.remaining source.new) result (whole_text_at keeping.texts given len) }
    ensures counted { Counts (S.taken source.old) (S.remaining source.old) (S.taken source.new) (S.remaining source.new) }
    ensures grows { S.taken source.old ≤ S.taken source.new }
    ensures failed { FailsWith (S.failed source.old) (S.failed source.new) result }
{
    let text = read_text(keeping.alloc, source, len, keeping.texts == Texts::Whole)?;
    check_sums(&text, given)?;
    notes.text = Some(TextSums {
        len,
        md5: text.md5,
        sha1: text.sha1,
    });
    match keeping.texts {
        Texts::Whole => Ok(Text::summed(text.bytes, text.md5)?),
        Texts::Sha1 => Ok(stand_in(keeping.alloc, &text.sha1)?),
        Texts::Md5 => Ok(md5_stand_in(keeping.alloc, &text.md5)?),
    }
}

/// The bytes of a text delta that leads to no bytes: its format alone.
const EMPTY_DELTA: u64 = 4;

// Passes over a text delta of so many bytes whose text has no checksum, and returns the stand-in for no bytes: svnadmin gives none of an empty text.
fn read_empty_delta<S: Input>(
    alloc: Global,
    source: &mut S,
    len: u64,
    texts: Texts,
    missing: Reason,
) -> Result<TextSection, DumpFault>
    ensures bytes { Reads (λ section. section) (S.remaining source.old) (S.remaining source.new) result (empty_delta_at texts missing len) }
    ensures counted { Counts (S.taken source.old) (S.remaining source.old) (S.taken source.new) (S.remaining source.new) }
    ensures grows { S.taken source.old ≤ S.taken source.new }
    ensures failed { FailsWith (S.failed source.old) (S.failed source.new) result }
{
    if len > EMPTY_DELTA {
        return Err(DumpFault::Refused(missing));
    }
    skip_bytes(source, len)?;
    let text = kept_text(alloc, texts, b"")?;
    Ok(TextSection::Whole(text))
}

/// What a text of these bytes is kept as.
pub fn kept_text(alloc: Global, texts: Texts, bytes: &[u8]) -> Result<Text, AllocError>
    ensures { IfOk result (λ text. text ≡ kept texts bytes.now) }
{
    match texts {
        Texts::Whole => Text::from_slice(alloc, bytes),
        Texts::Sha1 => stand_in(alloc, &Sha1Sum::of(bytes)),
        Texts::Md5 => md5_stand_in(alloc, &Digest::of(bytes)),
    }
}

// A text delta with the checksums that are given.
fn with_sums(delta: Text, shape: &Shape) -> TextDelta
    ensures { TextSection.Delta result ≡ delta_with shape.now delta }
{
    TextDelta {
        delta,
        base_md5: shape.base_sums.md5,
        base_sha1: shape.base_sums.sha1,
        md5: shape.sums.md5,
        sha1: shape.sums.sha1,
    }
}

// Reads a text delta of so many bytes, or returns the stand-in for the text that it leads to.
fn read_text_delta<S: Input>(
    alloc: Global,
    source: &mut S,
    len: u64,
    shape: &Shape,
    texts: Texts,
) -> Result<TextSection, DumpFault>
    ensures bytes { Reads (λ section. section) (S.remaining source.old) (S.remaining source.new) result (text_delta_at shape.now texts len) }
    ensures counted { Counts (S.taken source.old) (S.remaining source.old) (S.taken source.new) (S.remaining source.new) }
    ensures grows { S.taken source.old ≤ S.taken source.new }
    ensures failed { FailsWith (S.failed source.old) (S.failed source.new) result }
{
    match (texts, shape.sums.sha1, shape.sums.md5) {
        (Texts::Whole, _, _) => {
            let delta = Text::new(read_bytes(alloc, source, len as usize)?);
            Ok(TextSection::Delta(with_sums(delta, shape)))
        }
        (Texts::Sha1, Some(sha1), _) => {
            skip_bytes(source, len)?;
            Ok(TextSection::Whole(stand_in(alloc, &sha1)?))
        }
        (Texts::Md5, _, Some(md5)) => {
            skip_bytes(source, len)?;
            Ok(TextSection::Whole(md5_stand_in(alloc, &md5)?))
        }
        (Texts::Sha1, None, _) => read_empty_delta(alloc, source, len, texts, Reason::NoSha1),
        (Texts::Md5, _, None) => read_empty_delta(alloc, source, len, texts, Reason::NoMd5),
    }
}

// Reads a text, or a text delta, of so many bytes.
fn read_sized_text<S: Input>(
    keeping: Keeping,
    source: &mut S,
    len: u64,
    shape: &Shape,
    notes: &mut Notes,
) -> Result<TextSection, DumpFault>
    ensures bytes { Reads (λ section. section) (S.remaining source.old) (S.remaining source.new) result (text_at shape.now keeping.texts len) }
    ensures counted { Counts (S.taken source.old) (S.remaining source.old) (S.taken source.new) (S.remaining source.new) }
    ensures grows { S.taken source.old ≤ S.taken source.new }
    ensures failed { FailsWith (S.failed source.old) (S.failed source.new) result }
{
    if shape.changes_text {
        return read_text_delta(keeping.alloc, source, len, shape, keeping.texts);
    }
    let text = read_whole_text(keeping, source, len, shape.sums, notes)?;
    Ok(TextSection::Whole(text))
}

// Whether a text of so many bytes is too long to be kept.
fn is_too_long(len: u64, texts: Texts, limit: usize) -> bool
    ensures { result ≡ (keeps texts && nat_lt limit len) }
{
    match texts {
        Texts::Whole => len > limit as u64,
        Texts::Sha1 | Texts::Md5 => false,
    }
}

/// Reads the text section, if there is one, and notes the checksums of a whole text.
pub(crate) fn read_text_section<S: Input>(
    keeping: Keeping,
    source: &mut S,
    shape: &Shape,
    notes: &mut Notes,
) -> Result<Option<TextSection>, DumpFault>
    ensures bytes { Reads (λ section. section) (S.remaining source.old) (S.remaining source.new) result (text_section_at shape.now keeping.texts keeping.limits.text) }
    ensures counted { Counts (S.taken source.old) (S.remaining source.old) (S.taken source.new) (S.remaining source.new) }
    ensures grows { S.taken source.old ≤ S.taken source.new }
    ensures failed { FailsWith (S.failed source.old) (S.failed source.new) result }
{
    let Some(len) = shape.lengths.text else {
        return Ok(None);
    };
    let limit = keeping.limits.text;
    if is_too_long(len, keeping.texts, limit) {
        return Err(DumpFault::Refused(Reason::TextTooLong(len, limit as u64)));
    }
    let section = read_sized_text(keeping, source, len, shape, notes)?;
    Ok(Some(section))
}
