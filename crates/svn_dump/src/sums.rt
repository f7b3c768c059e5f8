//! Texts, read with their checksums.
ghost use Rattle.std.specs.Prelude.{◌≡◌, ◌⊎◌, ◌≤◌, ℕ, true, List, ◌++◌, [], IfOk, IfErr, OnOk, if◌then◌else◌};
ghost use Rattle.md5.specs.Md5.{md5};
ghost use Rattle.sha1.specs.Sha1.{sha1};
ghost use Rattle.svn_dump.specs.Counts.{Counts};
ghost use Rattle.svn_dump.specs.Reading.{Gives, Reads, FailsWith};
ghost use Rattle.svn_digits.specs.StandIns.{stand_in_of, stand_in_of_md5};
ghost use Rattle.svn_dump.specs.Sections.{checked, summed, summed_at, Sums};

use crate::fault::{DumpFault, Reason};
use crate::input::{Input, PIECE, has_ahead, read_piece};
use crate::shape::GivenSums;
use md5::{Digest as Hasher, Md5};
use sha1::Sha1;
use std::alloc::{AllocError, Global};
use svn_digits::{stand_in_of, stand_in_of_md5};
use svn_types::{Digest, Sha1Sum, Text};

// The checksums of what was read so far.
#[derive(Drop)]
struct Running {
    md5: Md5,
    sha1: Sha1,
}

impl Running {
    fn new() -> Running
        ensures { Sums result [] }
    {
        Running {
            md5: Md5::new(),
            sha1: Sha1::new(),
        }
    }

    fn update(&mut self, piece: &[u8])
        ensures { (m : List ℕ) → Sums self.old m → Sums self.new (m ++ piece.now) }
    {
        self.md5.update(piece);
        self.sha1.update(piece);
    }

    fn finish(self) -> (Digest, Sha1Sum)
        ensures { (m : List ℕ) → Sums self m → result ≡ (md5 m, sha1 m) }
    {
        let Running { md5, sha1 } = self;
        let md5 = md5.finalize();
        let sha1 = sha1.finalize();
        (Digest(md5), Sha1Sum(sha1))
    }
}

/// A text that was read: its bytes, if they were to be kept, and its checksums.
#[derive(Drop)]
pub(crate) struct SummedText {
    pub(crate) bytes: Vec<u8>,
    pub(crate) md5: Digest,
    pub(crate) sha1: Sha1Sum,
}

// Room for a text of so many bytes, if it is to be kept: what holds it then has no more.
fn room_for(alloc: Global, len: u64, keeps: bool) -> Result<Vec<u8>, DumpFault>
    ensures empty { IfOk result (λ bytes. bytes.items ≡ []) }
    ensures fault { IfErr result (λ e. e ≡ DumpFault.Memory) }
{
    if keeps {
        return Ok(Vec::with_capacity(alloc, len as usize)?);
    }
    Ok(Vec::new(alloc))
}

/// Keeps a piece of a text after those before it, if asked. AllocError where an allocation failed.
pub fn keep(bytes: &mut Vec<u8>, piece: &[u8], keeps: bool) -> Result<(), AllocError>
    ensures kept { OnOk result (bytes.new.items ≡ (if keeps then bytes.old.items ++ piece.now else bytes.old.items)) }
{
    if keeps {
        bytes.extend_from_slice(piece)?;
    }
    Ok(())
}

// A text with its checksums, its bytes if they are to be kept.
fn sum_text(alloc: Global, text: &[u8], keeps: bool) -> Result<SummedText, DumpFault>
    ensures text { IfOk result (λ t. (t.bytes.items, t.md5, t.sha1) ≡ summed keeps text.now) }
    ensures fault { IfErr result (λ e. e ≡ DumpFault.Memory) }
{
    let mut bytes = room_for(alloc, text.len() as u64, keeps)?;
    keep(&mut bytes, text, keeps)?;
    Ok(SummedText {
        bytes,
        md5: Digest::of(text),
        sha1: Sha1Sum::of(text),
    })
}

/// Reads a text of so many bytes, and keeps them if asked.
pub(crate) fn read_text<S: Input>(
    alloc: Global,
    source: &mut S,
    len: u64,
    keeps: bool,
) -> Result<SummedText, DumpFault>
    ensures bytes { Reads (λ t. (t.bytes.items, t.md5, t.sha1)) (S.remaining source.old) (S.remaining source.new) result (summed_at keeps len) }
    ensures summed { keeps ≡ true → IfOk result (λ t. t.md5 ≡ md5 t.bytes.items) }
    ensures counted { Counts (S.taken source.old) (S.remaining source.old) (S.taken source.new) (S.remaining source.new) }
    ensures grows { S.taken source.old ≤ S.taken source.new }
    ensures failed { FailsWith (S.failed source.old) (S.failed source.new) result }
{
    if has_ahead(source, len) {
        let text = sum_text(alloc, &source.buffer()[..len as usize], keeps)?;
        source.consume(len as usize);
        return Ok(text);
    }
    read_text_pieces(alloc, source, len, keeps)
}

// The same piece by piece.
fn read_text_pieces<S: Input>(
    alloc: Global,
    source: &mut S,
    len: u64,
    keeps: bool,
) -> Result<SummedText, DumpFault>
    ensures bytes { Reads (λ t. (t.bytes.items, t.md5, t.sha1)) (S.remaining source.old) (S.remaining source.new) result (summed_at keeps len) }
    ensures summed { keeps ≡ true → IfOk result (λ t. t.md5 ≡ md5 t.bytes.items) }
    ensures counted { Counts (S.taken source.old) (S.remaining source.old) (S.taken source.new) (S.remaining source.new) }
    ensures grows { S.taken source.old ≤ S.taken source.new }
    ensures failed { FailsWith (S.failed source.old) (S.failed source.new) result }
{
    let mut running = Running::new();
    let mut bytes = room_for(alloc, len, keeps)?;
    let mut piece = [0u8; PIECE];
    let mut left = len;
    'pieces: while left > 0 {
        let count = read_piece(source, &mut piece, left)?;
        let read = &piece[..count];
        running.update(read);
        keep(&mut bytes, read, keeps)?;
        left -= count as u64;
    }
    let (md5, sha1) = running.finish();
    Ok(SummedText { bytes, md5, sha1 })
}

/// Compares the checksums of a text with those that are given.
pub(crate) fn check_sums(text: &SummedText, given: GivenSums) -> Result<(), DumpFault>
    ensures checked { (m : List ℕ) → text.now.md5 ≡ md5 m → text.now.sha1 ≡ sha1 m → Gives (λ _. m) result (checked given m) }
    ensures refused { IfErr result (λ e. (e ≡ DumpFault.Refused Reason.WrongMd5) ⊎ (e ≡ DumpFault.Refused Reason.WrongSha1)) }
{
    if given.md5.is_some_and(|md5| md5 != text.md5) {
        return Err(DumpFault::Refused(Reason::WrongMd5));
    }
    if given.sha1.is_some_and(|sha1| sha1 != text.sha1) {
        return Err(DumpFault::Refused(Reason::WrongSha1));
    }
    Ok(())
}

/// The stand-in for the text with this checksum: `$sha1$` and the checksum in lower-case hexadecimal digits.
pub fn stand_in(alloc: Global, sha1: &Sha1Sum) -> Result<Text, AllocError>
    ensures { IfOk result (λ text. text ≡ stand_in_of sha1.now) }
{
    stand_in_of(alloc, &sha1.0)
}

/// The stand-in for the text with this MD5 checksum: `$md5$` and the checksum in lower-case hexadecimal digits.
pub fn md5_stand_in(alloc: Global, md5: &Digest) -> Result<Text, AllocError>
    ensures { IfOk result (λ text. text ≡ stand_in_of_md5 md5.now) }
{
    stand_in_of_md5(alloc, &md5.0)
}
