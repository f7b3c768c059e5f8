//! Pristine texts: the texts of a working copy's files as they came from the repository, each named by its stand-in.
ghost use Rattle.std.specs.Prelude.{◌≡◌, ◌≢◌, ◌↔◌, ◌<◌, ℕ, List, ◌++◌, [], length, IsTrue, IfOk, IfErr, OnOk, if◌then◌else◌};
ghost use Rattle.sha1.specs.Sha1.{sha1};
ghost use Rattle.svn_dump.specs.Sections.{kept};
ghost use Rattle.svn_dump.specs.declared.sections.Texts.TheVariants as kinds;
ghost use Rattle.svn_disk_audit.specs.Pristine.{Holds, IsKnownAs, IsPristine, IsReadFault, IsTextFault, HaveFailed};
ghost use Rattle.svn_disk_audit.specs.declared.fault.PristineFault.TheVariants.{WrongSha1, Empty};
ghost use Rattle.svn_disk_audit.specs.declared.pristine.TextFault.TheVariants.{Memory};

use crate::fault::PristineFault;
use md5::{Digest as Hasher, Md5};
use sha1::Sha1;
use std::alloc::{AllocError, Global};
use std::io;
use std::io::{ErrorKind, Read};
use svn_dump::{Sha1Sum, Texts, md5_stand_in, stand_in};
use svn_types::{Digest, Text};

/// How many bytes are read at a time.
const PIECE: usize = 1 << 16;

/// Why a text isn't read.
#[derive(Debug, Drop)]
pub(crate) enum TextFault {
    /// It is refused.
    Refused(PristineFault),
    /// An allocation failed.
    Memory,
}

impl From<AllocError> for TextFault {
    ghost from_gives = { λ _ e. e ≡ Memory };

    fn from(_error: AllocError) -> TextFault {
        TextFault::Memory
    }
}

// How often a text was read, and whether a read of it failed that wasn't interrupted: why it can't be read to its end.
#[derive(Drop)]
struct Tries {
    count: u64,
    failed: bool,
}

// What is held of a text while it is read: its bytes or its running MD5 checksum, where texts are kept whole or as that.
#[derive(Drop)]
struct Held {
    texts: Texts,
    bytes: Vec<u8>,
    md5: Md5,
}

impl Held {
    fn new(alloc: Global, texts: Texts) -> Held
        ensures nothing { Holds result [] }
        ensures texts { result.texts ≡ texts }
    {
        Held {
            texts,
            bytes: Vec::new(alloc),
            md5: Md5::new(),
        }
    }

    // One more piece of the text was read.
    fn add(&mut self, piece: &[u8]) -> Result<(), AllocError>
        ensures more { OnOk result ((text : List ℕ) → Holds self.old text → Holds self.new (text ++ piece.now)) }
        ensures texts { self.new.texts ≡ self.old.texts }
    {
        match self.texts {
            Texts::Whole => self.bytes.extend_from_slice(piece)?,
            Texts::Sha1 => {}
            Texts::Md5 => self.md5.update(piece),
        }
        Ok(())
    }

    // What the text is kept as, whose stand-in by SHA-1 this is.
    fn into_text(self, alloc: Global, found: Text) -> Result<Text, AllocError>
        ensures { IfOk result (λ t. (text : List ℕ) → Holds self text → found ≡ kept kinds.Sha1 text → t ≡ kept self.texts text) }
    {
        match self.texts {
            Texts::Whole => Ok(Text::new(self.bytes)),
            Texts::Sha1 => Ok(found),
            Texts::Md5 => md5_stand_in(alloc, &Digest(self.md5.finalize())),
        }
    }
}

// A text that was read: whether it has no byte, its checksum, and what is held of it.
#[derive(Drop)]
struct SummedText {
    is_empty: bool,
    sha1: Sha1Sum,
    held: Held,
}

// Reads a text to its end, piece by piece.
fn read_summed<R: Read>(
    alloc: Global,
    input: &mut R,
    piece: &mut [u8],
    texts: Texts,
    tries: &mut Tries,
) -> Result<SummedText, TextFault>
    requires { 0 < length piece.old }
    ensures fault { IfErr result IsReadFault }
    ensures tried { IfErr result (λ e. e ≢ TextFault.Memory → HaveFailed tries.new) }
    ensures text { IfOk result (λ t. (text : List ℕ) × IsKnownAs (R.remaining input.old) text × (t.sha1 ≡ sha1 text) × Holds t.held text × (IsTrue t.is_empty ↔ (text ≡ []))) }
    ensures texts { IfOk result (λ t. t.held.texts ≡ texts) }
{
    let mut sum = Sha1::new();
    let mut held = Held::new(alloc, texts);
    let mut is_empty = true;
    'pieces: while tries.count < u64::MAX {
        tries.count += 1;
        match input.read(piece) {
            Ok(0) => {
                let sha1 = Sha1Sum(sum.finalize());
                return Ok(SummedText {
                    is_empty,
                    sha1,
                    held,
                });
            }
            Ok(count) => {
                let read = &piece[..count];
                sum.update(read);
                held.add(read)?;
                is_empty = false;
            }
            Err(error) if error.kind() == ErrorKind::Interrupted => {}
            Err(error) => {
                tries.failed = true;
                return Err(TextFault::Refused(PristineFault::Read(error)));
            }
        }
    }
    // no file has so many pieces
    let error = io::Error::from(ErrorKind::TimedOut);
    Err(TextFault::Refused(PristineFault::Read(error)))
}

// Why it isn't the text that was named: it has another name.
fn other_text(text: &SummedText) -> PristineFault
    ensures { result ≡ (if text.now.is_empty then Empty else WrongSha1) }
{
    if text.is_empty {
        PristineFault::Empty
    } else {
        PristineFault::WrongSha1
    }
}

/// Reads pristine texts, each into the same buffer.
#[derive(Drop)]
pub(crate) struct TextReader {
    alloc: Global,
    /// How texts are kept.
    pub(crate) texts: Texts,
    piece: Vec<u8>,
    ghost room: { 0 < length piece.items },
}

impl TextReader {
    pub(crate) fn new(alloc: Global, texts: Texts) -> Result<TextReader, AllocError>
        ensures { IfOk result (λ reader. reader.texts ≡ texts) }
    {
        let piece = vec![in alloc; 0u8; PIECE]?;
        Ok(TextReader {
            alloc,
            texts,
            piece,
        })
    }

    /// Reads a pristine text, and returns what it is kept as, if it is the text that the stand-in names.
    pub(crate) fn read<R: Read>(&mut self, input: &mut R, name: &Text) -> Result<Text, TextFault>
        ensures text { IfOk result (λ t. (text : List ℕ) × IsPristine (R.remaining input.old) name.now text × (t ≡ kept self.old.texts text)) }
        ensures fault { IfErr result (IsTextFault (R.remaining input.old) name.now) }
        ensures texts { self.new.texts ≡ self.old.texts }
    {
        let mut tries = Tries {
            count: 0,
            failed: false,
        };
        let text = read_summed(self.alloc, input, &mut self.piece, self.texts, &mut tries)?;
        let found = stand_in(self.alloc, &text.sha1)?;
        if found != *name {
            return Err(TextFault::Refused(other_text(&text)));
        }
        Ok(text.held.into_text(self.alloc, found)?)
    }
}
