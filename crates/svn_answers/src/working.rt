//! Whether the file of a working copy has the bytes of its pristine text.
ghost use Rattle.std.specs.Prelude.{◌≡◌, ◌<◌, ◌≤◌, length, IfOk};
ghost use Rattle.svn_answers.specs.Working.{AreCompared, IsAtItsEnd, IsNext, is_translated, is_translation};

use std::alloc::{AllocError, Global};
use std::io;
use std::io::{ErrorKind, Read};
use svn_types::Props;

/// How many bytes are read at a time.
const PIECE: usize = 1 << 16;

// Whether a client writes a file with this property in other bytes than its pristine text has.
fn is_translation(name: &str) -> bool
    ensures { result ≡ is_translation name.now }
{
    matches!(name, "svn:eol-style" | "svn:keywords" | "svn:special")
}

/// Whether a client writes a file with these properties in other bytes than its pristine text has: with other line ends or keywords, or as a symbolic
/// link.
pub fn is_translated(props: &Props) -> bool
    ensures { result ≡ is_translated props.now }
{
    for (name, _) in props.as_map() {
        if is_translation(name.as_str()) {
            return true;
        }
    }
    false
}

// An error that is none of a file: no file has so many pieces.
fn too_many_pieces() -> io::Error {
    io::Error::from(ErrorKind::TimedOut)
}

// Whether the next bytes are these, which then are read.
fn has_next<R: Read>(input: &mut R, wanted: &[u8], piece: &mut [u8]) -> io::Result<bool>
    requires { length wanted.now ≤ length piece.old }
    ensures { IfOk result (λ same. IsNext (R.remaining input.old) (R.remaining input.new) wanted.now same) }
{
    let mut rest = wanted;
    'pieces: for _ in 0..u64::MAX {
        if rest.is_empty() {
            return Ok(true);
        }
        match input.read(&mut piece[..rest.len()]) {
            Ok(0) => return Ok(false),
            Ok(count) => match rest.strip_prefix(&piece[..count]) {
                Some(left) => rest = left,
                None => return Ok(false),
            },
            Err(error) if error.kind() == ErrorKind::Interrupted => {}
            Err(error) => return Err(error),
        }
    }
    Err(too_many_pieces())
}

// Whether no byte is left.
fn is_at_end<R: Read>(input: &mut R, piece: &mut [u8]) -> io::Result<bool>
    requires { 0 < length piece.old }
    ensures { IfOk result (λ at_end. IsAtItsEnd (R.remaining input.old) at_end) }
{
    'pieces: for _ in 0..u64::MAX {
        match input.read(piece) {
            Ok(count) => return Ok(count == 0),
            Err(error) if error.kind() == ErrorKind::Interrupted => {}
            Err(error) => return Err(error),
        }
    }
    Err(too_many_pieces())
}

// Whether both have the same bytes, read into these pieces.
fn are_same<F: Read, T: Read>(
    file: &mut F,
    text: &mut T,
    file_piece: &mut [u8],
    text_piece: &mut [u8],
) -> io::Result<bool>
    requires room { 0 < length file_piece.old }
    requires same_room { length text_piece.old ≡ length file_piece.old }
    ensures { IfOk result (λ same. AreCompared (F.remaining file.old) (T.remaining text.old) same) }
{
    'pieces: for _ in 0..u64::MAX {
        match file.read(file_piece) {
            Ok(0) => return is_at_end(text, text_piece),
            Ok(count) => {
                if !has_next(text, &file_piece[..count], text_piece)? {
                    return Ok(false);
                }
            }
            Err(error) if error.kind() == ErrorKind::Interrupted => {}
            Err(error) => return Err(error),
        }
    }
    Err(too_many_pieces())
}

/// Compares files with texts, piece by piece.
#[derive(Drop)]
pub struct FileComparison {
    file: Vec<u8>,
    text: Vec<u8>,
    ghost room: { 0 < length file.items },
    ghost same_room: { length text.items ≡ length file.items },
}

impl FileComparison {
    /// With a buffer of 64 KiB for each.
    pub fn new(alloc: Global) -> Result<FileComparison, AllocError> {
        Ok(FileComparison {
            file: vec![in alloc; 0u8; PIECE]?,
            text: vec![in alloc; 0u8; PIECE]?,
        })
    }

    /// Whether a file has the bytes of a text, both read to their ends, or up to where they differ. Refused as a reader refuses, unless it was interrupted.
    pub fn have_same_bytes<F: Read, T: Read>(
        &mut self,
        file: &mut F,
        text: &mut T,
    ) -> io::Result<bool>
        ensures { IfOk result (λ same. AreCompared (F.remaining file.old) (T.remaining text.old) same) }
    {
        are_same(file, text, &mut self.file, &mut self.text)
    }
}
