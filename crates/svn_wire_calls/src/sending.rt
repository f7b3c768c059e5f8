//! Texts, sent piece by piece: no more than a piece is in memory.
ghost use Rattle.std.specs.Prelude.{◌≡◌, ◌≤◌, ◌<◌, ◌+◌, ◌++◌, ℕ, List, [], true, false, length, min, IfOk, OnOk};
ghost use Rattle.std.specs.Io.KnownBytes.{Appends, Consumes};
ghost use Rattle.svn_wire_calls.specs.Pieces.{piece_bytes, no_bytes, sent_bytes, sums_of, Sums};
ghost use Rattle.svn_wire_calls.specs.Sending.{SendsNext, HasSent};

use crate::pieces::{Form, PIECE, push_no_bytes, push_piece};
use crate::sums::{Running, TextSums};
use crate::texts::{SendFault, TextMap};
use std::alloc::Global;
use std::io::{Read, Seek, SeekFrom, Write};
use svn_types::Text;

/// A text as far as it was sent.
#[derive(Drop)]
pub(crate) struct Sent {
    running: Running,
    // How many bytes are left.
    left: u64,
    // Whether none was sent.
    is_first: bool,
}

/// Writes what is complete.
pub(crate) fn write_out<W: Write>(writer: &mut W, bytes: &[u8]) -> Result<(), SendFault>
    ensures { OnOk result (Appends (W.contents writer.old) (W.contents writer.new) bytes.now) }
{
    match writer.write_all(bytes) {
        Ok(()) => Ok(()),
        Err(error) => Err(SendFault::Write(error)),
    }
}

fn read_exactly<R: Read>(reader: &mut R, piece: &mut [u8]) -> Result<(), SendFault>
    ensures { OnOk result (Consumes (R.remaining reader.old) (R.remaining reader.new) piece.new) }
{
    match reader.read_exact(piece) {
        Ok(()) => Ok(()),
        Err(error) => Err(SendFault::Texts(error)),
    }
}

// A piece, written.
fn write_piece<W: Write>(
    alloc: Global,
    form: Form,
    is_first: bool,
    piece: &[u8],
    writer: &mut W,
) -> Result<(), SendFault>
    ensures { OnOk result (Appends (W.contents writer.old) (W.contents writer.new) (piece_bytes form is_first piece.now)) }
{
    let mut out = Vec::new(alloc);
    push_piece(&mut out, form, is_first, piece)?;
    write_out(writer, &out)
}

impl Sent {
    // Sends the next piece, by a buffer of its size.
    fn send_piece<R: Read, W: Write>(
        &mut self,
        alloc: Global,
        form: &Form,
        reader: &mut R,
        writer: &mut W,
        piece: &mut [u8],
    ) -> Result<(), SendFault>
        requires some { 0 < length piece.old }
        requires small { length piece.old ≤ self.old.left }
        ensures { OnOk result (SendsNext form.now self.old self.new (R.remaining reader.old) (R.remaining reader.new) (W.contents writer.old) (W.contents writer.new) piece.new) }
    {
        read_exactly(reader, piece)?;
        self.running.update(piece);
        write_piece(alloc, *form, self.is_first, piece, writer)?;
        self.is_first = false;
        self.left -= piece.len() as u64;
        Ok(())
    }
}

// Sends all pieces of a text, by a buffer of the size of one.
fn send_pieces<R: Read, W: Write>(
    alloc: Global,
    form: &Form,
    reader: &mut R,
    len: u64,
    writer: &mut W,
    buffer: &mut [u8],
) -> Result<TextSums, SendFault>
    requires some { 0 < len }
    requires room { length buffer.old ≡ 102400 }
    ensures { IfOk result (λ sums. (text : List ℕ) × (length text ≡ len) × (sums ≡ sums_of text) × Consumes (R.remaining reader.old) (R.remaining reader.new) text × Appends (W.contents writer.old) (W.contents writer.new) (sent_bytes form.now text)) }
{
    let mut sent = Sent {
        running: Running::new(),
        left: len,
        is_first: true,
    };
    'pieces: while sent.left > 0 {
        let count = sent.left.min(PIECE as u64) as usize;
        sent.send_piece(alloc, form, reader, writer, &mut buffer[..count])?;
    }
    Ok(sent.running.finish(len))
}

/// Reads a text of so many bytes, and writes it piece by piece. Returns its checksums.
pub(crate) fn send_all<R: Read, W: Write>(
    alloc: Global,
    form: Form,
    reader: &mut R,
    len: u64,
    writer: &mut W,
) -> Result<TextSums, SendFault>
    ensures { IfOk result (λ sums. (text : List ℕ) × (length text ≡ len) × (sums ≡ sums_of text) × Consumes (R.remaining reader.old) (R.remaining reader.new) text × Appends (W.contents writer.old) (W.contents writer.new) (sent_bytes form text)) }
{
    if len > 0 {
        let mut buffer = vec![in alloc; 0u8; PIECE]?;
        return send_pieces(alloc, &form, reader, len, writer, &mut buffer);
    }
    let mut out = Vec::new(alloc);
    push_no_bytes(&mut out, form)?;
    write_out(writer, &out)?;
    Ok(Running::new().finish(0))
}

/// Sends a text that is in memory.
pub(crate) fn send_held<W: Write>(
    alloc: Global,
    form: Form,
    text: &[u8],
    writer: &mut W,
) -> Result<(), SendFault>
    ensures { OnOk result (Appends (W.contents writer.old) (W.contents writer.new) (sent_bytes form text.now)) }
{
    let mut rest = text;
    let _sums = send_all(alloc, form, &mut rest, text.len() as u64, writer)?;
    Ok(())
}

/// Sends the text that one stands for, out of the file of the texts if it is there.
pub fn send_text<M: TextMap, F: Read + Seek, W: Write>(
    alloc: Global,
    form: Form,
    map: &M,
    held: &Text,
    texts: &mut F,
    writer: &mut W,
) -> Result<(), SendFault>
    ensures { OnOk result ((text : List ℕ) × M.stands_for map.now held.now text × Appends (W.contents writer.old) (W.contents writer.new) (sent_bytes form text)) }
{
    let Some(place) = map.place(alloc, held)? else {
        return send_held(alloc, form, held.as_slice(), writer);
    };
    if let Err(error) = texts.seek(SeekFrom::Start(place.begin)) {
        return Err(SendFault::Texts(error));
    }
    let sums = send_all(alloc, form, texts, place.len, writer)?;
    if map.is_text(alloc, held, &sums)? {
        Ok(())
    } else {
        Err(SendFault::OtherText)
    }
}
