//! Serving a client over a reader and a writer.
ghost use Rattle.std.specs.Prelude.{◌≡◌, ◌≤◌, ◌<◌, List, ℕ, length, take, option_map, IfOk, IfSome, OnOk};
ghost use Rattle.std.specs.Io.KnownBytes.{Appends, Consumes, IsAtEnd, Keeps};
ghost use Rattle.svn_wire.specs.Streams.{TakesItem};
ghost use Rattle.svn_served.specs.Connection.{Takes};
ghost use Rattle.svn_served.specs.Serving.{Goes, Reads, IsDone, DoneUnless, IsServed};

use crate::connection::{Phase, take, write_out};
use crate::fault::ServeFault;
use crate::opening::GREETING;
use std::alloc::Global;
use std::io::{Error, ErrorKind, Read, Seek, Write};
use std::mem;
use svn_replies::Served;
use svn_wire::{ItemStream, Limits, Stop, Token, WireFault};

/// How many bytes are read at a time.
const PIECE: usize = 1 << 16;

/// The limits of what a client sends: strings of 1 MiB and 64 KiB more, and items of 65,536 tokens.
pub const CLIENT_LIMITS: Limits = Limits {
    text: 1114112,
    depth: 64,
    tokens: 65536,
};

/// A connection as far as it came.
#[derive(Drop)]
struct Serving<'a, F> {
    alloc: Global,
    served: &'a Served,
    // the file of the texts
    texts: &'a mut F,
    phase: Phase,
    stream: ItemStream,
}

fn fault_of(fault: WireFault) -> ServeFault {
    match fault {
        WireFault::Stopped(Stop::Bad(malformed)) => ServeFault::Malformed(malformed),
        // where more bytes are needed nothing is refused
        WireFault::Stopped(Stop::More) => ServeFault::BadCommand,
        WireFault::Memory => ServeFault::Memory,
    }
}

// The next item, if all its bytes came.
fn next_item(stream: &mut ItemStream) -> Result<Option<Vec<Token>>, ServeFault>
    ensures { IfOk result (λ item. TakesItem stream.old (option_map (λ v. v.items) item) stream.new) }
{
    match stream.next_item() {
        Ok(item) => Ok(item),
        Err(fault) => Err(fault_of(fault)),
    }
}

// Reads more bytes of a client; none at their end.
fn read_more<R: Read>(reader: &mut R, piece: &mut [u8]) -> Result<usize, ServeFault>
    ensures count { IfOk result (λ n. n ≤ length piece.new) }
    ensures consumed { IfOk result (λ n. Consumes (R.remaining reader.old) (R.remaining reader.new) (take n piece.new)) }
    ensures end { IfOk result (λ n. n ≡ 0 → 0 < length piece.old → IsAtEnd (R.remaining reader.new)) }
{
    'reads: for _ in 0..u64::MAX {
        match reader.read(piece) {
            Ok(count) => return Ok(count),
            Err(error) if error.kind() == ErrorKind::Interrupted => {}
            Err(error) => return Err(ServeFault::Read(error)),
        }
    }
    // no client is interrupted so often
    Err(ServeFault::Read(Error::from(ErrorKind::Interrupted)))
}

fn flush<W: Write>(writer: &mut W) -> Result<(), ServeFault>
    ensures { Keeps (W.contents writer.old) (W.contents writer.new) }
{
    match writer.flush() {
        Ok(()) => Ok(()),
        Err(error) => Err(ServeFault::Write(error)),
    }
}

impl<F: Read + Seek> Serving<'_, F> {
    // Takes an item.
    fn take_item<W: Write>(&mut self, item: &[Token], writer: &mut W) -> Result<(), ServeFault>
        ensures taken { OnOk result ((bytes : List ℕ) × Takes self.old.served.now self.old.phase item.now self.new.phase bytes × Appends (W.contents writer.old) (W.contents writer.new) bytes) }
        ensures served { self.new.served.now ≡ self.old.served.now }
        ensures stream { self.new.stream ≡ self.old.stream }
    {
        let phase = mem::replace(&mut self.phase, Phase::Over);
        self.phase = take(self.alloc, self.served, phase, item, self.texts, writer)?;
        Ok(())
    }

    // Reads on, and says whether more bytes came.
    fn read_on<R: Read, W: Write>(
        &mut self,
        reader: &mut R,
        writer: &mut W,
        piece: &mut [u8],
    ) -> Result<bool, ServeFault>
        requires { 0 < length piece.old }
        ensures came { IfOk result (λ more. Reads more self.old.stream self.new.stream (R.remaining reader.old) (R.remaining reader.new)) }
        ensures written { Keeps (W.contents writer.old) (W.contents writer.new) }
        ensures served { self.new.served.now ≡ self.old.served.now }
        ensures phase { self.new.phase ≡ self.old.phase }
    {
        flush(writer)?;
        let count = read_more(reader, piece)?;
        if count == 0 {
            return Ok(false);
        }
        self.stream.feed(&piece[..count])?;
        Ok(true)
    }

    // Takes the next item, or reads on where none is whole. Says whether there may be more.
    fn go_on<R: Read, W: Write>(
        &mut self,
        reader: &mut R,
        writer: &mut W,
        piece: &mut [u8],
    ) -> Result<bool, ServeFault>
        requires { 0 < length piece.old }
        ensures goes { IfOk result (λ more. Goes self.old.served.now self.old.phase self.old.stream self.new.phase self.new.stream (R.remaining reader.old) (R.remaining reader.new) (W.contents writer.old) (W.contents writer.new)) }
        ensures done { IfOk result (λ more. DoneUnless more self.new.phase self.new.stream (R.remaining reader.new)) }
        ensures served { self.new.served.now ≡ self.old.served.now }
    {
        if self.phase.is_over() {
            return Ok(false);
        }
        match next_item(&mut self.stream)? {
            Some(item) => {
                self.take_item(&item, writer)?;
                Ok(true)
            }
            None => self.read_on(reader, writer, piece),
        }
    }

    // Goes on to the end of the input, or to where the connection is over.
    fn go_to_end<R: Read, W: Write>(
        &mut self,
        reader: &mut R,
        writer: &mut W,
        piece: &mut [u8],
    ) -> Result<(), ServeFault>
        requires { 0 < length piece.old }
        ensures goes { OnOk result (Goes self.old.served.now self.old.phase self.old.stream self.new.phase self.new.stream (R.remaining reader.old) (R.remaining reader.new) (W.contents writer.old) (W.contents writer.new)) }
        ensures done { OnOk result (IsDone self.new.phase self.new.stream (R.remaining reader.new)) }
    {
        'items: for _ in 0..u64::MAX {
            if !self.go_on(reader, writer, piece)? {
                return Ok(());
            }
        }
        // no client sends so many
        Err(ServeFault::BadCommand)
    }
}

// Serves a client to the end of its input, or to where it is refused.
fn serve_items<R: Read, W: Write, F: Read + Seek>(
    alloc: Global,
    served: &Served,
    texts: &mut F,
    reader: &mut R,
    writer: &mut W,
) -> Result<(), ServeFault>
    ensures { OnOk result (IfSome (R.remaining reader.old) (λ input. (output : List ℕ) × IsServed served.now input output × Appends (W.contents writer.old) (W.contents writer.new) output)) }
{
    let mut serving = Serving {
        alloc,
        served,
        texts,
        phase: Phase::Greeted,
        stream: ItemStream::new(alloc, CLIENT_LIMITS),
    };
    let mut piece = vec![in alloc; 0u8; PIECE]?;
    write_out(writer, GREETING)?;
    serving.go_to_end(reader, writer, &mut piece)
}

/// Serves one connection, to the end of its input. The writer is flushed before each read, and at the end.
///
/// Malformed where the client's bytes are no items, BadCommand where an item is none that may come then; Read and Write where the connection fails. Texts,
/// NoText and OtherText where a text can't be read off the file in which the texts are that stand-ins stand for, or isn't the one that it was when the dump
/// was loaded. What was answered before is written all the same.
pub fn serve<R: Read, W: Write, F: Read + Seek>(
    alloc: Global,
    served: &Served,
    texts: &mut F,
    reader: &mut R,
    writer: &mut W,
) -> Result<(), ServeFault>
    ensures { OnOk result (IfSome (R.remaining reader.old) (λ input. (output : List ℕ) × IsServed served.now input output × Appends (W.contents writer.old) (W.contents writer.new) output)) }
{
    let done = serve_items(alloc, served, texts, reader, writer);
    let flushed = flush(writer);
    done?;
    flushed
}
