//! Bytes off a reader: one, a record's headers, or so many.
ghost use Rattle.std.specs.Prelude.{ℕ, nat_eq, List, Option, Bool, true, false, ◌&&◌, ◌≡◌, ◌≢◌, ◌↔◌, ◌∷◌, ◌++◌, [], ◌<◌, ◌≤◌, ◌+◌, length, take, vec_len, IsSome, IsTrue, IfOk, IfErr, MatchOption, MatchResult};
ghost use Rattle.std.specs.Io.{ReadsAtMost};
ghost use Rattle.std.specs.Io.Buffered.{reader_remaining, reader_buffer};
ghost use Rattle.std.specs.List.{position_or_len};
ghost use Rattle.std.specs.Io.KnownBytes.{Consumes, Keeps, IsAtEnd, ReadConsumes};
ghost use Rattle.svn_dump.specs.Reading.{Reads, FailsWith};
ghost use Rattle.svn_dump.specs.Counts.{Counts, Grows};
ghost use Rattle.svn_dump.specs.Blocks.{byte_at, headers_at, block_at, bytes_at, with_front, is_space, is_line_feed, PieceRead};

use crate::fault::{DumpFault, Reason};
use std::alloc::Global;
use std::io::{BufRead, BufReader, Read, Result as IoResult};
use svn_types::split_once;

/// The most bytes that are read at a time.
pub(crate) const PIECE: usize = 8192;

/// A reader that counts the bytes that were taken from it, so that a contract can say where a record begins.
pub(crate) trait Input {
    // The bytes that reads will give from here on, where they are known.
    ghost remaining: { Self → Option (List ℕ) };

    // How many were taken so far.
    ghost taken: { Self → ℕ };

    // Whether a read failed so far.
    ghost failed: { Self → Bool };

    // What was read ahead: the front of what is left.
    ghost ahead: { Self → List ℕ };

    /// As `Read::read`.
    fn read(&mut self, buf: &mut [u8]) -> IoResult<usize>
        ensures bound { ReadsAtMost result buf.new }
        ensures bytes { ReadConsumes (remaining self.old) (remaining self.new) result buf.new }
        ensures counted { Counts (taken self.old) (remaining self.old) (taken self.new) (remaining self.new) }
        ensures grows { taken self.old ≤ taken self.new }
        ensures grown { IfOk result (λ n. Grows (taken self.old) n (taken self.new)) }
        ensures failed { MatchResult result (λ _. failed self.new ≡ failed self.old) (λ _. failed self.new ≡ true) };

    /// The bytes that were read ahead.
    fn buffer(&self) -> &[u8]
        ensures { result.now ≡ ahead self.now };

    /// Takes so many of the bytes that were read ahead.
    fn consume(&mut self, amount: usize)
        requires { amount ≤ length (ahead self.old) }
        ensures bytes { Consumes (remaining self.old) (remaining self.new) (take amount (ahead self.old)) }
        ensures counted { Counts (taken self.old) (remaining self.old) (taken self.new) (remaining self.new) }
        ensures grown { Grows (taken self.old) amount (taken self.new) }
        ensures failed { failed self.new ≡ failed self.old };
}

/// A reader with a buffer before it, which counts the bytes that were taken from it.
#[derive(Drop)]
pub(crate) struct Source<R> {
    input: BufReader<R>,
    taken: u64,
    // Whether a read of the input failed.
    failed: bool,
}

impl<R: Read + Drop> Source<R> {
    pub(crate) fn new(alloc: Global, input: R) -> Result<Source<R>, DumpFault>
        ensures bytes { IfOk result (λ s. reader_remaining R.remaining s.input ≡ R.remaining input) }
        ensures none_taken { IfOk result (λ s. s.taken ≡ 0) }
        ensures unfailed { IfOk result (λ s. s.failed ≡ false) }
        ensures fault { IfErr result (λ e. e ≡ DumpFault.Memory) }
    {
        match BufReader::new(alloc, input) {
            Ok(input) => Ok(Source {
                input,
                taken: 0,
                failed: false,
            }),
            Err(_) => Err(DumpFault::Memory),
        }
    }

    /// How many bytes were taken so far.
    pub(crate) fn taken(&self) -> u64
        ensures { result ≡ self.now.taken }
    {
        self.taken
    }
}

impl<R: Read> Input for Source<R> {
    ghost remaining = { λ s. reader_remaining R.remaining s.input };

    ghost taken = { λ s. s.taken };

    ghost failed = { λ s. s.failed };

    ghost ahead = { λ s. reader_buffer s.input };

    fn read(&mut self, buf: &mut [u8]) -> IoResult<usize> {
        match self.input.read(buf) {
            Ok(count) => {
                self.taken = self.taken.saturating_add(count as u64);
                Ok(count)
            }
            Err(error) => {
                self.failed = true;
                Err(error)
            }
        }
    }

    fn buffer(&self) -> &[u8] {
        self.input.buffer()
    }

    fn consume(&mut self, amount: usize) {
        self.input.consume(amount);
        self.taken = self.taken.saturating_add(amount as u64);
    }
}

// Takes the next byte that was read ahead, if there is one.
fn take_byte<S: Input>(source: &mut S) -> Option<u8>
    ensures bytes { MatchOption result (S.remaining source.new ≡ S.remaining source.old) (λ b. Consumes (S.remaining source.old) (S.remaining source.new) (b ∷ [])) }
    ensures counted { Counts (S.taken source.old) (S.remaining source.old) (S.taken source.new) (S.remaining source.new) }
    ensures taken { MatchOption result (S.taken source.new ≡ S.taken source.old) (λ _. Grows (S.taken source.old) 1 (S.taken source.new)) }
    ensures failed { S.failed source.new ≡ S.failed source.old }
{
    let byte = *source.buffer().first()?;
    source.consume(1);
    Some(byte)
}

// The next byte, if there is one.
fn read_byte<S: Input>(source: &mut S) -> Result<Option<u8>, DumpFault>
    ensures bytes { Reads (λ b. b) (S.remaining source.old) (S.remaining source.new) result byte_at }
    ensures counted { Counts (S.taken source.old) (S.remaining source.old) (S.taken source.new) (S.remaining source.new) }
    ensures grows { S.taken source.old ≤ S.taken source.new }
    ensures failed { FailsWith (S.failed source.old) (S.failed source.new) result }
    ensures grown { IfOk result (λ byte. IsSome byte → Grows (S.taken source.old) 1 (S.taken source.new)) }
{
    if let Some(byte) = take_byte(source) {
        return Ok(Some(byte));
    }
    let mut byte = [0u8; 1];
    match source.read(&mut byte) {
        Ok(0) => Ok(None),
        Ok(_) => Ok(Some(byte[0])),
        Err(_) => Err(DumpFault::Read),
    }
}

// Whether a byte is white space to C's `isspace`.
fn is_space(byte: u8) -> bool
    ensures { result ≡ is_space byte }
{
    byte == b' ' || (9..=13).contains(&byte)
}

fn is_line_feed(byte: u8) -> bool
    ensures { result ≡ is_line_feed byte }
{
    byte == b'\n'
}

// How many of these bytes are before the first line feed, at most as many as there is room for.
fn line_len(bytes: &[u8], room: usize) -> usize
    ensures line { result ≤ position_or_len is_line_feed bytes.now }
    ensures within { result ≤ length bytes.now }
    ensures fits { result ≤ room }
{
    let len = match split_once(bytes, b'\n') {
        Some((line, _)) => line.len(),
        None => bytes.len(),
    };
    len.min(room)
}

// Takes the bytes that were read ahead up to a line feed, at most as many as there is room for, and returns how many they are.
fn take_ahead<S: Input>(
    source: &mut S,
    block: &mut Vec<u8>,
    room: usize,
) -> Result<usize, DumpFault>
    ensures fits { IfOk result (λ n. n ≤ room) }
    ensures line { IfOk result (λ n. n ≤ position_or_len is_line_feed (S.ahead source.old)) }
    ensures kept { IfOk result (λ n. block.new.items ≡ block.old.items ++ take n (S.ahead source.old)) }
    ensures len { IfOk result (λ n. vec_len block.new ≡ vec_len block.old + n) }
    ensures bytes { IfOk result (λ n. Consumes (S.remaining source.old) (S.remaining source.new) (take n (S.ahead source.old))) }
    ensures counted { Counts (S.taken source.old) (S.remaining source.old) (S.taken source.new) (S.remaining source.new) }
    ensures grows { S.taken source.old ≤ S.taken source.new }
    ensures failed { S.failed source.new ≡ S.failed source.old }
    ensures fault { IfErr result (λ e. e ≡ DumpFault.Memory) }
{
    let ahead = source.buffer();
    let count = line_len(ahead, room);
    block.extend_from_slice(&ahead[..count])?;
    source.consume(count);
    Ok(count)
}

// Whether a line still begins after so many bytes of it.
fn is_still_fresh(fresh: bool, count: usize) -> bool
    ensures { result ≡ (fresh && nat_eq count 0) }
{
    fresh && count == 0
}

// Reads the headers whose first byte was read: lines up to the first empty one; nothing of them is kept.
fn read_headers<S: Input>(
    alloc: Global,
    source: &mut S,
    first: u8,
    room: usize,
) -> Result<Vec<u8>, DumpFault>
    ensures headers { Reads (λ v. v.items) (S.remaining source.old) (S.remaining source.new) result (λ bs. with_front (first ∷ []) (headers_at false room bs)) }
    ensures counted { Counts (S.taken source.old) (S.remaining source.old) (S.taken source.new) (S.remaining source.new) }
    ensures grows { S.taken source.old ≤ S.taken source.new }
    ensures failed { FailsWith (S.failed source.old) (S.failed source.new) result }
    ensures bounded { IfOk result (λ v. length v.items ≤ room + 1) }
{
    let mut block = Vec::new(alloc);
    block.push(first)?;
    let mut fresh = false;
    let mut left = room;
    'bytes: loop {
        let count = take_ahead(source, &mut block, left)?;
        left -= count;
        fresh = is_still_fresh(fresh, count);
        let byte = match read_byte(source) {
            Ok(Some(byte)) => byte,
            Ok(None) => return Err(DumpFault::Refused(Reason::CutOff)),
            Err(fault) => return Err(fault),
        };
        if fresh && is_line_feed(byte) {
            return Ok(block);
        }
        if left == 0 {
            return Err(DumpFault::Refused(Reason::HeadersTooLong));
        }
        left -= 1;
        block.push(byte)?;
        fresh = is_line_feed(byte);
    }
}

/// Reads the headers of the next record, each line with its line feed, after blank lines and lines that begin with white space; no bytes at the
/// end of all. These lines and the headers have `room` bytes at most together.
pub(crate) fn read_block<S: Input>(
    alloc: Global,
    source: &mut S,
    room: usize,
) -> Result<Vec<u8>, DumpFault>
    ensures headers { Reads (λ v. v.items) (S.remaining source.old) (S.remaining source.new) result (block_at false room) }
    ensures counted { Counts (S.taken source.old) (S.remaining source.old) (S.taken source.new) (S.remaining source.new) }
    ensures grows { S.taken source.old ≤ S.taken source.new }
    ensures failed { FailsWith (S.failed source.old) (S.failed source.new) result }
    ensures bounded { IfOk result (λ v. length v.items ≤ room) }
    ensures grown { IfOk result (λ v. v.items ≢ [] → Grows (S.taken source.old) 1 (S.taken source.new)) }
{
    let mut blank = false;
    let mut left = room;
    'bytes: loop {
        let byte = match read_byte(source) {
            Ok(Some(byte)) => byte,
            Ok(None) => return Ok(Vec::new(alloc)),
            Err(fault) => return Err(fault),
        };
        if left == 0 {
            return Err(DumpFault::Refused(Reason::HeadersTooLong));
        }
        left -= 1;
        if !blank && !is_space(byte) {
            return read_headers(alloc, source, byte, left);
        }
        blank = !is_line_feed(byte);
    }
}

/// Reads at least one byte and at most `left`, which isn't 0, into the front of a piece, and returns how many.
pub(crate) fn read_piece<S: Input>(
    source: &mut S,
    piece: &mut [u8; PIECE],
    left: u64,
) -> Result<usize, DumpFault>
    requires { 0 < left }
    ensures count { IfOk result (λ n. (0 < n) × (n ≤ left) × (n ≤ length piece.new)) }
    ensures bytes { PieceRead (S.remaining source.old) (S.remaining source.new) result piece.new }
    ensures counted { Counts (S.taken source.old) (S.remaining source.old) (S.taken source.new) (S.remaining source.new) }
    ensures grows { S.taken source.old ≤ S.taken source.new }
    ensures failed { FailsWith (S.failed source.old) (S.failed source.new) result }
{
    let room = if left < PIECE as u64 {
        left as usize
    } else {
        PIECE
    };
    match source.read(&mut piece[..room]) {
        Ok(0) => Err(DumpFault::Refused(Reason::CutOff)),
        Ok(count) => Ok(count),
        Err(_) => Err(DumpFault::Read),
    }
}

/// Whether so many bytes were read ahead.
pub(crate) fn has_ahead<S: Input>(source: &S, count: u64) -> bool
    ensures { IsTrue result ↔ (count ≤ length (S.ahead source.now)) }
{
    count <= source.buffer().len() as u64
}

/// Reads so many bytes.
pub(crate) fn read_bytes<S: Input>(
    alloc: Global,
    source: &mut S,
    count: usize,
) -> Result<Vec<u8>, DumpFault>
    ensures bytes { Reads (λ v. v.items) (S.remaining source.old) (S.remaining source.new) result (bytes_at count) }
    ensures counted { Counts (S.taken source.old) (S.remaining source.old) (S.taken source.new) (S.remaining source.new) }
    ensures grows { S.taken source.old ≤ S.taken source.new }
    ensures failed { FailsWith (S.failed source.old) (S.failed source.new) result }
{
    // (what was read ahead needs no piece, whose zeros would cost more than a short section)
    if has_ahead(source, count as u64) {
        let bytes = Vec::from_slice(alloc, &source.buffer()[..count])?;
        source.consume(count);
        return Ok(bytes);
    }
    read_pieces(alloc, source, count)
}

// Reads so many bytes, piece by piece.
fn read_pieces<S: Input>(alloc: Global, source: &mut S, count: usize) -> Result<Vec<u8>, DumpFault>
    ensures bytes { Reads (λ v. v.items) (S.remaining source.old) (S.remaining source.new) result (bytes_at count) }
    ensures counted { Counts (S.taken source.old) (S.remaining source.old) (S.taken source.new) (S.remaining source.new) }
    ensures grows { S.taken source.old ≤ S.taken source.new }
    ensures failed { FailsWith (S.failed source.old) (S.failed source.new) result }
{
    let mut bytes = Vec::with_capacity(alloc, count)?;
    let mut piece = [0u8; PIECE];
    'pieces: while bytes.len() < count {
        let left = (count - bytes.len()) as u64;
        let read = read_piece(source, &mut piece, left)?;
        bytes.extend_from_slice(&piece[..read])?;
    }
    Ok(bytes)
}
