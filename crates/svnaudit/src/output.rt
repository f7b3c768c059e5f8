//! Standard output, written in large pieces.

use crate::fault::Fault;
use std::io;
use std::io::{BufWriter, ErrorKind, Printer, Write};

// How many bytes are written at a time: as many as a pipe takes.
const WRITTEN_AT_ONCE: usize = 1 << 16;

// How many bytes are told at a time, on standard error: a line.
const TOLD_AT_ONCE: usize = 1 << 12;

/// Standard error, as a writer of text.
#[derive(Drop)]
pub(crate) struct Notices<'a, T> {
    rt: &'a T,
}

impl<T: Eprint> Write for Notices<'_, T> {
    fn write(&mut self, buf: &[u8]) -> io::Result<usize> {
        match str::from_utf8(buf) {
            Ok(text) => {
                eprint!(self.rt; "{text}")?;
                Ok(buf.len())
            }
            Err(_) => Err(io::Error::from(ErrorKind::InvalidData)),
        }
    }

    fn flush(&mut self) -> io::Result<()> {
        Ok(())
    }
}

/// Standard output.
pub(crate) fn output_writer<T: Print + AllocGlobal>(
    rt: &T,
) -> Result<BufWriter<Printer<'_, T>>, Fault> {
    match BufWriter::with_capacity(rt.alloc(), WRITTEN_AT_ONCE, io::writer(rt)) {
        Ok(writer) => Ok(writer),
        Err(_) => Err(Fault::Memory),
    }
}

/// Standard error.
pub(crate) fn error_writer<T: Eprint + AllocGlobal>(
    rt: &T,
) -> Result<BufWriter<Notices<'_, T>>, Fault> {
    match BufWriter::with_capacity(rt.alloc(), TOLD_AT_ONCE, Notices { rt }) {
        Ok(writer) => Ok(writer),
        Err(_) => Err(Fault::Memory),
    }
}
