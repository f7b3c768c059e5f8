//! The lines of a script, read one by one.

use crate::fault::Fault;
use std::alloc::Global;
use std::io::{BufRead, BufReader, Read};
use svn_script::{MAX_SCRIPT, split_once};

/// The lines of what is left of a reader.
#[derive(Drop)]
pub(crate) struct Lines<R> {
    input: BufReader<R>,
    line: Vec<u8>,
    number: u64,
}

// How far a line was read.
enum Piece {
    // The line goes on.
    More,
    // The line has its line feed.
    Whole,
    // The bytes are at their end.
    Last,
}

// Puts the next bytes of a line after the others.
fn read_piece<R: Read + Drop>(
    input: &mut BufReader<R>,
    line: &mut Vec<u8>,
) -> Result<Piece, Fault> {
    let Ok(bytes) = input.fill_buf() else {
        return Err(Fault::Read);
    };
    if bytes.is_empty() {
        return Ok(Piece::Last);
    }
    let (count, piece) = match split_once(bytes, b'\n') {
        Some((front, rest)) => {
            line.extend_from_slice(front)?;
            (bytes.len().saturating_sub(rest.len()), Piece::Whole)
        }
        None => {
            line.extend_from_slice(bytes)?;
            (bytes.len(), Piece::More)
        }
    };
    input.consume(count);
    Ok(piece)
}

impl<R: Read + Drop> Lines<R> {
    /// The lines of a reader.
    pub(crate) fn new(alloc: Global, input: R) -> Result<Lines<R>, Fault> {
        match BufReader::new(alloc, input) {
            Ok(input) => Ok(Lines {
                input,
                line: Vec::new(alloc),
                number: 0,
            }),
            Err(_) => Err(Fault::Memory),
        }
    }

    /// The line that was read last, without its line feed.
    pub(crate) fn line(&self) -> &[u8] {
        self.line.as_slice()
    }

    /// The number of that line, counted from 1.
    pub(crate) fn number(&self) -> u64 {
        self.number
    }

    /// Reads the next line, and returns whether there is one. A line may be as long as a whole script of `svnup`.
    pub(crate) fn read_next(&mut self) -> Result<bool, Fault> {
        self.line.clear();
        self.number = self.number.saturating_add(1);
        // each piece but the last has at least one byte
        for _ in 0..=MAX_SCRIPT {
            match read_piece(&mut self.input, &mut self.line)? {
                Piece::More if self.line.len() <= MAX_SCRIPT => {}
                Piece::More | Piece::Whole => break,
                Piece::Last => return Ok(!self.line.is_empty()),
            }
        }
        if self.line.len() > MAX_SCRIPT {
            return Err(Fault::LongLine(self.number));
        }
        Ok(true)
    }
}
