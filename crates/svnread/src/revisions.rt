//! What a dump says of its revisions beside their trees: their properties, which `svn_dump` passes over but for dates and authors, and which paths they changed.

use crate::fault::Fault;
use crate::headers::{Headers, number_of};
use crate::notes::Notes;
use std::alloc::{AllocError, Global};
use std::io::{BufRead, BufReader, Read};
use svn_replies::{Changes, Revisions};
use svn_types::{PathFault, PropName, Props, Rev, Text, split_once};

/// The most bytes of a revision's properties that are kept.
const MOST: u64 = 16777216;

/// So many bytes are passed over at once.
const PIECE: u64 = 65536;

/// What a dump's records are read from.
#[derive(Drop)]
struct Source<R> {
    alloc: Global,
    reader: BufReader<R>,
}

impl<R: Read> Source<R> {
    // A line without its end; None at the end of the dump.
    fn line(&mut self) -> Result<Option<Vec<u8>>, Fault> {
        let mut line = Vec::new(self.alloc);
        match self.reader.read_until(b'\n', &mut line) {
            Ok(0) => Ok(None),
            Ok(_) => {
                if line.last() == Some(&b'\n') {
                    let _end = line.pop();
                }
                Ok(Some(line))
            }
            Err(error) => Err(Fault::Unread(error)),
        }
    }

    // The headers of the next record.
    fn headers(&mut self) -> Result<Option<Headers>, Fault> {
        let mut headers = Headers::new();
        let mut has_begun = false;
        for _ in 0..u64::MAX {
            let Some(line) = self.line()? else {
                return Ok(None);
            };
            if !line.is_empty() {
                headers.note(self.alloc, &line)?;
                has_begun = true;
            } else if has_begun {
                return Ok(Some(headers));
            }
        }
        Ok(None)
    }

    // So many bytes.
    fn bytes(&mut self, count: u64) -> Result<Vec<u8>, Fault> {
        let mut bytes = vec![in self.alloc; 0u8; count as usize]?;
        match self.reader.read_exact(&mut bytes) {
            Ok(()) => Ok(bytes),
            Err(error) => Err(Fault::Unread(error)),
        }
    }

    fn skip(&mut self, count: u64) -> Result<(), Fault> {
        let mut left = count;
        for _ in 0..=count / PIECE {
            let step = left.min(PIECE);
            let _passed = self.bytes(step)?;
            left = left.saturating_sub(step);
        }
        Ok(())
    }
}

// The run of bytes that a line of this letter and a number announces, and what is after it.
fn run<'a>(section: &'a [u8], letter: &[u8]) -> Option<(&'a [u8], &'a [u8])> {
    let (line, rest) = split_once(section, b'\n')?;
    let len = number_of(line.strip_prefix(letter)?)?;
    if rest.len() as u64 <= len {
        return None;
    }
    let (run, rest) = rest.split_at(len as usize);
    Some((run, rest.strip_prefix(b"\n")?))
}

// The properties of a section; what isn't one ends it.
fn props_of(alloc: Global, section: &[u8]) -> Result<Props, AllocError> {
    let mut props = Props::new(alloc);
    let mut rest = section;
    // each takes a byte at least
    for _ in 0..section.len() {
        let Some((name, after)) = run(rest, b"K ") else {
            break;
        };
        let Some((value, after)) = run(after, b"V ") else {
            break;
        };
        match PropName::from_bytes(alloc, name) {
            Ok(name) => props.insert(name, Text::from_slice(alloc, value)?)?,
            Err(PathFault::Memory) => return Err(AllocError),
            // no revision is refused for a name that no node may have
            Err(_) => {}
        }
        rest = after;
    }
    Ok(props)
}

impl<R: Read> Source<R> {
    // The properties of a revision; the rest of its content is passed over.
    fn revision_props(&mut self, headers: &Headers) -> Result<Props, Fault> {
        let kept = headers.props.unwrap_or(0).min(headers.content).min(MOST);
        let section = self.bytes(kept)?;
        self.skip(headers.content.saturating_sub(kept))?;
        Ok(props_of(self.alloc, &section)?)
    }

    // Notes the next record; whether there is one.
    fn note_next(&mut self, notes: &mut Notes) -> Result<bool, Fault> {
        let Some(headers) = self.headers()? else {
            return Ok(false);
        };
        match headers.rev {
            Some(rev) => {
                let props = self.revision_props(&headers)?;
                notes.begin(self.alloc, rev, props)?;
            }
            None => {
                self.skip(headers.content)?;
                notes.change(self.alloc, headers)?;
            }
        }
        Ok(true)
    }
}

/// What a dump says of the revisions up to the last one.
pub(crate) fn read_revisions<R: Read + Drop>(
    alloc: Global,
    input: R,
    latest: Rev,
) -> Result<(Revisions, Changes), Fault> {
    let reader = match BufReader::new(alloc, input) {
        Ok(reader) => reader,
        Err(error) => return Err(Fault::Unread(error)),
    };
    let mut source = Source { alloc, reader };
    let mut notes = Notes::new(alloc, latest);
    for _ in 0..u64::MAX {
        if !source.note_next(&mut notes)? {
            break;
        }
    }
    Ok(notes.finish(alloc)?)
}
