//! Property sections of ten million properties, made as they are read.

use super::history::{LIMITS, load_all, loader_of};
use anyhow::Result;
use std::alloc::Global;
use std::io;
use std::io::Read;
use svn_dump::{DumpFault, Reason, Texts};
use svn_history::LoadFault;
use svn_types::Rev;

// How many properties there are: as many as seven digits can name.
const COUNT: u32 = 10_000_000;

// How long each of them is, and the section with its end.
const ENTRY: usize = 19;

const SECTION: u64 = 190_000_010;

/// The entries of a property section, which have names of their own: `p0000000` and so on.
#[derive(Drop)]
struct Entries {
    // The entry at hand, and how many of its bytes are read.
    entry: [u8; ENTRY],
    done: usize,
    // How many entries are left, with this one.
    left: u32,
}

impl Entries {
    fn new() -> Entries {
        Entries {
            entry: *b"K 8\np0000000\nV 1\nv\n",
            done: 0,
            left: COUNT,
        }
    }

    // Goes on to the next name.
    fn advance(&mut self) {
        self.done = 0;
        self.left = self.left.saturating_sub(1);
        for place in (5..12).rev() {
            if self.entry[place] < b'9' {
                self.entry[place] += 1;
                return;
            }
            self.entry[place] = b'0';
        }
    }
}

impl Read for Entries {
    fn read(&mut self, buf: &mut [u8]) -> io::Result<usize> {
        if self.done >= ENTRY {
            self.advance();
        }
        if self.left == 0 || self.done >= ENTRY {
            return Ok(0);
        }
        let rest = &self.entry[self.done..];
        let count = rest.len().min(buf.len());
        buf[..count].copy_from_slice(&rest[..count]);
        self.done += count;
        Ok(count)
    }
}

const FRONT: &str = "SVN-fs-dump-format-version: 2\n\n";

// The headers of a record with such a section.
const SECTION_LENGTHS: &str = "Prop-content-length: 190000010\nContent-length: 190000010\n\n";

const END: &str = "PROPS-END\n\n";

// Loads a dump whose last record begins so and has the properties, up to its end.
fn load(alloc: Global, record: &str, entries: &mut Entries) -> Result<Result<Rev, LoadFault>> {
    let mut front = FRONT.as_bytes().to_vec(alloc)?;
    front.extend_from_slice(record.as_bytes())?;
    front.extend_from_slice(SECTION_LENGTHS.as_bytes())?;
    let input = front.as_slice().chain(entries).chain(END.as_bytes());
    let mut loader = loader_of(alloc, input, Texts::Whole)?;
    match load_all(&mut loader) {
        Ok(()) => Ok(Ok(loader.into_repo().latest())),
        Err(fault) => Ok(Err(fault)),
    }
}

// More entries than a buffer holds: where fewer were read, none was but to fill the buffer.
const FEW: u32 = 1000;

// Whether a node with so many properties is refused by the limit, before they are read.
fn is_node_refused(alloc: Global) -> Result<bool> {
    let mut entries = Entries::new();
    let record = "Revision-number: 1\n\nNode-path: a\nNode-kind: file\nNode-action: add\n";
    let loaded = load(alloc, record, &mut entries)?;
    let limit = LIMITS.props as u64;
    let refusal = LoadFault::Dump(DumpFault::Refused(Reason::PropsTooLong(SECTION, limit)));
    Ok(loaded == Err(refusal) && entries.left > COUNT - FEW)
}

// Whether a revision with so many properties of its own is loaded: they are passed over to the last one.
fn is_revision_loaded(alloc: Global) -> Result<bool> {
    let mut entries = Entries::new();
    let loaded = load(alloc, "Revision-number: 1\n", &mut entries)?;
    Ok(loaded == Ok(Rev(1)) && entries.left == 0)
}

/// How many of these don't end as they should.
pub fn taken_wrongly(alloc: Global) -> Result<usize> {
    let node = usize::from(!is_node_refused(alloc)?);
    let revision = usize::from(!is_revision_loaded(alloc)?);
    Ok(node.saturating_add(revision))
}
