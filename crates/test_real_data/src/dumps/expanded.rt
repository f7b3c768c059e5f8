//! Dumps of deltas, expanded: what is written has whole texts, and loads as the same history.

use super::bases::with_digit;
use anyhow::Result;
use std::alloc::Global;
use std::result::Result as StdResult;
use svn_dump::{
    Action, DumpFault, NodeRecord, Reason, TextDelta, TextSection, push_format, push_node,
    push_revision,
};
use svn_expand::{ExpandFault, Expander, Store, StoreFault};
use svn_types::{Digest, Kind, RelPath, Rev, Text};
use svndiff::encode;

// An expansion in memory.
#[derive(Drop)]
struct Memory {
    bytes: Vec<u8>,
}

impl Store for Memory {
    fn read_at(&mut self, alloc: Global, begin: u64, len: usize) -> StdResult<Vec<u8>, StoreFault> {
        let begin = begin as usize;
        let Some(bytes) = self.bytes.get(begin..begin.saturating_add(len)) else {
            return Err(StoreFault::Failed);
        };
        match bytes.to_vec(alloc) {
            Ok(bytes) => Ok(bytes),
            Err(_) => Err(StoreFault::Memory),
        }
    }
}

// Writes what is left, up to the end or the first fault.
fn write_all(expander: &mut Expander<&[u8]>, store: &mut Memory) -> StdResult<(), ExpandFault> {
    let front = expander.begin()?;
    store.bytes.extend_from_slice(&front)?;
    for _ in 0..u64::MAX {
        match expander.next_record(store)? {
            Some(bytes) => store.bytes.extend_from_slice(&bytes)?,
            None => return Ok(()),
        }
    }
    Ok(())
}

// The expansion of a dump as far as it goes, and why it goes no further.
fn expansion_of(alloc: Global, dump: &[u8]) -> (Vec<u8>, Option<ExpandFault>) {
    let mut store = Memory {
        bytes: Vec::new(alloc),
    };
    let fault = match Expander::new(alloc, dump) {
        Ok(mut expander) => write_all(&mut expander, &mut store).err(),
        Err(fault) => Some(fault),
    };
    (store.bytes, fault)
}

/// The expansion of a dump as far as it goes.
pub fn expanded(alloc: Global, dump: &[u8]) -> Vec<u8> {
    expansion_of(alloc, dump).0
}

// ---- dumps that are cut

/// How many fronts of a dump have an expansion that isn't a front of the dump's own; of those that end at each eighth byte.
pub fn cut_wrongly(alloc: Global, dump: &[u8]) -> usize {
    let whole = expanded(alloc, dump);
    let mut others = 0usize;
    for end in 0..dump.len() {
        if end % 8 == 0 && !whole.starts_with(&expanded(alloc, &dump[..end])) {
            others = others.saturating_add(1);
        }
    }
    others
}

// ---- dumps that are refused

// A front of a header, and why the dump is refused where the digit after the first such front is another.
type Change = (&'static str, ExpandFault);

static CHANGES: [Change; 4] = [
    ("Text-delta-base-md5: ", ExpandFault::NoBase),
    (
        "Text-delta-base-sha1: ",
        ExpandFault::Dump(DumpFault::Refused(Reason::WrongBaseSha1)),
    ),
    (
        "Text-content-md5: ",
        ExpandFault::Dump(DumpFault::Refused(Reason::WrongMd5)),
    ),
    (
        "Text-content-sha1: a",
        ExpandFault::Dump(DumpFault::Refused(Reason::WrongSha1)),
    ),
];

fn changes() -> &'static [Change] {
    &CHANGES
}

// Whether a dump is refused so where a digit is another.
fn is_refused(alloc: Global, dump: &[u8], change: &Change) -> Result<bool> {
    let (header, fault) = change;
    let Some(changed) = with_digit(alloc, dump, header.as_bytes())? else {
        return Ok(false);
    };
    Ok(expansion_of(alloc, &changed).1 == Some(*fault))
}

// A new file whose text is a delta over another text.
fn push_file(out: &mut Vec<u8>, path: &str, base: &[u8], text: &[u8]) -> Result<()> {
    let alloc = *out.allocator();
    let delta = TextDelta {
        delta: Text::new(encode(alloc, text)?),
        base_md5: Some(Digest::of(base)),
        base_sha1: None,
        md5: Some(Digest::of(text)),
        sha1: None,
    };
    let node = NodeRecord {
        path: RelPath::parse(alloc, path)?,
        kind: Some(Kind::File),
        action: Action::Add,
        source: None,
        props: None,
        text: Some(TextSection::Delta(delta)),
    };
    Ok(push_node(out, &node)?)
}

// A dump of two files, the text of each of which is a delta over the other's.
fn loop_of_two(alloc: Global) -> Result<Vec<u8>> {
    let mut dump = Vec::new(alloc);
    push_format(&mut dump, 3)?;
    push_revision(&mut dump, Rev(1))?;
    push_file(&mut dump, "f", b"two", b"one")?;
    push_file(&mut dump, "g", b"one", b"two")?;
    Ok(dump)
}

/// How many dumps with a delta that can't be applied aren't refused as they should be.
pub fn taken_wrongly(alloc: Global, dump: &[u8]) -> Result<usize> {
    let mut others = 0usize;
    for change in changes() {
        if !is_refused(alloc, dump, change)? {
            others = others.saturating_add(1);
        }
    }
    if expansion_of(alloc, &loop_of_two(alloc)?).1 != Some(ExpandFault::NoBase) {
        others = others.saturating_add(1);
    }
    Ok(others)
}
