//! Headers and sections that are long, or say that they are.

use super::history::{LIMITS, load_all, loader_of};
use anyhow::Result;
use std::alloc::Global;
use svn_dump::{DumpFault, Reason, Texts};
use svn_history::LoadFault;
use svn_types::Rev;

const FRONT: &str = "SVN-fs-dump-format-version: 2\n\nRevision-number: 1\n\n";

const FILE: &str = "Node-path: a\nNode-kind: file\nNode-action: add\n";

// Why a dump isn't loaded, if it isn't.
fn fault_of(alloc: Global, dump: &[u8], texts: Texts) -> Result<Option<LoadFault>> {
    let mut loader = loader_of(alloc, dump, texts)?;
    Ok(load_all(&mut loader).err())
}

// A dump with a file, with these bytes after its first headers.
fn dump_with(alloc: Global, rest: &[u8]) -> Result<Vec<u8>> {
    let mut dump = FRONT.as_bytes().to_vec(alloc)?;
    dump.extend_from_slice(FILE.as_bytes())?;
    dump.extend_from_slice(rest)?;
    Ok(dump)
}

// A dump with a text that is said to have so many bytes, and has none.
fn said_long(alloc: Global, len: u64) -> Result<Vec<u8>> {
    let rest = format!(in alloc; "Text-content-length: {len}\nContent-length: {len}\n\n")?;
    dump_with(alloc, rest.as_bytes())
}

// A dump with a property section that is said to have so many bytes, and has none.
fn said_full(alloc: Global, len: u64) -> Result<Vec<u8>> {
    let rest = format!(in alloc; "Prop-content-length: {len}\nContent-length: {len}\n\n")?;
    dump_with(alloc, rest.as_bytes())
}

fn refused(reason: Reason) -> Option<LoadFault> {
    Some(LoadFault::Dump(DumpFault::Refused(reason)))
}

// Lengths about the largest numbers that there are.
const LENGTHS: [u64; 4] = [
    1 << 62,
    1 << 63,
    0xffff_ffff_ffff_fffe,
    0xffff_ffff_ffff_ffff,
];

// Whether a length that is too large for what is held is refused, and one that isn't held is read to the end.
fn is_length_refused(alloc: Global, len: u64) -> Result<bool> {
    let text = said_long(alloc, len)?;
    let props = said_full(alloc, len)?;
    let whole = fault_of(alloc, &text, Texts::Whole)?;
    let passed = fault_of(alloc, &text, Texts::Sha1)?;
    let section = fault_of(alloc, &props, Texts::Sha1)?;
    Ok(
        whole == refused(Reason::TextTooLong(len, LIMITS.text as u64))
            && passed == refused(Reason::CutOff)
            && section == refused(Reason::PropsTooLong(len, LIMITS.props as u64)),
    )
}

// Whether a header of a megabyte is refused.
fn is_header_refused(alloc: Global) -> Result<bool> {
    let mut rest = "Other: ".as_bytes().to_vec(alloc)?;
    rest.resize(1 << 20, b'x')?;
    let dump = dump_with(alloc, &rest)?;
    Ok(fault_of(alloc, &dump, Texts::Whole)? == refused(Reason::HeadersTooLong))
}

// A property section with so many properties, less than 100,000.
fn section(alloc: Global, count: u32) -> Result<Vec<u8>> {
    let mut bytes = Vec::new(alloc);
    for number in 0..count {
        let entry = format!(in alloc; "K 6\np{number:05}\nV 1\nv\n")?;
        bytes.extend_from_slice(entry.as_bytes())?;
    }
    bytes.extend_from_slice("PROPS-END\n".as_bytes())?;
    Ok(bytes)
}

// A dump with a file that has so many properties.
fn with_props(alloc: Global, count: u32) -> Result<Vec<u8>> {
    let section = section(alloc, count)?;
    let len = section.len();
    let headers = format!(in alloc; "Prop-content-length: {len}\nContent-length: {len}\n\n")?;
    let mut dump = dump_with(alloc, headers.as_bytes())?;
    dump.extend_from_slice(&section)?;
    Ok(dump)
}

// Whether many properties are loaded.
fn are_props_loaded(alloc: Global) -> Result<bool> {
    let dump = with_props(alloc, 20000)?;
    let mut loader = loader_of(alloc, dump.as_slice(), Texts::Sha1)?;
    if load_all(&mut loader).is_err() {
        return Ok(false);
    }
    let repo = loader.into_repo();
    let path = svn_types::RelPath::parse(alloc, "a")?;
    let Some(node) = repo.lookup(Rev(1), &path) else {
        return Ok(false);
    };
    Ok(repo.props(node).is_some_and(|props| props.len() == 20000))
}

/// How many of these don't end as they should.
pub fn taken_wrongly(alloc: Global) -> Result<usize> {
    let mut others = usize::from(!is_header_refused(alloc)?);
    others = others.saturating_add(usize::from(!are_props_loaded(alloc)?));
    for len in &LENGTHS {
        others = others.saturating_add(usize::from(!is_length_refused(alloc, *len)?));
    }
    Ok(others)
}
