//! Property sections.
ghost use Rattle.std.specs.Prelude.{true, ◌≡◌, ◌<◌, ◌++◌, length, Some, None, MatchOption, IfSome, IfOk, Ok};
ghost use Rattle.svn_dump.specs.Reading.{Gives, GivesFront};
ghost use Rattle.svn_types.specs.NameFaults.{prop_name_fault};
ghost use Rattle.svn_dump.specs.Properties.{length_of, cut_line, run_at, named, set_at, change_at, is_end, changes_of, props_of};

use crate::fault::{DumpFault, Reason};
use std::alloc::Global;
use svn_digits::read_number;
use svn_types::{PathFault, PropChange, PropName, Props, Text, split_once};

// The number in a line of a letter, a space and digits.
fn read_length(line: &[u8], letter: u8) -> Option<u64>
    ensures { result ≡ length_of letter line.now }
{
    match line {
        [first, b' ', digits @ ..] => {
            if *first == letter {
                read_number(digits)
            } else {
                None
            }
        }
        _ => None,
    }
}

// The first so many bytes and those after the line feed that ends them.
fn cut_line(bytes: &[u8], len: u64) -> Option<(&[u8], &[u8])>
    ensures parts { MatchOption result (cut_line bytes.now (Some len) ≡ None) (λ r. cut_line bytes.now (Some len) ≡ Some (r.0.now, r.1.now)) }
    ensures shorter { IfSome result (λ r. length r.1.now < length bytes.now) }
{
    if bytes.len() as u64 <= len {
        return None;
    }
    let (run, rest) = bytes.split_at(len as usize);
    match rest {
        [b'\n', after @ ..] => Some((run, after)),
        _ => None,
    }
}

// The bytes that are announced by a line of this letter and their number, and those after them.
fn next_run(section: &[u8], letter: u8) -> Option<(&[u8], &[u8])>
    ensures parts { MatchOption result (run_at letter section.now ≡ None) (λ r. run_at letter section.now ≡ Some (r.0.now, r.1.now)) }
    ensures shorter { IfSome result (λ r. length r.1.now < length section.now) }
{
    let Some((line, after)) = split_once(section, b'\n') else {
        return None;
    };
    match read_length(line, letter) {
        Some(len) => cut_line(after, len),
        None => None,
    }
}

fn is_end(section: &[u8]) -> bool
    ensures { result ≡ is_end section.now }
{
    section == b"PROPS-END\n".as_slice()
}

fn read_name(alloc: Global, name: &[u8]) -> Result<PropName, DumpFault>
    ensures { Gives (λ n. n) result (named (prop_name_fault name.now) name.now) }
{
    match PropName::from_bytes(alloc, name) {
        Ok(name) => Ok(name),
        Err(PathFault::Memory) => Err(DumpFault::Memory),
        Err(fault) => Err(DumpFault::Refused(Reason::BadPropName(fault))),
    }
}

// A name with its value, and the bytes after them.
fn read_set(alloc: Global, section: &[u8]) -> Result<(PropName, Text, &[u8]), DumpFault>
    ensures parts { Gives (λ x. ((x.0, Some x.1), x.2.now)) result (set_at (run_at 75 section.now)) }
    ensures shorter { IfOk result (λ x. length x.2.now < length section.now) }
{
    let Some((name, after)) = next_run(section, b'K') else {
        return Err(DumpFault::Refused(Reason::NotProperties));
    };
    let Some((value, rest)) = next_run(after, b'V') else {
        return Err(DumpFault::Refused(Reason::NotProperties));
    };
    let name = read_name(alloc, name)?;
    let value = Text::from_slice(alloc, value)?;
    Ok((name, value, rest))
}

/// Reads the whole of a node's properties. Of a name that comes twice the last value counts, as in Subversion.
pub(crate) fn read_props(alloc: Global, section: &[u8]) -> Result<Props, DumpFault>
    ensures { Gives (λ props. props) result (props_of section.now) }
{
    let mut props = Props::new(alloc);
    let mut rest = section;
    'entries: while !is_end(rest) {
        let (name, value, after) = read_set(alloc, rest)?;
        props.insert(name, value)?;
        rest = after;
    }
    Ok(props)
}

// One change of a property, and the bytes after it.
fn read_change(alloc: Global, section: &[u8]) -> Result<(PropChange, &[u8]), DumpFault>
    ensures parts { Gives (λ x. (x.0, x.1.now)) result (change_at true section.now) }
    ensures shorter { IfOk result (λ x. length x.1.now < length section.now) }
{
    match next_run(section, b'D') {
        Some((name, rest)) => {
            let name = read_name(alloc, name)?;
            Ok(((name, None), rest))
        }
        None => {
            let (name, value, rest) = read_set(alloc, section)?;
            Ok(((name, Some(value)), rest))
        }
    }
}

/// Reads what changes of a node's properties.
pub(crate) fn read_changes(alloc: Global, section: &[u8]) -> Result<Vec<PropChange>, DumpFault>
    ensures { Gives (λ changes. changes.items) result (changes_of section.now) }
{
    let mut changes = Vec::new(alloc);
    let mut rest = section;
    'entries: while !is_end(rest) {
        let (change, after) = read_change(alloc, rest)?;
        changes.push(change)?;
        rest = after;
    }
    Ok(changes)
}
