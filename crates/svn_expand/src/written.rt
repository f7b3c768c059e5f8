//! What is written of records that are no nodes.
ghost use Rattle.std.specs.Prelude.{◌≡◌, ◌++◌, codes, IfOk, OnOk};
ghost use Rattle.std.specs.Option.{option_copied};
ghost use Rattle.svn_dump.specs.Written.{line, number_line, run};
ghost use Rattle.svn_expand.specs.Records.{entry_if, noted_props, revision_headers, revision_bytes, uuid_bytes};

use itoa::Buffer;
use std::alloc::{AllocError, Global};

fn push_line(out: &mut Vec<u8>, name: &[u8], value: &[u8]) -> Result<(), AllocError>
    ensures { OnOk result (out.new.items ≡ out.old.items ++ line name.now value.now) }
{
    out.extend_from_slice(name)?;
    out.extend_from_slice(b": ")?;
    out.extend_from_slice(value)?;
    Ok(out.push(b'\n')?)
}

fn push_number(out: &mut Vec<u8>, name: &[u8], number: u64) -> Result<(), AllocError>
    ensures { OnOk result (out.new.items ≡ out.old.items ++ number_line name.now number) }
{
    let mut buffer = Buffer::new();
    push_line(out, name, buffer.format(number).as_bytes())
}

// A line of a letter and a number of bytes, and those.
fn push_run(out: &mut Vec<u8>, letter: u8, bytes: &[u8]) -> Result<(), AllocError>
    ensures { OnOk result (out.new.items ≡ out.old.items ++ run letter bytes.now) }
{
    let mut buffer = Buffer::new();
    out.push(letter)?;
    out.push(b' ')?;
    out.extend_from_slice(buffer.format(bytes.len()).as_bytes())?;
    out.push(b'\n')?;
    out.extend_from_slice(bytes)?;
    Ok(out.push(b'\n')?)
}

// A property, if it is set.
fn push_entry(out: &mut Vec<u8>, name: &[u8], value: Option<&[u8]>) -> Result<(), AllocError>
    ensures { OnOk result (out.new.items ≡ out.old.items ++ entry_if name.now (option_copied value.entry)) }
{
    let Some(value) = value else {
        return Ok(());
    };
    push_run(out, b'K', name)?;
    push_run(out, b'V', value)
}

// The property section of a revision: its author and its date.
#[tactic(auto, unfolding(crate::specs::Records::noted_props))]
fn noted_props(
    alloc: Global,
    date: Option<&[u8]>,
    author: Option<&[u8]>,
) -> Result<Vec<u8>, AllocError>
    ensures { IfOk result (λ bytes. bytes.items ≡ noted_props (option_copied date.entry) (option_copied author.entry)) }
{
    let mut props = Vec::new(alloc);
    push_entry(&mut props, b"svn:author", author)?;
    push_entry(&mut props, b"svn:date", date)?;
    props.extend_from_slice(b"PROPS-END\n")?;
    Ok(props)
}

// The headers of a revision whose property section has so many bytes.
fn push_headers(out: &mut Vec<u8>, number: u64, len: usize) -> Result<(), AllocError>
    ensures { OnOk result (out.new.items ≡ out.old.items ++ revision_headers number len) }
{
    push_number(out, b"Revision-number", number)?;
    push_number(out, b"Prop-content-length", len as u64)?;
    push_number(out, b"Content-length", len as u64)
}

/// The beginning of the revision of a number, with its date and its author.
#[tactic(auto, unfolding(crate::specs::Records::revision_bytes))]
pub(crate) fn revision_bytes(
    alloc: Global,
    number: u64,
    date: Option<&[u8]>,
    author: Option<&[u8]>,
) -> Result<Vec<u8>, AllocError>
    ensures { IfOk result (λ bytes. bytes.items ≡ revision_bytes number (noted_props (option_copied date.entry) (option_copied author.entry))) }
{
    let props = noted_props(alloc, date, author)?;
    let mut bytes = Vec::new(alloc);
    push_headers(&mut bytes, number, props.len())?;
    bytes.push(b'\n')?;
    bytes.extend_from_slice(&props)?;
    bytes.push(b'\n')?;
    Ok(bytes)
}

/// The record of a UUID, if there is one.
pub(crate) fn uuid_bytes(alloc: Global, uuid: Option<&[u8]>) -> Result<Vec<u8>, AllocError>
    ensures { IfOk result (λ bytes. bytes.items ≡ uuid_bytes (option_copied uuid.entry)) }
{
    let mut bytes = Vec::new(alloc);
    if let Some(uuid) = uuid {
        push_line(&mut bytes, b"UUID", uuid)?;
        bytes.push(b'\n')?;
    }
    Ok(bytes)
}
