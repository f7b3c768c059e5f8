//! Answers, and their parts.
ghost use Rattle.std.specs.Prelude.{◌≡◌, ◌++◌, [], codes, OnOk};
ghost use Rattle.std.specs.List.{flat_map};
ghost use Rattle.std.specs.Fmt.{decimal};
ghost use Rattle.std.specs.Option.{option_copied};
ghost use Rattle.svn_wire.specs.Writing.{number_bytes, text_bytes};
ghost use Rattle.svn_wire_calls.specs.Calls.{optional};
ghost use Rattle.svn_replies.specs.Answers.{success, failure, no_mechanism, bool_bytes, kind_bytes, pair_bytes, known_pair, whole_path};

use crate::fault::Failure;
use itoa::Buffer;
use std::alloc::AllocError;
use svn_types::{Kind, Props, RelPath, Rev, Text};
use svn_wire::{push_number, push_text, push_word};
use svn_wire_calls::{push_below, push_some};

/// The beginning of a list.
pub fn push_open(out: &mut Vec<u8>) -> Result<(), AllocError>
    ensures { OnOk result (out.new.items ≡ out.old.items ++ codes "( ") }
{
    out.extend_from_slice(b"( ")
}

/// Its end.
pub fn push_close(out: &mut Vec<u8>) -> Result<(), AllocError>
    ensures { OnOk result (out.new.items ≡ out.old.items ++ codes ") ") }
{
    out.extend_from_slice(b") ")
}

/// The beginning of the answer of a command that succeeds.
pub fn push_success(out: &mut Vec<u8>) -> Result<(), AllocError>
    ensures { OnOk result (out.new.items ≡ out.old.items ++ codes "( success ( ") }
{
    out.extend_from_slice(b"( success ( ")
}

/// The end of an answer.
pub fn push_end(out: &mut Vec<u8>) -> Result<(), AllocError>
    ensures { OnOk result (out.new.items ≡ out.old.items ++ codes ") ) ") }
{
    out.extend_from_slice(b") ) ")
}

/// The answer without results.
#[tactic(auto, unfolding(crate::specs::Answers::success))]
pub fn push_done(out: &mut Vec<u8>) -> Result<(), AllocError>
    ensures { OnOk result (out.new.items ≡ out.old.items ++ success []) }
{
    push_success(out)?;
    push_end(out)
}

/// That no mechanism is asked for before a command is answered.
pub fn push_no_mechanism(out: &mut Vec<u8>) -> Result<(), AllocError>
    ensures { OnOk result (out.new.items ≡ out.old.items ++ no_mechanism) }
{
    out.extend_from_slice(b"( success ( ( ) 0: ) ) ")
}

/// Why a command fails.
#[tactic(auto, unfolding(crate::specs::Answers::failure))]
pub fn push_failure(out: &mut Vec<u8>, told: &Failure) -> Result<(), AllocError>
    ensures { OnOk result (out.new.items ≡ out.old.items ++ failure told.now.code told.now.message) }
{
    out.extend_from_slice(b"( failure ( ( ")?;
    push_number(out, told.code)?;
    push_text(out, told.message.as_slice())?;
    out.extend_from_slice(b"0: 0 ) ) ) ")
}

/// The number of a revision.
pub fn push_rev(out: &mut Vec<u8>, rev: Rev) -> Result<(), AllocError>
    ensures { OnOk result (out.new.items ≡ out.old.items ++ number_bytes rev) }
{
    push_number(out, rev.0)
}

/// `true` or `false`.
pub fn push_bool(out: &mut Vec<u8>, value: bool) -> Result<(), AllocError>
    ensures { OnOk result (out.new.items ≡ out.old.items ++ bool_bytes value) }
{
    if value {
        push_word(out, b"true")
    } else {
        push_word(out, b"false")
    }
}

/// The kind of a node, or that none is there.
pub fn push_kind(out: &mut Vec<u8>, kind: Option<Kind>) -> Result<(), AllocError>
    ensures { OnOk result (out.new.items ≡ out.old.items ++ kind_bytes kind) }
{
    match kind {
        Some(Kind::File) => push_word(out, b"file"),
        Some(Kind::Directory) => push_word(out, b"dir"),
        None => push_word(out, b"none"),
    }
}

/// A list of one string or none.
pub fn push_optional(out: &mut Vec<u8>, value: Option<&Text>) -> Result<(), AllocError>
    ensures { OnOk result (out.new.items ≡ out.old.items ++ optional (option_copied value.entry)) }
{
    match value {
        Some(value) => push_some(out, value.as_slice()),
        None => out.extend_from_slice(b"( ) "),
    }
}

/// A name and a value.
#[tactic(auto, unfolding(crate::specs::Answers::pair_bytes))]
pub fn push_pair(out: &mut Vec<u8>, name: &[u8], value: &[u8]) -> Result<(), AllocError>
    ensures { OnOk result (out.new.items ≡ out.old.items ++ pair_bytes name.now value.now) }
{
    push_open(out)?;
    push_text(out, name)?;
    push_text(out, value)?;
    push_close(out)
}

/// A name and the number of a revision.
pub(crate) fn push_rev_pair(out: &mut Vec<u8>, name: &[u8], rev: Rev) -> Result<(), AllocError>
    ensures { OnOk result (out.new.items ≡ out.old.items ++ pair_bytes name.now (decimal rev)) }
{
    let mut buffer = Buffer::new();
    push_pair(out, name, buffer.format(rev.0).as_bytes())
}

/// A name and a value that may be known.
pub(crate) fn push_known_pair(
    out: &mut Vec<u8>,
    name: &[u8],
    value: Option<&Text>,
) -> Result<(), AllocError>
    ensures { OnOk result (out.new.items ≡ out.old.items ++ known_pair name.now (option_copied value.entry)) }
{
    match value {
        Some(value) => push_pair(out, name, value.as_slice()),
        None => Ok(()),
    }
}

/// Names and values.
pub(crate) fn push_pairs(out: &mut Vec<u8>, props: &Props) -> Result<(), AllocError>
    ensures { OnOk result (out.new.items ≡ out.old.items ++ flat_map (λ prop. pair_bytes prop.0 prop.1) props.now) }
{
    for (name, value) in props.iter() {
        push_pair(out, name.as_str().as_bytes(), value.as_slice())?;
    }
    Ok(())
}

// A slash before each name of a path; of the root a slash.
fn push_whole_names(text: &mut Vec<u8>, path: &RelPath) -> Result<(), AllocError>
    ensures { OnOk result (text.new.items ≡ text.old.items ++ whole_path path.now) }
{
    match path.components() {
        [] => Ok(text.push(b'/')?),
        names => push_below(text, names),
    }
}

/// A path as a string, with a slash before each name; that of the root is a slash.
pub fn push_whole_path(out: &mut Vec<u8>, path: &RelPath) -> Result<(), AllocError>
    ensures { OnOk result (out.new.items ≡ out.old.items ++ text_bytes (whole_path path.now)) }
{
    let mut text = Vec::new(*out.allocator());
    push_whole_names(&mut text, path)?;
    push_text(out, &text)
}
