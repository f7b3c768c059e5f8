//! The fields of the commands of an edit.
ghost use Rattle.std.specs.Prelude.{◌≡◌, ◌++◌, ◌∷◌, Some, codes, OnOk};
ghost use Rattle.std.specs.List.{flat_map};
ghost use Rattle.svn_types.specs.PathTexts.{path_text};
ghost use Rattle.svn_wire.specs.Writing.{word_bytes};
ghost use Rattle.svn_wire_calls.specs.Commands.{baton};
ghost use Rattle.svn_wire_calls.specs.Calls.{path_bytes, revision, optional, checksum};

use itoa::Buffer;
use std::alloc::AllocError;
use svn_editor::Token;
use svn_types::{Digest, Name, RelPath, Rev, Text};
use svn_wire::{push_number, push_text, push_word};

/// Writes the beginning of a command.
pub(crate) fn begin(out: &mut Vec<u8>, name: &[u8]) -> Result<(), AllocError>
    ensures { OnOk result (out.new.items ≡ out.old.items ++ (codes "( " ++ word_bytes name.now ++ codes "( ")) }
{
    out.extend_from_slice(b"( ")?;
    push_word(out, name)?;
    out.extend_from_slice(b"( ")?;
    Ok(())
}

/// Writes the end of a command.
pub(crate) fn end(out: &mut Vec<u8>) -> Result<(), AllocError>
    ensures { OnOk result (out.new.items ≡ out.old.items ++ codes ") ) ") }
{
    out.extend_from_slice(b") ) ")?;
    Ok(())
}

/// Writes a token.
pub(crate) fn push_baton(out: &mut Vec<u8>, token: Token) -> Result<(), AllocError>
    ensures { OnOk result (out.new.items ≡ out.old.items ++ baton token) }
{
    let mut buffer = Buffer::new();
    push_text(out, buffer.format(token.0).as_bytes())
}

/// Writes names with a slash before each at the end. After an error its first bytes may be there, as with each function here.
pub fn push_below(out: &mut Vec<u8>, names: &[Name]) -> Result<(), AllocError>
    ensures { OnOk result (out.new.items ≡ out.old.items ++ flat_map (λ m. 47 ∷ m) names.now) }
{
    for name in names {
        out.push(b'/')?;
        out.extend_from_slice(name.as_str().as_bytes())?;
    }
    Ok(())
}

// The names of a path with a slash between them.
fn push_names(out: &mut Vec<u8>, path: &RelPath) -> Result<(), AllocError>
    ensures { OnOk result (out.new.items ≡ out.old.items ++ path_text path.now) }
{
    let Some((first, rest)) = path.components().split_first() else {
        return Ok(());
    };
    out.extend_from_slice(first.as_str().as_bytes())?;
    push_below(out, rest)
}

/// Writes a path as a string, with a slash between names.
pub fn push_path(out: &mut Vec<u8>, path: &RelPath) -> Result<(), AllocError>
    ensures { OnOk result (out.new.items ≡ out.old.items ++ path_bytes path.now) }
{
    let mut text = Vec::new(*out.allocator());
    push_names(&mut text, path)?;
    push_text(out, &text)
}

/// Writes a list of one revision.
pub(crate) fn push_revision(out: &mut Vec<u8>, rev: Rev) -> Result<(), AllocError>
    ensures { OnOk result (out.new.items ≡ out.old.items ++ revision rev) }
{
    out.extend_from_slice(b"( ")?;
    push_number(out, rev.0)?;
    out.extend_from_slice(b") ")?;
    Ok(())
}

/// Writes a list of one string.
pub fn push_some(out: &mut Vec<u8>, value: &[u8]) -> Result<(), AllocError>
    ensures { OnOk result (out.new.items ≡ out.old.items ++ optional (Some value.now)) }
{
    out.extend_from_slice(b"( ")?;
    push_text(out, value)?;
    out.extend_from_slice(b") ")?;
    Ok(())
}

/// Writes a list of one string or none.
pub(crate) fn push_optional(out: &mut Vec<u8>, value: &Option<Text>) -> Result<(), AllocError>
    ensures { OnOk result (out.new.items ≡ out.old.items ++ optional value.now) }
{
    match value {
        Some(value) => push_some(out, value.as_slice()),
        None => {
            out.extend_from_slice(b"( ) ")?;
            Ok(())
        }
    }
}

/// Writes a list of one checksum or none.
pub(crate) fn push_checksum(out: &mut Vec<u8>, sum: Option<Digest>) -> Result<(), AllocError>
    ensures { OnOk result (out.new.items ≡ out.old.items ++ checksum sum) }
{
    let Some(sum) = sum else {
        out.extend_from_slice(b"( ) ")?;
        return Ok(());
    };
    let word = hex::encode(*out.allocator(), &sum.0[..])?;
    out.extend_from_slice(b"( ")?;
    push_text(out, word.as_bytes())?;
    out.extend_from_slice(b") ")?;
    Ok(())
}
