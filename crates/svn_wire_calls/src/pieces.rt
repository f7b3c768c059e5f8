//! A piece of a text, as it is written.
ghost use Rattle.std.specs.Prelude.{◌≡◌, ◌++◌, [], OnOk};
ghost use Rattle.svn_wire_calls.specs.Commands.{baton, command};
ghost use Rattle.svn_wire_calls.specs.Pieces.{chunk, window_bytes, piece_bytes, no_bytes};
ghost use Rattle.svn_wire.specs.Writing.{text_bytes};

use crate::fields::{begin, end, push_baton};
use std::alloc::AllocError;
use svn_editor::Token;
use svn_wire::push_text;

/// How many bytes a piece has, as a window of a delta; the last one of a text may have fewer.
pub(crate) const PIECE: usize = 102400;

/// How many bytes come before the first window of a delta.
const HEADER: usize = 4;

/// How the pieces of a text are written.
#[derive(Clone, Copy, Debug, PartialEq, Eq)]
pub enum Form {
    /// As the chunks of a delta for the file of this token, a window each.
    Chunks(Token),
    /// As strings.
    Strings,
}

#[tactic(auto, unfolding(crate::specs::Commands::command))]
fn push_command_of(
    out: &mut Vec<u8>,
    name: &[u8],
    token: Token,
    bytes: &[u8],
) -> Result<(), AllocError>
    ensures { OnOk result (out.new.items ≡ out.old.items ++ command name.now (baton token ++ text_bytes bytes.now)) }
{
    begin(out, name)?;
    push_baton(out, token)?;
    push_text(out, bytes)?;
    end(out)
}

// A part of a delta.
fn push_chunk(out: &mut Vec<u8>, token: Token, bytes: &[u8]) -> Result<(), AllocError>
    ensures { OnOk result (out.new.items ≡ out.old.items ++ chunk token bytes.now) }
{
    push_command_of(out, b"textdelta-chunk", token, bytes)
}

// The window of a piece; the first one after the header of deltas.
fn push_window(
    out: &mut Vec<u8>,
    token: Token,
    is_first: bool,
    piece: &[u8],
) -> Result<(), AllocError>
    ensures { OnOk result (out.new.items ≡ out.old.items ++ chunk token (window_bytes is_first piece.now)) }
{
    let delta = svndiff::encode(*out.allocator(), piece)?;
    if is_first {
        return push_chunk(out, token, &delta);
    }
    let (_header, window) = delta.as_slice().split_at(HEADER);
    push_chunk(out, token, window)
}

/// Writes a piece at the end.
pub(crate) fn push_piece(
    out: &mut Vec<u8>,
    form: Form,
    is_first: bool,
    piece: &[u8],
) -> Result<(), AllocError>
    ensures { OnOk result (out.new.items ≡ out.old.items ++ piece_bytes form is_first piece.now) }
{
    match form {
        Form::Chunks(token) => push_window(out, token, is_first, piece),
        Form::Strings => push_text(out, piece),
    }
}

/// Writes a text of no bytes at the end.
pub(crate) fn push_no_bytes(out: &mut Vec<u8>, form: Form) -> Result<(), AllocError>
    ensures { OnOk result (out.new.items ≡ out.old.items ++ no_bytes form) }
{
    match form {
        Form::Chunks(token) => push_window(out, token, true, &[]),
        Form::Strings => Ok(()),
    }
}
