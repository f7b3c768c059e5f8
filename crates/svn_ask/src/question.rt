//! Questions about what a repository has at a path in a revision, as commands of the protocol.
ghost use Rattle.std.specs.Prelude.{◌≡◌, ◌+◌, ◌<◌, ◌≤◌, ◌^◌, ◌++◌, ◌∷◌, codes, length, decimal, OnOk};
ghost use Rattle.std.specs.List.{flat_map};
ghost use Rattle.svn_types.specs.PathTexts.{path_text};
ghost use Rattle.svn_wire.specs.Writing.{printed, word_bytes, text_bytes, number_bytes};
ghost use Rattle.svn_ask.specs.Questions.{command_name, flags, command_bytes, question, question_len};

use itoa::Buffer;
use std::alloc::AllocError;
use svn_types::{Name, RelPath, Rev};
use svn_wire::{push_number, push_word};

/// What a client asks of a path in a revision.
#[derive(Clone, Copy, Debug, PartialEq, Eq)]
pub enum Wanted {
    /// The checksum and the properties of a file (`get-file`, without its text).
    File,
    /// The properties of a directory, and the names of its entries (`get-dir`).
    Directory,
    /// Whether a file, a directory or nothing is there (`check-path`).
    Kind,
}

/// A question about a path of the repository in a revision.
#[derive(Clone, Copy, Debug)]
pub struct Question<'a> {
    /// What is asked.
    pub wanted: Wanted,
    /// The revision.
    pub rev: Rev,
    /// The path, from the root of the repository.
    pub path: &'a RelPath,
}

// The name of the command.
fn command_name(wanted: Wanted) -> &'static [u8]
    ensures name { result.now ≡ command_name wanted }
    ensures short { length result.now ≤ 10 }
{
    match wanted {
        Wanted::File => b"get-file",
        Wanted::Directory => b"get-dir",
        Wanted::Kind => b"check-path",
    }
}

// What the command has after path and revision.
fn flag_bytes(wanted: Wanted) -> &'static [u8]
    ensures flags { result.now ≡ printed (flags wanted) }
    ensures short { length result.now ≤ 19 }
{
    match wanted {
        Wanted::File => b"true false ",
        Wanted::Directory => b"true true ( kind ) ",
        Wanted::Kind => b"",
    }
}

// How many bytes the text of a path has: those of its key, which has one after each name, and not only between them.
#[tactic(auto, using(crate::proofs::QuestionLemmas::path_len))]
fn text_len(path: &RelPath) -> usize
    ensures len { result ≡ length (path_text path.now) }
    ensures short { result < 2 ^ 63 }
{
    path.key().len().saturating_sub(1)
}

// How many digits a number has.
fn digits(number: u64) -> usize
    ensures len { result ≡ length (decimal number) }
    ensures short { result ≤ 20 }
{
    let mut buffer = Buffer::new();
    buffer.format(number).len()
}

// Names, and a slash before each.
fn push_below(out: &mut Vec<u8>, names: &[Name]) -> Result<(), AllocError>
    ensures { OnOk result (out.new.items ≡ out.old.items ++ flat_map (λ m. 47 ∷ m) names.now) }
{
    for name in names {
        out.push(b'/')?;
        out.extend_from_slice(name.as_str().as_bytes())?;
    }
    Ok(())
}

// The names of a path with a slash between them.
fn push_names(out: &mut Vec<u8>, path: &RelPath) -> Result<(), AllocError>
    ensures { OnOk result (out.new.items ≡ out.old.items ++ path_text path.now) }
{
    let Some((first, rest)) = path.components().split_first() else {
        return Ok(());
    };
    out.extend_from_slice(first.as_str().as_bytes())?;
    push_below(out, rest)
}

// A path, as a string.
fn push_path(out: &mut Vec<u8>, path: &RelPath) -> Result<(), AllocError>
    ensures { OnOk result (out.new.items ≡ out.old.items ++ text_bytes (path_text path.now)) }
{
    let mut buffer = Buffer::new();
    out.extend_from_slice(buffer.format(text_len(path)).as_bytes())?;
    out.push(b':')?;
    push_names(out, path)?;
    out.push(b' ')?;
    Ok(())
}

// A revision, in a list of its own.
fn push_revision(out: &mut Vec<u8>, rev: Rev) -> Result<(), AllocError>
    ensures { OnOk result (out.new.items ≡ out.old.items ++ (codes "( " ++ number_bytes rev ++ codes ") ")) }
{
    out.extend_from_slice(b"( ")?;
    push_number(out, rev.0)?;
    out.extend_from_slice(b") ")?;
    Ok(())
}

// The beginning of a command.
fn push_name(out: &mut Vec<u8>, name: &[u8]) -> Result<(), AllocError>
    ensures { OnOk result (out.new.items ≡ out.old.items ++ (codes "( " ++ word_bytes name.now ++ codes "( ")) }
{
    out.extend_from_slice(b"( ")?;
    push_word(out, name)?;
    out.extend_from_slice(b"( ")?;
    Ok(())
}

// A command on a path in a revision, with these bytes after them.
#[tactic(auto, using(crate::proofs::QuestionLemmas::appended))]
fn push_command(
    out: &mut Vec<u8>,
    name: &[u8],
    at: (Rev, &RelPath),
    more: &[u8],
) -> Result<(), AllocError>
    ensures { OnOk result (out.new.items ≡ out.old.items ++ command_bytes name.now at.entry.0 at.entry.1.now more.now) }
{
    let (rev, path) = at;
    push_name(out, name)?;
    push_path(out, path)?;
    push_revision(out, rev)?;
    out.extend_from_slice(more)?;
    out.extend_from_slice(b") ) ")?;
    Ok(())
}

/// Writes the command that asks about a path of the repository in a revision. After an error its first bytes may be there.
#[tactic(auto, using(crate::proofs::QuestionLemmas::as_bytes))]
pub fn push_question(
    out: &mut Vec<u8>,
    wanted: Wanted,
    rev: Rev,
    path: &RelPath,
) -> Result<(), AllocError>
    ensures { OnOk result (out.new.items ≡ out.old.items ++ printed (question wanted rev path.now)) }
{
    push_command(out, command_name(wanted), (rev, path), flag_bytes(wanted))
}

/// How many bytes that command has.
#[tactic(auto, using(crate::proofs::QuestionLemmas::command_len))]
pub fn question_len(wanted: Wanted, rev: Rev, path: &RelPath) -> usize
    ensures { result ≡ question_len wanted rev path.now }
{
    let text = text_len(path);
    let fields = digits(text as u64) + text + digits(rev.0);
    command_name(wanted).len() + fields + flag_bytes(wanted).len() + 16
}
