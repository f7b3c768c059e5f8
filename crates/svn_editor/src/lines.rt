//! The printed lines of calls, without the line feed.
ghost use Rattle.std.specs.Prelude.{◌≡◌, Some};
ghost use Rattle.std.specs.Fmt.{DisplaysOnOk};
ghost use Rattle.svn_editor.specs.Lines.{call_line, change_words};
ghost use Rattle.svn_editor.specs.Words.{spaced};

use crate::call::Call;
use crate::token::Token;
use crate::words::{ChecksumWord, PathWord, Word};
use std::fmt;
use svn_types::{PropName, Text};

fn write_change<W: fmt::Write>(
    call: &str,
    token: Token,
    name: &PropName,
    value: &Option<Text>,
    f: &mut fmt::Formatter<W>,
) -> fmt::Result
    ensures { DisplaysOnOk W.write_str_gives f.old result (Some (spaced (change_words call.now token name.now value.now))) f.new }
{
    let name = Word(name.as_str().as_bytes());
    match value {
        Some(value) => {
            let value = Word(value.as_slice());
            write!(f, "{call} {token} {name} {value}")
        }
        None => write!(f, "{call} {token} {name}"),
    }
}

/// A call is printed as its words, one space between two: its name, and its fields in the order of `svn_delta.h`.
impl fmt::Display for Call {
    ghost output = { λ c. Some (call_line c) };

    fn fmt<W: fmt::Write>(&self, f: &mut fmt::Formatter<W>) -> fmt::Result {
        match self {
            Call::SetTargetRevision { rev } => write!(f, "set_target_revision {}", rev.0),
            Call::OpenRoot { base, token } => write!(f, "open_root {} {}", base.0, *token),
            Call::DeleteEntry { path, rev, parent } => {
                write!(f, "delete_entry {} {} {}", PathWord(path), rev.0, *parent)
            }
            Call::AddDirectory {
                path,
                parent,
                token,
            } => write!(f, "add_directory {} {} {}", PathWord(path), *parent, *token),
            Call::OpenDirectory {
                path,
                parent,
                base,
                token,
            } => write!(
                f,
                "open_directory {} {} {} {}",
                PathWord(path),
                *parent,
                base.0,
                *token
            ),
            Call::ChangeDirProp { token, name, value } => {
                write_change("change_dir_prop", *token, name, value, f)
            }
            Call::CloseDirectory { token } => write!(f, "close_directory {}", *token),
            Call::AddFile {
                path,
                parent,
                token,
            } => write!(f, "add_file {} {} {}", PathWord(path), *parent, *token),
            Call::OpenFile {
                path,
                parent,
                base,
                token,
            } => write!(
                f,
                "open_file {} {} {} {}",
                PathWord(path),
                *parent,
                base.0,
                *token
            ),
            Call::ChangeFileProp { token, name, value } => {
                write_change("change_file_prop", *token, name, value, f)
            }
            Call::ApplyText {
                token,
                base_md5,
                text,
            } => {
                let text = Word(text.as_slice());
                write!(
                    f,
                    "apply_text {} {} {}",
                    *token,
                    ChecksumWord(*base_md5),
                    text
                )
            }
            Call::CloseFile { token, text_md5 } => {
                write!(f, "close_file {} {}", *token, ChecksumWord(*text_md5))
            }
            Call::CloseEdit => f.write_str("close_edit"),
            Call::AbortEdit => f.write_str("abort_edit"),
        }
    }
}
