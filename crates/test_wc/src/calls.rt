// The calls of an edit, in their printed form but for the checksums.
use crate::words::{checksum, path, revision, text, token, value, word};
use std::alloc::Global;
use std::test::Fail;
use svn_editor::Call;
use svn_types::{PropName, RelPath};

// A call for what is at a path.
fn entry_call(step: &str, path: RelPath) -> Call {
    let parent = token(step, 2);
    match word(step, 0) {
        "add_directory" => Call::AddDirectory {
            path,
            parent,
            token: token(step, 3),
        },
        "add_file" => Call::AddFile {
            path,
            parent,
            token: token(step, 3),
        },
        "open_directory" => Call::OpenDirectory {
            path,
            parent,
            base: revision(step, 3),
            token: token(step, 4),
        },
        "open_file" => Call::OpenFile {
            path,
            parent,
            base: revision(step, 3),
            token: token(step, 4),
        },
        _ => Call::DeleteEntry {
            path,
            rev: revision(step, 2),
            parent: token(step, 3),
        },
    }
}

fn prop_call(alloc: Global, step: &str) -> Result<Call, Fail> {
    let token = token(step, 1);
    let name = PropName::parse(alloc, word(step, 2))?;
    let value = value(alloc, step, 3)?;
    if word(step, 0) == "change_dir_prop" {
        Ok(Call::ChangeDirProp { token, name, value })
    } else {
        Ok(Call::ChangeFileProp { token, name, value })
    }
}

fn text_call(alloc: Global, step: &str) -> Result<Call, Fail> {
    let text = text(alloc, step, 3)?;
    Ok(Call::ApplyText {
        token: token(step, 1),
        base_md5: checksum(step, 2),
        text,
    })
}

// A call that has no path and no text.
fn short_call(step: &str) -> Result<Call, Fail> {
    match word(step, 0) {
        "set_target_revision" => Ok(Call::SetTargetRevision {
            rev: revision(step, 1),
        }),
        "open_root" => Ok(Call::OpenRoot {
            base: revision(step, 1),
            token: token(step, 2),
        }),
        "close_directory" => Ok(Call::CloseDirectory {
            token: token(step, 1),
        }),
        "close_file" => Ok(Call::CloseFile {
            token: token(step, 1),
            text_md5: checksum(step, 2),
        }),
        "close_edit" => Ok(Call::CloseEdit),
        "abort_edit" => Ok(Call::AbortEdit),
        _ => Err(Fail::from("a step is no call")),
    }
}

// The call of a step.
pub(crate) fn call(alloc: Global, step: &str) -> Result<Call, Fail> {
    match word(step, 0) {
        "add_directory" | "add_file" | "open_directory" | "open_file" | "delete_entry" => {
            Ok(entry_call(step, path(alloc, step, 1)?))
        }
        "change_dir_prop" | "change_file_prop" => prop_call(alloc, step),
        "apply_text" => text_call(alloc, step),
        _ => short_call(step),
    }
}
