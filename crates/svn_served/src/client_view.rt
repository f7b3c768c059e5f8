//! The calls of a drive as a client is sent them.
ghost use Rattle.std.specs.Prelude.{◌≡◌, IfOk};
ghost use Rattle.std.specs.Option.{option_copied};
ghost use Rattle.svn_served.specs.ClientCalls.{client_name, client_path, client_text, client_call};

use crate::notes::path_below;
use crate::wanted::Entry;
use std::alloc::{AllocError, Global};
use svn_editor::{Call, EditFault, Editor};
use svn_types::{Name, RelPath, Text};

/// An editor that passes calls on as a client is sent them: one entry has the client's name, texts may be left out, and a drive that is given up isn't said
/// so by a call.
#[derive(Drop)]
pub(crate) struct ClientView<'n, 'e, E> {
    pub(crate) alloc: Global,
    /// The one entry, where the drive is of one.
    pub(crate) entry: &'n Option<Entry>,
    /// Whether texts are sent.
    pub(crate) with_texts: bool,
    pub(crate) editor: &'e mut E,
}

// The name of the one entry at the client.
fn client_name(entry: &Option<Entry>) -> Option<&Name>
    ensures { option_copied result ≡ client_name entry.now }
{
    match entry {
        Some(entry) => Some(&entry.name),
        None => None,
    }
}

// A path with the client's name of the one entry.
fn client_path(alloc: Global, name: Option<&Name>, path: RelPath) -> Result<RelPath, AllocError>
    ensures { IfOk result (λ p. p ≡ client_path (option_copied name.entry) path) }
{
    match name {
        Some(name) => path_below(alloc, name, &path.tail(alloc, 1)?),
        None => Ok(path),
    }
}

// A text, or none of its bytes.
fn client_text(alloc: Global, with_texts: bool, text: Text) -> Text
    ensures { result ≡ client_text with_texts text }
{
    if with_texts {
        text
    } else {
        Text::new(Vec::new(alloc))
    }
}

fn client_call(
    alloc: Global,
    name: Option<&Name>,
    with_texts: bool,
    call: Call,
) -> Result<Call, AllocError>
    ensures { IfOk result (λ c. c ≡ client_call (option_copied name.entry) with_texts call) }
{
    Ok(match call {
        Call::DeleteEntry { path, rev, parent } => Call::DeleteEntry {
            path: client_path(alloc, name, path)?,
            rev,
            parent,
        },
        Call::AddDirectory {
            path,
            parent,
            token,
        } => Call::AddDirectory {
            path: client_path(alloc, name, path)?,
            parent,
            token,
        },
        Call::OpenDirectory {
            path,
            parent,
            base,
            token,
        } => Call::OpenDirectory {
            path: client_path(alloc, name, path)?,
            parent,
            base,
            token,
        },
        Call::AddFile {
            path,
            parent,
            token,
        } => Call::AddFile {
            path: client_path(alloc, name, path)?,
            parent,
            token,
        },
        Call::OpenFile {
            path,
            parent,
            base,
            token,
        } => Call::OpenFile {
            path: client_path(alloc, name, path)?,
            parent,
            base,
            token,
        },
        Call::ApplyText {
            token,
            base_md5,
            text,
        } => Call::ApplyText {
            token,
            base_md5,
            text: client_text(alloc, with_texts, text),
        },
        call => call,
    })
}

impl<E: Editor> Editor for ClientView<'_, '_, E> {
    ghost use Rattle.std.specs.Prelude.{◌≡◌};
    ghost use Rattle.svn_served.specs.ClientCalls.{client_name, Shows};

    ghost answers = { λ before call answer after.
        (client_name after.entry.now ≡ client_name before.entry.now) × (after.with_texts ≡ before.with_texts)
        × (after.editor.ghost_name ≡ before.editor.ghost_name)
        × Shows E.answers (client_name before.entry.now) before.with_texts before.editor.now call answer after.editor.now };

    fn call(&mut self, call: Call) -> Result<(), EditFault> {
        if call.is_abort() {
            return Ok(());
        }
        match client_call(self.alloc, client_name(self.entry), self.with_texts, call) {
            Ok(call) => self.editor.call(call),
            Err(_) => Err(EditFault::Memory),
        }
    }
}
