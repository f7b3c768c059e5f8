//! The lines of `svn update`.
ghost use Rattle.std.specs.Prelude.{⊤};

use std::alloc::{AllocError, Global};
use std::io;
use yumbeltir::{Applier, Call, EditFault, Editor, RelPath};

// The two columns before the path in a line: what happened to the node, and whether the properties of an existing node changed.
#[derive(Clone, Copy)]
struct Columns(char, char);

const UNCHANGED: Columns = Columns(' ', ' ');

const ADDED: Columns = Columns('A', ' ');

const DELETED: Columns = Columns('D', ' ');

/// An editor that passes each call to an applier, and prints a line for each node that is added (`A`), deleted (`D`) or changed (`U`, in the
/// second column if its properties are).
#[derive(Drop)]
pub(crate) struct UpdateLines<'r, 'c, R: Print> {
    rt: &'r R,
    applier: Applier<'c>,
    // for each node that was opened or added, by its token: the columns of the line at its close. Tokens are 0, 1, 2 and so on
    at_close: Vec<Option<Columns>>,
    /// Whether a line was printed.
    pub(crate) has_changed: bool,
    /// Why a line couldn't be printed, if one couldn't: then the update ends before the next call.
    pub(crate) unprinted: Option<io::Error>,
}

impl<'r, 'c, R: Print> UpdateLines<'r, 'c, R> {
    pub(crate) fn new(rt: &'r R, alloc: Global, applier: Applier<'c>) -> UpdateLines<'r, 'c, R> {
        UpdateLines {
            rt,
            applier,
            at_close: Vec::new(alloc),
            has_changed: false,
            unprinted: None,
        }
    }

    // The columns of the call's line, if it has one. An added directory has its line before those of its contents.
    fn columns(&mut self, call: &Call) -> Result<Option<Columns>, AllocError> {
        let (now, at_close) = match call {
            Call::DeleteEntry { .. } => return Ok(Some(DELETED)),
            Call::AddDirectory { .. } => (Some(ADDED), None),
            Call::AddFile { .. } => (None, Some(ADDED)),
            Call::OpenRoot { .. } | Call::OpenDirectory { .. } | Call::OpenFile { .. } => {
                (None, Some(UNCHANGED))
            }
            _ => return Ok(self.change(call)),
        };
        self.at_close.push(at_close)?;
        Ok(now)
    }

    // The same for a call on an open node.
    fn change(&mut self, call: &Call) -> Option<Columns> {
        let columns = self.at_close.get_mut(call.token()?.0 as usize)?.as_mut()?;
        match call {
            Call::CloseFile { .. } | Call::CloseDirectory { .. } => {
                return (columns.0 != ' ' || columns.1 != ' ').then_some(*columns);
            }
            _ if columns.0 == 'A' => (),
            Call::ApplyText { .. } => columns.0 = 'U',
            Call::ChangeDirProp { .. } | Call::ChangeFileProp { .. } => columns.1 = 'U',
            _ => (),
        }
        None
    }

    // The path of the node that a call is about, if that is open.
    fn path<'s>(&'s self, call: &'s Call) -> Option<&'s RelPath> {
        match call.path() {
            Some(path) => Some(path),
            None => self.applier.open_path(call.token()?),
        }
    }

    fn line_of(&mut self, call: &Call) -> Result<Option<(Columns, RelPath)>, AllocError> {
        match (self.columns(call)?, self.path(call)) {
            (Some(columns), Some(path)) => Ok(Some((columns, path.clone()?))),
            _ => Ok(None),
        }
    }
}

impl<'r, 'c, R: Print> Editor for UpdateLines<'r, 'c, R> {
    // this promises only that the call returns
    ghost answers = { λ before call answer after. ⊤ };

    fn call(&mut self, call: Call) -> Result<(), EditFault> {
        // the applier has taken the call of that line, so it is the next one that is refused; it still gets the AbortEdit that follows
        if self.unprinted.is_some() && !matches!(call, Call::AbortEdit) {
            return Err(EditFault::Stopped);
        }
        let line = self.line_of(&call)?;
        self.applier.call(call)?;
        if let Some((Columns(node, props), path)) = &line {
            self.has_changed = true;
            self.unprinted = println!(self.rt; "{node}{props}   {path}").err();
        }
        Ok(())
    }
}
