//! What takes the calls of a run: an edit, and the nodes of the copy by themselves, in the mode of the request.
ghost use Rattle.std.specs.Prelude.{◌≡◌};
ghost use Rattle.svn_edit.specs.Carrying.{Carries};

use crate::listener::Listener;
use std::alloc::Global;
use svn_edit::Pending;
use svn_editor::{Call, EditFault, Mode};
use svn_types::RelPath;
use svn_wc::LooseCopy;

/// An edit that tests no order, and of files little that would be refused, since a run's calls are in order and none is refused; with the nodes that
/// it changes.
#[derive(Drop)]
pub(crate) struct Carrier<'r> {
    pub(crate) alloc: Global,
    pub(crate) mode: &'r Mode,
    pub(crate) pending: Pending,
    pub(crate) copy: LooseCopy,
}

// A clone, which shares the names of the path and takes no memory.
fn shared(path: &RelPath) -> Option<RelPath> {
    match path.clone() {
        Ok(path) => Some(path),
        Err(_) => None,
    }
}

// The path of what a call is about, before it is applied.
fn path_of(alloc: Global, pending: &Pending, call: &Call) -> Option<RelPath> {
    if let Call::OpenRoot { .. } = call {
        return Some(RelPath::root(alloc));
    }
    match call.path() {
        Some(path) => shared(path),
        None => shared(pending.open_path(call.token()?)?),
    }
}

impl<'r> Carrier<'r> {
    /// Applies a call, and reports it to the listener if it was accepted.
    #[inline(always)]
    pub(crate) fn carry<L: Listener>(
        &mut self,
        listener: &mut L,
        call: Call,
    ) -> Result<(), EditFault>
        ensures carries { Carries self.old.mode.now self.old.pending self.old.copy.nodes.entries call result self.new.pending self.new.copy.nodes.entries }
        ensures same_mode { self.new.mode ≡ self.old.mode }
    {
        if !listener.is_listening() {
            return self.pending.carry(self.mode, &mut self.copy.nodes, &call);
        }
        let path = path_of(self.alloc, &self.pending, &call);
        let answer = self.pending.carry(self.mode, &mut self.copy.nodes, &call);
        if answer.is_ok() {
            listener.accepted(&call, path.as_ref());
        }
        drop(call);
        answer
    }
}
