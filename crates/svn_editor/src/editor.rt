//! What takes the calls of an edit.

use crate::call::Call;
use crate::fault::EditFault;

/// What takes the calls of an edit, one by one, each with a result: the editor of `svn_delta.h`, with one call for each of its functions.
///
/// A driver makes the calls in this order:
/// - `SetTargetRevision` is the first call, and comes once; `CloseEdit` or `AbortEdit` is the last. `OpenRoot` comes once, before any call on an
///   entry, and the root is closed before `CloseEdit`.
/// - An entry of a directory is opened or added at most once. It is deleted at most once; an add may follow the delete, an open may not, and no
///   delete comes after an open or add.
/// - A directory that is opened or added is an entry of the directory that was opened last and isn't closed. None is closed before the directories
///   below it.
/// - The property changes of a directory come before any directory in it is opened or after all of them are closed.
/// - A file's property changes follow its opening, before any call on another file or a directory. Its text and its close do so too; or they come
///   after all directories are closed, the root included. A file has at most one text, which one call gives whole.
/// - Each open and add gives the next token, counted from 0, and no call names a token that was closed.
///
/// A call that is refused changes nothing of what is edited. After a refusal the driver makes `AbortEdit` and no other call; an editor may
/// refuse any other. `AbortEdit` may come at any time before the end. It is the driver that makes it, whether a call was refused, memory is
/// gone or the edit isn't wanted any more; an editor doesn't give itself up. Whatever it returns, the edit is over.
///
/// A call may wait where an editor says so: one that passes its calls on to another thread waits until that thread has room for them, and the
/// driver with it. Any other editor comes back at once.
pub trait Editor {
    ghost use Rattle.std.specs.Prelude.{Result};
    ghost use Rattle.svn_editor.specs.declared.call.Call.{Call};
    ghost use Rattle.svn_editor.specs.declared.fault.EditFault.{EditFault};

    // of the editor before, the call, its result and the editor after
    ghost answers: { Self → Call → Result (Unit {0}) EditFault → Self → Type 0 };

    /// Takes the next call, or refuses it with the reason. A refused call has changed nothing of what is edited.
    fn call(&mut self, call: Call) -> Result<(), EditFault>
        ensures { answers self.old call result self.new };
}
