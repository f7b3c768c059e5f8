//! The order of the calls of an edit.
ghost use Rattle.std.specs.Prelude.{◌≡◌, ◌≢◌, true, false, List, [], ◌∷◌, ◌++◌, None, OnOk, OnErr, IfErr};
ghost use Rattle.svn_types.specs.declared.kind.Kind.TheVariants.{Directory};
ghost use Rattle.svn_order.specs.Tokens.{token_of};
ghost use Rattle.svn_order.specs.Directories.{Opens};
ghost use Rattle.svn_order.specs.OrderChanges.{Becomes, Stays, Notes, NotesDirectory, NotesDelete, NotesChange, NotesDirectoryClose, NotesFile, NotesText, NotesFileClose, Takes};
ghost use Rattle.svn_editor.specs.Calls.{is_last};
ghost use Rattle.svn_editor.specs.Order.{order_fault, Answers};
ghost use Rattle.svn_order.specs.StandsAfter.{StandsAfter, IsDead, HasEnded, StaysDead, StaysEnded, LeavesDead};
ghost use Rattle.svn_editor.specs.declared.call.Call.{Call};
ghost use Rattle.svn_editor.specs.declared.fault.OrderFault.TheVariants.{Memory};

use crate::directories::OpenedDirectory;
use crate::tokens::GivenToken;
use crate::{directories, tokens};
use std::alloc::{AllocError, Global};
use svn_editor::{Call, OrderFault, Token};
use svn_types::{Kind, RelPath};

/// The state of an edit; only `OrderCheck` uses it.
#[derive(Clone, Copy, Debug)]
pub enum Stage {
    /// No call was taken.
    Before,
    /// The calls so far are in order, and none is the last.
    During,
    /// The edit was ended or given up.
    Ended,
    /// A call was refused: only `AbortEdit` may follow.
    Dead,
}

/// Checks which calls of an edit are in order, by the rules of `svn_delta.h`, which are prose at `svn_editor::Editor`.
///
/// It remembers a few bytes of each token, and of the directories that are open their paths and the names of the entries that calls were
/// about. The cost of a step grows with the length of the path that the call has, and with the logarithm of the entries of its directory;
/// `CloseEdit`, which comes once, goes over the tokens.
#[derive(Debug, Drop)]
pub struct OrderCheck {
    pub(crate) stage: Stage,
    pub(crate) tokens: Vec<GivenToken>,
    pub(crate) directories: Vec<OpenedDirectory>,
    pub(crate) current: Option<Token>,
    pub(crate) alloc: Global,
}

impl OrderCheck {
    /// A check that no call was given to. Takes no memory.
    pub fn new(alloc: Global) -> OrderCheck
        ensures { StandsAfter result [] }
    {
        OrderCheck {
            stage: Stage::Before,
            tokens: Vec::new(alloc),
            directories: Vec::new(alloc),
            current: None,
            alloc,
        }
    }

    /// Looks at the next call, and takes it if it is in order.
    ///
    /// The first fault in this order is returned: Ended, Dead, TargetFirst, UnknownToken, ClosedToken, TokenOrder, WrongPath, FileOpen,
    /// TooEarly, NotInnermost, OpenBelow, PropLate, DeleteLate, EntryAgain, TextAgain, RootNotClosed, Memory. After a fault other than Ended
    /// the edit is dead: every call but `AbortEdit` returns Dead. `AbortEdit` is in order at any time before the end, and neither it nor
    /// `CloseEdit` takes memory.
    pub fn step(&mut self, call: &Call) -> Result<(), OrderFault>
        ensures answers { (calls : List Call) → StandsAfter self.old calls → Answers (order_fault calls call.now) result }
        ensures accepted { OnOk result ((calls : List Call) → StandsAfter self.old calls → StandsAfter self.new (calls ++ call.now ∷ [])) }
        ensures refused { LeavesDead result self.new }
        ensures dead { IsDead self.old → StaysDead call.now result self.new }
        ensures ended { HasEnded self.old → StaysEnded self.old result self.new }
        ensures last { is_last call.now ≡ true → IfErr result (λ fault. fault ≢ Memory) }
    {
        match self.stage {
            Stage::Ended => Err(OrderFault::Ended),
            Stage::Dead => self.give_up(call),
            Stage::Before | Stage::During => self.take(call),
        }
    }

    // Takes the next call after a refusal.
    fn give_up(&mut self, call: &Call) -> Result<(), OrderFault>
        requires { IsDead self.old }
        ensures { StaysDead call.now result self.new }
    {
        if matches!(call, Call::AbortEdit) {
            self.stage = Stage::Ended;
            Ok(())
        } else {
            Err(OrderFault::Dead)
        }
    }

    // Takes the next call while the edit goes on.
    fn take(&mut self, call: &Call) -> Result<(), OrderFault>
        ensures { Takes self.old call.now result self.new }
    {
        if matches!(call, Call::AbortEdit) {
            self.stage = Stage::Ended;
            return Ok(());
        }
        if let Some(fault) = self.fault_of(call) {
            self.stage = Stage::Dead;
            return Err(fault);
        }
        match self.note(call) {
            Ok(()) => Ok(()),
            Err(_) => {
                self.stage = Stage::Dead;
                Err(OrderFault::Memory)
            }
        }
    }

    // Takes note of a call that is in order.
    fn note(&mut self, call: &Call) -> Result<(), AllocError>
        ensures noted { OnOk result (Notes self.old call.now self.new) }
        ensures last { OnErr result (is_last call.now ≡ false) }
    {
        match call {
            Call::SetTargetRevision { .. } => {
                self.stage = Stage::During;
                Ok(())
            }
            Call::OpenRoot { token, .. } => self.open_directory(&RelPath::root(self.alloc), *token),
            Call::DeleteEntry { path, .. } => self.delete_entry(path),
            Call::AddDirectory { path, token, .. } | Call::OpenDirectory { path, token, .. } => {
                self.open_subdirectory(path, *token)
            }
            Call::ChangeDirProp { .. } => {
                self.change_directory();
                Ok(())
            }
            Call::CloseDirectory { token } => {
                self.close_directory(*token);
                Ok(())
            }
            Call::AddFile { path, token, .. } | Call::OpenFile { path, token, .. } => {
                self.open_file(path, *token)
            }
            Call::ChangeFileProp { .. } => Ok(()),
            Call::ApplyText { token, .. } => {
                self.apply_text(*token);
                Ok(())
            }
            Call::CloseFile { token, .. } => {
                self.close_file(*token);
                Ok(())
            }
            Call::CloseEdit | Call::AbortEdit => {
                self.stage = Stage::Ended;
                Ok(())
            }
        }
    }

    fn open_directory(&mut self, path: &RelPath, token: Token) -> Result<(), AllocError>
        ensures { OnOk result (Becomes (self.old.tokens.items ++ token_of Directory ∷ []) (λ ds es. Opens ds path.now token es) None self.old self.new) }
    {
        let path = path.clone()?;
        tokens::give(&mut self.tokens, Kind::Directory)?;
        directories::open(&mut self.directories, self.alloc, path, token)?;
        self.current = None;
        Ok(())
    }

    fn open_subdirectory(&mut self, path: &RelPath, token: Token) -> Result<(), AllocError>
        ensures { OnOk result (NotesDirectory path.now token self.old self.new) }
    {
        directories::open_entry(&mut self.directories, path)?;
        directories::open_subdirectory(&mut self.directories);
        self.open_directory(path, token)
    }

    fn delete_entry(&mut self, path: &RelPath) -> Result<(), AllocError>
        ensures { OnOk result (NotesDelete path.now self.old self.new) }
    {
        directories::delete_entry(&mut self.directories, path)?;
        self.current = None;
        Ok(())
    }

    fn change_directory(&mut self)
        ensures { NotesChange self.old self.new }
    {
        directories::change_prop(&mut self.directories);
        self.current = None;
    }

    fn close_directory(&mut self, token: Token)
        ensures { NotesDirectoryClose token self.old self.new }
    {
        tokens::close(&mut self.tokens, token);
        directories::close_innermost(&mut self.directories);
        self.current = None;
    }

    fn open_file(&mut self, path: &RelPath, token: Token) -> Result<(), AllocError>
        ensures { OnOk result (NotesFile path.now token self.old self.new) }
    {
        directories::open_entry(&mut self.directories, path)?;
        tokens::give(&mut self.tokens, Kind::File)?;
        self.current = Some(token);
        Ok(())
    }

    fn apply_text(&mut self, token: Token)
        ensures { NotesText token self.old self.new }
    {
        tokens::add_text(&mut self.tokens, token);
        if !self.is_current(token) {
            self.current = None;
        }
    }

    fn close_file(&mut self, token: Token)
        ensures { NotesFileClose token self.old self.new }
    {
        tokens::close(&mut self.tokens, token);
        self.current = None;
    }
}
