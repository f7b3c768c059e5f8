//! The editor that applies an edit to a working copy.
ghost use Rattle.std.specs.Prelude.{◌≡◌, ◌≢◌, ◌+◌, ◌↔◌, IsTrue, true, [], ◌∷◌, ◌++◌, List, IfOk, IfErr, OnOk, OnErr, None, Some, Ok, false};
ghost use Rattle.std.specs.List.{list_any};
ghost use Rattle.std.specs.Option.{option_copied};
ghost use Rattle.md5.specs.Md5.{md5};
ghost use Rattle.svn_editor.specs.declared.call.Call.{Call};
ghost use Rattle.svn_editor.specs.declared.fault.EditFault.TheVariants.{Memory};
ghost use Rattle.svn_editor.specs.Calls.{is_last, is_abort};
ghost use Rattle.svn_editor.specs.declared.mode.Mode.TheVariants.{Update, SwitchTo};
ghost use Rattle.svn_model.specs.Nodes.{WorkingCopy as CopyMap, get_in};
ghost use Rattle.svn_model.specs.Effects.{refusal};
ghost use Rattle.law_copy.specs.Laws.{OpensNamed, IsShapedAfter};
ghost use Rattle.svn_edit.specs.Leaving.{IsLeft, PoolsAfter};
ghost use Rattle.svn_edit.specs.Applying.{open_count, live_count, OneIsLeft, StandsAfter, path_open, HasEnded, IsRefused, StaysRefused, StaysEnded, LeavesRefused};
ghost use Rattle.svn_model.specs.Answering.{AnswersCall, WantsInOrder};
ghost use Rattle.svn_wc.specs.Taking.{IsInShape};

use crate::known::Known;
use crate::paths::last_name_allowed;
use crate::working_copy::WorkingCopy;
use std::alloc::Global;
use svn_edit::Edit;
use svn_editor::{Call, EditFault, Editor, Mode, Token};
use svn_types::RelPath;

/// Applies the calls of an edit to a copy (the receiver of `svn_delta.h`): of an update or a switch of the whole copy, texts in place or late. As
/// long as the edit goes on, it is after some calls, which left the copy in its shape. The copy is borrowed until the applier is gone; an
/// edit that is neither closed nor given up then leaves what its calls left.
#[derive(Drop)]
pub struct Applier<'a> {
    copy: &'a mut WorkingCopy,
    mode: Mode,
    edit: Edit,
    // Whether the copy was known to be level before the edit. It is so again after the last call, as each directory that was opened is closed then.
    was_level: bool,
    ghost in_shape: { ∥ IsInShape mode was_level edit copy.now ∥₁ },
}

impl<'a> Applier<'a> {
    /// An applier of an update, which no call was given to. The only fault is Memory.
    pub fn new(alloc: Global, copy: &'a mut WorkingCopy) -> Result<Applier<'a>, EditFault>
        ensures mode { IfOk result (λ a. a.mode ≡ Update) }
        ensures begun { IfOk result (λ a. StandsAfter Update (get_in copy.old) a.edit a.copy.now []) }
        ensures shape { IfOk result (λ a. IsShapedAfter Update (get_in a.copy.now) []) }
        ensures same_copy { IfOk result (λ a. a.copy.ghost_name ≡ copy.entry.ghost_name) }
        ensures memory { IfErr result (λ e. e ≡ Memory) }
    {
        copy.law();
        let edit = Edit::new(alloc)?;
        let was_level = copy.known.level;
        Ok(Applier {
            copy,
            mode: Mode::Update,
            edit,
            was_level,
        })
    }

    /// An applier of a switch of the whole copy to that path of the repository. The only fault is Memory. A path of over 64 names is
    /// refused at OpenRoot, as TooDeep.
    pub fn new_switch(
        alloc: Global,
        copy: &'a mut WorkingCopy,
        to: &RelPath,
    ) -> Result<Applier<'a>, EditFault>
        ensures mode { IfOk result (λ a. a.mode ≡ SwitchTo to.now) }
        ensures begun { IfOk result (λ a. StandsAfter (SwitchTo to.now) (get_in copy.old) a.edit a.copy.now []) }
        ensures shape { IfOk result (λ a. IsShapedAfter (SwitchTo to.now) (get_in a.copy.now) []) }
        ensures same_copy { IfOk result (λ a. a.copy.ghost_name ≡ copy.entry.ghost_name) }
        ensures memory { IfErr result (λ e. e ≡ Memory) }
    {
        copy.law();
        let Ok(root) = to.clone() else {
            return Err(EditFault::Memory);
        };
        let edit = Edit::new(alloc)?;
        let was_level = copy.known.level;
        Ok(Applier {
            copy,
            mode: Mode::SwitchTo(root),
            edit,
            was_level,
        })
    }

    /// Takes the next call, as its [`Editor`] does, and leaves the call to the caller.
    #[inline(always)]
    pub fn apply(&mut self, call: &Call) -> Result<(), EditFault>
        ensures answers { (w0 : CopyMap) (calls : List Call) → StandsAfter self.old.mode w0 self.old.edit self.old.copy.now calls → AnswersCall (refusal md5 self.old.mode calls call.now self.old.copy.now) result }
        ensures in_order { (w0 : CopyMap) (calls : List Call) → StandsAfter self.old.mode w0 self.old.edit self.old.copy.now calls → WantsInOrder calls call.now result }
        ensures accepted { OnOk result ((w0 : CopyMap) (calls : List Call) → StandsAfter self.old.mode w0 self.old.edit self.old.copy.now calls → StandsAfter self.old.mode w0 self.new.edit self.new.copy.now (calls ++ call.now ∷ [])) }
        ensures shape { OnOk result ((w0 : CopyMap) (calls : List Call) → StandsAfter self.old.mode w0 self.old.edit self.old.copy.now calls → IsShapedAfter self.old.mode (get_in self.old.copy.now) calls → IsShapedAfter self.old.mode (get_in self.new.copy.now) (calls ++ call.now ∷ [])) }
        ensures refused { OnErr result ((w0 : CopyMap) (calls : List Call) → StandsAfter self.old.mode w0 self.old.edit self.old.copy.now calls → self.new.copy.now ≡ self.old.copy.now) }
        ensures dead { LeavesRefused self.old.edit.stage result self.new.edit }
        ensures was_refused { IsRefused self.old.edit → StaysRefused call.now result self.new.edit × (self.new.copy.now ≡ self.old.copy.now) }
        ensures ended { HasEnded self.old.edit → StaysEnded self.old.edit result self.new.edit × (self.new.copy.now ≡ self.old.copy.now) }
        ensures pools { PoolsAfter self.old.mode self.old.edit self.old.copy.now call.now result self.new.edit }
        ensures last { is_last call.now ≡ true → self.old.mode ≡ Update → IfErr result (λ e. e ≢ Memory) }
        ensures abort { is_abort call.now ≡ true → IfErr result (λ e. e ≢ Memory) }
        ensures same_mode { self.new.mode ≡ self.old.mode }
        ensures same_copy { self.new.copy.ghost_name ≡ self.old.copy.ghost_name }
    {
        opens_allowed(call);
        let is_update = is_update(&self.mode);
        let copy = &mut *self.copy;
        let was_unswitched = copy.known.unswitched;
        let answer = self.edit.call(&self.mode, &mut copy.nodes, call);
        let has_ended = has_ended(call, &answer);
        copy.known = Known {
            unswitched: knows_unswitched(is_update, was_unswitched, has_ended),
            level: is_level_again(self.was_level, has_ended),
        };
        answer
    }

    /// The copy, as the calls so far have left it. It takes no memory.
    pub fn copy(&self) -> &WorkingCopy
        ensures { result.now ≡ self.now.copy.now }
    {
        self.copy
    }

    /// The path of the file or directory that is open under a token. It takes no memory.
    pub fn open_path(&self, token: Token) -> Option<&RelPath>
        ensures { (w0 : CopyMap) (calls : List Call) → StandsAfter self.now.mode w0 self.now.edit self.now.copy.now calls → list_any is_last calls ≡ false → option_copied result ≡ path_open calls token }
    {
        self.edit.open_path(token)
    }

    /// How many pools are live: one, and one for each file or directory that is open; after the last call one. It takes no memory.
    /// After a refusal what is open is what the accepted calls left open, until AbortEdit.
    pub fn live_pools(&self) -> u64
        ensures left { (calls : List Call) (c : Call) → IsLeft calls c self.now.edit → result ≡ open_count calls + 1 }
        ensures alone { OneIsLeft self.now.edit.pending → result ≡ 1 }
        ensures count { (w0 : CopyMap) (calls : List Call) → StandsAfter self.now.mode w0 self.now.edit self.now.copy.now calls → result ≡ live_count calls }
    {
        self.edit.live_pools()
    }
}

impl<'a> Editor for Applier<'a> {
    ghost use Rattle.std.specs.Prelude.{◌≡◌};
    ghost use Rattle.svn_wc.specs.Taking.{TakesCall};

    ghost answers = { λ before call answer after.
        TakesCall before.mode before.edit before.copy.now call answer after.edit after.copy.now × (after.mode ≡ before.mode)
        × (after.copy.ghost_name ≡ before.copy.ghost_name) };

    /// Takes the next call, and changes the copy as it says. The faults come in the order that `svn_edit::Edit::call` names. After a refusal
    /// the copy is as it was, and every call but AbortEdit is refused: Dead. After the last call each is Ended.
    #[inline(always)]
    fn call(&mut self, call: Call) -> Result<(), EditFault> {
        self.apply(&call)
    }
}

// Whether an edit is of an update, and not of a switch of the whole copy.
fn is_update(mode: &Mode) -> bool
    ensures { IsTrue result ↔ (mode.now ≡ Update) }
{
    matches!(mode, Mode::Update)
}

// Whether a call was the last one, and accepted.
fn has_ended(call: &Call, answer: &Result<(), EditFault>) -> bool
    ensures { result ≡ true → (call.now ≡ Call.CloseEdit) × (answer.now ≡ Ok tt) }
{
    match (call, answer) {
        (Call::CloseEdit, Ok(())) => true,
        _ => false,
    }
}

// Whether it is known after a call that no path of the copy is switched: an update leaves that as it was, and the last call of a switch brings
// each path under the new root.
fn knows_unswitched(is_update: bool, was_unswitched: bool, has_ended: bool) -> bool
    ensures update { is_update ≡ true → result ≡ was_unswitched }
    ensures switch { is_update ≡ false → result ≡ has_ended }
{
    if is_update { was_unswitched } else { has_ended }
}

// Whether it is known after a call that the copy is level.
fn is_level_again(was_level: bool, has_ended: bool) -> bool
    ensures { result ≡ true → (was_level ≡ true) × (has_ended ≡ true) }
{
    was_level && has_ended
}

// The path that a call opens or adds ends with an allowed name.
fn opens_allowed(call: &Call)
    ensures { OpensNamed call.now }
{
    match call {
        Call::OpenRoot { .. } => {}
        Call::AddDirectory { path, .. } => last_name_allowed(path),
        Call::OpenDirectory { path, .. } => last_name_allowed(path),
        Call::AddFile { path, .. } => last_name_allowed(path),
        Call::OpenFile { path, .. } => last_name_allowed(path),
        _ => {}
    }
}
