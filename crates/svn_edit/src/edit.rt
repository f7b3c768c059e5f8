//! An edit of a copy, call by call.
ghost use Rattle.std.specs.Prelude.{◌≡◌, ◌≢◌, ◌+◌, [], ◌∷◌, ◌++◌, List, IfOk, IfErr, OnOk, OnErr, true, false};
ghost use Rattle.md5.specs.Md5.{md5};
ghost use Rattle.svn_types.specs.Names.{Path};
ghost use Rattle.svn_editor.specs.Calls.{is_last, is_abort};
ghost use Rattle.std.specs.Option.{option_copied};
ghost use Rattle.std.specs.List.{list_any};
ghost use Rattle.svn_editor.specs.declared.mode.Mode.{Mode};
ghost use Rattle.svn_editor.specs.declared.mode.Mode.TheVariants.{Update};
ghost use Rattle.svn_model.specs.declared.base_node.BaseNode.{BaseNode};
ghost use Rattle.svn_model.specs.Nodes.{WorkingCopy, get_in};
ghost use Rattle.svn_model.specs.Effects.{refusal};
ghost use Rattle.svn_edit.specs.Applying.{TakenInOrder, batons_of, StandsAfter, path_open, live_count, open_count, HasEnded, IsRefused, StaysRefused, StaysEnded, LeavesRefused};
ghost use Rattle.svn_edit.specs.Leaving.{HoldsPools, IsLeft, LeavesPools, PoolsAfter};
ghost use Rattle.svn_model.specs.Answering.{AnswersCall, WantsInOrder};
ghost use Rattle.std.specs.FinMap as map;

use crate::pending::Pending;
use std::alloc::Global;
use svn_editor::{Call, EditFault, Mode, OrderFault, Token};
use svn_nodes::Nodes;
use svn_order::OrderCheck;
use svn_types::RelPath;

/// The state of an edit.
#[derive(Clone, Copy)]
pub(crate) enum Stage {
    /// Every call so far was accepted, and none was the last.
    Going,
    /// A call was refused: only `AbortEdit` may follow.
    Refused,
    /// The edit was ended or given up.
    Ended,
}

/// An edit: its state, the check of the order of its calls, and what the calls in order leave to be done.
#[derive(Drop)]
pub struct Edit {
    pub(crate) stage: Stage,
    pub(crate) order: OrderCheck,
    pub(crate) pending: Pending,
}

impl Edit {
    /// An edit that no call was given to. The only fault is Memory.
    pub fn new(alloc: Global) -> Result<Edit, EditFault>
        ensures begun { IfOk result (λ e. (mode : Mode) (nodes : List (Path × BaseNode)) → StandsAfter mode (get_in nodes) e nodes []) }
        ensures memory { IfErr result (λ e. e ≡ EditFault.Memory) }
    {
        let pending = Pending::new(alloc)?;
        Ok(Edit {
            stage: Stage::Going,
            order: OrderCheck::new(alloc),
            pending,
        })
    }

    /// The path of the file or directory that is open under a token. It takes no memory.
    pub fn open_path(&self, token: Token) -> Option<&RelPath>
        ensures { (mode : Mode) (w0 : WorkingCopy) (nodes : List (Path × BaseNode)) (calls : List Call) → StandsAfter mode w0 self.now nodes calls → list_any is_last calls ≡ false → option_copied result ≡ path_open calls token }
    {
        self.pending.open_path(token)
    }

    /// Takes the next call, and changes the copy as it says, in an update or in a switch of the whole copy: which, is the same at each call of
    /// an edit. The order check's faults come first, then those of the copy: DeleteEntry
    /// NoEntry, WrongRevision; the adds EntryExists, TooDeep; the opens NoEntry, WrongKind, WrongRevision, TooDeep; property changes TooLong;
    /// ApplyText TooLong, BaseChecksum; CloseFile TextChecksum; CloseEdit of a switch TooDeep. Memory comes after the order check's faults,
    /// and perhaps before the copy's; at AbortEdit and at CloseEdit of an update it doesn't come. After a refusal the copy is as it was, the
    /// pools are those of what is open, and every call but AbortEdit is refused.
    pub fn call(&mut self, mode: &Mode, copy: &mut Nodes, call: &Call) -> Result<(), EditFault>
        ensures answers { (w0 : WorkingCopy) (calls : List Call) → StandsAfter mode.now w0 self.old copy.old.entries calls → AnswersCall (refusal md5 mode.now calls call.now copy.old.entries) result }
        ensures in_order { (w0 : WorkingCopy) (calls : List Call) → StandsAfter mode.now w0 self.old copy.old.entries calls → WantsInOrder calls call.now result }
        ensures accepted { OnOk result ((w0 : WorkingCopy) (calls : List Call) → StandsAfter mode.now w0 self.old copy.old.entries calls → StandsAfter mode.now w0 self.new copy.new.entries (calls ++ call.now ∷ [])) }
        ensures refused { OnErr result ((w0 : WorkingCopy) (calls : List Call) → StandsAfter mode.now w0 self.old copy.old.entries calls → copy.new.entries ≡ copy.old.entries) }
        ensures dead { LeavesRefused self.old.stage result self.new }
        ensures was_refused { IsRefused self.old → StaysRefused call.now result self.new × (copy.new ≡ copy.old) }
        ensures last { is_last call.now ≡ true → mode.now ≡ Update → IfErr result (λ e. e ≢ EditFault.Memory) }
        ensures abort { is_abort call.now ≡ true → IfErr result (λ e. e ≢ EditFault.Memory) }
        ensures ended { HasEnded self.old → StaysEnded self.old result self.new × (copy.new ≡ copy.old) }
        ensures pools { PoolsAfter mode.now self.old copy.old.entries call.now result self.new }
    {
        match self.stage {
            Stage::Ended => Err(EditFault::Order(OrderFault::Ended)),
            Stage::Refused => self.give_up(call),
            Stage::Going => self.take(mode, copy, call),
        }
    }

    /// How many pools are live: one, and one for each file or directory that is open. It takes no memory.
    pub fn live_pools(&self) -> u64
        ensures live { result ≡ map.len self.now.pending.pools.live }
        ensures count { (mode : Mode) (w0 : WorkingCopy) (nodes : List (Path × BaseNode)) (calls : List Call) → StandsAfter mode w0 self.now nodes calls → result ≡ live_count calls }
        ensures left { (calls : List Call) (c : Call) → IsLeft calls c self.now → result ≡ open_count calls + 1 }
    {
        self.pending.pools.live()
    }

    // Takes the next call after a refusal.
    fn give_up(&mut self, call: &Call) -> Result<(), EditFault>
        requires { IsRefused self.old }
        ensures stays { StaysRefused call.now result self.new }
        ensures left { (calls : List Call) (c : Call) → IsLeft calls c self.old → LeavesPools call.now self.old self.new }
    {
        if matches!(call, Call::AbortEdit) {
            self.pending.drop_batons();
            self.stage = Stage::Ended;
            Ok(())
        } else {
            Err(EditFault::Order(OrderFault::Dead))
        }
    }

    // Takes the next call while the edit goes on.
    fn take(&mut self, mode: &Mode, copy: &mut Nodes, call: &Call) -> Result<(), EditFault>
        ensures answers { (w0 : WorkingCopy) (calls : List Call) → StandsAfter mode.now w0 self.old copy.old.entries calls → AnswersCall (refusal md5 mode.now calls call.now copy.old.entries) result }
        ensures in_order { (w0 : WorkingCopy) (calls : List Call) → StandsAfter mode.now w0 self.old copy.old.entries calls → WantsInOrder calls call.now result }
        ensures accepted { OnOk result ((w0 : WorkingCopy) (calls : List Call) → StandsAfter mode.now w0 self.old copy.old.entries calls → StandsAfter mode.now w0 self.new copy.new.entries (calls ++ call.now ∷ [])) }
        ensures refused { OnErr result ((w0 : WorkingCopy) (calls : List Call) → StandsAfter mode.now w0 self.old copy.old.entries calls → copy.new.entries ≡ copy.old.entries) }
        ensures last { is_last call.now ≡ true → mode.now ≡ Update → IfErr result (λ e. e ≢ EditFault.Memory) }
        ensures abort { is_abort call.now ≡ true → IfErr result (λ e. e ≢ EditFault.Memory) }
        ensures dead { OnErr result (IsRefused self.new) }
        ensures left { OnErr result ((w0 : WorkingCopy) (calls : List Call) → StandsAfter mode.now w0 self.old copy.old.entries calls → list_any is_last calls ≡ false → HoldsPools self.new.pending.pools (batons_of self.new.pending) calls call.now) }
    {
        let answer = self.take_in_order(mode, copy, call);
        if answer.is_err() {
            self.stage = Stage::Refused;
        } else if call.is_last() {
            self.stage = Stage::Ended;
        }
        answer
    }

    fn take_in_order(&mut self, mode: &Mode, copy: &mut Nodes, call: &Call) -> Result<(), EditFault>
        ensures answers { (w0 : WorkingCopy) (calls : List Call) → StandsAfter mode.now w0 self.old copy.old.entries calls → AnswersCall (refusal md5 mode.now calls call.now copy.old.entries) result }
        ensures in_order { (w0 : WorkingCopy) (calls : List Call) → StandsAfter mode.now w0 self.old copy.old.entries calls → WantsInOrder calls call.now result }
        ensures accepted { OnOk result ((w0 : WorkingCopy) (calls : List Call) → StandsAfter mode.now w0 self.old copy.old.entries calls → TakenInOrder mode.now w0 self.new copy.new.entries calls call.now) }
        ensures last { is_last call.now ≡ true → mode.now ≡ Update → IfErr result (λ e. e ≢ EditFault.Memory) }
        ensures abort { is_abort call.now ≡ true → IfErr result (λ e. e ≢ EditFault.Memory) }
        ensures refused { OnErr result ((w0 : WorkingCopy) (calls : List Call) → StandsAfter mode.now w0 self.old copy.old.entries calls → copy.new.entries ≡ copy.old.entries) }
        ensures pools { OnErr result ((w0 : WorkingCopy) (calls : List Call) → StandsAfter mode.now w0 self.old copy.old.entries calls → list_any is_last calls ≡ false → HoldsPools self.new.pending.pools (batons_of self.new.pending) calls call.now) }
    {
        self.order.step(call)?;
        self.pending.apply(mode, copy, call)
    }
}
