//! What the calls of an edit have left to be done, and how each call that is in order takes effect.
ghost use Rattle.std.specs.Prelude.{◌≡◌, [], ◌∷◌, List, IfOk, IfErr, OnOk, OnErr, Some, None, false, if◌then◌else◌};
ghost use Rattle.md5.specs.Md5.{md5};
ghost use Rattle.svn_types.specs.Names.{Path};
ghost use Rattle.svn_editor.specs.Calls.{is_last};
ghost use Rattle.std.specs.Option.{option_copied};
ghost use Rattle.std.specs.List.{list_any};
ghost use Rattle.svn_editor.specs.declared.mode.Mode.{Mode};
ghost use Rattle.svn_editor.specs.declared.mode.Mode.TheVariants.{Update};
ghost use Rattle.svn_editor.specs.Steps.{Delete, Text as TextOf};
ghost use Rattle.svn_edit.specs.declared.baton.Note.TheVariants.{Text as NewText};
ghost use Rattle.svn_edit.specs.Noted.{note_of_value, strings_of_value};
ghost use Rattle.svn_edit.specs.declared.baton.Baton.{Baton};
ghost use Rattle.svn_model.specs.declared.base_node.BaseNode.{BaseNode};
ghost use Rattle.svn_model.specs.Nodes.{WorkingCopy, InPathOrder, get_in};
ghost use Rattle.svn_model.specs.Effects.{is_too_long, step_effect, step_fault};
ghost use Rattle.svn_edit.specs.Applying.{Applied, KeepsTarget, MakesBaton, BatonNoted, batons_of, path_open};
ghost use Rattle.svn_edit.specs.Carrying.{CarriedOut, Carries};
ghost use Rattle.svn_nodes.specs.NodeTests.{IsSumOf};
ghost use Rattle.svn_edit.specs.Leaving.{KeepsPools, NoteBegan};
ghost use Rattle.svn_edit.specs.Taking.{Takes};
ghost use Rattle.svn_model.specs.Answering.{AnswersCall};
ghost use Rattle.svn_pool.specs.Ancestry.{IsCleared};

use crate::baton::{Baton, drop_pool};
use crate::open_path::OpenPath;
use std::alloc::Global;
use svn_editor::{Call, Digest, EditFault, Mode, Token};
use svn_nodes::removal::delete_within;
use svn_nodes::{Nodes, nodes, or_memory};
use svn_pool::{PoolId, PoolTree};
use svn_serials::SerialMap;
use svn_types::{MAX_SIZE, PropName, RelPath, Rev, Text, impossible};

/// The part of an edit below the check of the order of its calls: a baton for each open file and directory, with what its close must do.
/// The strings that it keeps until then lie in pools, one for each baton.
#[derive(Drop)]
pub struct Pending {
    pub(crate) target: Rev,
    pub(crate) pools: PoolTree<Global>,
    // The token that a call in order names has a baton. But the calls so far, from which that follows, are in no field and in no
    // condition of a call, so where a baton is looked up the branch without one stays, and returns Memory.
    pub(crate) batons: SerialMap<Baton, Global>,
    /// The text that came last, from its call to the next close of a file, where a clone of it copies no bytes and knows their checksum.
    /// That close may install it, once it is found to be what lies in the pool.
    pub(crate) given: Option<Text>,
    pub(crate) alloc: Global,
}

// A clone of a text that copies no bytes and knows their checksum, where the text keeps that.
fn kept(text: &Text) -> Option<Text> {
    match text.kept_checksum() {
        Some(_) => text.clone().ok(),
        None => None,
    }
}

fn is_too_long(value: Option<&Text>) -> bool
    ensures { result ≡ is_too_long (option_copied value.entry) }
{
    match value {
        Some(value) => value.len() > MAX_SIZE,
        None => false,
    }
}

// It does nothing. Its contract says what holds of every map.
fn see_order(copy: &Nodes)
    ensures { InPathOrder copy.now.entries }
{
    // the contract of the length has the order
    let _count = copy.len();
}

impl Pending {
    /// One that took no call. The only fault is Memory.
    pub fn new(alloc: Global) -> Result<Pending, EditFault>
        ensures begun { IfOk result (λ e. (mode : Mode) (nodes : List (Path × BaseNode)) → CarriedOut mode (get_in nodes) e nodes []) }
        ensures memory { IfErr result (λ e. e ≡ EditFault.Memory) }
    {
        let Ok(pools) = PoolTree::new(alloc) else {
            return Err(EditFault::Memory);
        };
        Ok(Pending {
            target: Rev(0),
            pools,
            batons: SerialMap::new(alloc),
            given: None,
            alloc,
        })
    }

    /// The path of the file or directory that is open under a token. It takes no memory.
    pub fn open_path(&self, token: Token) -> Option<&RelPath>
        ensures { (mode : Mode) (w0 : WorkingCopy) (nodes : List (Path × BaseNode)) (calls : List Call) → CarriedOut mode w0 self.now nodes calls → list_any is_last calls ≡ false → option_copied result ≡ path_open calls token }
    {
        match self.batons.get(token.0) {
            Some(baton) => Some(baton.path.as_rel_path()),
            None => None,
        }
    }

    /// Applies a call that is known to be in order and not to be refused, in an update or in a switch of the whole copy: which, is the same at
    /// each call of an edit. It tests no order, and of files only that nothing is where one is added
    /// and the length of texts. The only fault of such a call is Memory. Of any other call nothing is promised but that a fault leaves the copy as
    /// it was. AbortEdit changes nothing, and has no fault.
    pub fn carry(&mut self, mode: &Mode, copy: &mut Nodes, call: &Call) -> Result<(), EditFault>
        ensures { Carries mode.now self.old copy.old.entries call.now result self.new copy.new.entries }
    {
        see_order(copy);
        match call {
            Call::AddFile {
                path,
                parent,
                token,
            } => self.add_known_file(copy, path, *parent, *token),
            Call::OpenFile { path, token, .. } => self.open_known_file(path, *token),
            Call::ApplyText { token, text, .. } => self.apply_text(copy, *token, &None, text),
            Call::CloseFile { token, .. } => self.close_file(mode, copy, *token, &None),
            Call::AbortEdit => Ok(()),
            _ => self.apply(mode, copy, call),
        }
    }

    // Applies a call that is in order.
    pub(crate) fn apply(
        &mut self,
        mode: &Mode,
        copy: &mut Nodes,
        call: &Call,
    ) -> Result<(), EditFault>
        ensures { Takes mode.now self.old copy.old.entries call.now result self.new copy.new.entries }
    {
        match call {
            Call::SetTargetRevision { rev } => {
                self.target = *rev;
                Ok(())
            }
            Call::OpenRoot { base, token } => self.open_root(mode, copy, *base, *token),
            Call::DeleteEntry { path, rev, .. } => self.delete_entry(copy, path, *rev),
            Call::AddDirectory {
                path,
                parent,
                token,
            } => self.add_directory(copy, path, *parent, *token),
            Call::OpenDirectory {
                path,
                parent,
                base,
                token,
            } => self.open_directory(mode, copy, path, *base, Some(*parent), *token),
            Call::CloseDirectory { token } => self.close_directory(copy, *token),
            Call::AddFile {
                path,
                parent,
                token,
            } => self.add_file(copy, path, *parent, *token),
            Call::OpenFile {
                path,
                parent,
                base,
                token,
            } => self.open_file(mode, copy, path, *base, *parent, *token),
            Call::ChangeDirProp { token, name, value } => { self.change_prop(*token, name, value) }
            Call::ChangeFileProp { token, name, value } => { self.change_prop(*token, name, value) }
            Call::ApplyText {
                token,
                base_md5,
                text,
            } => self.apply_text(copy, *token, base_md5, text),
            Call::CloseFile { token, text_md5 } => self.close_file(mode, copy, *token, text_md5),
            Call::CloseEdit => self.close_edit(mode, copy),
            Call::AbortEdit => {
                self.drop_batons();
                Ok(())
            }
        }
    }

    // Closes all that is open, and nothing is done for it.
    pub(crate) fn drop_batons(&mut self)
        ensures keeps { KeepsTarget self.old self.new }
        ensures cleared { IsCleared self.old.pools self.new.pools self.old.pools.root }
    {
        self.batons.clear();
        let root = self.pools.root();
        match self.pools.clear(root) {
            Ok(()) => (),
            Err(_) => (),
        }
    }

    // Opens a baton, with what is noted of the base of its text.
    pub(crate) fn open_baton(
        &mut self,
        beneath: PoolId,
        path: OpenPath,
        token: Token,
        base: Option<Digest>,
    ) -> Result<(), EditFault>
        ensures opened { OnOk result (MakesBaton beneath.0 path token self.old self.new) }
        ensures base { OnOk result ((b : Baton) → batons_of self.new token ≡ Some b → b.base ≡ base) }
        ensures keeps { KeepsTarget self.old self.new }
        ensures unchanged { OnErr result (KeepsPools self.old self.new) }
        ensures fault { IfErr result (λ e. e ≡ EditFault.Memory) }
    {
        let Ok(mut baton) = Baton::open(self.alloc, &mut self.pools, beneath, path) else {
            return Err(EditFault::Memory);
        };
        baton.base = base;
        let pool = baton.pool;
        let Ok(_) = self.batons.insert(token.0, baton) else {
            drop_pool(&mut self.pools, pool);
            return Err(EditFault::Memory);
        };
        Ok(())
    }

    fn delete_entry(&self, copy: &mut Nodes, path: &RelPath, rev: Rev) -> Result<(), EditFault>
        ensures { (mode : Mode) → let a = Delete rev in let w = get_in copy.old.entries in Applied (step_fault md5 mode [] w path.now a) (step_effect mode self.now.target [] (record { path = path.now; action = a }) w) copy.old.entries result copy.new.entries }
    {
        if let Some(fault) = nodes::delete_fault(copy.get(path), rev) {
            return Err(fault);
        }
        delete_within(copy, path);
        Ok(())
    }

    fn change_prop(
        &mut self,
        token: Token,
        name: &PropName,
        value: &Option<Text>,
    ) -> Result<(), EditFault>
        ensures keeps { KeepsTarget self.old self.new }
        ensures began { OnErr result ((b : Baton) → batons_of self.old token ≡ Some b → NoteBegan token b (name.now ∷ strings_of_value value.now) self.old self.new) }
        ensures answers { AnswersCall (if is_too_long value.now then Some EditFault.TooLong else None) result }
        ensures noted { OnOk result ((b : Baton) → batons_of self.old token ≡ Some b → BatonNoted token b (note_of_value value.now) (name.now ∷ strings_of_value value.now) self.old.pools (batons_of self.old) self.new.pools (batons_of self.new)) }
    {
        if is_too_long(value.as_ref()) {
            return Err(EditFault::TooLong);
        }
        match self.batons.get_mut(token.0) {
            Some(baton) => or_memory(baton.note_change(&mut self.pools, name, value)),
            // what a call in order changes is open
            None => Err(impossible(EditFault::Memory)),
        }
    }

    fn apply_text(
        &mut self,
        copy: &Nodes,
        token: Token,
        base_md5: &Option<Digest>,
        text: &Text,
    ) -> Result<(), EditFault>
        ensures keeps { KeepsTarget self.old self.new }
        ensures began { OnErr result ((b : Baton) → batons_of self.old token ≡ Some b → NoteBegan token b (text.now ∷ []) self.old self.new) }
        ensures answers { (b : Baton) → batons_of self.old token ≡ Some b → IsSumOf b.base copy.now.entries b.path → AnswersCall (step_fault md5 Update [] (get_in copy.now.entries) b.path (TextOf base_md5.now text.now)) result }
        ensures noted { OnOk result ((b : Baton) → batons_of self.old token ≡ Some b → BatonNoted token b NewText (text.now ∷ []) self.old.pools (batons_of self.old) self.new.pools (batons_of self.new)) }
    {
        if is_too_long(Some(text)) {
            return Err(EditFault::TooLong);
        }
        match self.batons.get_mut(token.0) {
            Some(baton) => {
                if nodes::is_wrong_base(base_md5, baton.base, copy, baton.path.as_rel_path()) {
                    return Err(EditFault::BaseChecksum);
                }
                self.given = kept(text);
                or_memory(baton.note_text(&mut self.pools, text))
            }
            // what a call in order changes is open
            None => Err(impossible(EditFault::Memory)),
        }
    }
}
