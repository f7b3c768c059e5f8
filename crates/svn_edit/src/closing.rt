//! The closes of an edit.
ghost use Rattle.std.specs.Prelude.{◌≡◌, [], ℕ, List, IfOk, IfErr, OnOk, OnErr, Ok, Some, None, filter_map, unwrap_or, true, if◌then◌else◌};
ghost use Rattle.md5.specs.Md5.{md5};
ghost use Rattle.svn_types.specs.Names.{Path};
ghost use Rattle.svn_types.specs.Paths.{path_eq};
ghost use Rattle.svn_editor.specs.declared.mode.Mode.TheVariants.{Update, SwitchTo};
ghost use Rattle.svn_editor.specs.Steps.{Action};
ghost use Rattle.svn_model.specs.Nodes.{WorkingCopy, get_in, is_present};
ghost use Rattle.svn_model.specs.declared.base_node.BaseNode.TheVariants.{File as FileNode};
ghost use Rattle.svn_model.specs.Effects.{change_in, text_in, closed_directory, closed_file, moved_path, joined_path, settled, settle_fault};
ghost use Rattle.svn_model.specs.Answering.{AnswersCall};
ghost use Rattle.svn_edit.specs.declared.baton.Baton.{Baton};
ghost use Rattle.svn_nodes.specs.NodeTests.{first_of, sum_fault, AnswersAs};
ghost use Rattle.svn_edit.specs.Applying.{Applied, KeepsTarget, LetsGo, Says, batons_of};
ghost use Rattle.svn_edit.specs.Closing.{ClosesFile};

use crate::baton::{Baton, drop_pool};
use crate::pending::Pending;
use std::alloc::AllocError;
use svn_editor::{Digest, EditFault, Mode, Token};
use svn_model::BaseNode;
use svn_nodes::{Nodes, ending, nodes, or_memory, paths};
use svn_types::{Props, RelPath, Text, impossible};

// Puts a value into a place, if there is one: else the place keeps its own.
fn set_if_some<T: Drop>(place: &mut T, new: Option<T>)
    ensures { place.new ≡ unwrap_or new place.old }
{
    if let Some(new) = new {
        *place = new;
    }
}

// The repository path of an added file, as one that it gets in place of its own.
fn moved_to(joined: Result<RelPath, AllocError>) -> Result<Option<RelPath>, AllocError>
    ensures { (path : Path) → IfOk joined (λ j. j ≡ path) → IfOk result (λ m. (was : Path) → path ≡ unwrap_or m was) }
{
    Ok(Some(joined?))
}

impl Pending {
    // Drops what an edit keeps of a token.
    pub(crate) fn close_baton(&mut self, token: Token)
        ensures gone { LetsGo token self.old self.new }
        ensures others { (u : ℕ) (b : Baton) → batons_of self.new u ≡ Some b → batons_of self.old u ≡ Some b }
        ensures keeps { KeepsTarget self.old self.new }
    {
        if let Some(baton) = self.batons.remove(token.0) {
            drop_pool(&mut self.pools, baton.pool);
        }
    }

    // Closes a directory where it is. On a refusal it is as it was.
    fn complete(&self, node: &mut BaseNode, baton: &Baton) -> Result<(), EditFault>
        ensures closed { OnOk result ((said : List Action) → Says baton.now self.now.pools said → Some node.new ≡ closed_directory (filter_map change_in said) (Some node.old)) }
        ensures refused { IfErr result (λ e. (e ≡ EditFault.Memory) × (node.new ≡ node.old)) }
    {
        let BaseNode::Dir {
            complete,
            props,
            ..
        } = node
        else {
            return Ok(());
        };
        let changed = or_memory(baton.changed(self.alloc, &self.pools, props))?;
        *complete = true;
        set_if_some(props, changed);
        Ok(())
    }

    pub(crate) fn close_directory(
        &mut self,
        copy: &mut Nodes,
        token: Token,
    ) -> Result<(), EditFault>
        ensures gone { OnOk result (LetsGo token self.old self.new) }
        ensures others { OnOk result ((u : ℕ) (b : Baton) → batons_of self.new u ≡ Some b → batons_of self.old u ≡ Some b) }
        ensures keeps { KeepsTarget self.old self.new }
        ensures closed { OnOk result ((b : Baton) (said : List Action) → batons_of self.old token ≡ Some b → Says b self.old.pools said → (p : Path) → get_in copy.new.entries p ≡ (if path_eq b.path p then closed_directory (filter_map change_in said) (get_in copy.old.entries b.path) else get_in copy.old.entries p)) }
        ensures refused { IfErr result (λ e. (e ≡ EditFault.Memory) × (copy.new.entries ≡ copy.old.entries)) }
        ensures unchanged { OnErr result (self.new ≡ self.old) }
    {
        let Some(baton) = self.batons.get(token.0) else {
            // what a call in order closes is open
            return Err(impossible(EditFault::Memory));
        };
        if let Some(node) = copy.get_mut(baton.path.as_rel_path()) {
            self.complete(node, baton)?;
        }
        self.close_baton(token);
        Ok(())
    }

    // The new text of a file, if there is one, once the text that it has at its close was tested.
    fn new_text(
        &self,
        node: &BaseNode,
        baton: &Baton,
        text_md5: &Option<Digest>,
    ) -> Result<Option<Text>, EditFault>
        ensures checked { (said : List Action) → Says baton.now self.now.pools said → AnswersAs (sum_fault md5 text_md5.now (filter_map text_in said) (Some node.now)) result }
        ensures text { IfOk result (λ t. (said : List Action) → Says baton.now self.now.pools said → t ≡ first_of (filter_map text_in said)) }
    {
        match baton.text(&self.pools) {
            Some(bytes) => {
                let text = nodes::tested_text(self.alloc, bytes, self.given.as_ref(), text_md5)?;
                Ok(Some(text))
            }
            None if nodes::is_wrong_sum(text_md5, Some(node)) => Err(EditFault::TextChecksum),
            None => Ok(None),
        }
    }

    // Closes what is a file or a directory, with the repository path that it gets, if it gets one. On a refusal it is as it was.
    fn close_opened(
        &self,
        node: &mut BaseNode,
        baton: &Baton,
        text_md5: &Option<Digest>,
        moved: Result<Option<RelPath>, AllocError>,
    ) -> Result<(), EditFault>
        requires { is_present (Some node.old) ≡ true }
        ensures answers { (said : List Action) → Says baton.now self.now.pools said → AnswersCall (sum_fault md5 text_md5.now (filter_map text_in said) (Some node.old)) result }
        ensures closed { OnOk result ((said : List Action) (path : Path → Path) (joined : Path) → Says baton.now self.now.pools said → IfOk moved (λ m. (was : Path) → path was ≡ unwrap_or m was) → Some node.new ≡ closed_file self.now.target path joined (filter_map change_in said) (filter_map text_in said) (Some node.old)) }
        ensures refused { OnErr result (node.new ≡ node.old) }
    {
        let new_text = self.new_text(node, baton, text_md5)?;
        let moved = or_memory(moved)?;
        let BaseNode::File {
            rev,
            repos_path,
            text,
            props,
        } = node
        else {
            return Ok(());
        };
        let changed = or_memory(baton.changed(self.alloc, &self.pools, props))?;
        *rev = self.target;
        set_if_some(repos_path, moved);
        set_if_some(text, new_text);
        set_if_some(props, changed);
        Ok(())
    }

    // An added file before any change of it is applied.
    fn empty_file(&self) -> BaseNode
        ensures { result ≡ FileNode self.now.target [] [] [] }
    {
        BaseNode::File {
            rev: self.target,
            repos_path: RelPath::root(self.alloc),
            text: Text::new(Vec::new(self.alloc)),
            props: Props::new(self.alloc),
        }
    }

    // Closes what is at the path of a baton, with the repository path that it gets if it is an added file: that one is not present.
    // What is a file is closed like an opened one.
    fn close_new(
        &self,
        mode: &Mode,
        node: &mut BaseNode,
        baton: &Baton,
        text_md5: &Option<Digest>,
        joined: Result<RelPath, AllocError>,
    ) -> Result<(), EditFault>
        ensures answers { (said : List Action) → Says baton.now self.now.pools said → AnswersCall (sum_fault md5 text_md5.now (filter_map text_in said) (Some node.old)) result }
        ensures closed { OnOk result ((said : List Action) (w : WorkingCopy) (p : Path) → Says baton.now self.now.pools said → p ≡ baton.now.path → IfOk joined (λ j. j ≡ joined_path w p) → Some node.new ≡ closed_file self.now.target (moved_path mode.now w p) (joined_path w p) (filter_map change_in said) (filter_map text_in said) (Some node.old)) }
        ensures refused { OnErr result (node.new ≡ node.old) }
    {
        if matches!(node, BaseNode::NotPresent) {
            let mut file = self.empty_file();
            self.close_opened(&mut file, baton, text_md5, moved_to(joined))?;
            *node = file;
            return Ok(());
        }
        let moved = paths::moved_by(mode, baton.path.as_rel_path(), joined);
        self.close_opened(node, baton, text_md5, moved)
    }

    // Closes a file where nothing is: its text is tested, and nothing changes.
    fn close_nothing(&self, baton: &Baton, text_md5: &Option<Digest>) -> Result<(), EditFault>
        ensures { (said : List Action) → Says baton.now self.now.pools said → AnswersCall (sum_fault md5 text_md5.now (filter_map text_in said) None) result }
    {
        self.new_text(&BaseNode::NotPresent, baton, text_md5)?;
        Ok(())
    }

    // Closes the file of a baton, with the repository path that it gets if it is an added one. That is made before, and its refusal reported
    // after that of the text.
    fn close_joined(
        &self,
        mode: &Mode,
        copy: &mut Nodes,
        baton: &Baton,
        text_md5: &Option<Digest>,
        joined: Result<RelPath, AllocError>,
    ) -> Result<(), EditFault>
        requires { IfOk joined (λ j. j ≡ joined_path (get_in copy.old.entries) baton.now.path) }
        ensures { ClosesFile mode.now self.now baton.now text_md5.now copy.old.entries result copy.new.entries }
    {
        match copy.get_mut(baton.path.as_rel_path()) {
            Some(node) => self.close_new(mode, node, baton, text_md5, joined),
            None => self.close_nothing(baton, text_md5),
        }
    }

    // Closes the file of a baton. By the calls in order it is looked up once. Where an opened one is not present, which can't come,
    // it is closed like an added one.
    fn close_file_of(
        &self,
        mode: &Mode,
        copy: &mut Nodes,
        baton: &Baton,
        text_md5: &Option<Digest>,
    ) -> Result<(), EditFault>
        ensures { ClosesFile mode.now self.now baton.now text_md5.now copy.old.entries result copy.new.entries }
    {
        let path = baton.path.as_rel_path();
        if let Some(above) = baton.path.above() {
            let joined = paths::joined_again(self.alloc, copy, above, path);
            return self.close_joined(mode, copy, baton, text_md5, joined);
        }
        let moved = paths::moved_again(self.alloc, mode, copy, path);
        let Some(node) = copy.get_mut(path) else {
            return self.close_nothing(baton, text_md5);
        };
        if nodes::is_present(Some(node)) {
            return self.close_opened(node, baton, text_md5, moved);
        }
        let joined = paths::joined_at(self.alloc, copy, path);
        self.close_joined(mode, copy, baton, text_md5, joined)
    }

    pub(crate) fn close_file(
        &mut self,
        mode: &Mode,
        copy: &mut Nodes,
        token: Token,
        text_md5: &Option<Digest>,
    ) -> Result<(), EditFault>
        ensures gone { OnOk result (LetsGo token self.old self.new) }
        ensures others { OnOk result ((u : ℕ) (b : Baton) → batons_of self.new u ≡ Some b → batons_of self.old u ≡ Some b) }
        ensures keeps { KeepsTarget self.old self.new }
        ensures closes { (b : Baton) → batons_of self.old token ≡ Some b → ClosesFile mode.now self.old b text_md5.now copy.old.entries result copy.new.entries }
        ensures refused { OnErr result (copy.new.entries ≡ copy.old.entries) }
        ensures unchanged { OnErr result (self.new ≡ self.old) }
    {
        let Some(baton) = self.batons.get(token.0) else {
            // what a call in order closes is open
            return Err(impossible(EditFault::Memory));
        };
        self.close_file_of(mode, copy, baton, text_md5)?;
        self.given = None;
        self.close_baton(token);
        Ok(())
    }

    // In an update it takes no memory.
    pub(crate) fn close_edit(&self, mode: &Mode, copy: &mut Nodes) -> Result<(), EditFault>
        ensures taken { mode.now ≡ Update → result ≡ Ok tt }
        ensures applied { Applied (settle_fault mode.now copy.old.entries) (λ p. settled mode.now self.now.target p (get_in copy.old.entries p)) copy.old.entries result copy.new.entries }
    {
        match mode {
            Mode::Update => {
                ending::settle_all(copy, self.target);
                Ok(())
            }
            Mode::SwitchTo(root) => self.close_switch(copy, root),
        }
    }

    // All allocations come before any change.
    fn close_switch(&self, copy: &mut Nodes, root: &RelPath) -> Result<(), EditFault>
        ensures { let mode = SwitchTo root.now in Applied (settle_fault mode copy.old.entries) (λ p. settled mode self.now.target p (get_in copy.old.entries p)) copy.old.entries result copy.new.entries }
    {
        if ending::is_settled_deep(copy, root) {
            return Err(EditFault::TooDeep);
        }
        let moved = or_memory(ending::moved_paths(self.alloc, copy, root))?;
        ending::settle_moved(copy, self.target, moved);
        Ok(())
    }
}
