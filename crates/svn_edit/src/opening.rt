//! The opens and adds of an edit.
ghost use Rattle.std.specs.Prelude.{◌≡◌, [], Option, IfOk, IfErr, OnOk, OnErr, Some, None, unwrap_or, if◌then◌else◌};
ghost use Rattle.std.specs.Option.{option_copied, option_or};
ghost use Rattle.svn_types.specs.Names.{Path};
ghost use Rattle.svn_types.specs.Paths.{parent as directory_of, path_eq};
ghost use Rattle.svn_types.specs.declared.kind.Kind.TheVariants.{File, Directory};
ghost use Rattle.svn_editor.specs.declared.mode.Mode.{Mode};
ghost use Rattle.svn_editor.specs.Steps.{Open, Add};
ghost use Rattle.svn_model.specs.Nodes.{get_in, is_present, node_path};
ghost use Rattle.svn_model.specs.declared.base_node.BaseNode.TheVariants.{NotPresent};
ghost use Rattle.svn_model.specs.Effects.{added_node, joined_path, moved_path};
ghost use Rattle.svn_model.specs.Answering.{AnswersCall};
ghost use Rattle.svn_nodes.specs.NodeTests.{open_fault_of, deep_fault, AnswersAs, IsSumOf};
ghost use Rattle.svn_edit.specs.Applying.{pool_or, pool_of_parent, batons_of, Applied, KeepsTarget, MakesBaton, MakesNode, MovesBy};
ghost use Rattle.svn_edit.specs.declared.baton.Baton.{Baton};
ghost use Rattle.svn_edit.specs.Opening.{GivesToken};
ghost use Rattle.svn_edit.specs.Leaving.{KeepsPools};

use crate::baton::Baton;
use crate::open_path;
use crate::open_path::OpenPath;
use crate::pending::Pending;
use svn_editor::{Digest, EditFault, Mode, Token};
use svn_model::BaseNode;
use svn_nodes::{Nodes, nodes, or_memory, paths};
use svn_pool::PoolId;
use svn_types::{Props, RelPath, Rev};

// What an added node is made of: its key among the nodes, the path that its baton keeps, and the node.
#[derive(Drop)]
struct NewNode {
    at: RelPath,
    opened: OpenPath,
    node: BaseNode,
}

// What a file is made of that is added to the directory above. Until its close it is not present.
fn file_below(path: &RelPath, above: RelPath) -> Result<NewNode, EditFault>
    requires { above ≡ directory_of path.now }
    ensures { MakesNode path.now None NotPresent result }
{
    Ok(NewNode {
        at: or_memory(path.clone())?,
        opened: or_memory(OpenPath::added(path, above))?,
        node: BaseNode::NotPresent,
    })
}

impl Pending {
    // The baton of the directory that a call names as parent, if it names one.
    fn baton_of(&self, parent: Option<Token>) -> Option<&Baton>
        ensures { let root = self.now.pools.root in pool_or root (option_copied result) ≡ pool_of_parent root (batons_of self.now) parent }
    {
        match parent {
            Some(parent) => self.batons.get(parent.0),
            None => None,
        }
    }

    // The pool below which that of a directory is made.
    fn pool_of(&self, parent: Option<&Baton>) -> PoolId
        ensures { result.0 ≡ pool_or self.now.pools.root (option_copied parent.entry) }
    {
        match parent {
            Some(baton) => baton.pool,
            None => self.pools.root(),
        }
    }

    // The repository path that the node of a path gets when it is opened: in a switch to a root, the one under the parent's. In an update
    // it keeps its own: nothing.
    fn moved(
        &self,
        mode: &Mode,
        copy: &Nodes,
        path: &RelPath,
        parent: Option<&Baton>,
    ) -> Result<Option<RelPath>, EditFault>
        ensures { MovesBy (moved_path mode.now (get_in copy.now.entries) path.now) result }
    {
        let Mode::SwitchTo(root) = mode else {
            return Ok(None);
        };
        if path.is_root() {
            return Ok(Some(paths::kept(root)?));
        }
        let above = or_memory(open_path::above(self.alloc, path, parent))?;
        Ok(Some(paths::joined(self.alloc, copy, &above, path)?))
    }

    // The same, once it was found that a directory may be opened. Its own faults come first, and a path that it keeps is tested too.
    fn moved_directory(
        &self,
        node: &BaseNode,
        base: Rev,
        moved: Result<Option<RelPath>, EditFault>,
    ) -> Result<Option<RelPath>, EditFault>
        ensures answers { (q : Path → Path) → MovesBy q moved → AnswersAs (option_or (open_fault_of Directory (Some node.now) base) (deep_fault (q (node_path (Some node.now))))) result }
        ensures moved { (q : Path → Path) → MovesBy q moved → IfOk result (λ m. (was : Path) → q was ≡ unwrap_or m was) }
    {
        if let Some(fault) = nodes::open_directory_fault(Some(node), base) {
            return Err(fault);
        }
        let moved = moved?;
        if moved.is_none() {
            paths::test_standing(self.alloc, Some(node))?;
        }
        Ok(moved)
    }

    // TooDeep where the repository path that the node of a path gets when it is opened has over 64 names. It isn't made.
    fn test_moved(
        &self,
        mode: &Mode,
        copy: &Nodes,
        path: &RelPath,
        parent: Token,
        node: Option<&BaseNode>,
    ) -> Result<(), EditFault>
        requires { option_copied node ≡ get_in copy.now.entries path.now }
        ensures { let w = get_in copy.now.entries in AnswersCall (deep_fault (moved_path mode.now w path.now (node_path (w path.now)))) result }
    {
        let Mode::SwitchTo(root) = mode else {
            return paths::test_standing(self.alloc, node);
        };
        if path.is_root() {
            return paths::test_path(root);
        }
        let parent = self.batons.get(parent.0);
        let above = or_memory(open_path::above(self.alloc, path, parent))?;
        paths::test_joined(self.alloc, copy, &above, path)
    }

    // Opens the baton of what was found at a path.
    fn open_at(
        &mut self,
        beneath: PoolId,
        path: &RelPath,
        token: Token,
        base: Option<Digest>,
    ) -> Result<(), EditFault>
        ensures opened { OnOk result (MakesBaton beneath.0 path.now token self.old self.new) }
        ensures base { OnOk result ((b : Baton) → batons_of self.new token ≡ Some b → b.base ≡ base) }
        ensures keeps { KeepsTarget self.old self.new }
        ensures unchanged { OnErr result (KeepsPools self.old self.new) }
        ensures fault { IfErr result (λ e. e ≡ EditFault.Memory) }
    {
        let open = or_memory(OpenPath::opened(path))?;
        self.open_baton(beneath, open, token, base)
    }

    pub(crate) fn open_root(
        &mut self,
        mode: &Mode,
        copy: &mut Nodes,
        base: Rev,
        token: Token,
    ) -> Result<(), EditFault>
        ensures gives { GivesToken mode.now self.old.pools.root [] token (Open Directory base) self.old copy.old.entries result self.new copy.new.entries }
        ensures unchanged { OnErr result (KeepsPools self.old self.new) }
    {
        let root = RelPath::root(self.alloc);
        self.open_directory(mode, copy, &root, base, None, token)
    }

    pub(crate) fn open_directory(
        &mut self,
        mode: &Mode,
        copy: &mut Nodes,
        path: &RelPath,
        base: Rev,
        parent: Option<Token>,
        token: Token,
    ) -> Result<(), EditFault>
        ensures gives { GivesToken mode.now (pool_of_parent self.old.pools.root (batons_of self.old) parent) path.now token (Open Directory base) self.old copy.old.entries result self.new copy.new.entries }
        ensures unchanged { OnErr result (KeepsPools self.old self.new) }
    {
        let parent = self.baton_of(parent);
        let beneath = self.pool_of(parent);
        let moved = self.moved(mode, copy, path, parent);
        let Some(node) = copy.get_mut(path) else {
            return Err(EditFault::NoEntry);
        };
        let moved = self.moved_directory(node, base, moved)?;
        self.open_at(beneath, path, token, None)?;
        nodes::open_directory(self.alloc, node, self.target, moved);
        Ok(())
    }

    pub(crate) fn open_file(
        &mut self,
        mode: &Mode,
        copy: &Nodes,
        path: &RelPath,
        base: Rev,
        parent: Token,
        token: Token,
    ) -> Result<(), EditFault>
        ensures gives { GivesToken mode.now self.old.pools.root path.now token (Open File base) self.old copy.now.entries result self.new copy.now.entries }
        ensures unchanged { OnErr result (KeepsPools self.old self.new) }
        ensures base { OnOk result ((b : Baton) → batons_of self.new token ≡ Some b → IsSumOf b.base copy.now.entries path.now) }
    {
        let (own, node) = nodes::standing(copy, path);
        if let Some(fault) = nodes::open_file_fault(node, base) {
            return Err(fault);
        }
        self.test_moved(mode, copy, path, parent, node)?;
        let root = self.pools.root();
        self.open_at(root, own, token, nodes::kept_sum(node))
    }

    // Opens a file that is known to be there and not to be refused: it isn't looked up, and nothing is noted of its text.
    pub(crate) fn open_known_file(&mut self, path: &RelPath, token: Token) -> Result<(), EditFault>
        ensures opened { OnOk result (MakesBaton self.old.pools.root path.now token self.old self.new) }
        ensures base { OnOk result ((b : Baton) → batons_of self.new token ≡ Some b → b.base ≡ None) }
        ensures keeps { KeepsTarget self.old self.new }
        ensures fault { IfErr result (λ e. e ≡ EditFault.Memory) }
    {
        let root = self.pools.root();
        self.open_at(root, path, token, None)
    }

    // What an added directory is made of.
    fn new_directory(
        &self,
        copy: &Nodes,
        path: &RelPath,
        parent: Option<&Baton>,
    ) -> Result<NewNode, EditFault>
        ensures { let q = joined_path (get_in copy.now.entries) path.now in MakesNode path.now (deep_fault q) (added_node Directory self.now.target q) result }
    {
        let above = or_memory(open_path::above(self.alloc, path, parent))?;
        let joined = paths::joined(self.alloc, copy, &above, path)?;
        Ok(NewNode {
            at: or_memory(path.clone())?,
            opened: or_memory(OpenPath::opened(path))?,
            node: BaseNode::Dir {
                rev: self.target,
                repos_path: joined,
                complete: false,
                props: Props::new(self.alloc),
            },
        })
    }

    // What an added file is made of.
    fn new_file(
        &self,
        copy: &Nodes,
        path: &RelPath,
        parent: Option<&Baton>,
    ) -> Result<NewNode, EditFault>
        ensures { let q = joined_path (get_in copy.now.entries) path.now in MakesNode path.now (deep_fault q) (added_node File self.now.target q) result }
    {
        let above = or_memory(open_path::above(self.alloc, path, parent))?;
        paths::test_joined(self.alloc, copy, &above, path)?;
        file_below(path, above)
    }

    // The same, where it is known not to be too deep.
    fn known_file(&self, path: &RelPath, parent: Option<&Baton>) -> Result<NewNode, EditFault>
        ensures { MakesNode path.now None NotPresent result }
    {
        let above = or_memory(open_path::above(self.alloc, path, parent))?;
        file_below(path, above)
    }

    // Puts a new node where none is present, once its baton is open. Where the node isn't put, the baton goes again.
    fn add_node(
        &mut self,
        copy: &mut Nodes,
        new: NewNode,
        beneath: PoolId,
        token: Token,
    ) -> Result<(), EditFault>
        ensures opened { OnOk result (MakesBaton beneath.0 new.opened token self.old self.new) }
        ensures base { OnOk result ((b : Baton) → batons_of self.new token ≡ Some b → b.base ≡ None) }
        ensures keeps { KeepsTarget self.old self.new }
        ensures unchanged { batons_of self.old token ≡ None → OnErr result (KeepsPools self.old self.new) }
        ensures answers { AnswersCall (if is_present (get_in copy.old.entries new.at) then Some EditFault.EntryExists else None) result }
        ensures copy { OnOk result ((p : Path) → get_in copy.new.entries p ≡ (if path_eq new.at p then Some new.node else get_in copy.old.entries p)) }
        ensures refused { OnErr result (copy.new.entries ≡ copy.old.entries) }
    {
        let NewNode { at, opened, node } = new;
        self.open_baton(beneath, opened, token, None)?;
        match nodes::add(copy, at, node) {
            Ok(()) => Ok(()),
            Err(fault) => {
                self.close_baton(token);
                Err(fault)
            }
        }
    }

    // Adds what was made for a path, if it could be made. That one is present there is reported before any other fault.
    fn add(
        &mut self,
        copy: &mut Nodes,
        path: &RelPath,
        new: Result<NewNode, EditFault>,
        beneath: PoolId,
        token: Token,
    ) -> Result<(), EditFault>
        ensures opened { IfOk new (λ n. n.opened ≡ path.now) → OnOk result (MakesBaton beneath.0 path.now token self.old self.new) }
        ensures base { OnOk result ((b : Baton) → batons_of self.new token ≡ Some b → b.base ≡ None) }
        ensures keeps { KeepsTarget self.old self.new }
        ensures unchanged { batons_of self.old token ≡ None → OnErr result (KeepsPools self.old self.new) }
        ensures applied { (fault : Option EditFault) (node : BaseNode) → MakesNode path.now fault node new → let w = get_in copy.old.entries in Applied (if is_present (w path.now) then Some EditFault.EntryExists else fault) (λ p. if path_eq path.now p then Some node else w p) copy.old.entries result copy.new.entries }
    {
        let fault = match new {
            Ok(new) => match self.add_node(copy, new, beneath, token) {
                Ok(()) => return Ok(()),
                Err(fault) => fault,
            },
            Err(fault) => fault,
        };
        Err(nodes::add_fault(copy.get(path), fault))
    }

    pub(crate) fn add_directory(
        &mut self,
        copy: &mut Nodes,
        path: &RelPath,
        parent: Token,
        token: Token,
    ) -> Result<(), EditFault>
        ensures gives { (mode : Mode) → GivesToken mode (pool_or self.old.pools.root (batons_of self.old parent)) path.now token (Add Directory) self.old copy.old.entries result self.new copy.new.entries }
        ensures unchanged { batons_of self.old token ≡ None → OnErr result (KeepsPools self.old self.new) }
    {
        let parent = self.batons.get(parent.0);
        let beneath = self.pool_of(parent);
        let new = self.new_directory(copy, path, parent);
        self.add(copy, path, new, beneath, token)
    }

    pub(crate) fn add_file(
        &mut self,
        copy: &mut Nodes,
        path: &RelPath,
        parent: Token,
        token: Token,
    ) -> Result<(), EditFault>
        ensures gives { (mode : Mode) → GivesToken mode self.old.pools.root path.now token (Add File) self.old copy.old.entries result self.new copy.new.entries }
        ensures unchanged { batons_of self.old token ≡ None → OnErr result (KeepsPools self.old self.new) }
        ensures base { OnOk result ((b : Baton) → batons_of self.new token ≡ Some b → b.base ≡ None) }
    {
        let root = self.pools.root();
        let new = self.new_file(copy, path, self.batons.get(parent.0));
        self.add(copy, path, new, root, token)
    }

    // Adds a file that is known not to be too deep.
    pub(crate) fn add_known_file(
        &mut self,
        copy: &mut Nodes,
        path: &RelPath,
        parent: Token,
        token: Token,
    ) -> Result<(), EditFault>
        ensures opened { OnOk result (MakesBaton self.old.pools.root path.now token self.old self.new) }
        ensures base { OnOk result ((b : Baton) → batons_of self.new token ≡ Some b → b.base ≡ None) }
        ensures keeps { KeepsTarget self.old self.new }
        ensures applied { let w = get_in copy.old.entries in Applied (if is_present (w path.now) then Some EditFault.EntryExists else None) (λ p. if path_eq path.now p then Some NotPresent else w p) copy.old.entries result copy.new.entries }
    {
        let root = self.pools.root();
        let new = self.known_file(path, self.batons.get(parent.0));
        self.add(copy, path, new, root, token)
    }
}
