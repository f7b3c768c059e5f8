//! A node of a copy is forgotten.
ghost use Rattle.std.specs.Prelude.{◌≡◌, OnOk, OnErr, IfErr, Some, None, if◌then◌else◌};
ghost use Rattle.std.specs.Option.{option_map};
ghost use Rattle.svn_types.specs.Names.{Path};
ghost use Rattle.svn_types.specs.Paths.{path_eq};
ghost use Rattle.svn_repo.specs.History.{History};
ghost use Rattle.svn_model.specs.Nodes.{get_in, IsTrueOf};
ghost use Rattle.svn_model.specs.Builders.{forgotten};
ghost use Rattle.svn_model.specs.Refusals.{forget_fault};

use crate::working_copy::WorkingCopy;
use law_copy::forgetting_keeps_a_copy;
use svn_model::{BaseNode, WcFault};
use svn_nodes::Nodes;
use svn_nodes::nodes::is_present;
use svn_nodes::removal::remove_below;
use svn_types::RelPath;

// What is at a path is no longer present.
fn make_absent(nodes: &mut Nodes, at: &RelPath)
    ensures { (p : Path) → get_in nodes.new.entries p ≡ (if path_eq at.now p then option_map (λ node. BaseNode.NotPresent) (get_in nodes.old.entries at.now) else get_in nodes.old.entries p) }
{
    if let Some(node) = nodes.get_mut(at) {
        *node = BaseNode::NotPresent;
    }
}

impl WorkingCopy {
    /// Puts "not present" in the place of a present node, and removes what is below it. IsRoot for the root, Missing where no node is
    /// present; then the copy stays as it was. It takes no memory, and costs what goes.
    pub fn forget(&mut self, path: &RelPath) -> Result<(), WcFault>
        ensures nodes { OnOk result ((p : Path) → get_in self.new p ≡ forgotten (get_in self.old) path.now p) }
        ensures made { OnOk result (forget_fault (get_in self.old) path.now ≡ None) }
        ensures fault { IfErr result (λ e. forget_fault (get_in self.old) path.now ≡ Some e) }
        ensures unchanged { OnErr result (self.new ≡ self.old) }
        ensures truth { OnOk result ((h : History) → IsTrueOf h (get_in self.old) → IsTrueOf h (get_in self.new)) }
    {
        forgetting_keeps_a_copy();
        if path.is_root() {
            return Err(WcFault::IsRoot);
        }
        if !is_present(self.nodes.get(path)) {
            return Err(WcFault::Missing);
        }
        self.known.level = false;
        make_absent(&mut self.nodes, path);
        remove_below(&mut self.nodes, path);
        Ok(())
    }
}
