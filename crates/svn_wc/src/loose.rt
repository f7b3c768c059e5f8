//! The nodes of a copy by themselves, as long as a run changes them.
ghost use Rattle.std.specs.Prelude.{◌≡◌, true};
ghost use Rattle.svn_model.specs.Nodes.{get_in, IsWorkingCopy};
ghost use Rattle.svn_wc.specs.Unswitched.{IsUnswitched, IsLevel};

use crate::known::Known;
use crate::working_copy::WorkingCopy;
use std::alloc::Global;
use svn_nodes::Nodes;

/// The nodes of a copy, without its promise that they have the shape of one: what changes them owes that when it ties them to a copy again.
#[derive(Drop)]
pub struct LooseCopy {
    alloc: Global,
    /// A node for each path.
    pub nodes: Nodes,
}

impl WorkingCopy {
    /// The nodes by themselves, and what the copy knew of them. It takes no memory.
    pub fn loosen(self) -> (LooseCopy, Known)
        ensures nodes { result.0.nodes.entries ≡ self }
        ensures unswitched { result.1.unswitched ≡ true → IsUnswitched (get_in self) }
        ensures level { result.1.level ≡ true → IsLevel (get_in self) }
    {
        let WorkingCopy {
            alloc,
            nodes,
            known,
        } = self;
        (LooseCopy { alloc, nodes }, known)
    }
}

impl LooseCopy {
    /// A copy of these nodes, which have the shape of one, and are as is known of them. It takes no memory.
    pub fn tie(self, known: Known) -> WorkingCopy
        requires shape { IsWorkingCopy (get_in self.nodes.entries) }
        requires unswitched { known.unswitched ≡ true → IsUnswitched (get_in self.nodes.entries) }
        requires level { known.level ≡ true → IsLevel (get_in self.nodes.entries) }
        ensures { result ≡ self.nodes.entries }
    {
        let LooseCopy { alloc, nodes } = self;
        WorkingCopy {
            alloc,
            nodes,
            known,
        }
    }
}
