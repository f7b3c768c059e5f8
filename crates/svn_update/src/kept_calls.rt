//! The calls of a drive, kept until they are printed.
ghost use Rattle.std.specs.Prelude.{◌≡◌, [], ◌++◌, ◌∷◌, MatchResult};
ghost use Rattle.std.specs.List.{flat_map};
ghost use Rattle.svn_editor.specs.declared.fault.EditFault.TheVariants.{Memory};

use std::alloc::{AllocError, Global};
use std::marker::Model;
use std::mem;
use svn_editor::{Call, EditFault, Editor};

// How many calls are in a list.
const MAX_LIST: usize = 1024;

/// An editor that keeps the calls in order, as a recorder does, but in lists of bounded length, so that no call is copied again and again as more
/// of them come. A contract sees the list of all. It refuses a call only when out of memory, and is then as it was.
#[derive(Drop)]
pub(crate) struct KeptCalls {
    alloc: Global,
    full: Vec<Vec<Call>>,
    last: Vec<Call>,
}

impl Model for KeptCalls {
    ghost use Rattle.std.specs.Prelude.{List, ◌++◌};
    ghost use Rattle.std.specs.List.{flat_map};
    ghost use Rattle.svn_editor.specs.declared.call.Call.{Call};

    ghost Value = { List Call };

    ghost view = { λ k. flat_map (λ l. l.items) k.full.items ++ k.last.items };
}

impl KeptCalls {
    /// No calls. Takes no memory.
    pub(crate) fn new(alloc: Global) -> KeptCalls
        ensures { result ≡ [] }
    {
        KeptCalls {
            alloc,
            full: Vec::new(alloc),
            last: Vec::new(alloc),
        }
    }

    /// The lists that are full, and the one after them.
    pub(crate) fn lists(&self) -> (&[Vec<Call>], &[Call])
        ensures { self.now ≡ flat_map (λ l. l.items) result.0.now ++ result.1.now }
    {
        (self.full.as_slice(), self.last.as_slice())
    }

    // Begins a list. AllocError if an allocation fails; the calls are the same in each case.
    fn begin_list(&mut self) -> Result<(), AllocError>
        ensures { self.new ≡ self.old }
    {
        self.full.reserve(1)?;
        let next = Vec::with_capacity(self.alloc, MAX_LIST)?;
        let last = mem::replace(&mut self.last, next);
        self.full.push_reserved(last);
        Ok(())
    }
}

impl Editor for KeptCalls {
    ghost answers = { λ before call answer after.
        MatchResult answer (λ _. after ≡ before ++ call ∷ [])
        (λ fault. (fault ≡ Memory) × (after ≡ before)) };

    #[inline(always)]
    fn call(&mut self, call: Call) -> Result<(), EditFault> {
        if self.last.len() >= MAX_LIST && self.begin_list().is_err() {
            return Err(EditFault::Memory);
        }
        match self.last.push(call) {
            Ok(()) => Ok(()),
            Err(_) => Err(EditFault::Memory),
        }
    }
}
