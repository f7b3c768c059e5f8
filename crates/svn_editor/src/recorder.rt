//! An editor that keeps the calls it is given.
ghost use Rattle.std.specs.Prelude.{◌≡◌, [], ◌++◌, ◌∷◌, MatchResult};
ghost use Rattle.svn_editor.specs.declared.fault.EditFault.TheVariants.{Memory};

use crate::call::Call;
use crate::editor::Editor;
use crate::fault::EditFault;
use std::alloc::Global;
use std::marker::Model;

/// An editor that keeps the calls in order. A contract sees it as their list. It refuses a call only when out of memory, and is then
/// as it was.
#[derive(Debug, Drop)]
pub struct Recorder {
    calls: Vec<Call>,
}

impl Model for Recorder {
    ghost use Rattle.std.specs.Prelude.{List};
    ghost use Rattle.svn_editor.specs.declared.call.Call.{Call};

    ghost Value = { List Call };

    ghost view = { λ r. r.calls.items };
}

impl Recorder {
    /// A recorder of no calls. Takes no memory.
    pub fn new(alloc: Global) -> Recorder
        ensures { result ≡ [] }
    {
        Recorder {
            calls: Vec::new(alloc),
        }
    }

    /// The calls that it accepted, the first one first. It takes no memory.
    pub fn calls(&self) -> &[Call]
        ensures { result.now ≡ self.now }
    {
        self.calls.as_slice()
    }

    /// The same, given up by the recorder. It takes no memory.
    pub fn into_calls(self) -> Vec<Call>
        ensures { result.items ≡ self }
    {
        let Recorder { calls } = self;
        calls
    }
}

impl Editor for Recorder {
    ghost answers = { λ before call answer after.
        MatchResult answer (λ _. after ≡ before ++ call ∷ [])
        (λ fault. (fault ≡ Memory) × (after ≡ before)) };

    #[inline(always)]
    fn call(&mut self, call: Call) -> Result<(), EditFault> {
        match self.calls.push(call) {
            Ok(()) => Ok(()),
            Err(_) => Err(EditFault::Memory),
        }
    }
}
