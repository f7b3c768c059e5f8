//! The calls of a run, kept for the lines that it prints.

use std::alloc::{AllocError, Global};
use svn_editor::Call;
use svn_run::Listener;
use svn_types::RelPath;

/// The calls that the copy accepted, in their order.
#[derive(Drop)]
pub(crate) struct KeptCalls {
    calls: Vec<Call>,
    // Whether there was memory for all of them.
    is_whole: bool,
}

impl KeptCalls {
    /// None yet.
    pub(crate) fn new(alloc: Global) -> KeptCalls {
        KeptCalls {
            calls: Vec::new(alloc),
            is_whole: true,
        }
    }

    fn keep(&mut self, call: &Call) -> Result<(), AllocError> {
        self.calls.push(call.clone()?)?;
        Ok(())
    }

    /// All of them. AllocError where an allocation failed since.
    pub(crate) fn into_calls(self) -> Result<Vec<Call>, AllocError> {
        let KeptCalls { calls, is_whole } = self;
        if is_whole { Ok(calls) } else { Err(AllocError) }
    }
}

impl Listener for KeptCalls {
    fn accepted(&mut self, call: &Call, _path: Option<&RelPath>) {
        if self.keep(call).is_err() {
            self.is_whole = false;
        }
    }
}
