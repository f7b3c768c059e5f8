//! A carrier that counts its calls, and reports them to a listener.
use crate::carrier::Carrier;
use crate::listener::Listener;
use svn_editor::{Call, EditFault, Editor, OrderFault};

/// A carrier with its listener, and how many calls were made and how many accepted, `AbortEdit` left out.
#[derive(Drop)]
pub(crate) struct Counted<'r, 'l, L: Listener> {
    pub(crate) carrier: Carrier<'r>,
    pub(crate) listener: &'l mut L,
    pub(crate) made: u64,
    pub(crate) accepted: u64,
}

impl<'r, 'l, L: Listener> Editor for Counted<'r, 'l, L> {
    ghost use Rattle.std.specs.Prelude.{◌≡◌};
    ghost use Rattle.svn_run.specs.Counts.{CountsCall};

    ghost answers = { λ before call answer after.
        CountsCall before.carrier.mode.now before.carrier.pending before.carrier.copy.nodes.entries before.made before.accepted call answer after.carrier.pending after.carrier.copy.nodes.entries after.made after.accepted
        × (after.carrier.mode ≡ before.carrier.mode) };

    // Inlined, as what makes the call and what takes it: it is then passed on without a copy.
    #[inline(always)]
    fn call(&mut self, call: Call) -> Result<(), EditFault> {
        // what is open then goes with the edit
        if call.is_abort() {
            return Ok(());
        }
        if self.made == u64::MAX || self.accepted == u64::MAX {
            return Err(EditFault::Order(OrderFault::Ended));
        }
        self.made += 1;
        match self.carrier.carry(self.listener, call) {
            Ok(()) => {
                self.accepted += 1;
                Ok(())
            }
            Err(fault) => Err(fault),
        }
    }
}
