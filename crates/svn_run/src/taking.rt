//! The caller's side of a run.
ghost use Rattle.std.specs.Prelude.{◌≡◌, ◌≤◌, [], None, length, false};
ghost use Rattle.svn_edit.specs.Carrying.{CarriedOut};
ghost use Rattle.svn_link.specs.Calls.{is_over};
ghost use Rattle.svn_model.specs.Nodes.{WorkingCopy as CopyMap};
ghost use Rattle.svn_run.specs.Takes.{IsStep, IsTaken};

use crate::carrier::Carrier;
use crate::gate::Gate;
use crate::laws::laws;
use crate::listener::Listener;
use std::sync::Wait;
use svn_link::{Inbox, Teller};

/// The caller's ends, and how many of the calls that it took were accepted.
#[derive(Drop)]
pub(crate) struct Taken {
    pub(crate) inbox: Inbox,
    pub(crate) teller: Teller,
    pub(crate) accepted: u64,
}

/// Takes all calls, up to the last one. Each takes effect until one is refused, whose number is noted before the next is taken.
pub(crate) fn take_all<R: Wait, G: Gate, L: Listener>(
    rt: &R,
    gate: &G,
    listener: &mut L,
    inbox: Inbox,
    teller: Teller,
    carrier: &mut Carrier<'_>,
) -> Taken
    requires calls { inbox.calls ≡ [] }
    requires told { teller.number ≡ None }
    ensures { (w0 : CopyMap) → CarriedOut carrier.old.mode.now w0 carrier.old.pending carrier.old.copy.nodes.entries [] → IsTaken carrier.old.mode.now w0 inbox teller result carrier.new.copy.nodes.entries }
{
    laws();
    let mut taken = Taken {
        inbox,
        teller,
        accepted: 0,
    };
    for _ in rt.forever() {
        if taken.inbox.over() {
            break;
        }
        take_one(rt, gate, listener, &mut taken, carrier);
    }
    taken
}

// Takes a call, and applies it where none was refused. Of an `AbortEdit` nothing is left to be done: what is open goes with the edit.
fn take_one<R: Wait, G: Gate, L: Listener>(
    rt: &R,
    gate: &G,
    listener: &mut L,
    taken: &mut Taken,
    carrier: &mut Carrier<'_>,
)
    requires more { is_over taken.old.inbox.calls ≡ false }
    requires counted { taken.old.accepted ≤ length taken.old.inbox.calls }
    ensures same_mode { carrier.new.mode ≡ carrier.old.mode }
    ensures step { IsStep carrier.old.mode.now taken.old carrier.old.pending carrier.old.copy.nodes.entries taken.new carrier.new.pending carrier.new.copy.nodes.entries }
{
    let call = taken.inbox.take(rt);
    gate.after_take(taken.inbox.taken());
    if call.is_abort() {
        return;
    }
    if taken.teller.told() {
        return;
    }
    match carrier.carry(listener, call) {
        Ok(()) => taken.accepted += 1,
        Err(_) => taken.teller.refused(rt, taken.accepted + 1),
    }
}
