//! The driver's end of the link, as an editor.
ghost use Rattle.std.specs.Prelude.{◌≡◌, false, Some, IfSome};
ghost use Rattle.svn_editor.specs.Calls.{is_abort};
ghost use Rattle.svn_run.specs.Senders.{can_send, IsEnded};

use crate::gate::Gate;
use std::marker::Model;
use std::sync::Wait;
use svn_editor::{Call, EditFault, Editor, OrderFault};
use svn_link::{Outbox, Watcher};

/// An editor that sends each call to the other thread. Once it saw that a call was refused there, it refuses each call but `AbortEdit`.
pub(crate) struct Sender<'a, R: Wait, G: Gate> {
    rt: &'a R,
    gate: &'a G,
    outbox: Outbox,
    watcher: Watcher,
}

impl<'a, R: Wait, G: Gate> Model for Sender<'a, R, G> {
    ghost use Rattle.svn_run.specs.Senders.{SenderEnds};

    ghost Value = { SenderEnds };

    ghost view = { λ l. record { out = l.outbox; watch = l.watcher } };
}

impl<'a, R: Wait, G: Gate> Sender<'a, R, G> {
    pub(crate) fn new(rt: &'a R, gate: &'a G, outbox: Outbox, watcher: Watcher) -> Sender<'a, R, G>
        ensures { (result.out ≡ outbox) × (result.watch ≡ watcher) }
    {
        Sender {
            rt,
            gate,
            outbox,
            watcher,
        }
    }

    /// Sends `AbortEdit` where no last call was sent.
    pub(crate) fn end(&mut self)
        ensures { IsEnded self.old self.new }
    {
        if !self.outbox.over() {
            let _answer = self.call(Call::AbortEdit);
        }
    }

    /// The two ends.
    pub(crate) fn into_ends(self) -> (Outbox, Watcher)
        ensures { (result.0 ≡ self.entry.out) × (result.1 ≡ self.entry.watch) }
    {
        let Sender {
            rt: _,
            gate: _,
            outbox,
            watcher,
        } = self;
        (outbox, watcher)
    }
}

impl<'a, R: Wait, G: Gate> Editor for Sender<'a, R, G> {
    ghost use Rattle.svn_run.specs.Senders.{Answered};

    ghost answers = { Answered };

    #[inline(always)]
    fn call(&mut self, call: Call) -> Result<(), EditFault> {
        if let Some(n) = refused_call(self.rt, &mut self.watcher, &call) {
            return Err(EditFault::Late(n));
        }
        if !can_send(&self.outbox) {
            return Err(EditFault::Order(OrderFault::Ended));
        }
        self.gate.before_send(self.outbox.sent() + 1);
        self.outbox.send(self.rt, call);
        Ok(())
    }
}

// The number of the refused call that this one comes after, as far as was reported. An `AbortEdit` may come after it.
fn refused_call<R: Wait>(rt: &R, watcher: &mut Watcher, call: &Call) -> Option<u64>
    ensures seen { IfSome result (λ n. watcher.new.number ≡ Some n) }
    ensures again { IfSome watcher.old.number (λ n. watcher.new.number ≡ Some n) }
    ensures looked { is_abort call.now ≡ false → result ≡ watcher.new.number }
    ensures notice { watcher.new.notice ≡ watcher.old.notice }
{
    if call.is_abort() {
        None
    } else {
        watcher.seen(rt)
    }
}

// Whether one more call can be sent.
fn can_send(outbox: &Outbox) -> bool
    ensures { result ≡ can_send outbox.now }
{
    !outbox.over() && outbox.sent() < u64::MAX
}
