//! The end of a link that sends.
ghost use Rattle.std.specs.Prelude.{◌≡◌, ◌<◌, ◌++◌, ◌∷◌, length, true, false, [], MatchResult};
ghost use Rattle.crossbeam_channel.specs.Claims.{view as hand_of, IsSeatAt};
ghost use Rattle.crossbeam_channel.specs.Ends.{sends_on};
ghost use Rattle.svn_link.specs.Calls.{is_over};
ghost use Rattle.svn_link.specs.Queue.{hand, sent_more};

use crate::queue::{LOOKS, Pass, Sender, Sends};
use std::marker::Model;
use std::sync::Wait;
use std::{fmt, thread};
use svn_editor::Call;

/// The end of a link that sends calls. Contracts see its link and the list of the calls that it sent.
///
/// It may go to another thread. Keep it until the [`Inbox`](crate::Inbox) is over, and then [`settle`](crate::settle)
/// both: where it is dropped before it sent a last call, a `take` waits for ever once the queue is empty.
#[derive(Drop)]
pub struct Outbox {
    pub(crate) sender: Sender,
    pub(crate) pass: Pass,
    pub(crate) count: u64,
    pub(crate) over: bool,
}

impl Model for Outbox {
    ghost use Rattle.svn_link.specs.Ends.{LinkEnd};

    ghost Value = { LinkEnd };

    ghost use Rattle.svn_link.specs.Outbox.{outbox_end, IsOutbox};

    ghost view = { outbox_end };

    ghost invariant = { IsOutbox };
}

impl Outbox {
    /// Sends a call: it is now the last of those that wait to be taken.
    ///
    /// It may wait: while the queue holds as many calls as its capacity, it tries again until the call is sent. It
    /// takes no memory and has no refusal. Once the [`Inbox`](crate::Inbox) was dropped, and after more than 2^61 calls, it
    /// waits for ever. No call may follow a last call ([`over`](Outbox::over) is the test), and `u64::MAX` calls are the
    /// most that a link counts ([`sent`](Outbox::sent) is the test).
    pub fn send<R: Wait>(&mut self, rt: &R, call: Call)
        requires open { is_over self.old.calls ≡ false }
        requires room { length self.old.calls < u64.MAX }
        ensures sent { self.new.calls ≡ self.old.calls ++ call ∷ [] }
        ensures link { self.new.link ≡ self.old.link }
    {
        let over = call.is_last();
        push(rt, &self.sender, &mut self.pass, call);
        self.count += 1;
        self.over = over;
    }

    /// Whether it has sent `CloseEdit` or `AbortEdit`. It never waits.
    pub fn over(&self) -> bool
        ensures { result ≡ is_over self.now.calls }
    {
        self.over
    }

    /// How many calls it has sent. It never waits.
    pub fn sent(&self) -> u64
        ensures { result ≡ length self.now.calls }
    {
        self.count
    }
}

/// It shows how many calls were sent, and whether the last of them was a last call.
impl fmt::Debug for Outbox {
    fn fmt<W: fmt::Write>(&self, f: &mut fmt::Formatter<W>) -> fmt::Result {
        f.debug_struct("Outbox")
            .field("sent", &self.count)
            .field("over", &self.over)
            .finish_non_exhaustive()
    }
}

// Sends a call by the one pass that may, if there is room at one of a few looks.
fn push_soon<R: Wait>(rt: &R, sender: &Sender, pass: &mut Pass, mut call: Call) -> Result<(), Call>
    requires seat { IsSeatAt (sends_on sender.now) pass.old }
    requires sends { hand_of pass.old ≡ hand true false (hand_of pass.old).sent [] }
    requires room { length (hand_of pass.old).sent < u64.MAX }
    ensures seat { IsSeatAt (sends_on sender.now) pass.new }
    ensures sent { MatchResult result (λ _. hand_of pass.new ≡ sent_more (hand_of pass.old) call) (λ back. (back ≡ call) × (hand_of pass.new ≡ hand_of pass.old)) }
{
    'look: for _ in 0..LOOKS {
        match sender.try_send_as::<Sends, R>(rt, pass, call) {
            Ok(()) => return Ok(()),
            Err(full) => call = full.into_inner(),
        }
        thread::yield_now();
    }
    Err(call)
}

// Sends a call by the one pass that may.
fn push<R: Wait>(rt: &R, sender: &Sender, pass: &mut Pass, call: Call)
    requires seat { IsSeatAt (sends_on sender.now) pass.old }
    requires sends { hand_of pass.old ≡ hand true false (hand_of pass.old).sent [] }
    requires room { length (hand_of pass.old).sent < u64.MAX }
    ensures seat { IsSeatAt (sends_on sender.now) pass.new }
    ensures sent { hand_of pass.new ≡ sent_more (hand_of pass.old) call }
{
    let Err(mut call) = push_soon(rt, sender, pass, call) else {
        return;
    };
    for _ in rt.forever() {
        match sender.send_as::<Sends, R>(rt, pass, call) {
            Ok(()) => return,
            Err(refused) => call = refused.into_inner(),
        }
        thread::yield_now();
    }
    unreachable!()
}
