//! The end of a link that takes.
ghost use Rattle.std.specs.Prelude.{◌≡◌, ◌++◌, ◌∷◌, length, ◌≤◌, true, false, [], MatchOption};
ghost use Rattle.crossbeam_channel.specs.Claims.{view as hand_of, IsSeatAt};
ghost use Rattle.crossbeam_channel.specs.Ends.{receives_on};
ghost use Rattle.svn_link.specs.Calls.{is_over};
ghost use Rattle.svn_link.specs.Queue.{hand, IsTake};

use crate::queue::{LOOKS, Pass, Receiver, Takes};
use std::marker::Model;
use std::sync::Wait;
use std::{fmt, thread};
use svn_editor::Call;

/// The end of a link that takes calls. Contracts see its link and the list of the calls that it took.
///
/// It may go to another thread. Take until it is [`over`](Inbox::over), and then [`settle`](crate::settle) both ends:
/// where it is dropped earlier, a `send` of the [`Outbox`](crate::Outbox) waits for ever.
#[derive(Drop)]
pub struct Inbox {
    pub(crate) receiver: Receiver,
    pub(crate) pass: Pass,
    pub(crate) count: u64,
    pub(crate) over: bool,
}

impl Model for Inbox {
    ghost use Rattle.svn_link.specs.Ends.{LinkEnd};

    ghost Value = { LinkEnd };

    ghost use Rattle.svn_link.specs.Inbox.{inbox_end, IsInbox};

    ghost view = { inbox_end };

    ghost invariant = { IsInbox };
}

impl Inbox {
    /// Takes the call that has waited longest.
    ///
    /// It may wait: while the queue is empty, it tries again until there is a call. It takes no memory and has no
    /// refusal. Where the [`Outbox`](crate::Outbox) was dropped and the queue is empty, it waits for ever. After a last
    /// call there is no other ([`over`](Inbox::over) is the test). No more than `u64::MAX` calls come in all.
    pub fn take<R: Wait>(&mut self, rt: &R) -> Call
        requires { is_over self.old.calls ≡ false }
        ensures taken { self.new.calls ≡ self.old.calls ++ result ∷ [] }
        ensures counted { length self.new.calls ≤ u64.MAX }
        ensures link { self.new.link ≡ self.old.link }
    {
        let call = pop(rt, &self.receiver, &mut self.pass);
        let over = call.is_last();
        self.count += 1;
        self.over = over;
        call
    }

    /// Whether it has taken `CloseEdit` or `AbortEdit`. It never waits.
    pub fn over(&self) -> bool
        ensures { result ≡ is_over self.now.calls }
    {
        self.over
    }

    /// How many calls it has taken. It never waits.
    pub fn taken(&self) -> u64
        ensures { result ≡ length self.now.calls }
    {
        self.count
    }
}

/// It shows how many calls were taken, and whether the last of them was a last call.
impl fmt::Debug for Inbox {
    fn fmt<W: fmt::Write>(&self, f: &mut fmt::Formatter<W>) -> fmt::Result {
        f.debug_struct("Inbox")
            .field("taken", &self.count)
            .field("over", &self.over)
            .finish_non_exhaustive()
    }
}

// Takes a call by the one pass that may, if there is one at one of a few looks.
fn pop_soon<R: Wait>(rt: &R, receiver: &Receiver, pass: &mut Pass) -> Option<Call>
    requires seat { IsSeatAt (receives_on receiver.now) pass.old }
    requires takes { hand_of pass.old ≡ hand false true [] (hand_of pass.old).taken }
    ensures seat { IsSeatAt (receives_on receiver.now) pass.new }
    ensures taken { MatchOption result (hand_of pass.new ≡ hand_of pass.old) (λ call. IsTake (hand_of pass.old) call (hand_of pass.new)) }
{
    'look: for _ in 0..LOOKS {
        if let Ok(call) = receiver.try_recv_as::<Takes, R>(rt, pass) {
            return Some(call);
        }
        thread::yield_now();
    }
    None
}

// Takes a call by the one pass that may.
fn pop<R: Wait>(rt: &R, receiver: &Receiver, pass: &mut Pass) -> Call
    requires seat { IsSeatAt (receives_on receiver.now) pass.old }
    requires takes { hand_of pass.old ≡ hand false true [] (hand_of pass.old).taken }
    ensures seat { IsSeatAt (receives_on receiver.now) pass.new }
    ensures taken { IsTake (hand_of pass.old) result (hand_of pass.new) }
{
    if let Some(call) = pop_soon(rt, receiver, pass) {
        return call;
    }
    for _ in rt.forever() {
        if let Ok(call) = receiver.recv_as::<Takes, R>(rt, pass) {
            return call;
        }
        thread::yield_now();
    }
    unreachable!()
}
