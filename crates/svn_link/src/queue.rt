//! The rule of the queue, what each of its steps tells the thread that makes it, and how long an end looks before it blocks.
//!
//! After every step of either thread, what was sent is what was taken and then what the queue holds ([`InOrder`]). Steps are of seven kinds:
//! making the queue, splitting its pass in two and joining the two ([`Roles`]), a send ([`Sends`]) or one that finds the queue full, a take
//! ([`Takes`]) or one that finds it empty. The joined pass learns what the queue still holds ([`Remains`]).

use crossbeam_channel::protocol::{Join, Lesson, Outcome, Protocol, Split};
use crossbeam_channel::{RuledReceiver, RuledSender};
use std::collections::LinkedList;
use svn_editor::Call;

/// What a pass may do, and what it has sent and taken. It exists in proofs alone: no value of it is made.
pub struct Hand {
    /// Whether it may send.
    pub sends: bool,
    /// Whether it may take.
    pub takes: bool,
    /// What it has sent, the first call first.
    pub sent: LinkedList<Call>,
    /// What it has taken, the first call first.
    pub taken: LinkedList<Call>,
}

/// The rule: what was sent is what was taken, and then what the queue holds. It holds when the queue is made, with one pass that may do both.
pub struct InOrder;

impl Protocol<Call, Hand> for InOrder {
    ghost use Rattle.std.specs.Prelude.{true, []};
    ghost use Rattle.svn_link.specs.Queue.{hand, IsInOrder};

    ghost holds = { IsInOrder };

    ghost first = { hand true true [] [] };
}

/// The pass that may do both is split into one that sends and one that takes, and they are joined to one again.
pub struct Roles;

impl Split<Hand> for Roles {
    ghost use Rattle.std.specs.Prelude.{true, false, []};
    ghost use Rattle.svn_link.specs.Queue.{hand};

    ghost left = { λ h. hand true false h.sent [] };

    ghost right = { λ h. hand false true [] h.taken };
}

impl Join<Hand> for Roles {
    ghost use Rattle.std.specs.Prelude.{true, false, []};
    ghost use Rattle.svn_link.specs.Queue.{hand};

    ghost both = { λ h k. hand true true h.sent k.taken };

    ghost spent = { hand false false [] [] };
}

/// A send: the call is the last of those that were sent. One that finds the queue full changes nothing and tells nothing.
pub struct Sends;

impl Outcome<Call, Hand> for Sends {
    ghost use Rattle.std.specs.Prelude.{◌≡◌};
    ghost use Rattle.svn_link.specs.Queue.{sent_more};

    ghost then = { λ h c k. k ≡ sent_more h c };
}

impl Lesson<Call, Hand> for Sends {
    ghost fact = { λ _ _. Unit {0} };
}

/// A take: the call is the last of those that were taken. One that finds the queue empty changes nothing and tells nothing.
pub struct Takes;

impl Outcome<Call, Hand> for Takes {
    ghost use Rattle.svn_link.specs.Queue.{IsTake};

    ghost then = { IsTake };
}

impl Lesson<Call, Hand> for Takes {
    ghost fact = { λ _ _. Unit {0} };
}

/// What the joined pass learns of the queue: what was taken, and then what the queue holds, is what was sent.
pub struct Remains;

impl Lesson<Call, Hand> for Remains {
    ghost use Rattle.std.specs.Prelude.{◌≡◌, ◌++◌};

    ghost fact = { λ h items. h.sent ≡ h.taken ++ items };
}

/// The end of the channel that sends by the rule.
pub type Sender = RuledSender<Call, Hand, InOrder>;

/// The end of the channel that takes by the rule.
pub type Receiver = RuledReceiver<Call, Hand, InOrder>;

/// A value without bytes by which a thread may make steps, and in which proofs keep what it did.
pub type Pass = crossbeam_channel::Pass<Call, Hand>;

/// How often an end looks again, and lets other threads run in between, before it blocks and is woken. Where both threads run, the other end's next
/// step comes within these looks, and neither of the two pays for calls of the system.
pub(crate) const LOOKS: u32 = 256;
