//! A link whose two ends were joined again.
ghost use Rattle.std.specs.Prelude.{◌≡◌, true};
ghost use Rattle.svn_link.specs.Calls.{is_over, BeginsWith, EndsAtLast};

use crate::inbox::Inbox;
use crate::outbox::Outbox;
use crate::queue::{Pass, Remains, Roles};
use std::fmt;
use std::marker::Model;

/// A link whose two ends were joined. Contracts see the list of the calls that were sent and of those that were taken.
///
/// Only [`settle`] makes one, and its numbers can't be changed to others, so the two lists are those of a link that was.
#[derive(Drop)]
pub struct Settled {
    /// How many calls were sent.
    pub sent: u64,
    /// How many calls were taken.
    pub taken: u64,
    pass: Pass,
}

impl Model for Settled {
    ghost use Rattle.svn_link.specs.Ends.{Passed};

    ghost Value = { Passed };

    ghost use Rattle.svn_link.specs.Settled.{passed_of, IsSettled};

    ghost view = { passed_of };

    ghost invariant = { IsSettled };
}

/// Joins the two ends of one link.
///
/// What was taken is a prefix of what was sent, and all of it where the [`Inbox`] is over. Calls that are left in the
/// queue are dropped. It neither waits nor takes memory.
pub fn settle(outbox: Outbox, inbox: Inbox) -> Settled
    requires { inbox.link ≡ outbox.link }
    ensures sent { result.sent ≡ outbox.calls }
    ensures taken { result.taken ≡ inbox.calls }
    ensures prefix { BeginsWith result.sent result.taken }
    ensures whole { is_over inbox.calls ≡ true → result.taken ≡ result.sent }
    ensures last { EndsAtLast result.sent }
{
    let Outbox {
        sender,
        mut pass,
        count: sent,
        over: _,
    } = outbox;
    let Inbox {
        receiver: _,
        pass: takes,
        count: taken,
        over: _,
    } = inbox;
    sender.absorb::<Roles>(&mut pass, takes);
    sender.learn_as::<Remains>(&mut pass);
    Settled { sent, taken, pass }
}

/// It shows how many calls were sent and taken.
impl fmt::Debug for Settled {
    fn fmt<W: fmt::Write>(&self, f: &mut fmt::Formatter<W>) -> fmt::Result {
        f.debug_struct("Settled")
            .field("sent", &self.sent)
            .field("taken", &self.taken)
            .finish_non_exhaustive()
    }
}
