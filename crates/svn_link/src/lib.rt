//! What the two threads of an update share: a bounded queue of editor calls, and the notice of an early stop.
//!
//! [`link`] makes the two ends of a queue. The driver's thread sends through the [`Outbox`], the thread of the working
//! copy takes from the [`Inbox`], and [`settle`] joins both ends again: what was taken is a prefix of what was sent, and
//! all of it once the Inbox is over, whatever the two threads did in between. [`notice`] makes the two ends of a notice.
//! The [`Teller`] reports the number of the first refused call, and the [`Watcher`] sees it, so that the driver may stop.
//! A number that it sees is the number that was reported.
//!
//! ```
//! let (mut outbox, mut inbox) = link(alloc, 2)?;
//! outbox.send(rt, Call::SetTargetRevision { rev: Rev(1) });
//! outbox.send(rt, Call::AbortEdit);
//! 'calls: while !inbox.over() {
//!     let call = inbox.take(rt);
//!     println!(rt; "{call}")?;
//! }
//! let settled = settle(outbox, inbox);
//! assert_eq!(rt; (settled.sent, settled.taken), (2, 2));
//! ```
//!
//! `send`, `take`, `refused`, `seen` and `settle_notice` may wait for the other thread, and no other call. `link` and
//! `notice` alone take memory.
//!
//! Both ends of a link are kept until the Inbox is over. Where one of them is dropped earlier, a call of the other may
//! wait for ever, as its type says.
//!
//! Promises: each call of an end adds exactly its own step to what the end has seen (`sent`, `taken`, `told`, `seen`), and what
//! ties the two ends together is promised where they are joined (`prefix`, `whole` and `last` of [`settle`], `told` and `seen` of
//! [`settle_notice`]). They hold for every schedule. That a waiting call comes back is not promised.
#![tactic(auto)]

mod early_stop;
mod ends;
mod fault;
mod inbox;
mod outbox;
mod queue;
mod settled;
mod teller;
mod watcher;
mod word;

pub use early_stop::{notice, settle_notice};
pub use ends::link;
pub use fault::LinkFault;
pub use inbox::Inbox;
pub use outbox::Outbox;
pub use settled::{Settled, settle};
pub use svn_types::MAX_CAPACITY;
pub use teller::Teller;
pub use watcher::Watcher;
