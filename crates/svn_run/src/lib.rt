//! Runs of an update: a driver and a working copy, until the copy is at the target or the run is given up.
//!
//! [`run`] does what a `Request` asks for, with the driver in a thread of its own, [`run_in_turn`] on the caller's; [`update`], [`switch_to`],
//! [`update_in_turn`] and [`switch_to_in_turn`] are the same with arguments instead of a request. A run that begins
//! returns its [`Outcome`], with a [`Cause`] if it was aborted; one that can't begin a [`RunFault`]. [`Options`] say how a run on two
//! threads is made, and a [`Gate`] hears of each call as it passes; [`NoGate`] does nothing.
//!
//! ```
//! let options = Options { capacity: 64, cancel_after: None, late_texts: false };
//! let (outcome, passed) = update(rt, alloc, &repo, &mut copy, Rev(2), options, &NoGate)?;
//! println!(rt; "{outcome:?}, {} calls taken", passed.taken)?;
//! ```
//!
//! A run requires a copy that is true of the repository; `WorkingCopy::check_true` is the test.
//!
//! Files: `in_turn` and `in_threads` have the runs. Each is a drive between the two halves of `whole`. `begin` crawls the copy and takes its nodes
//! out of it, until the run ends; a copy with only a root takes its place meanwhile. `end` makes a copy of the nodes again, with what is known of
//! them. Before that a run tests whether the target can be reached, by the revision and the path of a switch, so that this is known before memory is
//! asked for. The calls go to a `carrier`: the `Pending` of `svn_edit`, which tests no order of calls, and of files little that the copy would refuse
//! (by the laws of `law_update` there is nothing to find), the nodes, and the mode of the request. The carrier reports each call to the `listener`.
//! On one thread the driver's editor is the carrier with two counts (`counted`). On two, `two_threads` opens a scope and starts the driver
//! (`driving`), whose editor (`sender`) checks the notice, calls the `gate` and sends; the caller's side (`taking`) takes each call, calls the gate
//! and applies it. After a refusal it reports the number once, and only takes the rest. `finish` joins link and notice and makes the `outcome`.
//! `laws` calls the laws.
//!
//! To change what the runs promise, begin with `specs/UpdateTheorem.antt`.
//!
//! Promises: the contract of each is the update theorem, `TurnTheorem` and `ThreadsTheorem` of `specs/UpdateTheorem.antt`: for every repository,
//! true copy, target, cancel number, place of texts, capacity, gate and schedule. On one thread runs return; on two they may wait, and
//! nothing is claimed of when the other thread goes on.
#![tactic(auto)]

mod carrier;
mod counted;
mod driving;
mod finish;
mod gate;
mod in_threads;
mod in_turn;
mod laws;
mod listener;
mod outcome;
mod sender;
mod taking;
mod two_threads;
mod whole;

pub use gate::{Gate, NoGate};
pub use in_threads::{Options, run, switch_to, update};
pub use in_turn::{run_in_turn, switch_to_in_turn, update_in_turn};
pub use listener::{Listener, NoListener};
pub use outcome::{Cause, Outcome, RunFault};
