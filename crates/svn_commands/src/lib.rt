//! The commands of Subversion's protocol (ra_svn) that are answered at once, by their names: of which no report follows.
//!
//! [`reply`] answers a command of a client by its name and its fields, of what is served to it ([`View`](svn_replies::View)).
//!
//! ```
//! let view = View { alloc, served: &served, session: &session };
//! match reply(view, b"get-latest-rev", &fields, &mut out)? { .. }
//! ```
//!
//! Those about one node or one revision are answered by `svn_replies`; those about many revisions are here: `get-locations`, `get-location-segments` and
//! `log`. Where a node was is traced back from copy to copy, as the dump has them: in [`Served`](svn_replies::Served) are its copies, and what each revision
//! changed.
//!
//! Files: `commands` has the commands by their names, `fields` and `log_fields` take their fields apart. `history` is where nodes were, `locations` what is
//! answered of that; `log` is which revisions changed paths, `log_items` what is written of each. `ends` ends a list of items.
//!
//! To add a command: a variant of `Command` and its name, an arm of `answer`, its fields, and a definition of its answer, with a line of `IsAnswer`.
//!
//! Promises: [`reply`] answers each command by its name as `Replies` of `specs/Replies.antt` says, or returns why not, in the order in which fields are read.
//! The answers to `get-locations` and `get-location-segments` are those of `specs/Locations.antt`, by where the nodes were (`AreSegments` of
//! `specs/Segments.antt`). The answer to `log` has an item for each revision of those from the first to the second, in this order, that changed one of the
//! paths, where its node was then (`logged` of `specs/Log.antt`), and no more than are asked for; what is written of each is in `specs/LogItems.antt`.
//!
//! Nothing is stated of the words of failures.
#![tactic(auto)]

mod commands;
mod ends;
mod fields;
mod history;
mod locations;
mod log;
mod log_fields;
mod log_items;

pub use commands::{Command, Replied, reply};
