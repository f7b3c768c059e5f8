//! Working copies on disk, updated and switched by `svn_run`.
//!
//! ```
//! let existing = Existing::read(alloc, &folder)?;
//! let path = &RelPath::root(alloc);
//! let what = Aim { existing: &existing, repo: &repo, uuid, path, to: None, rev: None, options: Options::default(), time, sync: true };
//! let updated = update(rt, alloc, &mut folder, &mut source, &what)?;
//! for line in &updated.lines {
//!     println!(rt; "{line}")?;
//! }
//! ```
//!
//! [`update`] takes the copy that a folder has, runs the library's own update or switch on it, with the driver in a thread of its own, and brings the folder
//! to the copy that the run left, in the way of `svn_disk`: what is in the way is refused, the new copy takes the place of the old one by one rename, and what
//! is cut off after it is completed by [`resume`](svn_disk::resume). [`would_update`] says what would be done, and changes nothing. Files of the repository are
//! there by the stand-ins of their texts, as the copy on disk has them.
//!
//! A path below is updated and switched as Subversion does it: a directory as a copy of its own, which then gets its place in the whole one again; what
//! else is there or isn't, as one node: it gets what the target has in its place, or is no longer present.
//!
//! | Files, lowest first | What they do |
//! |---|---|
//! | `fault` | why nothing is updated |
//! | `target` | what a copy is brought to, and what comes of it |
//! | `kept` | the calls of a run, kept for their lines |
//! | `runs` | a run on a copy, with its lines |
//! | `part` | the part of a copy below a path, and its place again |
//! | `alone` | a path that is brought to its target as one node |
//! | `reaching` | which of these it is |
//! | `updating` | the folder |
//!
//! Promises: every function is safe; one that runs may wait for its driver's thread, and else each returns. The copy that a whole update or switch arrives at
//! is what the run left, so the update theorem says what it is ([`reach`], by `IsReached`): closed, path by path the target, and stopped, what the accepted calls
//! make of the old one. Whatever was asked for, the new copy is true of the repository ([`reach`], by `IsTrueOf`). With `sync`, where the old copy is on the
//! disk with each of its texts, a crash at any moment of [`update`] leaves the old copy or one that is true of the repository (`crash`, by `IsThereOrTrue`), and
//! once it has returned Ok one that is true (`after`), of a whole copy the one at which the run arrived (`whole`, by `IsArrived`). Each path that it returns as
//! changed is then as it says, between the old copy and one that is true (`ends`, by `IsUpdated`). Only tested: the lines of a single node, and all that
//! Subversion does likewise (`examples/subversion/updates.sh`).
//!
//! Definitions, in the order of reading: `specs/Reaching.antt` (where a run leads), `Arriving.antt` (what is in the folder then).
#![tactic(auto)]

mod alone;
mod fault;
mod kept;
mod part;
mod reaching;
mod runs;
mod target;
mod updating;

pub use fault::UpdateFault;
pub use reaching::reach;
pub use target::{Aim, Reached, Target, Updated};
pub use updating::{update, would_update};
