//! Edits of a working copy's nodes: each editor call takes effect, or is refused and changes nothing (`svn_delta.h`, the receiver).
//!
//! [`Edit`] takes the calls of one edit and changes the nodes of a copy (`Nodes` of `svn_nodes`). With each call it is given these, and the mode:
//! an update, or a switch of the whole copy. The `Applier` of `svn_wc` holds an edit beside its copy and its mode, and is an `Editor`. [`Pending`] is
//! the part of an edit below the check of the order of calls. Where calls are known to be in order and none to be refused, it may be used alone:
//! `carry` does what such a call says, and tests little.
//!
//! ```
//! let mut edit = Edit::new(alloc)?;
//! edit.call(&Mode::Update, &mut nodes, &Call::SetTargetRevision { rev: Rev(2) })?;
//! edit.call(&Mode::Update, &mut nodes, &Call::OpenRoot { base: Rev(1), token: Token(0) })?;
//! assert_eq!(rt; edit.live_pools(), 2);
//! ```
//!
//! Files: `edit` has the stages (going, refused, ended) and the check of the order; `pending` dispatches a call that is in order (`apply`), or one that is
//! known not to be refused either (`carry`), and has deletes and notes; `opening` has opens and adds, `closing` the closes of directories, files and
//! the edit; `open_path` is the path of an open node; `baton` is what an edit keeps of one: its path, and a pool with property changes and text.
//!
//! An open node changes only at its close, except that an opened directory becomes incomplete and an added file is not present until then. Each
//! call makes its allocations before it changes a node. A call costs the look-up of its path; a delete what goes; the last call a pass over all
//! nodes, and in a switch one more before it, which tests depths and makes the paths.
//!
//! To change what a call does: its definition in `svn_model/specs/Effects.antt`, then its function here (see `apply`), then what that calls in
//! `svn_nodes`.
//!
//! Promises, all of `Edit::call`, for every list of calls that the edit has taken (`StandsAfter` of `specs/Applying.antt`), in an update and a
//! switch: the result of the next call is the one that the rules of the edit demand, or Memory (`answers`); accepted, the nodes are what the
//! definition's effect makes of them (`accepted`); refused, they are as they were (`refused`), and only `AbortEdit` is left (`dead`, `was_refused`);
//! after the end each call is Ended (`ended`). `CloseEdit` of an update and `AbortEdit` take no memory (`last`, `abort`). Those of `Pending::carry`, in
//! `Carries` of `specs/Carrying.antt`: a known call has its effect (`carried`), or the fault is Memory (`memory`); after a fault, of any call, the
//! nodes are as they were (`refused`).
#![tactic(auto)]

mod baton;
mod closing;
mod edit;
mod open_path;
mod opening;
mod pending;

pub use edit::Edit;
pub use pending::Pending;
