//! Audits of working copies: all that isn't in a copy as the repository has it, with the reason of each, and what an update of a copy prints.
//!
//! ```
//! let untrue = untrue_paths(alloc, &repo, &copy)?;
//! for node in &untrue {
//!     println!(rt; "{node}")?;
//! }
//! ```
//!
//! prints `a: r3 has x at a, which the copy lacks` and `a/z: r3 has nothing at a/z`.
//!
//! Promises: [`untrue_paths`] returns exactly the untrue paths of a copy, in path order, each with the first reason that applies (`untrue`), and
//! none exactly where the copy is true (`is_true`, `true_is_empty`). [`untrue_paths_but`] does so of a copy whose directories may lack entries, by whatever
//! says which ([`MayLack`]); where none may be lacking, that is the truth of whole copies ([`whole_copies_lack_nothing`]). [`reason_of`] is the same for one node and what is known to be in its place, by
//! whatever repository or server ([`reasons_are_of_places`]). [`update_lines`] returns exactly the lines of the calls, each by the calls before
//! it and by the copy, whose incomplete directories lose properties with no call (`lines`; `specs/Lines.antt`); where no call deletes, adds or changes
//! anything there is none (`no_change_no_line`), and each has the path of a call (`lines_have_paths_of_calls`).
#![tactic(auto)]

mod below;
mod found;
mod laws;
mod lines;
mod reason;
mod sparse;
mod untrue;

pub use below::copy_below;
pub use found::{Found, reason_of};
pub use laws::{reasons_are_of_places, whole_copies_lack_nothing};
pub use lines::{
    NodeChange, UpdateLine, lines_have_paths_of_calls, no_change_no_line, update_lines,
};
pub use reason::{Reason, Untrue};
pub use sparse::{MayLack, untrue_paths_but};
pub use untrue::untrue_paths;
