//! Verdicts on working copies, by what a server says of the places of their nodes.
//!
//! Each present node of a copy is asked for at the revision and the repository path that it claims ([`places_of`], [`questions_of`]), and of each answer it
//! is kept whether the node is what is there ([`NodeHearer`]). A server doesn't say which where it says that no directory is there: a file, or nothing. These
//! places are asked again, for the kind alone ([`questions_again`], [`KindHearer`]); then all untrue paths are known ([`untrue_paths`]).
//!
//! ```
//! let places = places_of(alloc, &copy)?;
//! let questions = questions_of(alloc, &places)?;
//! let mut nodes = NodeHearer::new(alloc, &copy, &places);
//! // .. each answer, in the order of the questions: nodes.hear(&question, said)?;
//! let findings = nodes.findings()?;
//! let again = questions_again(alloc, &findings)?;
//! let mut kinds = KindHearer::new(alloc);
//! // .. each answer: kinds.hear(&question, said)?;
//! let untrue = untrue_paths(alloc, findings, kinds.reasons()?)?;
//! ```
//!
//! Texts are compared by their MD5 checksums, since a server gives no other without the text. What a server says is believed.
#![tactic(auto)]

mod fault;
mod finding;
mod kinds;
mod laws;
mod link;
mod nodes;
mod places;
mod settled;

pub use fault::LiveFault;
pub use finding::Finding;
pub use kinds::{KindHearer, questions_again};
pub use laws::{honest_answers_are_given, rounds_hold, verdicts_hold};
pub use link::{Link, LiveListener, NoLiveListener, SERVER_LIMITS};
pub use nodes::NodeHearer;
pub use places::{Place, places_of, questions_of};
pub use settled::untrue_paths;
