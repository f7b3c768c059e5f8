//! Working copies (the base tree of `svn_wc.h`): what is at each path, whether it is true of a repository, what it reports, and what an
//! edit does to it.
//!
//! [`WorkingCopy`] is a map from paths to [`BaseNode`]s. `checkout`, `checkout_at` and `from_nodes` make one; `place`, `switch` and `forget` change
//! it without a drive, or refuse by a [`WcFault`]; `check_true` is the test of truth, `crawl` its report, and `Display` prints its nodes.
//! `crawl_and_learn` reports the same, and may make later crawls faster: use it if the copy may be changed.
//! [`Applier`] is the editor that applies a driver's calls. A caller who can prove of a whole run that it leaves a copy takes the nodes out for it
//! (`loosen`), and makes a copy of them again at its end ([`LooseCopy`], [`Known`]).
//!
//! ```
//! let mut copy = WorkingCopy::checkout(alloc, &repo, Rev(1))?;
//! let report = copy.crawl_and_learn(alloc)?;
//! let options = DriveOptions { cancel_after: None, late_texts: false };
//! {
//!     let mut applier = Applier::new(alloc, &mut copy)?;
//!     drive(alloc, &repo, &report, Rev(2), options, &mut applier)?;
//! }
//! assert!(rt; copy.check_true(&repo).is_ok());
//! ```
//!
//! Files: `building` makes copies of trees of the repository and puts such trees at a path; `listed` sorts a list of nodes and finds what is wrong
//! with it; `forget` removes nodes; `truth` compares the nodes with the entries of the repository in one pass; `crawl` goes over the nodes once, with
//! the directories above; `above` is such a directory, marked if its two paths are the same; `paths` compares paths; `lines` prints; `applier` joins a
//! copy with an `Edit`; `loose` takes the nodes out of a copy during a run.
//!
//! `known` has two facts that a copy keeps of itself, defined in `specs/Unswitched.antt`. That no path is switched: known after a checkout, kept by
//! placed trees and updates, and otherwise learned from the copy's own report; then a crawl compares no paths. That all nodes are present, complete
//! and of one revision: known after a checkout, kept by an edit that closes, and learned from a report of a complete root alone; with both facts
//! a crawl looks at the root only. A refused call keeps both.
//!
//! To change how a copy is made or changed, begin with `svn_model/specs/Builders.antt` and the laws of copies in `law_copy`.
//!
//! Promises: builders and changes give exactly the copy of the definition, refuse by the first fault of its order, leave a refused copy as it
//! was, and keep a true copy true (`nodes`, `made`, `fault`, `unchanged`, `truth` of each). Every copy has the shape of one at any
//! moment (`law`). `check_true` finds the first untrue path, and none exactly if the copy is true (`first`, `is_true`, `true_is_ok`).
//! `crawl` is the report of the definition (`report`), and what is printed is `copy_text` of `specs/Lines.antt`. The applier returns and changes
//! what the definitions of an edit say, after every list of calls that it accepted (`TakesCall` of `specs/Taking.antt`, the `answers` of its
//! `Editor`). `LooseCopy::tie` requires that the nodes have the shape of a copy and that what is known of them holds (`shape`, `unswitched`, `level`).
#![tactic(auto)]

mod above;
mod applier;
mod building;
mod crawl;
mod forget;
mod known;
mod lines;
mod listed;
mod loose;
mod paths;
mod truth;
mod working_copy;

pub use applier::Applier;
pub use known::Known;
pub use loose::LooseCopy;
pub use svn_model::{BaseNode, WcFault};
pub use working_copy::WorkingCopy;
