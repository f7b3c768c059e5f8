//! Real histories: the revisions of a dump, loaded into a repository, and commits written as the revisions of one.
//!
//! A [`Loader`] reads a dump of `svn_dump` record by record, and makes the changes that a record stands for on a transaction of `svn_repo`, which it
//! commits at the end of each revision. Revisions keep their numbers. A [`LoadListener`] hears of each revision that `load_all_with` loads.
//! A [`HistoryWriter`] makes commits, change by change, and writes each as a revision of a dump. [`last_change`] says which revision changed a node
//! last, when, and by whom.
//!
//! ```
//! let reader = Reader::new(alloc, File::open(rt, "repo.dump")?, limits, Texts::Whole)?;
//! let mut loader = Loader::new(alloc, reader, Repo::new(alloc)?);
//! while let Some(rev) = loader.next_revision()? {
//!     println!(rt; "loaded {rev}")?;
//! }
//! let repo = loader.into_repo();
//! ```
//!
//! Promises: what a record changes is `record_changes` of `specs/Changes.antt`, with the first fault from left to right. A call of `next_revision`
//! makes one commit of the records of one revision, with empty commits for the numbers that are left out (`one`). Where a record is refused,
//! nothing of its revision is committed; where only the number of the next revision is refused, it is committed, and nothing after it (`fault`, by
//! `RefusesPart` of `specs/Parts.antt`). A refusal stays (`refused`, `again`), and [`Loader::refusal`] tells where the
//! refused record is: its byte, its revision and its path are those of the first cause (`fault`, by `IsShown` of `specs/Places.antt`). `load_all` and `load_all_with` do so revision by revision, up to the
//! end or the first refusal (`rest`, `fault`), and a listener hears of each revision once (`heard`). A dump that is loaded to its end is the bytes'
//! revisions, each a commit (`dump`, by `Loads` of `specs/Loading.antt`). The UUID and the number of the first revision are what the dump says before
//! that revision (`front`, by `HasFront` of `specs/Fronts.antt`), and stay (`kept`). What is written of a commit is one record for each of its changes, in
//! order (`commit`, `written`), a commit that is refused leaves no byte (`unwritten`), and what is written of a commit loads as the same commit
//! ([`written_commits_load`]). From the bytes on: what was written of commits one after another is a dump, and loads as the same history, node by
//! node and line by line ([`written_dumps_load`]); a dump loads as one history, but for the numbers of its nodes ([`dumps_load_as_one`]). Out of
//! memory may come anywhere, a read fault only from a reader that failed, or that gave 2^64 - 1 bytes (`read`). Of a reader whose bytes no contract
//! knows, it is proved what the records do that it gives, but not which bytes they are. The last change of a node is `IsLastChange` of
//! `specs/Changed.antt`, in a repository whose roots rise (`changed`).
#![tactic(auto)]

mod changed;
mod dates;
mod delta;
mod fault;
mod front;
mod history_writer;
mod laws;
mod listener;
mod loader;
mod made;
mod records;
mod refusal;
mod writing;

pub use changed::{LastChange, last_change};
pub use fault::LoadFault;
pub use history_writer::{HistoryWriter, push_beginning, push_commit};
pub use laws::{dumps_load_as_one, written_commits_load, written_dumps_load};
pub use listener::{LoadListener, NoLoadListener};
pub use loader::{Loader, MAX_REVISION};
pub use refusal::Refusal;
