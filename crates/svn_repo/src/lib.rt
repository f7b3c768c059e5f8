//! A versioned tree of files and directories, kept in memory. Each commit makes a new revision, and old revisions stay.
//!
//! A [`Repo`] takes lists of [`Change`]s as commits, and refuses one with a [`CommitFault`]. What is at a path of a revision is a node,
//! named by a [`NodeId`], which the readers take: `kind`, `text`, `props`, `entries` ([`Entries`]) and `line`.
//! A [`Transaction`] makes a revision change by change, with look-ups in between.
//!
//! ```
//! let mut repo = Repo::new(alloc)?;
//! let path = RelPath::parse(alloc, "f")?;
//! let text = Text::new(b"abc".to_vec(alloc)?);
//! let rev = repo.commit(&[Change::PutFile { path: path.clone()?, text }])?;
//! if let Some(node) = repo.lookup(rev, &path) {
//!     assert!(rt; repo.kind(node) == Some(Kind::File));
//! }
//! ```
//!
//! A repository is three lists: the root of each revision, the nodes, each named by its place, and the height of the tree below each node. A
//! directory's entries name nodes by number, so revisions share what didn't change, and a copy is one more entry. A commit works on a draft:
//! new nodes at the end of the list, a root and the next line. Old nodes are never written, so a rollback cuts the lists to their old lengths.
//! Of a history that begins late, the empty revisions before its first take no memory: `roots` counts them.
//!
//! Files: `commit` makes the changes and rolls back; `near` looks up where a change works, once for testing it and for making it; `refusal` says
//! why a change can't be made, without allocating; `store` copies the nodes on the way to a path (unless they are the draft's own) and puts a new
//! node, an old one or nothing there; `heights` fills in the heights of new nodes, from the last one on; `transaction` is a draft that stays open.
//!
//! To add a kind of change: a variant of `Change`, a line of `change_fault` and `after_change`, and an arm of `find_near`, `fault_of` and `make`. To
//! add a limit: a field of `IsLawfulPlace` and of `IsHistory`. The proof sees a draft as a tree without shared nodes (`specs/Trees.antt`,
//! `proofs/Walking.antt`); `proofs/Lawful.antt` shows that what is made stays within the limits, `Meanings` and `Staying` prove the laws.
//!
//! Cost: a commit costs the nodes that it makes. A directory that it changes is copied once: eight bytes an entry, and the names of one run
//! (`svn_name_map`). A copy costs its way down. Readers are constant; a look-up costs the depth times the logarithm of the entries.
//!
//! Promises: after `commit` each path of the new revision is what the changes in order make of the last one, and all older
//! revisions are as they were (`ok`, by `IsCommit`); a refusal names the first fault of the first change that can't be made, and leaves
//! the repository as it was (`fault`, `memory`, `never_full`, `unchanged`). The readers are exact for every argument and take no memory. What
//! holds of every repository is the contract of `law` (`IsHistory`), and what commits mean over time is that of [`revisions_stay`],
//! [`copies_keep_nodes`], [`changes_keep_lines`] and [`untouched_paths_keep_nodes`].
#![tactic(auto)]

mod change;
mod commit;
mod entries;
mod heights;
mod laws;
mod near;
mod refusal;
mod repo;
mod roots;
mod store;
mod transaction;

pub use change::{Change, CommitFault};
pub use entries::{Entries, NodeId};
pub use laws::{changes_keep_lines, copies_keep_nodes, revisions_stay, untouched_paths_keep_nodes};
pub use repo::Repo;
pub use svn_types::{Kind, Name, PathFault, PropName, Props, RelPath, Rev, Text};
pub use transaction::Transaction;
