//! The nodes of a working copy as a map from their paths, and what looks at many of them or changes them. It knows no edit and no copy:
//! `svn_edit` and `svn_wc` build these on it.
//!
//! [`Nodes`] is the map. Its functions are named with their module; each module has one subject:
//!
//! - [`nodes`]: what an edit asks of a node before it deletes, adds or opens it, and how it changes it
//! - [`paths`]: the repository paths that nodes get, with at most 64 names
//! - [`ending`]: what the last call of an edit does to all nodes: new paths in a switch, then one pass that revises and drops
//! - [`gather`]: the nodes of a tree of the repository, by an [`Origin`](gather::Origin); a node's path is mostly the tail of its repository path, and
//!   shares its block
//! - [`removal`]: removes the nodes below a path without memory: a few at a time, or in one pass over all nodes
//! - [`replace`]: puts a part in the place of the nodes at a path and below, and makes all allocations before anything goes
//! - [`ahead`]: the pairs of a map, one after the other, with the next ready to be read
//! - [`lines`]: a node as printed lines
//!
//! Two private modules serve `replace`: `append` puts a part at a path below which there is no node, and `overwrite` puts a part of over an eighth
//! of all nodes over them in one pass. [`or_memory`] makes a fault of an edit of an allocation that failed.
//!
//! ```
//! let mut all: Nodes = gather::map_of(alloc, pairs)?;
//! if let Some(fault) = nodes::delete_fault(all.get(&path), Rev(1)) {
//!     return Err(fault);
//! }
//! removal::delete_within(&mut all, &path);
//! ```
//!
//! To change a test of an edit, begin with `specs/NodeTests.antt`, which has each as a function of one node. `Standing`, `Gathered` and `Tails` say
//! what a gathered tree is, `Lines` how a node is printed. The lemmas `NodeOrder`, `Ranges` and `NodeRanges` are about nodes in path order; `svn_wc`
//! uses them too.
//!
//! Promises: a change of the map says what each path has afterwards, by the definition of the edit or by the tree of the repository (`added`,
//! `replaced`, `moved`, and the clauses without a name of `delete_within`, `settle_all`, `settle_moved`, `gather`); a refused one leaves the map as it was
//! (`refused`, `unchanged`). Each test of a node returns the fault that its definition in `specs/NodeTests.antt` names. What can't fail takes no
//! memory, or does without. A printed node is `node_lines` of `specs/Lines.antt`.
#![tactic(auto)]

pub mod ahead;
mod append;
pub mod ending;
pub mod gather;
pub mod lines;
mod memory;
pub mod nodes;
mod overwrite;
pub mod paths;
pub mod removal;
pub mod replace;

pub use memory::or_memory;
pub use nodes::Nodes;
