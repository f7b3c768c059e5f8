//! The base nodes of a working copy of Subversion 1.8 to 1.14 (format 31), from the bytes of its database `.svn/wc.db`, read only. No file is opened
//! here: a program reads the files and passes their bytes. It also has to see that no journal is beside the database, and that the file didn't change
//! while it was read: each change raises the counter at byte 24 of its header.
//!
//! ```
//! let tree = read_base_tree(alloc, &bytes)?;
//! let copy = WorkingCopy::from_nodes(alloc, tree.nodes)?;
//! ```
//!
//! `from_nodes` (of `svn_wc`) refuses what no single row shows: a path that comes twice, a node without a directory above it. The text of a file is its
//! stand-in (`svn_digits`), `$sha1$` and 40 digits; [`pristine_path`] says where the text itself is. [`read_base_tree_at`] reads what is at a folder and
//! below as a tree of its own, whatever else the copy has. [`read_tree`] reads sparse copies too.
//!
//! | Files, lowest first | What they do | Definitions in `specs/` |
//! |---|---|---|
//! | `fault`, `refusal` | why a database is refused, and at which path | `Reading` |
//! | `skel`, `properties` | lists of atoms (skels), properties | `Skels`, `Properties` |
//! | `image`, `pages` | the header of the file, and what is used of page n: bytes at its end may be reserved | `Images` |
//! | `table`, `payload`, `tree` | the rows of a table; a row's bytes, which may go on in overflow pages | `Pages`, `Records`, `Tables` |
//! | `columns`, `schema` | the first columns of a row, from one pass over its record; the rows of a table by its name | `Columns`, `Schema` |
//! | `pristine`, `pristines` | where a pristine text is; the rows of PRISTINE | `Pristines` |
//! | `row`, `paths`, `place`, `node` | a row of NODES as a base node; whether it is in a folder, and the path at which it is refused | `Nodes`, `Paths` |
//! | `depth`, `left_out` | rows of sparse copies as those of whole ones; what such a copy leaves out | `Sparse` |
//! | `locks` | which nodes are locked in the repository | `Locks` |
//! | `notes`, `origin`, `nodes`, `base_tree` | what is passed over; the root and the repository; the nodes; the whole | `Bases` |
//! | `laws` | laws about these definitions | |
//!
//! A row of NODES is passed over and counted where `op_depth` isn't 0 (a local change) or `file_external` is set. Else it is a base node, or refused:
//!
//! | Presence | Kind | Depth | Base node |
//! |---|---|---|---|
//! | `normal` | `dir` | `infinity` or NULL | a directory, complete |
//! | `incomplete` | `dir` | `infinity` or NULL | a directory, not complete |
//! | `normal` | `file` | any | a file |
//! | `not-present` | any | any | not present |
//!
//! In a sparse copy ([`Takes::Sparse`]) the depths `empty`, `files` and `immediates` are as none, and the presences `excluded` and `server-excluded` as
//! `not-present`; they are counted.
//!
//! A base node's row must name the path above it as its parent, by which Subversion finds it, and the root's none. Properties are read as bytes, also
//! where the column has a text, as Subversion does.
//!
//! A row of PRISTINE is a stand-in, NULL where a compression would be, and the text's size in bytes; a file's checksum must be one of theirs
//! ([`Pristines`]).
//!
//! The first fault from left to right is the refusal: of the header; of the pages and rows of the schema, WCROOT, NODES, REPOSITORY and PRISTINE; of the
//! root; of the rows of NODES, in their order and with their paths; of the tables that are counted. [`read_base_tree`] has the list.
//!
//! Hostile files: a table takes no more pages than the file has and 20 levels, so reading ends, and no loop of pages costs more than the file. In
//! memory are the rows of the tables that are read, of each no more bytes than the file has and some 40 for each row; a flag for each byte of a page
//! while it is looked at; and the nodes.
//!
//! [`read_image`] and [`read_table`] read any table by its root page, for what writes a database and reads it back.
//!
//! Promises: a tree is returned only if it is what the bytes stand for, and else the refusal is the first fault, with the path of its row
//! (`read_base_tree`, by `base_tree_of`; of a folder `read_base_tree_at`, by `base_tree_at`; of sparse copies `read_tree`, by `base_tree_in`, and what is
//! left out by `left_out_in`). Only a failed allocation may come anywhere. That the tests
//! of pages and records are the kit's definitions of them: [`pages_are_well_formed`], [`records_are_whole`].
#![tactic(auto)]

mod base_tree;
mod columns;
mod depth;
mod fault;
mod image;
mod laws;
mod left_out;
mod locks;
mod node;
mod nodes;
mod notes;
mod origin;
mod pages;
mod paths;
mod payload;
mod place;
mod pristine;
mod pristines;
mod properties;
mod refusal;
mod row;
mod schema;
mod skel;
mod table;
mod tree;

pub use base_tree::{BaseTree, Origin, ReadTree, read_base_tree, read_base_tree_at, read_tree};
pub use depth::{Depth, Takes};
pub use fault::{Reason, TableName, WcdbFault};
pub use image::read_image;
pub use laws::{local_rows_change_nothing, pages_are_well_formed, records_are_whole};
pub use left_out::LeftOut;
pub use notes::Notes;
pub use pages::Image;
pub use pristine::pristine_path;
pub use pristines::Pristines;
pub use refusal::Refusal;
pub use svn_digits::{is_stand_in, stand_in};
pub use table::TableRow;
pub use tree::read_table;
