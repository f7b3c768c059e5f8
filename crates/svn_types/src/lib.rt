//! The values that all layers share: names and paths, properties, texts, revision numbers and node kinds, and the limits that more
//! than one crate keeps.
//!
//! [`RelPath`] is a list of [`Name`]s below some root, [`Props`] are [`Text`]s under [`PropName`]s, [`Rev`] is the number of a revision,
//! and [`Kind`] is file or directory. [`Digest`] and [`Sha1Sum`] are checksums. If a text is no name or no path, [`PathFault`] says why, and
//! [`PathBytesFault`] of bytes. [`impossible`] marks a branch that no call reaches.
//!
//! ```
//! let directory = RelPath::parse(alloc, "trunk/lib")?;
//! let file = directory.join(alloc, &Name::parse(alloc, "hash.c")?)?;
//! assert!(rt; file.is_within(&directory));
//! let mut props = Props::new(alloc);
//! props.insert(PropName::parse(alloc, "svn:eol-style")?, Text::new(b"native".to_vec(alloc)?))?;
//! assert_eq!(rt; props.len(), 1);
//! ```
//!
//! Files: one for each type (`name`, `rel_path`, `prop_name`, `text`, `props`, `rev`, `kind`, `digest`), and `fault` for what is wrong with a text.
//! `limits` has the shared limits as constants and `specs/Limits.antt` as definitions: a new limit needs both. `hierarchy` goes up and down paths,
//! `changes` compares properties with the help of `props_left`, `bytes` splits bytes at a separator. The lemmas on names and paths that all
//! crates use are in `proofs/NameLemmas`, `NameSets`, `Merges`, `PathLemmas` and `PathsInOrder`.
//!
//! The other files are about memory layout, which no contract mentions:
//! - `short_bytes`: bytes stored inline, up to a fixed number, padded with zeros; `leading_bytes` reads eight of them as one number, to compare
//! - `small_text`: the text of a name, inline up to 14 bytes, else shared
//! - `text`: up to 30 bytes inline; longer ones share their bytes with their clones; `summed`: bytes with room for their checksum
//! - `path_key`: the text by which paths are compared and printed, inline up to 54 bytes; `short_key`: a key that is always inline
//! - `path_front`: the part of a path outside its block: `path_head` (the first 14 bytes of the key as two numbers, which decide most
//!   comparisons) and `cut` (how many names and bytes of the block's front the path leaves out, at most 4 and 64)
//! - `short_path` (one to three short names, a block of 40, 72 or 104 bytes), `path_block` (up to twelve names, 136 to 344 bytes) and
//!   `long_path` (names and key in memory of their own): the nine forms of a block. `path_form` chooses, `path_size` has the sizes, `pieces` is
//!   what a block is made of, and `path_parts` makes it
//!
//! To change the layout, begin with `path_form` and `specs/Forms.antt` (what each form holds), `PathKeys.antt` (keys), `PathHeads.antt` (heads).
//!
//! Promises: `parse` and `join` return the value, or exactly the first fault in the order of the definition, with Memory last
//! (`AnswersPath`, with `name_fault`, `prop_name_fault`, `path_fault` and `count_fault` of `specs/NameFaults.antt`; `AnswersBytes` of bytes).
//! Orders and equalities are those of the lists that contracts see (the `cmp` and `eq` of each type). `Props` are a map in name order, and
//! `changes_to` gives `changes_between` of `specs/Props.antt`. A `Text` is verified by its checksum exactly if that is the MD5 of its bytes.
#![tactic(auto)]

mod bytes;
mod changes;
mod cut;
mod digest;
mod fault;
mod hierarchy;
mod kind;
mod leading_bytes;
mod limits;
mod long_path;
mod name;
mod path_block;
mod path_form;
mod path_front;
mod path_head;
mod path_key;
mod path_parts;
mod path_size;
mod pieces;
mod prop_name;
mod props;
mod props_left;
mod rel_path;
mod rev;
mod short_bytes;
mod short_key;
mod short_path;
mod small_text;
mod summed;
mod text;
mod unreached;

pub use bytes::split_once;
pub use changes::PropChange;
pub use digest::{Digest, Sha1Sum};
pub use fault::{PathBytesFault, PathFault};
pub use kind::Kind;
pub use limits::{MAX_CAPACITY, MAX_COMPONENTS, MAX_DEPTH, MAX_NAME_LEN, MAX_SCRIPT, MAX_SIZE};
pub use name::Name;
pub use prop_name::PropName;
pub use props::Props;
pub use rel_path::RelPath;
pub use rev::Rev;
pub use text::Text;
pub use unreached::impossible;
