//! Dumps of Subversion's repositories, as `svnadmin dump` and `svnrdump dump` write them, read and written record by record. A dump is a list of
//! records: its format, the identity of the repository, and for each revision one record, then one for each node that it changes.
//!
//! [`Reader`] reads formats 2 and 3 off any `Read`. It holds one record at a time, of at most as many bytes as [`Limits`] says, and keeps texts as they
//! are, or their stand-ins ([`Texts`]). With [`Reader::with_index`] it keeps a [`DumpIndex`] beside: the date and the author of each revision, where
//! each whole text is in the dump, and which nodes are copies. [`push_format`], [`push_revision`] and [`push_node`] write. What a record does to a repository is a matter
//! of the crate `svn_history`.
//!
//! ```
//! let limits = Limits { headers: 65536, props: 1_048_576, text: 1_048_576 };
//! let mut reader = Reader::new(alloc, File::open(rt, "repo.dump")?, limits, Texts::Whole)?;
//! while let Some(record) = reader.next_record()? {
//!     if let Record::Node(node) = record {
//!         println!(rt; "{}", node.path)?;
//!     }
//! }
//! ```
//!
//! Promises: what `next_record` returns is the record that the format gives for the bytes that are left, just its bytes are taken, and a refusal is the
//! first fault from left to right (`record_at` of `specs/Records.antt`, which knows no reader). A read fault is that of a reader that failed (`failed`);
//! only an allocation that failed is free.
//! `begun` and `path` are then where that record begins and the path that its headers give, also of a record that is refused (`Shows` of
//! `specs/Readers.antt`). What an index has after each record is `noted` (`IsNoted` of `specs/Indexes.antt`); what is returned is the same with one.
//! What is written is `written` of `specs/Written.antt`.
#![tactic(auto)]

mod copy_note;
mod fault;
mod fields;
mod given;
mod header_name;
mod headers;
mod index;
mod input;
mod notes;
mod properties;
mod reader;
mod record;
mod revision;
mod sections;
mod shape;
mod sums;
mod writer;

pub use copy_note::CopyNote;
pub use fault::{DumpFault, Reason};
pub use index::{DumpIndex, TextPlace};
pub use reader::Reader;
pub use record::{
    Action, CopySource, NodeRecord, PropChanges, PropSection, Record, TextDelta, TextSection,
};
pub use sections::{Limits, Texts, kept_text};
pub use sums::{keep, md5_stand_in, stand_in};
pub use svn_types::Sha1Sum;
pub use writer::{push_format, push_node, push_revision};
