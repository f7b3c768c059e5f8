//! Dumps of deltas, expanded: the same dump with each text whole.
//!
//! `svnadmin dump --deltas` and `svnrdump dump` give a text as a delta over the one before it, and the latter no SHA-1 checksum of either. What is to know
//! the texts of a history, or where in a file each of them is, needs them whole. An [`Expander`] reads such a dump off any `Read`, and returns, record by
//! record, what is written in its place: a dump of the same records, in which each text is whole, with both checksums. The texts before are
//! read again from what was written ([`Store`]), so that none stays in memory, and each delta is applied once.
//!
//! ```
//! let mut expander = Expander::new(alloc, File::open(rt, "remote.dump")?)?;
//! file.write_all(&expander.begin()?)?;
//! for _ in 0..u64::MAX {
//!     match expander.next_record(&mut store)? {
//!         Some(bytes) => file.write_all(&bytes)?,
//!         None => break,
//!     }
//! }
//! ```
//!
//! The text before is the one with the MD5 checksum that the delta gives for it, of those that were given so far; without one it is empty, of a new
//! node that is no copy. So a delta over a text that comes later, or two over each other's texts, are refused ([`ExpandFault::NoBase`]). A text has at most
//! [`MAX_TEXT`] bytes. In memory are the text before, the delta, the text and its record; and of each text that was given 36 bytes, of each record
//! 16, and an index of the dump. [`Origins`] tell which record of the dump one of the expansion was made of.
//!
//! Of a revision's properties its date and its author are written, and only as far as an index of the dump has them.
//!
//! Promises: what `next_record` returns is written of the next record of the dump (`next`, by `ExpandsNext` of `specs/Records.antt`): the same node,
//! but that its text is whole, and if it was a delta is what the format of deltas says of it over a text with the checksums that it gives for it, and
//! has those that it gives for the text itself (`IsMade` of `specs/Deltas.antt`). That this text was one of those before in the dump is known
//! by its checksum alone: whoever can make two texts of one MD5 checksum can have one taken for the other where no SHA-1 checksum is given.
#![tactic(auto)]

mod delta;
mod expander;
mod fault;
mod origins;
mod spans;
mod written;

pub use expander::{Expander, MAX_TEXT, Store};
pub use fault::{ExpandFault, StoreFault};
pub use origins::Origins;
