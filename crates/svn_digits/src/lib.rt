//! What dumps, working copies on disk and the wire write in digits: numbers, and the stand-ins of texts.
//!
//! [`read_number`] reads a decimal number, as a header of a dump or the length of an atom is. A stand-in is `$sha1$` and the SHA-1 checksum of a
//! text, as the column `checksum` of a working copy's database has it; it is in place of the text where texts are only compared. [`stand_in_of`]
//! makes it of a checksum, [`stand_in`] of a text, and [`is_stand_in`] says whether bytes have its form; it has [`STAND_IN_LEN`] bytes. Where only MD5
//! checksums are known, [`stand_in_of_md5`] makes another of them, of `$md5$` and that checksum.
//!
//! ```
//! assert_eq!(rt; read_number(b"1024"), Some(1024));
//! assert!(rt; is_stand_in(stand_in(alloc, b"abc")?.as_slice()));
//! ```
//!
//! Promises: each result is exactly that of its definition in `specs/Numbers.antt` or `specs/StandIns.antt`; only stand-ins take memory.
#![tactic(auto)]

mod number;
mod stand_ins;

pub use number::read_number;
pub use stand_ins::{STAND_IN_LEN, is_stand_in, stand_in, stand_in_of, stand_in_of_md5};
