//! The protocol of Subversion's server (ra_svn): items, read from bytes and written, and what both sides of a connection need of them. Who carries the
//! bytes is the caller's matter.
//!
//! An item is a number, a word, a string of any bytes, or a list of items; here it is the list of its [`Token`]s, with `Open` and `Close` about the
//! items of a list. Each token is ended by a space or a line feed, and more may be before it. [`read_item`] reads one from a slice, [`ItemStream`] from a
//! stream that comes in pieces; [`push_item`] writes one, and [`push_number`], [`push_word`] and [`push_text`] its parts. [`command`], [`fields_of`] and
//! the functions named for a field take a tuple apart: unknown fields at its end are passed over.
//!
//! ```
//! let mut stream = ItemStream::new(alloc, limits);
//! stream.feed(b"( get-latest-rev ( ) ")?;
//! assert!(rt; stream.next_item()?.is_none());
//! stream.feed(b") ")?;
//! let Some(item) = stream.next_item()? else { .. };
//! let Some((name, fields)) = command(&item) else { .. };
//! assert_eq!(rt; name, b"get-latest-rev".as_slice());
//! ```
//!
//! A server speaks first: [`read_greeting`] has its versions and capabilities ([`has_word`] looks for one). Then, and before it answers a command, it says
//! by which mechanisms it lets a client in ([`read_mechanisms`], [`read_refusal`]); after the first it says which repository it serves
//! ([`read_repository`]). A command has results, `success`, or errors ([`read_failure`]). Paths in commands are below the URL of the connection, as plain text;
//! URLs have escapes: [`push_url`] writes that of a path, [`read_url`] reads its path.
//!
//! Files: `parts` has runs of bytes of one class, `token` one token, `item` the tokens of an item, `stream` pieces, `fields` tuples, `answers` what a server
//! says, `urls` URLs, `writer` writes, `laws` has the laws. The format is `specs/Tokens.antt` and `specs/Items.antt`.
//!
//! Promises: what is read is exactly what the format gives, and a refusal the first from left to right: [`Stop::More`] where the bytes end within an
//! item that is lawful so far, else why they are none, however they go on ([`pieces_change_nothing`]). Of an item there are no more tokens, lists within one another and bytes
//! of a string than [`Limits`] says. What was written is read back ([`tokens_are_read_back`], [`items_are_read_back`]), and what is read is one item
//! ([`items_are_whole`]). The URL of a path is read as that path ([`paths_are_read_back`]). What a side of a connection has written is a function of the bytes that
//! came, and stays as more come ([`written_stays`]). Only strings, words, the list of an item and what is escaped take memory.
#![tactic(auto)]

mod answers;
mod fault;
mod fields;
mod item;
mod laws;
mod parts;
mod stream;
mod token;
mod urls;
mod writer;

pub use answers::{
    Greeting, read_failure, read_greeting, read_mechanisms, read_refusal, read_repository,
};
pub use fault::{Malformed, Stop, WireFault};
pub use fields::{
    bool_field, command, fields_of, has_word, list_field, number_field, optional_number,
    set_path_fields, text_field, word_field, word_list,
};
pub use item::{Limits, read_item};
pub use laws::{
    items_are_read_back, items_are_whole, paths_are_read_back, pieces_change_nothing,
    tokens_are_read_back, written_stays,
};
pub use stream::ItemStream;
pub use token::{Token, read_token};
pub use urls::{UrlFault, push_url, read_url};
pub use writer::{push_item, push_number, push_text, push_token, push_word};
