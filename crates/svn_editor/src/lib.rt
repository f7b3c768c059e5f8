//! The calls of a delta editor (`svn_delta.h`): the calls, the trait that takes them, why they are refused, and how they are printed.
//! The rules of their order are prose at [`Editor`] and a definition in `specs/Order.antt`; `svn_order` has the check.
//!
//! A driver makes [`Call`]s, which name what they opened by [`Token`]s, and gives them to an [`Editor`], which refuses one with an
//! [`EditFault`]. [`Recorder`] is an editor that keeps the calls. [`Word`], [`PathWord`] and [`ChecksumWord`] print the words of lines;
//! [`push_path`] and [`push_word`] append them to a text, so that one write prints a line.
//!
//! ```
//! let mut recorder = Recorder::new(alloc);
//! recorder.call(Call::SetTargetRevision { rev: Rev(2) })?;
//! recorder.call(Call::OpenRoot { base: Rev(1), token: Token(0) })?;
//! for call in recorder.calls() {
//!     println!(rt; "{call}")?;
//! }
//! ```
//!
//! prints `set_target_revision 2` and `open_root 1 #0`.
//!
//! Files: `call` has the calls, `token` their tokens, `mode` whether an edit is an update or a switch; `editor` the trait, with its one relation
//! (the editor before, the call, its result, the editor after); `recorder` the editor that keeps calls; `fault` the faults and their numbers; `words`
//! prints bytes, paths, tokens and checksums, `lines` the lines of calls, `line_words` appends words that need no escaping. A new rule of the order is
//! a test in `specs/Order.antt`, each a sentence about places in the list of the calls before; then see `svn_order`.
//!
//! Promises: a `Recorder` holds what it accepted, in order, and refuses only when out of memory (its `answers`). `Display` of calls, words, paths,
//! tokens and checksums has exactly the bytes of `specs/Lines.antt` and `specs/Words.antt` (the `output` of each), and what is appended to a
//! text are the same words. `is_last` and the numbers of the faults are as defined (`specs/Calls.antt`, `specs/FaultNumbers.antt`). What an
//! editor makes of a call, it states itself as its `answers`.
#![tactic(auto)]

mod call;
mod editor;
mod fault;
mod line_words;
mod lines;
mod mode;
mod recorder;
mod token;
mod words;

pub use call::Call;
pub use editor::Editor;
pub use fault::{EditFault, OrderFault};
pub use line_words::{push_path, push_word};
pub use mode::Mode;
pub use recorder::Recorder;
pub use svn_types::Digest;
pub use token::Token;
pub use words::{ChecksumWord, PathWord, Word};
