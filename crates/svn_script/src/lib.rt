//! Scripts, read: a script's bytes and lines, what the words of a line mean, the command that a line is, and the words of
//! the command line. `docs/SCRIPT.md` is the manual of the language.
//!
//! [`read_script`] reads all bytes or refuses them by a [`ScriptFault`]; [`read_command`] makes a [`Command`] of one line, or says by a
//! [`LineFault`] that it is none; [`read_words`] makes [`Settings`] of the words of the command line, and [`read_invocation`] makes an [`Invocation`] of
//! these and of the dump to begin with; both refuse by a [`WordsFault`].
//!
//! ```
//! let script = read_script(alloc, reader)?;
//! let line = without_return(&script);
//! match read_command(alloc, line) {
//!     Ok(command) => println!(rt; "{command:?}")?,
//!     Err(_) => println!(rt; "bad line")?,
//! }
//! ```
//!
//! Files: `lines` reads the bytes, at most one too many, and cuts lines and words (`specs/Reading.antt`); `words` reads bytes, paths and names of properties;
//! `operands` takes the words after a command's name; `verb`, `changes`, `copies` and `command` read a line as a command
//! (`specs/Commands.antt`); `command_line` reads the words of the command line; `fault` is why a script ends early.
//!
//! To add a command: a variant of `Command` and of `Verb`, a line of their definitions and of `Does` in `svn_update`; if it prints something new, also a
//! variant of `Answer` with a line of `answer_text` there.
//!
//! Promises: what is read is what the definitions of `specs/Reading.antt` and `specs/Commands.antt` give for the bytes, or an allocation failed
//! (`Gives`). `read_script` gives all bytes of the reader and never over 16,777,216 (`bytes`, `bounded`, `too_long`). The settings have a
//! capacity from 1 to 4,096 (`least`, `most`); which words `clap` takes is tested.
#![tactic(auto)]

mod changes;
mod command;
mod command_line;
mod copies;
mod fault;
mod lines;
mod operands;
mod verb;
mod words;

pub use command::{Command, read_command};
pub use command_line::{History, Invocation, Settings, WordsFault, read_invocation, read_words};
pub use fault::ScriptFault;
pub use lines::{read_script, without_return};
pub use svn_types::{MAX_SCRIPT, split_once};
pub use words::LineFault;
