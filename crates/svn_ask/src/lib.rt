//! The client's side of a connection (ra_svn) that asks a server about paths, and nothing else. Who carries the bytes is the caller's matter.
//!
//! A question is about a path of the repository in a revision: the checksum and properties of a file, the properties and names of a directory, or
//! only the kind ([`Wanted`]). An [`Asking`] is fed with the server's bytes, in any pieces, and says what to write; it passes each answer with its
//! question to a [`Hearer`], in the order of the questions. Lists of [`Questions`] may follow one another over one connection.
//!
//! ```
//! let mut asking = Asking::new(alloc, limits, speaker);
//! let mut questions = Questions::new(&list, false);
//! while !questions.is_done() {
//!     // .. read bytes of the server; where there are none, `asking.end(&questions)?` says why they may not end
//!     asking.hear(bytes, &mut questions, &mut out, &mut hearer)?;
//!     // .. write `out`, and clear it
//! }
//! let mut further = Questions::new(&others, false);
//! asking.ask(&mut further, &mut out)?;
//! // .. and so on
//! ```
//!
//! Many questions are open at once, so that few round trips are waited for: as many as have 32,768 bytes of commands, or one longer command alone. A
//! pipe or a socket holds as much, so a client that writes and then reads never waits for a server that waits for it. With `one_by_one` there is
//! one at most.
//!
//! [`push_question`] and [`said_of`] are the command of one question, and what the item of its answer says.
//!
//! What a server answers, and what that says:
//!
//! | Question | Answer | Said |
//! |---|---|---|
//! | file | `( success ( ( MD5 ) REV ( ( NAME VALUE ).. ) .. ) )` | [`Said::File`] |
//! | directory | `( success ( REV ( ( NAME VALUE ).. ) ( ( NAME .. ).. ) .. ) )` | [`Said::Directory`] |
//! | kind | `( success ( none ) )`, `file` or `dir` | [`Said::Nothing`], [`Said::OfKind`] |
//! | any | failure 160013 | [`Said::Nothing`] |
//! | any | failure 160006 | [`Said::NoRevision`] |
//! | file | failure 160017 | [`Said::OfKind`] directory |
//! | file | failure 160016: a file is above it | [`Said::Nothing`] |
//! | directory | failure 160016: a file is there or above it | [`Said::NoDirectory`] |
//!
//! Properties whose names begin with `svn:entry:` or `svn:wc:` are the server's own and are left out; fields that aren't known come last in their
//! tuples and are passed over. Any other failure, another revision, a file without a checksum, a name twice and whatever else is no answer is a
//! [`Reason`], and is returned as the fault.
//!
//! The opening: a greeting of version 2 (nothing may be before it, so a login shell that prints something is refused), a mechanism (EXTERNAL if it is
//! listed, else ANONYMOUS), the repository, whose UUID must be the one that is expected, and a `reparent` to its root. A command that wants
//! authentication again is refused, and so is what is sent after the last answer.
//!
//! Files: `question` has the commands, `tuples`, `props`, `names` and `answer` decode answers, `opening` has the steps before the first question,
//! `questions` how many are open, `talk` what comes of an item, `asking` bytes in pieces, `laws` has the laws. Begin to read at `specs/Courses.antt`.
//!
//! Promises: a command is written exactly ([`push_question`], [`question_len`]). What an answer says is exactly what `specs/Answers.antt` gives, or the
//! first fault from left to right ([`said_of`]). What is written and heard is a function of all bytes that came, however they were cut
//! ([`Asking::hear`], [`pieces_join`]). What is heard are the answers that the items of these bytes have, in the order of the questions, however many
//! are open at once ([`answers_are_said`]), and over all lists of a connection ([`conversations_go_on`]). A refusal leaves the answers before it
//! heard, and the connection is of no more use. Only a failed allocation may come anywhere. Memory is bounded by the limits that are handed in: an
//! `Asking` holds an item that isn't whole, and an answer until it is passed on.
#![tactic(auto)]

mod answer;
mod asking;
mod fault;
mod hearer;
mod laws;
mod names;
mod opening;
mod props;
mod question;
mod questions;
mod said;
mod talk;
mod tuples;

pub use answer::said_of;
pub use asking::Asking;
pub use fault::{AskFault, Reason};
pub use hearer::Hearer;
pub use laws::{answers_are_said, conversations_go_on, pieces_join};
pub use opening::Speaker;
pub use question::{Question, Wanted, push_question, question_len};
pub use questions::Questions;
pub use said::Said;
