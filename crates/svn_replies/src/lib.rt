//! What a server for Subversion's clients (ra_svn, read only) serves, and what it answers to commands about one node or one revision.
//!
//! [`Served`] is what is served: a repository that was loaded from a dump, what the dump says of copies, and the properties and the changes of its revisions.
//! It never changes. A client is somewhere in it ([`Session`]); with that it is a [`View`], of which one function answers each command by its fields.
//!
//! ```
//! let session = Session::open(alloc, &served, url)?;
//! let view = View { alloc, served: &served, session: &session };
//! answer_stat(view, &fields, &mut out)?;
//! ```
//!
//! The repository holds texts, or a stand-in for each ([`Holds`]); then how long a text is and its MD5 checksum are what the dump's index says. The text itself
//! is sent by the caller, after the answer ([`answer_file`] returns what is held of it): what is served is a `TextMap` of `svn_wire_calls`.
//!
//! Why a command isn't answered by success is a [`Refused`]: a failure with a code of `svn_error_codes.h`, which the caller writes ([`push_failure`]); fields
//! that aren't those of the command; or memory that ran out. Which command is answered how, and those about many revisions, is `svn_commands`.
//!
//! Files: `served` is what is read of a repository, with `changes` what its revisions changed and `texts` what its texts stand for; `session` what paths, URLs
//! and revisions name. `fields` takes the fields of commands apart. `answers` is about one node, with `nodes` what is written of it, and `revisions` about one
//! revision. `writing` writes what answers are made of, `fault` says why a command fails.
//!
//! Promises: `check-path`, `get-dated-rev`, `get-iprops`, `get-latest-rev`, `rev-prop` and `rev-proplist` have one answer; so have `stat`, `get-file` and
//! `get-dir`, but for the last change of each node, which is `IsChange` of `specs/LastChanges.antt` ([`Served::entered`]); these are in
//! `specs/Commands.antt`. What paths, URLs and revisions name is in `specs/Named.antt`; why not, in the order in which fields are read.
//!
//! Nothing is stated of which URLs a session is opened for ([`Session::open`] says where the client is then), and of the words of failures.
#![tactic(auto)]

mod answers;
mod changes;
mod fault;
mod fields;
mod nodes;
mod revisions;
mod served;
mod session;
mod texts;
mod writing;

pub use answers::{answer_directory, answer_file, answer_inherited, answer_kind, answer_stat};
pub use changes::{Changes, PathChange, PathChanges};
pub use fault::{Failure, Refused, code};
pub use fields::path_and_rev;
pub use revisions::{answer_dated, answer_latest, answer_rev_prop, answer_rev_props};
pub use served::{Holds, Revisions, Served};
pub use session::{Place, Session, View, failed, read_path};
pub use writing::{
    push_bool, push_close, push_done, push_end, push_failure, push_kind, push_no_mechanism,
    push_open, push_optional, push_pair, push_rev, push_success, push_whole_path,
};
