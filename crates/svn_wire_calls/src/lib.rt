//! The calls of an edit (`svn_editor`) as the commands of Subversion's protocol (`svn_wire`).
//!
//! [`push_call`] writes one call, and [`WireEditor`] is an editor that writes each call to a writer when it is made. After a call that opens or adds a node it
//! writes what a [`Teller`] says of that: the revision in which the node was last changed, its date and its author ([`Entered`]), which a client keeps
//! beside the node.
//!
//! ```
//! let mut opened = OpenedTexts::new(alloc);
//! let mut editor = WireEditor::new(alloc, &mut writer, &mut texts, &mut opened, teller);
//! let end = drive_request(alloc, &repo, &report, &request, &mut editor)?;
//! ```
//!
//! Tokens are written as their numbers; a text is one delta of new data ([`chunks_are_one_delta`]), a chunk for each window. `specs/Calls.antt` is the image of calls,
//! `specs/Entries.antt` that with what is said of nodes.
//!
//! The texts of calls may stand for others, which are in a file: a [`TextMap`] says for which, where that is, and which checksum is known of it. The text is
//! read and written piece by piece ([`send_text`]), and its checksums are compared at its end. A call is shown so
//! (`specs/Shown.antt`): with the text in the place of the one that stands for it, and the checksums of such texts in the place of theirs.
//!
//! Files: `fields` has the fields of commands, `calls` the commands, `pieces` how a piece of a text is written, `sums` the checksums of one that is read,
//! `texts` what texts stand for, `sending` how one is sent, `entered` what is said of a node, `opened` the texts of files that were opened, `editor` the
//! editor, `laws` its law.
//!
//! Promises: what is written of an accepted call is its image as it is shown and what is said after it, and nothing of a call for which memory ran out
//! (`Writes` of `specs/Laws.antt`). What was written of calls that were all accepted is the image of their list ([`calls_are_written`], [`images_are_one`]).
#![tactic(auto)]

mod calls;
mod editor;
mod entered;
mod fields;
mod laws;
mod opened;
mod pieces;
mod sending;
mod sums;
mod texts;

pub use calls::push_call;
pub use editor::WireEditor;
pub use entered::{Entered, HeldTexts, NothingTold, Teller};
pub use fields::{push_below, push_path, push_some};
pub use laws::{calls_are_written, chunks_are_one_delta, images_are_one};
pub use opened::OpenedTexts;
pub use pieces::Form;
pub use sending::send_text;
pub use sums::TextSums;
pub use texts::{SendFault, Stretch, TextMap};
