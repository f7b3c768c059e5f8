//! Working copies of Subversion, brought to disk: what a client takes over as its own.
//!
//! ```
//! let mut folder = SyncedFolder::new(alloc, DiskFolder::new(rt, root));
//! let what = Checkout { url, uuid, copy: &copy, inherited: None, time, sync: true };
//! check_out(alloc, &mut folder, &mut source, &what)?;
//! ```
//!
//! [`check_out`] makes all of a copy in the folder `.svn-new`: its texts, each file under a name of its own, and the database, whose work queue says
//! what is left to do. Once all of it is on the disk the folder becomes `.svn`, by one rename; then directories are made, files get their places, and
//! another database without a queue takes the place of the first. Before the rename there is no copy, from then on there is the whole one: [`resume`]
//! completes it, or `svn cleanup`. A [`Source`] gives the texts, piece by piece, and each node's last change.
//!
//! [`mend`] brings a copy that is on disk to another state, the one that [`mended`] says, in the way in which any other is reached (`bring`): what differs is
//! planned, what is in the way is refused, texts and files are made under names of their own, and a database with the new rows and what is left to do takes the
//! place of the old one, by one rename. Before it the copy is the old one, from then on the new one. Then what goes is removed and what comes is made, as
//! [`resume`] and `svn cleanup` do it too, and a database with nothing left follows. Rows of nodes that stay are kept byte by byte, and so are those of all other
//! tables but the texts' and the work's.
//!
//! | Files, lowest first | What they do |
//! |---|---|
//! | `fault` | why a copy isn't brought to disk |
//! | `layout`, `inside` | where a copy keeps what it knows; steps in that folder |
//! | `steps`, `settle` | steps of a folder that belong together; what was done, brought to the disk |
//! | `normal`, `node_file` | texts without values of keywords, and with other line ends; what a file is on disk, by its text and properties |
//! | `source`, `texts`, `prepared`, `read_back` | where texts come from; pristine texts; files under names of their own; what was written, read back |
//! | `inherited` | the properties that a copy's root inherits |
//! | `contents`, `carry` | what is written of a new copy; its work, done |
//! | `checkout` | a new copy |
//! | `existing`, `clearing`, `completion` | one that is on disk; what was cut off before there was one; what was cut off, completed |
//! | `above`, `difference`, `plan`, `wanted` | the directories above a path; what becomes of a node, and of each path, between two copies; what a copy is brought to |
//! | `on_disk`, `missing`, `local`, `refusals` | what is on disk; what isn't any more; local changes in the way; all that is in the way |
//! | `task`, `repeated`, `known` | the work that is left; paths with work twice; the texts by which a file is nobody's edit |
//! | `doing`, `database_image` | the work, done; the databases that follow |
//! | `rows`, `temporary`, `preparing`, `bringing` | rows of a changed copy; what an earlier run left; the new state, prepared; a copy on disk, brought to it |
//! | `truth`, `mending` | what of a copy is untrue, put right; the same on disk |
//! | `laws` | what the crash theorem rests on, of a rename; what the steps leave alone, and what is in place in the end |
//!
//! Definitions, in the order of reading: `specs/Goes.antt` (which steps a call takes), `Places.antt` (where they are), `Plans.antt` (what is written of a
//! copy), `Tasks.antt` (work in two parts), `Crashes.antt` (what a crash leaves during a checkout, a change and a completion), `Ends.antt` (what a folder shows
//! once a call is over), `Changes.antt` (what becomes of each path of a change),
//! `Readings.antt` (what text of a repository a file on disk may be), `Spared.antt` (what a step replaces or removes), `Queue.antt` (what work is about),
//! `Laws.antt`.
//!
//! Promises: every function is safe and returns. Each step of [`check_out`] is inside of `.svn-new` or `.svn`, is the rename of the one to the other, or
//! makes or places a node of the copy (`is_of_copy`), so that nothing else is changed (`a_checkout_changes_nothing_else`). With `sync`, in a folder that is
//! all on the disk and has no copy, a crash at any moment of it leaves no copy, or the whole one (`Leaves`, `IsNoneOrWhole`), and once it has returned Ok
//! the whole one (`LeavesAfter`): at `.svn/wc.db` a file whose bytes stand for a copy with just these nodes, and of each file the pristine text, by its
//! checksum (`IsWhole`). Once it has returned Ok each node of the copy but its root is at its place, with `sync` or without (`AreAtPlaces`): a directory; or a
//! file with its text, byte for byte, or the link that the text says, each by the checksum of the text.
//!
//! Once [`bring`] or [`mend`] has returned Ok, each path that it returns is as it says (`AreChanged`, `IsMended`): where something comes is the node of the
//! new copy, as after a checkout, and where a file goes and nothing comes is no file and no link. Once [`resume`] has completed a copy, all items of its queue
//! are done in this sense (`IsCompleted`). A directory that goes stays if something is in it that isn't the copy's.
//!
//! Each path whose node is another one in the new copy is in the list that [`bring`], [`changes`], [`mend`] or [`mend_changes`] returns (`HasEachChange`), and
//! what has to come or to go there does, by the list (`IsChangeOf`): a node where there was none of its kind, a file with another text; and where more differs
//! than the revision or the place in the repository, the list says so. So a node that had to come is at its place once the call has returned Ok, and where a file
//! was and the new copy has nothing is no file and no link (`what_changes_is_in_place`).
//!
//! Each step of [`bring`] is inside of `.svn`, or makes a directory, places what had no name yet, or removes a file or a directory, at the path of a node of
//! the old copy or of the new one (`is_of_change`), so that nothing else is changed (`a_change_changes_nothing_else`). With `sync`, where the old copy is on
//! the disk with each of its texts (`IsKept`), a crash at any moment of it leaves the old copy or the new one, with each of its texts (`IsOldOrNew`,
//! `IsThere`), and once it has returned Ok the new one. [`mend`] promises the same: its steps are those of a change from the copy that is there to one
//! that is true of the repository (`IsMending`), and a crash leaves the copy that was there or one that is true (`IsThereOrTrue`). A step of [`resume`] is
//! inside of `.svn-new`, or it is inside of `.svn`, or makes, places or removes something at the path of an item of the work queue that the database had
//! (`is_queued`); with `sync` a copy that is on the disk stays there. The copy that [`mended`] returns is true of the repository (`IsTrueOf`).
//!
//! What somebody edited is spared. Outside of `.svn`, [`bring`], [`mend`] and [`resume`] replace or remove only files and links with a text that is known, as it
//! is or without values of keywords and with other line ends (`IsReading`), and directories with nothing in them (`Spares`): any other file or link stays as
//! it is (`what_has_no_known_text_stays`). The texts that are known are those that the folder's database had rows of (`texts_in`), and, of [`bring`] and
//! [`mend`], those of the new copy (`texts_of_either`).
//!
//! A crash is one of `svn_folder`, so this is said of folders whose steps are known; of a folder of the system no contract speaks. Not proved, and tested by
//! `test_disk` at each step: that a checkout replaces no file, and that the work which a crash leaves is all that is left to do.
#![tactic(auto)]

mod above;
mod bringing;
mod carry;
mod checkout;
mod clearing;
mod completion;
mod contents;
mod database_image;
mod difference;
mod doing;
mod existing;
mod fault;
mod inherited;
mod inside;
mod known;
mod laws;
mod layout;
mod local;
mod mending;
mod missing;
mod node_file;
mod normal;
mod on_disk;
mod plan;
mod prepared;
mod preparing;
mod read_back;
mod refusals;
mod repeated;
mod rows;
mod settle;
mod source;
mod steps;
mod task;
mod temporary;
mod texts;
mod truth;
mod wanted;

pub use bringing::{bring, changes};
pub use checkout::{Checkout, check_out, refuse_check_out, refuse_reserved};
pub use completion::{Resumed, resume};
pub use existing::Existing;
pub use fault::{DiskFault, OtherRepository};
pub use inherited::inherited_props;
pub use laws::{
    a_change_changes_nothing_else, a_checkout_changes_nothing_else, a_directory_is_renamed_at_once,
    what_changes_is_in_place, what_has_no_known_text_stays,
};
pub use mending::{Remedy, mend, mend_changes};
pub use missing::missing_nodes;
pub use plan::{Change, PathChange};
pub use source::{Source, TextSums};
pub use truth::mended;
pub use wanted::Wanted;
