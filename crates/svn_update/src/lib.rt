//! The script language: it makes repositories and working copies and updates them. The library itself is `yumbeltir`, which this crate re-exports
//! whole as `library`, and its most used names directly.
//!
//! [`run_script`] reads a script, does its lines one after the other and writes what they print, as [`Settings`] say; a [`ScriptFault`] says
//! why it ended early. [`run_script_on`] does the same on a given repository. `docs/SCRIPT.md` is the manual of the language.
//!
//! ```
//! let mut writer = BufWriter::new(rt.alloc(), io::writer(rt))?;
//! run_script(rt, rt.alloc(), &mut rt.reader(), &mut writer, &Settings::default())?;
//! ```
//!
//! Without scripts, depend on `yumbeltir` alone, which builds no reader of command lines.
//!
//! Files: `state` does a command on the repository, the pending changes and the copy, with `copies` and `runs`; each command leaves a copy that is true
//! of the repository, which is the state's invariant. `answer` prints what a command returns (`specs/Answers.antt`), `fault_names` the names of
//! faults; `kept_calls` is the editor that keeps a drive's calls until they are printed. `script` joins them. How to add a command is in `svn_script`.
//!
//! Promises, all of `run_script` and `run_script_on`, for a reader and a writer whose bytes are known: what was written is an output of the script by the
//! definitions of `specs/` (`ok`), at a bad line that of the lines before (`bad_line`); the script was read to its end, or nothing was done
//! (`ok_read`, `err_read`, `refused_whole`, `too_long`). `specs/Commands.antt` and `specs/Runs.antt` say which commands are refused when.
#![tactic(auto)]

mod answer;
mod copies;
mod fault_names;
mod kept_calls;
mod runs;
mod script;
mod state;

pub use script::{run_script, run_script_on};
pub use svn_script::{
    History, Invocation, MAX_SCRIPT, ScriptFault, Settings, WordsFault, read_invocation, read_words,
};
pub use yumbeltir as library;
pub use yumbeltir::{
    BaseNode, Cause, Change, CommitFault, Entries, Gate, Kind, Name, NoGate, NodeId, Options,
    Outcome, PathFault, PropName, Props, RelPath, Repo, Rev, RunFault, Text, WcFault, WorkingCopy,
    switch_to, switch_to_in_turn, update, update_in_turn,
};
