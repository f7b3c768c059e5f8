//! What the commands of a script print.
ghost use Rattle.std.specs.Prelude.{◌≡◌, Some, OnOk};
ghost use Rattle.std.specs.List.{flat_map};
ghost use Rattle.std.specs.Fmt.{DisplaysOnOk};
ghost use Rattle.svn_update.specs.Answers.{answer_text, call_text};

use crate::fault_names::refusal_name;
use crate::kept_calls::KeptCalls;
use arrayvec::ArrayString;
use std::fmt;
use std::fmt::{Display, Write};
use svn_editor::Call;
use svn_model::{DriveFault, WcFault};
use svn_repo::CommitFault;
use svn_report::Report;
use svn_run::{Outcome, RunFault};
use svn_types::Rev;
use svn_wc::WorkingCopy;

// The longest line of a call that is built before it is written, and the longest text or value in it.
const MAX_LINE: usize = 512;

const MAX_TEXT: usize = 128;

/// Why a command did nothing.
#[derive(Clone, Copy)]
pub(crate) enum Refusal {
    /// There is no working copy yet.
    NoCopy,
    /// The list of changes couldn't grow: an allocation failed.
    Memory,
    /// `commit` was refused.
    Commit(CommitFault),
    /// `checkout`, `place`, `switch` or `forget` was refused, or an allocation for the report of the copy failed.
    Copy(WcFault),
    /// `drive` was refused.
    Drive(DriveFault),
    /// `update` or `switch-to` was refused.
    Run(RunFault),
}

/// The result of a command.
#[derive(Drop)]
pub(crate) enum Answer {
    /// Nothing is printed.
    Silent,
    /// `committed REV`
    Committed(Rev),
    /// `ok`
    Done,
    /// What the working copy reports.
    Reported(Report),
    /// The calls of a drive.
    Driven(KeptCalls),
    /// How an update or a switch of the whole copy ended.
    Ended(Outcome),
    /// The nodes of the working copy.
    Nodes,
    /// `refused NAME`
    Refused(Refusal),
}

/// Prints the result of a command, each line ended by a line feed.
#[derive(Clone, Copy)]
pub(crate) struct AnswerLines<'a> {
    pub(crate) answer: &'a Answer,
    pub(crate) copy: &'a Option<WorkingCopy>,
}

// Whether a call's line may be short.
fn may_be_short(call: &Call) -> bool {
    match call {
        Call::ApplyText { text, .. } => text.len() <= MAX_TEXT,
        Call::ChangeDirProp {
            value: Some(value),
            ..
        } => value.len() <= MAX_TEXT,
        Call::ChangeFileProp {
            value: Some(value),
            ..
        } => value.len() <= MAX_TEXT,
        _ => true,
    }
}

// Builds a call's line, if there is room for it.
fn put_call(call: &Call, text: &mut ArrayString<512>) -> fmt::Result
    ensures { OnOk result (text.new.bytes ≡ call_text call.now) }
{
    text.clear();
    match writeln!(text, "{call}") {
        Ok(()) => Ok(()),
        Err(error) => Err(error),
    }
}

// A call, and a line feed. A short line is built first, since one write costs less than many.
fn write_call<W: fmt::Write>(
    call: &Call,
    text: &mut ArrayString<512>,
    f: &mut fmt::Formatter<W>,
) -> fmt::Result
    ensures { DisplaysOnOk W.write_str_gives f.old result (Some (call_text call.now)) f.new }
{
    if may_be_short(call) && put_call(call, text).is_ok() {
        return f.write_str(text.as_str());
    }
    writeln!(f, "{call}")
}

// Calls of a list.
fn write_calls<W: fmt::Write>(
    calls: &[Call],
    text: &mut ArrayString<512>,
    f: &mut fmt::Formatter<W>,
) -> fmt::Result
    ensures { DisplaysOnOk W.write_str_gives f.old result (Some (flat_map call_text calls.now)) f.new }
{
    for call in calls {
        write_call(call, text, f)?;
    }
    Ok(())
}

// The calls of a drive.
fn write_kept<W: fmt::Write>(kept: &KeptCalls, f: &mut fmt::Formatter<W>) -> fmt::Result
    ensures { DisplaysOnOk W.write_str_gives f.old result (Some (flat_map call_text kept.now)) f.new }
{
    let mut text = ArrayString::<MAX_LINE>::new();
    let (full, last) = kept.lists();
    for list in full {
        write_calls(list, &mut text, f)?;
    }
    write_calls(last, &mut text, f)
}

impl fmt::Display for AnswerLines<'_> {
    ghost output = { λ l. Some (answer_text l.copy.now l.answer.now) };

    fn fmt<W: fmt::Write>(&self, f: &mut fmt::Formatter<W>) -> fmt::Result {
        match self.answer {
            Answer::Silent => Ok(()),
            Answer::Committed(rev) => writeln!(f, "committed {}", rev.0),
            Answer::Done => f.write_str("ok\n"),
            Answer::Reported(report) => report.fmt(f),
            Answer::Driven(kept) => write_kept(kept, f),
            Answer::Ended(outcome) => writeln!(f, "{outcome}"),
            Answer::Nodes => match self.copy {
                Some(copy) => copy.fmt(f),
                None => Ok(()),
            },
            Answer::Refused(refusal) => writeln!(f, "refused {}", refusal_name(*refusal)),
        }
    }
}
