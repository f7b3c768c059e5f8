// Drives of the calls that an update or a switch takes, to an editor that keeps them or to a copy.
use crate::reports::report;
use crate::words::{path, revision, word};
use std::alloc::{AllocError, Global};
use std::test::Fail;
use svn_drive::{DriveEnd, DriveFault, DriveOptions, check_report, drive, drive_switch};
use svn_editor::{Call, EditFault, Editor, Recorder};
use svn_repo::Repo;
use svn_report::Report;
use svn_wc::{Applier, WorkingCopy};

// What stops a drive: the number of calls that are asked for, and the number of the call that the editor refuses, counted from 1.
#[derive(Clone, Copy)]
pub(crate) struct Stops {
    pub(crate) cancel_after: Option<u64>,
    pub(crate) refused: Option<u64>,
}

// Nothing stops it.
pub(crate) const NEVER: Stops = Stops {
    cancel_after: None,
    refused: None,
};

// An editor that keeps the calls, and refuses one of them.
#[derive(Drop)]
pub(crate) struct Refuser {
    recorder: Recorder,
    refused: Option<u64>,
}

impl Editor for Refuser {
    ghost answers = { λ before call answer after. Unit {0} };

    fn call(&mut self, call: Call) -> Result<(), EditFault> {
        self.recorder.call(call)?;
        if self.refused == Some(self.recorder.calls().len() as u64) {
            Err(EditFault::NoEntry)
        } else {
            Ok(())
        }
    }
}

// A drive's result.
pub(crate) type Ended = Result<DriveEnd, DriveFault>;

// The report of these entries, which the repository must be able to serve.
fn served(alloc: Global, repo: &Repo, entries: &str) -> Result<Report, Fail> {
    let report = report(alloc, entries)?;
    check_report(alloc, repo, &report)?;
    Ok(report)
}

// `drive REV [late]` or `drive_switch REV PATH`
fn drive_step(
    alloc: Global,
    repo: &Repo,
    report: &Report,
    step: &str,
    cancel_after: Option<u64>,
    editor: &mut Refuser,
) -> Result<Ended, Fail> {
    let options = DriveOptions {
        cancel_after,
        late_texts: word(step, 2) == "late",
    };
    let target = revision(step, 1);
    if word(step, 0) == "drive" {
        return Ok(drive(alloc, repo, report, target, options, editor));
    }
    let to = path(alloc, step, 2)?;
    Ok(drive_switch(alloc, repo, report, &to, target, options, editor))
}

fn write_calls(out: &mut String, calls: &[Call]) -> Result<(), AllocError> {
    for call in calls {
        write!(out, "{call}; ")?;
    }
    Ok(())
}

// Writes the calls of a drive, and how it ended.
pub(crate) fn write_drive(
    alloc: Global,
    out: &mut String,
    repo: &Repo,
    step: &str,
    entries: &str,
    stops: Stops,
) -> Result<(), Fail> {
    let report = served(alloc, repo, entries)?;
    let mut editor = Refuser {
        recorder: Recorder::new(alloc),
        refused: stops.refused,
    };
    let ended = drive_step(alloc, repo, &report, step, stops.cancel_after, &mut editor)?;
    write_calls(out, editor.recorder.calls())?;
    write!(out, "{ended:?}; ")?;
    Ok(())
}

// Whether the repository can serve the report of these entries.
pub(crate) fn write_check(
    alloc: Global,
    out: &mut String,
    repo: &Repo,
    entries: &str,
) -> Result<(), Fail> {
    let report = report(alloc, entries)?;
    let answer = check_report(alloc, repo, &report);
    write!(out, "{answer:?}; ")?;
    Ok(())
}

// An update by its parts: what the copy reports, and the drive of that to its applier.
fn update(alloc: Global, repo: &Repo, copy: &mut WorkingCopy, step: &str) -> Result<Ended, Fail> {
    let report = copy.crawl(alloc)?;
    check_report(alloc, repo, &report)?;
    let mut applier = Applier::new(alloc, copy)?;
    let options = DriveOptions {
        cancel_after: None,
        late_texts: false,
    };
    Ok(drive(
        alloc,
        repo,
        &report,
        revision(step, 1),
        options,
        &mut applier,
    ))
}

pub(crate) fn write_update(
    alloc: Global,
    out: &mut String,
    repo: &Repo,
    copy: &mut WorkingCopy,
    step: &str,
) -> Result<(), Fail> {
    let ended = update(alloc, repo, copy, step)?;
    write!(out, "{ended:?}; ")?;
    Ok(())
}
