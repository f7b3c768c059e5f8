//! The copy of a row by the library's calls: how it is built, and what is seen of it.
use crate::printed::{call_lines, has};
use crate::trouble::{Trouble, holds, same};
use std::alloc::Global;
use svn_drive::{DriveFault, DriveOptions, check_report, drive};
use svn_editor::{Call, Recorder};
use svn_repo::Repo;
use svn_report::Report;
use svn_script::Command;
use svn_types::Rev;
use svn_wc::{WcFault, WorkingCopy};

/// A copy is true of its repository.
pub(crate) fn is_true(repo: &Repo, copy: &WorkingCopy) -> Result<(), Trouble> {
    holds(copy.check_true(repo).is_ok(), "a copy isn't true")
}

fn change(
    alloc: Global,
    repo: &Repo,
    copy: &mut WorkingCopy,
    command: &Command,
) -> Result<(), WcFault> {
    match command {
        Command::Checkout { rev, path } => {
            *copy = WorkingCopy::checkout_at(alloc, repo, path, *rev)?;
            Ok(())
        }
        Command::Place { path, rev } => copy.place(repo, path, *rev),
        Command::Switch {
            path,
            repos_path,
            rev,
        } => copy.switch(repo, path, repos_path, *rev),
        Command::Forget { path } => copy.forget(path),
        _ => Ok(()),
    }
}

// A refused call leaves the copy as it was.
fn change_or_leave(
    alloc: Global,
    repo: &Repo,
    copy: &mut WorkingCopy,
    command: &Command,
) -> Result<(), Trouble> {
    let before = format!(in alloc; "{copy}")?;
    let answer = change(alloc, repo, copy, command);
    if answer.is_err() {
        has(alloc, copy, &before, "a refused call changes the copy")?;
    }
    Ok(answer?)
}

fn has_lines(
    found: Result<String, Trouble>,
    lines: &str,
    other: &'static str,
) -> Result<(), Trouble> {
    let found = found?;
    same(&found, lines, other)
}

/// Makes the copy anew, or changes it.
pub(crate) fn build(
    alloc: Global,
    repo: &Repo,
    copy: &mut WorkingCopy,
    command: &Command,
) -> Result<(), Trouble> {
    match change_or_leave(alloc, repo, copy, command) {
        Err(Trouble::Memory) => change_or_leave(alloc, repo, copy, command),
        answer => answer,
    }
}

fn report_lines(alloc: Global, report: &Report) -> Result<String, Trouble> {
    Ok(format!(in alloc; "{report}")?)
}

/// What a copy reports.
pub(crate) fn report(alloc: Global, copy: &WorkingCopy, printed: &str) -> Result<(), Trouble> {
    let report = copy.crawl(alloc)?;
    let found = report_lines(alloc, &report);
    has_lines(found, printed, "a copy reports something else")
}

// A refused drive ends with the call that gives the edit up, where it could be kept.
fn refused_drive(calls: &[Call], fault: DriveFault) -> Trouble {
    match calls.last() {
        Some(Call::CloseEdit) => Trouble::Other("a refused drive closes the edit"),
        _ => Trouble::from(fault),
    }
}

fn drive_lines(
    alloc: Global,
    repo: &Repo,
    report: &Report,
    rev: Rev,
    late: bool,
) -> Result<String, Trouble> {
    let options = DriveOptions {
        cancel_after: None,
        late_texts: late,
    };
    check_report(alloc, repo, report)?;
    let mut recorder = Recorder::new(alloc);
    match drive(alloc, repo, report, rev, options, &mut recorder) {
        Ok(_) => call_lines(alloc, recorder.calls()),
        Err(fault) => Err(refused_drive(recorder.calls(), fault)),
    }
}

/// The calls of a drive.
pub(crate) fn drive_copy(
    alloc: Global,
    repo: &Repo,
    copy: &WorkingCopy,
    rev: Rev,
    late: bool,
    printed: &str,
) -> Result<(), Trouble> {
    is_true(repo, copy)?;
    let report = copy.crawl(alloc)?;
    let found = drive_lines(alloc, repo, &report, rev, late);
    has_lines(found, printed, "a drive makes other calls")
}
