//! An editor of your own: it passes each call to the applier, and prints what `svn update` prints for it.
mod update_lines;

use crate::history::{Row, Step, repository};
use anyhow::Result;
use std::alloc::Global;
use update_lines::UpdateLines;
use yumbeltir::{Applier, DriveEnd, Repo, Report, Request, Rev, WorkingCopy, drive_request};

const FIRST: &[Row] = &[
    ("README", Step::Put("read me")),
    ("e", Step::Put("a file")),
    ("lib", Step::MakeDir),
    ("lib/a", Step::Put("a")),
    ("lib/b", Step::Put("b")),
    ("lib/c", Step::Put("c")),
    ("lib/c", Step::Set("1")),
];

// It has each kind of change.
const SECOND: &[Row] = &[
    ("README", Step::Remove),
    ("e", Step::Remove),
    ("e", Step::MakeDir),
    ("doc", Step::MakeDir),
    ("doc/x", Step::Put("x")),
    ("doc", Step::Set("1")),
    ("lib/a", Step::Put("abc")),
    ("lib/b", Step::Set("1")),
    ("lib/c", Step::Put("abc")),
    ("lib/c", Step::Set("2")),
    ("lib/d", Step::Put("d")),
    ("lib/d", Step::Set("1")),
    ("lib", Step::Set("1")),
    ("", Step::Set("1")),
];

// Drives the editor to its end, or to a line that couldn't be printed.
fn drive_lines<R: Print>(
    alloc: Global,
    repo: &Repo,
    report: &Report,
    target: Rev,
    editor: &mut UpdateLines<'_, '_, R>,
) -> Result<DriveEnd> {
    let request = Request::update(target);
    let end = drive_request(alloc, repo, report, &request, editor);
    match editor.unprinted.take() {
        Some(error) => Err(error.into()),
        None => Ok(end?),
    }
}

// Drives the editor, and prints the outcome.
fn finish<R: Print>(
    rt: &R,
    alloc: Global,
    repo: &Repo,
    report: &Report,
    target: Rev,
    applier: Applier<'_>,
) -> Result<()> {
    let mut editor = UpdateLines::new(rt, alloc, applier);
    let end = drive_lines(alloc, repo, report, target, &mut editor);
    let has_changed = editor.has_changed;
    drop(editor);
    match end? {
        DriveEnd::Closed { .. } if has_changed => println!(rt; "Updated to revision {target}.")?,
        DriveEnd::Closed { .. } => println!(rt; "At revision {target}.")?,
        DriveEnd::Cancelled { made } => println!(rt; "Stopped after {made} calls.")?,
    }
    Ok(())
}

// Updates the copy, and prints the outcome.
fn update<R: Print>(
    rt: &R,
    alloc: Global,
    repo: &Repo,
    copy: &mut WorkingCopy,
    target: Rev,
) -> Result<()> {
    println!(rt; "Updating '.':")?;
    let report = copy.crawl_and_learn(alloc)?;
    let applier = Applier::new(alloc, copy)?;
    finish(rt, alloc, repo, &report, target, applier)
}

/// Updates a copy of revision 1, and once more.
pub(crate) fn run<R: Print>(rt: &R, alloc: Global) -> Result<()> {
    let repo = repository(alloc, &[FIRST, SECOND])?;
    let mut copy = WorkingCopy::checkout(alloc, &repo, Rev(1))?;
    update(rt, alloc, &repo, &mut copy, repo.latest())?;
    update(rt, alloc, &repo, &mut copy, repo.latest())?;
    if let Err(path) = copy.check_true(&repo) {
        println!(rt; "untrue: {path}")?;
    }
    Ok(())
}
