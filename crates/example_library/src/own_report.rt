//! A report of your own, for a client that has no working copy of this library, and the calls that bring the client to a revision.

use crate::history::{Row, Step, repository};
use anyhow::Result;
use std::alloc::Global;
use yumbeltir::{Recorder, RelPath, Report, Reporter, Request, Rev, check_report, drive_request};

// The history that the client has parts of.
const FIRST: &[Row] = &[
    ("README", Step::Put("read me")),
    ("doc", Step::MakeDir),
    ("doc/guide", Step::Put("a guide")),
    ("lib", Step::MakeDir),
    ("lib/new", Step::MakeDir),
    ("lib/new/y", Step::Put("a")),
    ("lib/old", Step::MakeDir),
    ("lib/old/x", Step::Put("a")),
];

const SECOND: &[Row] = &[
    ("branch", Step::Copy("lib/old")),
    ("lib/new/y", Step::Put("abc")),
];

const THIRD: &[Row] = &[("branch/x", Step::Put("abc"))];

// What a client has at a path that isn't as its parent says: another revision, which may have begun as an empty directory, nothing, or another
// path of a revision.
#[derive(Clone, Copy)]
enum Entry {
    Set(u64, bool),
    Delete,
    Link(&'static str, u64),
}

// A client that checked out revision 1, updated only `lib/new`, switched `lib/old` to a branch, deleted a file, and was stopped in `doc`.
const ENTRIES: &[(&str, Entry)] = &[
    ("", Entry::Set(1, false)),
    ("README", Entry::Delete),
    ("doc", Entry::Set(1, true)),
    ("lib/new", Entry::Set(2, false)),
    ("lib/old", Entry::Link("branch", 2)),
];

fn link(alloc: Global, reporter: &mut Reporter, path: &RelPath, to: &str, rev: Rev) -> Result<()> {
    let to = RelPath::parse(alloc, to)?;
    Ok(reporter.link_path(path, to, rev, false)?)
}

fn add(alloc: Global, reporter: &mut Reporter, path: &RelPath, entry: Entry) -> Result<()> {
    match entry {
        Entry::Set(rev, start_empty) => Ok(reporter.set_path(path, Rev(rev), start_empty)?),
        Entry::Delete => Ok(reporter.delete_path(path)?),
        Entry::Link(to, rev) => link(alloc, reporter, path, to, Rev(rev)),
    }
}

fn report(alloc: Global) -> Result<Report> {
    let mut reporter = Reporter::new(alloc);
    for (path, entry) in ENTRIES {
        add(alloc, &mut reporter, &RelPath::parse(alloc, path)?, *entry)?;
    }
    Ok(reporter.finish_report())
}

/// Prints the report, and the calls of the drive.
pub(crate) fn run<R: Print>(rt: &R, alloc: Global) -> Result<()> {
    let repo = repository(alloc, &[FIRST, SECOND, THIRD])?;
    let report = report(alloc)?;
    print!(rt; "{report}")?;
    if let Err(fault) = check_report(alloc, &repo, &report) {
        return Ok(println!(rt; "{}: {fault}", fault.name())?);
    }
    let mut recorder = Recorder::new(alloc);
    let request = Request::update(repo.latest());
    drive_request(alloc, &repo, &report, &request, &mut recorder)?;
    for call in recorder.calls() {
        println!(rt; "{call}")?;
    }
    Ok(())
}
