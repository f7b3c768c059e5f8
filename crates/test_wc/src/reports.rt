// The report of a list of entries: `set PATH REV [start_empty]`, `link PATH REPOSPATH REV [start_empty]` and `delete PATH`. An entry
// `root PATH` comes first, where the root isn't that of the repository.
use crate::words::{path, revision, word};
use std::alloc::Global;
use std::test::Fail;
use svn_report::{Report, Reporter};
use svn_types::RelPath;

fn tell_set(reporter: &mut Reporter, at: &RelPath, entry: &str) -> Result<(), Fail> {
    let start_empty = word(entry, 3) == "start_empty";
    Ok(reporter.set_path(at, revision(entry, 2), start_empty)?)
}

fn tell_link(
    alloc: Global,
    reporter: &mut Reporter,
    at: &RelPath,
    entry: &str,
) -> Result<(), Fail> {
    let repos_path = path(alloc, entry, 2)?;
    let start_empty = word(entry, 4) == "start_empty";
    Ok(reporter.link_path(at, repos_path, revision(entry, 3), start_empty)?)
}

// What is said of the root was reported before.
fn tell(alloc: Global, reporter: &mut Reporter, entry: &str) -> Result<(), Fail> {
    let at = path(alloc, entry, 1)?;
    match word(entry, 0) {
        "root" => Ok(()),
        "set" => tell_set(reporter, &at, entry),
        "link" => tell_link(alloc, reporter, &at, entry),
        _ => Ok(reporter.delete_path(&at)?),
    }
}

// A reporter of the root that the first entry names, or of that of the repository.
fn reporter(alloc: Global, entries: &str) -> Result<Reporter, Fail> {
    if let Some(rest) = entries.strip_prefix("root ") {
        let first = rest.split("; ").next().unwrap_or("");
        return Ok(Reporter::new_at(alloc, path(alloc, first, 0)?));
    }
    Ok(Reporter::new(alloc))
}

pub(crate) fn report(alloc: Global, entries: &str) -> Result<Report, Fail> {
    let mut reporter = reporter(alloc, entries)?;
    if entries.is_empty() {
        return Ok(reporter.finish_report());
    }
    for entry in entries.split("; ") {
        tell(alloc, &mut reporter, entry)?;
    }
    Ok(reporter.finish_report())
}
