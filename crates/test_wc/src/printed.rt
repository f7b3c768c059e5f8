// What a copy has and reports, as a script prints it: with `; ` after each line.
use std::alloc::{AllocError, Global};
use std::test::Fail;
use svn_editor::PathWord;
use svn_model::BaseNode;
use svn_repo::Repo;
use svn_types::RelPath;
use svn_wc::WorkingCopy;

// Printed lines, with `; ` in the place of each line feed.
fn write_lines(out: &mut String, lines: &str) -> Result<(), AllocError> {
    for line in lines.split("\n") {
        if !line.is_empty() {
            write!(out, "{line}; ")?;
        }
    }
    Ok(())
}

// The nodes of a copy.
pub(crate) fn write_nodes(
    alloc: Global,
    out: &mut String,
    copy: &WorkingCopy,
) -> Result<(), AllocError> {
    write_lines(out, format!(in alloc; "{copy}")?.as_str())
}

// What a copy reports: its root's path, where that isn't empty, and the entries.
pub(crate) fn write_crawl(alloc: Global, out: &mut String, copy: &WorkingCopy) -> Result<(), Fail> {
    let report = copy.crawl(alloc)?;
    Ok(write_lines(out, format!(in alloc; "{report}")?.as_str())?)
}

// Whether a copy is true.
pub(crate) fn write_truth(
    out: &mut String,
    copy: &WorkingCopy,
    repo: &Repo,
) -> Result<(), AllocError> {
    match copy.check_true(repo) {
        Ok(()) => out.push_str("true; "),
        Err(path) => write!(out, "untrue at {}; ", PathWord(path)),
    }
}

// How long the text of a file is.
pub(crate) fn write_length(
    out: &mut String,
    copy: &WorkingCopy,
    at: &RelPath,
) -> Result<(), AllocError> {
    match copy.get(at) {
        Some(BaseNode::File { text, .. }) => write!(out, "{} bytes; ", text.len()),
        _ => out.push_str("no file; "),
    }
}
