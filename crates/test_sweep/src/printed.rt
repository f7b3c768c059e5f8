//! What the library's values are in lines, as a script prints them.
use crate::trouble::{Trouble, same};
use std::alloc::Global;
use svn_editor::Call;
use svn_wc::WorkingCopy;

/// A copy has what these lines say, or what is otherwise.
pub(crate) fn has(
    alloc: Global,
    copy: &WorkingCopy,
    lines: &str,
    other: &'static str,
) -> Result<(), Trouble> {
    let found = format!(in alloc; "{copy}")?;
    same(&found, lines, other)
}

/// A line for each call.
pub(crate) fn call_lines(alloc: Global, calls: &[Call]) -> Result<String, Trouble> {
    let mut lines = String::new(alloc);
    for call in calls {
        writeln!(lines, "{call}")?;
    }
    Ok(lines)
}
