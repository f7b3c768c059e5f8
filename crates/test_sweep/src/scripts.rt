//! A row as a script: what it prints is the row's, up to the first line that says out of memory.
use crate::rows::Row;
use crate::trouble::Trouble;
use std::alloc::Global;
use std::str;
use std::sync::Wait;
use std::thread::Threads;
use svn_script::{ScriptFault, Settings};
use svn_update::run_script;

// More than any row prints, so that a writer need not grow.
const ROOM: usize = 65_536;

/// Runs in turn, on one thread.
pub(crate) const IN_TURN: Settings = Settings {
    capacity: 64,
    in_turn: true,
};

/// The lines of a row.
pub(crate) fn script_of(alloc: Global, row: &Row) -> Result<String, Trouble> {
    let mut script = String::new(alloc);
    for (line, _) in row.lines {
        script.push_str(line)?;
        script.push('\n')?;
    }
    Ok(script)
}

// Whether a line of output says out of memory.
fn names_memory(output: &str) -> bool {
    let Some((line, _)) = output.split_once('\n') else {
        return false;
    };
    line == "refused Memory"
        || line == "refused NoThread"
        || (line.starts_with("aborted ") && line.ends_with(" Memory"))
}

// What the output of a row is from its first line on that differs.
fn first_other(output: &str, ended: Result<(), ScriptFault>) -> Trouble {
    if names_memory(output) || (output.is_empty() && ended == Err(ScriptFault::Memory)) {
        Trouble::Memory
    } else {
        Trouble::Other("a script prints something else")
    }
}

// What is after all that a row prints, or else from the first line on that differs.
fn behind<'a>(row: &Row, output: &'a str) -> Result<&'a str, &'a str> {
    let mut rest = output;
    for (_, printed) in row.lines {
        match rest.strip_prefix(*printed) {
            Some(after) => rest = after,
            None => return Err(rest),
        }
    }
    Ok(rest)
}

// Whether a script ended as the row does. After a line that says out of memory the others may differ.
fn judge(row: &Row, ended: Result<(), ScriptFault>, output: &str) -> Result<(), Trouble> {
    if ended != Ok(()) && ended != Err(ScriptFault::Memory) {
        return Err(Trouble::Other("a script ends by another fault"));
    }
    match behind(row, output) {
        Ok(rest) if rest.is_empty() && ended.is_ok() => Ok(()),
        Ok(rest) | Err(rest) => Err(first_other(rest, ended)),
    }
}

/// Runs a script, which writes after what is there.
pub(crate) fn run_text<R: Threads + Wait + Sync>(
    rt: &R,
    alloc: Global,
    script: &str,
    output: &mut Vec<u8>,
    settings: &Settings,
) -> Result<(), ScriptFault> {
    let mut reader = script.as_bytes();
    run_script(rt, alloc, &mut reader, output, settings)
}

/// What was written, as a text.
pub(crate) fn printed_by(output: &[u8]) -> &str {
    str::from_utf8(output).unwrap_or("bytes that are no text")
}

/// Runs a row as a script.
pub(crate) fn run_row<R: Threads + Wait + Sync>(
    rt: &R,
    alloc: Global,
    row: &Row,
    settings: &Settings,
) -> Result<(), Trouble> {
    let script = script_of(alloc, row)?;
    let mut output = Vec::with_capacity(alloc, ROOM)?;
    let ended = run_text(rt, alloc, &script, &mut output, settings);
    judge(row, ended, printed_by(&output))
}
