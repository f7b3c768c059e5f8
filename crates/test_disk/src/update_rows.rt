//! What updates and switches of a copy, and of paths in one, do and print, and what keeps them from it.

use crate::between::{Left, opened};
use crate::mend_refusals::{Edit, put_edit};
use crate::updates::{Advance, Wish, update_in};
use anyhow::Result;
use std::alloc::Global;
use std::sync::Wait;
use std::thread::Threads;
use svn_disk_update::{UpdateFault, Updated};
use svn_types::RelPath;

/// A path in the copy, the path in the repository that it is switched to, nothing of an update, and the revision.
type Row = (&'static str, &'static str, u64);

/// Each begins at the first revision.
const ROWS: [Row; 24] = [
    ("", "", 1),
    ("", "", 2),
    ("", "", 3),
    ("", "", 9),
    ("d", "", 2),
    ("d/extra", "", 2),
    ("d/missing", "", 2),
    ("gone", "", 2),
    ("gone/e", "", 2),
    ("kind", "", 2),
    ("other", "", 2),
    ("other/f", "", 2),
    ("props", "", 2),
    ("text", "", 2),
    ("z", "", 2),
    ("nowhere", "", 2),
    ("nowhere/f", "", 2),
    ("", "branch", 3),
    ("", "branch", 4),
    ("", "branch/d", 4),
    ("", "nowhere", 4),
    ("d", "branch/d", 4),
    ("text", "branch/text", 4),
    ("text", "branch/d", 4),
];

/// What is on disk, and then what an update to the second revision says.
const EDITS: [Edit; 8] = [
    ("text", "mine\n"),
    ("props", "mine\n"),
    ("use", "mine\n"),
    ("d/same", "mine\n"),
    ("d/extra", "mine\n"),
    ("gone/e/mine", "mine\n"),
    ("d/missing", "missing\n"),
    ("other/mine", "mine\n"),
];

fn path_of(alloc: Global, text: &str) -> Result<RelPath> {
    if text.is_empty() {
        return Ok(RelPath::root(alloc));
    }
    Ok(RelPath::parse(alloc, text)?)
}

// The lines, one after the other.
fn lines_of(alloc: Global, updated: &Updated) -> Result<String> {
    let mut text = String::new(alloc);
    for line in &updated.lines {
        text.push_str(", ")?;
        text.push_str(&format!(in alloc; "{line}")?)?;
    }
    Ok(text)
}

// What an update says.
fn said(alloc: Global, done: Result<Updated, UpdateFault>) -> Result<String> {
    Ok(match done {
        Ok(updated) => {
            let lines = lines_of(alloc, &updated)?;
            let paths = updated.changes.len();
            format!(in alloc; "r{}, {paths} paths{lines}", updated.rev.0)?
        }
        Err(fault) => format!(in alloc; "{fault}")?,
    })
}

fn try_row<R: Print + Threads + Wait + Sync + AllocGlobal>(
    rt: &R,
    all: &Advance,
    row: &Row,
) -> Result<()> {
    let alloc = rt.alloc();
    let (path, to, rev) = *row;
    let mut folder = opened(alloc, all.between.stopped(alloc, 0)?);
    let (below, there) = (path_of(alloc, path)?, path_of(alloc, to)?);
    let wish = Wish {
        path: &below,
        to: if to.is_empty() { None } else { Some(&there) },
        rev,
        limit: None,
    };
    let said = said(alloc, update_in(rt, alloc, &mut folder, &all.repo, wish))?;
    println!(rt; "`{path}` to `{to}` r{rev}: {said}")?;
    Ok(())
}

// Updates all of the copy.
fn said_of_all<R: Threads + Wait + Sync>(
    rt: &R,
    alloc: Global,
    all: &Advance,
    folder: &mut Left,
) -> Result<String> {
    let wish = Wish {
        path: &RelPath::root(alloc),
        to: None,
        rev: 2,
        limit: None,
    };
    said(alloc, update_in(rt, alloc, folder, &all.repo, wish))
}

fn try_edit<R: Print + Threads + Wait + Sync + AllocGlobal>(
    rt: &R,
    all: &Advance,
    row: &Edit,
) -> Result<()> {
    let alloc = rt.alloc();
    let mut folder = opened(alloc, all.between.stopped(alloc, 0)?);
    put_edit(alloc, &mut folder, row)?;
    let before = folder.folder.0.steps().len();
    let said = said_of_all(rt, alloc, all, &mut folder)?;
    let any = if folder.folder.0.steps().len() == before {
        "nothing changed"
    } else {
        "updated"
    };
    println!(rt;
        "update beside {}: {} ({any})",
        row.0,
        said.split(", ").next().unwrap_or("")
    )?;
    Ok(())
}

/// Tries each row, and an update beside each edit.
pub(crate) fn try_rows<R: Print + Threads + Wait + Sync + AllocGlobal>(
    rt: &R,
    all: &Advance,
) -> Result<()> {
    for row in &ROWS {
        try_row(rt, all, row)?;
    }
    for row in &EDITS {
        try_edit(rt, all, row)?;
    }
    Ok(())
}
