//! What keeps a false copy from being put right, and what would be done with one.

use crate::between::{Left, opened};
use crate::copies::{Known, TEXTS};
use crate::mends::{Falsehood, what};
use anyhow::Result;
use std::alloc::Global;
use svn_disk::{Remedy, mend, mend_changes};
use svn_folder::{Entry, Folder, Mode, Step};
use svn_types::{RelPath, Text};

/// What is done on disk before: a path, and a file's text that comes there, a link's target after `>`, or nothing, which makes a directory.
pub(crate) type Edit = (&'static str, &'static str);

/// What is on disk in place of what the copy has there, and in the way.
const EDITS: [Edit; 11] = [
    ("text", "mine\n"),
    ("text", "old text\n"),
    ("d/extra", "mine\n"),
    ("gone/e/f", ">elsewhere"),
    ("gone/e/mine", "mine\n"),
    ("d/missing", "missing\n"),
    ("d/missing", ""),
    ("other/mine", "mine\n"),
    ("kind", ""),
    ("d/same", "mine\n"),
    (".svn/wc.db-journal", "begun\n"),
];

// What comes to a path.
fn entry_of(alloc: Global, text: &str) -> Result<Entry> {
    if text.is_empty() {
        return Ok(Entry::Directory);
    }
    Ok(match text.strip_prefix('>') {
        Some(target) => Entry::Link(Text::from_str(alloc, target)?),
        None => Entry::File(Text::from_str(alloc, text)?, Mode::PLAIN),
    })
}

/// Puts something to a path, in place of a file that is there.
pub(crate) fn put_edit(alloc: Global, folder: &mut Left, edit: &Edit) -> Result<()> {
    let (path, text) = edit;
    let path = RelPath::parse(alloc, path)?;
    if folder.look(alloc, &path)?.is_some() {
        folder.take(Step::RemoveFile(path.clone()?))?;
    }
    folder.take(Step::Make {
        path,
        entry: entry_of(alloc, text)?,
        modified: None,
    })?;
    Ok(())
}

// What the mending says.
fn said(alloc: Global, folder: &mut Left, what: &Remedy<'_>) -> Result<String> {
    let mut source = Known::new(&TEXTS);
    Ok(match mend(alloc, folder, &mut source, what) {
        Ok(changes) => format!(in alloc; "{} paths", changes.len())?,
        Err(fault) => format!(in alloc; "{fault}")?,
    })
}

fn try_edit<R: Print + AllocGlobal>(rt: &R, all: &Falsehood, row: &Edit) -> Result<()> {
    let alloc = rt.alloc();
    let mut folder = opened(alloc, all.between.stopped(alloc, 0)?);
    put_edit(alloc, &mut folder, row)?;
    let before = folder.folder.0.steps().len();
    let said = said(alloc, &mut folder, &what(&all.repo))?;
    let any = if folder.folder.0.steps().len() == before {
        "nothing changed"
    } else {
        "mended"
    };
    println!(rt; "mend beside {}: {said} ({any})", row.0)?;
    Ok(())
}

fn print_said<R: Print + AllocGlobal>(
    rt: &R,
    words: &str,
    folder: &mut Left,
    what: &Remedy<'_>,
) -> Result<()> {
    println!(rt; "{words}: {}", said(rt.alloc(), folder, what)?)?;
    Ok(())
}

// By another repository, and of a copy that is true.
fn try_others<R: Print + AllocGlobal>(rt: &R, all: &Falsehood) -> Result<()> {
    let alloc = rt.alloc();
    let mut folder = opened(alloc, all.between.stopped(alloc, 0)?);
    let other = Remedy {
        uuid: b"another",
        ..what(&all.repo)
    };
    print_said(rt, "mend by another", &mut folder, &other)?;
    print_said(rt, "mend", &mut folder, &what(&all.repo))?;
    print_said(rt, "mend again", &mut folder, &what(&all.repo))
}

// What would be done.
fn try_changes<R: Print + AllocGlobal>(rt: &R, all: &Falsehood) -> Result<()> {
    let alloc = rt.alloc();
    let folder = opened(alloc, all.between.stopped(alloc, 0)?);
    for change in &mend_changes(alloc, &folder, &what(&all.repo))? {
        println!(rt; "would be mended: {}: {:?}", change.path, change.change)?;
    }
    Ok(())
}

/// Tries each edit, another repository and a true copy, and says what would be done.
pub(crate) fn try_mend_refusals<R: Print + AllocGlobal>(rt: &R, all: &Falsehood) -> Result<()> {
    for row in &EDITS {
        try_edit(rt, all, row)?;
    }
    try_others(rt, all)?;
    try_changes(rt, all)
}
