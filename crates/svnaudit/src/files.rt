//! `check --files`: whether the files of a working copy have the bytes of their pristine texts.

use crate::fault::Fault;
use crate::folder::Folder;
use crate::pristine::open_pristine;
use std::alloc::Global;
use std::fs::File;
use std::io;
use std::io::Write;
use std::rt::Files;
use svn_answers::{BusyFault, FileComparison, Source, Verdict, is_translated};
use svn_editor::PathWord;
use svn_model::BaseNode;
use svn_types::{RelPath, Text};
use svn_wcdb::{BaseTree, Takes, read_tree};

const OTHER_BYTES: &str = "the file has other bytes than its pristine text";

/// How many files were compared, how many of these differ, and how many weren't compared.
#[derive(Clone, Copy)]
struct Tally {
    compared: u64,
    changed: u64,
    passed_over: u64,
}

// Why a file or its pristine text can't be read.
fn unread(alloc: Global, error: &io::Error) -> Result<Option<String>, Fault> {
    Ok(Some(format!(in alloc; "{error}")?))
}

/// The files of one working copy.
#[derive(Drop)]
struct Working<'a, T> {
    rt: &'a T,
    folder: &'a Folder,
}

impl<T: Files + AllocGlobal> Working<'_, T> {
    // Opens the file at a path of the folder.
    fn open(&self, path: &RelPath) -> Result<io::Result<T::File>, Fault> {
        let alloc = self.rt.alloc();
        let path = format!(in alloc; "{path}")?;
        let file = self.folder.working_file(alloc, &path)?;
        Ok(File::open(self.rt, &file))
    }

    // Why a file hasn't the bytes of its pristine text.
    fn difference(
        &self,
        comparison: &mut FileComparison,
        path: &RelPath,
        name: &Text,
    ) -> Result<Option<String>, Fault> {
        let alloc = self.rt.alloc();
        let mut file = match self.open(path)? {
            Ok(file) => file,
            Err(error) => return unread(alloc, &error),
        };
        let mut pristine = open_pristine(self.rt, self.folder, path, name)?;
        match comparison.have_same_bytes(&mut file, &mut pristine) {
            Ok(true) => Ok(None),
            Ok(false) => Ok(Some(OTHER_BYTES.to_string(alloc)?)),
            Err(error) => unread(alloc, &error),
        }
    }
}

fn write_changed<W: Write>(
    name: &str,
    path: &RelPath,
    why: &str,
    output: &mut W,
) -> Result<(), Fault> {
    let (name, path) = (Source(name), PathWord(path));
    match writeln!(output, "{name}: changed: {path}: {why}") {
        Ok(()) => Ok(()),
        Err(_) => Err(Fault::Write),
    }
}

impl Tally {
    fn none() -> Tally {
        Tally {
            compared: 0,
            changed: 0,
            passed_over: 0,
        }
    }

    fn pass_over(&mut self) {
        self.passed_over = self.passed_over.saturating_add(1);
    }

    fn compare(&mut self, is_changed: bool) {
        self.compared = self.compared.saturating_add(1);
        if is_changed {
            self.changed = self.changed.saturating_add(1);
        }
    }

    fn verdict(&self) -> Verdict {
        if self.changed == 0 {
            Verdict::True
        } else {
            Verdict::Untrue
        }
    }
}

// Compares the files of nodes, and prints each that differs.
fn compare_files<T: Files + AllocGlobal, W: Write>(
    working: &Working<'_, T>,
    name: &str,
    nodes: &[(RelPath, BaseNode)],
    output: &mut W,
) -> Result<Tally, Fault> {
    let mut tally = Tally::none();
    let mut comparison = FileComparison::new(working.rt.alloc())?;
    for (path, node) in nodes {
        let BaseNode::File { text, props, .. } = node else {
            continue;
        };
        if is_translated(props) {
            tally.pass_over();
            continue;
        }
        let difference = working.difference(&mut comparison, path, text)?;
        tally.compare(difference.is_some());
        if let Some(why) = difference {
            write_changed(name, path, &why, output)?;
        }
    }
    Ok(tally)
}

// Writes how many files were compared.
fn write_tally<W: Write>(name: &str, tally: &Tally, output: &mut W) -> Result<(), Fault> {
    let (name, compared, passed_over) = (Source(name), tally.compared, tally.passed_over);
    let written = writeln!(
        output,
        "{name}: {compared} files compared, {passed_over} files not compared"
    );
    if written.is_err() || output.flush().is_err() {
        return Err(Fault::Write);
    }
    Ok(())
}

// The nodes of a database, which was read before without a refusal.
fn nodes_of<T: Files + AllocGlobal>(rt: &T, folder: &Folder) -> Result<BaseTree, Fault> {
    let database = folder.database(rt.alloc())?.read(rt)?;
    match read_tree(rt.alloc(), Takes::Sparse, folder.below(), &database) {
        Ok(read) => Ok(read.tree),
        Err(_) => Err(Fault::Busy(BusyFault::InUse)),
    }
}

/// Compares the files of the copy that a word names with their pristine texts: prints a line for each that differs, and how many were compared. The
/// verdict is Untrue where one differs, also where the client knows that it was changed.
pub(crate) fn check_files<T: Files + AllocGlobal, W: Write>(
    rt: &T,
    name: &str,
    output: &mut W,
) -> Result<Verdict, Fault> {
    let folder = Folder::find(rt, name)?;
    let tree = nodes_of(rt, &folder)?;
    let working = Working {
        rt,
        folder: &folder,
    };
    let tally = compare_files(&working, name, &tree.nodes, output)?;
    write_tally(name, &tally, output)?;
    Ok(tally.verdict())
}
