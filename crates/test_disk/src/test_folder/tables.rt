//! The steps that are tried.

use std::alloc::Global;
use std::fmt;
use svn_folder::{Entry, FolderFault, Mode, Step};
use svn_types::{Name, RelPath, Text};

/// A step by its words.
#[derive(Clone, Copy)]
pub(crate) enum Act {
    Directory(&'static str),
    File(&'static str, &'static str),
    Program(&'static str, &'static str),
    Fixed(&'static str, &'static str),
    Link(&'static str, &'static str),
    SyncFile(&'static str),
    SyncDirectory(&'static str),
    Rename(&'static str, &'static str),
    RenameDirectory(&'static str, &'static str),
    RemoveFile(&'static str),
    RemoveDirectory(&'static str),
}

static ACTS: [Act; 35] = [
    Act::Directory("a"),
    Act::Directory("a"),
    Act::Directory("b/c"),
    Act::File("a/f", "old"),
    Act::File("a/f", "again"),
    Act::Program("a/run", "#!"),
    Act::Fixed("a/fixed", "text"),
    Act::Link("l", "a/f"),
    Act::Link("a/f/l", "x"),
    Act::SyncFile("a/f"),
    Act::SyncFile("a"),
    Act::SyncFile("b"),
    Act::SyncDirectory(""),
    Act::SyncDirectory("a"),
    Act::SyncDirectory("a/f"),
    Act::File("new", "new"),
    Act::Rename("new", "a/f"),
    Act::Rename("new", "a/f"),
    Act::Rename("a", "b"),
    Act::Rename("l", "a"),
    Act::Rename("l", "b/l"),
    Act::Rename("l", "a/l"),
    Act::RenameDirectory("f", "b"),
    Act::RenameDirectory("a", "b"),
    Act::RenameDirectory("a", "c"),
    Act::File("d", ""),
    Act::RenameDirectory("b", "d"),
    Act::RenameDirectory("d", "e"),
    Act::RemoveDirectory("b"),
    Act::RemoveFile("b"),
    Act::RemoveFile("b/f"),
    Act::RemoveFile("b/l"),
    Act::RemoveFile("b/run"),
    Act::RemoveFile("b/fixed"),
    Act::RemoveDirectory("b"),
];

/// Each step, taken and refused in each way.
pub(crate) fn acts() -> &'static [Act] {
    &ACTS
}

static PATHS: [&str; 13] = [
    "", "a", "a/f", "a/run", "a/fixed", "a/l", "l", "new", "b", "b/f", "b/fixed", "b/l", "d",
];

/// The paths that are looked at after each step.
pub(crate) fn paths() -> &'static [&'static str] {
    &PATHS
}

static REPLACED: [Act; 6] = [
    Act::File("f", "old"),
    Act::SyncFile("f"),
    Act::File("t", "new"),
    Act::SyncFile("t"),
    Act::Rename("t", "f"),
    Act::SyncDirectory(""),
];

/// A new text of a file: it is written beside the old one, and takes its place.
pub(crate) fn replaced() -> &'static [Act] {
    &REPLACED
}

static CARELESS: [Act; 5] = [
    Act::File("f", "old"),
    Act::SyncFile("f"),
    Act::SyncDirectory(""),
    Act::File("t", "new"),
    Act::Rename("t", "f"),
];

/// The same without a sync of the new text.
pub(crate) fn careless() -> &'static [Act] {
    &CARELESS
}

static MOVED: [Act; 5] = [
    Act::Directory("t"),
    Act::File("t/x", "text"),
    Act::SyncDirectory("t"),
    Act::RenameDirectory("t", "f"),
    Act::RemoveFile("f/x"),
];

/// A directory that is made under another name, without a sync of what is in it.
pub(crate) fn moved() -> &'static [Act] {
    &MOVED
}

static SYNCED: [Act; 21] = [
    Act::Directory("a"),
    Act::File("a/f", "text"),
    Act::SyncFile("a/f"),
    Act::SyncDirectory("a"),
    Act::SyncDirectory(""),
    Act::SyncDirectory("a"),
    Act::RenameDirectory("a", "b"),
    Act::Link("b/l", "f"),
    Act::Rename("b/l", "l"),
    Act::SyncDirectory("b"),
    Act::SyncDirectory(""),
    Act::SyncDirectory("b"),
    Act::File("g", "new"),
    Act::Rename("g", "b/f"),
    Act::SyncDirectory(""),
    Act::SyncDirectory("b"),
    Act::SyncFile("b/f"),
    Act::RemoveFile("b/f"),
    Act::RemoveDirectory("b"),
    Act::SyncDirectory(""),
    Act::Directory("l"),
];

/// Names and bytes that are synced, some too early, and a directory that is renamed once all is on the disk, and before.
pub(crate) fn synced() -> &'static [Act] {
    &SYNCED
}

static LOST: [Act; 5] = [
    Act::Directory("t"),
    Act::SyncDirectory("t"),
    Act::RenameDirectory("t", "f"),
    Act::SyncDirectory("f"),
    Act::SyncDirectory(""),
];

/// A directory is renamed before what is in it is on the disk.
pub(crate) fn lost() -> &'static [Act] {
    &LOST
}

/// What takes no step, one, or several.
#[derive(Clone, Copy)]
pub(crate) enum Deed {
    Step(Act),
    Pieces(&'static str, &'static str),
    Copy(&'static str, &'static str),
    Sync(&'static [&'static str]),
}

/// In words, with its paths.
impl fmt::Display for Deed {
    fn fmt<W: fmt::Write>(&self, f: &mut fmt::Formatter<W>) -> fmt::Result {
        match self {
            Deed::Step(_) => f.write_str("a step"),
            Deed::Pieces(path, _) => write!(f, "write {path}"),
            Deed::Copy(from, to) => write!(f, "copy {from} to {to}"),
            Deed::Sync(paths) => write!(f, "sync {} files", paths.len()),
        }
    }
}

static DEEDS: [Deed; 14] = [
    Deed::Step(Act::Directory("a")),
    Deed::Pieces("a/f", "a text in pieces"),
    Deed::Pieces("a/f", "again"),
    Deed::Pieces("new", ""),
    Deed::Step(Act::Link("l", "a/f")),
    Deed::Copy("a/f", "b"),
    Deed::Copy("new", "a/l"),
    Deed::Copy("a/f", "b"),
    Deed::Copy("a", "d"),
    Deed::Copy("l", "d"),
    Deed::Sync(&[]),
    Deed::Sync(&["a/f", "b", "a/l", "new"]),
    Deed::Sync(&["a/f", "l", "new"]),
    Deed::Step(Act::File("d", "")),
];

/// Files in pieces, copies and syncs, done and refused in each way.
pub(crate) fn deeds() -> &'static [Deed] {
    &DEEDS
}

static UNSYNCED: [Deed; 6] = [
    Deed::Step(Act::Directory("a")),
    Deed::Step(Act::Directory("a/b")),
    Deed::Pieces("a/b/f", "a text"),
    Deed::Copy("a/b/f", "a/g"),
    Deed::Step(Act::Rename("a/g", "g")),
    Deed::Step(Act::Link("a/b/l", "f")),
];

/// Files and directories that aren't on the disk.
pub(crate) fn unsynced() -> &'static [Deed] {
    &UNSYNCED
}

static REFUSED: [Deed; 2] = [Deed::Pieces("f", "text"), Deed::Copy("g", "h")];

/// A copy that is refused, so that the file that it would have made isn't there.
pub(crate) fn refused() -> &'static [Deed] {
    &REFUSED
}

static RENAMED: [Deed; 2] = [
    Deed::Step(Act::Directory("a")),
    Deed::Step(Act::RenameDirectory("a", "b")),
];

/// A directory is renamed before all is on the disk.
pub(crate) fn renamed() -> &'static [Deed] {
    &RENAMED
}

/// So many files are made.
pub(crate) const MANY: u64 = 40;

fn make(path: RelPath, entry: Entry) -> Step {
    Step::Make {
        path,
        entry,
        modified: Some(1_700_000_000_000_000),
    }
}

fn file(alloc: Global, path: RelPath, text: &str, mode: Mode) -> Result<Step, FolderFault> {
    let text = Text::from_str(alloc, text)?;
    Ok(make(path, Entry::File(text, mode)))
}

fn link(alloc: Global, path: RelPath, target: &str) -> Result<Step, FolderFault> {
    let target = Text::from_str(alloc, target)?;
    Ok(make(path, Entry::Link(target)))
}

fn rename(alloc: Global, from: RelPath, to: &str) -> Result<Step, FolderFault> {
    let to = RelPath::parse(alloc, to)?;
    Ok(Step::Rename { from, to })
}

fn rename_directory(alloc: Global, from: &str, to: &str) -> Result<Step, FolderFault> {
    let from = Name::parse(alloc, from)?;
    let to = Name::parse(alloc, to)?;
    Ok(Step::RenameDirectory { from, to })
}

// The step that a path is all of.
fn step_at(path: RelPath, act: Act) -> Step {
    match act {
        Act::SyncFile(_) => Step::SyncFile(path),
        Act::SyncDirectory(_) => Step::SyncDirectory(path),
        Act::RemoveFile(_) => Step::RemoveFile(path),
        Act::RemoveDirectory(_) => Step::RemoveDirectory(path),
        _ => make(path, Entry::Directory),
    }
}

// The step at a path.
fn step_with(alloc: Global, path: RelPath, act: Act) -> Result<Step, FolderFault> {
    match act {
        Act::File(_, text) => file(alloc, path, text, Mode::PLAIN),
        Act::Program(_, text) => file(alloc, path, text, PROGRAM),
        Act::Fixed(_, text) => file(alloc, path, text, FIXED),
        Act::Link(_, target) => link(alloc, path, target),
        Act::Rename(_, to) => rename(alloc, path, to),
        _ => Ok(step_at(path, act)),
    }
}

// The path that comes first in a step.
fn path_of(act: Act) -> &'static str {
    match act {
        Act::Directory(path) | Act::SyncFile(path) | Act::SyncDirectory(path) => path,
        Act::RemoveFile(path) | Act::RemoveDirectory(path) => path,
        Act::File(path, _) | Act::Program(path, _) | Act::Fixed(path, _) => path,
        Act::Link(path, _) | Act::Rename(path, _) | Act::RenameDirectory(path, _) => path,
    }
}

/// The step.
pub(crate) fn step_of(alloc: Global, act: Act) -> Result<Step, FolderFault> {
    if let Act::RenameDirectory(from, to) = act {
        return rename_directory(alloc, from, to);
    }
    step_with(alloc, RelPath::parse(alloc, path_of(act))?, act)
}

const PROGRAM: Mode = Mode {
    executable: true,
    read_only: false,
};

const FIXED: Mode = Mode {
    executable: false,
    read_only: true,
};
