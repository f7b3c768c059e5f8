//! What the lines of a script make: written as a dump, loaded, and printed as trees.

use anyhow::Result;
use std::io;
use std::io::{ErrorKind, Write};
use svn_answers::{Loaded, Writing, write_shown};
use svn_dump::{Limits, Texts};
use svn_history::NoLoadListener;
use svn_repo::Repo;
use svn_types::{RelPath, Rev};

// The fifth and the sixth are refused, the tenth is about a working copy, and the last isn't committed.
const LINES: [&str; 12] = [
    "mkdir d",
    "put d/b two",
    "put d/a %0A",
    "prop d p v",
    "mkdir d",
    "nonsense",
    "commit\r",
    "mkdir d/c",
    "copy 1 d e",
    "checkout 1",
    "commit",
    "put f x",
];

// Revisions and paths: a whole tree, a part, a file, a path where nothing is, and a revision that isn't there.
const SHOWN: [(u64, &str); 5] = [(2, ""), (1, "d"), (2, "e/a"), (1, "e"), (3, "")];

// Takes no byte.
#[derive(Drop)]
struct Full;

impl Write for Full {
    fn write(&mut self, _buf: &[u8]) -> io::Result<usize> {
        Err(io::Error::from(ErrorKind::StorageFull))
    }

    fn flush(&mut self) -> io::Result<()> {
        Ok(())
    }
}

// Does a line, or says why not.
fn do_line<R: Print>(rt: &R, writing: &mut Writing, line: &str, dump: &mut Vec<u8>) -> Result<()> {
    if let Err(fault) = writing.do_line(line.as_bytes(), dump) {
        println!(rt; "{line}: {fault}")?;
    }
    Ok(())
}

// Does the lines, and says how far that came.
fn do_lines<R: Print>(rt: &R, writing: &mut Writing, dump: &mut Vec<u8>) -> Result<()> {
    for line in &LINES {
        do_line(rt, writing, line, dump)?;
    }
    let Rev(latest) = writing.latest();
    let all = writing.written() == dump.len() as u64;
    println!(rt; "r{latest}, all bytes counted: {all}")?;
    Ok(())
}

fn dump_of<R: AllocGlobal + Print>(rt: &R) -> Result<Vec<u8>> {
    let mut dump = Vec::new(rt.alloc());
    let mut writing = Writing::begin(rt.alloc(), &mut dump)?;
    do_lines(rt, &mut writing, &mut dump)?;
    if let Err(fault) = writing.do_line(b"commit", &mut Full) {
        println!(rt; "commit: {fault}")?;
    }
    Ok(dump)
}

fn show<R: AllocGlobal + Print>(rt: &R, repo: &Repo, rev: u64, path: &str) -> Result<()> {
    println!(rt; "r{rev} of {path:?}")?;
    let path = RelPath::parse(rt.alloc(), path)?;
    if let Err(fault) = write_shown(rt.alloc(), repo, Rev(rev), &path, &mut io::writer(rt)) {
        println!(rt; "{fault}")?;
    }
    Ok(())
}

fn show_all<R: AllocGlobal + Print>(rt: &R, repo: &Repo) -> Result<()> {
    for (rev, path) in &SHOWN {
        show(rt, repo, *rev, path)?;
    }
    let root = RelPath::root(rt.alloc());
    if let Err(fault) = write_shown(rt.alloc(), repo, Rev(2), &root, &mut Full) {
        println!(rt; "{fault}")?;
    }
    Ok(())
}

/// Prints what the lines make.
pub(crate) fn run<R: AllocGlobal + Print>(rt: &R) -> Result<()> {
    let dump = dump_of(rt)?;
    match Loaded::load(
        rt.alloc(),
        dump.as_slice(),
        Limits::default(),
        Texts::Whole,
        &mut NoLoadListener,
    ) {
        Ok(loaded) => show_all(rt, &loaded.repo),
        Err(refusal) => Ok(println!(rt; "the dump is refused: {refusal}")?),
    }
}
