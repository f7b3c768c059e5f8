//! `show`: the tree at a path of a revision.

use crate::command_line::Show;
use crate::dump_front::DumpFront;
use crate::fault::Fault;
use crate::load::{load, open_dump};
use crate::output::output_writer;
use crate::progress::Progress;
use std::alloc::Global;
use std::io::Read;
use std::rt::{Clock, Files};
use svn_answers::{ShowFault, write_shown};
use svn_repo::Repo;
use svn_types::{PathFault, RelPath, Rev};

// The path that a word names: slashes at its ends count for nothing.
fn path_of(alloc: Global, word: &str) -> Result<RelPath, Fault> {
    let word = word.trim_matches('/');
    if word == "." {
        return Ok(RelPath::root(alloc));
    }
    match RelPath::parse(alloc, word) {
        Ok(path) => Ok(path),
        Err(PathFault::Memory) => Err(Fault::Memory),
        Err(fault) => Err(Fault::BadPath(fault)),
    }
}

// Prints what a revision has at a path.
fn print_node<T: Print + AllocGlobal>(
    rt: &T,
    repo: &Repo,
    rev: Rev,
    path: RelPath,
) -> Result<(), Fault> {
    match write_shown(rt.alloc(), repo, rev, &path, &mut output_writer(rt)?) {
        Ok(()) => Ok(()),
        Err(ShowFault::Nothing) => Err(Fault::NoNode(rev, path)),
        Err(ShowFault::Write) => Err(Fault::Write),
        Err(ShowFault::Memory) => Err(Fault::Memory),
    }
}

fn show_history<T: Print + Eprint + Clock + AllocGlobal, R: Read + Drop>(
    rt: &T,
    mut input: R,
    show: &Show<'_>,
) -> Result<(), Fault> {
    let path = path_of(rt.alloc(), show.path)?;
    let mut progress = Progress::begin(rt, show.progress);
    let front = DumpFront::read(rt.alloc(), &mut input)?;
    front.refuse_packed()?;
    let repo = load(rt.alloc(), front.bytes().chain(input), show, &mut progress)?;
    let rev = show.rev.unwrap_or(repo.latest());
    print_node(rt, &repo, rev, path)
}

/// Prints the tree at a path of a revision, as a fresh checkout of it.
pub(crate) fn show_dump<T: Files + Input + Print + Eprint + Clock + AllocGlobal>(
    rt: &T,
    show: &Show<'_>,
) -> Result<(), Fault> {
    if show.dump.is_standard() {
        return show_history(rt, rt.reader(), show);
    }
    show_history(rt, open_dump(rt, show.dump.0)?, show)
}
