//! What is served, loaded from a dump.

use crate::command_line::Request;
use crate::fault::Fault;
use crate::revisions::read_revisions;
use std::alloc::Global;
use std::fs::File;
use std::io::Read;
use std::rt::Files;
use svn_drive::DriveOptions;
use svn_dump::{DumpIndex, Limits, Reader, Texts};
use svn_history::Loader;
use svn_replies::{Holds, Served};
use svn_repo::Repo;
use svn_types::Text;

/// What a dump begins with that may have deltas.
const WITH_DELTAS: &[u8] = b"SVN-fs-dump-format-version: 3\n";

/// A dump's history.
#[derive(Drop)]
struct History {
    repo: Repo,
    index: DumpIndex,
    uuid: Text,
}

// What is held of the texts of a dump: whole texts stay where they are; what deltas lead to is in memory.
fn holds_of<R: Read>(input: &mut R) -> Holds {
    let mut front = [0u8; 30];
    match input.read_exact(&mut front) {
        Ok(()) if front.as_slice() == WITH_DELTAS => Holds::Texts,
        // one that is shorter, or that can't be read, is refused when it is loaded
        _ => Holds::StandIns,
    }
}

// What a reader keeps then.
fn texts_of(holds: Holds) -> Texts {
    match holds {
        Holds::Texts => Texts::Whole,
        Holds::StandIns => Texts::Sha1,
    }
}

// The history of a dump, if all of it can be loaded.
fn load_history<R: Read + Drop>(alloc: Global, input: R, holds: Holds) -> Result<History, Fault> {
    let reader = match Reader::new(alloc, input, Limits::default(), texts_of(holds)) {
        Ok(reader) => reader.with_index(),
        Err(fault) => return Err(Fault::Front(fault)),
    };
    let Ok(repo) = Repo::new(alloc) else {
        return Err(Fault::Memory);
    };
    let mut loader = Loader::new(alloc, reader, repo);
    if let Err(fault) = loader.load_all() {
        let byte = loader.records().begun();
        return Err(Fault::Dump { byte, fault });
    }
    let Some(uuid) = loader.uuid() else {
        return Err(Fault::NoUuid);
    };
    let uuid = Text::from_slice(alloc, uuid)?;
    match loader.into_parts() {
        (repo, Some(index)) => Ok(History { repo, index, uuid }),
        // its reader keeps one
        (_, None) => Err(Fault::Memory),
    }
}

fn open<T: Files>(rt: &T, path: &str) -> Result<T::File, Fault> {
    match File::open(rt, path) {
        Ok(file) => Ok(file),
        Err(error) => Err(Fault::Unread(error)),
    }
}

// The path of the repository in URLs, with a slash before each name.
fn root_of(alloc: Global, path: &str) -> Result<Text, Fault> {
    let names = path.trim_matches('/');
    if names.is_empty() {
        return Ok(Text::new(Vec::new(alloc)));
    }
    let mut root = Vec::new(alloc);
    root.push(b'/')?;
    root.extend_from_slice(names.as_bytes())?;
    Ok(Text::new(root))
}

/// Loads what is served, and opens the file that its texts are in.
pub(crate) fn load<T: Files + AllocGlobal>(
    rt: &T,
    request: &Request<'_>,
) -> Result<(Served, T::File), Fault> {
    let mut texts = open(rt, request.dump)?;
    let served = load_from(rt, request, holds_of(&mut texts))?;
    Ok((served, texts))
}

fn load_from<T: Files + AllocGlobal>(
    rt: &T,
    request: &Request<'_>,
    holds: Holds,
) -> Result<Served, Fault> {
    let alloc = rt.alloc();
    let History { repo, index, uuid } = load_history(alloc, open(rt, request.dump)?, holds)?;
    let (revisions, changes) = read_revisions(alloc, open(rt, request.dump)?, repo.latest())?;
    Ok(Served {
        repo,
        index,
        holds,
        revisions,
        changes,
        uuid,
        root: root_of(alloc, request.root)?,
        options: DriveOptions {
            cancel_after: request.cancel_after,
            late_texts: request.late_texts,
        },
    })
}
