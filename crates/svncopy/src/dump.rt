//! A dump: read once for its history, and at the places of those texts that a copy has, so that no text is in memory as a whole. One of deltas is
//! expanded first.

use crate::expansion::{Expansion, may_have_deltas, open_expansion};
use crate::fault::Fault;
use crate::progress::Progress;
use std::alloc::{AllocError, Global};
use std::fs::{File, OpenOptions};
use std::io::{Read, Seek, SeekFrom, Write};
use std::os::unix::fs::OpenOptionsExt;
use std::rt::{Clock, Files};
use std::{fs, io};
use svn_disk::{Source, TextSums};
use svn_dump::{DumpIndex, Limits, Reader, Texts};
use svn_expand::Origins;
use svn_folder::Pieces;
use svn_history::{LoadListener, Loader, last_change};
use svn_repo::Repo;
use svn_types::{PathFault, RelPath, Rev, Sha1Sum, Text};
use svn_wcrows::LastChange;

/// So many bytes of a text are read at once.
const PIECE: u64 = 65536;

/// A dump that is opened twice.
#[derive(Drop)]
pub(crate) struct Dump<R> {
    history: R,
    texts: R,
    // Where its expansion goes, if it has deltas.
    expansion: Option<Expansion<R>>,
}

/// The history of a dump.
#[derive(Drop)]
pub(crate) struct History {
    /// The revisions. A file's text is its stand-in.
    pub(crate) repo: Repo,
    /// The repository's UUID.
    pub(crate) uuid: Text,
    /// Where each text is, who made each revision and when, and the copies.
    index: DumpIndex,
}

/// The texts of a dump, and the last changes of its nodes.
#[derive(Drop)]
pub(crate) struct DumpSource<'a, R> {
    history: &'a History,
    texts: R,
    // How many bytes are left of the text that was begun.
    left: u64,
}

// Opens a file twice.
fn open_twice<T: Files>(rt: &T, path: &str) -> io::Result<Dump<T::File>> {
    Ok(Dump {
        history: File::open(rt, path)?,
        texts: File::open(rt, path)?,
        expansion: None,
    })
}

// Keeps standard input in a file, which has no name once it is opened.
fn keep_input<T: Files + Input + AllocGlobal>(rt: &T, path: &str) -> io::Result<Dump<T::File>> {
    let mut options = OpenOptions::new();
    options.write(true).create_new(true).mode(0o600);
    let mut file = options.open(rt, path)?;
    let done = io::copy(&mut rt.reader(), &mut file);
    let dump = match done {
        Ok(_) => open_twice(rt, path),
        Err(error) => Err(error),
    };
    fs::remove_file(rt, path)?;
    dump
}

// Opens a dump, of whole texts or of deltas.
fn open_given<T: Files + Input + AllocGlobal>(
    rt: &T,
    dump: &str,
    folder: &str,
) -> Result<Dump<T::File>, Fault> {
    if dump != "-" {
        return match open_twice(rt, dump) {
            Ok(dump) => Ok(dump),
            Err(error) => Err(Fault::Unread(error)),
        };
    }
    let path = format!(in rt.alloc(); "{folder}.svncopy-dump")?;
    match keep_input(rt, &path) {
        Ok(dump) => Ok(dump),
        Err(error) => Err(Fault::Kept { path, error }),
    }
}

/// Opens a dump. Standard input is kept in a file beside the folder of the copy, as large as the dump; one of deltas needs another file there, in which
/// each text is whole.
pub(crate) fn open<T: Files + Input + AllocGlobal>(
    rt: &T,
    dump: &str,
    folder: &str,
) -> Result<Dump<T::File>, Fault> {
    let folder = folder.trim_end_matches('/');
    let mut dump = open_given(rt, dump, folder)?;
    if may_have_deltas(&mut dump.texts) {
        dump.expansion = Some(open_expansion(rt, folder)?);
    }
    Ok(dump)
}

// The history that a loader has.
fn history_of<R: Read + Drop>(alloc: Global, loader: Loader<R>) -> Result<History, Fault> {
    let Some(uuid) = loader.uuid() else {
        return Err(Fault::NoUuid);
    };
    let uuid = Text::from_slice(alloc, uuid)?;
    match loader.into_parts() {
        (repo, Some(index)) => Ok(History { repo, uuid, index }),
        // its reader keeps one
        (_, None) => Err(Fault::Memory),
    }
}

// Loads a history from what was opened twice.
fn load_whole<R: Read + Drop, L: LoadListener>(
    alloc: Global,
    input: R,
    origins: Option<&Origins>,
    listener: &mut L,
) -> Result<History, Fault> {
    let reader = match Reader::new(alloc, input, Limits::default(), Texts::Sha1) {
        Ok(reader) => reader.with_index(),
        Err(fault) => return Err(Fault::Front(fault)),
    };
    let Ok(repo) = Repo::new(alloc) else {
        return Err(Fault::Memory);
    };
    let mut loader = Loader::new(alloc, reader, repo);
    if let Err(fault) = loader.load_all_with(listener) {
        let begun = loader.records().begun();
        let byte = match origins {
            Some(origins) => origins.origin_of(begun),
            None => begun,
        };
        return Err(Fault::Dump { byte, fault });
    }
    history_of(alloc, loader)
}

impl<R: Read + Write + Seek + Drop> Dump<R> {
    /// Its history, and the file of its texts.
    pub(crate) fn load<T: Clock + Eprint>(
        self,
        alloc: Global,
        progress: &mut Progress<'_, T>,
    ) -> Result<(History, R), Fault> {
        let Dump {
            history,
            texts,
            expansion,
        } = self;
        let Some(expansion) = expansion else {
            let history = load_whole(alloc, history, None, progress)?;
            return Ok((history, texts));
        };
        drop(texts);
        progress.expanding(true);
        let expanded = expansion.expand(alloc, history, progress)?;
        progress.expanding(false);
        let history = load_whole(alloc, expanded.history, Some(&expanded.origins), progress)?;
        Ok((history, expanded.texts))
    }
}

impl<R: Read + Seek + Drop> DumpSource<'_, R> {
    /// The texts of a history, in the file that it was read from.
    pub(crate) fn new(history: &History, texts: R) -> DumpSource<'_, R> {
        DumpSource {
            history,
            texts,
            left: 0,
        }
    }
}

impl<R: Read + Seek + Drop> Pieces for DumpSource<'_, R> {
    fn next_piece(&mut self, alloc: Global) -> Option<Text> {
        let len = self.left.min(PIECE) as usize;
        let mut piece = vec![in alloc; 0u8; len].ok()?;
        let read = self.texts.read(&mut piece).ok()?;
        if read == 0 {
            return None;
        }
        piece.truncate(read);
        self.left = self.left.saturating_sub(read as u64);
        Some(Text::new(piece))
    }
}

impl<R: Read + Seek + Drop> Source for DumpSource<'_, R> {
    fn begin_text(&mut self, sha1: &Sha1Sum) -> Option<TextSums> {
        let place = self.history.index.text(sha1)?;
        self.left = place.len;
        match self.texts.seek(SeekFrom::Start(place.begin)) {
            Ok(_) => Some(TextSums {
                len: place.len,
                md5: place.md5,
            }),
            Err(_) => None,
        }
    }

    fn last_change(
        &self,
        alloc: Global,
        rev: Rev,
        path: &RelPath,
    ) -> Result<Option<LastChange<'_>>, AllocError> {
        let History { repo, index, .. } = self.history;
        match last_change(alloc, repo, index, rev, path) {
            Ok(Some(change)) => Ok(Some(LastChange {
                rev: change.rev,
                // as a client writes it of a revision without a date
                date: Some(change.date.unwrap_or(0)),
                author: change.author,
            })),
            Ok(None) => Ok(None),
            Err(PathFault::Memory) => Err(AllocError),
            // a dump with a path that is too long isn't loaded
            Err(_) => Ok(None),
        }
    }
}
