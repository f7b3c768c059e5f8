//! A history, loaded from a dump.

use crate::command_line::{Question, Show};
use crate::fault::Fault;
use crate::progress::Progress;
use std::alloc::Global;
use std::fs;
use std::fs::File;
use std::io::Read;
use std::rt::{Clock, Files};
use svn_answers::{DumpRefusal, Loaded};
use svn_dump::{DumpFault, Limits, Reader, Reason, Texts};
use svn_history::{LoadFault, LoadListener, Loader};
use svn_repo::Repo;
use svn_types::Rev;
use svndiff::{SvndiffFault, WindowFault};

// What to try where texts are kept in another way.
fn advice(fault: LoadFault, texts: Texts) -> &'static str {
    match (fault, texts) {
        (
            LoadFault::Dump(DumpFault::Refused(Reason::TextTooLong(_, _)))
            | LoadFault::Delta(
                SvndiffFault::Window {
                    fault: WindowFault::TooLong,
                    ..
                },
            ),
            Texts::Whole,
        ) => " (try --texts sha1)",
        (LoadFault::Dump(DumpFault::Refused(Reason::NoSha1)), Texts::Sha1) => {
            " (try --texts md5)"
        }
        (LoadFault::Dump(DumpFault::Refused(Reason::NoMd5)), Texts::Md5) => " (try --texts sha1)",
        _ => "",
    }
}

// What a refusal of a dump is to the program.
fn fault_of(alloc: Global, refusal: &DumpRefusal, texts: Texts) -> Fault {
    if refusal.fault == LoadFault::Memory {
        return Fault::Memory;
    }
    let advice = advice(refusal.fault, texts);
    match format!(in alloc; "{refusal}{advice}") {
        Ok(text) => Fault::Dump(text),
        Err(_) => Fault::Memory,
    }
}

// Loads the revisions up to one, or to the end of the dump.
fn load_up_to<T: Clock + Eprint, R: Read + Drop>(
    loader: &mut Loader<R>,
    rev: Rev,
    progress: &mut Progress<'_, T>,
) -> Result<(), LoadFault> {
    for _ in 0..u64::MAX {
        if loader.latest() >= rev {
            return Ok(());
        }
        if loader.next_revision()?.is_none() {
            return Ok(());
        }
        progress.loaded(loader.latest(), loader.records().begun());
    }
    Ok(())
}

// What was loaded, if it has the revision.
fn loaded<R: Read + Drop>(loader: Loader<R>, rev: Option<Rev>) -> Result<Repo, Fault> {
    let last = loader.latest();
    match rev {
        Some(rev) if last < rev => Err(Fault::NoRevision(rev, last)),
        _ => Ok(loader.into_repo()),
    }
}

/// A dump's file, which must be no folder.
pub(crate) fn open_dump<T: Files + AllocGlobal>(rt: &T, name: &str) -> Result<T::File, Fault> {
    match fs::metadata(rt, name) {
        Ok(found) if found.is_dir() => Err(Fault::Folder(name.to_string(rt.alloc())?)),
        _ => match File::open(rt, name) {
            Ok(file) => Ok(file),
            Err(error) => Err(Fault::Unread(error)),
        },
    }
}

fn open<R: Read + Drop>(alloc: Global, input: R, texts: Texts) -> Result<Loader<R>, Fault> {
    let Ok(repo) = Repo::new(alloc) else {
        return Err(Fault::Memory);
    };
    match Reader::new(alloc, input, Limits::default(), texts) {
        Ok(records) => Ok(Loader::new(alloc, records, repo)),
        Err(fault) => {
            let refusal = DumpRefusal::at_front(LoadFault::from(fault));
            Err(fault_of(alloc, &refusal, texts))
        }
    }
}

/// The history of a dump, at least up to the revision to show, which it has; what comes after that isn't read. Without one all is read.
pub(crate) fn load<T: Clock + Eprint, R: Read + Drop>(
    alloc: Global,
    input: R,
    show: &Show<'_>,
    progress: &mut Progress<'_, T>,
) -> Result<Repo, Fault> {
    let mut loader = open(alloc, input, show.texts)?;
    let last = show.rev.unwrap_or(Rev(u64::MAX));
    if load_up_to(&mut loader, last, progress).is_err() {
        return Err(fault_of(alloc, &DumpRefusal::of(alloc, &loader), show.texts));
    }
    progress.end();
    progress.tell_beginning(show.dump, loader.first_revision());
    loaded(loader, show.rev)
}

/// The history of a whole dump.
pub(crate) fn load_whole<T: Clock + Eprint, R: Read + Drop>(
    alloc: Global,
    input: R,
    question: &Question<'_>,
    progress: &mut Progress<'_, T>,
) -> Result<Loaded, Fault> {
    let texts = question.texts;
    match Loaded::load(alloc, input, Limits::default(), texts, progress) {
        Ok(loaded) => {
            progress.end();
            progress.tell_beginning(question.dump, loaded.first);
            Ok(loaded)
        }
        Err(refusal) => Err(fault_of(alloc, &refusal, texts)),
    }
}
