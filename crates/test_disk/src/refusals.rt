//! What is refused, before anything is changed.

use crate::copies::{Stopping, empty, make};
use crate::stops::stopped;
use anyhow::{Result, bail};
use std::alloc::Global;
use svn_disk::resume;
use svn_folder::{Entry, Folder, MemoryFolder, Mode, Step};
use svn_types::{RelPath, Text};
use svn_wc::WorkingCopy;
use svn_wcdb::read_base_tree;
use svn_wcrows::{Numbers, Work, read_tables, work_rows, write_copy};

/// What is there before, and on the disk: a directory at each of these paths.
const TAKEN: [&str; 5] = [".svn", ".svn-new", "a", "d", "other"];

fn with_directory(alloc: Global, path: &str) -> Result<Stopping> {
    let mut folder = empty(alloc, u64::MAX);
    let path = RelPath::parse(alloc, path)?;
    folder.take(Step::Make {
        path: path.clone()?,
        entry: Entry::Directory,
        modified: None,
    })?;
    folder.take(Step::SyncDirectory(RelPath::root(alloc)))?;
    folder.take(Step::SyncDirectory(path))?;
    Ok(folder)
}

// What a checkout says, and how many steps it took.
fn said(alloc: Global, folder: &mut Stopping, copy: &WorkingCopy) -> Result<String> {
    let before = folder.folder.folder.steps().len();
    let word = match make(alloc, folder, copy) {
        Ok(()) => String::from_str(alloc, "done")?,
        Err(error) => format!(in alloc; "{error}")?,
    };
    let steps = folder.folder.folder.steps().len().saturating_sub(before);
    Ok(format!(in alloc; "{word} ({steps} steps)")?)
}

fn try_taken<R: Print + AllocGlobal>(rt: &R, copy: &WorkingCopy) -> Result<()> {
    for path in TAKEN {
        let mut folder = with_directory(rt.alloc(), path)?;
        let said = said(rt.alloc(), &mut folder, copy)?;
        println!(rt; "beside {path}: {said}")?;
    }
    Ok(())
}

// What a completion says.
fn resumed(alloc: Global, folder: &mut MemoryFolder) -> Result<String> {
    Ok(match resume(alloc, folder, true) {
        Ok(done) => format!(in alloc; "{done:?}")?,
        Err(fault) => format!(in alloc; "{fault}")?,
    })
}

// A copy with work left, and an edited file where its own would come to be.
fn edited(alloc: Global, copy: &WorkingCopy, whole: &MemoryFolder) -> Result<MemoryFolder> {
    let limit = (whole.steps().len() as u64).saturating_sub(4);
    let mut folder = stopped(alloc, copy, limit)?;
    let path = RelPath::parse(alloc, "a")?;
    folder.take(Step::RemoveFile(path.clone()?))?;
    folder.take(Step::Make {
        path,
        entry: Entry::File(Text::from_slice(alloc, b"mine")?, Mode::PLAIN),
        modified: None,
    })?;
    Ok(folder)
}

// A database with the same nodes as this one, and a queue with work that is there twice.
fn twice(alloc: Global, database: &[u8]) -> Result<Vec<u8>> {
    let mut tables = read_tables(alloc, database)?;
    let mut items = Vec::new(alloc);
    for path in ["d/b", "a", "d/b"] {
        items.push(Work::InstallFile(RelPath::parse(alloc, path)?))?;
    }
    tables.work_queue = work_rows(alloc, &items, tables.last_work)?;
    tables.last_work = tables.last_work.saturating_add(items.len() as u64);
    let Ok(tree) = read_base_tree(alloc, database) else {
        bail!("the database is refused")
    };
    Ok(write_copy(alloc, &tables, Numbers::with_work(7), &tree.nodes)?)
}

// A copy with work left that is there twice.
fn repeated(alloc: Global, copy: &WorkingCopy, whole: &MemoryFolder) -> Result<MemoryFolder> {
    let limit = (whole.steps().len() as u64).saturating_sub(4);
    let mut folder = stopped(alloc, copy, limit)?;
    let path = RelPath::parse(alloc, ".svn/wc.db")?;
    let Some(Entry::File(bytes, mode)) = folder.look(alloc, &path)? else {
        bail!("there is no database")
    };
    let image = Text::new(twice(alloc, bytes.as_slice())?);
    folder.take(Step::RemoveFile(path.clone()?))?;
    folder.take(Step::Make {
        path,
        entry: Entry::File(image, mode),
        modified: None,
    })?;
    Ok(folder)
}

/// Tries each refusal.
pub(crate) fn try_refusals<R: Print + AllocGlobal>(
    rt: &R,
    copy: &WorkingCopy,
    whole: &MemoryFolder,
) -> Result<()> {
    try_taken(rt, copy)?;
    let mut nothing = MemoryFolder::new(rt.alloc());
    println!(rt; "resume of nothing: {}", resumed(rt.alloc(), &mut nothing)?)?;
    let mut edited = edited(rt.alloc(), copy, whole)?;
    println!(rt;
        "resume over an edited file: {}",
        resumed(rt.alloc(), &mut edited)?
    )?;
    let mut repeated = repeated(rt.alloc(), copy, whole)?;
    println!(rt;
        "resume of work that is there twice: {}",
        resumed(rt.alloc(), &mut repeated)?
    )?;
    Ok(())
}
