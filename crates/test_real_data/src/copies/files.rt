//! Histories and copies from files.

use anyhow::{Result, bail};
use std::fs;
use std::rt::Files;
use svn_audit::copy_below;
use svn_dump::{Limits, Reader, Texts};
use svn_history::Loader;
use svn_repo::Repo;
use svn_types::RelPath;
use svn_wc::WorkingCopy;
use svn_wcdb::read_base_tree;

/// The bytes of a file.
pub(crate) fn file_of<R: Files + AllocGlobal>(
    rt: &R,
    folder: &str,
    name: &str,
    ending: &str,
) -> Result<Vec<u8>> {
    let path = format!(in rt.alloc(); "{folder}/{name}.{ending}")?;
    Ok(fs::read(rt, path)?)
}

/// The history of a dump.
pub(crate) fn history_of<R: Files + AllocGlobal>(rt: &R, name: &str, texts: Texts) -> Result<Repo> {
    let alloc = rt.alloc();
    let file = fs::File::open(rt, name)?;
    let records = Reader::new(alloc, file, Limits::default(), texts)?;
    let mut loader = Loader::new(alloc, records, Repo::new(alloc)?);
    loader.load_all()?;
    Ok(loader.into_repo())
}

/// The working copy of a database.
pub(crate) fn copy_in<R: Files + AllocGlobal>(rt: &R, name: &str) -> Result<WorkingCopy> {
    let alloc = rt.alloc();
    let bytes = fs::read(rt, name)?;
    match read_base_tree(alloc, &bytes) {
        Ok(tree) => Ok(copy_below(alloc, &RelPath::root(alloc), tree.nodes)?),
        Err(refusal) => {
            let fault = refusal.fault;
            bail!("{name}: {fault}")
        }
    }
}
