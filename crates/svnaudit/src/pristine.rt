//! The files of pristine texts.

use crate::fault::Fault;
use crate::folder::Folder;
use std::alloc::Global;
use std::fs::File;
use std::io;
use std::io::{ErrorKind, Read};
use std::path::PathBuf;
use std::rt::Files;
use svn_disk_audit::{PristineFault, PristineRefusal};
use svn_types::{RelPath, Text};
use svn_wcdb::pristine_path;

/// The file of a pristine text. No contract knows its bytes, whatever a file of the system may promise.
#[derive(Drop)]
pub(crate) struct PristineFile<F>(F);

impl<F: Read> Read for PristineFile<F> {
    fn read(&mut self, buf: &mut [u8]) -> io::Result<usize> {
        self.0.read(buf)
    }
}

// The file of the text that a stand-in names.
fn file_of(alloc: Global, folder: &Folder, name: &Text) -> Result<Option<PathBuf>, Fault> {
    let Some(name) = pristine_path(alloc, name.as_slice())? else {
        return Ok(None);
    };
    let Ok(name) = str::from_utf8(name.as_slice()) else {
        return Ok(None);
    };
    let name = format!(in alloc; ".svn/pristine/{name}")?;
    Ok(Some(folder.file(alloc, &name)?))
}

fn open_text<T: Files + AllocGlobal>(
    rt: &T,
    folder: &Folder,
    name: &Text,
) -> Result<io::Result<T::File>, Fault> {
    match file_of(rt.alloc(), folder, name)? {
        Some(path) => Ok(File::open(rt, &path)),
        None => Ok(Err(io::Error::new(ErrorKind::InvalidInput, "no SHA-1 checksum"))),
    }
}

/// Opens the pristine text of a file, which a stand-in names.
pub(crate) fn open_pristine<T: Files + AllocGlobal>(
    rt: &T,
    folder: &Folder,
    path: &RelPath,
    name: &Text,
) -> Result<PristineFile<T::File>, Fault> {
    match open_text(rt, folder, name)? {
        Ok(file) => Ok(PristineFile(file)),
        Err(error) => Err(Fault::Pristine(PristineRefusal {
            path: path.clone()?,
            stand_in: name.clone()?,
            fault: PristineFault::Read(error),
        })),
    }
}
