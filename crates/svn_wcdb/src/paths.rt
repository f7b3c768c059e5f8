//! Paths in columns, and those at a folder of the working copy or below.
ghost use Rattle.std.specs.Prelude.{◌≡◌, IfOk};
ghost use Rattle.std.specs.Option.{option_copied};
ghost use Rattle.svn_types.specs.Names.{is_slash};
ghost use Rattle.svn_types.specs.PathTexts.{path_text};
ghost use Rattle.svn_wcdb.specs.Reading.{Gives};
ghost use Rattle.svn_wcdb.specs.Paths.{path_of, goes_below, text_from, place_in, lacks_slash, is_one_name, is_parent};

use crate::fault::{Reason, WcdbFault};
use std::alloc::{AllocError, Global};
use svn_types::{PathBytesFault, PathFault, RelPath, Text};

/// Reads a path, of the working copy or of the repository.
pub(crate) fn read_path(alloc: Global, bytes: &[u8]) -> Result<RelPath, WcdbFault>
    ensures { Gives (λ path. path) result (path_of bytes.now) }
{
    match RelPath::from_bytes(alloc, bytes) {
        Ok(path) => Ok(path),
        Err(PathBytesFault::Path(PathFault::Memory)) => Err(WcdbFault::Memory),
        Err(PathBytesFault::Path(fault)) => Err(WcdbFault::Refused(Reason::BadPath(fault))),
        Err(PathBytesFault::NotUtf8) => Err(WcdbFault::Refused(Reason::NotUtf8)),
    }
}

/// The text of a folder's path, as columns have it: no byte of the root's.
pub(crate) fn folder_text(alloc: Global, folder: &RelPath) -> Result<String, AllocError>
    ensures { IfOk result (λ text. text.bytes.items ≡ path_text folder.now) }
{
    if folder.is_root() {
        Ok(String::new(alloc))
    } else {
        format!(in alloc; "{folder}")
    }
}

// Whether it is a folder, a slash and more.
fn goes_below(folder: &[u8], text: &[u8]) -> bool
    ensures { result ≡ goes_below folder.now text.now }
{
    text.len() > folder.len() + 1 && &text[..folder.len()] == folder && text[folder.len()] == b'/'
}

/// The text of a path from a folder on, where the path is the folder or below it.
#[tactic(auto, unfolding(crate::specs::Paths::text_from))]
pub(crate) fn text_from<'a>(folder: &[u8], text: &'a [u8]) -> Option<&'a [u8]>
    ensures { option_copied result ≡ text_from folder.now text.now }
{
    if folder.is_empty() {
        Some(text)
    } else if text == folder {
        Some(&[])
    } else if goes_below(folder, text) {
        Some(&text[folder.len() + 1..])
    } else {
        None
    }
}

/// The same of a column.
pub(crate) fn place_in<'a>(folder: &[u8], text: Option<&'a [u8]>) -> Option<&'a [u8]>
    ensures { option_copied result ≡ place_in folder.now (option_copied text.entry) }
{
    match text {
        Some(text) => text_from(folder, text),
        None => None,
    }
}

fn is_slash(byte: u8) -> bool
    ensures { result ≡ is_slash byte }
{
    byte == b'/'
}

fn lacks_slash(text: &[u8]) -> bool
    ensures { result ≡ lacks_slash text.now }
{
    text.iter().all(|byte| !is_slash(*byte))
}

fn is_one_name(text: Option<&[u8]>) -> bool
    ensures { result ≡ is_one_name (option_copied text.entry) }
{
    match text {
        Some(text) => !text.is_empty() && lacks_slash(text),
        None => false,
    }
}

/// Whether a column has the path directly above that one; the root has none.
pub(crate) fn is_parent(parent: Option<&[u8]>, text: &[u8]) -> bool
    ensures { result ≡ is_parent (option_copied parent.entry) text.now }
{
    match parent {
        Some(parent) => is_one_name(text_from(parent, text)),
        None => text.is_empty(),
    }
}
