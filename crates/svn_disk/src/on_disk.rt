//! What is on disk, compared with a copy.
ghost use Rattle.std.specs.Prelude.{◌≡◌, IfOk, MatchOption, ⊤};
ghost use Rattle.svn_folder.specs.States.{seen};
ghost use Rattle.svn_disk.specs.Goes.{IsAlways};
ghost use Rattle.svn_disk.specs.Crashes.{HasBytes};
ghost use Rattle.svn_disk.specs.Spared.{link_text};
ghost use Rattle.svn_disk.specs.Finding.{IsFound, SumsTo, AreReadings};

use crate::fault::DiskFault;
use crate::node_file::{LINK, file_of, is_translated_on_disk, text_of};
use crate::normal::{Keywords, with_line_ends, without_values};
use std::alloc::Global;
use svn_digits::{stand_in, stand_in_of};
use svn_folder::{Entry, Folder, Summary};
use svn_model::BaseNode;
use svn_types::{Props, RelPath, Text};

/// What is at a path on disk.
#[derive(Debug, Drop)]
pub(crate) enum Found {
    /// Nothing.
    Nothing,
    /// A directory.
    Directory,
    /// A file or a link whose text has this stand-in.
    Leaf(Text),
}

// The text of a link as the repository has it.
fn link_text(alloc: Global, target: &Text) -> Result<Vec<u8>, DiskFault>
    ensures { IfOk result (λ text. text.items ≡ link_text target.now) }
{
    let mut text = Vec::from_slice(alloc, LINK)?;
    text.extend_from_slice(target.as_slice())?;
    Ok(text)
}

// What a summary is of.
fn found_of(alloc: Global, summary: &Summary) -> Result<Found, DiskFault>
    ensures { IfOk result (SumsTo summary.now) }
{
    match summary {
        Summary::Directory => Ok(Found::Directory),
        Summary::File { sha1, .. } => Ok(Found::Leaf(stand_in_of(alloc, &sha1.0)?)),
        Summary::Link(target) => Ok(Found::Leaf(stand_in(alloc, &link_text(alloc, target)?)?)),
    }
}

/// What is at a path on disk.
pub(crate) fn find<F: Folder>(alloc: Global, folder: &F, path: &RelPath) -> Result<Found, DiskFault>
    ensures { IfOk result (λ found. IsAlways (λ s. IsFound found (seen s path.now)) (F.past folder.now)) }
{
    match folder.sum(alloc, path)? {
        Some(summary) => found_of(alloc, &summary),
        None => Ok(Found::Nothing),
    }
}

/// The bytes of the file at a path; none where no file is.
pub(crate) fn bytes_at<F: Folder>(
    alloc: Global,
    folder: &F,
    path: &RelPath,
) -> Result<Option<Text>, DiskFault>
    ensures { IfOk result (λ found. MatchOption found ⊤ (λ bytes. IsAlways (λ s. HasBytes bytes (seen s path.now)) (F.past folder.now))) }
{
    let Some(entry) = folder.look(alloc, path)? else {
        return Ok(None);
    };
    match entry {
        Entry::File(bytes, _mode) => Ok(Some(bytes)),
        Entry::Directory => Ok(None),
        Entry::Link(_target) => Ok(None),
    }
}

// Whether a file on disk is another way to write a text, by its properties.
fn is_translated<F: Folder>(
    alloc: Global,
    folder: &F,
    path: &RelPath,
    file: (&Text, &Props),
) -> Result<bool, DiskFault> {
    let (name, props) = file;
    if !is_translated_on_disk(props) {
        return Ok(false);
    }
    let Some(bytes) = bytes_at(alloc, folder, path)? else {
        return Ok(false);
    };
    let text = text_of(alloc, bytes.as_slice(), props)?;
    Ok(stand_in(alloc, &text)? == *name)
}

/// Refuses what is at the path of a file of a copy, if it isn't that file's text, as it is or as its properties have it written: an edit. Changed, Folder,
/// Memory.
pub(crate) fn refuse_edit<F: Folder>(
    alloc: Global,
    folder: &F,
    path: &RelPath,
    node: &BaseNode,
) -> Result<(), DiskFault> {
    let is_own = match (find(alloc, folder, path)?, file_of(node)) {
        (Found::Nothing, _) => true,
        (Found::Leaf(found), Some((text, props))) => {
            found == *text || is_translated(alloc, folder, path, (text, props))?
        }
        _ => false,
    };
    if is_own {
        Ok(())
    } else {
        Err(DiskFault::Changed(path.clone()?))
    }
}

/// The texts that a file on disk may be in the repository, whatever its properties are: without values of keywords, and with each kind of line ends; none of
/// what is no file.
pub(crate) fn readings<F: Folder>(
    alloc: Global,
    folder: &F,
    path: &RelPath,
) -> Result<Vec<Text>, DiskFault>
    ensures { IfOk result (λ texts. IsAlways (λ s. AreReadings texts.items (seen s path.now)) (F.past folder.now)) }
{
    let mut texts = Vec::new(alloc);
    let Some(bytes) = bytes_at(alloc, folder, path)? else {
        return Ok(texts);
    };
    let plain = without_values(alloc, bytes.as_slice(), Keywords::All)?;
    texts.push(stand_in(alloc, &plain)?)?;
    let unix = with_line_ends(alloc, &plain, b"\n")?;
    texts.push(stand_in(alloc, &unix)?)?;
    let others = with_line_ends(alloc, &plain, b"\r\n")?;
    texts.push(stand_in(alloc, &others)?)?;
    Ok(texts)
}
