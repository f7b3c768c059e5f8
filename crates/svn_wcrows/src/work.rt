//! What is left to do on disk: items of the work queue in the clients' notation (`workqueue.c`), so that `svn cleanup` does it too.
ghost use Rattle.std.specs.Prelude.{◌≡◌, ◌+◌, ◌∷◌, ◌≤◌, ◌^◌, [], All, length, map, Some, IfOk, IfErr, MatchResult, Err, option_map};
ghost use Rattle.std.specs.List.{range_with_len};
ghost use Rattle.std.specs.Option.{option_copied};
ghost use Rattle.sqlite_record.specs.Record.{decode};
ghost use Rattle.sqlite_value.specs.declared.value.Value.TheVariants as stored;
ghost use Rattle.law_dump.specs.Laws.{IsPath};
ghost use Rattle.svn_wcdb.specs.Locks.{path_or_none};
ghost use Rattle.svn_wcdb.specs.Paths.{path_of};
ghost use Rattle.svn_wcrows.specs.declared.fault.RowsFault.TheVariants as faults;
ghost use Rattle.svn_wcrows.specs.Work.{word_of, place_of, flags_of, work_bytes, list_in, AreItems, AreRead, IsItemOf};
ghost use Rattle.svn_wcrows.specs.Faults.{IsOfImage};
ghost use Rattle.svn_wcrows.specs.WorkAtoms.{split_space, first_bytes, sized, atom_after, item_named, if_same, item_at, item_of_atoms, item_in};

use crate::fault::RowsFault;
use crate::lawful::path_is_lawful;
use crate::paths::path_column;
use crate::skel::push_atom;
use crate::values::bytes_at;
use sqlite_value::value::ValueRef;
use std::alloc::{AllocError, Global};
use svn_digits::read_number;
use svn_image::record;
use svn_types::{PathBytesFault, PathFault, RelPath, Text, split_once};
use svn_wcdb::TableRow;

/// One thing that is left to do on disk. Each may be done twice.
#[derive(Debug, PartialEq, Eq, Drop)]
pub enum Work {
    /// Makes a directory, if none is there.
    MakeDirectory(RelPath),
    /// Puts a file there as the copy has it: its pristine text, in its mode. Its size and time are recorded.
    InstallFile(RelPath),
    /// Removes a file, if one is there.
    RemoveFile(RelPath),
    /// Removes a directory, if one is there and nothing is in it.
    RemoveDirectory(RelPath),
}

impl Work {
    /// The path that it is about.
    pub fn path(&self) -> &RelPath
        ensures { result.now ≡ place_of self.now }
    {
        match self {
            Work::MakeDirectory(path)
            | Work::InstallFile(path)
            | Work::RemoveFile(path)
            | Work::RemoveDirectory(path) => path,
        }
    }

    fn word(&self) -> &'static [u8]
        ensures { result.now ≡ word_of self.now }
    {
        match self {
            Work::MakeDirectory(_) => b"dir-install",
            Work::InstallFile(_) => b"file-install",
            Work::RemoveFile(_) => b"file-remove",
            Work::RemoveDirectory(_) => b"dir-remove",
        }
    }

    // What comes after the path: of a file that is put there, that commit times aren't used and that its size and time are recorded.
    fn flags(&self) -> &'static [u8]
        ensures { result.now ≡ flags_of self.now }
    {
        match self {
            Work::InstallFile(_) => b" 1 0 1 1",
            Work::MakeDirectory(_) | Work::RemoveFile(_) | Work::RemoveDirectory(_) => b"",
        }
    }
}

/// The path of each item is lawful, since its type keeps it so.
pub fn work_is_lawful(items: &[Work])
    ensures { All (λ work. IsPath (place_of work)) items.now }
{
    for work in items {
        path_is_lawful(work.path());
    }
}

// The item as a list: a word, the path and what comes after it.
#[tactic(auto, unfolding(crate::specs::Work::work_bytes))]
fn list_of(alloc: Global, work: &Work) -> Result<Vec<u8>, AllocError>
    ensures { IfOk result (λ list. list.items ≡ work_bytes work.now) }
{
    let path = path_column(alloc, work.path())?;
    let mut list = Vec::new(alloc);
    list.push(b'(')?;
    push_atom(&mut list, work.word())?;
    push_atom(&mut list, path.as_bytes())?;
    list.extend_from_slice(work.flags())?;
    list.push(b')')?;
    Ok(list)
}

// The record of a row of WORK_QUEUE, whose number isn't in it.
fn work_record(alloc: Global, work: &Work) -> Result<Text, RowsFault>
    ensures record { IfOk result (λ bytes. decode bytes ≡ stored.Null ∷ stored.Blob (work_bytes work.now) ∷ []) }
    ensures refused { IfErr result IsOfImage }
{
    let list = list_of(alloc, work)?;
    Ok(record(alloc, &[ValueRef::Null, ValueRef::Blob(&list)])?)
}

/// The rows of WORK_QUEUE for these items in their order, numbered after the last that was there. TooLarge, Image, Memory.
pub fn work_rows(alloc: Global, items: &[Work], last: u64) -> Result<Vec<TableRow>, RowsFault>
    ensures items { IfOk result (λ rows. AreItems rows.items items.now) }
    ensures numbers { IfOk result (λ rows. map (λ row. row.rowid) rows.items ≡ range_with_len (last + 1) (length items.now)) }
    ensures too_large { result ≡ Err faults.TooLarge → 2 ^ 64 ≤ last + length items.now }
{
    let mut rows = Vec::new(alloc);
    let mut number = last;
    for work in items {
        let Some(next) = number.checked_add(1) else {
            return Err(RowsFault::TooLarge);
        };
        number = next;
        let bytes = work_record(alloc, work)?;
        rows.push(TableRow {
            rowid: number,
            bytes,
        })?;
    }
    Ok(rows)
}

// What is before the first space of a list, and what is after it.
#[tactic(auto, unfolding(crate::specs::WorkAtoms::split_space))]
fn split_space(list: &[u8]) -> Option<(&[u8], &[u8])>
    ensures { option_map (λ parts. (parts.0.now, parts.1.now)) result ≡ split_space list.now }
{
    split_once(list, b' ')
}

// Digits, and as many bytes as they say.
fn sized<'a>(digits: &[u8], rest: &'a [u8]) -> Option<(&'a [u8], &'a [u8])>
    ensures { option_map (λ parts. (parts.0.now, parts.1.now)) result ≡ sized (digits.now, rest.now) }
{
    let len = usize::try_from(read_number(digits)?).ok()?;
    if len <= rest.len() {
        Some(rest.split_at(len))
    } else {
        None
    }
}

// The atom that a list goes on with, after a space, and what is after it.
#[tactic(auto, unfolding(crate::specs::WorkAtoms::atom_after))]
fn atom_after(list: &[u8]) -> Option<(&[u8], &[u8])>
    ensures { option_map (λ parts. (parts.0.now, parts.1.now)) result ≡ atom_after list.now }
{
    let (_, rest) = split_space(list)?;
    let (digits, rest) = split_space(rest)?;
    sized(digits, rest)
}

fn item_named(word: &[u8], path: RelPath) -> Option<Work>
    ensures { result ≡ item_named word.now path }
{
    if word == b"dir-install".as_slice() {
        Some(Work::MakeDirectory(path))
    } else if word == b"file-install".as_slice() {
        Some(Work::InstallFile(path))
    } else if word == b"file-remove".as_slice() {
        Some(Work::RemoveFile(path))
    } else if word == b"dir-remove".as_slice() {
        Some(Work::RemoveDirectory(path))
    } else {
        None
    }
}

// The item, if the list is the one that this crate writes of it.
fn if_same(alloc: Global, list: &[u8], work: Work) -> Result<Option<Work>, RowsFault>
    ensures { MatchResult result (λ found. found ≡ if_same list.now work) (λ e. e ≡ faults.Memory) }
{
    let again = list_of(alloc, &work)?;
    if again.as_slice() == list {
        Ok(Some(work))
    } else {
        Ok(None)
    }
}

fn item_at(
    alloc: Global,
    list: &[u8],
    word: &[u8],
    path: RelPath,
) -> Result<Option<Work>, RowsFault>
    ensures { MatchResult result (λ found. found ≡ item_at list.now word.now path) (λ e. e ≡ faults.Memory) }
{
    match item_named(word, path) {
        Some(work) => if_same(alloc, list, work),
        None => Ok(None),
    }
}

// The path that a text spells, if it is one.
fn path_in(alloc: Global, text: &[u8]) -> Result<Option<RelPath>, RowsFault>
    ensures { MatchResult result (λ found. found ≡ path_or_none (path_of text.now)) (λ e. e ≡ faults.Memory) }
{
    match RelPath::from_bytes(alloc, text) {
        Ok(path) => Ok(Some(path)),
        Err(PathBytesFault::Path(PathFault::Memory)) => Err(RowsFault::Memory),
        Err(PathBytesFault::Path(_)) => Ok(None),
        Err(PathBytesFault::NotUtf8) => Ok(None),
    }
}

fn item_of_atoms(
    alloc: Global,
    list: &[u8],
    word: &[u8],
    text: &[u8],
) -> Result<Option<Work>, RowsFault>
    ensures { MatchResult result (λ found. found ≡ item_of_atoms list.now word.now text.now) (λ e. e ≡ faults.Memory) }
{
    match path_in(alloc, text)? {
        Some(path) => item_at(alloc, list, word, path),
        None => Ok(None),
    }
}

// The item whose list it is, if it is one that this crate writes.
#[tactic(auto, unfolding(crate::specs::WorkAtoms::item_in))]
fn item_in(alloc: Global, list: &[u8]) -> Result<Option<Work>, RowsFault>
    ensures { MatchResult result (λ found. found ≡ item_in list.now) (λ e. e ≡ faults.Memory) }
{
    let Some((word, rest)) = atom_after(list) else {
        return Ok(None);
    };
    let Some((text, _)) = atom_after(rest) else {
        return Ok(None);
    };
    item_of_atoms(alloc, list, word, text)
}

// The item of a row.
fn item_of(alloc: Global, row: &TableRow) -> Result<Option<Work>, RowsFault>
    ensures { MatchResult result (IsItemOf (list_in row.now.bytes)) (λ e. e ≡ faults.Memory) }
{
    match bytes_at(row, 1) {
        Some(list) => item_in(alloc, list),
        None => Ok(None),
    }
}

/// The items of the rows of WORK_QUEUE, in their order; none if one is of a client. Memory.
pub fn read_work(alloc: Global, rows: &[TableRow]) -> Result<Option<Vec<Work>>, RowsFault>
    ensures { MatchResult result (λ found. AreRead rows.now (option_map (λ items. items.items) found)) (λ e. e ≡ faults.Memory) }
{
    let mut items = Vec::new(alloc);
    for row in rows {
        let Some(work) = item_of(alloc, row)? else {
            return Ok(None);
        };
        items.push(work)?;
    }
    Ok(Some(items))
}
