//! The directories that are open, each with what later calls may ask of it. The innermost is the last; each is at the place that is the
//! length of its path.
ghost use Rattle.std.specs.Prelude.{◌≡◌, OnOk};
ghost use Rattle.svn_order.specs.Directories.{innermost_of, holds_entry, is_opened_in, is_deleted_in, changed_late_in, IsNew, InsertsOpened, InsertsDeleted, OpensEntry, DeletesEntry, OpensSubdirectory, ChangesProp, Opens, without_last, EntrySplit, IsEntry};
ghost use Rattle.svn_types.specs.Paths.{path_eq};

use crate::name_set::NameSet;
use std::alloc::{AllocError, Global};
use svn_editor::Token;
use svn_types::{Name, RelPath};

/// An open directory.
#[derive(Debug, Drop)]
pub struct OpenedDirectory {
    /// Its token.
    pub token: Token,
    /// Its path from the root of the edit.
    pub path: RelPath,
    /// The entries that were opened or added.
    pub opened: NameSet,
    /// The entries that were deleted.
    pub deleted: NameSet,
    /// A directory in it was opened or added.
    pub has_subdirectory: bool,
    /// A property change came after a subdirectory.
    pub is_changed_late: bool,
}

impl OpenedDirectory {
    fn new(alloc: Global, path: RelPath, token: Token) -> OpenedDirectory
        ensures { IsNew path token result }
    {
        OpenedDirectory {
            token,
            path,
            opened: NameSet::new(alloc),
            deleted: NameSet::new(alloc),
            has_subdirectory: false,
            is_changed_late: false,
        }
    }
}

/// The token of the directory that was opened last and isn't closed.
pub fn innermost(directories: &[OpenedDirectory]) -> Option<Token>
    ensures { result ≡ innermost_of directories.now }
{
    match directories.last() {
        Some(directory) => Some(directory.token),
        None => None,
    }
}

// The last name of a path, and the names above it.
fn split_entry(path: &RelPath) -> Option<(&Name, &[Name])>
    ensures { EntrySplit path.now result }
{
    path.components().split_last()
}

// Whether a directory is the one that has the entry of that name, whose path is given too.
fn is_parent(directory: &RelPath, above: &[Name], name: &Name, path: &RelPath) -> bool
    requires { IsEntry path.now above.now name.now }
    ensures { result ≡ path_eq directory.now above.now }
{
    path.is_child_of(directory, name)
}

/// Whether the token is that of an open directory that the path is an entry of.
pub fn holds_entry(directories: &[OpenedDirectory], token: Token, path: &RelPath) -> bool
    ensures { result ≡ holds_entry directories.now token path.now }
{
    let Some((name, above)) = split_entry(path) else {
        return false;
    };
    match directories.get(above.len()) {
        Some(directory) => {
            directory.token == token && is_parent(&directory.path, above, name, path)
        }
        None => false,
    }
}

/// Whether the entry was opened or added, of a path whose parent is open.
pub fn is_opened(directories: &[OpenedDirectory], path: &RelPath) -> bool
    ensures { result ≡ is_opened_in directories.now path.now }
{
    let Some((name, above)) = split_entry(path) else {
        return false;
    };
    match directories.get(above.len()) {
        Some(directory) => directory.opened.contains(name),
        None => false,
    }
}

/// Whether the entry was deleted, of a path whose parent is open.
pub fn is_deleted(directories: &[OpenedDirectory], path: &RelPath) -> bool
    ensures { result ≡ is_deleted_in directories.now path.now }
{
    let Some((name, above)) = split_entry(path) else {
        return false;
    };
    match directories.get(above.len()) {
        Some(directory) => directory.deleted.contains(name),
        None => false,
    }
}

/// Whether a property change of the innermost directory came after a subdirectory of it.
pub fn is_changed_late(directories: &[OpenedDirectory]) -> bool
    ensures { result ≡ changed_late_in directories.now }
{
    match directories.last() {
        Some(directory) => directory.is_changed_late,
        None => false,
    }
}

fn insert_opened(directory: &mut OpenedDirectory, name: &Name) -> Result<(), AllocError>
    ensures { OnOk result (InsertsOpened name.now directory.old directory.new) }
{
    directory.opened.insert(name.clone()?)?;
    Ok(())
}

fn insert_deleted(directory: &mut OpenedDirectory, name: &Name) -> Result<(), AllocError>
    ensures { OnOk result (InsertsDeleted name.now directory.old directory.new) }
{
    directory.deleted.insert(name.clone()?)?;
    Ok(())
}

/// Notes that the entry was opened or added. AllocError if an allocation fails.
pub fn open_entry(directories: &mut Vec<OpenedDirectory>, path: &RelPath) -> Result<(), AllocError>
    ensures { OnOk result (OpensEntry directories.old.items path.now directories.new.items) }
{
    if let Some((name, above)) = split_entry(path) {
        let place = above.len();
        if place < directories.len() {
            insert_opened(&mut directories[place], name)?;
        }
    }
    Ok(())
}

/// Notes that the entry was deleted. AllocError if an allocation fails.
pub fn delete_entry(
    directories: &mut Vec<OpenedDirectory>,
    path: &RelPath,
) -> Result<(), AllocError>
    ensures { OnOk result (DeletesEntry directories.old.items path.now directories.new.items) }
{
    if let Some((name, above)) = split_entry(path) {
        let place = above.len();
        if place < directories.len() {
            insert_deleted(&mut directories[place], name)?;
        }
    }
    Ok(())
}

/// Notes that a directory was opened or added in the innermost one.
pub fn open_subdirectory(directories: &mut Vec<OpenedDirectory>)
    ensures { OpensSubdirectory directories.old.items directories.new.items }
{
    if !directories.is_empty() {
        let last = directories.len() - 1;
        directories[last].has_subdirectory = true;
    }
}

/// Notes that a property of the innermost directory was changed.
pub fn change_prop(directories: &mut Vec<OpenedDirectory>)
    ensures { ChangesProp directories.old.items directories.new.items }
{
    if !directories.is_empty() {
        let last = directories.len() - 1;
        if directories[last].has_subdirectory {
            directories[last].is_changed_late = true;
        }
    }
}

/// Opens a directory, which is the innermost from then on. AllocError if an allocation fails.
pub fn open(
    directories: &mut Vec<OpenedDirectory>,
    alloc: Global,
    path: RelPath,
    token: Token,
) -> Result<(), AllocError>
    ensures { OnOk result (Opens directories.old.items path token directories.new.items) }
{
    directories.push(OpenedDirectory::new(alloc, path, token))?;
    Ok(())
}

/// Closes the innermost directory, if one is open.
pub fn close_innermost(directories: &mut Vec<OpenedDirectory>)
    ensures { directories.new.items ≡ without_last directories.old.items }
{
    directories.pop();
}
