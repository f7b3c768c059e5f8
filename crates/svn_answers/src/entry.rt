//! The entry that a folder of a working copy is of the directory above it.
ghost use Rattle.std.specs.Prelude.{◌≡◌, [], ℕ, List, Option, IfOk};
ghost use Rattle.std.specs.Option.{option_copied};
ghost use Rattle.svn_model.specs.Nodes.{get_in};
ghost use Rattle.svn_wcdb.specs.declared.depth.Takes.TheVariants as kinds;
ghost use Rattle.svn_answers.specs.Entries.{path_of, path_of_read, entry_by, entry_of};

use std::alloc::{AllocError, Global};
use svn_model::BaseNode;
use svn_types::{Name, RelPath};
use svn_wc::WorkingCopy;
use svn_wcdb::{Takes, WcdbFault, read_tree};

// The path in the repository of what is at the root of nodes.
fn root_path(nodes: &[(RelPath, BaseNode)]) -> Option<&RelPath>
    ensures { option_copied result ≡ path_of (get_in nodes.now []) }
{
    for (path, node) in nodes {
        if path.is_root() {
            return node.repos_path();
        }
    }
    None
}

// The same of a copy.
fn copy_path(alloc: Global, copy: &WorkingCopy) -> Option<&RelPath>
    ensures { option_copied result ≡ path_of (get_in copy.now []) }
{
    match copy.get(&RelPath::root(alloc)) {
        Some(node) => node.repos_path(),
        None => None,
    }
}

// The name of a folder, if it has the path of the directory above it with this name more.
fn entry_by(
    below: &RelPath,
    at: Option<&RelPath>,
    above: Option<&RelPath>,
) -> Result<Option<Name>, AllocError>
    ensures { IfOk result (λ entry. entry ≡ entry_by below.now (option_copied at.entry) (option_copied above.entry)) }
{
    let (Some(at), Some(above)) = (at, above) else {
        return Ok(None);
    };
    match below.last_name() {
        Some(name) if at.is_child_of(above, name) => Ok(Some(name.clone()?)),
        _ => Ok(None),
    }
}

/// The entry that the folder at a path of a working copy is of the directory above it, if it isn't switched: then an update of it is one of that
/// directory, which can delete it. None for the copy's root, and where the directory can't be read. AllocError where an allocation failed.
pub(crate) fn entry_of(
    alloc: Global,
    database: &[u8],
    below: &RelPath,
    copy: &WorkingCopy,
) -> Result<Option<Name>, AllocError>
    ensures { IfOk result (λ entry. entry ≡ entry_of kinds.Whole database.now below.now copy.now) }
{
    let Some(above) = below.parent(alloc)? else {
        return Ok(None);
    };
    match read_tree(alloc, Takes::Sparse, &above, database) {
        Ok(read) => entry_by(below, copy_path(alloc, copy), root_path(&read.tree.nodes)),
        Err(refusal) if refusal.fault == WcdbFault::Memory => Err(AllocError),
        Err(_) => Ok(None),
    }
}
