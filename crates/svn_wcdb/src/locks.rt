//! Locks in the repository that a client holds, from the rows of LOCK (`wc-metadata.sql`).
ghost use Rattle.std.specs.Prelude.{◌≡◌, Ok};
ghost use Rattle.std.specs.Option.{option_copied};
ghost use Rattle.svn_wcdb.specs.Locks.{path_in, lock_at, locks_of, is_locked, locked_in};
ghost use Rattle.svn_wcdb.specs.Reading.{Gives};

use crate::columns::{is_number, number_at, path_at};
use crate::fault::WcdbFault;
use crate::paths::read_path;
use crate::table::TableRow;
use std::alloc::Global;
use std::collections::BTreeSet;
use svn_model::BaseNode;
use svn_types::RelPath;

/// The path that a column has, if it is one.
pub(crate) fn path_in(alloc: Global, text: Option<&[u8]>) -> Result<Option<RelPath>, WcdbFault>
    ensures { Gives (λ path. path) result (Ok (path_in (option_copied text.entry))) }
{
    let Some(text) = text else {
        return Ok(None);
    };
    match read_path(alloc, text) {
        Ok(path) => Ok(Some(path)),
        Err(WcdbFault::Refused(_)) => Ok(None),
        Err(WcdbFault::Memory) => Err(WcdbFault::Memory),
    }
}

// The path that a row locks, if it is one of that repository.
fn lock_at(alloc: Global, repos_id: u64, row: &TableRow) -> Result<Option<RelPath>, WcdbFault>
    ensures { Gives (λ path. path) result (Ok (lock_at repos_id row.now)) }
{
    let bytes = row.bytes.as_slice();
    if is_number(number_at(bytes, 0), repos_id) {
        path_in(alloc, path_at(bytes))
    } else {
        Ok(None)
    }
}

/// The paths of a repository that are locked.
pub(crate) fn read_locks(
    alloc: Global,
    repos_id: u64,
    rows: &[TableRow],
) -> Result<BTreeSet<RelPath>, WcdbFault>
    ensures { Gives (λ locks. locks.keys) result (Ok (locks_of repos_id rows.now)) }
{
    let mut locks = BTreeSet::new(alloc);
    let mut rest = rows;
    'rows: while let Some((row, after)) = rest.split_first() {
        if let Some(path) = lock_at(alloc, repos_id, row)? {
            locks.insert(path)?;
        }
        rest = after;
    }
    Ok(locks)
}

fn is_locked(locks: &BTreeSet<RelPath>, entry: &(RelPath, BaseNode)) -> bool
    ensures { result ≡ is_locked locks.now.keys entry.now }
{
    match &entry.1 {
        BaseNode::File { repos_path, .. } => locks.contains(repos_path),
        BaseNode::Dir { .. } | BaseNode::NotPresent => false,
    }
}

/// How many of the nodes are locked files.
pub(crate) fn locked_in(locks: &BTreeSet<RelPath>, nodes: &[(RelPath, BaseNode)]) -> usize
    ensures { result ≡ locked_in locks.now.keys nodes.now }
{
    nodes.iter().filter(|entry| is_locked(locks, entry)).count()
}
