//! What is passed over, since no base node depends on it.
ghost use Rattle.std.specs.Prelude.{◌≡◌};
ghost use Rattle.svn_wcdb.specs.Bases.{counted, count_in, count_of, locked_of, none_yet, notes_of, seen_references, seen_found};
ghost use Rattle.svn_wcdb.specs.Images.{seen_file};
ghost use Rattle.svn_wcdb.specs.Reading.{Gives};

use crate::fault::{TableName, WcdbFault};
use crate::locks::{locked_in, read_locks};
use crate::nodes::{Found, References};
use crate::pages::Image;
use crate::place::is_in;
use crate::schema::rows_of;
use crate::table::TableRow;
use std::alloc::Global;

/// How much was passed over; a number that doesn't fit stays at the greatest.
#[derive(Clone, Copy, Debug, PartialEq, Eq)]
pub struct Notes {
    /// Rows of local changes: nodes that were added, deleted, copied, moved or replaced.
    pub changes: u64,
    /// Files that a property `svn:externals` put into the working copy.
    pub externals: u64,
    /// Paths with local properties, a changelist or a conflict (ACTUAL_NODE).
    pub actual: u64,
    /// Locks that an operation holds, or left when it was cut off (WC_LOCK).
    pub locks: u64,
    /// What an operation has still to do (WORK_QUEUE).
    pub work: u64,
    /// Files among the nodes that the client has locked in the repository (LOCK): it reports the tokens of these locks.
    pub locked: u64,
}

impl Notes {
    pub(crate) fn new() -> Notes
        ensures { result ≡ none_yet.1 }
    {
        Notes {
            changes: 0,
            externals: 0,
            actual: 0,
            locks: 0,
            work: 0,
            locked: 0,
        }
    }

    pub(crate) fn add_change(&mut self)
        ensures { self.new ≡ record self.old { changes = counted self.old.changes } }
    {
        self.changes = self.changes.saturating_add(1);
    }

    pub(crate) fn add_external(&mut self)
        ensures { self.new ≡ record self.old { externals = counted self.old.externals } }
    {
        self.externals = self.externals.saturating_add(1);
    }
}

// How many rows are at the folder or below.
fn count_in(folder: &[u8], rows: &[TableRow]) -> usize
    ensures { result ≡ count_in folder.now rows.now }
{
    rows.iter()
        .filter(|row| is_in(folder, row.bytes.as_slice()))
        .count()
}

fn count_rows(
    alloc: Global,
    image: &Image,
    schema: &[TableRow],
    folder: &[u8],
    table: TableName,
) -> Result<u64, WcdbFault>
    ensures { Gives (λ n. n) result (count_of (seen_file image.now) schema.now folder.now table) }
{
    let rows = rows_of(alloc, image, schema, table)?;
    Ok(count_in(folder, &rows) as u64)
}

fn count_locked(
    alloc: Global,
    image: &Image,
    schema: &[TableRow],
    to: &References,
    found: &Found,
) -> Result<u64, WcdbFault>
    ensures { Gives (λ n. n) result (locked_of (seen_file image.now) schema.now (seen_references to.now) (seen_found found.now)) }
{
    let rows = rows_of(alloc, image, schema, TableName::Lock)?;
    let locks = read_locks(alloc, to.repos_id, &rows)?;
    Ok(locked_in(&locks, &found.nodes) as u64)
}

/// The notes, with those of the tables that no base node is in.
pub(crate) fn read_notes(
    alloc: Global,
    image: &Image,
    schema: &[TableRow],
    to: &References,
    found: &Found,
) -> Result<Notes, WcdbFault>
    ensures { Gives (λ n. n) result (notes_of (seen_file image.now) schema.now (seen_references to.now) (seen_found found.now)) }
{
    let actual = count_rows(alloc, image, schema, to.folder, TableName::ActualNode)?;
    let locks = count_rows(alloc, image, schema, to.folder, TableName::WcLock)?;
    let work = count_rows(alloc, image, schema, &[], TableName::WorkQueue)?;
    let locked = count_locked(alloc, image, schema, to, found)?;
    Ok(Notes {
        actual,
        locks,
        work,
        locked,
        ..found.notes
    })
}
