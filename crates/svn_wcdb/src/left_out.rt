//! What a sparse copy leaves out, from the rows of NODES.
ghost use Rattle.std.specs.Prelude.{◌≡◌, Ok};
ghost use Rattle.std.specs.Option.{option_copied};
ghost use Rattle.svn_wcdb.specs.Nodes.{seen};
ghost use Rattle.svn_wcdb.specs.Reading.{Gives};
ghost use Rattle.svn_wcdb.specs.Sparse.{base_columns, counted_if, depth_of, is_excluded, is_withheld, left_out_with, nothing_left_out, seen_left_out, sparse_in, with_entry, with_path};

use crate::columns::is_number;
use crate::depth::{Depth, depth_of, is_excluded, is_withheld};
use crate::fault::WcdbFault;
use crate::locks::path_in;
use crate::paths::place_in;
use crate::row::Row;
use std::alloc::Global;
use std::collections::BTreeMap;
use svn_types::RelPath;

/// What a working copy leaves out. Paths are from the folder on that was looked at.
#[derive(Debug, Drop)]
pub struct LeftOut {
    /// The directories that aren't whole, with their depths.
    pub depths: BTreeMap<RelPath, Depth>,
    /// How many entries the user excluded.
    pub excluded: u64,
    /// How many entries the server withholds.
    pub withheld: u64,
}

impl LeftOut {
    /// Nothing.
    pub fn nothing(alloc: Global) -> LeftOut
        ensures { seen_left_out result ≡ nothing_left_out }
    {
        LeftOut {
            depths: BTreeMap::new(alloc),
            excluded: 0,
            withheld: 0,
        }
    }
}

fn with_path(
    alloc: Global,
    folder: &[u8],
    row: &Row,
    depth: Depth,
) -> Result<Option<(RelPath, Depth)>, WcdbFault>
    ensures { Gives (λ entry. entry) result (Ok (with_path folder.now (seen row.now) depth)) }
{
    match path_in(alloc, place_in(folder, row.path))? {
        Some(path) => Ok(Some((path, depth))),
        None => Ok(None),
    }
}

// A directory that isn't whole, if that is the row.
fn sparse_in(alloc: Global, folder: &[u8], row: &Row) -> Result<Option<(RelPath, Depth)>, WcdbFault>
    ensures { Gives (λ entry. entry) result (Ok (sparse_in folder.now (seen row.now) (depth_of (seen row.now)))) }
{
    match depth_of(row) {
        Some(depth) => with_path(alloc, folder, row, depth),
        None => Ok(None),
    }
}

fn counted_if(so: bool, number: u64) -> u64
    ensures { result ≡ counted_if so number }
{
    if so { number.saturating_add(1) } else { number }
}

impl LeftOut {
    fn add_directory(&mut self, alloc: Global, folder: &[u8], row: &Row) -> Result<(), WcdbFault>
        ensures { Gives (λ _. seen_left_out self.new) result (Ok (record (seen_left_out self.old) { depths = with_entry self.old.depths.entries (sparse_in folder.now (seen row.now) (depth_of (seen row.now))) })) }
    {
        if let Some((path, depth)) = sparse_in(alloc, folder, row)? {
            self.depths.insert(path, depth)?;
        }
        Ok(())
    }

    fn count(&mut self, presence: Option<&[u8]>)
        ensures { seen_left_out self.new ≡ record (seen_left_out self.old) { excluded = counted_if (is_excluded (option_copied presence.entry)) self.old.excluded; withheld = counted_if (is_withheld (option_copied presence.entry)) self.old.withheld } }
    {
        self.excluded = counted_if(is_excluded(presence), self.excluded);
        self.withheld = counted_if(is_withheld(presence), self.withheld);
    }

    /// Adds what a row at the folder or below leaves out, if it is one of the base tree and no file of `svn:externals`.
    pub(crate) fn add(&mut self, alloc: Global, folder: &[u8], row: &Row) -> Result<(), WcdbFault>
        ensures { Gives (λ _. seen_left_out self.new) result (Ok (left_out_with folder.now (base_columns (Ok (seen row.now))) (seen_left_out self.old))) }
    {
        if !is_number(row.op_depth, 0) || row.is_external {
            return Ok(());
        }
        self.count(row.presence);
        self.add_directory(alloc, folder, row)
    }
}
