//! Local changes, conflicts, changelists and external files that are in the way of a change.

use crate::above::{above_of, note_above};
use crate::existing::{is_base, path_of};
use crate::fault::DiskFault;
use crate::plan::Plan;
use std::alloc::Global;
use std::collections::BTreeSet;
use svn_types::RelPath;
use svn_wcdb::TableRow;
use svn_wcrows::{Tables, is_null};

/// The column of ACTUAL_NODE that has a conflict.
const CONFLICT: usize = 11;

// Where a plan touches something. A node of which only the revision or the repository path changes isn't touched.
#[derive(Drop)]
struct Reach<'a> {
    alloc: Global,
    plan: &'a Plan<'a>,
    // The directories above what is touched, without the root.
    above: BTreeSet<RelPath>,
}

impl<'a> Reach<'a> {
    fn of(alloc: Global, plan: &'a Plan<'a>) -> Result<Reach<'a>, DiskFault> {
        let mut above = BTreeSet::new(alloc);
        for (path, change) in &plan.changes {
            if change.touches() {
                note_above(alloc, &mut above, path)?;
            }
        }
        Ok(Reach { alloc, plan, above })
    }

    // Whether something above a path goes.
    fn goes(&self, path: &RelPath) -> Result<bool, DiskFault> {
        for directory in above_of(self.alloc, path)? {
            if self.plan.removes(&directory) {
                return Ok(true);
            }
        }
        Ok(false)
    }

    // Refuses a local change at a path that is touched, or below one that goes; and above one that is touched, if it counts for all below.
    fn refuse(&self, path: &RelPath, counts_below: bool) -> Result<(), DiskFault> {
        let is_near = self.plan.touches(path)
            || (counts_below && self.above.contains(path))
            || self.goes(path)?;
        if is_near {
            return Err(DiskFault::Local(path.clone()?));
        }
        Ok(())
    }

    // Refuses that of a row.
    fn refuse_row(&self, row: &TableRow, counts_below: bool) -> Result<(), DiskFault> {
        match path_of(self.alloc, row)? {
            Some(path) => self.refuse(&path, counts_below),
            None => Ok(()),
        }
    }

    // Refuses those of the tree: what is added, deleted, copied, moved or replaced, and external files.
    fn refuse_nodes(&self, rows: &[TableRow]) -> Result<(), DiskFault> {
        for row in rows {
            if !is_base(row) {
                self.refuse_row(row, true)?;
            }
        }
        Ok(())
    }

    // Refuses those of nodes: properties, changelists and conflicts, of which a conflict counts for all below.
    fn refuse_actual(&self, rows: &[TableRow]) -> Result<(), DiskFault> {
        for row in rows {
            self.refuse_row(row, !is_null(row, CONFLICT))?;
        }
        Ok(())
    }
}

/// Refuses the first local change that is in the way: at a node whose text, kind or properties change, or that comes or goes; below one that goes; above
/// any of these if it is a change of the tree or a conflict. A node of which only the revision, the repository path or the completeness changes is in
/// nobody's way, nor is a directory that only its entries change of: what is local there stays as it is. Local, Memory.
pub(crate) fn refuse_local(
    alloc: Global,
    tables: &Tables,
    plan: &Plan<'_>,
) -> Result<(), DiskFault> {
    let reach = Reach::of(alloc, plan)?;
    reach.refuse_nodes(&tables.nodes)?;
    reach.refuse_actual(&tables.actual_node)
}
