//! The database of a working copy, once its nodes were read back.
ghost use Rattle.std.specs.Prelude.{IfOk};
ghost use Rattle.svn_wcrows.specs.Copies.{IsCopyOf};

use crate::database::{Numbers, write_tables};
use crate::fault::RowsFault;
use crate::tables::Tables;
use std::alloc::Global;
use svn_model::BaseNode;
use svn_types::RelPath;
use svn_wcdb::{Refusal, WcdbFault, read_base_tree};

fn read_fault(refusal: Refusal) -> RowsFault {
    match refusal.fault {
        WcdbFault::Memory => RowsFault::Memory,
        WcdbFault::Refused(_) => RowsFault::NodesDiffer,
    }
}

/// Writes the database of these tables, if these are the nodes that it stands for, in the order of their rows: that is read from the bytes before they
/// are returned. The faults are those of [`write_tables`], NodesDiffer and Memory.
pub fn write_copy(
    alloc: Global,
    tables: &Tables,
    numbers: Numbers,
    nodes: &[(RelPath, BaseNode)],
) -> Result<Vec<u8>, RowsFault>
    ensures { IfOk result (λ bytes. IsCopyOf numbers tables.now nodes.now bytes.items) }
{
    let bytes = write_tables(alloc, tables, numbers)?;
    match read_base_tree(alloc, &bytes) {
        Ok(tree) => {
            if tree.nodes.as_slice() == nodes {
                Ok(bytes)
            } else {
                Err(RowsFault::NodesDiffer)
            }
        }
        Err(refusal) => Err(read_fault(refusal)),
    }
}
