//! Rows of NODES (`wc-metadata.sql`): what of their columns a base node is made of.
ghost use Rattle.svn_wcdb.specs.Nodes.{seen, row_of};
ghost use Rattle.svn_wcdb.specs.Reading.{Answers};

use crate::columns::Columns;
use crate::fault::{Reason, TableName};

/// A row of NODES. Columns that no base node depends on aren't here.
#[derive(Clone, Copy, Debug)]
pub(crate) struct Row<'a> {
    /// The root of the working copy that has the node.
    pub(crate) wc_id: Option<u64>,
    /// Its path in the working copy.
    pub(crate) path: Option<&'a [u8]>,
    /// 0 for the base tree; else a local change, as deep as the path where it was made.
    pub(crate) op_depth: Option<u64>,
    /// The path above it, NULL of the root.
    pub(crate) parent: Option<&'a [u8]>,
    /// Its repository.
    pub(crate) repos_id: Option<u64>,
    /// Its path in the repository.
    pub(crate) repos_path: Option<&'a [u8]>,
    /// Its revision.
    pub(crate) revision: Option<u64>,
    /// Whether it is there.
    pub(crate) presence: Option<&'a [u8]>,
    /// A file or a directory.
    pub(crate) kind: Option<&'a [u8]>,
    /// Its properties, as a list of atoms.
    pub(crate) properties: Option<&'a [u8]>,
    /// How much of a directory is there.
    pub(crate) depth: Option<&'a [u8]>,
    /// The checksum of a file's text.
    pub(crate) checksum: Option<&'a [u8]>,
    /// Whether it is a file that a property `svn:externals` put here.
    pub(crate) is_external: bool,
}

impl<'a> Row<'a> {
    /// Reads a record of NODES. BadColumn, of the first one that has no value of its type.
    #[tactic(auto, unfolding(crate::specs::Nodes::row_of))]
    pub(crate) fn read(bytes: &'a [u8]) -> Result<Row<'a>, Reason>
        ensures { Answers seen result (row_of bytes.now) }
    {
        let columns = Columns::read(bytes);
        Ok(Row {
            wc_id: columns.number(TableName::Nodes, 0)?,
            path: columns.text(TableName::Nodes, 1)?,
            op_depth: columns.number(TableName::Nodes, 2)?,
            parent: columns.text(TableName::Nodes, 3)?,
            repos_id: columns.number(TableName::Nodes, 4)?,
            repos_path: columns.text(TableName::Nodes, 5)?,
            revision: columns.number(TableName::Nodes, 6)?,
            presence: columns.text(TableName::Nodes, 7)?,
            kind: columns.text(TableName::Nodes, 10)?,
            properties: columns.bytes(TableName::Nodes, 11)?,
            depth: columns.text(TableName::Nodes, 12)?,
            checksum: columns.text(TableName::Nodes, 13)?,
            is_external: columns.is_set(21),
        })
    }
}
