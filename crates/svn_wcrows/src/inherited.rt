//! The properties that a node inherits from above it in the repository, as the column `inherited_props` of NODES has them.

use crate::fault::RowsFault;
use crate::paths::path_column;
use crate::properties::push_props;
use crate::skel::push_atom;
use std::alloc::{AllocError, Global};
use svn_types::{Props, RelPath};

/// A list of paths in the repository, from above, and of the list of properties at each.
#[derive(Debug, Drop)]
pub struct Inherited {
    bytes: Vec<u8>,
}

impl Inherited {
    /// None yet.
    pub fn new(alloc: Global) -> Result<Inherited, AllocError> {
        Ok(Inherited {
            bytes: Vec::from_slice(alloc, b"(")?,
        })
    }

    /// Adds those at a path, if there are any.
    pub fn push(&mut self, alloc: Global, path: &RelPath, props: &Props) -> Result<(), RowsFault> {
        if props.is_empty() {
            return Ok(());
        }
        let path = path_column(alloc, path)?;
        push_atom(&mut self.bytes, path.as_bytes())?;
        self.bytes.push(b' ')?;
        Ok(push_props(&mut self.bytes, props)?)
    }

    /// The column.
    pub fn finish(mut self) -> Result<Vec<u8>, AllocError> {
        self.bytes.push(b')')?;
        Ok(self.bytes)
    }
}
