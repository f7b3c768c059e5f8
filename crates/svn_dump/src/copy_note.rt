//! A copy that a dump tells of.
ghost use Rattle.std.specs.Prelude.{◌<◌};

use crate::record::CopySource;
use svn_types::{RelPath, Rev};

/// A node that was copied: an add or a replace with a source.
#[derive(Debug, Drop)]
pub struct CopyNote {
    /// The revision that made the copy.
    pub rev: Rev,
    /// Where it put it.
    pub path: RelPath,
    /// What was copied, of an earlier revision.
    pub source: CopySource,
    ghost earlier: { source.rev < rev },
}
