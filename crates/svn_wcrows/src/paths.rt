//! Paths, as columns have them.
ghost use Rattle.std.specs.Prelude.{◌≡◌, IfOk};
ghost use Rattle.svn_types.specs.PathTexts.{path_text};

use std::alloc::{AllocError, Global};
use svn_types::RelPath;

/// The text of a path: no byte of the root's.
pub(crate) fn path_column(alloc: Global, path: &RelPath) -> Result<String, AllocError>
    ensures { IfOk result (λ text. text.bytes.items ≡ path_text path.now) }
{
    if path.is_root() {
        Ok(String::new(alloc))
    } else {
        format!(in alloc; "{path}")
    }
}
