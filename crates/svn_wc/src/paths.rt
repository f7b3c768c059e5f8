//! How paths compare.
ghost use Rattle.std.specs.Prelude.{◌≡◌};
ghost use Rattle.svn_types.specs.Names.{path_cmp};
ghost use Rattle.svn_types.specs.Paths.{parent};
ghost use Rattle.law_copy.specs.Laws.{EndsNamed};

use std::cmp::Ordering;
use svn_types::RelPath;

/// The last name of a path is an allowed one.
pub(crate) fn last_name_allowed(path: &RelPath)
    ensures { EndsNamed path.now }
{
    let names = path.components();
    if names.len() > 0 {
        let _text = names[names.len() - 1].as_str();
    }
}

/// How a path compares with the one above another; above the root is the root. It takes no memory.
pub(crate) fn compare_above(other: &RelPath, path: &RelPath) -> Ordering
    ensures { result ≡ path_cmp other.now (parent path.now) }
{
    match path.components().split_last() {
        Some((_, front)) => other.components().cmp(front),
        None => other.cmp(path),
    }
}
