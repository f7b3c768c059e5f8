//! The entries of a report.
use svn_types::{RelPath, Rev};

/// What a report says of the node at a path, by the call of `svn_ra.h` that said it.
#[derive(Clone, Debug, PartialEq, Eq, Drop)]
pub enum ReportEntry {
    /// It is there at a revision, at the repository path that the directory above says.
    SetPath {
        /// The revision that it has.
        rev: Rev,
        /// Whether a directory has none of its entries and properties. At a file it says nothing.
        start_empty: bool,
    },
    /// It is another path of the repository, at a revision: it is switched.
    LinkPath {
        /// The path in the repository. The entry's path may have at most 64 names more than it.
        repos_path: RelPath,
        /// The revision that it has.
        rev: Rev,
        /// Whether a directory has none of its entries and properties. At a file it says nothing.
        start_empty: bool,
    },
    /// Nothing is there, though the directory above has such an entry.
    DeletePath,
}
