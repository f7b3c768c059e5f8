//! What an edit of a working copy leads to.
use svn_types::RelPath;

/// Whether a working copy is updated or switched as a whole (`svn_ra_do_update3` and `svn_ra_do_switch3` of `svn_ra.h`).
#[derive(Clone, Debug, PartialEq, Eq, Drop)]
pub enum Mode {
    /// Each path keeps the repository path that it has, switched ones too, where that is in the target.
    Update,
    /// The root goes to this path of the repository, and no path stays switched.
    SwitchTo(RelPath),
}
