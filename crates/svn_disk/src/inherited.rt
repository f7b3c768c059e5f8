//! What the root of a copy inherits.

use crate::fault::DiskFault;
use std::alloc::Global;
use svn_repo::Repo;
use svn_types::{RelPath, Rev};
use svn_wcrows::Inherited;

/// The properties of the directories above a path in a revision, as the root of a copy of it records them; none of the repository's root.
pub fn inherited_props(
    alloc: Global,
    repo: &Repo,
    rev: Rev,
    path: &RelPath,
) -> Result<Option<Vec<u8>>, DiskFault> {
    if path.is_root() {
        return Ok(None);
    }
    let mut inherited = Inherited::new(alloc)?;
    let mut above = RelPath::root(alloc);
    for name in path.components() {
        if let Some(id) = repo.lookup(rev, &above) {
            if let Some(props) = repo.props(id) {
                inherited.push(alloc, &above, props)?;
            }
        }
        above = above.join(alloc, name)?;
    }
    Ok(Some(inherited.finish()?))
}
