//! Paths that two items of work are about.
ghost use Rattle.std.specs.Prelude.{OnOk};
ghost use Rattle.svn_disk.specs.Ends.{AreDistinct};

use crate::fault::DiskFault;
use std::alloc::Global;
use std::collections::BTreeSet;
use svn_wcrows::Work;

/// Refuses work of which two items are about the same path: Repeated at the first that was there before.
pub(crate) fn refuse_repeated(alloc: Global, work: &[Work]) -> Result<(), DiskFault>
    ensures { OnOk result (AreDistinct work.now) }
{
    let mut paths = BTreeSet::new(alloc);
    let mut rest = work;
    'work: while let Some((item, after)) = rest.split_first() {
        if !paths.insert(item.path().clone()?)? {
            return Err(DiskFault::Repeated(item.path().clone()?));
        }
        rest = after;
    }
    Ok(())
}
