//! What the directories of a working copy may lack, by what it leaves out.
ghost use Rattle.std.specs.Prelude.{◌≡◌};
ghost use Rattle.svn_repo.specs.Readings.{is_directory};
ghost use Rattle.svn_wcdb.specs.Sparse.{seen_left_out};
ghost use Rattle.svn_disk_audit.specs.Sparse.{may_lack, lackable};

use svn_audit::MayLack;
use svn_types::{Kind, RelPath};
use svn_wcdb::{Depth, LeftOut};

/// What was left out of a copy.
#[derive(Clone, Copy)]
pub(crate) struct Sparse<'a>(pub(crate) &'a LeftOut);

// Whether a directory of that depth may lack its entries of a kind. One of depth infinity has none here.
fn may_lack(depth: Option<Depth>, kind: Kind) -> bool
    ensures { result ≡ may_lack depth kind }
{
    match depth {
        Some(Depth::Empty) => true,
        Some(Depth::Files) => matches!(kind, Kind::Directory),
        Some(Depth::Immediates) | None => false,
    }
}

impl MayLack for Sparse<'_> {
    ghost lackable = { λ s. lackable (seen_left_out s.0.now) };

    fn may_lack(&self, path: &RelPath, kind: Kind) -> bool {
        may_lack(self.0.depths.get(path).copied(), kind)
    }
}
