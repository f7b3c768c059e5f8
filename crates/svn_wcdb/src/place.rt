//! Whether a row is in the folder that is looked at, and where it is refused.
ghost use Rattle.std.specs.Prelude.{◌≡◌, IfOk};
ghost use Rattle.std.specs.Option.{option_copied};
ghost use Rattle.svn_wcdb.specs.Columns.{path_at};
ghost use Rattle.svn_wcdb.specs.Paths.{place_in, is_in};
ghost use Rattle.svn_wcdb.specs.Reading.{Place, IsAt};

use crate::columns::path_at;
use crate::fault::{Reason, WcdbFault};
use crate::paths::place_in;
use crate::refusal::Refusal;
use std::alloc::{AllocError, Global};
use svn_types::Text;

/// Whether a row is looked at: it is at the folder or below, and at the root each is.
pub(crate) fn is_in(folder: &[u8], row: &[u8]) -> bool
    ensures { result ≡ is_in folder.now (path_at row.now) }
{
    folder.is_empty() || place_in(folder, path_at(row)).is_some()
}

fn owned_place(alloc: Global, place: Option<&[u8]>) -> Result<Option<Text>, AllocError>
    ensures { IfOk result (λ path. path ≡ option_copied place.entry) }
{
    match place {
        Some(path) => Ok(Some(Text::from_slice(alloc, path)?)),
        None => Ok(None),
    }
}

/// The refusal at a path from the folder on, or at none. Memory, if the path can't be allocated.
pub(crate) fn refusal_at(alloc: Global, place: Option<&[u8]>, reason: Reason) -> Refusal
    ensures { IsAt result (record { reason = reason; path = option_copied place.entry }) }
{
    match owned_place(alloc, place) {
        Ok(path) => Refusal {
            fault: WcdbFault::Refused(reason),
            path,
        },
        Err(error) => Refusal::from(error),
    }
}
