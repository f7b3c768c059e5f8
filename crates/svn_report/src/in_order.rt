//! Entries that came in the order of their paths: what is next to a path is found by a binary search.
ghost use Rattle.std.specs.Prelude.{◌≡◌, IsTrue, slice_get};
ghost use Rattle.std.specs.Option.{option_copied, option_map};
ghost use Rattle.std.specs.Ordering.{is_le, is_lt};
ghost use Rattle.svn_types.specs.Names.{path_cmp};
ghost use Rattle.svn_report.specs.LawfulReports.{AreLawfulEntries};
ghost use Rattle.svn_report.specs.ReportOrder.{InPathOrder, ComesLast, IsNextEntry, IsPreviousEntry, IsFirstAfter, is_after_name, is_ahead_of_name};

use crate::entry::ReportEntry;
use indexmap::IndexMap;
use svn_types::{Name, RelPath};

// The path of the i-th entry.
fn path_at(entries: &IndexMap<RelPath, ReportEntry>, i: usize) -> Option<&RelPath>
    ensures { option_copied result ≡ option_map (λ e. e.0) (slice_get entries.now.entries i) }
{
    match entries.get_index(i) {
        Some((path, _)) => Some(path),
        None => None,
    }
}

/// The first path after a path. Reports are mostly made in path order, so most calls ask after the last path: that takes no search.
pub(crate) fn next_in_order<'a>(
    entries: &'a IndexMap<RelPath, ReportEntry>,
    path: &RelPath,
) -> Option<&'a RelPath>
    requires ordered { InPathOrder entries.now.entries }
    requires lawful { AreLawfulEntries entries.now.entries }
    ensures { IsNextEntry entries.now.entries path.now (option_copied result) }
{
    let (last, _) = entries.last()?;
    if last <= path {
        return None;
    }
    let i = entries.partition_point(
        |other: &RelPath, _entry: &ReportEntry| -> bool
            ensures { result ≡ is_le (path_cmp other.now path.entry.now) }
        { other <= path },
    );
    path_at(entries, i)
}

/// The last path before a path.
pub(crate) fn previous_in_order<'a>(
    entries: &'a IndexMap<RelPath, ReportEntry>,
    path: &RelPath,
) -> Option<&'a RelPath>
    requires ordered { InPathOrder entries.now.entries }
    requires lawful { AreLawfulEntries entries.now.entries }
    ensures { IsPreviousEntry entries.now.entries path.now (option_copied result) }
{
    let (last, _) = entries.last()?;
    // as in `next_in_order`
    if last < path {
        return Some(last);
    }
    let before = entries.partition_point(
        |other: &RelPath, _entry: &ReportEntry| -> bool
            ensures { result ≡ is_lt (path_cmp other.now path.entry.now) }
        { other < path },
    );
    match before.checked_sub(1) {
        Some(i) => path_at(entries, i),
        None => None,
    }
}

// Whether a path comes after a name below another path, and after everything below that name.
#[tactic(auto, using(crate::proofs::InOrder::outside_behind))]
fn is_after_name(other: &RelPath, path: &RelPath, name: &Name) -> bool
    ensures { result ≡ is_after_name path.now name.now other.now }
{
    if other.is_within(path) {
        match other.components().get(path.components().len()) {
            Some(next) => name < next,
            None => false,
        }
    } else {
        path < other
    }
}

/// The first path after a name below a path, and after everything below that name.
pub(crate) fn first_after<'a>(
    entries: &'a IndexMap<RelPath, ReportEntry>,
    path: &RelPath,
    name: &Name,
) -> Option<&'a RelPath>
    requires ordered { InPathOrder entries.now.entries }
    requires lawful { AreLawfulEntries entries.now.entries }
    ensures { IsFirstAfter entries.now.entries path.now name.now (option_copied result) }
{
    let i = entries.partition_point(
        |other: &RelPath, _entry: &ReportEntry| -> bool
            ensures { result ≡ is_ahead_of_name path.entry.now name.entry.now other.now }
        { !is_after_name(other, path, name) },
    );
    path_at(entries, i)
}

/// Whether a path comes after the paths of all entries.
#[tactic(auto, using(crate::proofs::InOrder::last_of_none))]
pub(crate) fn comes_last(entries: &IndexMap<RelPath, ReportEntry>, path: &RelPath) -> bool
    requires ordered { InPathOrder entries.now.entries }
    ensures last { IsTrue result → ComesLast entries.now.entries path.now }
    ensures told { ComesLast entries.now.entries path.now → IsTrue result }
{
    match entries.last() {
        Some((last, _)) => last < path,
        None => true,
    }
}
