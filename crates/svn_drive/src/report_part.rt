//! Parts of a report, whose entries are in the order of their paths: so those at or below one path are side by side.
ghost use Rattle.std.specs.Prelude.{◌≡◌, ◌≤◌, ◌<◌, ◌∷◌, [], bytes_eq, false, drop, length, map, slice_get, take, IsTrue, ◌↔◌, Some};
ghost use Rattle.std.specs.Map.{keys_of};
ghost use Rattle.std.specs.Map.Iter.{deref_pair};
ghost use Rattle.std.specs.Option.{option_copied, option_map_or};
ghost use Rattle.svn_drive.specs.Firsts.{InOrder, first_key};
ghost use Rattle.svn_drive.specs.Parts.{AreDeeper, by_name, entries_in, own_entry, without_own};

use svn_report::ReportEntry;
use svn_types::{Name, RelPath};

/// Entries of a report with their paths, in path order.
#[derive(Clone, Copy, Drop)]
pub(crate) struct ReportPart<'a> {
    entries: &'a [(&'a RelPath, &'a ReportEntry)],
}

// The name of a path at a depth.
fn name_at(path: &RelPath, depth: usize) -> Option<&Name>
    ensures { option_copied result ≡ slice_get path.now depth }
{
    path.components().get(depth)
}

// Whether that is the name.
fn is_named(path: &RelPath, depth: usize, name: &Name) -> bool
    ensures { result ≡ option_map_or (λ n. bytes_eq n name.now) (slice_get path.now depth) false }
{
    match name_at(path, depth) {
        Some(next) => next == name,
        None => false,
    }
}

impl<'a> ReportPart<'a> {
    /// These entries.
    pub(crate) fn of(entries: &'a [(&'a RelPath, &'a ReportEntry)]) -> ReportPart<'a>
        ensures { entries_in result ≡ map deref_pair entries.now }
    {
        ReportPart { entries }
    }

    /// No entries.
    pub(crate) fn none() -> ReportPart<'a>
        ensures { entries_in result ≡ [] }
    {
        ReportPart { entries: &[] }
    }

    /// Whether there is none.
    #[inline(always)]
    pub(crate) fn is_empty(&self) -> bool
        ensures { IsTrue result ↔ (entries_in self.now ≡ []) }
    {
        self.entries.is_empty()
    }

    /// The entry of a path at or below which all are, and those below it.
    #[inline(always)]
    pub(crate) fn split_own(self, path: &RelPath) -> (Option<&'a ReportEntry>, ReportPart<'a>)
        ensures own { option_copied result.0 ≡ own_entry path.now (entries_in self.entry) }
        ensures others { entries_in result.1 ≡ without_own path.now (entries_in self.entry) }
    {
        match self.entries.split_first() {
            Some((first, rest)) if first.0 == path => {
                (Some(first.1), ReportPart { entries: rest })
            }
            _ => (None, self),
        }
    }

    /// The name of the first at a depth.
    pub(crate) fn first_name(&self, depth: usize) -> Option<&'a Name>
        requires { AreDeeper depth (entries_in self.now) }
        ensures { option_copied result ≡ first_key (by_name depth (entries_in self.now)) }
    {
        let (path, _) = self.entries.first()?;
        name_at(path, depth)
    }

    // How many come first that have the name of the first at a depth. Mostly it is that one.
    fn count_named(&self, depth: usize, name: &Name) -> usize
        requires deeper { AreDeeper depth (entries_in self.now) }
        requires first { first_key (by_name depth (entries_in self.now)) ≡ Some name.now }
        requires ordered { InOrder (keys_of (by_name depth (entries_in self.now))) }
        ensures some { 0 < result }
        ensures bound { result ≤ length (entries_in self.now) }
        ensures cut { by_name depth (entries_in self.now) ≡ (name.now, take result (entries_in self.now)) ∷ by_name depth (drop result (entries_in self.now)) }
    {
        match self.entries.get(1) {
            Some(next) if is_named(next.0, depth, name) => {
                self.entries
                    .partition_point(|entry| is_named(entry.0, depth, name))
            }
            _ => 1,
        }
    }

    /// Those that have the name of the first at a depth, and the others.
    pub(crate) fn split_name(self, depth: usize, name: &Name) -> (ReportPart<'a>, ReportPart<'a>)
        requires deeper { AreDeeper depth (entries_in self) }
        requires first { first_key (by_name depth (entries_in self)) ≡ Some name.now }
        requires ordered { InOrder (keys_of (by_name depth (entries_in self))) }
        ensures some { 0 < length (entries_in result.0) }
        ensures cut { by_name depth (entries_in self.entry) ≡ (name.now, entries_in result.0) ∷ by_name depth (entries_in result.1) }
        ensures deeper { AreDeeper depth (entries_in result.1) }
    {
        let count = self.count_named(depth, name);
        let (named, rest) = self.entries.split_at(count);
        (ReportPart { entries: named }, ReportPart { entries: rest })
    }
}
