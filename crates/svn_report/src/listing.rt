//! Entries at paths, found by their place, by their path, and by what is above or below a path.
ghost use Rattle.std.specs.Prelude.{◌≡◌, ◌++◌, ◌∷◌, [], ℕ, length, map, slice_get, ◌<◌, IsTrue, ◌↔◌, OnOk, OnErr, IfOk, IfSome, MatchOption, IsPermutation, is_some, Some, None};
ghost use Rattle.std.specs.Cmp.{partial_equiv_from_equiv};
ghost use Rattle.std.specs.Cmp.Lexicographic.{lists_equiv, pointwise};
ghost use Rattle.std.specs.List.{IsDistinct, list_any};
ghost use Rattle.std.specs.List.Sorted.{IsStrictlySortedBy};
ghost use Rattle.std.specs.Map.{keys_of};
ghost use Rattle.std.specs.Map.Iter.{deref_pair};
ghost use Rattle.std.specs.Option.{option_copied, option_map, option_to_list};
ghost use Rattle.svn_types.specs.Names.{depth_limit, path_cmp};
ghost use Rattle.svn_types.specs.Paths.{path_eq};
ghost use Rattle.svn_report.specs.Reports.{entry_at, has_entry_below, is_deleted_above, is_deleted_at, is_link_too_deep, reporter_fault};
ghost use Rattle.svn_report.specs.LawfulReports.{AreLawfulEntries};
ghost use Rattle.svn_report.specs.ReportNames.{next_name, IsNextName};
ghost use Rattle.svn_report.specs.ReportOrder.{ComesLast, InPathOrder, IsFirstAfter, IsIndexed, IsKept, IsNextEntry, IsPreviousEntry};
ghost use Rattle.svn_report.specs.SameReports.{same_entry, same_entry_equiv};

use crate::entry::ReportEntry;
use crate::in_order::{comes_last, first_after, next_in_order, previous_in_order};
use crate::path_index::PathIndex;
use crate::reporter_fault::ReporterFault;
use indexmap::IndexMap;
use indexmap::map::Iter;
use std::alloc::{AllocError, Global};
use std::marker::Model;
use svn_types::{MAX_DEPTH, Name, PathFault, RelPath};

/// The entries by path, in the order of the calls. Mostly that is the order of their paths too, and else there is an index of these. A contract
/// sees the list of entries.
#[derive(Debug, Drop)]
pub struct Listing {
    alloc: Global,
    entries: IndexMap<RelPath, ReportEntry>,
    index: Option<PathIndex>,
}

impl Model for Listing {
    ghost use Rattle.svn_report.specs.Reports.{Entries};
    ghost use Rattle.svn_report.specs.ReportOrder.{IsIndexed};

    ghost Value = { Entries };

    ghost view = { λ l. l.entries.entries };

    ghost invariant = { λ l. IsIndexed l.index l.entries.entries };
}

// The name that leads from the first path down to the second, where that is below it.
#[tactic(auto, using(crate::proofs::NextNames::next_named, crate::proofs::NextNames::not_named))]
fn name_below<'n>(above: &RelPath, below: &'n RelPath) -> Option<&'n Name>
    ensures name { option_to_list (option_copied result) ≡ next_name above.now below.now }
    ensures bounded { IfSome result (λ _. length above.now < depth_limit) }
{
    if below.is_within(above) {
        below.components().get(above.components().len())
    } else {
        None
    }
}

// Makes the index, where there is none and the next path doesn't come after those of all entries.
fn leave_order(
    alloc: Global,
    entries: &IndexMap<RelPath, ReportEntry>,
    index: &mut Option<PathIndex>,
    path: &RelPath,
) -> Result<(), AllocError>
    requires { IsIndexed index.old entries.now.entries }
    ensures kept { IsIndexed index.new entries.now.entries }
    ensures last { OnOk result (MatchOption index.new (ComesLast entries.now.entries path.now) (λ _. Unit {0})) }
{
    if index.is_some() || comes_last(entries, path) {
        return Ok(());
    }
    *index = Some(PathIndex::of(alloc, entries)?);
    Ok(())
}

// Entries in the order of their paths, which are all different. It takes no memory.
fn sorted<'a>(
    mut entries: Vec<(&'a RelPath, &'a ReportEntry)>,
) -> Vec<(&'a RelPath, &'a ReportEntry)>
    requires { IsDistinct path_eq (keys_of (map deref_pair entries.items)) }
    ensures same { IsPermutation (map deref_pair entries.entry.items) (map deref_pair result.items) }
    ensures ordered { IsStrictlySortedBy path_cmp (keys_of (map deref_pair result.items)) }
{
    entries.sort_unstable_by(|one, other| one.0.cmp(other.0));
    entries
}

impl Listing {
    /// No entries. It takes no memory.
    pub fn new(alloc: Global) -> Listing
        ensures { result ≡ [] }
    {
        Listing {
            alloc,
            entries: IndexMap::new(alloc),
            index: None,
        }
    }

    /// What holds of the entries of every listing. It does nothing.
    pub fn law(&self)
        ensures { AreLawfulEntries self.now }
    {
        let _entries = &self.entries;
    }

    /// How many entries there are.
    pub fn len(&self) -> usize
        ensures { result ≡ length self.now }
    {
        self.entries.len()
    }

    /// Whether there is none.
    pub fn is_empty(&self) -> bool
        ensures { IsTrue result ↔ (self.now ≡ []) }
    {
        self.entries.is_empty()
    }

    /// An entry and its path, in the order of the calls, counted from 0.
    pub fn entry(&self, i: usize) -> Option<(&RelPath, &ReportEntry)>
        ensures { option_map (λ e. (e.0.now, e.1.now)) result ≡ slice_get self.now i }
    {
        self.entries.get_index(i)
    }

    /// The entries and their paths, in the order of the calls.
    pub fn iter(&self) -> Iter<'_, RelPath, ReportEntry>
        ensures { result ≡ self.now }
    {
        self.entries.iter()
    }

    /// The same in the order of their paths. AllocError if the list can't be allocated.
    pub fn in_path_order(&self, alloc: Global) -> Result<Vec<(&RelPath, &ReportEntry)>, AllocError>
        ensures same { IfOk result (λ v. IsPermutation self.now (map deref_pair v.items)) }
        ensures ordered { IfOk result (λ v. IsStrictlySortedBy path_cmp (keys_of (map deref_pair v.items))) }
    {
        let entries: Vec<(&RelPath, &ReportEntry)> = self.entries.iter().collect(alloc)?;
        match self.index {
            Some(_) => Ok(sorted(entries)),
            None => Ok(entries),
        }
    }

    /// The entry at a path.
    #[tactic(auto, using(crate::proofs::Listings::lookup_entry))]
    pub fn entry_at(&self, path: &RelPath) -> Option<&ReportEntry>
        ensures { option_copied result ≡ entry_at self.now path.now }
    {
        self.entries.get(path)
    }

    // The first path after a path. What is below it comes first.
    fn next(&self, path: &RelPath) -> Option<&RelPath>
        ensures { IsNextEntry self.now path.now (option_copied result) }
    {
        match &self.index {
            Some(index) => index.next(path),
            None => next_in_order(&self.entries, path),
        }
    }

    // The last path before a path.
    fn previous(&self, path: &RelPath) -> Option<&RelPath>
        ensures { IsPreviousEntry self.now path.now (option_copied result) }
    {
        match &self.index {
            Some(index) => index.previous(path),
            None => previous_in_order(&self.entries, path),
        }
    }

    /// Whether an entry is strictly below a path.
    pub fn has_entry_below(&self, path: &RelPath) -> bool
        ensures { result ≡ has_entry_below self.now path.now }
    {
        match self.next(path) {
            Some(next) => next.is_within(path),
            None => false,
        }
    }

    // The first name below the path at or below which there is an entry.
    fn first_name_below(&self, path: &RelPath) -> Option<&Name>
        ensures name { IsNextName path.now self.now None (option_copied result) }
        ensures bounded { IfSome result (λ _. length path.now < depth_limit) }
    {
        match self.next(path) {
            Some(next) => name_below(path, next),
            None => None,
        }
    }

    // The first path after a name below a path, where the entries are in path order.
    fn first_after(&self, path: &RelPath, last: &Name) -> Option<&RelPath>
        requires { InPathOrder self.now }
        ensures { IsFirstAfter self.now path.now last.now (option_copied result) }
    {
        first_after(&self.entries, path, last)
    }

    // The first such name that comes after a name, where the entries are in path order.
    fn name_in_order(&self, path: &RelPath, last: &Name) -> Option<&Name>
        requires { InPathOrder self.now }
        ensures { IsNextName path.now self.now (Some last.now) (option_copied result) }
    {
        match self.first_after(path, last) {
            Some(next) => name_below(path, next),
            None => None,
        }
    }

    // The same by an index of the paths.
    fn name_by_index<'a>(
        &'a self,
        index: &'a PathIndex,
        path: &RelPath,
        last: &Name,
    ) -> Result<Option<&'a Name>, AllocError>
        requires { IsKept index.now self.now }
        ensures { IfOk result (λ found. IsNextName path.now self.now (Some last.now) (option_copied found)) }
    {
        let child = match path.join(self.alloc, last) {
            Ok(child) => child,
            Err(PathFault::Memory) => return Err(AllocError),
            // Below a path of 128 names nothing can be, so there is no first name, and none after another.
            Err(_) => return Ok(self.first_name_below(path)),
        };
        match index.next_ending(child) {
            Some(next) => Ok(name_below(path, next)),
            None => Ok(None),
        }
    }

    // The first such name that comes after a name.
    fn name_below_after(&self, path: &RelPath, last: &Name) -> Result<Option<&Name>, AllocError>
        ensures { IfOk result (λ found. IsNextName path.now self.now (Some last.now) (option_copied found)) }
    {
        match &self.index {
            Some(index) => self.name_by_index(index, path, last),
            None => Ok(self.name_in_order(path, last)),
        }
    }

    /// The first name directly below a path at or below which there is an entry, or the first of those after a name.
    /// AllocError if an allocation fails; only the second allocates.
    pub fn next_name_below(
        &self,
        path: &RelPath,
        after: Option<&Name>,
    ) -> Result<Option<&Name>, AllocError>
        ensures { IfOk result (λ found. IsNextName path.now self.now (option_copied after.entry) (option_copied found)) }
    {
        match after {
            Some(last) => self.name_below_after(path, last),
            None => Ok(self.first_name_below(path)),
        }
    }

    fn is_under_deleted(&self, path: &RelPath) -> bool
        ensures { result ≡ list_any (is_deleted_above path.now) self.now }
    {
        self.law();
        match self.previous(path) {
            Some(previous) => { path.is_within(previous) && self.is_deleted(previous) }
            None => false,
        }
    }

    fn is_deleted(&self, path: &RelPath) -> bool
        ensures { result ≡ is_deleted_at (entry_at self.now path.now) }
    {
        matches!(self.entry_at(path), Some(ReportEntry::DeletePath))
    }

    // Whether the entries are in path order, and the path comes after theirs.
    fn comes_last(&self, path: &RelPath) -> bool
        ensures { IsTrue result → ComesLast self.now path.now }
    {
        match &self.index {
            Some(_) => false,
            None => comes_last(&self.entries, path),
        }
    }

    #[tactic(auto, using(crate::proofs::InOrder::none_last))]
    fn has_entry_at(&self, path: &RelPath) -> bool
        ensures { result ≡ is_some (entry_at self.now path.now) }
    {
        if self.comes_last(path) {
            false
        } else {
            self.entry_at(path).is_some()
        }
    }

    /// Why the entry can't be the next. It takes no memory.
    pub fn fault_of(&self, path: &RelPath, entry: &ReportEntry) -> Option<ReporterFault>
        ensures { result ≡ reporter_fault self.now path.now entry.now }
    {
        if self.is_empty() && !(path.is_root() && matches!(entry, ReportEntry::SetPath { .. })) {
            Some(ReporterFault::NotRootFirst)
        } else if self.has_entry_at(path) {
            Some(ReporterFault::Repeated)
        } else if self.is_under_deleted(path) {
            Some(ReporterFault::UnderDeleted)
        } else if self.has_entry_below(path) {
            Some(ReporterFault::ParentLater)
        } else if is_link_too_deep(path, entry) {
            Some(ReporterFault::TooDeep)
        } else {
            None
        }
    }

    /// Adds an entry that can be the next. AllocError if an allocation fails, and then nothing has changed.
    pub fn push(&mut self, path: &RelPath, entry: ReportEntry) -> Result<(), AllocError>
        requires { reporter_fault self.old path.now entry ≡ None }
        ensures ok { OnOk result (self.new ≡ self.old ++ (path.now, entry) ∷ []) }
        ensures err { OnErr result (self.new ≡ self.old) }
    {
        leave_order(self.alloc, &self.entries, &mut self.index, path)?;
        let count = self.entries.len();
        self.entries.insert(path.clone()?, entry)?;
        let Some(index) = &mut self.index else {
            return Ok(());
        };
        match index.insert(path) {
            Ok(()) => Ok(()),
            Err(_) => {
                self.entries.truncate(count);
                Err(AllocError)
            }
        }
    }
}

impl Clone for Listing {
    ghost is_clone = { λ listing copy. copy ≡ listing };

    fn clone(&self) -> Result<Listing, AllocError> {
        Ok(Listing {
            alloc: self.alloc,
            entries: self.entries.clone()?,
            index: self.index.clone()?,
        })
    }
}

impl PartialEq for Listing {
    ghost eq = { pointwise same_entry };

    ghost laws = { partial_equiv_from_equiv (lists_equiv same_entry_equiv) };

    fn eq(&self, other: &Listing) -> bool {
        self.entries.as_slice() == other.entries.as_slice()
    }
}

fn is_link_too_deep(path: &RelPath, entry: &ReportEntry) -> bool
    ensures { result ≡ is_link_too_deep path.now entry.now }
{
    match entry {
        ReportEntry::LinkPath { repos_path, .. } => {
            repos_path.components().len() + MAX_DEPTH < path.components().len()
        }
        _ => false,
    }
}
