//! Reports of what a client has.
ghost use Rattle.std.specs.Prelude.{◌≡◌, ◌++◌, ◌∷◌, [], ℕ, length, map, slice_get, IsTrue, ◌↔◌, OnOk, OnErr, IfOk, IsPermutation, Some, None};
ghost use Rattle.std.specs.Cmp.{partial_equiv_from_equiv};
ghost use Rattle.std.specs.List.Sorted.{IsStrictlySortedBy};
ghost use Rattle.std.specs.Map.{keys_of};
ghost use Rattle.std.specs.Map.Iter.{deref_pair};
ghost use Rattle.std.specs.Option.{option_copied, option_map};
ghost use Rattle.svn_types.specs.Names.{path_cmp};
ghost use Rattle.svn_report.specs.Reports.{ReportView, entry_at, has_entry_below, reporter_fault, Answers, with_entry};
ghost use Rattle.svn_report.specs.LawfulReports.{IsReport};
ghost use Rattle.svn_report.specs.ReportNames.{IsNextName, reported_names, names_after, names_from};
ghost use Rattle.svn_report.specs.SameReports.{same_report, same_report_equiv};
ghost use Rattle.svn_report.specs.declared.entry.ReportEntry.TheVariants.{SetPath, LinkPath, DeletePath};

use crate::entry::ReportEntry;
use crate::listing::Listing;
use crate::report_iter::ReportIter;
use crate::reporter_fault::ReporterFault;
use std::alloc::{AllocError, Global};
use std::marker::Model;
use svn_types::{Name, RelPath, Rev};

/// What a client reports that it has: entries at paths, in the order of the calls. A contract sees the repository path of the root and
/// the list of the entries.
#[derive(Debug, Drop)]
pub struct Report {
    root: RelPath,
    listing: Listing,
}

impl Model for Report {
    ghost use Rattle.svn_report.specs.Reports.{ReportView};

    ghost Value = { ReportView };

    ghost view = { λ r. record { root = r.root; entries = r.listing } };
}

impl Report {
    /// What holds of every report, for the proofs of its callers; it does nothing. The root is set first; each path has one entry; none comes before
    /// one above it; nothing is below a delete; no link has over 64 names more than its repository path.
    pub fn law(&self)
        ensures { IsReport self.now }
    {
        self.listing.law();
    }

    /// The path in the repository of the client's root.
    pub fn root(&self) -> &RelPath
        ensures { result.now ≡ self.now.root }
    {
        &self.root
    }

    /// How many entries it has.
    pub fn len(&self) -> usize
        ensures { result ≡ length self.now.entries }
    {
        self.listing.len()
    }

    /// Whether it has no entry.
    pub fn is_empty(&self) -> bool
        ensures { IsTrue result ↔ (self.now.entries ≡ []) }
    {
        self.listing.is_empty()
    }

    /// An entry and its path, in the order of the calls, counted from 0; None from [`len`](Report::len) on.
    pub fn entry(&self, i: usize) -> Option<(&RelPath, &ReportEntry)>
        ensures { option_map (λ e. (e.0.now, e.1.now)) result ≡ slice_get self.now.entries i }
    {
        self.listing.entry(i)
    }

    /// The entries and their paths, in the order of the calls. It takes no memory.
    pub fn iter(&self) -> ReportIter<'_>
        ensures { result ≡ self.now.entries }
    {
        ReportIter {
            rest: self.listing.iter(),
        }
    }

    /// The entries and their paths, in the order of the paths. AllocError if the list can't be allocated. It costs what the report does
    /// where its entries came in that order, as a crawl's do, and else what it takes to sort them.
    pub fn in_path_order(&self, alloc: Global) -> Result<Vec<(&RelPath, &ReportEntry)>, AllocError>
        ensures same { IfOk result (λ v. IsPermutation self.now.entries (map deref_pair v.items)) }
        ensures ordered { IfOk result (λ v. IsStrictlySortedBy path_cmp (keys_of (map deref_pair v.items))) }
    {
        self.listing.in_path_order(alloc)
    }

    /// The entry at a path. The cost doesn't grow with the report.
    pub fn entry_at(&self, path: &RelPath) -> Option<&ReportEntry>
        ensures { option_copied result ≡ entry_at self.now.entries path.now }
    {
        self.listing.entry_at(path)
    }

    /// Whether an entry is strictly below a path. The cost grows with the logarithm of the report.
    pub fn has_entry_below(&self, path: &RelPath) -> bool
        ensures { result ≡ has_entry_below self.now.entries path.now }
    {
        self.listing.has_entry_below(path)
    }

    /// The first name directly below a path, in the order of names, at or below which there is an entry; with `after` the first of those that
    /// come after it. Called again and again with its own result it returns each such name once. The cost grows with the logarithm of the report.
    /// With `after` it takes memory for a path where the entries didn't come in path order, and returns AllocError if the allocation fails; else it
    /// takes none.
    pub fn next_name_below(
        &self,
        path: &RelPath,
        after: Option<&Name>,
    ) -> Result<Option<&Name>, AllocError>
        ensures first { IfOk result (λ found. IsNextName path.now self.now.entries (option_copied after.entry) (option_copied found)) }
        // called again and again it enumerates the reported names
        ensures in_turn { let names = reported_names path.now self.now.entries in
            IfOk result (λ found. names_after (option_copied after.entry) names ≡ names_from (option_copied found) names) }
    {
        self.listing.next_name_below(path, after)
    }
}

/// The same root and entries. AllocError if an allocation fails.
impl Clone for Report {
    ghost is_clone = { λ report copy. copy ≡ report };

    fn clone(&self) -> Result<Report, AllocError> {
        Ok(Report {
            root: self.root.clone()?,
            listing: self.listing.clone()?,
        })
    }
}

/// Reports are equal if they have the same root and the same entries in the same order.
impl PartialEq for Report {
    ghost eq = { same_report };

    ghost laws = { partial_equiv_from_equiv same_report_equiv };

    fn eq(&self, other: &Report) -> bool {
        self.root == other.root && self.listing == other.listing
    }
}

impl Eq for Report {
    ghost laws = { same_report_equiv };
}

impl<'a> IntoIterator for &'a Report {
    type Item = (&'a RelPath, &'a ReportEntry);

    type IntoIter = ReportIter<'a>;

    ghost into_iter_gives = { λ report entries. entries ≡ report.now.entries };

    fn into_iter(self) -> ReportIter<'a> {
        self.iter()
    }
}

/// Takes a report, call by call (`svn_ra_reporter3_t` of `svn_ra.h`). The first call sets the root; the others come in any order in which no
/// entry comes after one below it, or below a deleted one. A contract sees it as the report so far.
///
/// Each call is refused with the first of these faults that it has: NotRootFirst, Repeated, UnderDeleted, ParentLater, TooDeep, Memory.
/// A refusal leaves the reporter as it was.
#[derive(Debug, Drop)]
pub struct Reporter {
    report: Report,
}

impl Model for Reporter {
    ghost use Rattle.svn_report.specs.Reports.{ReportView};

    ghost Value = { ReportView };

    ghost view = { λ r. r.report };
}

impl Reporter {
    /// A report of no entries, whose root is that of the repository. Takes no memory.
    pub fn new(alloc: Global) -> Reporter
        ensures root { result.root ≡ [] }
        ensures entries { result.entries ≡ [] }
    {
        Reporter::new_at(alloc, RelPath::root(alloc))
    }

    /// A report of no entries, whose root is a path of the repository. Takes no memory.
    pub fn new_at(alloc: Global, root: RelPath) -> Reporter
        ensures root { result.root ≡ root }
        ensures entries { result.entries ≡ [] }
    {
        let listing = Listing::new(alloc);
        Reporter {
            report: Report { root, listing },
        }
    }

    fn add(&mut self, path: &RelPath, entry: ReportEntry) -> Result<(), ReporterFault>
        ensures answer { Answers (reporter_fault self.old.entries path.now entry) result }
        ensures added { OnOk result (self.new ≡ with_entry self.old path.now entry) }
        ensures unchanged { OnErr result (self.new ≡ self.old) }
    {
        let listing = &mut self.report.listing;
        if let Some(fault) = listing.fault_of(path, &entry) {
            return Err(fault);
        }
        listing.push(path, entry)?;
        Ok(())
    }

    /// Says that the path is there at a revision, and with `start_empty` that a directory has none of its entries and properties. NotRootFirst where
    /// it is the first call and of another path than the root, Repeated, UnderDeleted, ParentLater; Memory last.
    pub fn set_path(
        &mut self,
        path: &RelPath,
        rev: Rev,
        start_empty: bool,
    ) -> Result<(), ReporterFault>
        ensures answer { Answers (reporter_fault self.old.entries path.now (SetPath rev start_empty)) result }
        ensures added { OnOk result (self.new ≡ with_entry self.old path.now (SetPath rev start_empty)) }
        ensures unchanged { OnErr result (self.new ≡ self.old) }
    {
        self.add(path, ReportEntry::SetPath { rev, start_empty })
    }

    /// Says that another path of the repository is there at a revision. NotRootFirst where it is the first call, Repeated, UnderDeleted, ParentLater,
    /// TooDeep where the path has over 64 names more than that of the repository; Memory last.
    pub fn link_path(
        &mut self,
        path: &RelPath,
        repos_path: RelPath,
        rev: Rev,
        start_empty: bool,
    ) -> Result<(), ReporterFault>
        ensures answer { Answers (reporter_fault self.old.entries path.now (LinkPath repos_path rev start_empty)) result }
        ensures added { OnOk result (self.new ≡ with_entry self.old path.now (LinkPath repos_path rev start_empty)) }
        ensures unchanged { OnErr result (self.new ≡ self.old) }
    {
        self.add(
            path,
            ReportEntry::LinkPath {
                repos_path,
                rev,
                start_empty,
            },
        )
    }

    /// Says that nothing is at the path. NotRootFirst where it is the first call, Repeated, UnderDeleted, ParentLater; Memory last.
    pub fn delete_path(&mut self, path: &RelPath) -> Result<(), ReporterFault>
        ensures answer { Answers (reporter_fault self.old.entries path.now DeletePath) result }
        ensures added { OnOk result (self.new ≡ with_entry self.old path.now DeletePath) }
        ensures unchanged { OnErr result (self.new ≡ self.old) }
    {
        self.add(path, ReportEntry::DeletePath)
    }

    /// Ends the report, which may have no entries: no repository can serve it then. Takes no memory.
    pub fn finish_report(self) -> Report
        ensures { result ≡ self }
    {
        self.report
    }

    /// Gives the report up, as dropping the reporter does. Takes no memory.
    pub fn abort_report(self) {}
}
