//! Paths in two orders, found by what is above, below or after a path.
ghost use Rattle.std.specs.Prelude.{◌≡◌, ◌||◌, ◌&&◌, not, false, Some, IfOk, OnOk, OnErr};
ghost use Rattle.std.specs.Ordering.{eq_by_cmp};
ghost use Rattle.std.specs.Cmp.{partial_equiv_from_equiv, partial_order_from_total, eq_by_cmp_equiv};
ghost use Rattle.std.specs.Option.{option_copied};
ghost use Rattle.std.specs.BTreeSet.{BTreeSet, contains};
ghost use Rattle.svn_types.specs.Names.{Path, path_cmp};
ghost use Rattle.svn_types.specs.Paths.{path_eq, is_below};
ghost use Rattle.svn_report.specs.ReportOrder.{end_cmp, end_total, has_entry, InPathOrder, IsNext, IsNextBy, IsPrevious};

use crate::entry::ReportEntry;
use indexmap::IndexMap;
use std::alloc::{AllocError, Global};
use std::cmp::Ordering;
use std::collections::BTreeSet;
use std::marker::Model;
use std::ops::Bound;
use svn_types::RelPath;

// Whether a path is strictly below another one. Most have no more names than that, which is the quicker test.
#[tactic(auto, using(crate::proofs::EndOrder::longer_within, crate::proofs::EndOrder::shorter_below))]
fn is_below(path: &RelPath, above: &RelPath) -> bool
    ensures { result ≡ is_below above.now path.now }
{
    above.components().len() < path.components().len() && path.is_within(above)
}

// The order in which directories end: that of paths, but that a path is after what is below it.
#[tactic(auto, using(crate::proofs::EndOrder::ends_after, crate::proofs::EndOrder::ends_before, crate::proofs::EndOrder::ends_before_above, crate::proofs::EndOrder::ends_after_apart, crate::proofs::EndOrder::ends_together))]
fn compare_ends<'x>(first: &'x RelPath, second: &'x RelPath) -> Ordering
    ensures { result ≡ end_cmp first.now second.now }
{
    match first.cmp(second) {
        Ordering::Less if is_below(second, first) => Ordering::Greater,
        Ordering::Greater if is_below(first, second) => Ordering::Less,
        order => order,
    }
}

/// A path, in the order in which directories end.
#[derive(Debug, Drop)]
pub struct PathEnd {
    path: RelPath,
}

impl Model for PathEnd {
    ghost use Rattle.svn_types.specs.Names.{Path};

    ghost Value = { Path };

    ghost view = { λ p. p.path };
}

impl PathEnd {
    /// The path.
    pub fn path(&self) -> &RelPath
        ensures { result.now ≡ self.now }
    {
        &self.path
    }
}

impl Clone for PathEnd {
    ghost is_clone = { λ end copy. copy ≡ end };

    fn clone(&self) -> Result<PathEnd, AllocError> {
        Ok(PathEnd {
            path: self.path.clone()?,
        })
    }
}

impl PartialEq for PathEnd {
    ghost eq = { eq_by_cmp end_cmp };

    ghost laws = { partial_equiv_from_equiv (eq_by_cmp_equiv end_total) };

    fn eq(&self, other: &PathEnd) -> bool {
        compare_ends(self.path(), other.path()).is_eq()
    }
}

impl Eq for PathEnd {
    ghost laws = { eq_by_cmp_equiv end_total };
}

impl PartialOrd for PathEnd {
    ghost partial_cmp = { λ x y. Some (end_cmp x y) };

    ghost laws = { partial_order_from_total end_total };

    fn partial_cmp(&self, other: &PathEnd) -> Option<Ordering> {
        Some(self.cmp(other))
    }
}

impl Ord for PathEnd {
    ghost use Rattle.std.specs.Prelude.{refl};

    ghost cmp = { end_cmp };

    ghost total = { end_total };

    ghost matches_partial_cmp = { λ x y. refl };

    ghost matches_eq = { λ x y. refl };

    fn cmp(&self, other: &PathEnd) -> Ordering {
        compare_ends(self.path(), other.path())
    }
}

// For a path after the last one, its neighbours need no search.
fn next_path<'a>(paths: &'a BTreeSet<RelPath>, path: &RelPath) -> Option<&'a RelPath>
    ensures { IsNext paths.now path.now (option_copied result) }
{
    let last = paths.last()?;
    if last <= path {
        return None;
    }
    let mut after = paths.range((Bound::Excluded(path), Bound::Unbounded));
    after.next()
}

fn previous_path<'a>(paths: &'a BTreeSet<RelPath>, path: &RelPath) -> Option<&'a RelPath>
    ensures { IsPrevious paths.now path.now (option_copied result) }
{
    match paths.last() {
        // as in `next_path`
        Some(last) if last < path => Some(last),
        _ => {
            let mut before = paths.range(..path);
            before.next_back()
        }
    }
}

fn next_end<'a>(ends: &'a BTreeSet<PathEnd>, end: &PathEnd) -> Option<&'a PathEnd>
    ensures { IsNextBy end_cmp (contains end_cmp ends.now) end.now (option_copied result) }
{
    let mut after = ends.range((Bound::Excluded(end), Bound::Unbounded));
    after.next()
}

fn insert_path(paths: &mut BTreeSet<RelPath>, path: &RelPath) -> Result<(), AllocError>
    ensures added { OnOk result ((q : Path) → contains path_cmp paths.new q ≡ (path_eq path.now q || contains path_cmp paths.old q)) }
    ensures unchanged { OnErr result ((q : Path) → contains path_cmp paths.new q ≡ contains path_cmp paths.old q) }
{
    paths.insert(path.clone()?)?;
    Ok(())
}

fn remove_path(paths: &mut BTreeSet<RelPath>, path: &RelPath)
    ensures { (q : Path) → contains path_cmp paths.new q ≡ (not (path_eq path.now q) && contains path_cmp paths.old q) }
{
    paths.remove(path);
}

fn insert_end(ends: &mut BTreeSet<PathEnd>, end: PathEnd) -> Result<(), AllocError>
    ensures added { OnOk result ((q : Path) → contains end_cmp ends.new q ≡ (path_eq end q || contains end_cmp ends.old q)) }
    ensures unchanged { OnErr result ((q : Path) → contains end_cmp ends.new q ≡ contains end_cmp ends.old q) }
{
    ends.insert(end)?;
    Ok(())
}

/// The same paths in path order and in the order in which they end; a path is shared, not copied. A contract sees the set in path order.
#[derive(Debug, Drop)]
pub struct PathIndex {
    paths: BTreeSet<RelPath>,
    ends: BTreeSet<PathEnd>,
}

impl Model for PathIndex {
    ghost use Rattle.std.specs.BTreeSet.{BTreeSet};
    ghost use Rattle.svn_types.specs.Names.{Path};
    ghost use Rattle.svn_report.specs.ReportOrder.{HasSamePaths};

    ghost Value = { BTreeSet Path };

    ghost view = { λ i. i.paths };

    ghost invariant = { λ i. HasSamePaths i.paths i.ends };
}

impl PathIndex {
    /// No paths. It takes no memory.
    pub fn new(alloc: Global) -> PathIndex
        ensures { (q : Path) → contains path_cmp result q ≡ false }
    {
        PathIndex {
            paths: BTreeSet::new(alloc),
            ends: BTreeSet::new(alloc),
        }
    }

    /// The paths of entries. AllocError if an allocation fails.
    #[tactic(auto, using(crate::proofs::InOrder::taken_all))]
    pub fn of(
        alloc: Global,
        entries: &IndexMap<RelPath, ReportEntry>,
    ) -> Result<PathIndex, AllocError>
        requires { InPathOrder entries.now.entries }
        ensures { IfOk result (λ i. (q : Path) → contains path_cmp i q ≡ has_entry entries.now.entries q) }
    {
        let mut index = PathIndex::new(alloc);
        for i in 0..entries.len() {
            let Some((path, _)) = entries.get_index(i) else {
                break;
            };
            index.insert(path)?;
        }
        Ok(index)
    }

    /// The first path after a path. What is below it comes first.
    pub fn next(&self, path: &RelPath) -> Option<&RelPath>
        ensures { IsNext self.now path.now (option_copied result) }
    {
        next_path(&self.paths, path)
    }

    /// The last path before a path.
    pub fn previous(&self, path: &RelPath) -> Option<&RelPath>
        ensures { IsPrevious self.now path.now (option_copied result) }
    {
        previous_path(&self.paths, path)
    }

    /// The first path that ends after a path. What is below that ends before it.
    pub fn next_ending(&self, path: RelPath) -> Option<&RelPath>
        ensures { IsNextBy end_cmp (contains path_cmp self.now) path (option_copied result) }
    {
        next_end(&self.ends, &PathEnd { path }).map(|end| end.path())
    }

    /// Adds a path. AllocError if an allocation fails, and then nothing has changed.
    pub fn insert(&mut self, path: &RelPath) -> Result<(), AllocError>
        requires { contains path_cmp self.old path.now ≡ false }
        ensures added { OnOk result ((q : Path) → contains path_cmp self.new q ≡ (path_eq path.now q || contains path_cmp self.old q)) }
        ensures unchanged { OnErr result ((q : Path) → contains path_cmp self.new q ≡ contains path_cmp self.old q) }
    {
        let end = PathEnd {
            path: path.clone()?,
        };
        insert_path(&mut self.paths, path)?;
        match insert_end(&mut self.ends, end) {
            Ok(()) => Ok(()),
            Err(_) => {
                remove_path(&mut self.paths, path);
                Err(AllocError)
            }
        }
    }
}

impl Clone for PathIndex {
    ghost is_clone = { λ index copy. (q : Path) → contains path_cmp copy q ≡ contains path_cmp index q };

    fn clone(&self) -> Result<PathIndex, AllocError> {
        Ok(PathIndex {
            paths: self.paths.clone()?,
            ends: self.ends.clone()?,
        })
    }
}
