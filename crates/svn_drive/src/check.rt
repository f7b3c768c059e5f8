//! Whether a repository can serve a report.
ghost use Rattle.std.specs.Prelude.{◌≡◌, ◌≤◌, ◌<◌, ◌++◌, ◌∷◌, [], ◌&&◌, ℕ, List, length, IfOk, Some, None, Err, not};
ghost use Rattle.std.specs.Option.{option_copied};
ghost use Rattle.svn_types.specs.Names.{depth_limit};
ghost use Rattle.svn_types.specs.Paths.{parent};
ghost use Rattle.svn_repo.specs.History.{look, walk, node_at};
ghost use Rattle.svn_report.specs.Reports.{ReportView, entry_at};
ghost use Rattle.svn_model.specs.Checks.{fault_of, first_fault};
ghost use Rattle.svn_model.specs.Sources.{source, source_at, reported, reported_root, reported_child};
ghost use Rattle.svn_drive.specs.Checking.{AnswersCheck, seen_as, fault_by, fault_at};

use crate::entries::{is_hidden, is_set_or_link, own_or, revision_of};
use crate::nodes::{is_directory, node_under};
use std::alloc::{AllocError, Global};
use svn_model::ReportFault;
use svn_repo::{NodeId, Repo};
use svn_report::{Report, ReportEntry};
use svn_types::{Name, PathFault, RelPath, Rev};

/// What a report says of a path: its own entry, the nearest at or above it, and its repository path, which is `base` with the path's names from
/// the `start`-th on. That may be more names than a path has, so it isn't built.
#[derive(Drop)]
pub(crate) struct Seen<'a> {
    pub(crate) path: RelPath,
    pub(crate) own: Option<&'a ReportEntry>,
    pub(crate) governing: Option<&'a ReportEntry>,
    pub(crate) base: &'a RelPath,
    pub(crate) start: usize,
}

/// What a check reads.
#[derive(Clone, Copy)]
pub(crate) struct Check<'a> {
    pub(crate) alloc: Global,
    pub(crate) repo: &'a Repo,
    pub(crate) report: &'a Report,
}

// The node at a path below a node.
fn node_below(repo: &Repo, from: NodeId, names: &[Name]) -> Option<NodeId>
    ensures { result ≡ walk (node_at repo.now) from names.now }
{
    let mut node = from;
    for name in names {
        node = node_under(repo, node, name)?;
    }
    Some(node)
}

/// The node at a path of two parts in a revision.
#[tactic(auto, using(crate::proofs::Checks::below_none, crate::proofs::Checks::below_found))]
pub(crate) fn lookup_below(repo: &Repo, rev: Rev, base: &RelPath, names: &[Name]) -> Option<NodeId>
    ensures { result ≡ look repo.now rev (base.now ++ names.now) }
{
    let from = repo.lookup(rev, base)?;
    node_below(repo, from, names)
}

// `&&` as a function, so that a caller's proof sees one term and no branches.
pub(crate) fn all_hold(first: bool, second: bool) -> bool
    ensures { result ≡ (first && second) }
{
    first && second
}

/// A path one name longer.
pub(crate) fn child_path(alloc: Global, path: &RelPath, name: &Name) -> Result<RelPath, AllocError>
    requires short { length path.now < depth_limit }
    ensures { IfOk result (λ p. p ≡ path.now ++ name.now ∷ []) }
{
    match path.join(alloc, name) {
        Ok(below) => Ok(below),
        Err(PathFault::Memory) => Err(AllocError),
        // the path has room for a name
        Err(_) => unreachable!(),
    }
}

impl<'a> Seen<'a> {
    /// What is said of the path of a child, by its own entry.
    #[inline(always)]
    pub(crate) fn child(&self, path: RelPath, own: Option<&'a ReportEntry>) -> Seen<'a>
        requires start { self.now.start ≤ length self.now.path }
        requires longer { length self.now.path ≤ length path }
        ensures path { result.path ≡ path }
        ensures seen { (r : ReportView) (name : List ℕ) → path ≡ self.now.path ++ name ∷ [] → option_copied own.entry ≡ entry_at r.entries path → seen_as result ≡ reported_child r (seen_as self.now) name }
        ensures start { result.start ≤ length result.path }
    {
        let governing = own_or(own, self.governing);
        match own {
            Some(ReportEntry::LinkPath { repos_path, .. }) => {
                let start = path.components().len();
                Seen {
                    path,
                    own,
                    governing,
                    base: repos_path,
                    start,
                }
            }
            _ => Seen {
                path,
                own,
                governing,
                base: self.base,
                start: self.start,
            },
        }
    }
}

impl<'a> Check<'a> {
    /// What the report says of the root. Takes no memory.
    pub(crate) fn seen_root(&self) -> Seen<'a>
        ensures seen { seen_as result ≡ reported_root self.now.report.now }
        ensures start { result.start ≤ length result.path }
    {
        let path = RelPath::root(self.alloc);
        let own = self.report.entry_at(&path);
        Seen {
            path,
            own,
            governing: own,
            base: self.report.root(),
            start: 0,
        }
    }

    // What it says of a child.
    fn seen_child(&self, above: &Seen<'a>, name: &Name) -> Result<Seen<'a>, AllocError>
        requires start { above.now.start ≤ length above.now.path }
        requires short { length above.now.path < depth_limit }
        ensures seen { IfOk result (λ s. seen_as s ≡ reported_child self.now.report.now (seen_as above.now) name.now) }
        ensures start { IfOk result (λ s. s.start ≤ length s.path) }
    {
        let path = child_path(self.alloc, &above.path, name)?;
        let own = self.report.entry_at(&path);
        Ok(above.child(path, own))
    }

    // What it says of the path of these names.
    fn seen_at(&self, names: &[Name]) -> Result<Seen<'a>, AllocError>
        requires short { length names.now ≤ depth_limit }
        ensures seen { IfOk result (λ s. seen_as s ≡ reported self.now.report.now names.now) }
        ensures start { IfOk result (λ s. s.start ≤ length s.path) }
    {
        let mut seen = self.seen_root();
        for name in names {
            seen = self.seen_child(&seen, name)?;
        }
        Ok(seen)
    }

    /// The node that the client has there.
    pub(crate) fn source(&self, seen: &Seen<'_>) -> Option<NodeId>
        requires start { seen.now.start ≤ length seen.now.path }
        ensures { result ≡ source self.now.repo.now (seen_as seen.now) }
    {
        if is_hidden(seen.own, seen.governing) {
            None
        } else {
            let names = &seen.path.components()[seen.start..];
            lookup_below(self.repo, revision_of(seen.governing), seen.base, names)
        }
    }

    // The nodes that the client has at the path of an entry and at its parent; at the root both are the root's.
    fn sources(
        &self,
        path: &RelPath,
        entry: &'a ReportEntry,
    ) -> Result<(Option<NodeId>, Option<NodeId>), AllocError>
        requires { entry_at self.now.report.now.entries path.now ≡ Some entry.now }
        ensures here { IfOk result (λ n. n.0 ≡ source_at self.now.repo.now self.now.report.now path.now) }
        ensures above { IfOk result (λ n. n.1 ≡ source_at self.now.repo.now self.now.report.now (parent path.now)) }
    {
        match path.components().split_last() {
            None => {
                let root = self.seen_root();
                Ok((self.source(&root), self.source(&root)))
            }
            Some((_, names)) => {
                let above = self.seen_at(names)?;
                let here = above.child(path.clone()?, Some(entry));
                Ok((self.source(&here), self.source(&above)))
            }
        }
    }

    // The fault of an entry, by the nodes at its path and above.
    fn fault_by(
        &self,
        i: usize,
        entry: &ReportEntry,
        is_root: bool,
        here: Option<NodeId>,
        above: Option<NodeId>,
    ) -> Option<ReportFault>
        ensures { result ≡ fault_by self.now.repo.now i entry.now is_root here above }
    {
        let is_present = is_set_or_link(Some(entry));
        let is_late = revision_of(Some(entry)) > self.repo.latest();
        if all_hold(is_present, is_late) {
            Some(ReportFault::NoSuchRevision(i))
        } else if all_hold(is_present, here.is_none()) {
            Some(ReportFault::NoNode(i))
        } else if all_hold(is_root, !is_directory(self.repo, here)) {
            Some(ReportFault::RootNotDir)
        } else if all_hold(!is_root, !is_directory(self.repo, above)) {
            Some(ReportFault::ParentNotDir(i))
        } else {
            None
        }
    }

    // The fault of an entry at a path.
    fn fault_of(
        &self,
        i: usize,
        path: &RelPath,
        entry: &'a ReportEntry,
    ) -> Result<Option<ReportFault>, AllocError>
        requires { entry_at self.now.report.now.entries path.now ≡ Some entry.now }
        ensures { IfOk result (λ f. f ≡ fault_of self.now.repo.now self.now.report.now i path.now entry.now) }
    {
        let (here, above) = self.sources(path, entry)?;
        Ok(self.fault_by(i, entry, path.is_root(), here, above))
    }

    // Looks at the i-th entry.
    fn check_entry(&self, i: usize) -> Result<(), ReportFault>
        ensures { AnswersCheck (fault_at self.now.repo.now self.now.report.now i) result }
    {
        let Some((path, entry)) = self.report.entry(i) else {
            return Ok(());
        };
        self.report.law();
        match self.fault_of(i, path, entry) {
            Ok(None) => Ok(()),
            Ok(Some(fault)) => Err(fault),
            Err(_) => Err(ReportFault::Memory),
        }
    }
}

/// Whether a repository can serve a report: Ok where it has all that the report says. NoEntries at an empty report; else the fault of the first
/// entry that has one: NoSuchRevision, NoNode, at the root RootNotDir, below it ParentNotDir. Memory if an allocation fails before that, but
/// not of an empty report.
///
/// Its cost is the square of the depth for each entry: each path above it is made and looked up in the report.
pub fn check_report(alloc: Global, repo: &Repo, report: &Report) -> Result<(), ReportFault>
    ensures answer { AnswersCheck (first_fault repo.now report.now) result }
    ensures no_entries { report.now.entries ≡ [] → result ≡ Err ReportFault.NoEntries }
{
    if report.is_empty() {
        return Err(ReportFault::NoEntries);
    }
    let check = Check {
        alloc,
        repo,
        report,
    };
    for i in 0..report.len() {
        check.check_entry(i)?;
    }
    Ok(())
}
