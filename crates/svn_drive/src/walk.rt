//! What a drive is made from, and the places that it walks over. A place is made inline, where it stays.
ghost use Rattle.std.specs.Prelude.{◌≡◌, ◌&&◌, not, true, Some, is_some, ◌<◌, ◌≤◌, length, if◌then◌else◌, IfOk, [], ◌∷◌, ◌++◌};
ghost use Rattle.std.specs.Option.{option_copied};
ghost use Rattle.svn_types.specs.Names.{depth_limit};
ghost use Rattle.svn_types.specs.Paths.{is_below, is_within};
ghost use Rattle.svn_report.specs.Reports.{has_entry_below};
ghost use Rattle.svn_repo.specs.History.{look};
ghost use Rattle.svn_model.specs.Sources.{source, reported_child};
ghost use Rattle.svn_model.specs.Tree.{is_entered};
ghost use Rattle.svn_model.specs.Follow.{root_path, source_node, target_node};
ghost use Rattle.svn_drive.specs.Checking.{seen_as};
ghost use Rattle.svn_drive.specs.NamesLeft.{IsBelow};
ghost use Rattle.svn_drive.specs.Parts.{IsPart, entries_in};
ghost use Rattle.svn_drive.specs.Walking.{IsAt, IsNearlyAt, IsKnown, is_changed_at, entry_of, linked_node, candidate_node, request_of};

use crate::check::{Check, Seen, all_hold, child_path, lookup_below};
use crate::child_names::Below;
use crate::entries::{is_hidden, starts_empty};
use crate::nodes::{are_related, is_directory, node_under};
use crate::place::{Known, Place};
use crate::report_part::ReportPart;
use crate::request::Request;
use std::alloc::{AllocError, Global};
use svn_editor::{Mode, Token};
use svn_repo::{NodeId, Repo};
use svn_report::{Report, ReportEntry};
use svn_types::{RelPath, Rev};

/// A drive: what it reads, and what is asked for.
#[derive(Clone, Copy)]
pub(crate) struct Walk<'a> {
    pub(crate) alloc: Global,
    pub(crate) repo: &'a Repo,
    pub(crate) report: &'a Report,
    pub(crate) request: &'a Request,
}

// The node that a child has in the target: the one that keeps it, else the one below its parent's.
fn target_of(is_kept: bool, there: &Option<NodeId>, beneath: &Option<NodeId>) -> Option<NodeId>
    ensures { result ≡ (if is_kept then there.now else beneath.now) }
{
    if is_kept { *there } else { *beneath }
}

impl<'a> Walk<'a> {
    // What reads the report.
    fn reading(&self) -> Check<'a>
        ensures repo { result.repo ≡ self.now.repo }
        ensures report { result.report ≡ self.now.report }
    {
        Check {
            alloc: self.alloc,
            repo: self.repo,
            report: self.report,
        }
    }

    // Whether something is reported below a place.
    #[inline(always)]
    fn has_below(&self, place: &Place<'a>) -> bool
        requires { IsNearlyAt (request_of self.now) place.now }
        ensures { result ≡ has_entry_below self.now.report.now.entries place.now.here.path }
    {
        !place.below.is_empty()
    }

    // Whether the drive changes a kept path, or something below it.
    #[inline(always)]
    fn is_changed(&self, place: &Place<'a>) -> bool
        requires { IsNearlyAt (request_of self.now) place.now }
        ensures { result ≡ is_changed_at (request_of self.now) place.now }
    {
        place.here.path.is_root()
            || place.source != place.target
            || (starts_empty(place.here.own) && is_directory(self.repo, place.source))
            || self.has_below(place)
    }

    // The place with `is_touched`, which depends on its other fields.
    #[inline(always)]
    fn with_touched(&self, place: Place<'a>) -> Place<'a>
        requires { IsNearlyAt (request_of self.now) place }
        ensures at { IsAt (request_of self.now) result }
        ensures path { result.here.path ≡ place.entry.here.path }
        ensures parent { result.parent ≡ place.entry.parent }
    {
        let touched = place.is_kept && self.is_changed(&place);
        Place {
            is_touched: touched,
            ..place
        }
    }

    // The path of the root in the target.
    fn root_path(&self) -> &'a RelPath
        ensures { result.now ≡ root_path self.now.request.now.mode self.now.report.now.root }
    {
        match &self.request.mode {
            Mode::Update => self.report.root(),
            Mode::SwitchTo(root) => root,
        }
    }

    /// The node that the client has at the root.
    pub(crate) fn root_source(&self) -> Option<NodeId>
        ensures { result ≡ source_node (request_of self.now) [] }
    {
        let reading = self.reading();
        reading.source(&reading.seen_root())
    }

    /// The node that the target has at the root.
    pub(crate) fn root_target(&self) -> Option<NodeId>
        ensures { result ≡ target_node (request_of self.now) [] }
    {
        self.repo.lookup(self.request.target, self.root_path())
    }

    /// The root, by all entries of the report. It takes no memory.
    pub(crate) fn root(&self, reported: ReportPart<'a>) -> Place<'a>
        requires { IsPart self.now.report.now.entries (is_within []) (entries_in reported) }
        ensures at { IsAt (request_of self.now) result }
        ensures path { result.here.path ≡ [] }
        ensures parent { result.parent ≡ 0 }
    {
        self.report.law();
        let here = self.reading().seen_root();
        let (_, below) = reported.split_own(&here.path);
        self.with_touched(Place {
            here,
            below,
            is_kept: true,
            parent_is_kept: true,
            source: self.root_source(),
            target: self.root_target(),
            is_touched: true,
            parent: Token(0),
        })
    }

    // The node that a place has in a revision, at the path that the client has there. The children of one directory are mostly of few revisions,
    // so the last answer is kept.
    fn known_in(&self, place: &Place<'a>, rev: Rev, known: Option<Known>) -> Known
        requires start { place.now.here.start ≤ length place.now.here.path }
        requires known { IsKnown (request_of self.now) place.now known }
        ensures node { result.node ≡ look self.now.repo.now rev (seen_as place.now.here).repos_path }
        ensures known { IsKnown (request_of self.now) place.now (Some result) }
    {
        if let Some(last) = known {
            if last.rev == rev {
                return last;
            }
        }
        let names = &place.here.path.components()[place.here.start..];
        let node = lookup_below(self.repo, rev, place.here.base, names);
        Known { rev, node }
    }

    // The entry of a node under a name. Mostly the node is the one that the client has at the place, whose entry is at hand.
    fn entry_of(
        &self,
        place: &Place<'a>,
        node: &Option<NodeId>,
        below: &Below<'a>,
    ) -> Option<NodeId>
        requires { IsBelow (request_of self.now) place.now below.now }
        ensures { result ≡ entry_of self.now.repo.now node.now below.now.name.now }
    {
        if node == &place.source {
            return below.source.copied();
        }
        match node {
            Some(id) => node_under(self.repo, *id, below.name),
            None => None,
        }
    }

    // The node that the client has at a child: the entry of its parent's node, but where the report has an entry of its own.
    #[inline(always)]
    fn child_source(
        &self,
        above: &Place<'a>,
        here: &Seen<'a>,
        below: &Below<'a>,
        known: &mut Option<Known>,
    ) -> Option<NodeId>
        requires at { IsAt (request_of self.now) above.now }
        requires below { IsBelow (request_of self.now) above.now below.now }
        requires here { seen_as here.now ≡ reported_child self.now.report.now (seen_as above.now.here) below.now.name.now }
        requires start { here.now.start ≤ length here.now.path }
        requires known { IsKnown (request_of self.now) above.now known.old }
        ensures source { result ≡ source self.now.repo.now (seen_as here.now) }
        ensures known { IsKnown (request_of self.now) above.now known.new }
    {
        if let Some(ReportEntry::SetPath { rev, .. }) = here.own {
            let last = self.known_in(above, *rev, *known);
            let source = self.entry_of(above, &last.node, below);
            *known = Some(last);
            return source;
        }
        if here.own.is_some() {
            self.reading().source(here)
        } else if is_hidden(None, here.governing) {
            None
        } else {
            below.source.copied()
        }
    }

    // The node in the target where a link leads; without one the node given.
    #[inline(always)]
    fn linked_node(&self, own: Option<&ReportEntry>, beneath: &Option<NodeId>) -> Option<NodeId>
        ensures { result ≡ linked_node (request_of self.now) (option_copied own.entry) beneath.now }
    {
        match own {
            Some(ReportEntry::LinkPath { repos_path, .. }) => {
                self.repo.lookup(self.request.target, repos_path)
            }
            _ => *beneath,
        }
    }

    // The node in the target that would keep a child of a kept place, by the one below its parent's: only an update follows links.
    #[inline(always)]
    fn candidate(&self, here: &Seen<'a>, beneath: &Option<NodeId>) -> Option<NodeId>
        ensures { result ≡ candidate_node (request_of self.now) self.now.request.now.mode (option_copied here.now.own) beneath.now }
    {
        match &self.request.mode {
            Mode::Update => self.linked_node(here.own, beneath),
            Mode::SwitchTo(_) => *beneath,
        }
    }

    // The child of a place, by what the report says of it.
    #[inline(always)]
    fn child_seen(
        &self,
        above: &Place<'a>,
        here: Seen<'a>,
        below: &Below<'a>,
        reported: ReportPart<'a>,
        parent: Token,
        known: &mut Option<Known>,
    ) -> Place<'a>
        requires at { IsAt (request_of self.now) above.now }
        requires below { IsBelow (request_of self.now) above.now below.now }
        requires here { seen_as here ≡ reported_child self.now.report.now (seen_as above.now.here) below.now.name.now }
        requires start { here.start ≤ length here.path }
        requires reported { IsPart self.now.report.now.entries (is_below here.path) (entries_in reported) }
        requires known { IsKnown (request_of self.now) above.now known.old }
        ensures at { IsAt (request_of self.now) result }
        ensures path { result.here.path ≡ here.entry.path }
        ensures parent { result.parent ≡ parent }
        ensures known { IsKnown (request_of self.now) above.now known.new }
    {
        let source = self.child_source(above, &here, below, known);
        let beneath = below.target.copied();
        let there = self.candidate(&here, &beneath);
        let related = are_related(self.repo, &source, &there);
        let is_kept = all_hold(above.is_kept, related);
        let target = target_of(is_kept, &there, &beneath);
        self.with_touched(Place {
            here,
            below: reported,
            is_kept,
            parent_is_kept: above.is_kept,
            source,
            target,
            is_touched: false,
            parent,
        })
    }

    /// The child of a place, by its name and what is below that, and what is known of the place itself.
    #[inline(always)]
    pub(crate) fn child(
        &self,
        above: &Place<'a>,
        below: &Below<'a>,
        parent: Token,
        known: &mut Option<Known>,
    ) -> Result<Place<'a>, AllocError>
        requires at { IsAt (request_of self.now) above.now }
        requires below { IsBelow (request_of self.now) above.now below.now }
        requires short { length above.now.here.path < depth_limit }
        requires known { IsKnown (request_of self.now) above.now known.old }
        ensures at { IfOk result (λ p. IsAt (request_of self.now) p) }
        ensures path { IfOk result (λ p. (p.here.path ≡ above.now.here.path ++ below.now.name.now ∷ []) × (length p.here.path ≤ depth_limit)) }
        ensures parent { IfOk result (λ p. p.parent ≡ parent) }
        ensures known { IsKnown (request_of self.now) above.now known.new }
    {
        self.report.law();
        let path = child_path(self.alloc, &above.here.path, below.name)?;
        let (own, reported) = below.reported.split_own(&path);
        let here = above.here.child(path, own);
        Ok(self.child_seen(above, here, below, reported, parent, known))
    }

    /// Whether the client has a node there that the drive deletes.
    pub(crate) fn is_gone(place: &Place<'a>) -> bool
        ensures { result ≡ (is_some place.now.source && not place.now.is_kept && place.now.parent_is_kept) }
    {
        place.source.is_some() && !place.is_kept && place.parent_is_kept
    }

    /// Whether the path is opened or added.
    pub(crate) fn is_entered(&self, place: &Place<'a>) -> bool
        requires { IsAt (request_of self.now) place.now }
        ensures { result ≡ is_entered (request_of self.now) place.now.here.path }
    {
        place.is_touched || (!place.is_kept && place.target.is_some())
    }
}
