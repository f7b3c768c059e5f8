//! Where the paths of a drive lead in the target.
ghost use Rattle.std.specs.Prelude.{◌≡◌, ◌&&◌, IfOk, if◌then◌else◌};
ghost use Rattle.std.specs.Option.{option_copied, option_or};
ghost use Rattle.svn_types.specs.Paths.{child};
ghost use Rattle.svn_repo.specs.Readings.{are_related};
ghost use Rattle.svn_model.specs.Sources.{revision_of, starts_empty, is_set_or_link, is_hidden, linked_or, reported_root, reported_child, source};
ghost use Rattle.svn_model.specs.Follow.{candidate, root_path, follow, follow_root, follow_child, target_path};
ghost use Rattle.svn_drive.specs.Requests.{input_of};
ghost use Rattle.svn_served.specs.Following.{reported_as, followed_as};

use std::alloc::{AllocError, Global};
use svn_drive::Request;
use svn_editor::Mode;
use svn_repo::{NodeId, Repo};
use svn_report::{Report, ReportEntry};
use svn_types::{Name, RelPath, Rev, Text};
use svn_wire_calls::HeldTexts;

/// What a drive is made from.
#[derive(Clone, Copy)]
pub(crate) struct Following<'a> {
    pub(crate) alloc: Global,
    pub(crate) repo: &'a Repo,
    pub(crate) report: &'a Report,
    pub(crate) request: &'a Request,
}

/// What a report says of a path: its own entry, the nearest at or above it, and its path in the repository.
#[derive(Drop)]
pub(crate) struct Here<'a> {
    pub(crate) path: RelPath,
    pub(crate) own: Option<&'a ReportEntry>,
    pub(crate) governing: Option<&'a ReportEntry>,
    pub(crate) repos_path: RelPath,
}

/// What becomes of a path.
#[derive(Drop)]
pub(crate) struct Followed<'a> {
    pub(crate) here: Here<'a>,
    pub(crate) is_kept: bool,
    pub(crate) parent_is_kept: bool,
    pub(crate) target_path: RelPath,
}

// A path with one name more: none that a drive has is too long.
fn child(path: &RelPath, alloc: Global, name: &Name) -> Result<RelPath, AllocError>
    ensures { IfOk result (λ p. p ≡ child path.now name.now) }
{
    match path.join(alloc, name) {
        Ok(path) => Ok(path),
        Err(_) => Err(AllocError),
    }
}

// The revision of a set or a link.
fn revision_of(entry: Option<&ReportEntry>) -> Rev
    ensures { result ≡ revision_of (option_copied entry.entry) }
{
    match entry {
        Some(ReportEntry::SetPath { rev, .. }) => *rev,
        Some(ReportEntry::LinkPath { rev, .. }) => *rev,
        _ => Rev(0),
    }
}

// Whether it says that a directory starts empty.
fn starts_empty(entry: Option<&ReportEntry>) -> bool
    ensures { result ≡ starts_empty (option_copied entry.entry) }
{
    match entry {
        Some(ReportEntry::SetPath { start_empty, .. }) => *start_empty,
        Some(ReportEntry::LinkPath { start_empty, .. }) => *start_empty,
        _ => false,
    }
}

// Whether something is there.
fn is_set_or_link(entry: Option<&ReportEntry>) -> bool
    ensures { result ≡ is_set_or_link (option_copied entry.entry) }
{
    matches!(
        entry,
        Some(ReportEntry::SetPath { .. } | ReportEntry::LinkPath { .. })
    )
}

// The entry that governs a path: its own, else the one that governs its parent.
fn own_or<'r>(
    own: Option<&'r ReportEntry>,
    above: Option<&'r ReportEntry>,
) -> Option<&'r ReportEntry>
    ensures { option_copied result ≡ option_or (option_copied own.entry) (option_copied above.entry) }
{
    match own {
        Some(entry) => Some(entry),
        None => above,
    }
}

// Whether nothing that the report says leads to a node.
fn is_hidden(here: &Here<'_>) -> bool
    ensures { result ≡ is_hidden (reported_as here.now) }
{
    !(is_set_or_link(here.governing) && (here.own.is_some() || !starts_empty(here.governing)))
}

// A link's own path in the repository, else the other.
fn linked_or(own: Option<&ReportEntry>, path: RelPath) -> Result<RelPath, AllocError>
    ensures { IfOk result (λ p. p ≡ linked_or (option_copied own.entry) path) }
{
    match own {
        Some(ReportEntry::LinkPath { repos_path, .. }) => repos_path.clone(),
        _ => Ok(path),
    }
}

// Whether two nodes are there, and of one line.
fn are_related(repo: &Repo, from: Option<NodeId>, to: Option<NodeId>) -> bool
    ensures { result ≡ are_related repo.now from to }
{
    match (from, to) {
        (Some(from), Some(to)) => repo.are_related(from, to),
        _ => false,
    }
}

// The one path where it is kept, else the other.
fn kept_or(is_kept: bool, path: RelPath, beneath: RelPath) -> RelPath
    ensures { result ≡ (if is_kept then path else beneath) }
{
    if is_kept { path } else { beneath }
}

// What the repository holds of the text of a node, if there is one and it is a file.
fn held_of(repo: &Repo, node: Option<NodeId>) -> Result<Option<Text>, AllocError> {
    let Some(node) = node else {
        return Ok(None);
    };
    match repo.shared_text(node) {
        Some(text) => Ok(Some(text.clone()?)),
        None => Ok(None),
    }
}

// `&&` as a function, so that a caller's proof sees one term and no branches.
fn both(first: bool, second: bool) -> bool
    ensures { result ≡ (first && second) }
{
    first && second
}

impl<'a> Following<'a> {
    // What the report says of the root.
    fn here_root(&self) -> Result<Here<'a>, AllocError>
        ensures { IfOk result (λ here. reported_as here ≡ reported_root self.now.report.now) }
    {
        let path = RelPath::root(self.alloc);
        let own = self.report.entry_at(&path);
        Ok(Here {
            path,
            own,
            governing: own,
            repos_path: self.report.root().clone()?,
        })
    }

    // What it says of a child.
    fn here_child(&self, above: &Here<'a>, name: &Name) -> Result<Here<'a>, AllocError>
        ensures { IfOk result (λ here. reported_as here ≡ reported_child self.now.report.now (reported_as above.now) name.now) }
    {
        let path = child(&above.path, self.alloc, name)?;
        let own = self.report.entry_at(&path);
        let beneath = child(&above.repos_path, self.alloc, name)?;
        Ok(Here {
            path,
            own,
            governing: own_or(own, above.governing),
            repos_path: linked_or(own, beneath)?,
        })
    }

    // The node that the client has there.
    fn source(&self, here: &Here<'a>) -> Option<NodeId>
        ensures { result ≡ source self.now.repo.now (reported_as here.now) }
    {
        if is_hidden(here) {
            None
        } else {
            self.repo
                .lookup(revision_of(here.governing), &here.repos_path)
        }
    }

    // The path in the target at which a child would be kept.
    fn candidate(&self, repos_path: &RelPath, beneath: &RelPath) -> Result<RelPath, AllocError>
        ensures { IfOk result (λ p. p ≡ candidate self.now.request.now.mode repos_path.now beneath.now) }
    {
        match &self.request.mode {
            Mode::Update => repos_path.clone(),
            Mode::SwitchTo(_) => beneath.clone(),
        }
    }

    // The path of the root in the target.
    fn root_path(&self) -> Result<RelPath, AllocError>
        ensures { IfOk result (λ p. p ≡ root_path self.now.request.now.mode self.now.report.now.root) }
    {
        match &self.request.mode {
            Mode::Update => self.report.root().clone(),
            Mode::SwitchTo(root) => root.clone(),
        }
    }

    // What becomes of the root.
    fn root(&self) -> Result<Followed<'a>, AllocError>
        ensures { IfOk result (λ f. followed_as f ≡ follow_root (input_of self.now.repo.now self.now.report.now self.now.request.now)) }
    {
        Ok(Followed {
            here: self.here_root()?,
            is_kept: true,
            parent_is_kept: true,
            target_path: self.root_path()?,
        })
    }

    // What becomes of a child.
    fn child(&self, above: &Followed<'a>, name: &Name) -> Result<Followed<'a>, AllocError>
        ensures { IfOk result (λ f. followed_as f ≡ follow_child (input_of self.now.repo.now self.now.report.now self.now.request.now) (followed_as above.now) name.now) }
    {
        let here = self.here_child(&above.here, name)?;
        let beneath = child(&above.target_path, self.alloc, name)?;
        let path = self.candidate(&here.repos_path, &beneath)?;
        let there = self.repo.lookup(self.request.target, &path);
        let related = are_related(self.repo, self.source(&here), there);
        let is_kept = both(above.is_kept, related);
        Ok(Followed {
            here,
            is_kept,
            parent_is_kept: above.is_kept,
            target_path: kept_or(is_kept, path, beneath),
        })
    }

    // What becomes of the path of these names.
    fn followed(&self, names: &[Name]) -> Result<Followed<'a>, AllocError>
        ensures { IfOk result (λ f. followed_as f ≡ follow (input_of self.now.repo.now self.now.report.now self.now.request.now) names.now) }
    {
        let mut followed = self.root()?;
        for name in names {
            followed = self.child(&followed, name)?;
        }
        Ok(followed)
    }

    /// What the repository holds of the texts of the file at a path of the report: before the drive and after it.
    pub(crate) fn held_at(&self, path: &RelPath) -> Result<HeldTexts, AllocError> {
        let followed = self.followed(path.components())?;
        let old = self.source(&followed.here);
        let new = self.repo.lookup(self.request.target, &followed.target_path);
        Ok(HeldTexts {
            old: held_of(self.repo, old)?,
            new: held_of(self.repo, new)?,
        })
    }

    /// The path in the target of a path of the report.
    pub(crate) fn target_path(&self, path: &RelPath) -> Result<RelPath, AllocError>
        ensures { IfOk result (λ p. p ≡ target_path (input_of self.now.repo.now self.now.report.now self.now.request.now) path.now) }
    {
        Ok(self.followed(path.components())?.target_path)
    }
}
