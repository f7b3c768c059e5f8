//! All untrue paths of a copy.
ghost use Rattle.std.specs.Prelude.{◌≡◌, [], Some, IfOk, IsSome, bytes_eq};
ghost use Rattle.std.specs.Map.{keys_of};
ghost use Rattle.svn_types.specs.Pairs.{InNameOrder};
ghost use Rattle.svn_repo.specs.History.{node_at};
ghost use Rattle.svn_repo.specs.Readings.{kind_of, text_of, props_of, entries_of, is_directory};
ghost use Rattle.svn_model.specs.Nodes.{get_in, node_revision, node_path, node_props, IsTrueOf};
ghost use Rattle.svn_audit.specs.Untrue.{first_changed, first_lacking, file_reason, whole_reason, dir_reason, missing_reason, node_reason, untrue_by, untrue_at, untrue_in};

use crate::reason::{Reason, Untrue};
use law_copy::truth_is_tested;
use std::alloc::{AllocError, Global};
use svn_model::BaseNode;
use svn_nodes::ahead::Ahead;
use svn_repo::{Entries, NodeId, Repo};
use svn_types::{Kind, Name, PropName, Props, RelPath, Rev, Text};
use svn_wc::WorkingCopy;

// The first name, in order, whose value differs. Properties that are the same take no memory.
pub(crate) fn first_changed(
    alloc: Global,
    props: &Props,
    others: &Props,
) -> Result<Option<PropName>, AllocError>
    ensures { IfOk result (λ name. name ≡ first_changed props.now others.now) }
{
    if props.is_same(others) {
        return Ok(None);
    }
    let changes = props.changes_to(alloc, others)?;
    match changes.first() {
        Some((name, _)) => Ok(Some(name.clone()?)),
        None => Ok(None),
    }
}

// The first of the entries that the copy lacks below a path.
fn first_lacking(
    alloc: Global,
    copy: &WorkingCopy,
    path: &RelPath,
    entries: &Entries,
) -> Result<Option<Name>, AllocError>
    ensures { IfOk result (λ name. name ≡ first_lacking (get_in copy.now) path.now (keys_of entries.now)) }
{
    let mut left = entries.iter();
    'entries: while let Some((name, _)) = left.first() {
        // An entry is at most 64 names deep in the repository, and a path of a copy at most 64 names longer than its repository path.
        let Ok(below) = path.join(alloc, name) else {
            return Err(AllocError);
        };
        if copy.get(&below).is_none() {
            return Ok(Some(name.clone()?));
        }
        left.advance();
    }
    Ok(None)
}

// The revision of a node, and its path in the repository; of one that is not present revision 0 and the root.
pub(crate) fn location_of(alloc: Global, node: &BaseNode) -> Result<(Rev, RelPath), AllocError>
    ensures { IfOk result (λ at. at ≡ (node_revision (Some node.now), node_path (Some node.now))) }
{
    match node {
        BaseNode::File {
            rev,
            repos_path,
            ..
        }
        | BaseNode::Dir {
            rev,
            repos_path,
            ..
        } => Ok((*rev, repos_path.clone()?)),
        BaseNode::NotPresent => Ok((Rev(0), RelPath::root(alloc))),
    }
}

// Its properties are in order.
pub(crate) fn is_ordered(node: &BaseNode)
    ensures { InNameOrder (node_props (Some node.now)) }
{
    if let Some(props) = node.props() {
        let _order = props.iter();
    }
}

/// A copy beside the repository that it is compared with.
#[derive(Clone, Copy)]
pub(crate) struct Audit<'a> {
    pub(crate) alloc: Global,
    pub(crate) repo: &'a Repo,
    pub(crate) copy: &'a WorkingCopy,
}

/// A node that isn't true for a reason.
pub(crate) fn untrue_by(
    alloc: Global,
    path: &RelPath,
    node: &BaseNode,
    reason: Reason,
) -> Result<Untrue, AllocError>
    ensures { IfOk result (λ untrue. untrue ≡ untrue_by path.now node.now reason) }
{
    let (rev, repos_path) = location_of(alloc, node)?;
    Ok(Untrue {
        path: path.clone()?,
        rev,
        repos_path,
        reason,
    })
}

impl Audit<'_> {
    fn is_directory(&self, id: NodeId) -> bool
        ensures { result ≡ is_directory (kind_of self.now.repo.now id) }
    {
        self.repo.kind(id) == Some(Kind::Directory)
    }

    fn has_text(&self, id: NodeId, text: &Text) -> bool
        ensures { result ≡ bytes_eq text.now (text_of self.now.repo.now id) }
    {
        match self.repo.text(id) {
            Some(other) => text.as_slice() == other,
            None => text.as_slice().is_empty(),
        }
    }

    // The first of the properties that the node of the repository doesn't have so.
    fn first_changed(&self, id: NodeId, props: &Props) -> Result<Option<PropName>, AllocError>
        ensures { IsSome (node_at self.now.repo.now id) → IfOk result (λ name. name ≡ first_changed props.now (props_of self.now.repo.now id)) }
    {
        match self.repo.props(id) {
            Some(others) => first_changed(self.alloc, props, others),
            None => Ok(None),
        }
    }

    // The first of the node's entries that the copy lacks below a path.
    fn first_lacking(&self, id: NodeId, path: &RelPath) -> Result<Option<Name>, AllocError>
        ensures { IfOk result (λ name. name ≡ first_lacking (get_in self.now.copy.now) path.now (keys_of (entries_of self.now.repo.now id))) }
    {
        match self.repo.entries(id) {
            Some(entries) => first_lacking(self.alloc, self.copy, path, entries),
            None => Ok(None),
        }
    }

    // Why a file isn't the node of the repository.
    fn file_reason(
        &self,
        id: NodeId,
        text: &Text,
        props: &Props,
    ) -> Result<Option<Reason>, AllocError>
        ensures { IsSome (node_at self.now.repo.now id) → IfOk result (λ reason. reason ≡ file_reason self.now.repo.now text.now props.now id) }
    {
        if self.is_directory(id) {
            return Ok(Some(Reason::AnotherKind(Kind::Directory)));
        }
        if !self.has_text(id, text) {
            return Ok(Some(Reason::AnotherText));
        }
        match self.first_changed(id, props)? {
            Some(name) => Ok(Some(Reason::AnotherProperty(name))),
            None => Ok(None),
        }
    }

    // Why the copy hasn't the directory of the repository whole.
    fn whole_reason(
        &self,
        id: NodeId,
        path: &RelPath,
        props: &Props,
    ) -> Result<Option<Reason>, AllocError>
        ensures { IsSome (node_at self.now.repo.now id) → IfOk result (λ reason. reason ≡ whole_reason self.now.repo.now (get_in self.now.copy.now) path.now props.now id) }
    {
        if let Some(name) = self.first_changed(id, props)? {
            return Ok(Some(Reason::AnotherProperty(name)));
        }
        match self.first_lacking(id, path)? {
            Some(name) => Ok(Some(Reason::Lacks(name))),
            None => Ok(None),
        }
    }

    // Why a directory isn't the node of the repository.
    fn dir_reason(
        &self,
        id: NodeId,
        path: &RelPath,
        complete: bool,
        props: &Props,
    ) -> Result<Option<Reason>, AllocError>
        ensures { IsSome (node_at self.now.repo.now id) → IfOk result (λ reason. reason ≡ dir_reason self.now.repo.now (get_in self.now.copy.now) path.now complete props.now id) }
    {
        if !self.is_directory(id) {
            Ok(Some(Reason::AnotherKind(Kind::File)))
        } else if complete {
            self.whole_reason(id, path, props)
        } else {
            Ok(None)
        }
    }

    // Why nothing was found in a revision.
    fn missing_reason(&self, rev: Rev) -> Reason
        ensures { result ≡ missing_reason self.now.repo.now rev }
    {
        if rev <= self.repo.latest() {
            Reason::Nothing
        } else {
            Reason::NoRevision
        }
    }

    // Why a node isn't what the repository has in its place.
    pub(crate) fn node_reason(
        &self,
        path: &RelPath,
        node: &BaseNode,
    ) -> Result<Option<Reason>, AllocError>
        ensures { IfOk result (λ reason. reason ≡ node_reason self.now.repo.now (get_in self.now.copy.now) path.now node.now) }
    {
        // what a look-up finds is a node of the repository
        self.repo.law();
        match node {
            BaseNode::File {
                rev,
                repos_path,
                text,
                props,
            } => match self.repo.lookup(*rev, repos_path) {
                Some(id) => self.file_reason(id, text, props),
                None => Ok(Some(self.missing_reason(*rev))),
            },
            BaseNode::Dir {
                rev,
                repos_path,
                complete,
                props,
            } => match self.repo.lookup(*rev, repos_path) {
                Some(id) => self.dir_reason(id, path, *complete, props),
                None => Ok(Some(self.missing_reason(*rev))),
            },
            BaseNode::NotPresent => Ok(None),
        }
    }

    fn untrue_at(&self, path: &RelPath, node: &BaseNode) -> Result<Option<Untrue>, AllocError>
        ensures { IfOk result (λ untrue. untrue ≡ untrue_at self.now.repo.now (get_in self.now.copy.now) path.now node.now) }
    {
        match self.node_reason(path, node)? {
            Some(reason) => Ok(Some(untrue_by(self.alloc, path, node, reason)?)),
            None => Ok(None),
        }
    }
}

/// All paths of a copy whose nodes aren't what the repository has in their places, in path order, each with the first reason that applies. A file
/// must have the text and the properties that the repository has, a complete directory the properties and, for each name there, an entry, present or
/// not: a missing entry is reported at the directory's path. Of n nodes it costs the order of n log n, and memory for what is untrue. AllocError where an
/// allocation failed.
pub fn untrue_paths(
    alloc: Global,
    repo: &Repo,
    copy: &WorkingCopy,
) -> Result<Vec<Untrue>, AllocError>
    ensures untrue { IfOk result (λ found. found.items ≡ untrue_in repo.now (get_in copy.now) copy.now) }
    ensures is_true { IfOk result (λ found. found.items ≡ [] → IsTrueOf repo.now (get_in copy.now)) }
    ensures true_is_empty { IfOk result (λ found. IsTrueOf repo.now (get_in copy.now) → found.items ≡ []) }
{
    truth_is_tested();
    repo.law();
    copy.law();
    let audit = Audit { alloc, repo, copy };
    let mut found = Vec::new(alloc);
    let mut left = Ahead::of(copy.nodes());
    'nodes: while let Some((path, node)) = left.first() {
        left.advance();
        is_ordered(node);
        if let Some(untrue) = audit.untrue_at(path, node)? {
            found.push(untrue)?;
        }
    }
    Ok(found)
}
