//! All untrue paths of a copy whose directories may lack entries.
ghost use Rattle.std.specs.Prelude.{◌≡◌, [], Some, IfOk, option_map};
ghost use Rattle.svn_repo.specs.Readings.{kind_of};
ghost use Rattle.svn_model.specs.Nodes.{get_in};
ghost use Rattle.svn_audit.specs.Sparse.{is_missing, first_missing, missing_at, reason_but, untrue_at_but, untrue_but, IsTrueBut};

use crate::reason::{Reason, Untrue};
use crate::untrue::{Audit, is_ordered, location_of, untrue_by};
use std::alloc::{AllocError, Global};
use svn_model::BaseNode;
use svn_nodes::ahead::Ahead;
use svn_repo::{Entries, NodeId, Repo};
use svn_types::{Kind, Name, RelPath};
use svn_wc::WorkingCopy;

/// Which entries the directories of a copy may lack: those that a sparse copy leaves out.
pub trait MayLack {
    ghost use Rattle.std.specs.Prelude.{Bool};
    ghost use Rattle.svn_types.specs.declared.kind.Kind.{Kind};
    ghost use Rattle.svn_types.specs.Names.{Path};

    // of each directory and kind of entries
    ghost lackable: { Self → Path → Kind → Bool };

    /// Whether the directory at a path may lack its entries of a kind.
    fn may_lack(&self, path: &RelPath, kind: Kind) -> bool
        ensures { result ≡ lackable self.now path.now kind };
}

/// A copy beside the repository that it is compared with, and what it may lack.
#[derive(Drop)]
struct SparseAudit<'a, L> {
    audit: Audit<'a>,
    lackable: &'a L,
}

impl<L: MayLack> SparseAudit<'_, L> {
    fn kind(&self, id: NodeId) -> Kind
        ensures { result ≡ kind_of self.now.audit.repo.now id }
    {
        match self.audit.repo.kind(id) {
            Some(kind) => kind,
            None => Kind::File,
        }
    }

    // Whether the copy has nothing for an entry, and may not lack it.
    fn is_missing(&self, path: &RelPath, name: &Name, id: NodeId) -> Result<bool, AllocError>
        ensures { IfOk result (λ missing. missing ≡ is_missing (L.lackable self.now.lackable.now path.now) self.now.audit.repo.now (get_in self.now.audit.copy.now) path.now (name.now, id)) }
    {
        // An entry is at most 64 names deep in the repository, and a path of a copy at most 64 names longer than its repository path.
        let Ok(below) = path.join(self.audit.alloc, name) else {
            return Err(AllocError);
        };
        if self.audit.copy.get(&below).is_some() {
            return Ok(false);
        }
        Ok(!self.lackable.may_lack(path, self.kind(id)))
    }

    // The first of the entries that is missing below a path.
    fn first_missing(&self, path: &RelPath, entries: &Entries) -> Result<Option<Name>, AllocError>
        ensures { IfOk result (λ name. name ≡ first_missing (L.lackable self.now.lackable.now path.now) self.now.audit.repo.now (get_in self.now.audit.copy.now) path.now entries.now) }
    {
        let mut left = entries.iter();
        'entries: while let Some((name, id)) = left.first() {
            if self.is_missing(path, name, *id)? {
                return Ok(Some(name.clone()?));
            }
            left.advance();
        }
        Ok(None)
    }

    // The first of the entries of what the repository has in the place of a node.
    fn missing_at(&self, path: &RelPath, node: &BaseNode) -> Result<Option<Name>, AllocError>
        ensures { IfOk result (λ name. name ≡ missing_at (L.lackable self.now.lackable.now) self.now.audit.repo.now (get_in self.now.audit.copy.now) path.now node.now) }
    {
        let (rev, repos_path) = location_of(self.audit.alloc, node)?;
        let Some(id) = self.audit.repo.lookup(rev, &repos_path) else {
            return Ok(None);
        };
        match self.audit.repo.entries(id) {
            Some(entries) => self.first_missing(path, entries),
            None => Ok(None),
        }
    }

    // Why a node isn't what the repository has in its place, but for entries that may be lacking.
    fn node_reason(&self, path: &RelPath, node: &BaseNode) -> Result<Option<Reason>, AllocError>
        ensures { IfOk result (λ reason. reason ≡ reason_but (L.lackable self.now.lackable.now) self.now.audit.repo.now (get_in self.now.audit.copy.now) path.now node.now) }
    {
        match self.audit.node_reason(path, node)? {
            Some(Reason::Lacks(_)) => match self.missing_at(path, node)? {
                Some(name) => Ok(Some(Reason::Lacks(name))),
                None => Ok(None),
            },
            reason => Ok(reason),
        }
    }

    fn untrue_at(&self, path: &RelPath, node: &BaseNode) -> Result<Option<Untrue>, AllocError>
        ensures { IfOk result (λ untrue. untrue ≡ untrue_at_but (L.lackable self.now.lackable.now) self.now.audit.repo.now (get_in self.now.audit.copy.now) path.now node.now) }
    {
        match self.node_reason(path, node)? {
            Some(reason) => Ok(Some(untrue_by(self.audit.alloc, path, node, reason)?)),
            None => Ok(None),
        }
    }
}

/// As [`untrue_paths`](crate::untrue_paths), of a copy whose directories may lack entries: a complete directory must have an entry, present or not,
/// for each name that it may not lack. Where it lacks others too, the first that it may not lack is the reason.
pub fn untrue_paths_but<L: MayLack>(
    alloc: Global,
    repo: &Repo,
    copy: &WorkingCopy,
    lackable: &L,
) -> Result<Vec<Untrue>, AllocError>
    ensures untrue { IfOk result (λ found. found.items ≡ untrue_but (L.lackable lackable.now) repo.now (get_in copy.now) copy.now) }
    ensures is_true { IfOk result (λ found. found.items ≡ [] → IsTrueBut (L.lackable lackable.now) repo.now (get_in copy.now)) }
    ensures true_is_empty { IfOk result (λ found. IsTrueBut (L.lackable lackable.now) repo.now (get_in copy.now) → found.items ≡ []) }
{
    repo.law();
    copy.law();
    let sparse = SparseAudit {
        audit: Audit { alloc, repo, copy },
        lackable,
    };
    let mut found = Vec::new(alloc);
    let mut left = Ahead::of(copy.nodes());
    'nodes: while let Some((path, node)) = left.first() {
        left.advance();
        is_ordered(node);
        if let Some(untrue) = sparse.untrue_at(path, node)? {
            found.push(untrue)?;
        }
    }
    Ok(found)
}
