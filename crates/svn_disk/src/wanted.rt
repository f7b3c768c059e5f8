//! What a copy on disk is brought to.
ghost use Rattle.std.specs.Prelude.{◌≡◌, IfOk};

use crate::fault::DiskFault;
use crate::inherited::inherited_props;
use std::alloc::Global;
use std::collections::{BTreeMap, BTreeSet};
use svn_model::BaseNode;
use svn_repo::Repo;
use svn_types::{RelPath, Rev};
use svn_wc::WorkingCopy;

/// What a copy on disk is brought to.
#[derive(Drop)]
pub struct Wanted {
    /// The copy.
    pub(crate) copy: WorkingCopy,
    /// The time of files that are written anew, in microseconds since 1970.
    pub(crate) time: u64,
    // The revision in which nodes aren't present that were; none where it is the root's.
    absent_in: Option<Rev>,
    /// What is made again where nothing else becomes of it.
    pub(crate) restored: BTreeSet<RelPath>,
    // What the root and switched paths inherit, as far as they change.
    inherited: BTreeMap<RelPath, Vec<u8>>,
}

// Whether a node is somewhere else in the repository than below the directory above it, or the root somewhere else than at the repository's.
fn is_top(
    alloc: Global,
    copy: &WorkingCopy,
    path: &RelPath,
    node: &BaseNode,
) -> Result<bool, DiskFault> {
    let Some(repos_path) = node.repos_path() else {
        return Ok(false);
    };
    let (Some(name), Some(parent)) = (path.last_name(), path.parent(alloc)?) else {
        return Ok(!repos_path.is_root());
    };
    match copy.get(&parent) {
        Some(
            BaseNode::Dir {
                repos_path: above,
                ..
            },
        ) => Ok(!repos_path.is_child_of(above, name)),
        _ => Ok(false),
    }
}

impl Wanted {
    /// A copy of a repository, which takes the place of another one. Files that are written anew get the time, in microseconds since 1970. Memory.
    pub fn new(
        alloc: Global,
        repo: &Repo,
        old: &WorkingCopy,
        copy: WorkingCopy,
        time: u64,
    ) -> Result<Wanted, DiskFault>
        ensures { IfOk result (λ wanted. wanted.copy ≡ copy) }
    {
        let mut inherited = BTreeMap::new(alloc);
        for (path, node) in copy.iter() {
            if old.get(path) != Some(node) && is_top(alloc, &copy, path, node)? {
                if let Some(list) = inherited_by(alloc, repo, node)? {
                    inherited.insert(path.clone()?, list)?;
                }
            }
        }
        Ok(Wanted {
            copy,
            time,
            absent_in: None,
            restored: BTreeSet::new(alloc),
            inherited,
        })
    }

    /// The same, where it is this revision in which nodes that were present no longer are. It is recorded, and else that of the copy's root.
    pub fn absent_in(self, rev: Rev) -> Wanted
        ensures { result.copy ≡ self.copy }
    {
        Wanted {
            absent_in: Some(rev),
            ..self
        }
    }

    /// The same, where these nodes aren't on disk: those that stay are made again.
    pub fn restoring(self, missing: BTreeSet<RelPath>) -> Wanted
        ensures { result.copy ≡ self.copy }
    {
        Wanted {
            restored: missing,
            ..self
        }
    }

    /// The revision in which nodes aren't present that were.
    pub(crate) fn absent_rev(&self, alloc: Global) -> Rev {
        if let Some(rev) = self.absent_in {
            return rev;
        }
        match self.copy.get(&RelPath::root(alloc)) {
            Some(root) => root.rev().unwrap_or(Rev(0)),
            None => Rev(0),
        }
    }

    /// What a node inherits from above the copy, or above where its path is switched to, if it is recorded anew.
    pub(crate) fn inherited_at(&self, path: &RelPath) -> Option<&[u8]> {
        match self.inherited.get(path) {
            Some(list) => Some(list.as_slice()),
            None => None,
        }
    }
}

// What a node inherits from above it in the repository.
fn inherited_by(alloc: Global, repo: &Repo, node: &BaseNode) -> Result<Option<Vec<u8>>, DiskFault> {
    match (node.rev(), node.repos_path()) {
        (Some(rev), Some(repos_path)) => inherited_props(alloc, repo, rev, repos_path),
        _ => Ok(None),
    }
}
