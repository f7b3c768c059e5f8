//! What of a working copy is untrue, put right.
ghost use Rattle.std.specs.Prelude.{IfOk};
ghost use Rattle.svn_model.specs.Nodes.{get_in, IsTrueOf};

use crate::fault::DiskFault;
use std::alloc::Global;
use std::collections::{BTreeMap, BTreeSet};
use svn_model::BaseNode;
use svn_repo::{NodeId, Repo};
use svn_types::{Kind, Name, RelPath, Rev};
use svn_wc::WorkingCopy;

// Where in the repository the node at a path of the copy is.
#[derive(Drop)]
struct Place {
    path: RelPath,
    rev: Rev,
    repos_path: RelPath,
}

impl Place {
    // The place of an entry of a directory.
    fn below(&self, alloc: Global, name: &Name) -> Result<Place, DiskFault> {
        Ok(Place {
            path: self.path.join(alloc, name)?,
            rev: self.rev,
            repos_path: self.repos_path.join(alloc, name)?,
        })
    }
}

// The place that a node of a copy names; none of one that isn't present.
fn place_of(path: &RelPath, node: &BaseNode) -> Result<Option<Place>, DiskFault> {
    match (node.rev(), node.repos_path()) {
        (Some(rev), Some(repos_path)) => Ok(Some(Place {
            path: path.clone()?,
            rev,
            repos_path: repos_path.clone()?,
        })),
        _ => Ok(None),
    }
}

// The copy put right, as far as it is made.
#[derive(Drop)]
struct Mending<'a> {
    alloc: Global,
    repo: &'a Repo,
    nodes: BTreeMap<RelPath, BaseNode>,
    // The directories of the copy that are where they say: what the copy has in them counts.
    staying: BTreeSet<RelPath>,
}

impl Mending<'_> {
    // The node of the repository at a place, complete.
    fn node_at(&self, place: &Place, id: NodeId) -> Result<Option<BaseNode>, DiskFault> {
        let Some(props) = self.repo.props(id) else {
            return Ok(None);
        };
        let rev = place.rev;
        let repos_path = place.repos_path.clone()?;
        let props = props.clone()?;
        Ok(Some(match self.repo.shared_text(id) {
            Some(text) => BaseNode::File {
                rev,
                repos_path,
                text: text.clone()?,
                props,
            },
            None => BaseNode::Dir {
                rev,
                repos_path,
                complete: true,
                props,
            },
        }))
    }

    // Puts the node at a place, and returns the places of its entries.
    fn put_node(&mut self, place: &Place, id: NodeId) -> Result<Vec<(Place, NodeId)>, DiskFault> {
        if let Some(node) = self.node_at(place, id)? {
            self.nodes.insert(place.path.clone()?, node)?;
        }
        let mut below = Vec::new(self.alloc);
        if let Some(entries) = self.repo.entries(id) {
            for (name, child) in entries.iter() {
                below.push((place.below(self.alloc, name)?, *child))?;
            }
        }
        Ok(below)
    }

    // Puts what the repository has at a place, with all below it.
    fn put_tree(&mut self, place: Place, id: NodeId) -> Result<(), DiskFault> {
        let mut left = Vec::new(self.alloc);
        left.push((place, id))?;
        'nodes: for _ in 0..u64::MAX {
            let Some((place, id)) = left.pop() else {
                break 'nodes;
            };
            let mut below = self.put_node(&place, id)?;
            left.append(&mut below)?;
        }
        Ok(())
    }

    // The node of this kind at a place.
    fn lookup(&self, place: &Place, kind: Kind) -> Option<NodeId> {
        let id = self.repo.lookup(place.rev, &place.repos_path)?;
        if self.repo.kind(id) == Some(kind) {
            Some(id)
        } else {
            None
        }
    }

    // Puts what the directory above has under the last name of a path, if it has anything there.
    fn give_way(&mut self, path: &RelPath) -> Result<(), DiskFault> {
        let (Some(name), Some(parent)) = (path.last_name(), path.parent(self.alloc)?) else {
            return Err(DiskFault::NoRoot);
        };
        let Some(node) = self.nodes.get(&parent) else {
            return Ok(());
        };
        let Some(above) = place_of(&parent, node)? else {
            return Ok(());
        };
        let place = above.below(self.alloc, name)?;
        match self.repo.lookup(place.rev, &place.repos_path) {
            Some(id) => self.put_tree(place, id),
            None => Ok(()),
        }
    }

    // Puts a directory as the repository has it. One that isn't complete stays as it is, since it is on its way.
    fn put_directory(
        &mut self,
        place: &Place,
        id: NodeId,
        node: &BaseNode,
    ) -> Result<(), DiskFault> {
        let node = if node.is_incomplete() {
            Some(node.clone()?)
        } else {
            self.node_at(place, id)?
        };
        if let Some(node) = node {
            self.nodes.insert(place.path.clone()?, node)?;
            self.staying.insert(place.path.clone()?)?;
        }
        Ok(())
    }

    // Puts what is at a place of the copy, if the repository has a node of its kind there; else it gives way.
    fn put_at(&mut self, place: &Place, node: &BaseNode) -> Result<(), DiskFault> {
        let kind = if node.is_directory() {
            Kind::Directory
        } else {
            Kind::File
        };
        let Some(id) = self.lookup(place, kind) else {
            return self.give_way(&place.path);
        };
        if node.is_directory() {
            return self.put_directory(place, id, node);
        }
        if let Some(node) = self.node_at(place, id)? {
            self.nodes.insert(place.path.clone()?, node)?;
        }
        Ok(())
    }

    // Puts the node at a path of the copy, if the directory above stays.
    fn put(&mut self, path: &RelPath, node: &BaseNode) -> Result<(), DiskFault> {
        if let Some(parent) = path.parent(self.alloc)? {
            if !self.staying.contains(&parent) {
                return Ok(());
            }
        }
        match place_of(path, node)? {
            Some(place) => self.put_at(&place, node),
            None => {
                self.nodes.insert(path.clone()?, BaseNode::NotPresent)?;
                Ok(())
            }
        }
    }

    // The place of a directory that has all its entries.
    fn complete_at(&self, path: &RelPath) -> Result<Option<Place>, DiskFault> {
        match self.nodes.get(path) {
            Some(node) if node.is_directory() && !node.is_incomplete() => place_of(path, node),
            _ => Ok(None),
        }
    }

    // Puts an entry of a directory, if the copy has nothing there.
    fn put_missing(&mut self, above: &Place, name: &Name, id: NodeId) -> Result<(), DiskFault> {
        let place = above.below(self.alloc, name)?;
        if self.nodes.contains_key(&place.path) {
            Ok(())
        } else {
            self.put_tree(place, id)
        }
    }

    // Puts each entry of a directory of the copy that it lacks.
    fn complete(&mut self, path: &RelPath) -> Result<(), DiskFault> {
        let Some(place) = self.complete_at(path)? else {
            return Ok(());
        };
        let repo = self.repo;
        let Some(id) = repo.lookup(place.rev, &place.repos_path) else {
            return Ok(());
        };
        let Some(entries) = repo.entries(id) else {
            return Ok(());
        };
        for (name, child) in entries.iter() {
            self.put_missing(&place, name, *child)?;
        }
        Ok(())
    }

    // Puts each node of a copy, those above first.
    fn put_all(&mut self, copy: &WorkingCopy) -> Result<(), DiskFault> {
        for (path, node) in copy.iter() {
            self.put(path, node)?;
        }
        Ok(())
    }

    // Puts all that the directories of the copy lack.
    fn complete_all(&mut self) -> Result<(), DiskFault> {
        let staying = self.staying.clone()?;
        for path in &staying {
            self.complete(path)?;
        }
        Ok(())
    }
}

/// The copy with what is untrue put right: each node has what the repository has at its revision and path; a node whose place has nothing of its kind
/// gives way to what the directory above has under its name; and a complete directory has all its entries. What is true stays as it is, if all above it
/// stays.
///
/// NoRoot where the repository has no directory at the place of the copy's root; Nodes where what is made is no working copy; Path where a path is
/// longer than one may be; Memory.
pub fn mended(alloc: Global, repo: &Repo, copy: &WorkingCopy) -> Result<WorkingCopy, DiskFault>
    ensures { IfOk result (λ w. IsTrueOf repo.now (get_in w)) }
{
    let mut mending = Mending {
        alloc,
        repo,
        nodes: BTreeMap::new(alloc),
        staying: BTreeSet::new(alloc),
    };
    mending.put_all(copy)?;
    mending.complete_all()?;
    let Mending { nodes, .. } = mending;
    let copy = WorkingCopy::from_nodes(alloc, nodes.into_iter().collect(alloc)?)?;
    match copy.check_true(repo) {
        Ok(()) => Ok(copy),
        Err(path) => Err(DiskFault::Untrue(path.clone()?)),
    }
}
