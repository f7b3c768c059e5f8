//! Commits, as the model makes them: each change is a function on a flat map.

use crate::plain::fault::{Fault, Result};
use crate::plain::history::{History, NO_VALUES, Node, Tree};
use crate::plain::plain_path::PlainPath;
use crate::plain::words::{NO_TEXT, Word};
use svn_repo::CommitFault;
use svn_types::Kind;

/// A change of a commit. A property is named by its place in the table.
#[derive(Clone, Copy)]
pub(crate) enum Edit {
    MakeDir {
        path: PlainPath,
    },
    Put {
        path: PlainPath,
        text: Word,
    },
    Prop {
        path: PlainPath,
        name: usize,
        value: Option<Word>,
    },
    Remove {
        path: PlainPath,
    },
    CopyFrom {
        rev: u64,
        source: PlainPath,
        path: PlainPath,
    },
}

impl Edit {
    /// The path at which something changes.
    pub(crate) fn path(&self) -> PlainPath {
        match *self {
            Edit::MakeDir { path }
            | Edit::Put { path, .. }
            | Edit::Prop { path, .. }
            | Edit::Remove { path }
            | Edit::CopyFrom { path, .. } => path,
        }
    }
}

/// The next revision as the changes so far make it, or why the first that can't be made is refused.
#[derive(Drop)]
pub(crate) struct Draft {
    pub(crate) tree: Tree,
    pub(crate) fault: Option<CommitFault>,
    pub(crate) next_line: u64,
    pub(crate) next_number: u64,
}

// Why there is no way to a path: what is above it must be a directory, and with `whole` something must be at the path too.
fn way_fault(tree: &Tree, path: PlainPath, whole: bool) -> Option<CommitFault> {
    for length in 0..path.depth() {
        match tree.get(&path.prefix(length)) {
            None => return Some(CommitFault::Missing),
            Some(node) if node.kind == Kind::File => return Some(CommitFault::NotDir),
            Some(_) => {}
        }
    }
    if whole && !tree.contains_key(&path) {
        return Some(CommitFault::Missing);
    }
    None
}

fn source_fault(history: &History, rev: u64, source: PlainPath) -> Option<CommitFault> {
    match history.tree(rev) {
        None => Some(CommitFault::NoSuchRevision),
        Some(tree) => way_fault(tree, source, true),
    }
}

impl Draft {
    /// No changes yet.
    pub(crate) fn begin(history: &History) -> Result<Draft> {
        Ok(Draft {
            tree: history.last_tree()?,
            fault: None,
            next_line: history.next_line,
            next_number: history.next_number,
        })
    }

    // Why nothing can be made at a path: it is the root, or there is no way, or what is there is in the way.
    fn making_fault(&self, path: PlainPath, makes_file: bool) -> Option<CommitFault> {
        if path.is_root() {
            return Some(CommitFault::IsRoot);
        }
        if let Some(fault) = way_fault(&self.tree, path, false) {
            return Some(fault);
        }
        match self.tree.get(&path) {
            Some(node) if makes_file && node.kind == Kind::File => None,
            Some(_) if makes_file => Some(CommitFault::NotFile),
            Some(_) => Some(CommitFault::Exists),
            None => None,
        }
    }

    /// Why a change can't be made after those so far.
    pub(crate) fn fault_of(&self, history: &History, edit: Edit) -> Option<CommitFault> {
        match edit {
            Edit::MakeDir { path } => self.making_fault(path, false),
            Edit::Put { path, .. } => self.making_fault(path, true),
            Edit::Prop { path, .. } => way_fault(&self.tree, path, true),
            Edit::Remove { path } if path.is_root() => Some(CommitFault::IsRoot),
            Edit::Remove { path } => way_fault(&self.tree, path, true),
            Edit::CopyFrom { path, .. } if path.is_root() => Some(CommitFault::IsRoot),
            Edit::CopyFrom { rev, source, path } => match source_fault(history, rev, source) {
                Some(fault) => Some(fault),
                None => self.making_fault(path, false),
            },
        }
    }

    fn fresh_number(&mut self) -> u64 {
        let number = self.next_number;
        self.next_number = number.wrapping_add(1);
        number
    }

    // A node of a new line.
    fn new_node(&mut self, kind: Kind, text: Word) -> Node {
        let line = self.next_line;
        self.next_line = line.wrapping_add(1);
        Node {
            number: self.fresh_number(),
            line,
            kind,
            text,
            values: NO_VALUES,
        }
    }

    // Every directory above a changed path is another node revision.
    fn freshen_above(&mut self, path: PlainPath) {
        for length in 0..path.depth() {
            let number = self.fresh_number();
            if let Some(node) = self.tree.get_mut(&path.prefix(length)) {
                node.number = number;
            }
        }
    }

    fn make_dir(&mut self, path: PlainPath) -> Result<()> {
        let node = self.new_node(Kind::Directory, NO_TEXT);
        self.tree.insert(path, node)?;
        Ok(())
    }

    fn put(&mut self, path: PlainPath, text: Word) -> Result<()> {
        let node = match self.tree.get(&path).copied() {
            Some(old) => Node {
                number: self.fresh_number(),
                text,
                ..old
            },
            None => self.new_node(Kind::File, text),
        };
        self.tree.insert(path, node)?;
        Ok(())
    }

    fn set_value(&mut self, path: PlainPath, name: usize, value: Option<Word>) {
        let number = self.fresh_number();
        if let Some(node) = self.tree.get_mut(&path) {
            node.number = number;
            if let Some(old) = node.values.get_mut(name) {
                *old = value;
            }
        }
    }

    fn remove(&mut self, path: PlainPath) {
        self.tree.retain(|place, _node| !place.is_within(&path));
    }

    fn put_copy(&mut self, to: Option<PlainPath>, node: Node) -> Result<()> {
        let to = to.ok_or(Fault("deeper than the model goes"))?;
        self.tree.insert(to, node)?;
        Ok(())
    }

    // The numbers are those of the source.
    fn copy_from(
        &mut self,
        history: &History,
        rev: u64,
        source: PlainPath,
        path: PlainPath,
    ) -> Result<()> {
        let tree = history.tree(rev).ok_or(Fault("no such revision"))?;
        for (place, node) in tree {
            if place.is_within(&source) {
                self.put_copy(place.moved(source, path), *node)?;
            }
        }
        Ok(())
    }

    fn make(&mut self, history: &History, edit: Edit) -> Result<()> {
        match edit {
            Edit::MakeDir { path } => self.make_dir(path),
            Edit::Put { path, text } => self.put(path, text),
            Edit::Prop { path, name, value } => {
                self.set_value(path, name, value);
                Ok(())
            }
            Edit::Remove { path } => {
                self.remove(path);
                Ok(())
            }
            Edit::CopyFrom { rev, source, path } => self.copy_from(history, rev, source, path),
        }
    }

    /// Makes one more change, unless one before can't be made.
    pub(crate) fn add(&mut self, history: &History, edit: Edit) -> Result<()> {
        if self.fault.is_some() {
            return Ok(());
        }
        self.fault = self.fault_of(history, edit);
        if self.fault.is_none() {
            self.make(history, edit)?;
            self.freshen_above(edit.path());
        }
        Ok(())
    }

    /// Makes the changes a revision, unless one can't be made, and begins anew after the last revision.
    pub(crate) fn commit(&mut self, history: &mut History) -> Result<Option<CommitFault>> {
        let fault = self.fault;
        if fault.is_none() {
            history.revisions.push(self.tree.clone()?)?;
            history.next_line = self.next_line;
            history.next_number = self.next_number;
        }
        *self = Draft::begin(history)?;
        Ok(fault)
    }
}
