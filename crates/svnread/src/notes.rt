//! What is noted of the revisions of a dump: their properties, and which paths they changed.

use crate::headers::Headers;
use std::alloc::{AllocError, Global};
use std::mem::replace;
use svn_dump::{Action, CopySource};
use svn_replies::{Changes, PathChange, PathChanges, Revisions};
use svn_types::{PathBytesFault, PathFault, Props, RelPath, Rev};

/// How many bytes a section of no properties has.
const NO_PROPS: u64 = 10;

/// What is noted, revision by revision.
#[derive(Drop)]
pub(crate) struct Notes {
    latest: Rev,
    props: Vec<Props>,
    changes: Vec<PathChanges>,
    // what the records say of the revision that began last
    last: Vec<PathChange>,
}

// A path; none where it isn't one, which no dump has that was loaded.
fn path_of(alloc: Global, bytes: Option<Vec<u8>>) -> Result<Option<RelPath>, AllocError> {
    let Some(bytes) = bytes else {
        return Ok(None);
    };
    match RelPath::from_bytes(alloc, &bytes) {
        Ok(path) => Ok(Some(path)),
        Err(PathBytesFault::Path(PathFault::Memory)) => Err(AllocError),
        Err(_) => Ok(None),
    }
}

// What a node is a copy of, if it is one.
fn source_of(
    alloc: Global,
    rev: Option<u64>,
    path: Option<Vec<u8>>,
) -> Result<Option<CopySource>, AllocError> {
    let Some(rev) = rev else {
        return Ok(None);
    };
    match path_of(alloc, path)? {
        Some(path) => Ok(Some(CopySource {
            rev: Rev(rev),
            path,
        })),
        None => Ok(None),
    }
}

// Whether properties are given: of a node that is new a section of none gives none.
fn has_props(props: Option<u64>, is_new: bool) -> bool {
    match props {
        Some(len) => !is_new || len > NO_PROPS,
        None => false,
    }
}

// What a record of a node says.
fn change_of(alloc: Global, headers: Headers) -> Result<Option<PathChange>, AllocError> {
    let Headers {
        props,
        text,
        path,
        kind,
        action,
        source_rev,
        source_path,
        ..
    } = headers;
    let Some(action) = action else {
        return Ok(None);
    };
    let Some(path) = path_of(alloc, path)? else {
        return Ok(None);
    };
    let source = source_of(alloc, source_rev, source_path)?;
    let is_new = action != Action::Change && source.is_none();
    Ok(Some(PathChange {
        path,
        action,
        kind,
        source,
        text,
        props: has_props(props, is_new),
    }))
}

// Whether a node is put where the one before was deleted.
fn is_put_again(changes: &[PathChange], change: &PathChange) -> bool {
    match changes.last() {
        Some(last) => {
            last.action == Action::Delete
                && change.action == Action::Add
                && last.path == change.path
        }
        None => false,
    }
}

// A copy that replaces a node has two records: the node is deleted, and the copy is added.
fn push_change(changes: &mut Vec<PathChange>, change: PathChange) -> Result<(), AllocError> {
    let mut change = change;
    if is_put_again(changes, &change) {
        let _deleted = changes.pop();
        change.action = Action::Replace;
    }
    Ok(changes.push(change)?)
}

// What the records of a revision say, each path once, in path order.
fn changes_of(alloc: Global, records: Vec<PathChange>) -> Result<PathChanges, AllocError> {
    let mut records = records;
    records.sort_by(|one, other| one.path.cmp(&other.path))?;
    let mut changes = Vec::new(alloc);
    for change in records {
        push_change(&mut changes, change)?;
    }
    Ok(PathChanges::new(changes))
}

impl Notes {
    /// Nothing yet of the revisions up to the last one.
    pub(crate) fn new(alloc: Global, latest: Rev) -> Notes {
        Notes {
            latest,
            props: Vec::new(alloc),
            changes: Vec::new(alloc),
            last: Vec::new(alloc),
        }
    }

    // The revision that began last has no more records.
    fn end(&mut self, alloc: Global) -> Result<(), AllocError> {
        if self.changes.len() < self.props.len() {
            let last = replace(&mut self.last, Vec::new(alloc));
            self.changes.push(changes_of(alloc, last)?)?;
        }
        Ok(())
    }

    // A revision of which the dump says nothing.
    fn pass(&mut self, alloc: Global) -> Result<(), AllocError> {
        self.props.push(Props::new(alloc))?;
        self.end(alloc)
    }

    /// A revision begins.
    pub(crate) fn begin(
        &mut self,
        alloc: Global,
        rev: u64,
        props: Props,
    ) -> Result<(), AllocError> {
        self.end(alloc)?;
        let count = self.props.len() as u64;
        if rev > self.latest.0 || rev < count {
            return Ok(());
        }
        for _ in count..rev {
            self.pass(alloc)?;
        }
        Ok(self.props.push(props)?)
    }

    /// A record that is no revision's: a node's, or none.
    pub(crate) fn change(&mut self, alloc: Global, headers: Headers) -> Result<(), AllocError> {
        match change_of(alloc, headers)? {
            Some(change) => Ok(self.last.push(change)?),
            None => Ok(()),
        }
    }

    /// What was noted of all revisions.
    pub(crate) fn finish(self, alloc: Global) -> Result<(Revisions, Changes), AllocError> {
        let mut notes = self;
        notes.end(alloc)?;
        let Notes { props, changes, .. } = notes;
        Ok((Revisions::new(props), Changes::new(changes)))
    }
}
