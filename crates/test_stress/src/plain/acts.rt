//! The calls of a drive: those of each path by itself, put in order by sorting.

use crate::plain::fault::Result;
use crate::plain::history::{NO_VALUES, Node, Values};
use crate::plain::plain_path::{MAX_DEPTH, PlainPath};
use crate::plain::request::Facts;
use crate::plain::words::{NO_TEXT, Word};
use std::alloc::Global;
use svn_types::Kind;

/// What a call does to the node at its path. A property is named by its place in the table.
#[derive(Clone, Copy)]
pub(crate) enum Deed {
    Delete { rev: u64 },
    Open { base: u64 },
    Add,
    Change { name: usize, value: Option<Word> },
    Text { base: Option<Word>, text: Word },
    Close { text: Word },
}

const KEY_LENGTH: usize = 15;

// What comes after every name.
const END_MARK: u8 = 255;

/// Where a call is: a path in path order, an end mark after it or before it, and 0 after the last.
type Key = [u8; KEY_LENGTH];

const _: () = prove!(KEY_LENGTH == MAX_DEPTH + 1);

/// A call, its path in the place of its token.
#[derive(Clone, Copy)]
pub(crate) struct Act {
    key: Key,
    pub(crate) path: PlainPath,
    pub(crate) kind: Kind,
    pub(crate) deed: Deed,
}

fn put_names(key: &mut [u8], names: &[u8]) {
    for (place, name) in key.iter_mut().zip(names.iter()) {
        *place = *name;
    }
}

fn path_key(path: PlainPath) -> Key {
    let mut key = [0; KEY_LENGTH];
    put_names(&mut key, path.names());
    key
}

// The end mark after the path.
fn close_key(path: PlainPath) -> Key {
    let mut key = path_key(path);
    if let Some(place) = key.get_mut(path.depth()) {
        *place = END_MARK;
    }
    key
}

// The end mark before the path.
fn late_key(path: PlainPath) -> Key {
    let mut key = [END_MARK; KEY_LENGTH];
    if let Some(behind) = key.get_mut(1..) {
        put_names(behind, path.names());
    }
    key
}

// Collects the calls of one path.
#[derive(Drop)]
struct Calls {
    acts: Vec<Act>,
    is_late: bool,
}

// What a path has and gets.
#[derive(Clone, Copy)]
struct Change {
    path: PlainPath,
    kind: Kind,
    old_values: Values,
    old_text: Option<Word>,
    target: Node,
}

impl Calls {
    fn add(&mut self, key: Key, path: PlainPath, kind: Kind, deed: Deed) -> Result<()> {
        self.acts.push(Act {
            key,
            path,
            kind,
            deed,
        })?;
        Ok(())
    }

    // A change of a property.
    fn add_change(&mut self, change: &Change, name: usize, value: Option<Word>) -> Result<()> {
        let deed = Deed::Change { name, value };
        self.add(path_key(change.path), change.path, change.kind, deed)
    }

    // A change for each property whose value differs.
    fn add_changes(&mut self, change: &Change) -> Result<()> {
        let values = change.old_values.iter().zip(change.target.values.iter());
        for (name, (old, new)) in values.enumerate() {
            if *old != *new {
                self.add_change(change, name, *new)?;
            }
        }
        Ok(())
    }

    // The text where it is new or another, and the close; both at the end where texts are late.
    fn add_text(&mut self, change: &Change) -> Result<()> {
        let text = change.target.text;
        let is_same = change.old_text == Some(text);
        let key = if self.is_late && !is_same {
            late_key(change.path)
        } else {
            path_key(change.path)
        };
        if !is_same {
            let base = change.old_text;
            self.add(key, change.path, Kind::File, Deed::Text { base, text })?;
        }
        self.add(key, change.path, Kind::File, Deed::Close { text })
    }

    fn add_inside(&mut self, change: &Change) -> Result<()> {
        self.add_changes(change)?;
        match change.kind {
            Kind::File => self.add_text(change),
            Kind::Directory => {
                let deed = Deed::Close { text: NO_TEXT };
                self.add(close_key(change.path), change.path, Kind::Directory, deed)
            }
        }
    }

    fn add_touched(&mut self, facts: &Facts, source: Node, target: Node) -> Result<()> {
        let deed = Deed::Open { base: facts.base };
        self.add(path_key(facts.path), facts.path, target.kind, deed)?;
        let is_fresh = facts.starts_empty && target.kind == Kind::Directory;
        let old_values = if is_fresh { NO_VALUES } else { source.values };
        self.add_inside(&Change {
            path: facts.path,
            kind: target.kind,
            old_values,
            old_text: Some(source.text),
            target,
        })
    }

    fn add_new(&mut self, path: PlainPath, target: Node) -> Result<()> {
        self.add(path_key(path), path, target.kind, Deed::Add)?;
        self.add_inside(&Change {
            path,
            kind: target.kind,
            old_values: NO_VALUES,
            old_text: None,
            target,
        })
    }

    fn add_path(&mut self, facts: &Facts) -> Result<()> {
        if facts.is_gone() {
            let deed = Deed::Delete { rev: facts.base };
            self.add(path_key(facts.path), facts.path, Kind::File, deed)?;
        }
        let Some(target) = facts.target else {
            return Ok(());
        };
        if facts.is_new() {
            return self.add_new(facts.path, target);
        }
        match facts.source {
            Some(source) if facts.is_touched() => self.add_touched(facts, source, target),
            _ => Ok(()),
        }
    }
}

/// The calls between the first and the last of a drive.
pub(crate) fn drive(alloc: Global, all: &[Facts], is_late: bool) -> Result<Vec<Act>> {
    let mut calls = Calls {
        acts: Vec::new(alloc),
        is_late,
    };
    for facts in all {
        calls.add_path(facts)?;
    }
    let mut acts = calls.acts;
    acts.sort_by_key(|act| act.key)?;
    Ok(acts)
}
