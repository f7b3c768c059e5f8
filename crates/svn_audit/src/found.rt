//! Why a node isn't what is known to be in its place, whoever knows it.
ghost use Rattle.std.specs.Prelude.{◌≡◌, IfOk, option_map};
ghost use Rattle.std.specs.Option.{option_copied};
ghost use Rattle.svn_model.specs.Nodes.{get_in};
ghost use Rattle.svn_audit.specs.Untrue.{first_lacking};
ghost use Rattle.svn_audit.specs.Places.{found_place, file_by, whole_by, dir_by, place_reason};

use crate::reason::Reason;
use crate::untrue::first_changed;
use std::alloc::{AllocError, Global};
use svn_model::BaseNode;
use svn_types::{Kind, Name, Props, RelPath, Text};
use svn_wc::WorkingCopy;

/// What is in the place of a node, as far as an audit looks.
#[derive(Clone, Copy, Debug)]
pub enum Found<'a> {
    /// A file.
    File {
        /// Its text, kept as the copy keeps texts.
        text: &'a Text,
        /// Its properties.
        props: &'a Props,
    },
    /// A directory.
    Directory {
        /// Its properties.
        props: &'a Props,
        /// The names in it, in any order. The first that the copy lacks is told.
        names: &'a [Name],
    },
    /// A node of which only the kind is known.
    OfKind(Kind),
}

// Why a file isn't what is in its place.
fn file_by(
    alloc: Global,
    text: &Text,
    props: &Props,
    found: &Found<'_>,
) -> Result<Option<Reason>, AllocError>
    ensures { IfOk result (λ reason. reason ≡ file_by text.now props.now (found_place found.now)) }
{
    let (other, others) = match found {
        Found::File { text, props } => (*text, *props),
        Found::Directory { .. } | Found::OfKind(Kind::Directory) => {
            return Ok(Some(Reason::AnotherKind(Kind::Directory)));
        }
        Found::OfKind(Kind::File) => return Ok(None),
    };
    if text != other {
        return Ok(Some(Reason::AnotherText));
    }
    match first_changed(alloc, props, others)? {
        Some(name) => Ok(Some(Reason::AnotherProperty(name))),
        None => Ok(None),
    }
}

/// A directory of a copy.
#[derive(Clone, Copy)]
struct Below<'a> {
    alloc: Global,
    copy: &'a WorkingCopy,
    path: &'a RelPath,
}

impl Below<'_> {
    // The first of these names that the copy lacks there.
    fn first_lacking(&self, names: &[Name]) -> Result<Option<Name>, AllocError>
        ensures { IfOk result (λ name. name ≡ first_lacking (get_in self.now.copy.now) self.now.path.now names.now) }
    {
        let mut left = names;
        'names: while let Some((name, after)) = left.split_first() {
            // a repository refuses an entry of more than 64 names, and a path of a copy has at most 64 more
            let Ok(below) = self.path.join(self.alloc, name) else {
                return Err(AllocError);
            };
            if self.copy.get(&below).is_none() {
                return Ok(Some(name.clone()?));
            }
            left = after;
        }
        Ok(None)
    }

    // Why it isn't there whole.
    fn whole_by(
        &self,
        props: &Props,
        others: &Props,
        names: &[Name],
    ) -> Result<Option<Reason>, AllocError>
        ensures { IfOk result (λ reason. reason ≡ whole_by (get_in self.now.copy.now) self.now.path.now props.now others.now names.now) }
    {
        if let Some(name) = first_changed(self.alloc, props, others)? {
            return Ok(Some(Reason::AnotherProperty(name)));
        }
        match self.first_lacking(names)? {
            Some(name) => Ok(Some(Reason::Lacks(name))),
            None => Ok(None),
        }
    }

    // Why it isn't what is in its place.
    fn dir_by(
        &self,
        complete: bool,
        props: &Props,
        found: &Found<'_>,
    ) -> Result<Option<Reason>, AllocError>
        ensures { IfOk result (λ reason. reason ≡ dir_by (get_in self.now.copy.now) self.now.path.now complete props.now (found_place found.now)) }
    {
        match found {
            Found::Directory {
                props: others,
                names,
            } if complete => self.whole_by(props, others, names),
            Found::Directory { .. } | Found::OfKind(Kind::Directory) => Ok(None),
            Found::File { .. } | Found::OfKind(Kind::File) => {
                Ok(Some(Reason::AnotherKind(Kind::File)))
            }
        }
    }
}

/// Why a node of a copy isn't what is known to be in its place; where nothing is there, `missing` is the reason. None where it is what is there, as far as
/// that is known, and for a node that is not present. Where several reasons apply it is the first in the order of [`Reason`]; of the names that are there
/// and that the copy lacks, it is the first of the list. AllocError where an allocation failed.
pub fn reason_of(
    alloc: Global,
    copy: &WorkingCopy,
    path: &RelPath,
    node: &BaseNode,
    missing: Reason,
    found: Option<&Found<'_>>,
) -> Result<Option<Reason>, AllocError>
    ensures { IfOk result (λ reason. reason ≡ place_reason (get_in copy.now) path.now node.now missing (option_map found_place (option_copied found.entry))) }
{
    let below = Below { alloc, copy, path };
    match (node, found) {
        (BaseNode::NotPresent, _) => Ok(None),
        (_, None) => Ok(Some(missing)),
        (BaseNode::File { text, props, .. }, Some(found)) => file_by(alloc, text, props, found),
        (
            BaseNode::Dir {
                complete,
                props,
                ..
            },
            Some(found),
        ) => below.dir_by(*complete, props, found),
    }
}
