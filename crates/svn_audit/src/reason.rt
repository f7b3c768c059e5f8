//! Untrue paths, and why they are.
ghost use Rattle.std.specs.Prelude.{◌≡◌, Some};
ghost use Rattle.svn_audit.specs.Reasons.{in_place, is_no_revision, rest_of, untrue_text};

use std::fmt;
use svn_editor::{PathWord, Word};
use svn_types::{Kind, Name, PropName, RelPath, Rev};

/// Why a node of a copy isn't what the repository has at its repository path in its revision. Where more than one applies to a node, it is the first
/// in this order.
#[derive(Clone, Debug, PartialEq, Eq, Drop)]
pub enum Reason {
    /// The repository has no such revision.
    NoRevision,
    /// Nothing is there.
    Nothing,
    /// A node of this kind is there, and the copy has one of the other.
    AnotherKind(Kind),
    /// The file there has another text.
    AnotherText,
    /// This property, the first in order of their names, is set there to another value, or is set on one side only.
    AnotherProperty(PropName),
    /// The directory there has this entry, the first in order of their names, which the copy lacks: it has nothing under that name, not even
    /// a note that it is not present.
    Lacks(Name),
}

/// A path of a copy whose node isn't what the repository has in its place.
#[derive(Clone, Debug, PartialEq, Eq, Drop)]
pub struct Untrue {
    /// The path in the copy.
    pub path: RelPath,
    /// The revision that the node has.
    pub rev: Rev,
    /// Its path in the repository.
    pub repos_path: RelPath,
    /// Why.
    pub reason: Reason,
}

impl Reason {
    fn is_no_revision(&self) -> bool
        ensures { result ≡ is_no_revision self.now }
    {
        matches!(self, Reason::NoRevision)
    }

    // What is said after the place.
    fn rest(&self) -> &'static str
        ensures { result.now ≡ rest_of self.now }
    {
        match self {
            Reason::Lacks(_) => ", which the copy lacks",
            _ => "",
        }
    }
}

// What the repository has in the place of a node.
#[derive(Clone, Copy)]
struct InPlace<'a>(&'a Reason);

impl fmt::Display for InPlace<'_> {
    ghost output = { λ there. Some (in_place there.0.now) };

    fn fmt<W: fmt::Write>(&self, f: &mut fmt::Formatter<W>) -> fmt::Result {
        match self.0 {
            Reason::NoRevision | Reason::Nothing => f.write_str("nothing"),
            Reason::AnotherKind(Kind::File) => f.write_str("a file"),
            Reason::AnotherKind(Kind::Directory) => f.write_str("a directory"),
            Reason::AnotherText => f.write_str("another text"),
            Reason::AnotherProperty(name) => {
                let name = Word(name.as_str().as_bytes());
                write!(f, "another {name}")
            }
            Reason::Lacks(name) => {
                let name = Word(name.as_str().as_bytes());
                write!(f, "{name}")
            }
        }
    }
}

/// It prints `a: r3 has x at a, which the copy lacks`: the path, and why. Paths and names are words of a script.
impl fmt::Display for Untrue {
    ghost output = { λ u. Some (untrue_text u) };

    fn fmt<W: fmt::Write>(&self, f: &mut fmt::Formatter<W>) -> fmt::Result {
        let path = PathWord(&self.path);
        let rev = self.rev;
        if self.reason.is_no_revision() {
            return write!(f, "{path}: the history has no r{rev}");
        }
        let (there, place) = (InPlace(&self.reason), PathWord(&self.repos_path));
        let rest = self.reason.rest();
        write!(f, "{path}: r{rev} has {there} at {place}{rest}")
    }
}
