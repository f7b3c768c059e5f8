//! Paths, as lists of names.
ghost use Rattle.std.specs.Prelude.{◌≡◌, ℕ, ◌+◌, ◌<◌, ◌≤◌, ◌∷◌, ◌++◌, [], length, drop, refl, nat_eq, true, IfOk, Some, None, ◌↔◌, IsTrue, List, MatchOption, MatchResult};
ghost use Rattle.std.specs.Fmt.{DisplaysOnOk};
ghost use Rattle.std.specs.List.{flat_map, slice_split};
ghost use Rattle.std.specs.Ordering.{nat_cmp};
ghost use Rattle.std.specs.Cmp.Lexicographic.{pointwise, slice_cmp, nat_list_eq_equiv, nat_list_cmp_total, texts_ties, lists_per, lists_equiv, lists_total, lists_ties};
ghost use Rattle.std.specs.Cmp.{partial_equiv_from_equiv, partial_order_from_agreeing_total};
ghost use Rattle.std.specs.Hash as fed;
ghost use Rattle.svn_types.specs.Forms.{head_in, path_in, IsCut, IsSmallCut};
ghost use Rattle.svn_types.specs.Names.{depth_limit, is_slash, path_of_text};
ghost use Rattle.svn_types.specs.NameSplits.{IsNameSplit};
ghost use Rattle.svn_types.specs.PathHash.{same_path_hash};
ghost use Rattle.svn_types.specs.PathHeads.{IsHeadOf};
ghost use Rattle.svn_types.specs.PathKeys.{path_key, is_plain_path};
ghost use Rattle.svn_types.specs.PathTexts.{shown_path};
ghost use Rattle.svn_types.specs.NameFaults.{path_fault, names_fault, count_fault, AnswersPath, AnswersBytes};

use crate::bytes::split_once;
use crate::cut::{Cut, UNCUT};
use crate::fault::{PathBytesFault, PathFault};
use crate::limits::MAX_COMPONENTS;
use crate::name::{Name, fault_of_name};
use crate::path_front::{PathFront, ROOT_FRONT};
use crate::path_head::head_of;
use crate::path_parts::PathParts;
use crate::pieces::Pieces;
use std::alloc::{AllocError, Global};
use std::cmp::Ordering;
use std::hash::{Hash, Hasher};
use std::marker::Model;
use std::{fmt, str};

/// A path below some root (a relpath of `svn_dirent_uri.h`): at most 128 names; the root has none. Paths are ordered name by name, names by their bytes, a prefix first,
/// so a directory is directly before what is below it. A contract sees a path as the list of its names. A clone shares them.
pub struct RelPath {
    // The first bytes of its key, which decide most comparisons without reading another block, and what it leaves out of its block.
    front: PathFront,
    parts: PathParts,
}

impl Model for RelPath {
    ghost use Rattle.std.specs.Prelude.{◌≤◌, ℕ, List, length};
    ghost use Rattle.svn_types.specs.Forms.{head_in, cut_in, path_in, IsCut};
    ghost use Rattle.svn_types.specs.Names.{depth_limit};
    ghost use Rattle.svn_types.specs.PathHeads.{IsHeadOf};

    ghost Value = { List (List ℕ) };

    ghost view = { λ p. path_in (cut_in p.front) p.parts };

    ghost invariant = { λ p. IsCut (cut_in p.front) p.parts × (length (path_in (cut_in p.front) p.parts) ≤ depth_limit) × IsHeadOf (path_in (cut_in p.front) p.parts) (head_in p.front) };
}

// The text before the first slash and that after it, if there is one.
fn split_name(text: &str) -> Option<(&str, &str)>
    ensures { IsNameSplit text.now result }
{
    text.split_once('/')
}

// How many names a text spells, or the fault of the first faulty one. It goes over bytes, which is quicker for short names.
fn count_names(text: &[u8]) -> Result<usize, PathFault>
    ensures { MatchResult result (λ n. (names_fault (slice_split is_slash text.now) ≡ None) × (n ≡ length (slice_split is_slash text.now))) (λ e. names_fault (slice_split is_slash text.now) ≡ Some e) }
{
    let mut rest = text;
    let mut count = 1usize;
    'names: while let Some((first, after)) = split_once(rest, b'/') {
        if let Some(fault) = fault_of_name(first) {
            return Err(fault);
        }
        rest = after;
        count += 1;
    }
    match fault_of_name(rest) {
        Some(fault) => Err(fault),
        None => Ok(count),
    }
}

fn many_names(alloc: Global, text: &str, count: usize) -> Result<Vec<Name>, AllocError>
    requires { names_fault (slice_split is_slash text.now) ≡ None }
    ensures { IfOk result (λ v. v.items ≡ slice_split is_slash text.now) }
{
    let mut names = Vec::with_capacity(alloc, count)?;
    let mut rest = text;
    'names: while let Some((first, after)) = split_name(rest) {
        names.push(Name::from_checked(alloc, first)?)?;
        rest = after;
    }
    names.push(Name::from_checked(alloc, rest)?)?;
    Ok(names)
}

// The two names of a text.
fn two_names(alloc: Global, text: &str) -> Result<PathParts, AllocError>
    requires checked { names_fault (slice_split is_slash text.now) ≡ None }
    requires counted { length (slice_split is_slash text.now) ≡ 2 }
    ensures { IfOk result (λ p. p ≡ slice_split is_slash text.now) }
{
    let Some((first, second)) = split_name(text) else {
        return PathParts::one(alloc, Name::from_checked(alloc, text)?);
    };
    let first = Name::from_checked(alloc, first)?;
    PathParts::two(alloc, first, Name::from_checked(alloc, second)?)
}

// The three names of a text.
fn three_names(alloc: Global, text: &str) -> Result<PathParts, AllocError>
    requires checked { names_fault (slice_split is_slash text.now) ≡ None }
    requires counted { length (slice_split is_slash text.now) ≡ 3 }
    ensures { IfOk result (λ p. p ≡ slice_split is_slash text.now) }
{
    let Some((first, rest)) = split_name(text) else {
        return PathParts::one(alloc, Name::from_checked(alloc, text)?);
    };
    let first = Name::from_checked(alloc, first)?;
    let Some((second, third)) = split_name(rest) else {
        return PathParts::two(alloc, first, Name::from_checked(alloc, rest)?);
    };
    let second = Name::from_checked(alloc, second)?;
    PathParts::three(alloc, first, second, Name::from_checked(alloc, third)?)
}

// What the clones of a text's path share, which has that many names.
fn parts_of(alloc: Global, text: &str, count: usize) -> Result<PathParts, AllocError>
    requires checked { names_fault (slice_split is_slash text.now) ≡ None }
    requires counted { count ≡ length (slice_split is_slash text.now) }
    requires few { count ≤ depth_limit }
    ensures { IfOk result (λ p. p ≡ slice_split is_slash text.now) }
{
    match count {
        1 => PathParts::one(alloc, Name::from_checked(alloc, text)?),
        2 => two_names(alloc, text),
        3 => three_names(alloc, text),
        _ => {
            let names = many_names(alloc, text, count)?;
            PathParts::of_list(alloc, names)
        }
    }
}

// What is after a text's front, if that is this.
pub(crate) fn behind<'a>(text: &'a str, front: &str) -> Option<&'a str>
    ensures { MatchOption result ((rest : List ℕ) → text.now ≡ front.now ++ rest → ⊥) (λ rest. text.now ≡ front.now ++ rest.now) }
{
    text.strip_prefix(front)
}

// Whether a key is another one with a name more.
fn is_one_more(key: &str, above: &str, last: &str) -> bool
    ensures { IsTrue result ↔ (key.now ≡ above.now ++ last.now ++ 1 ∷ []) }
{
    let Some(below) = behind(key, above) else {
        return false;
    };
    let Some(end) = behind(below, last) else {
        return false;
    };
    let end = end.as_bytes();
    end.len() == 1 && end[0] == 1
}

impl RelPath {
    // The names of a block after a cut.
    fn behind(parts: PathParts, cut: Cut) -> RelPath
        requires cut { IsCut cut parts }
        requires small { IsSmallCut cut }
        requires few { length (path_in cut parts) ≤ depth_limit }
        ensures { result ≡ path_in cut parts }
    {
        RelPath {
            front: PathFront::of(head_of(parts.key_behind(cut)), cut),
            parts,
        }
    }

    // All names of a block.
    fn of_parts(parts: PathParts) -> RelPath
        requires { length parts ≤ depth_limit }
        ensures { result ≡ parts }
    {
        RelPath::behind(parts, UNCUT)
    }

    // The first bytes of its key, and its cut.
    fn front(&self) -> PathFront
        ensures { IsHeadOf self.now (head_in result) }
    {
        self.front
    }

    /// The path of no name. It takes no memory.
    pub fn root(_alloc: Global) -> RelPath
        ensures { result ≡ [] }
    {
        RelPath {
            front: ROOT_FRONT,
            parts: PathParts::root(),
        }
    }

    /// Reads names with slashes between them. The empty text is the root. The fault of the first faulty name is returned, else
    /// TooManyComponents over 128 names; Memory comes last.
    pub fn parse(alloc: Global, text: &str) -> Result<RelPath, PathFault>
        ensures { let p = path_of_text text.now in AnswersPath (path_fault p) p result }
    {
        if text.len() == 0 {
            return Ok(RelPath::root(alloc));
        }
        let count = match count_names(text.as_bytes()) {
            Ok(count) => count,
            Err(fault) => return Err(fault),
        };
        if count > MAX_COMPONENTS {
            return Err(PathFault::TooManyComponents);
        }
        Ok(RelPath::of_parts(parts_of(alloc, text, count)?))
    }

    /// The same of bytes. NotUtf8 if they are no text, whatever names they spell; else the fault that [`parse`](RelPath::parse) finds.
    pub fn from_bytes(alloc: Global, bytes: &[u8]) -> Result<RelPath, PathBytesFault>
        ensures { AnswersBytes bytes.now result }
    {
        match str::from_utf8(bytes) {
            Ok(text) => Ok(RelPath::parse(alloc, text)?),
            Err(_) => Err(PathBytesFault::NotUtf8),
        }
    }

    // The path of these names.
    pub(crate) fn from_names(alloc: Global, names: &[Name]) -> Result<RelPath, AllocError>
        requires { length names.now ≤ depth_limit }
        ensures { IfOk result (λ p. p ≡ names.now) }
    {
        Ok(RelPath::of_parts(PathParts::of(alloc, names)?))
    }

    // The path with the names of another one after its own, which are few enough. If one is the root the result is the other, and takes no memory.
    pub(crate) fn joined(&self, alloc: Global, below: &RelPath) -> Result<RelPath, AllocError>
        requires { length self.now + length below.now ≤ depth_limit }
        ensures { IfOk result (λ p. p ≡ self.now ++ below.now) }
    {
        if below.is_root() {
            return self.clone();
        }
        if self.is_root() {
            return below.clone();
        }
        let pieces = Pieces {
            names: self.components(),
            more: below.components(),
            above: self.key(),
            below: below.key(),
            end: "",
        };
        Ok(RelPath::of_parts(PathParts::of_pieces(alloc, &pieces)?))
    }

    /// The path without that many of its first names; the root if it has no more. Where it leaves out little (at most 4 names and
    /// 64 bytes in all of what it shares) it lies in the memory of this one, and else in memory of its own. AllocError if an allocation fails.
    pub fn tail(&self, alloc: Global, count: usize) -> Result<RelPath, AllocError>
        ensures { IfOk result (λ p. p ≡ drop count self.now) }
    {
        let names = self.components();
        if count >= names.len() {
            return Ok(RelPath::root(alloc));
        }
        let (front, rest) = names.split_at(count);
        match self.front.cut().further(front) {
            Some(cut) => Ok(RelPath::behind(self.parts.clone()?, cut)),
            None => RelPath::from_names(alloc, rest),
        }
    }

    /// The path with one more name: TooManyComponents at a path of 128 names, else Memory alone.
    pub fn join(&self, alloc: Global, name: &Name) -> Result<RelPath, PathFault>
        ensures { AnswersPath (count_fault (length self.now + 1)) (self.now ++ name.now ∷ []) result }
    {
        if self.components().len() >= MAX_COMPONENTS {
            return Err(PathFault::TooManyComponents);
        }
        let parts = PathParts::child(alloc, self.components(), self.key(), name)?;
        Ok(RelPath::of_parts(parts))
    }

    /// Its names, from the root down: 0 to 128.
    pub fn components(&self) -> &[Name]
        ensures names { result.now ≡ self.now }
        ensures bounded { length self.now ≤ depth_limit }
    {
        self.parts.names_behind(self.front.cut())
    }

    /// Its key: its names in one text, the byte 1 after each. Paths are compared by their keys. It takes no memory.
    pub fn key(&self) -> &str
        ensures key { result.now ≡ path_key self.now }
        ensures plain { is_plain_path self.now ≡ true }
        ensures bounded { length self.now ≤ depth_limit }
    {
        self.parts.key_behind(self.front.cut())
    }

    /// Whether it is that path with this name more. It takes no memory.
    pub fn is_child_of(&self, path: &RelPath, name: &Name) -> bool
        ensures child { IsTrue result ↔ (self.now ≡ path.now ++ name.now ∷ []) }
        ensures bounded { length self.now ≤ depth_limit }
    {
        is_one_more(self.key(), path.key(), name.as_str())
    }

    /// Whether it is the root: the path of no name.
    pub fn is_root(&self) -> bool
        ensures { IsTrue result ↔ (self.now ≡ []) }
    {
        self.components().is_empty()
    }
}

// So that a caller's proof sees a call, and nothing of where the names lie.
impl Drop for RelPath {
    fn drop(self) {
        let RelPath { front: _, parts } = self;
        drop(parts);
    }
}

impl fmt::Debug for RelPath {
    fn fmt<W: fmt::Write>(&self, f: &mut fmt::Formatter<W>) -> fmt::Result {
        fmt::Debug::fmt(&self.components(), f)
    }
}

// A name, and a slash before it.
fn write_below<W: fmt::Write>(name: &Name, f: &mut fmt::Formatter<W>) -> fmt::Result
    ensures { DisplaysOnOk W.write_str_gives f.old result (Some (47 ∷ name.now)) f.new }
{
    write!(f, "/{name}")
}

// Names, and a slash before each.
fn write_all_below<W: fmt::Write>(names: &[Name], f: &mut fmt::Formatter<W>) -> fmt::Result
    ensures { DisplaysOnOk W.write_str_gives f.old result (Some (flat_map (λ m. 47 ∷ m) names.now)) f.new }
{
    for name in names {
        write_below(name, f)?;
    }
    Ok(())
}

/// The names with a slash between them, which [`parse`](RelPath::parse) reads again; the root is printed as `.`.
impl fmt::Display for RelPath {
    ghost output = { λ p. Some (shown_path p) };

    fn fmt<W: fmt::Write>(&self, f: &mut fmt::Formatter<W>) -> fmt::Result {
        let Some((first, rest)) = self.components().split_first() else {
            return f.write_str(".");
        };
        f.write_str(first.as_str())?;
        write_all_below(rest, f)
    }
}

impl Clone for RelPath {
    ghost is_clone = { λ path copy. copy ≡ path };

    fn clone(&self) -> Result<RelPath, AllocError> {
        Ok(RelPath {
            front: self.front,
            parts: self.parts.clone()?,
        })
    }
}

impl PartialEq for RelPath {
    ghost eq = { pointwise (pointwise nat_eq) };

    ghost laws = { lists_per (partial_equiv_from_equiv nat_list_eq_equiv) };

    fn eq(&self, other: &RelPath) -> bool {
        let (one, two) = (self.front(), other.front());
        if one.first != two.first {
            return false;
        }
        if one.second() != two.second() {
            return false;
        }
        if one.is_whole() {
            return true;
        }
        self.key() == other.key()
    }
}

impl Eq for RelPath {
    ghost laws = { lists_equiv nat_list_eq_equiv };
}

impl PartialOrd for RelPath {
    ghost partial_cmp = { λ x y. Some (slice_cmp (slice_cmp nat_cmp) x y) };

    ghost laws = { partial_order_from_agreeing_total (slice_cmp (slice_cmp nat_cmp)) (lists_total nat_list_cmp_total) (λ x y. refl) (lists_ties (slice_cmp nat_cmp) texts_ties) };

    fn partial_cmp(&self, other: &RelPath) -> Option<Ordering> {
        Some(self.cmp(other))
    }
}

impl Ord for RelPath {
    ghost cmp = { slice_cmp (slice_cmp nat_cmp) };

    ghost total = { lists_total nat_list_cmp_total };

    ghost matches_partial_cmp = { λ x y. refl };

    ghost matches_eq = { λ x y. lists_ties (slice_cmp nat_cmp) texts_ties x y };

    fn cmp(&self, other: &RelPath) -> Ordering {
        // returns, and no `match` on the first order: that would compare both numbers each time
        let (one, two) = (self.front(), other.front());
        if one.first != two.first {
            return one.first.cmp(&two.first);
        }
        if one.second() != two.second() {
            return one.second().cmp(&two.second());
        }
        if one.is_whole() {
            return Ordering::Equal;
        }
        self.key().cmp(other.key())
    }
}

impl Hash for RelPath {
    ghost hash_input = { fed.slice fed.str };

    ghost respects_eq = { same_path_hash };

    fn hash<H: Hasher>(&self, state: &mut H) {
        self.components().hash(state);
    }
}
