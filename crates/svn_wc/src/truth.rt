//! Whether a copy is true of a repository.
ghost use Rattle.std.specs.Prelude.{◌≡◌, ◌↔◌, ◌-◌, ◌++◌, ◌∷◌, ◌&&◌, not, IsOk, IsSome, IsTrue, IfSome, OnOk, MatchResult, MatchOption, Option, Some, None, is_some, nat_lt, if◌then◌else◌, ℕ, List, bytes_eq};
ghost use Rattle.std.specs.Option.{option_copied, option_map};
ghost use Rattle.svn_types.specs.Names.{Path};
ghost use Rattle.svn_types.specs.Paths.{child};
ghost use Rattle.svn_repo.specs.History.{History, node_at, look};
ghost use Rattle.svn_repo.specs.Readings.{kind_of, text_of, props_of, is_directory};
ghost use Rattle.svn_model.specs.declared.base_node.BaseNode.{BaseNode};
ghost use Rattle.svn_model.specs.Nodes.{WorkingCopy as CopyMap, get_in, InPathOrder, IsTrueOf, IsWorkingCopy};
ghost use Rattle.svn_model.specs.Tree.{names_at};
ghost use Rattle.svn_model.specs.Truth.{props_eq, is_untrue_file, is_untrue_dir, is_untrue, lacks_entry, first_untrue};
ghost use Rattle.svn_wc.specs.Truths.{looked, entries_at, entry_in, HasNoEntries, CountsMissing, IsStep, IsNameBelow, IsLastName, TakesDeeper, PassesTo, HasWalked, IsRest};
ghost use Rattle.svn_wc.specs.Aboves.{KnowsOwnPath};

use crate::above::Above;
use crate::working_copy::WorkingCopy;
use law_copy::truth_is_tested;
use std::cmp::Ordering;
use svn_model::BaseNode;
use svn_name_map::Iter;
use svn_nodes::ahead::Ahead;
use svn_repo::{Entries, NodeId, Repo};
use svn_types::{Kind, Name, Props, RelPath, Rev, Text};

// Whether properties are the same ones. Most nodes have none, which is seen without going through two maps.
fn are_same(props: &Props, others: &Props) -> bool
    ensures { IsTrue result ↔ (props.now ≡ others.now) }
{
    if props.is_empty() {
        others.is_empty()
    } else {
        props.is_same(others)
    }
}

// Whether properties are those of a node of the repository.
fn has_props(repo: &Repo, id: NodeId, props: &Props) -> bool
    ensures { IsSome (node_at repo.now id) → result ≡ props_eq props.now (props_of repo.now id) }
{
    match repo.props(id) {
        Some(others) => are_same(props, others),
        None => false,
    }
}

// Whether a node of the repository is a file with this text.
fn has_text(repo: &Repo, id: NodeId, text: &Text) -> bool
    ensures { IsSome (node_at repo.now id) → result ≡ (not (is_directory (kind_of repo.now id)) && bytes_eq text.now (text_of repo.now id)) }
{
    match repo.text(id) {
        Some(other) => text.as_slice() == other,
        None => false,
    }
}

// Whether a node of the repository is a directory.
fn is_directory(repo: &Repo, id: NodeId) -> bool
    ensures { IsSome (node_at repo.now id) → result ≡ is_directory (kind_of repo.now id) }
{
    repo.kind(id) == Some(Kind::Directory)
}

// Whether a file isn't the one that the repository has in its place.
fn is_untrue_file(repo: &Repo, id: &Option<NodeId>, text: &Text, props: &Props) -> bool
    ensures { IfSome id.now (λ n. IsSome (node_at repo.now n)) → result ≡ is_untrue_file repo.now text.now props.now id.now }
{
    match id {
        Some(id) => !has_text(repo, *id, text) || !has_props(repo, *id, props),
        None => true,
    }
}

// The same of a directory, of whose entries that many are missing.
fn is_untrue_directory(
    repo: &Repo,
    id: &Option<NodeId>,
    complete: bool,
    props: &Props,
    missing: usize,
) -> bool
    ensures { (w : CopyMap) (p : Path) → nat_lt 0 missing ≡ lacks_entry w p (names_at repo.now id.now) → IfSome id.now (λ n. IsSome (node_at repo.now n)) → result ≡ is_untrue_dir repo.now w p complete props.now id.now }
{
    match id {
        Some(id) => {
            !is_directory(repo, *id) || complete && (!has_props(repo, *id, props) || missing > 0)
        }
        None => true,
    }
}

// Whether a node differs from what the repository has in its place, where that many entries of a directory are missing.
fn is_untrue(repo: &Repo, node: &BaseNode, id: &Option<NodeId>, missing: usize) -> bool
    ensures { (w : CopyMap) (p : Path) → CountsMissing w p node.now (names_at repo.now id.now) missing → id.now ≡ looked repo.now node.now → result ≡ is_untrue repo.now w p node.now }
{
    // what is in a revision is a node
    repo.law();
    match node {
        BaseNode::File { text, props, .. } => is_untrue_file(repo, id, text, props),
        BaseNode::Dir {
            complete,
            props,
            ..
        } => is_untrue_directory(repo, id, *complete, props, missing),
        BaseNode::NotPresent => false,
    }
}

// The entries beside which the nodes below a directory are compared, where the repository has one in its place.
fn listing_of<'a>(repo: &'a Repo, node: &BaseNode, id: &Option<NodeId>) -> Option<&'a Entries>
    ensures { MatchOption result (HasNoEntries node.now (entries_at repo.now id.now)) (λ entries. entries.now ≡ entries_at repo.now id.now) }
{
    match (node, id) {
        (BaseNode::Dir { .. }, Some(id)) => repo.entries(*id),
        _ => None,
    }
}

// The node under a name.
pub(crate) fn entry_under(repo: &Repo, id: &Option<NodeId>, name: &Name) -> Option<NodeId>
    ensures { result ≡ entry_in repo.now id.now name.now }
{
    match id {
        Some(id) => match repo.entries(*id) {
            Some(entries) => entries.get(name),
            None => None,
        },
        None => None,
    }
}

// The revision and the path at which the repository has a node.
#[derive(Drop)]
struct Location<'a> {
    rev: Rev,
    repos_path: &'a RelPath,
}

// The location of a present node.
fn location_of(node: &BaseNode) -> Option<Location<'_>>
    ensures { (h : History) → MatchOption result (looked h node.now ≡ None) (λ location. looked h node.now ≡ look h location.rev location.repos_path.now) }
{
    Some(Location {
        rev: node.rev()?,
        repos_path: node.repos_path()?,
    })
}

// What the repository has in the place of a node.
fn look_up(repo: &Repo, node: &BaseNode) -> Option<NodeId>
    ensures { result ≡ looked repo.now node.now }
{
    match location_of(node) {
        Some(location) => repo.lookup(location.rev, location.repos_path),
        None => None,
    }
}

// Whether a node one name below a directory has the directory's revision, and its repository path with that name after it.
fn is_step(above: &Above<'_>, path: &RelPath, location: &Location<'_>) -> bool
    ensures { (at : Path) (name : List ℕ) → KnowsOwnPath at above.now → path.now ≡ child at name → IsTrue result → IsStep above.now.0 location.now.rev location.now.repos_path.now name }
{
    match above.node() {
        BaseNode::Dir { rev, .. } => {
            *rev == location.rev && above.is_unswitched(path, location.repos_path)
        }
        BaseNode::File { .. } | BaseNode::NotPresent => false,
    }
}

// A node below a path, with its name where it is one name below.
#[derive(Drop)]
struct NodeBelow<'a> {
    path: &'a RelPath,
    node: &'a BaseNode,
    name: Option<&'a Name>,
}

// What the repository has in the place of a node below a directory: the entry under its name, if it is a step from there.
fn find_below(
    repo: &Repo,
    above: &Above<'_>,
    below: &NodeBelow<'_>,
    entry: Option<NodeId>,
) -> Option<NodeId>
    ensures { (at : Path) (id : Option ℕ) → KnowsOwnPath at above.now → id ≡ looked repo.now above.now.0 → IsNameBelow at below.now.path.now (option_copied below.now.name) → IfSome below.now.name (λ name. entry ≡ entry_in repo.now id name.now) → result ≡ looked repo.now below.now.node.now }
{
    let Some(location) = location_of(below.node) else {
        return None;
    };
    if below.name.is_some() && is_step(above, below.path, &location) {
        return entry;
    }
    repo.lookup(location.rev, location.repos_path)
}

// The next node, if it has more names than that: it is taken. Its name is returned if there is one more.
fn next_deeper<'a>(depth: usize, left: &mut Ahead<'a, RelPath, BaseNode>) -> Option<NodeBelow<'a>>
    ensures taken { TakesDeeper depth left.old (option_map (λ b. (b.path.now, b.node.now)) result) left.new }
    ensures name { IfSome result (λ b. IsLastName depth b.path.now (option_copied b.name)) }
{
    let (path, node) = left.first()?;
    let names = path.components();
    if names.len() <= depth {
        return None;
    }
    left.advance();
    let name = if names.len() - depth == 1 {
        names.last()
    } else {
        None
    };
    Some(NodeBelow { path, node, name })
}

// The node under a name, which is passed with the entries before it.
fn pass_to(entries: &mut Iter<'_, NodeId>, name: &Name) -> Option<NodeId>
    ensures { PassesTo name.now entries.old result entries.new }
{
    'entries: while let Some((next, id)) = entries.first() {
        match next.cmp(name) {
            Ordering::Less => entries.advance(),
            Ordering::Equal => {
                entries.advance();
                return Some(*id);
            }
            Ordering::Greater => return None,
        }
    }
    None
}

// The same where there is a name.
fn take_entry(entries: &mut Iter<'_, NodeId>, name: Option<&Name>) -> Option<NodeId>
    ensures { MatchOption name.entry ((result ≡ None) × (entries.new ≡ entries.old)) (λ name. PassesTo name.now entries.old result entries.new) }
{
    match name {
        Some(name) => pass_to(entries, name),
        None => None,
    }
}

// How many entries are missing, where that many were before one was found or not.
fn missing_without(entry: &Option<NodeId>, missing: usize) -> usize
    ensures { result ≡ missing - (if is_some entry.now then 1 else 0) }
{
    if entry.is_some() {
        missing.saturating_sub(1)
    } else {
        missing
    }
}

// The first untrue path among a node's, compared with what the repository has in its place, and those below, which are taken. Beside the
// nodes below a directory its entries are gone through. In path order these are the next that have more names, since each is below a directory.
fn first_untrue_within<'a>(
    repo: &Repo,
    path: &'a RelPath,
    node: &'a BaseNode,
    id: &Option<NodeId>,
    left: &mut Ahead<'a, RelPath, BaseNode>,
) -> Option<&'a RelPath>
    ensures rest { IsRest left.old left.new }
    ensures walked { (nodes before : List (Path × BaseNode)) → InPathOrder nodes → IsWorkingCopy (get_in nodes) → nodes ≡ before ++ (path.now, node.now) ∷ left.old → id.now ≡ looked repo.now node.now → HasWalked repo.now nodes (path.now, node.now) left.old (option_copied result) left.new }
{
    repo.law();
    let Some(listing) = listing_of(repo, node, id) else {
        return is_untrue(repo, node, id, 0).then_some(path);
    };
    let above = Above::of(path, node);
    let depth = path.components().len();
    let mut entries = listing.iter();
    let mut missing = listing.len();
    let mut first = None;
    'below: while let Some(below) = next_deeper(depth, left) {
        let entry = take_entry(&mut entries, below.name);
        missing = missing_without(&entry, missing);
        let there = find_below(repo, &above, &below, entry);
        let untrue = first_untrue_within(repo, below.path, below.node, &there, left);
        first = first.or(untrue);
    }
    if is_untrue(repo, node, id, missing) {
        Some(path)
    } else {
        first
    }
}

impl WorkingCopy {
    /// Whether each present node is what the repository has in its place: else the first path, in path order, whose node isn't. A file must
    /// have its text and properties, a complete directory its properties, and a node, present or not, for each of its entries: a missing
    /// one is reported at the directory's path. It takes no memory.
    pub fn check_true(&self, repo: &Repo) -> Result<(), &RelPath>
        ensures first { MatchResult result (λ _. first_untrue repo.now self.now ≡ None) (λ p. first_untrue repo.now self.now ≡ Some p.now) }
        ensures is_true { OnOk result (IsTrueOf repo.now (get_in self.now)) }
        ensures true_is_ok { IsTrueOf repo.now (get_in self.now) → IsOk result }
    {
        truth_is_tested();
        self.law();
        let mut left = Ahead::of(&self.nodes);
        let mut first = None;
        'nodes: while let Some((path, node)) = left.first() {
            left.advance();
            let id = look_up(repo, node);
            let untrue = first_untrue_within(repo, path, node, &id, &mut left);
            first = first.or(untrue);
        }
        match first {
            Some(path) => Err(path),
            None => Ok(()),
        }
    }
}
