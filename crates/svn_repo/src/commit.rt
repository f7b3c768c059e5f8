//! The changes of a commit, made one after another on a draft.
ghost use Rattle.std.specs.Prelude.{◌≡◌, ◌≤◌, ◌<◌, ℕ, IsSome, take, List, [], ◌∷◌, ◌++◌, Some, None, true, length, slice_get, ◌-◌, IfOk, IfErr, OnErr, ◌⊎◌, OnOk, ◌+◌, ◌^◌, if◌then◌else◌};
ghost use Rattle.std.specs.Option.{option_and_then, is_some};
ghost use Rattle.std.specs.Result.{result_err};
ghost use Rattle.svn_repo.specs.History.{History, child_in};
ghost use Rattle.svn_types.specs.Paths.{parent};
ghost use Rattle.svn_repo.specs.Drafts.{IsFound, IsNear, IsClosedIn, IsDraft, IsListing, IsGrafted, KeepsOld, AreRootsBelow, IsPast, look_in, old_part, past_in, tree_in};
ghost use Rattle.svn_repo.specs.Stored.{rows, row_of, entries_of, history_of, AreHeights, IsHeight, IsStored};
ghost use Rattle.svn_repo.specs.Heights.{IsOrdered};
ghost use Rattle.svn_repo.specs.Trees.{leaf, nothing, place_at, place_of};
ghost use Rattle.svn_repo.specs.Changes.{above_fault, change_fault, root_fault, pending_in, with_text, new_directory, IsMade, AllMade, AreRefused, IsRefused, IsExtended, PutsText};

use crate::change::{Change, CommitFault};
use crate::entries::{Entries, NodeId};
use crate::heights::add_heights;
use crate::near::find_near;
use crate::refusal::fault_of;
use crate::roots::Roots;
use crate::store::{
    Content, Draft, Node, Past, PropSetting, Stored, lookup_in, put_child, put_made, put_old,
    put_prop, split_path, thaw_path,
};
use std::alloc::AllocError;
use svn_types::{Name, Props, Rev, Text};

fn put_directory(
    nodes: &mut Vec<Node>,
    draft: Draft,
    names: &[Name],
    near: Option<NodeId>,
) -> Result<NodeId, AllocError>
    requires draft { IsDraft draft.base nodes.old.items draft.root }
    requires near { IsFound nodes.old.items draft.root (parent names.now) near }
    requires not_root { root_fault names.now ≡ None }
    requires above { above_fault (tree_in draft.base nodes.old.items draft.root) names.now ≡ None }
    ensures ok { IfOk result (λ n. IsGrafted draft.base nodes.old.items nodes.new.items draft.root n names.now (leaf (new_directory draft.lines))) }
    ensures kept { KeepsOld draft.base nodes.old.items nodes.new.items }
    ensures grown { OnOk result (length nodes.old.items < length nodes.new.items) }
{
    let alloc = *nodes.allocator();
    let node = Node {
        line: draft.lines,
        props: Props::new(alloc),
        content: Content::Listing(Entries::new(alloc)),
    };
    put_made(nodes, draft, names, near, node)
}

// A file with a text, which keeps the line and the properties of the file that was there.
fn file_node(
    nodes: &Vec<Node>,
    at: Option<NodeId>,
    lines: u64,
    text: &Text,
) -> Result<Node, AllocError>
    requires { (n : ℕ) → at ≡ Some n → n < length nodes.now.items }
    ensures place { IfOk result (λ n. (base : ℕ) → place_of None (row_of n) ≡ with_text lines (option_and_then (place_at (rows nodes.now.items) base) at) text.now) }
    ensures childless { IfOk result (λ n. entries_of n.content ≡ []) }
{
    let content = Content::Text(text.clone_with_checksum(*nodes.allocator())?);
    match at {
        None => Ok(Node {
            line: lines,
            props: Props::new(*nodes.allocator()),
            content,
        }),
        Some(id) => {
            let old = &nodes[id.index];
            Ok(Node {
                line: old.line,
                props: old.props.clone()?,
                content,
            })
        }
    }
}

// Puts a text under a name of a directory, and says whether a file was there. The name leads to the file before it is made, so that it is
// looked up once.
fn put_text(
    nodes: &mut Vec<Node>,
    at: NodeId,
    name: &Name,
    lines: u64,
    text: &Text,
) -> Result<bool, AllocError>
    requires listing { IsListing nodes.old.items at }
    requires closed { IsClosedIn nodes.old.items }
    ensures ok { OnOk result (PutsText lines text.now nodes.old.items nodes.new.items at name.now) }
    ensures existed { IfOk result (λ existed. existed ≡ is_some (child_in (rows nodes.old.items at) name.now)) }
    ensures kept { (base : ℕ) → base ≤ at → base ≤ length nodes.old.items → KeepsOld base nodes.old.items nodes.new.items }
{
    let index = nodes.len();
    let old = put_child(nodes, at, name, Some(NodeId { index }))?;
    let node = file_node(nodes, old, lines, text)?;
    nodes.push(node)?;
    Ok(old.is_some())
}

// Puts a text at a path, and says whether a file was there.
fn put_file(
    nodes: &mut Vec<Node>,
    draft: Draft,
    names: &[Name],
    near: Option<NodeId>,
    text: &Text,
) -> Result<(NodeId, bool), AllocError>
    requires draft { IsDraft draft.base nodes.old.items draft.root }
    requires near { IsFound nodes.old.items draft.root (parent names.now) near }
    requires not_root { root_fault names.now ≡ None }
    requires above { above_fault (tree_in draft.base nodes.old.items draft.root) names.now ≡ None }
    ensures ok { IfOk result (λ r. let t = tree_in draft.base nodes.old.items draft.root in IsGrafted draft.base nodes.old.items nodes.new.items draft.root r.0 names.now (leaf (with_text draft.lines (t names.now) text.now))) }
    ensures existed { IfOk result (λ r. r.1 ≡ is_some (tree_in draft.base nodes.old.items draft.root names.now)) }
    ensures kept { KeepsOld draft.base nodes.old.items nodes.new.items }
    ensures grown { OnOk result (length nodes.old.items < length nodes.new.items) }
{
    let lines = draft.lines;
    let (last, above) = split_path(names);
    let (root, at) = thaw_path(nodes, draft, above, near)?;
    let existed = put_text(nodes, at, last, lines, text)?;
    Ok((root, existed))
}

// The next line after a text is put where something or nothing was.
fn next_line(lines: u64, existed: bool) -> u64
    requires { lines + 1 < 2 ^ 64 }
    ensures { result ≡ (if existed then lines else lines + 1) }
{
    if existed { lines } else { lines + 1 }
}

// The node that a copy takes.
fn source_of(nodes: &[Node], roots: &Roots, rev: Rev, names: &[Name]) -> NodeId
    requires { IsSome (look_in nodes.now roots.now rev names.now) }
    ensures { look_in nodes.now roots.now rev names.now ≡ Some result }
{
    lookup_in(nodes, roots, rev, names).unwrap()
}

/// Makes a change on a draft.
pub(crate) fn make(
    nodes: &mut Vec<Node>,
    roots: &Roots,
    draft: Draft,
    change: &Change,
    near: Option<NodeId>,
) -> Result<Draft, AllocError>
    requires draft { IsDraft draft.base nodes.old.items draft.root }
    requires near { IsNear nodes.old.items draft.root change.now near }
    requires roots_in { AreRootsBelow draft.base roots.now }
    requires no_fault { (l : ℕ) → change_fault (past_in draft.base roots.now nodes.old.items l) (pending_in draft.base nodes.old.items draft.root draft.lines) change.now ≡ None }
    requires bounded { draft.lines ≤ length nodes.old.items }
    ensures base { IfOk result (λ r. r.base ≡ draft.base) }
    ensures ok { IfOk result (λ r. IsMade draft.base roots.now nodes.old.items nodes.new.items draft.root draft.lines r.root r.lines change.now) }
    ensures kept { KeepsOld draft.base nodes.old.items nodes.new.items }
{
    let base = draft.base;
    let lines = draft.lines;
    match change {
        Change::MakeDir { path } => {
            let root = put_directory(nodes, draft, path.components(), near)?;
            let lines = lines + 1;
            Ok(Draft { base, root, lines })
        }
        Change::PutFile { path, text } => {
            let (root, existed) = put_file(nodes, draft, path.components(), near, text)?;
            let lines = next_line(lines, existed);
            Ok(Draft { base, root, lines })
        }
        Change::SetProp { path, name, value } => {
            let setting = PropSetting { name, value };
            let root = put_prop(nodes, draft, path.components(), near, &setting)?;
            Ok(Draft { base, root, lines })
        }
        Change::Remove { path } => {
            let root = put_old(nodes, draft, path.components(), None)?;
            Ok(Draft { base, root, lines })
        }
        Change::CopyFrom { rev, source, path } => {
            let node = source_of(nodes, roots, *rev, source.components());
            let root = put_old(nodes, draft, path.components(), Some(node))?;
            Ok(Draft { base, root, lines })
        }
    }
}

/// What is known to be where a change works; or why it can't be made.
pub(crate) fn examine(
    nodes: &[Node],
    past: &Past<'_>,
    root: NodeId,
    change: &Change,
) -> Result<Option<NodeId>, CommitFault>
    requires root_in { root < length nodes.now }
    requires closed { IsClosedIn nodes.now }
    requires past { IsPast past.now.roots.now past.now.heights.now nodes.now }
    ensures near { IfOk result (λ near. IsNear nodes.now root change.now near) }
    ensures fault { (l next : ℕ) → let base = length past.now.heights.now in result_err result ≡ change_fault (past_in base past.now.roots.now nodes.now l) (pending_in base nodes.now root next) change.now }
{
    let near = find_near(nodes, root, change);
    match fault_of(nodes, past, root, change, &near) {
        Some(fault) => Err(fault),
        None => Ok(near),
    }
}

// Makes the changes in order, or returns the fault of the first that can't be made.
fn make_all(
    nodes: &mut Vec<Node>,
    past: &Past<'_>,
    start: Draft,
    changes: &[Change],
) -> Result<Draft, CommitFault>
    requires base { start.base ≡ length nodes.old.items }
    requires draft { IsDraft (length nodes.old.items) nodes.old.items start.root }
    requires size { length past.now.heights.now ≡ length nodes.old.items }
    requires past { IsPast past.now.roots.now past.now.heights.now nodes.old.items }
    requires bounded { start.lines ≤ length nodes.old.items }
    ensures ok { IfOk result (λ r. AllMade past.now.roots.now nodes.old.items nodes.new.items start.root start.lines r.root r.lines changes.now) }
    ensures err { IfErr result (let old = nodes.old.items in AreRefused (history_of past.now.roots.now old start.lines) (pending_in (length old) old start.root start.lines) changes.now) }
    ensures kept { KeepsOld (length nodes.old.items) nodes.old.items nodes.new.items }
{
    let mut draft = start;
    for change in changes {
        let near = match examine(nodes, past, draft.root, change) {
            Ok(near) => near,
            Err(fault) => return Err(fault),
        };
        draft = make(nodes, past.roots, draft, change, near)?;
    }
    Ok(draft)
}

/// A draft over the last revision, on which no change is made yet.
pub(crate) fn start_draft(stored: &Stored, lines: u64) -> Draft
    requires { 1 ≤ length stored.now.roots }
    ensures base { result.base ≡ length stored.now.nodes.items }
    ensures root { slice_get stored.now.roots (length stored.now.roots - 1) ≡ Some result.root }
    ensures lines { result.lines ≡ lines }
{
    let base = stored.nodes.len();
    let root = stored.roots.last();
    Draft { base, root, lines }
}

/// Puts the root of a draft after the others, and adds the heights of its nodes. Out of memory, some heights may stay.
pub(crate) fn push_root(stored: &mut Stored, root: NodeId) -> Result<(), AllocError>
    requires ordered { IsOrdered stored.old.nodes.items (length stored.old.heights.items) }
    requires known { (n k : ℕ) → slice_get stored.old.heights.items n ≡ Some k → IsHeight (rows stored.old.nodes.items) n k }
    ensures roots { OnOk result (stored.new.roots ≡ stored.old.roots ++ root ∷ []) }
    ensures heights { OnOk result (AreHeights stored.old.nodes.items stored.new.heights.items) }
    ensures nodes_kept { stored.new.nodes.items ≡ stored.old.nodes.items }
    ensures roots_kept { OnErr result (stored.new.roots ≡ stored.old.roots) }
    ensures heights_kept { take (length stored.old.heights.items) stored.new.heights.items ≡ stored.old.heights.items }
{
    add_heights(&stored.nodes, &mut stored.heights)?;
    stored.roots.push(root)?;
    Ok(())
}

// Makes the changes in order on a draft over the last revision, puts its root after the others, and returns the next line.
fn push_revision(stored: &mut Stored, lines: u64, changes: &[Change]) -> Result<u64, CommitFault>
    requires { IsStored stored.old.roots stored.old.nodes.items lines stored.old.heights.items }
    ensures ok { IfOk result (IsExtended stored.old.roots stored.old.nodes.items lines stored.new.roots stored.new.nodes.items stored.new.heights.items changes.now) }
    ensures fault { IfErr result (IsRefused (history_of stored.old.roots stored.old.nodes.items lines) changes.now) }
    ensures roots_kept { OnErr result (stored.new.roots ≡ stored.old.roots) }
    ensures nodes_kept { OnErr result (KeepsOld (length stored.old.nodes.items) stored.old.nodes.items stored.new.nodes.items) }
    ensures heights_kept { OnErr result (take (length stored.old.nodes.items) stored.new.heights.items ≡ stored.old.heights.items) }
{
    let start = start_draft(stored, lines);
    let past = Past {
        roots: &stored.roots,
        heights: &stored.heights,
    };
    let made = make_all(&mut stored.nodes, &past, start, changes)?;
    push_root(stored, made.root)?;
    Ok(made.lines)
}

/// Adds one more revision, the changes made in order on the last one, and returns the next line. A refusal leaves all as it was.
pub(crate) fn extend(
    stored: &mut Stored,
    lines: u64,
    changes: &[Change],
) -> Result<u64, CommitFault>
    requires { IsStored stored.old.roots stored.old.nodes.items lines stored.old.heights.items }
    ensures ok { IfOk result (IsExtended stored.old.roots stored.old.nodes.items lines stored.new.roots stored.new.nodes.items stored.new.heights.items changes.now) }
    ensures fault { IfErr result (IsRefused (history_of stored.old.roots stored.old.nodes.items lines) changes.now) }
    ensures unchanged { OnErr result ((stored.new.nodes.items ≡ stored.old.nodes.items) × (stored.new.roots ≡ stored.old.roots) × (stored.new.heights.items ≡ stored.old.heights.items)) }
{
    let base = stored.nodes.len();
    match push_revision(stored, lines, changes) {
        Ok(next) => Ok(next),
        Err(fault) => {
            stored.nodes.truncate(base);
            stored.heights.truncate(base);
            Err(fault)
        }
    }
}
