//! The stored nodes, each named by its place.
ghost use Rattle.std.specs.Prelude.{◌≡◌, ◌≢◌, ℕ, ◌<◌, slice_get, length, vec_len, ◌≤◌, IsSome, IfOk, OnOk, OnErr, option_map, option_and_then, Some, None, true, List, [], ◌∷◌, ◌++◌};
ghost use Rattle.svn_types.specs.Names.{IsName};
ghost use Rattle.svn_types.specs.Pairs.{with_value, value_of, ChangesOnly};
ghost use Rattle.svn_types.specs.Paths.{parent};
ghost use Rattle.svn_repo.specs.History.{child_in, walk};
ghost use Rattle.svn_repo.specs.Stored.{row_of, rows, kind_of, entries_of};
ghost use Rattle.svn_repo.specs.Trees.{IsWay, is_directory_place, leaf, place_of, place_at, with_prop};
ghost use Rattle.svn_repo.specs.Changes.{above_fault, root_fault};
ghost use Rattle.svn_repo.specs.Drafts.{IsListing, PutsChild, SetsProp, CopiesNode, IsClosedIn, ThawsChild, IsDraft, IsThawed, KeepsOld, IsFound, IsGrafted, IsOld, look_in, old_part, tree_in};

use crate::entries::{Entries, NodeId};
use crate::roots::Roots;
use std::alloc::{AllocError, Global};
use svn_types::{Kind, Name, PropName, Props, Rev, Text};

#[derive(Debug, Drop)]
pub(crate) enum Content {
    Text(Text),
    Listing(Entries),
}

/// The stored trees of a repository.
#[derive(Debug, Drop)]
pub(crate) struct Stored {
    pub(crate) roots: Roots,
    // The nodes of all revisions, each named by its place.
    pub(crate) nodes: Vec<Node>,
    // How deep the tree below each node is, in names.
    pub(crate) heights: Vec<u8>,
}

/// The revisions that a commit is made over: the root of each, and the height of each node that was before the commit.
#[derive(Clone, Copy, Debug)]
pub(crate) struct Past<'a> {
    pub(crate) roots: &'a Roots,
    pub(crate) heights: &'a [u8],
}

/// How far a commit has come: the stored nodes from `base` on are made by it, `root` is the root of its revision, and `lines` is the
/// next line.
#[derive(Clone, Copy, Debug)]
pub(crate) struct Draft {
    pub(crate) base: usize,
    pub(crate) root: NodeId,
    pub(crate) lines: u64,
}

/// What a property becomes: without a value it is removed.
#[derive(Clone, Copy, Debug)]
pub(crate) struct PropSetting<'a> {
    pub(crate) name: &'a PropName,
    pub(crate) value: &'a Option<Text>,
}

#[derive(Debug, Drop)]
pub(crate) struct Node {
    pub(crate) line: u64,
    pub(crate) props: Props,
    pub(crate) content: Content,
}

impl Node {
    pub(crate) fn kind(&self) -> Kind
        ensures { result ≡ kind_of self.now.content }
    {
        match &self.content {
            Content::Text(_) => Kind::File,
            Content::Listing(_) => Kind::Directory,
        }
    }
}

// The entry of a node under a name.
pub(crate) fn child(nodes: &[Node], at: NodeId, name: &Name) -> Option<NodeId>
    ensures { result ≡ child_in (rows nodes.now at) name.now }
{
    let node = nodes.get(at.index)?;
    match &node.content {
        Content::Text(_) => None,
        Content::Listing(entries) => entries.get(name),
    }
}

// The node at a path below a node.
pub(crate) fn node_below(nodes: &[Node], from: NodeId, names: &[Name]) -> Option<NodeId>
    ensures { result ≡ walk (rows nodes.now) from names.now }
{
    let mut at = from;
    for name in names {
        at = child(nodes, at, name)?;
    }
    Some(at)
}

// The node at a path in a revision.
pub(crate) fn lookup_in(nodes: &[Node], roots: &Roots, rev: Rev, names: &[Name]) -> Option<NodeId>
    ensures { result ≡ look_in nodes.now roots.now rev names.now }
{
    let root = roots.get(rev)?;
    node_below(nodes, root, names)
}

impl Clone for Content {
    ghost is_clone = { λ content copy. copy ≡ content };

    fn clone(&self) -> Result<Content, AllocError> {
        Ok(match self {
            Content::Text(text) => Content::Text(text.clone()?),
            Content::Listing(entries) => Content::Listing(entries.clone()?),
        })
    }
}

// A copy of properties. Most nodes have none, and then there is nothing to go over.
fn copy_props(props: &Props, alloc: Global) -> Result<Props, AllocError>
    ensures { IfOk result (λ copy. copy ≡ props.now) }
{
    if props.is_empty() {
        Ok(Props::new(alloc))
    } else {
        props.clone()
    }
}

// Makes a copy of a node.
fn copy_node(nodes: &mut Vec<Node>, id: NodeId) -> Result<NodeId, AllocError>
    requires { id < vec_len nodes.old }
    ensures ok { IfOk result (λ n. (n ≡ length nodes.old.items) × CopiesNode nodes.old.items nodes.new.items id) }
    ensures err { OnErr result (nodes.new.items ≡ nodes.old.items) }
{
    let alloc = *nodes.allocator();
    let node = &nodes[id.index];
    let copy = Node {
        line: node.line,
        props: copy_props(&node.props, alloc)?,
        content: node.content.clone()?,
    };
    let index = nodes.len();
    nodes.push(copy)?;
    Ok(NodeId { index })
}

fn put_entry(
    entries: &mut Entries,
    name: &Name,
    child: Option<NodeId>,
) -> Result<Option<NodeId>, AllocError>
    ensures found { IfOk result (λ found. found ≡ value_of entries.old name.now) }
    ensures ok { OnOk result (entries.new ≡ with_value entries.old name.now child) }
    ensures lookups { OnOk result (ChangesOnly entries.old entries.new name.now child) }
    ensures named { IsName name.now }
{
    // So that the proof has the law of names.
    let _text = name.as_str();
    match child {
        Some(child) => entries.insert(name.clone()?, child),
        None => entries.remove(name),
    }
}

// Makes a name of a directory lead to a child, or nowhere, and returns where it led.
pub(crate) fn put_child(
    nodes: &mut Vec<Node>,
    at: NodeId,
    name: &Name,
    child: Option<NodeId>,
) -> Result<Option<NodeId>, AllocError>
    requires { IsListing nodes.old.items at }
    ensures found { IfOk result (λ found. found ≡ child_in (rows nodes.old.items at) name.now) }
    ensures ok { OnOk result (PutsChild nodes.old.items nodes.new.items at name.now child) }
    ensures others { (m : ℕ) → m ≢ at → slice_get nodes.new.items m ≡ slice_get nodes.old.items m }
    ensures size { length nodes.new.items ≡ length nodes.old.items }
{
    let node = &mut nodes[at.index];
    match &mut node.content {
        Content::Text(_) => Ok(None),
        Content::Listing(entries) => put_entry(entries, name, child),
    }
}

// Makes a name of a directory lead to another node, if it leads to an old one, and returns where it led.
fn redirect_child(
    nodes: &mut Vec<Node>,
    base: usize,
    at: NodeId,
    name: &Name,
    child: NodeId,
) -> Option<NodeId>
    requires { IsListing nodes.old.items at }
    ensures found { result ≡ child_in (rows nodes.old.items at) name.now }
    ensures stays { (n : ℕ) → result ≡ Some n → base ≤ n → nodes.new.items ≡ nodes.old.items }
    ensures leads { (n : ℕ) → result ≡ Some n → n < base → PutsChild nodes.old.items nodes.new.items at name.now (Some child) }
    ensures others { (m : ℕ) → m ≢ at → slice_get nodes.new.items m ≡ slice_get nodes.old.items m }
    ensures size { length nodes.new.items ≡ length nodes.old.items }
{
    // So that the proof has the law of names.
    let _text = name.as_str();
    let node = &mut nodes[at.index];
    match &mut node.content {
        Content::Text(_) => None,
        Content::Listing(entries) => entries.redirect(name, base, child),
    }
}

// Copies the child of a directory into the draft, unless it is the draft's own. The name leads to the copy before it is made: one look-up.
fn thaw_child(
    nodes: &mut Vec<Node>,
    base: usize,
    at: NodeId,
    name: &Name,
) -> Result<NodeId, AllocError>
    requires listing { IsListing nodes.old.items at }
    requires closed { IsClosedIn nodes.old.items }
    requires present { IsSome (child_in (rows nodes.old.items at) name.now) }
    requires fresh { base ≤ at }
    ensures ok { IfOk result (ThawsChild base nodes.old.items nodes.new.items at name.now) }
    ensures kept { (m : ℕ) → m < length nodes.old.items → m ≢ at → slice_get nodes.new.items m ≡ slice_get nodes.old.items m }
    ensures grown { length nodes.old.items ≤ length nodes.new.items }
{
    let index = nodes.len();
    let found = redirect_child(nodes, base, at, name, NodeId { index }).unwrap();
    if found.index >= base {
        return Ok(found);
    }
    let copy = copy_node(nodes, found)?;
    Ok(copy)
}

// Copies every node from the root, which is the draft's own, to a path into the draft, and returns the last one.
fn thaw(
    nodes: &mut Vec<Node>,
    base: usize,
    root: NodeId,
    names: &[Name],
) -> Result<NodeId, AllocError>
    requires draft { IsDraft base nodes.old.items root }
    requires fresh { base ≤ root }
    requires way { IsWay (tree_in base nodes.old.items root) names.now }
    ensures ok { IfOk result (IsThawed base nodes.old.items nodes.new.items root root names.now) }
    ensures kept { KeepsOld base nodes.old.items nodes.new.items }
{
    let mut at = root;
    for name in names {
        at = thaw_child(nodes, base, at, name)?;
    }
    Ok(at)
}

// Copies the root into the draft, unless it is the draft's own.
fn thaw_root(nodes: &mut Vec<Node>, draft: Draft) -> Result<NodeId, AllocError>
    requires { IsDraft draft.base nodes.old.items draft.root }
    ensures ok { IfOk result (λ n. IsThawed draft.base nodes.old.items nodes.new.items draft.root n [] n) }
    ensures kept { KeepsOld draft.base nodes.old.items nodes.new.items }
{
    if draft.root.index >= draft.base {
        return Ok(draft.root);
    }
    copy_node(nodes, draft.root)
}

// Copies every node from the root to a path into the draft, and returns the new root and the last of these nodes. If that one is known, and is
// the draft's own, so are all above it.
pub(crate) fn thaw_path(
    nodes: &mut Vec<Node>,
    draft: Draft,
    names: &[Name],
    near: Option<NodeId>,
) -> Result<(NodeId, NodeId), AllocError>
    requires draft { IsDraft draft.base nodes.old.items draft.root }
    requires way { IsWay (tree_in draft.base nodes.old.items draft.root) names.now }
    requires near { IsFound nodes.old.items draft.root names.now near }
    ensures ok { IfOk result (λ r. (draft.base ≤ r.0) × IsThawed draft.base nodes.old.items nodes.new.items draft.root r.0 names.now r.1) }
    ensures kept { KeepsOld draft.base nodes.old.items nodes.new.items }
{
    let base = draft.base;
    match near {
        Some(at) if at.index >= base => return Ok((draft.root, at)),
        _ => (),
    }
    let top = thaw_root(nodes, draft)?;
    let at = thaw(nodes, base, top, names)?;
    Ok((top, at))
}

// The last name of a path that isn't the root, and the names above.
pub(crate) fn split_path(names: &[Name]) -> (&Name, &[Name])
    requires { root_fault names.now ≡ None }
    ensures { names.now ≡ result.1.now ++ result.0.now ∷ [] }
{
    let Some((last, above)) = names.split_last() else {
        unreachable!()
    };
    (last, above)
}

// Puts a new node after the others, and makes a name of a directory lead to it.
fn push_child(nodes: &mut Vec<Node>, at: NodeId, name: &Name, node: Node) -> Result<(), AllocError>
    requires { IsListing nodes.old.items at }
    ensures ok { OnOk result (PutsChild (nodes.old.items ++ node ∷ []) nodes.new.items at name.now (Some (length nodes.old.items))) }
    ensures kept { (base : ℕ) → base ≤ at → base ≤ length nodes.old.items → KeepsOld base nodes.old.items nodes.new.items }
{
    let index = nodes.len();
    nodes.push(node)?;
    put_child(nodes, at, name, Some(NodeId { index }))?;
    Ok(())
}

/// Puts a new node at a path of a draft, and returns the new root.
pub(crate) fn put_made(
    nodes: &mut Vec<Node>,
    draft: Draft,
    names: &[Name],
    near: Option<NodeId>,
    node: Node,
) -> Result<NodeId, AllocError>
    requires draft { IsDraft draft.base nodes.old.items draft.root }
    requires near { IsFound nodes.old.items draft.root (parent names.now) near }
    requires not_root { root_fault names.now ≡ None }
    requires above { above_fault (tree_in draft.base nodes.old.items draft.root) names.now ≡ None }
    requires childless { entries_of node.content ≡ [] }
    ensures ok { IfOk result (λ n. IsGrafted draft.base nodes.old.items nodes.new.items draft.root n names.now (leaf (place_of None (row_of node)))) }
    ensures kept { KeepsOld draft.base nodes.old.items nodes.new.items }
    ensures grown { OnOk result (length nodes.old.items < length nodes.new.items) }
{
    let (last, above) = split_path(names);
    let (top, at) = thaw_path(nodes, draft, above, near)?;
    push_child(nodes, at, last, node)?;
    Ok(top)
}

/// Puts an old node at a path of a draft, or takes away what is there, and returns the new root.
pub(crate) fn put_old(
    nodes: &mut Vec<Node>,
    draft: Draft,
    names: &[Name],
    child: Option<NodeId>,
) -> Result<NodeId, AllocError>
    requires draft { IsDraft draft.base nodes.old.items draft.root }
    requires not_root { root_fault names.now ≡ None }
    requires above { above_fault (tree_in draft.base nodes.old.items draft.root) names.now ≡ None }
    requires old { IsOld draft.base child }
    ensures ok { IfOk result (λ n. IsGrafted draft.base nodes.old.items nodes.new.items draft.root n names.now (old_part draft.base nodes.old.items child)) }
    ensures kept { KeepsOld draft.base nodes.old.items nodes.new.items }
{
    let (last, above) = split_path(names);
    let (top, at) = thaw_path(nodes, draft, above, None)?;
    put_child(nodes, at, last, child)?;
    Ok(top)
}

// What is at a node, if there is one.
pub(crate) fn kind_at(nodes: &[Node], at: Option<NodeId>) -> Option<Kind>
    requires { (n : ℕ) → at ≡ Some n → n < length nodes.now }
    ensures { (base : ℕ) → result ≡ option_map (λ p. p.kind) (option_and_then (place_at (rows nodes.now) base) at) }
{
    match at {
        None => None,
        Some(id) => Some(nodes[id.index].kind()),
    }
}

fn put_value(props: &mut Props, setting: &PropSetting<'_>) -> Result<(), AllocError>
    ensures ok { OnOk result (props.new ≡ with_value props.old setting.now.name.now setting.now.value.now) }
{
    match setting.value {
        Some(value) => props.insert(setting.name.clone()?, value.clone()?),
        None => {
            props.remove(setting.name);
            Ok(())
        }
    }
}

// Sets or removes a property of a node.
fn set_value(nodes: &mut Vec<Node>, at: NodeId, setting: &PropSetting<'_>) -> Result<(), AllocError>
    requires { at < length nodes.old.items }
    ensures ok { OnOk result (SetsProp nodes.old.items nodes.new.items at setting.now.name.now setting.now.value.now) }
    ensures others { (m : ℕ) → m ≢ at → slice_get nodes.new.items m ≡ slice_get nodes.old.items m }
    ensures size { length nodes.new.items ≡ length nodes.old.items }
{
    let node = &mut nodes[at.index];
    put_value(&mut node.props, setting)
}

/// Sets or removes a property of the node at a path of a draft, and returns the new root.
pub(crate) fn put_prop(
    nodes: &mut Vec<Node>,
    draft: Draft,
    names: &[Name],
    near: Option<NodeId>,
    setting: &PropSetting<'_>,
) -> Result<NodeId, AllocError>
    requires draft { IsDraft draft.base nodes.old.items draft.root }
    requires near { IsFound nodes.old.items draft.root names.now near }
    requires way { IsWay (tree_in draft.base nodes.old.items draft.root) names.now }
    ensures ok { IfOk result (λ n. IsGrafted draft.base nodes.old.items nodes.new.items draft.root n names.now (with_prop (tree_in draft.base nodes.old.items draft.root) names.now setting.now.name.now setting.now.value.now)) }
    ensures kept { KeepsOld draft.base nodes.old.items nodes.new.items }
{
    let (top, at) = thaw_path(nodes, draft, names, near)?;
    set_value(nodes, at, setting)?;
    Ok(top)
}
