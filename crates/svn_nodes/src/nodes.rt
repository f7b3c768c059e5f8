//! What an edit asks of a node, and how it changes one. A node is passed as `None` where a copy has none at a path.
ghost use Rattle.std.specs.Prelude.{◌≡◌, nat_eq, IfOk, IfSome, OnOk, OnErr, Some, None, unwrap_or, if◌then◌else◌};
ghost use Rattle.std.specs.Option.{option_copied};
ghost use Rattle.md5.specs.Md5.{md5};
ghost use Rattle.svn_types.specs.Names.{Path};
ghost use Rattle.svn_types.specs.Paths.{path_eq};
ghost use Rattle.svn_model.specs.Nodes.{get_in, is_present, node_text};
ghost use Rattle.svn_model.specs.Effects.{opened_directory, is_wrong_sum};
ghost use Rattle.svn_model.specs.Answering.{AnswersCall};
ghost use Rattle.svn_nodes.specs.NodeTests.{AnswersAs, IsSumOf, delete_fault_of, open_fault_of};

use crate::memory::or_memory;
use std::alloc::Global;
use std::collections::BTreeMap;
use std::collections::btree_map::Entry;
use svn_editor::EditFault;
use svn_model::BaseNode;
use svn_types::{Digest, Kind, Props, RelPath, Rev, Text};

/// The nodes of a copy, by their paths from its root, in path order.
pub type Nodes = BTreeMap<RelPath, BaseNode>;

/// A path, and the node there, if there is one: then the path is the copy's own, and a clone of that shares what the copy holds anyway, so
/// that what the other path holds can go. It takes no memory.
pub fn standing<'a>(nodes: &'a Nodes, path: &'a RelPath) -> (&'a RelPath, Option<&'a BaseNode>)
    ensures path { result.0.now ≡ path.now }
    ensures node { option_copied result.1 ≡ get_in nodes.now.entries path.now }
{
    match nodes.get_key_value(path) {
        Some((own, node)) => (own, Some(node)),
        None => (path, None),
    }
}

/// Whether a node is present: a file or a directory. It takes no memory.
pub fn is_present(node: Option<&BaseNode>) -> bool
    ensures { result ≡ is_present (option_copied node.entry) }
{
    match node {
        Some(node) => node.is_present(),
        None => false,
    }
}

/// The fault of an add that was refused, where a node may be present: then EntryExists, which comes first, else the fault that is passed. It takes
/// no memory.
pub fn add_fault(node: Option<&BaseNode>, fault: EditFault) -> EditFault
    ensures { result ≡ (if is_present (option_copied node.entry) then EditFault.EntryExists else fault) }
{
    if is_present(node) {
        EditFault::EntryExists
    } else {
        fault
    }
}

/// Puts a new node at a path where none is present. EntryExists where one is, Memory where the map can't grow; then the nodes stay as they
/// were. It looks the path up once.
pub fn add(nodes: &mut Nodes, at: RelPath, node: BaseNode) -> Result<(), EditFault>
    ensures answers { AnswersCall (if is_present (get_in nodes.old.entries at) then Some EditFault.EntryExists else None) result }
    ensures added { OnOk result ((p : Path) → get_in nodes.new.entries p ≡ (if path_eq at p then Some node else get_in nodes.old.entries p)) }
    ensures refused { OnErr result (nodes.new.entries ≡ nodes.old.entries) }
{
    let Ok(entry) = nodes.entry(at) else {
        return Err(EditFault::Memory);
    };
    if let Entry::Occupied(found) = &entry {
        if is_present(Some(found.get())) {
            return Err(EditFault::EntryExists);
        }
    }
    entry.insert_entry(node);
    Ok(())
}

fn revision_fault(at: Rev, rev: Rev) -> Option<EditFault>
    ensures { result ≡ (if nat_eq at rev then None else Some EditFault.WrongRevision) }
{
    if at == rev {
        None
    } else {
        Some(EditFault::WrongRevision)
    }
}

/// Why the entry of a node isn't deleted at a revision: NoEntry where none is present, WrongRevision where it has another. It takes no memory.
pub fn delete_fault(node: Option<&BaseNode>, rev: Rev) -> Option<EditFault>
    ensures { result ≡ delete_fault_of (option_copied node.entry) rev }
{
    match node {
        Some(BaseNode::File { rev: at, .. }) => revision_fault(*at, rev),
        Some(BaseNode::Dir { rev: at, .. }) => revision_fault(*at, rev),
        Some(BaseNode::NotPresent) | None => Some(EditFault::NoEntry),
    }
}

/// Why a node isn't opened as a directory at a base revision, but for a path that is too deep: NoEntry where none is present, WrongKind for a
/// file, WrongRevision where it has another. It takes no memory.
pub fn open_directory_fault(node: Option<&BaseNode>, base: Rev) -> Option<EditFault>
    ensures { result ≡ open_fault_of Kind.Directory (option_copied node.entry) base }
{
    match node {
        Some(BaseNode::File { .. }) => Some(EditFault::WrongKind),
        Some(BaseNode::Dir { rev, .. }) => revision_fault(*rev, base),
        Some(BaseNode::NotPresent) | None => Some(EditFault::NoEntry),
    }
}

/// The same of a file: WrongKind for a directory.
pub fn open_file_fault(node: Option<&BaseNode>, base: Rev) -> Option<EditFault>
    ensures { result ≡ open_fault_of Kind.File (option_copied node.entry) base }
{
    match node {
        Some(BaseNode::File { rev, .. }) => revision_fault(*rev, base),
        Some(BaseNode::Dir { .. }) => Some(EditFault::WrongKind),
        Some(BaseNode::NotPresent) | None => Some(EditFault::NoEntry),
    }
}

// The checksum of a node's text; for anything but a file that of no byte.
fn checksum_of(node: Option<&BaseNode>) -> Digest
    ensures { result ≡ md5 (node_text (option_copied node.entry)) }
{
    match node {
        Some(BaseNode::File { text, .. }) => text.checksum(),
        Some(BaseNode::Dir { .. } | BaseNode::NotPresent) | None => Digest::of(&[]),
    }
}

/// The MD5 checksum of the text that a node has, where the text keeps it: else nothing is computed. It takes no memory.
pub fn kept_sum(node: Option<&BaseNode>) -> Option<Digest>
    ensures { IfSome result (λ sum. sum ≡ md5 (node_text (option_copied node.entry))) }
{
    match node {
        Some(BaseNode::File { text, .. }) => text.kept_checksum(),
        _ => None,
    }
}

/// Opens a directory, with the repository path that it gets, if it gets one: it becomes incomplete, at the target revision, and loses its
/// properties where it was incomplete before. What is no directory stays as it was. It takes no memory.
pub fn open_directory(alloc: Global, node: &mut BaseNode, target: Rev, moved: Option<RelPath>)
    ensures { (q : Path → Path) → ((was : Path) → q was ≡ unwrap_or moved was) → Some node.new ≡ opened_directory target q (Some node.old) }
{
    if let BaseNode::Dir {
        rev,
        repos_path,
        complete,
        props,
    } = node
    {
        *rev = target;
        if let Some(moved) = moved {
            *repos_path = moved;
        }
        if !*complete {
            *props = Props::new(alloc);
        }
        *complete = false;
    }
}

// A clone of a text, once its checksum was tested.
fn tested_clone(text: &Text, given: &Option<Digest>) -> Result<Text, EditFault>
    ensures tested { AnswersAs (if is_wrong_sum given.now (md5 text.now) then Some EditFault.TextChecksum else None) result }
    ensures text { IfOk result (λ t. t ≡ text.now) }
{
    match given {
        Some(sum) if *sum != text.checksum() => Err(EditFault::TextChecksum),
        _ => or_memory(text.clone()),
    }
}

// The text of bytes, once their checksum was computed and tested.
fn tested_bytes(alloc: Global, bytes: &[u8], given: &Option<Digest>) -> Result<Text, EditFault>
    ensures tested { AnswersAs (if is_wrong_sum given.now (md5 bytes.now) then Some EditFault.TextChecksum else None) result }
    ensures text { IfOk result (λ t. t ≡ bytes.now) }
{
    let Some(sum) = given else {
        return or_memory(Text::from_slice(alloc, bytes));
    };
    match or_memory(Text::verified(alloc, bytes, sum))? {
        Some(text) => Ok(text),
        None => Err(EditFault::TextChecksum),
    }
}

/// The text of bytes that came, once they were tested: TextChecksum where an MD5 checksum is given, and is another; Memory where the text can't be
/// made. Where the bytes are those of a text that was kept, that is cloned: it may know its checksum, and share its bytes.
pub fn tested_text(
    alloc: Global,
    bytes: &[u8],
    kept: Option<&Text>,
    given: &Option<Digest>,
) -> Result<Text, EditFault>
    ensures tested { AnswersAs (if is_wrong_sum given.now (md5 bytes.now) then Some EditFault.TextChecksum else None) result }
    ensures text { IfOk result (λ t. t ≡ bytes.now) }
{
    match kept {
        Some(text) if text.as_slice() == bytes => tested_clone(text, given),
        _ => tested_bytes(alloc, bytes, given),
    }
}

/// Whether a checksum is given, and is another than that of a node's text; anything but a file counts as having no byte. It takes no memory.
pub fn is_wrong_sum(given: &Option<Digest>, node: Option<&BaseNode>) -> bool
    ensures { result ≡ is_wrong_sum given.now (md5 (node_text (option_copied node.entry))) }
{
    match given {
        Some(sum) => *sum != checksum_of(node),
        None => false,
    }
}

// The checksum of the text at a path. A known one is believed, and nothing is looked up.
fn sum_at(known: Option<Digest>, nodes: &Nodes, path: &RelPath) -> Digest
    ensures { IsSumOf known nodes.now.entries path.now → result ≡ md5 (node_text (get_in nodes.now.entries path.now)) }
{
    match known {
        Some(sum) => sum,
        None => checksum_of(nodes.get(path)),
    }
}

/// Whether a checksum is given, and is another than that of the text at a path, which may be known: a known one is believed. Where none is given
/// or it is known, nothing is looked up. It takes no memory.
pub fn is_wrong_base(
    given: &Option<Digest>,
    known: Option<Digest>,
    nodes: &Nodes,
    path: &RelPath,
) -> bool
    ensures { IsSumOf known nodes.now.entries path.now → result ≡ is_wrong_sum given.now (md5 (node_text (get_in nodes.now.entries path.now))) }
{
    match given {
        Some(sum) => *sum != sum_at(known, nodes, path),
        None => false,
    }
}
