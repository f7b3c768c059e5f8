//! What nodes of a repository have.
ghost use Rattle.std.specs.Prelude.{◌≡◌, [], IfOk};
ghost use Rattle.md5.specs.Md5.{md5};
ghost use Rattle.svn_repo.specs.History.{node_at, child_in};
ghost use Rattle.svn_repo.specs.Readings.{are_related, is_directory_at, text_of, kind_of, props_of};

use std::alloc::{AllocError, Global};
use svn_repo::{NodeId, Repo};
use svn_types::{Digest, Kind, Name, Props, Text};

/// Whether two nodes are there, and of one line.
pub(crate) fn are_related(repo: &Repo, from: &Option<NodeId>, to: &Option<NodeId>) -> bool
    ensures { result ≡ are_related repo.now from.now to.now }
{
    match (from, to) {
        (Some(old), Some(new)) => repo.are_related(*old, *new),
        _ => false,
    }
}

/// Whether the node is a directory.
pub(crate) fn is_directory(repo: &Repo, node: Option<NodeId>) -> bool
    ensures { result ≡ is_directory_at repo.now node }
{
    match node {
        Some(id) => repo.kind(id) == Some(Kind::Directory),
        None => false,
    }
}

/// The entry of a node under a name.
pub(crate) fn node_under(repo: &Repo, node: NodeId, name: &Name) -> Option<NodeId>
    ensures { result ≡ child_in (node_at repo.now node) name.now }
{
    match repo.entries(node) {
        Some(entries) => entries.get(name),
        None => None,
    }
}

/// The text of a file; for anything else no byte.
pub(crate) fn text_of(repo: &Repo, node: NodeId) -> &[u8]
    ensures { result.now ≡ text_of repo.now node }
{
    match repo.text(node) {
        Some(text) => text,
        None => &[],
    }
}

/// The checksum of the text of a file; for anything else that of no byte.
pub(crate) fn checksum_of(repo: &Repo, node: NodeId) -> Digest
    ensures { result ≡ md5 (text_of repo.now node) }
{
    match repo.shared_text(node) {
        Some(text) => text.checksum(),
        None => checksum_of_nothing(),
    }
}

/// The checksum of a text without a byte.
pub(crate) fn checksum_of_nothing() -> Digest
    ensures { result ≡ md5 [] }
{
    Digest::of(&[])
}

/// The text of a file, which shares the repository's bytes; for anything else no byte.
pub(crate) fn shared_text(alloc: Global, repo: &Repo, node: NodeId) -> Result<Text, AllocError>
    ensures { IfOk result (λ t. t ≡ text_of repo.now node) }
{
    match repo.shared_text(node) {
        Some(text) => text.clone(),
        None => Ok(Text::new(Vec::new(alloc))),
    }
}

/// The properties of a node.
pub(crate) fn props_of<'r>(repo: &'r Repo, node: NodeId, none: &'r Props) -> &'r Props
    requires { none.now ≡ [] }
    ensures { result.now ≡ props_of repo.now node }
{
    match repo.props(node) {
        Some(props) => props,
        None => none,
    }
}

/// Whether a node is a file or a directory; a missing one counts as a file.
pub(crate) fn kind_of(repo: &Repo, node: NodeId) -> Kind
    ensures { result ≡ kind_of repo.now node }
{
    match repo.kind(node) {
        Some(kind) => kind,
        None => Kind::File,
    }
}
