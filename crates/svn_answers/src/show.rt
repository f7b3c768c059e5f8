//! The tree at a path of a revision.
ghost use Rattle.std.specs.Prelude.{◌≡◌, ◌≢◌, ◌≤◌, ℕ, List, drop, length, IfErr, OnOk, Some};
ghost use Rattle.std.specs.Io.KnownBytes.{Appends};
ghost use Rattle.svn_model.specs.Nodes.{base_node};
ghost use Rattle.svn_model.specs.Refusals.{is_repos_file};
ghost use Rattle.svn_nodes.specs.Lines.{node_lines};
ghost use Rattle.svn_nodes.specs.Standing.{standing};
ghost use Rattle.svn_repo.specs.History.{look};
ghost use Rattle.svn_answers.specs.declared.show.ShowFault.TheVariants.{Memory, Nothing};
ghost use Rattle.svn_answers.specs.Shown.{IsPartShown, IsShown, IsShowFault, shown_by};

use std::alloc::{AllocError, AllocFailed, Global};
use std::fmt;
use std::io::Write;
use svn_model::BaseNode;
use svn_nodes::gather::node_of;
use svn_nodes::lines::{LineTexts, write_node};
use svn_nodes::paths::child_path;
use svn_repo::{NodeId, Repo};
use svn_types::{Kind, RelPath, Rev};
use thiserror::Error;

/// Why a tree isn't written, or not to its end.
#[derive(Clone, Copy, Debug, PartialEq, Eq, Error)]
pub enum ShowFault {
    /// The revision has nothing at the path, or isn't there. Nothing was written.
    #[error("nothing is there")]
    Nothing,
    /// The output couldn't be written. What was written of it is unknown.
    #[error("write fault")]
    Write,
    /// An allocation failed. Some of the nodes may have been written.
    #[error("out of memory")]
    Memory,
}

impl From<AllocError> for ShowFault {
    ghost from_gives = { λ _ e. e ≡ Memory };

    fn from(_error: AllocError) -> ShowFault {
        ShowFault::Memory
    }
}

impl<T: Drop> From<AllocFailed<T>> for ShowFault {
    ghost from_gives = { λ _ e. e ≡ Memory };

    fn from(_error: AllocFailed<T>) -> ShowFault {
        ShowFault::Memory
    }
}

// Where nodes that are written come from: a revision of a repository. `front` is how many names their repository paths have in front of their
// paths in the copy.
#[derive(Clone, Copy)]
struct Shown<'a> {
    alloc: Global,
    repo: &'a Repo,
    rev: Rev,
    front: usize,
}

// A node at its path in the copy.
#[derive(Drop)]
struct NodeLines {
    path: RelPath,
    node: BaseNode,
}

impl fmt::Display for NodeLines {
    ghost output = { λ l. Some (node_lines (l.path, l.node)) };

    fn fmt<W: fmt::Write>(&self, f: &mut fmt::Formatter<W>) -> fmt::Result {
        write_node(&self.path, &self.node, &mut LineTexts::new(), f)
    }
}

// Whether a node of the repository is a file.
fn is_file(repo: &Repo, id: NodeId) -> bool
    ensures { result ≡ is_repos_file repo.now (Some id) }
{
    !matches!(repo.kind(id), Some(Kind::Directory))
}

// Writes one node, which is at a repository path.
fn write_one<W: Write>(
    from: &Shown<'_>,
    path: &RelPath,
    id: NodeId,
    output: &mut W,
) -> Result<(), ShowFault>
    ensures written { OnOk result (Appends (W.contents output.old) (W.contents output.new) (node_lines (drop from.now.front path.now, base_node from.now.repo.now from.now.rev path.now id))) }
    ensures fault { IfErr result (λ e. e ≢ Nothing) }
{
    let lines = NodeLines {
        path: path.tail(from.alloc, from.front)?,
        node: node_of(from.alloc, from.repo, from.rev, path.clone()?, id)?,
    };
    match write!(output, "{lines}") {
        Ok(()) => Ok(()),
        Err(_) => Err(ShowFault::Write),
    }
}

// Writes a node and then, in order of their names, what is below each of its entries: that is path order.
fn write_part<W: Write>(
    from: &Shown<'_>,
    path: &RelPath,
    id: NodeId,
    output: &mut W,
) -> Result<(), ShowFault>
    requires { from.now.front ≤ length path.now }
    ensures written { OnOk result ((text : List ℕ) × IsPartShown (standing from.now.repo.now from.now.rev path.now id) (drop from.now.front path.now) text × Appends (W.contents output.old) (W.contents output.new) text) }
    ensures fault { IfErr result (λ e. e ≢ Nothing) }
{
    write_one(from, path, id, output)?;
    let Some(entries) = from.repo.entries(id) else {
        return Ok(());
    };
    for (name, child) in entries.iter() {
        let below = child_path(from.alloc, path, name)?;
        write_part(from, &below, *child, output)?;
    }
    Ok(())
}

// Writes what is at the path, which has the node of this number, and below.
fn write_tree<W: Write>(
    from: &Shown<'_>,
    path: &RelPath,
    id: NodeId,
    output: &mut W,
) -> Result<(), ShowFault>
    requires front { from.now.front ≡ length path.now }
    requires stands { look from.now.repo.now from.now.rev path.now ≡ Some id }
    ensures written { OnOk result ((text : List ℕ) × shown_by (is_repos_file from.now.repo.now (Some id)) from.now.repo.now from.now.rev path.now id text × Appends (W.contents output.old) (W.contents output.new) text) }
    ensures fault { IfErr result (λ e. e ≢ Nothing) }
{
    if is_file(from.repo, id) {
        write_one(from, path, id, output)
    } else {
        write_part(from, path, id, output)
    }
}

/// Writes what a revision has at a path and below, as a fresh checkout has it, node by node, and flushes it: Nothing where it has nothing there. Write
/// where the writer fails, Memory where an allocation failed. It takes memory for the paths on the way down to a node, and none for a tree.
pub fn write_shown<W: Write>(
    alloc: Global,
    repo: &Repo,
    rev: Rev,
    path: &RelPath,
    output: &mut W,
) -> Result<(), ShowFault>
    ensures shown { OnOk result ((text : List ℕ) × IsShown repo.now rev path.now text × Appends (W.contents output.old) (W.contents output.new) text) }
    ensures fault { IfErr result (IsShowFault (look repo.now rev path.now)) }
    ensures unwritten { IfErr result (λ e. e ≡ Nothing → output.new ≡ output.old) }
{
    let Some(id) = repo.lookup(rev, path) else {
        return Err(ShowFault::Nothing);
    };
    let from = Shown {
        alloc,
        repo,
        rev,
        front: path.components().len(),
    };
    write_tree(&from, path, id, output)?;
    match output.flush() {
        Ok(()) => Ok(()),
        Err(_) => Err(ShowFault::Write),
    }
}
