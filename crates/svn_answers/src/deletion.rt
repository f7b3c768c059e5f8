//! What is told of a folder whose path is gone in the target of its update: the deletion of an entry of the directory above it.
ghost use Rattle.std.specs.Prelude.{◌≡◌, ◌≢◌, ◌⊎◌, [], ℕ, List, IfOk, IfErr, OnOk};
ghost use Rattle.std.specs.Io.KnownBytes.{Appends};
ghost use Rattle.svn_audit.specs.declared.lines.NodeChange.TheVariants.{Deleted};
ghost use Rattle.svn_audit.specs.Lines.{line_of};
ghost use Rattle.svn_audit.specs.Printing.{line_text};
ghost use Rattle.svn_model.specs.declared.base_node.BaseNode.TheVariants.{NotPresent};
ghost use Rattle.svn_nodes.specs.Lines.{node_lines};
ghost use Rattle.svn_answers.specs.declared.topic.TopicFault.TheVariants.{Memory, Write as NotWritten};
ghost use Rattle.svn_answers.specs.Topics.{deletion_calls, deletion_text, line};

use crate::topic::{Topic, TopicFault};
use crate::topics::{or_latest, write_calls};
use std::alloc::Global;
use std::io::Write;
use svn_audit::{NodeChange, UpdateLine};
use svn_editor::{Call, Token};
use svn_repo::Repo;
use svn_types::{Name, RelPath, Rev};

// The calls that delete an entry of a directory of that revision.
fn deletion_calls(
    alloc: Global,
    base: Rev,
    target: Rev,
    name: &Name,
) -> Result<[Call; 5], TopicFault>
    ensures calls { IfOk result (λ calls. calls ≡ deletion_calls base target name.now) }
    ensures fault { IfErr result (λ e. e ≡ Memory) }
{
    let root = Token(0);
    let Ok(path) = RelPath::root(alloc).join(alloc, name) else {
        return Err(TopicFault::Memory);
    };
    Ok([
        Call::SetTargetRevision { rev: target },
        Call::OpenRoot { base, token: root },
        Call::DeleteEntry {
            path,
            rev: base,
            parent: root,
        },
        Call::CloseDirectory { token: root },
        Call::CloseEdit,
    ])
}

// Writes the line of a folder that is deleted.
fn write_deleted<W: Write>(alloc: Global, output: &mut W) -> Result<(), TopicFault>
    ensures written { OnOk result (Appends (W.contents output.old) (W.contents output.new) (line (line_text (line_of Deleted [])))) }
    ensures fault { IfErr result (λ e. e ≡ NotWritten) }
{
    let line = UpdateLine {
        node: NodeChange::Deleted,
        props: false,
        path: RelPath::root(alloc),
    };
    match writeln!(output, "{line}") {
        Ok(()) => Ok(()),
        Err(_) => Err(TopicFault::Write),
    }
}

// Writes that the root isn't present.
fn write_not_present<W: Write>(output: &mut W) -> Result<(), TopicFault>
    ensures written { OnOk result (Appends (W.contents output.old) (W.contents output.new) (node_lines ([], NotPresent))) }
    ensures fault { IfErr result (λ e. e ≡ NotWritten) }
{
    match writeln!(output, ". not-present") {
        Ok(()) => Ok(()),
        Err(_) => Err(TopicFault::Write),
    }
}

/// A folder that an update deletes as an entry of the directory above it.
#[derive(Clone, Copy)]
pub(crate) struct Deletion<'a> {
    /// Its name.
    pub(crate) name: &'a Name,
    /// Its revision.
    pub(crate) base: Rev,
}

/// Writes what is asked of a folder that is deleted.
pub(crate) fn write_deletion<W: Write>(
    alloc: Global,
    repo: &Repo,
    deletion: &Deletion<'_>,
    topic: Topic,
    output: &mut W,
) -> Result<(), TopicFault>
    ensures written { OnOk result (Appends (W.contents output.old) (W.contents output.new) (deletion_text repo.now deletion.now.base deletion.now.name.now topic)) }
    ensures fault { IfErr result (λ e. (e ≡ NotWritten) ⊎ (e ≡ Memory)) }
    ensures unwritten { IfErr result (λ e. e ≢ NotWritten → Appends (W.contents output.old) (W.contents output.new) []) }
{
    match topic {
        Topic::Report => Ok(()),
        Topic::Update(_) => write_deleted(alloc, output),
        Topic::Calls(rev) => {
            let target = or_latest(repo, rev);
            let calls = deletion_calls(alloc, deletion.base, target, deletion.name)?;
            write_calls(&calls, output)
        }
        Topic::Nodes(_) => write_not_present(output),
    }
}
