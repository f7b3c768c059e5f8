//! Changes, made and written as the records of a dump.
ghost use Rattle.std.specs.Prelude.{◌≡◌, ◌≢◌, ◌++◌, [], Some, None, IfOk, IfErr, OnOk};
ghost use Rattle.svn_dump.specs.Written.{written};
ghost use Rattle.law_dump.specs.Laws.{IsNodeRecord};
ghost use Rattle.svn_history.specs.Results.{Fails};
ghost use Rattle.svn_history.specs.Steps.{IsMade, draft_of, one};
ghost use Rattle.svn_history.specs.Changes.{at};
ghost use Rattle.svn_history.specs.Writing.{bare, copy_record, directory_record, file_record, kind_or_none, makes_file, prop_record, record_after, record_of};

use crate::fault::LoadFault;
use law_dump::node_is_lawful;
use std::alloc::Global;
use svn_dump::{Action, CopySource, NodeRecord, PropChanges, PropSection, TextSection, push_node};
use svn_repo::{Change, Transaction};
use svn_types::{Kind, PropName, Props, RelPath, Rev, Text};

// A record of nothing but a path, a kind and an action.
fn bare(path: &RelPath, kind: Option<Kind>, action: Action) -> Result<NodeRecord, LoadFault>
    ensures value { IfOk result (λ r. r ≡ bare path.now kind action) }
    ensures fault { IfErr result (λ e. e ≡ LoadFault.Memory) }
{
    Ok(NodeRecord {
        path: path.clone()?,
        kind,
        action,
        source: None,
        props: None,
        text: None,
    })
}

fn new_directory(alloc: Global, path: &RelPath) -> Result<NodeRecord, LoadFault>
    ensures value { IfOk result (λ r. r ≡ directory_record path.now) }
    ensures fault { IfErr result (λ e. e ≡ LoadFault.Memory) }
{
    let mut record = bare(path, Some(Kind::Directory), Action::Add)?;
    record.props = Some(PropSection::Whole(Props::new(alloc)));
    Ok(record)
}

fn file(alloc: Global, path: &RelPath, text: &Text, is_new: bool) -> Result<NodeRecord, LoadFault>
    ensures value { IfOk result (λ r. r ≡ file_record path.now text.now is_new) }
    ensures fault { IfErr result (λ e. e ≡ LoadFault.Memory) }
{
    let mut record = bare(path, Some(Kind::File), Action::Change)?;
    if is_new {
        record.action = Action::Add;
        record.props = Some(PropSection::Whole(Props::new(alloc)));
    }
    record.text = Some(TextSection::Whole(text.clone()?));
    Ok(record)
}

// One property of a node, set or removed.
fn prop_set(
    alloc: Global,
    transaction: &Transaction,
    path: &RelPath,
    name: &PropName,
    value: &Option<Text>,
) -> Result<NodeRecord, LoadFault>
    ensures value { IfOk result (λ r. r ≡ prop_record path.now (kind_or_none (at (draft_of transaction.now) path.now)) (name.now, value.now)) }
    ensures fault { IfErr result (λ e. e ≡ LoadFault.Memory) }
{
    let mut record = bare(path, transaction.kind(path), Action::Change)?;
    let mut changes = Vec::new(alloc);
    changes.push((name.clone()?, value.clone()?))?;
    record.props = Some(PropSection::Delta(PropChanges::new(changes)));
    Ok(record)
}

fn copied(
    transaction: &Transaction,
    rev: Rev,
    source: &RelPath,
    path: &RelPath,
) -> Result<NodeRecord, LoadFault>
    ensures value { IfOk result (λ r. r ≡ copy_record path.now (kind_or_none (at (draft_of transaction.now) path.now)) (record { rev = rev; path = source.now })) }
    ensures fault { IfErr result (λ e. e ≡ LoadFault.Memory) }
{
    let mut record = bare(path, transaction.kind(path), Action::Add)?;
    let path = source.clone()?;
    record.source = Some(CopySource { rev, path });
    Ok(record)
}

// Whether the change makes a file where none is.
fn makes_file(transaction: &Transaction, change: &Change) -> bool
    ensures { result ≡ makes_file (draft_of transaction.now).pending.tree change.now }
{
    match change {
        Change::PutFile { path, .. } => transaction.kind(path).is_none(),
        _ => false,
    }
}

// The record of a change that was made.
fn record_of(
    alloc: Global,
    transaction: &Transaction,
    change: &Change,
    is_new: bool,
) -> Result<NodeRecord, LoadFault>
    ensures value { IfOk result (λ r. r ≡ record_after (draft_of transaction.now).pending.tree change.now is_new) }
    ensures fault { IfErr result (λ e. e ≡ LoadFault.Memory) }
{
    match change {
        Change::MakeDir { path } => new_directory(alloc, path),
        Change::PutFile { path, text } => file(alloc, path, text, is_new),
        Change::SetProp { path, name, value } => prop_set(alloc, transaction, path, name, value),
        Change::Remove { path } => bare(path, None, Action::Delete),
        Change::CopyFrom { rev, source, path } => copied(transaction, *rev, source, path),
    }
}

// Makes a change, and returns its record.
#[tactic(auto, using(crate::proofs::Stepping::made_one, crate::proofs::Stepping::one_fails, crate::proofs::Stepping::history_kept, crate::proofs::Faults::fails_memory))]
fn record_change(
    alloc: Global,
    transaction: &mut Transaction,
    change: &Change,
) -> Result<NodeRecord, LoadFault>
    ensures record { IfOk result (λ r. r ≡ record_of (draft_of transaction.old) change.now) }
    ensures lawful { IfOk result IsNodeRecord }
    ensures made { OnOk result (IsMade (one change.now) (draft_of transaction.old) (draft_of transaction.new)) }
    ensures fault { IfErr result (λ e. Fails e (one change.now (draft_of transaction.old))) }
    ensures unchanged { IfErr result (λ e. e ≢ LoadFault.Memory → transaction.new ≡ transaction.old) }
    ensures history { transaction.new.history ≡ transaction.old.history }
{
    let is_new = makes_file(transaction, change);
    transaction.change(change)?;
    let record = record_of(alloc, transaction, change, is_new)?;
    node_is_lawful(&record);
    Ok(record)
}

// Makes a change, and writes its record at the end. A change that can't be made is refused, and then nothing is written. Out of memory, the record's
// first bytes may be there.
#[tactic(auto, using(crate::proofs::Faults::fails_memory))]
pub(crate) fn push_change(
    out: &mut Vec<u8>,
    transaction: &mut Transaction,
    change: &Change,
) -> Result<(), LoadFault>
    ensures written { OnOk result (out.new.items ≡ out.old.items ++ written (record_of (draft_of transaction.old) change.now)) }
    ensures lawful { OnOk result (IsNodeRecord (record_of (draft_of transaction.old) change.now)) }
    ensures made { OnOk result (IsMade (one change.now) (draft_of transaction.old) (draft_of transaction.new)) }
    ensures fault { IfErr result (λ e. Fails e (one change.now (draft_of transaction.old))) }
    ensures unwritten { IfErr result (λ e. e ≢ LoadFault.Memory → out.new.items ≡ out.old.items) }
    ensures unchanged { IfErr result (λ e. e ≢ LoadFault.Memory → transaction.new ≡ transaction.old) }
    ensures history { transaction.new.history ≡ transaction.old.history }
{
    let record = record_change(*out.allocator(), transaction, change)?;
    Ok(push_node(out, &record)?)
}
