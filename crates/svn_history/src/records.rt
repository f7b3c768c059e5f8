//! Records of nodes, made as changes of a transaction.
#![tactic(auto, using(crate::proofs::Stepping::made_one, crate::proofs::Stepping::one_fails, crate::proofs::Stepping::history_kept, crate::proofs::Stepping::made_then, crate::proofs::Stepping::made_nothing, crate::proofs::Stepping::first_fails, crate::proofs::Stepping::next_fails))]

ghost use Rattle.std.specs.Prelude.{◌≡◌, ◌≢◌, ◌↔◌, [], IsTrue, IfOk, IfErr, OnOk};
ghost use Rattle.svn_repo.specs.declared.change.Change.TheVariants.{MakeDir, SetProp, CopyFrom};
ghost use Rattle.svn_repo.specs.Transactions.{text_or_empty};
ghost use Rattle.svn_history.specs.Results.{Fails};
ghost use Rattle.svn_history.specs.Steps.{IsMade, draft_of, one};
ghost use Rattle.svn_history.specs.Changes.{at, props_or_none, set_prop, set_props, same_again, or_again, put_text, put_props, alter_props, new_file, creation, addition, alteration, removal, record_changes};
ghost use Rattle.svn_types.specs.Props.{changes_between};

use crate::delta::apply_delta;
use crate::fault::LoadFault;
use std::alloc::Global;
use svn_dump::{Action, CopySource, NodeRecord, PropSection, TextSection, Texts, kept_text};
use svn_repo::{Change, CommitFault, Transaction};
use svn_types::{Kind, PropChange, PropName, Props, RelPath, Text};

/// Makes the changes that a record stands for, where texts are kept so.
#[tactic(auto, unfolding(crate::specs::Changes::record_changes), using(crate::proofs::Stepping::made_then, crate::proofs::Stepping::first_fails, crate::proofs::Stepping::next_fails))]
pub(crate) fn apply_record(
    alloc: Global,
    texts: Texts,
    transaction: &mut Transaction,
    node: &NodeRecord,
) -> Result<(), LoadFault>
    ensures made { OnOk result (IsMade (record_changes texts node.now) (draft_of transaction.old) (draft_of transaction.new)) }
    ensures fault { IfErr result (λ e. Fails e ((record_changes texts node.now) (draft_of transaction.old))) }
    ensures history { transaction.new.history ≡ transaction.old.history }
{
    match node.action {
        Action::Add => add(alloc, texts, transaction, node),
        Action::Change => change(alloc, transaction, node),
        Action::Delete => remove(transaction, &node.path),
        Action::Replace => {
            remove(transaction, &node.path)?;
            add(alloc, texts, transaction, node)
        }
    }
}

fn make(transaction: &mut Transaction, change: &Change) -> Result<(), LoadFault>
    ensures made { OnOk result (IsMade (one change.now) (draft_of transaction.old) (draft_of transaction.new)) }
    ensures fault { IfErr result (λ e. Fails e ((one change.now) (draft_of transaction.old))) }
    ensures history { transaction.new.history ≡ transaction.old.history }
{
    Ok(transaction.change(change)?)
}

fn remove(transaction: &mut Transaction, path: &RelPath) -> Result<(), LoadFault>
    ensures made { OnOk result (IsMade (removal path.now) (draft_of transaction.old) (draft_of transaction.new)) }
    ensures fault { IfErr result (λ e. Fails e ((removal path.now) (draft_of transaction.old))) }
    ensures history { transaction.new.history ≡ transaction.old.history }
{
    let path = path.clone()?;
    make(transaction, &Change::Remove { path })
}

fn add(
    alloc: Global,
    texts: Texts,
    transaction: &mut Transaction,
    node: &NodeRecord,
) -> Result<(), LoadFault>
    ensures made { OnOk result (IsMade (addition texts node.now) (draft_of transaction.old) (draft_of transaction.new)) }
    ensures fault { IfErr result (λ e. Fails e ((addition texts node.now) (draft_of transaction.old))) }
    ensures history { transaction.new.history ≡ transaction.old.history }
{
    create(alloc, texts, transaction, node)?;
    put_props(alloc, transaction, &node.path, &node.props)
}

// Puts a node where none is, with its text.
fn create(
    alloc: Global,
    texts: Texts,
    transaction: &mut Transaction,
    node: &NodeRecord,
) -> Result<(), LoadFault>
    ensures made { OnOk result (IsMade (creation texts node.now) (draft_of transaction.old) (draft_of transaction.new)) }
    ensures fault { IfErr result (λ e. Fails e ((creation texts node.now) (draft_of transaction.old))) }
    ensures history { transaction.new.history ≡ transaction.old.history }
{
    let path = &node.path;
    match (&node.source, node.kind) {
        (Some(source), _) => {
            copy(transaction, path, source)?;
            put_text(alloc, transaction, path, &node.text)
        }
        (None, Some(Kind::Directory)) => {
            make_directory(transaction, path)?;
            put_text(alloc, transaction, path, &node.text)
        }
        (None, Some(Kind::File)) => make_file(alloc, texts, transaction, node),
        (None, None) => Err(LoadFault::NoKind),
    }
}

fn copy(transaction: &mut Transaction, path: &RelPath, from: &CopySource) -> Result<(), LoadFault>
    ensures made { OnOk result (IsMade (one (CopyFrom from.now.rev from.now.path path.now)) (draft_of transaction.old) (draft_of transaction.new)) }
    ensures fault { IfErr result (λ e. Fails e ((one (CopyFrom from.now.rev from.now.path path.now)) (draft_of transaction.old))) }
    ensures history { transaction.new.history ≡ transaction.old.history }
{
    let rev = from.rev;
    let source = from.path.clone()?;
    let path = path.clone()?;
    make(transaction, &Change::CopyFrom { rev, source, path })
}

fn make_directory(transaction: &mut Transaction, path: &RelPath) -> Result<(), LoadFault>
    ensures made { OnOk result (IsMade (one (MakeDir path.now)) (draft_of transaction.old) (draft_of transaction.new)) }
    ensures fault { IfErr result (λ e. Fails e ((one (MakeDir path.now)) (draft_of transaction.old))) }
    ensures history { transaction.new.history ≡ transaction.old.history }
{
    let path = path.clone()?;
    make(transaction, &Change::MakeDir { path })
}

// Makes a file; without a text it has no bytes. `PutFile` would replace the text of a file that is there, so an add over one is refused here.
fn make_file(
    alloc: Global,
    texts: Texts,
    transaction: &mut Transaction,
    node: &NodeRecord,
) -> Result<(), LoadFault>
    ensures made { OnOk result (IsMade (new_file texts node.now) (draft_of transaction.old) (draft_of transaction.new)) }
    ensures fault { IfErr result (λ e. Fails e ((new_file texts node.now) (draft_of transaction.old))) }
    ensures history { transaction.new.history ≡ transaction.old.history }
{
    if transaction.kind(&node.path).is_some() {
        return Err(LoadFault::Commit(CommitFault::Exists));
    }
    if node.text.is_some() {
        return put_text(alloc, transaction, &node.path, &node.text);
    }
    let text = kept_text(alloc, texts, b"")?;
    let path = node.path.clone()?;
    make(transaction, &Change::PutFile { path, text })
}

// Changes the node that is at a path.
fn change(alloc: Global, transaction: &mut Transaction, node: &NodeRecord) -> Result<(), LoadFault>
    ensures made { OnOk result (IsMade (alteration node.now) (draft_of transaction.old) (draft_of transaction.new)) }
    ensures fault { IfErr result (λ e. Fails e (alteration node.now (draft_of transaction.old))) }
    ensures history { transaction.new.history ≡ transaction.old.history }
{
    if transaction.kind(&node.path).is_none() {
        return Err(LoadFault::Commit(CommitFault::Missing));
    }
    put_text(alloc, transaction, &node.path, &node.text)?;
    alter_props(alloc, transaction, &node.path, &node.props)
}

// Changes the properties of the node at a path. With a whole section it is one of this revision then if it has any, also if it had the same.
fn alter_props(
    alloc: Global,
    transaction: &mut Transaction,
    path: &RelPath,
    section: &Option<PropSection>,
) -> Result<(), LoadFault>
    ensures made { OnOk result (IsMade (alter_props path.now section.now) (draft_of transaction.old) (draft_of transaction.new)) }
    ensures fault { IfErr result (λ e. Fails e (alter_props path.now section.now (draft_of transaction.old))) }
    ensures history { transaction.new.history ≡ transaction.old.history }
{
    match section {
        Some(PropSection::Whole(new)) => {
            let changes = whole_changes_or_again(alloc, transaction, path, new)?;
            set_props(transaction, path, &changes)
        }
        Some(PropSection::Delta(changes)) => set_props(transaction, path, changes.as_slice()),
        None => Ok(()),
    }
}

// The changes of properties after which the node at a path has just these. Where it has them already one is set again.
fn whole_changes_or_again(
    alloc: Global,
    transaction: &Transaction,
    path: &RelPath,
    new: &Props,
) -> Result<Vec<PropChange>, LoadFault>
    ensures value { IfOk result (λ v. let old = props_or_none (at (draft_of transaction.now) path.now) in v.items ≡ or_again old (changes_between old new.now)) }
    ensures fault { IfErr result (λ e. e ≡ LoadFault.Memory) }
{
    let changes = whole_changes(alloc, transaction, path, new)?;
    if changes.is_empty() {
        return same_again(alloc, transaction, path);
    }
    Ok(changes)
}

// A property of the node at a path with its value, if it has any.
fn same_again(
    alloc: Global,
    transaction: &Transaction,
    path: &RelPath,
) -> Result<Vec<PropChange>, LoadFault>
    ensures value { IfOk result (λ v. v.items ≡ same_again (props_or_none (at (draft_of transaction.now) path.now))) }
    ensures fault { IfErr result (λ e. e ≡ LoadFault.Memory) }
{
    let mut changes = Vec::new(alloc);
    if let Some(props) = transaction.props(path) {
        if let Some((name, value)) = props.iter().next() {
            changes.push((name.clone()?, Some(value.clone()?)))?;
        }
    }
    Ok(changes)
}

// Puts a text at a path, if one is given.
fn put_text(
    alloc: Global,
    transaction: &mut Transaction,
    path: &RelPath,
    text: &Option<TextSection>,
) -> Result<(), LoadFault>
    ensures made { OnOk result (IsMade (put_text path.now text.now) (draft_of transaction.old) (draft_of transaction.new)) }
    ensures fault { IfErr result (λ e. Fails e ((put_text path.now text.now) (draft_of transaction.old))) }
    ensures history { transaction.new.history ≡ transaction.old.history }
{
    let text = match text {
        Some(TextSection::Whole(text)) => text.clone_with_checksum(alloc)?,
        Some(TextSection::Delta(delta)) => apply_delta(alloc, text_at(transaction, path), delta)?,
        None => return Ok(()),
    };
    let path = path.clone()?;
    make(transaction, &Change::PutFile { path, text })
}

// The text of the file at a path; no bytes where there is none.
fn text_at<'a>(transaction: &'a Transaction, path: &RelPath) -> &'a [u8]
    ensures { result.now ≡ text_or_empty (at (draft_of transaction.now) path.now) }
{
    match transaction.text(path) {
        Some(text) => text.as_slice(),
        None => b"",
    }
}

// The changes of properties after which the node at a path has just these.
fn whole_changes(
    alloc: Global,
    transaction: &Transaction,
    path: &RelPath,
    new: &Props,
) -> Result<Vec<PropChange>, LoadFault>
    ensures value { IfOk result (λ v. v.items ≡ changes_between (props_or_none (at (draft_of transaction.now) path.now)) new.now) }
    ensures fault { IfErr result (λ e. e ≡ LoadFault.Memory) }
{
    match transaction.props(path) {
        Some(old) => Ok(old.changes_to(alloc, new)?),
        None => Ok(Props::new(alloc).changes_to(alloc, new)?),
    }
}

// Gives the node at a path the properties, if they are given.
fn put_props(
    alloc: Global,
    transaction: &mut Transaction,
    path: &RelPath,
    section: &Option<PropSection>,
) -> Result<(), LoadFault>
    ensures made { OnOk result (IsMade (put_props path.now section.now) (draft_of transaction.old) (draft_of transaction.new)) }
    ensures fault { IfErr result (λ e. Fails e (put_props path.now section.now (draft_of transaction.old))) }
    ensures history { transaction.new.history ≡ transaction.old.history }
{
    match section {
        Some(PropSection::Whole(new)) => {
            let changes = whole_changes(alloc, transaction, path, new)?;
            set_props(transaction, path, &changes)
        }
        Some(PropSection::Delta(changes)) => set_props(transaction, path, changes.as_slice()),
        None => Ok(()),
    }
}

fn set_props(
    transaction: &mut Transaction,
    path: &RelPath,
    changes: &[PropChange],
) -> Result<(), LoadFault>
    ensures made { OnOk result (IsMade (set_props path.now changes.now) (draft_of transaction.old) (draft_of transaction.new)) }
    ensures fault { IfErr result (λ e. Fails e (set_props path.now changes.now (draft_of transaction.old))) }
    ensures history { transaction.new.history ≡ transaction.old.history }
{
    for (name, value) in changes {
        set_prop(transaction, path, name, value)?;
    }
    Ok(())
}

fn set_prop(
    transaction: &mut Transaction,
    path: &RelPath,
    name: &PropName,
    value: &Option<Text>,
) -> Result<(), LoadFault>
    ensures made { OnOk result (IsMade (one (SetProp path.now name.now value.now)) (draft_of transaction.old) (draft_of transaction.new)) }
    ensures fault { IfErr result (λ e. Fails e ((one (SetProp path.now name.now value.now)) (draft_of transaction.old))) }
    ensures history { transaction.new.history ≡ transaction.old.history }
{
    let path = path.clone()?;
    let name = name.clone()?;
    let value = value.clone()?;
    make(transaction, &Change::SetProp { path, name, value })
}
