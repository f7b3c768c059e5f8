//! Histories, written as dumps while they are made.
ghost use Rattle.std.specs.Prelude.{◌≡◌, ◌≢◌, ◌+◌, ℕ, ◌<◌, ◌^◌, [], ◌∷◌, ◌++◌, List, length, take, IfOk, IfErr, OnOk, OnErr};
ghost use Rattle.std.specs.List.{All, flat_map};
ghost use Rattle.svn_repo.specs.declared.change.Change.{Change};
ghost use Rattle.svn_repo.specs.Changes.{IsCommit, IsRevision};
ghost use Rattle.svn_repo.specs.Transactions.{pending_of};
ghost use Rattle.svn_dump.specs.Written.{written, revision_record, format_record};
ghost use Rattle.law_dump.specs.Laws.{IsNodeRecord};
ghost use Rattle.svn_history.specs.Results.{Fails};
ghost use Rattle.svn_history.specs.Steps.{draft_of, begun, one};
ghost use Rattle.svn_history.specs.Writing.{AreWritten, HasMade, all, records_of};
ghost use Rattle.svn_history.specs.WrittenDumps.{commit_bytes};

use crate::fault::LoadFault;
use crate::writing::push_change;
use std::alloc::Global;
use std::marker::Model;
use svn_dump::{push_format, push_revision};
use svn_repo::{Change, Repo, Transaction};
use svn_types::Rev;

// The format of the dumps that are written: texts are whole, but a property is written as a change of those before.
const FORMAT: u64 = 3;

/// A repository whose commits are written as revisions of a dump. It makes them change by change, and keeps the records of the changes since the last
/// commit. A contract sees it as the transaction, and the bytes of these records.
#[derive(Drop)]
pub struct HistoryWriter {
    transaction: Transaction,
    // A record for each change since the last commit.
    records: Vec<u8>,
}

impl Model for HistoryWriter {
    ghost use Rattle.std.specs.Prelude.{List};
    ghost use Rattle.svn_repo.specs.declared.change.Change.{Change};
    ghost use Rattle.svn_history.specs.Steps.{draft_of};
    ghost use Rattle.svn_history.specs.Writing.{AreWritten, WriterState};

    ghost Value = { WriterState };

    ghost view = { λ w. record { transaction = w.transaction; bytes = w.records.items } };

    ghost invariant = { λ w. (changes : List Change) × AreWritten w.transaction.history changes (draft_of w.transaction) w.records.items };
}

/// Writes what a dump begins with: its format, and revision 0, which has nothing. After an error the first bytes may be there.
#[tactic(auto, using(crate::proofs::Faults::fails_memory))]
pub fn push_beginning(out: &mut Vec<u8>) -> Result<(), LoadFault>
    ensures written { OnOk result (out.new.items ≡ out.old.items ++ (format_record 3 ++ revision_record 0)) }
    ensures fault { IfErr result (λ e. e ≡ LoadFault.Memory) }
{
    push_format(out, FORMAT)?;
    Ok(push_revision(out, Rev(0))?)
}

// Gives up the changes since the last commit.
#[tactic(auto, using(crate::proofs::Writings::none_written))]
fn give_up(transaction: &mut Transaction, records: &mut Vec<u8>)
    ensures begun { AreWritten transaction.new.history [] (draft_of transaction.new) records.new.items }
    ensures history { transaction.new.history ≡ transaction.old.history }
{
    transaction.abort();
    records.clear();
}

// The beginning of the next revision.
fn next_beginning(alloc: Global, transaction: &Transaction) -> Result<Vec<u8>, LoadFault>
    ensures bytes { IfOk result (λ bytes. (rev : ℕ) → rev < 2 ^ 64 → rev ≡ length transaction.now.history.roots → bytes.items ≡ revision_record rev) }
    ensures fault { IfErr result (λ e. e ≡ LoadFault.Memory) }
{
    let mut bytes = Vec::new(alloc);
    push_revision(&mut bytes, Rev(transaction.latest().0.saturating_add(1)))?;
    Ok(bytes)
}

// Commits what was changed, and writes it as a revision with these records. After a refusal some of its bytes may be there.
#[tactic(auto, using(crate::proofs::Endings::begun_again))]
fn commit_with(
    out: &mut Vec<u8>,
    transaction: &mut Transaction,
    records: &[u8],
) -> Result<Rev, LoadFault>
    ensures written { IfOk result (λ rev. out.new.items ≡ out.old.items ++ (revision_record rev ++ records.now)) }
    ensures rev { IfOk result (λ rev. rev ≡ length transaction.old.history.roots) }
    ensures revision { OnOk result (IsRevision transaction.old.history transaction.new.history (pending_of transaction.old)) }
    ensures begun { OnOk result (draft_of transaction.new ≡ begun transaction.new.history) }
    ensures fault { IfErr result (λ e. e ≡ LoadFault.Memory) }
    ensures kept { OnErr result (take (length out.old.items) out.new.items ≡ out.old.items) }
    ensures unchanged { OnErr result (transaction.new ≡ transaction.old) }
{
    let beginning = next_beginning(*out.allocator(), transaction)?;
    out.extend_from_slice(&beginning)?;
    out.extend_from_slice(records)?;
    Ok(transaction.commit()?)
}

impl HistoryWriter {
    /// A writer of what is committed from now on. It takes no memory.
    pub fn new(alloc: Global, repo: Repo) -> HistoryWriter
        ensures begun { HasMade [] result }
        ensures history { result.transaction.history ≡ repo }
    {
        HistoryWriter {
            transaction: repo.begin(),
            records: Vec::new(alloc),
        }
    }

    /// What holds of every writer, for the proofs of its callers: it has made some changes since the last commit. It does nothing.
    pub fn law(&self)
        ensures { (changes : List Change) × HasMade changes self.now }
    {
        let _records = &self.records;
    }

    /// The newest revision of the repository.
    pub fn latest(&self) -> Rev
        ensures { result + 1 ≡ length self.now.transaction.history.roots }
    {
        self.transaction.latest()
    }

    /// Makes a change, after those since the last commit. One that can't be made is refused and leaves all as it was. Out of memory, all changes
    /// since the last commit are given up.
    pub fn change(&mut self, change: &Change) -> Result<(), LoadFault>
        ensures made { OnOk result ((changes : List Change) → HasMade changes self.old → HasMade (changes ++ change.now ∷ []) self.new) }
        ensures fault { IfErr result (λ e. Fails e (one change.now (draft_of self.old.transaction))) }
        ensures unchanged { IfErr result (λ e. e ≢ LoadFault.Memory → self.new ≡ self.old) }
        ensures given_up { IfErr result (λ e. e ≡ LoadFault.Memory → HasMade [] self.new) }
        ensures history { self.new.transaction.history ≡ self.old.transaction.history }
    {
        match push_change(&mut self.records, &mut self.transaction, change) {
            Ok(()) => Ok(()),
            Err(LoadFault::Memory) => {
                give_up(&mut self.transaction, &mut self.records);
                Err(LoadFault::Memory)
            }
            Err(fault) => Err(fault),
        }
    }

    /// Gives up the changes since the last commit. It takes no memory.
    pub fn abort(&mut self)
        ensures begun { HasMade [] self.new }
        ensures history { self.new.transaction.history ≡ self.old.transaction.history }
    {
        give_up(&mut self.transaction, &mut self.records);
    }

    /// Commits the changes since the last commit, and writes the revision at the end: its own record, and one for each change, in order. Its only
    /// fault is Memory, which leaves all as it was, the bytes too.
    pub fn commit(&mut self, out: &mut Vec<u8>) -> Result<Rev, LoadFault>
        ensures rev { IfOk result (λ rev. rev ≡ length self.old.transaction.history.roots) }
        ensures commit { OnOk result ((changes : List Change) → HasMade changes self.old → IsCommit self.old.transaction.history self.new.transaction.history changes) }
        ensures written { OnOk result ((changes : List Change) → HasMade changes self.old → out.new.items ≡ out.old.items ++ commit_bytes self.old.transaction.history changes) }
        ensures begun { OnOk result (HasMade [] self.new) }
        ensures fault { IfErr result (λ e. e ≡ LoadFault.Memory) }
        ensures unwritten { OnErr result (out.new.items ≡ out.old.items) }
        ensures uncommitted { OnErr result (self.new ≡ self.old) }
    {
        let before = out.len();
        match commit_with(out, &mut self.transaction, &self.records) {
            Ok(rev) => {
                self.records.clear();
                Ok(rev)
            }
            Err(fault) => {
                out.truncate(before);
                Err(fault)
            }
        }
    }

    /// The repository. Changes that aren't committed are given up. It takes no memory.
    pub fn into_repo(self) -> Repo
        ensures { result ≡ self.transaction.history }
    {
        self.transaction.into_repo()
    }
}

// Makes the changes.
fn change_all(writer: &mut HistoryWriter, changes: &[Change]) -> Result<(), LoadFault>
    requires { HasMade [] writer.old }
    ensures made { OnOk result (HasMade changes.now writer.new) }
    ensures fault { IfErr result (λ e. Fails e (all changes.now (begun writer.old.transaction.history))) }
    ensures history { writer.new.transaction.history ≡ writer.old.transaction.history }
{
    for change in changes {
        writer.change(change)?;
    }
    Ok(())
}

// Makes the changes and commits them.
fn commit_all(
    out: &mut Vec<u8>,
    writer: &mut HistoryWriter,
    changes: &[Change],
) -> Result<Rev, LoadFault>
    requires { HasMade [] writer.old }
    ensures written { IfOk result (λ rev. out.new.items ≡ out.old.items ++ (revision_record rev ++ flat_map written (records_of (begun writer.old.transaction.history) changes.now))) }
    ensures lawful { OnOk result (All IsNodeRecord (records_of (begun writer.old.transaction.history) changes.now)) }
    ensures ok { IfOk result (λ rev. rev ≡ length writer.old.transaction.history.roots) }
    ensures commit { OnOk result (IsCommit writer.old.transaction.history writer.new.transaction.history changes.now) }
    ensures begun { OnOk result (HasMade [] writer.new) }
    ensures fault { IfErr result (λ e. Fails e (all changes.now (begun writer.old.transaction.history))) }
    ensures unwritten { OnErr result (out.new.items ≡ out.old.items) }
    ensures uncommitted { OnErr result (writer.new.transaction.history ≡ writer.old.transaction.history) }
{
    change_all(writer, changes)?;
    writer.commit(out)
}

/// Makes the changes as one commit, and writes it at the end as a revision of a dump, with one record for each change, in order. What the writer had
/// changed before is given up. A commit that is refused leaves nothing: neither a revision nor a byte.
pub fn push_commit(
    out: &mut Vec<u8>,
    writer: &mut HistoryWriter,
    changes: &[Change],
) -> Result<Rev, LoadFault>
    ensures written { IfOk result (λ rev. out.new.items ≡ out.old.items ++ (revision_record rev ++ flat_map written (records_of (begun writer.old.transaction.history) changes.now))) }
    ensures lawful { OnOk result (All IsNodeRecord (records_of (begun writer.old.transaction.history) changes.now)) }
    ensures ok { IfOk result (λ rev. rev ≡ length writer.old.transaction.history.roots) }
    ensures commit { OnOk result (IsCommit writer.old.transaction.history writer.new.transaction.history changes.now) }
    ensures begun { HasMade [] writer.new }
    ensures fault { IfErr result (λ e. Fails e (all changes.now (begun writer.old.transaction.history))) }
    ensures unwritten { OnErr result (out.new.items ≡ out.old.items) }
    ensures uncommitted { OnErr result (writer.new.transaction.history ≡ writer.old.transaction.history) }
{
    writer.abort();
    match commit_all(out, writer, changes) {
        Ok(rev) => Ok(rev),
        Err(fault) => {
            writer.abort();
            Err(fault)
        }
    }
}
