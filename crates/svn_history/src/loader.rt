//! Histories, loaded revision by revision.
ghost use Rattle.std.specs.Prelude.{◌≡◌, ◌+◌, ◌<◌, ◌≤◌, length, Some, None, Err, IsSome, IfOk, IfErr, IfSome, OnOk, OnErr, option_map, codes};
ghost use Rattle.std.specs.Result.{result_err};
ghost use Rattle.std.specs.Option.{option_copied};
ghost use Rattle.svn_dump.specs.Headers.{header_value, if_once};
ghost use Rattle.svn_history.specs.Results.{Fails};
ghost use Rattle.svn_history.specs.Steps.{IsMade, draft_of, begun};
ghost use Rattle.svn_history.specs.Loading.{EmptyCommits, LoadsDump};
ghost use Rattle.svn_dump.specs.Counts.{Counts, Grows};
ghost use Rattle.svn_dump.specs.Readers.{left_in, IsUnreadable};
ghost use Rattle.svn_history.specs.Fronts.{FrontLoaded, given_uuid};
ghost use Rattle.svn_history.specs.Hearing.{HearsAll};
ghost use Rattle.svn_history.specs.Places.{IsShown};
ghost use Rattle.svn_history.specs.Parts.{Begins, Ends, LoadsNodes, LoadsPart, LoadsOne, LoadsRest, RefusesNodes, RefusesNext, RefusesPart, RefusesOne, RefusesAll, RefusesRecord, Takes, begin_fault, is_open, loading, may_begin, node_changes};

use crate::fault::LoadFault;
use crate::front::Front;
use crate::listener::{LoadListener, NoLoadListener};
use crate::records::apply_record;
use crate::refusal::Refusal;
use std::alloc::Global;
use std::io::Read;
use svn_dump::{DumpFault, DumpIndex, NodeRecord, Reader, Record};
use svn_repo::{Repo, Transaction};
use svn_types::{Rev, Text};

/// The largest number of a revision that is loaded: a dump that gives larger ones fills memory by its gaps alone.
pub const MAX_REVISION: u64 = 100_000_000;

/// Loads the revisions of a dump into a repository, one after another. Each keeps its number: revision N of the dump is revision N of the
/// repository, and where numbers are left out there are empty commits. Revision 0 has nothing but its number.
#[derive(Drop)]
pub struct Loader<R> {
    alloc: Global,
    records: Reader<R>,
    transaction: Transaction,
    // What was read before the first revision, and its number.
    front: Front,
    // The revision that is being read, if one has begun.
    rev: Option<Rev>,
    // Why the dump isn't loaded further, if it was refused.
    refused: Option<LoadFault>,
}

// Makes empty revisions up to the one before this.
#[tactic(auto, using(crate::proofs::Gaps::one_empty, crate::specs::Loading::no_commit))]
fn fill_gap(transaction: &mut Transaction, rev: Rev) -> Result<(), LoadFault>
    requires begun { draft_of transaction.old ≡ begun transaction.old.history }
    ensures commits { EmptyCommits transaction.old.history transaction.new.history }
    ensures begun { draft_of transaction.new ≡ begun transaction.new.history }
    ensures size { OnOk result (length transaction.old.history.roots ≤ rev → length transaction.new.history.roots ≡ rev) }
    ensures first { rev ≡ 0 → transaction.new.history ≡ transaction.old.history }
    ensures fault { IfErr result (λ e. e ≡ LoadFault.Memory) }
    ensures within { OnErr result (length transaction.new.history.roots < rev) }
{
    'gap: for _ in transaction.latest().0.saturating_add(1)..rev.0 {
        transaction.commit()?;
    }
    Ok(())
}

// Whether nodes may follow: those of a revision above 0.
fn is_open(rev: Option<Rev>) -> bool
    ensures { result ≡ is_open rev }
{
    match rev {
        Some(Rev(number)) => number > 0,
        None => false,
    }
}

impl<R: Read + Drop> Loader<R> {
    /// Loads what is left of a dump into a repository. It reads nothing yet.
    pub fn new(alloc: Global, records: Reader<R>, repo: Repo) -> Loader<R>
        ensures records { result.records ≡ records }
        ensures repo { draft_of result.transaction ≡ begun repo }
        ensures rev { result.rev ≡ None }
        ensures refused { result.refused ≡ None }
        ensures uuid { result.front.uuid ≡ None }
        ensures first { result.front.first ≡ None }
    {
        Loader {
            alloc,
            records,
            transaction: repo.begin(),
            front: Front {
                uuid: None,
                first: None,
            },
            rev: None,
            refused: None,
        }
    }

    /// The revision that began last; None before the first, and at the end.
    pub fn rev(&self) -> Option<Rev>
        ensures { result ≡ self.now.rev }
    {
        self.rev
    }

    /// The UUID of the repository, if the dump gives one before its first revision, by its bytes in the dump; of several it is the last one. It is
    /// known once the first revision began. One that comes later is passed over.
    pub fn uuid(&self) -> Option<&[u8]>
        ensures { option_copied result ≡ self.now.front.uuid }
    {
        match &self.front.uuid {
            Some(uuid) => Some(uuid.as_slice()),
            None => None,
        }
    }

    /// The number of the dump's first revision; None before it began. Numbers before it that the repository hadn't are empty commits.
    pub fn first_revision(&self) -> Option<Rev>
        ensures { result ≡ self.now.front.first }
    {
        self.front.first
    }

    /// The dump, as far as it was read.
    pub fn records(&self) -> &Reader<R>
        ensures { result.now ≡ self.now.records }
    {
        &self.records
    }

    /// Why the dump isn't loaded further, and where; None as long as nothing was refused.
    pub fn refusal(&self) -> Option<Refusal<'_>>
        ensures fault { option_map (λ r. r.fault) result ≡ self.now.refused }
        ensures byte { IfSome result (λ r. r.byte ≡ self.now.records.begun) }
        ensures rev { IfSome result (λ r. r.rev ≡ self.now.rev) }
        ensures path { IfSome result (λ r. option_copied r.path ≡ if_once (header_value self.now.records.block.items (codes "Node-path"))) }
    {
        let fault = self.refused?;
        Some(Refusal {
            byte: self.records.begun(),
            rev: self.rev,
            path: self.records.path(),
            fault,
        })
    }

    /// The newest revision of the repository. One that began isn't committed before the next begins, or the dump ends.
    pub fn latest(&self) -> Rev
        ensures { result + 1 ≡ length self.now.transaction.history.roots }
    {
        self.transaction.latest()
    }

    /// The repository with the revisions that are committed. One that began is given up.
    pub fn into_repo(self) -> Repo
        ensures { result ≡ self.transaction.history }
    {
        self.transaction.into_repo()
    }

    /// The repository, as [`Loader::into_repo`] returns it, and the index of the dump, if its reader keeps one ([`Reader::with_index`]).
    pub fn into_parts(self) -> (Repo, Option<DumpIndex>)
        ensures repo { result.0 ≡ self.transaction.history }
        ensures index { result.1 ≡ self.records.index }
    {
        let Loader {
            records,
            transaction,
            ..
        } = self;
        (transaction.into_repo(), records.into_index())
    }

    // Makes the changes of a node.
    fn apply(&mut self, node: &NodeRecord) -> Result<(), LoadFault>
        ensures made { OnOk result (IsMade (node_changes self.old.records.texts self.old.rev node.now) (draft_of self.old.transaction) (draft_of self.new.transaction)) }
        ensures fault { IfErr result (λ e. Fails e (node_changes self.old.records.texts self.old.rev node.now (draft_of self.old.transaction))) }
        ensures history { self.new.transaction.history ≡ self.old.transaction.history }
        ensures rev { self.new.rev ≡ self.old.rev }
        ensures records { self.new.records ≡ self.old.records }
        ensures front { self.new.front ≡ self.old.front }
    {
        if !is_open(self.rev) {
            return Err(LoadFault::NoRevision);
        }
        let texts = self.records.texts();
        apply_record(self.alloc, texts, &mut self.transaction, node)
    }

    // Makes the changes of a record; the number, if a revision begins with it.
    fn take(&mut self, what: Record) -> Result<Option<Rev>, LoadFault>
        ensures takes { IfOk result (Takes self.old.records.texts self.old.rev what (draft_of self.old.transaction) (draft_of self.new.transaction)) }
        ensures fault { IfErr result (RefusesRecord self.old.records.texts self.old.rev what (draft_of self.old.transaction)) }
        ensures history { self.new.transaction.history ≡ self.old.transaction.history }
        ensures rev { self.new.rev ≡ self.old.rev }
        ensures records { self.new.records ≡ self.old.records }
        ensures front { self.new.front ≡ self.old.front }
    {
        match what {
            Record::Other => Ok(None),
            Record::Node(node) => {
                self.apply(&node)?;
                Ok(None)
            }
            Record::Revision { rev } => Ok(Some(rev)),
        }
    }

    // Keeps the UUID of the record that was read last, if no revision has begun.
    fn keep_uuid(&mut self) -> Result<(), LoadFault>
        ensures uuid { OnOk result (self.old.front.first ≡ None → self.new.front.uuid ≡ given_uuid self.old) }
        ensures first { self.new.front.first ≡ self.old.front.first }
        ensures kept { IsSome self.old.front.first → self.new.front ≡ self.old.front }
        ensures fault { IfErr result (λ e. e ≡ LoadFault.Memory) }
        ensures transaction { self.new.transaction ≡ self.old.transaction }
        ensures rev { self.new.rev ≡ self.old.rev }
        ensures records { self.new.records ≡ self.old.records }
    {
        if self.front.first.is_some() {
            return Ok(());
        }
        if let Some(uuid) = self.records.uuid() {
            self.front.uuid = Some(Text::from_slice(self.alloc, uuid)?);
        }
        Ok(())
    }

    // Makes the changes of the nodes up to the next revision, whose number is returned, or up to the end.
    fn load_nodes(&mut self) -> Result<Option<Rev>, LoadFault>
        ensures nodes { IfOk result (λ next. LoadsNodes self.old.records.limits self.old.records.texts (IsShown R.remaining self.old self.new) (loading R.remaining self.old) next (loading R.remaining self.new)) }
        ensures fault { IfErr result (RefusesNodes self.old.records.limits self.old.records.texts (IsShown R.remaining self.old self.new) (loading R.remaining self.old)) }
        ensures history { self.new.transaction.history ≡ self.old.transaction.history }
        ensures rev { self.new.rev ≡ self.old.rev }
        ensures limits { self.new.records.limits ≡ self.old.records.limits }
        ensures texts { self.new.records.texts ≡ self.old.records.texts }
        ensures read { IfErr result (λ e. e ≡ LoadFault.Dump DumpFault.Read → IsUnreadable self.new.records) }
        ensures grown { IfOk result (λ next. IsSome next → Grows self.old.records.source.taken 1 self.new.records.source.taken) }
        ensures counted { OnOk result (Counts self.old.records.source.taken (left_in R.remaining self.old.records) self.new.records.source.taken (left_in R.remaining self.new.records)) }
        ensures front { IfOk result (λ next. self.old.rev ≡ None → self.old.front.first ≡ None → FrontLoaded R.remaining self.old self.new.front.uuid next) }
        ensures first { self.new.front.first ≡ self.old.front.first }
        ensures kept { IsSome self.old.front.first → self.new.front ≡ self.old.front }
    {
        'records: for _ in 0..u64::MAX {
            self.keep_uuid()?;
            let Some(what) = self.records.next_record()? else {
                return Ok(None);
            };
            if let Some(rev) = self.take(what)? {
                return Ok(Some(rev));
            }
        }
        // no reader has so many records
        Err(LoadFault::Dump(DumpFault::Read))
    }

    // Commits the revision that began, if it is above 0.
    #[tactic(auto, using(crate::proofs::Endings::begun_again, crate::specs::Parts::commits, crate::specs::Parts::stays))]
    fn end(&mut self) -> Result<(), LoadFault>
        ensures ends { OnOk result (Ends self.old.rev (draft_of self.old.transaction) self.new.transaction.history) }
        ensures begun { OnOk result (draft_of self.new.transaction ≡ begun self.new.transaction.history) }
        ensures fault { IfErr result (λ e. e ≡ LoadFault.Memory) }
        ensures history { IfErr result (λ _. self.new.transaction.history ≡ self.old.transaction.history) }
        ensures rev { self.new.rev ≡ self.old.rev }
        ensures records { self.new.records ≡ self.old.records }
        ensures front { self.new.front ≡ self.old.front }
    {
        if is_open(self.rev) {
            self.transaction.commit()?;
        } else {
            self.transaction.abort();
        }
        Ok(())
    }

    // Refuses a revision that can't begin here.
    fn check_number(&self, next: Rev) -> Result<(), LoadFault>
        ensures ok { OnOk result (begin_fault self.now.rev (length self.now.transaction.history.roots) next ≡ None) }
        ensures fault { IfErr result (λ e. begin_fault self.now.rev (length self.now.transaction.history.roots) next ≡ Some e) }
    {
        if next.0 > MAX_REVISION {
            return Err(LoadFault::TooManyRevisions);
        }
        if !self.may_begin(next) {
            return Err(LoadFault::NotRising);
        }
        Ok(())
    }

    // Whether a revision may begin here: revision 0 comes first, and each other one is above those of the repository.
    fn may_begin(&self, next: Rev) -> bool
        ensures { result ≡ may_begin self.now.rev (length self.now.transaction.history.roots) next }
    {
        if next == Rev(0) {
            self.rev.is_none()
        } else {
            next > self.transaction.latest()
        }
    }

    // Begins the next revision, if there is one.
    #[tactic(auto, using(crate::proofs::Endings::begins_number, crate::specs::Parts::at_end))]
    fn begin(&mut self, next: Option<Rev>) -> Result<(), LoadFault>
        requires begun { draft_of self.old.transaction ≡ begun self.old.transaction.history }
        ensures begins { OnOk result (Begins self.old.rev next self.old.transaction.history self.new.transaction.history) }
        ensures begun { draft_of self.new.transaction ≡ begun self.new.transaction.history }
        ensures rev { OnOk result (self.new.rev ≡ next) }
        ensures stays { IfErr result (λ _. self.new.rev ≡ self.old.rev) }
        ensures fault { IfErr result (λ e. RefusesNext self.old.rev next self.old.transaction.history e self.new.transaction.history) }
        ensures records { self.new.records ≡ self.old.records }
        ensures uuid { self.new.front.uuid ≡ self.old.front.uuid }
        ensures first { OnOk result (self.old.front.first ≡ None → self.new.front.first ≡ next) }
        ensures kept { IsSome self.old.front.first → self.new.front ≡ self.old.front }
        ensures known { OnOk result (IsSome self.new.rev → IsSome self.new.front.first) }
    {
        let Some(rev) = next else {
            self.rev = None;
            return Ok(());
        };
        self.check_number(rev)?;
        fill_gap(&mut self.transaction, rev)?;
        self.rev = next;
        self.front.begin(rev);
        Ok(())
    }

    // Loads the nodes up to the next revision, which begins then, or up to the end.
    #[tactic(auto, using(crate::proofs::Endings::part_by, crate::proofs::Endings::nodes_refused, crate::proofs::Endings::end_refused, crate::proofs::Endings::next_refused))]
    fn load_part(&mut self) -> Result<(), LoadFault>
        ensures part { OnOk result (LoadsPart self.old.records.limits self.old.records.texts (loading R.remaining self.old) (loading R.remaining self.new)) }
        ensures fault { IfErr result (λ e. RefusesPart self.old.records.limits self.old.records.texts (IsShown R.remaining self.old self.new) (loading R.remaining self.old) e self.new.transaction.history) }
        ensures limits { self.new.records.limits ≡ self.old.records.limits }
        ensures texts { self.new.records.texts ≡ self.old.records.texts }
        ensures read { IfErr result (λ e. e ≡ LoadFault.Dump DumpFault.Read → IsUnreadable self.new.records) }
        ensures grown { OnOk result (IsSome self.new.rev → Grows self.old.records.source.taken 1 self.new.records.source.taken) }
        ensures counted { OnOk result (Counts self.old.records.source.taken (left_in R.remaining self.old.records) self.new.records.source.taken (left_in R.remaining self.new.records)) }
        ensures front { OnOk result (self.old.rev ≡ None → self.old.front.first ≡ None → FrontLoaded R.remaining self.old self.new.front.uuid self.new.front.first) }
        ensures kept { IsSome self.old.front.first → self.new.front ≡ self.old.front }
        ensures known { OnOk result (IsSome self.new.rev → IsSome self.new.front.first) }
    {
        let next = self.load_nodes()?;
        self.end()?;
        self.begin(next)
    }

    // Loads the revision that began.
    fn load_next(&mut self) -> Result<Option<Rev>, LoadFault>
        ensures part { IfOk result (λ done. (done ≡ self.old.rev) × LoadsPart self.old.records.limits self.old.records.texts (loading R.remaining self.old) (loading R.remaining self.new)) }
        ensures fault { IfErr result (λ e. RefusesPart self.old.records.limits self.old.records.texts (IsShown R.remaining self.old self.new) (loading R.remaining self.old) e self.new.transaction.history) }
        ensures limits { self.new.records.limits ≡ self.old.records.limits }
        ensures texts { self.new.records.texts ≡ self.old.records.texts }
        ensures read { IfErr result (λ e. e ≡ LoadFault.Dump DumpFault.Read → IsUnreadable self.new.records) }
        ensures grown { OnOk result (IsSome self.new.rev → Grows self.old.records.source.taken 1 self.new.records.source.taken) }
        ensures counted { OnOk result (Counts self.old.records.source.taken (left_in R.remaining self.old.records) self.new.records.source.taken (left_in R.remaining self.new.records)) }
        ensures kept { IsSome self.old.front.first → self.new.front ≡ self.old.front }
        ensures known { OnOk result (IsSome self.new.rev → IsSome self.new.front.first) }
    {
        let done = self.rev;
        self.load_part()?;
        Ok(done)
    }

    // Loads what is before the first revision, and that one.
    #[tactic(auto, using(crate::specs::Parts::begins, crate::specs::Parts::at_once, crate::specs::Parts::later))]
    fn load_first(&mut self) -> Result<Option<Rev>, LoadFault>
        requires { self.old.rev ≡ None }
        ensures one { IfOk result (LoadsOne self.old.records.limits self.old.records.texts (loading R.remaining self.old) (loading R.remaining self.new)) }
        ensures fault { IfErr result (λ e. RefusesOne self.old.records.limits self.old.records.texts (IsShown R.remaining self.old self.new) (loading R.remaining self.old) e self.new.transaction.history) }
        ensures limits { self.new.records.limits ≡ self.old.records.limits }
        ensures texts { self.new.records.texts ≡ self.old.records.texts }
        ensures read { IfErr result (λ e. e ≡ LoadFault.Dump DumpFault.Read → IsUnreadable self.new.records) }
        ensures grown { OnOk result (IsSome self.new.rev → Grows self.old.records.source.taken 1 self.new.records.source.taken) }
        ensures counted { OnOk result (Counts self.old.records.source.taken (left_in R.remaining self.old.records) self.new.records.source.taken (left_in R.remaining self.new.records)) }
        ensures front { OnOk result (self.old.rev ≡ None → self.old.front.first ≡ None → FrontLoaded R.remaining self.old self.new.front.uuid self.new.front.first) }
        ensures kept { IsSome self.old.front.first → self.new.front ≡ self.old.front }
        ensures known { OnOk result (IsSome self.new.rev → IsSome self.new.front.first) }
    {
        self.load_part()?;
        if self.rev.is_none() {
            return Ok(None);
        }
        self.load_next()
    }

    // Loads one revision; before the first one also what is before it.
    #[tactic(auto, using(crate::specs::Parts::goes_on, crate::specs::Parts::at_once))]
    fn load_one(&mut self) -> Result<Option<Rev>, LoadFault>
        ensures one { IfOk result (LoadsOne self.old.records.limits self.old.records.texts (loading R.remaining self.old) (loading R.remaining self.new)) }
        ensures fault { IfErr result (λ e. RefusesOne self.old.records.limits self.old.records.texts (IsShown R.remaining self.old self.new) (loading R.remaining self.old) e self.new.transaction.history) }
        ensures limits { self.new.records.limits ≡ self.old.records.limits }
        ensures texts { self.new.records.texts ≡ self.old.records.texts }
        ensures read { IfErr result (λ e. e ≡ LoadFault.Dump DumpFault.Read → IsUnreadable self.new.records) }
        ensures grown { OnOk result (IsSome self.new.rev → Grows self.old.records.source.taken 1 self.new.records.source.taken) }
        ensures counted { OnOk result (Counts self.old.records.source.taken (left_in R.remaining self.old.records) self.new.records.source.taken (left_in R.remaining self.new.records)) }
        ensures front { OnOk result (self.old.rev ≡ None → self.old.front.first ≡ None → FrontLoaded R.remaining self.old self.new.front.uuid self.new.front.first) }
        ensures kept { IsSome self.old.front.first → self.new.front ≡ self.old.front }
        ensures known { OnOk result (IsSome self.new.rev → IsSome self.new.front.first) }
    {
        if self.rev.is_none() {
            self.load_first()
        } else {
            self.load_next()
        }
    }

    /// Loads one revision, and returns its number; None at the end of the dump. Where one of its records is refused, nothing of it is committed. Where
    /// the number of the next revision is refused, this one is committed; so it is where memory runs out between the two, with some of the empty
    /// commits there. [`Loader::refusal`] says what was refused, and where, and each further call is refused for the same reason.
    pub fn next_revision(&mut self) -> Result<Option<Rev>, LoadFault>
        ensures one { IfOk result (LoadsOne self.old.records.limits self.old.records.texts (loading R.remaining self.old) (loading R.remaining self.new)) }
        ensures fault { IfErr result (λ e. self.old.refused ≡ None → RefusesOne self.old.records.limits self.old.records.texts (IsShown R.remaining self.old self.new) (loading R.remaining self.old) e self.new.transaction.history) }
        ensures refused { self.new.refused ≡ result_err result }
        ensures again { IfSome self.old.refused (λ e. (result ≡ Err e) × (self.new ≡ self.old)) }
        ensures limits { self.new.records.limits ≡ self.old.records.limits }
        ensures texts { self.new.records.texts ≡ self.old.records.texts }
        ensures read { IfErr result (λ e. self.old.refused ≡ None → e ≡ LoadFault.Dump DumpFault.Read → IsUnreadable self.new.records) }
        ensures grown { OnOk result (IsSome self.new.rev → Grows self.old.records.source.taken 1 self.new.records.source.taken) }
        ensures counted { OnOk result (Counts self.old.records.source.taken (left_in R.remaining self.old.records) self.new.records.source.taken (left_in R.remaining self.new.records)) }
        ensures front { OnOk result (self.old.rev ≡ None → self.old.front.first ≡ None → FrontLoaded R.remaining self.old self.new.front.uuid self.new.front.first) }
        ensures kept { IsSome self.old.front.first → self.new.front ≡ self.old.front }
        ensures known { OnOk result (IsSome self.new.rev → IsSome self.new.front.first) }
    {
        if let Some(fault) = self.refused {
            return Err(fault);
        }
        match self.load_one() {
            Ok(done) => {
                self.refused = None;
                Ok(done)
            }
            Err(fault) => {
                self.refused = Some(fault);
                Err(fault)
            }
        }
    }

    /// Loads all that is left of a dump; to report progress, call [`Loader::load_all_with`] or [`Loader::next_revision`] instead. After a refusal it
    /// is with the loader as after a refusal of `next_revision`.
    pub fn load_all(&mut self) -> Result<(), LoadFault>
        ensures rest { OnOk result (LoadsRest self.old.records.limits self.old.records.texts (loading R.remaining self.old) (loading R.remaining self.new)) }
        // from the beginning, it is the whole dump that is loaded
        ensures dump { OnOk result (self.old.rev ≡ None → draft_of self.old.transaction ≡ begun self.old.transaction.history → LoadsDump self.old.records.limits self.old.records.texts (left_in R.remaining self.old.records) self.old.transaction.history self.new.transaction.history) }
        ensures fault { IfErr result (λ e. self.old.refused ≡ None → RefusesAll self.old.records.limits self.old.records.texts (IsShown R.remaining self.old self.new) (loading R.remaining self.old) e self.new.transaction.history) }
        ensures again { IfSome self.old.refused (λ e. (result ≡ Err e) × (self.new ≡ self.old)) }
        ensures refused { IfErr result (λ e. self.new.refused ≡ Some e) }
        ensures read { IfErr result (λ e. self.old.refused ≡ None → e ≡ LoadFault.Dump DumpFault.Read → IsUnreadable self.new.records) }
        ensures front { OnOk result (self.old.rev ≡ None → self.old.front.first ≡ None → FrontLoaded R.remaining self.old self.new.front.uuid self.new.front.first) }
        ensures kept { IsSome self.old.front.first → self.new.front ≡ self.old.front }
    {
        self.load_all_with(&mut NoLoadListener)
    }

    /// Loads all that is left of a dump, and reports to a listener after each revision. After a refusal it is with the loader as after a refusal of
    /// [`Loader::next_revision`].
    pub fn load_all_with<L: LoadListener>(&mut self, listener: &mut L) -> Result<(), LoadFault>
        ensures rest { OnOk result (LoadsRest self.old.records.limits self.old.records.texts (loading R.remaining self.old) (loading R.remaining self.new)) }
        // from the beginning, it is the whole dump that is loaded
        ensures dump { OnOk result (self.old.rev ≡ None → draft_of self.old.transaction ≡ begun self.old.transaction.history → LoadsDump self.old.records.limits self.old.records.texts (left_in R.remaining self.old.records) self.old.transaction.history self.new.transaction.history) }
        ensures fault { IfErr result (λ e. self.old.refused ≡ None → RefusesAll self.old.records.limits self.old.records.texts (IsShown R.remaining self.old self.new) (loading R.remaining self.old) e self.new.transaction.history) }
        ensures again { IfSome self.old.refused (λ e. (result ≡ Err e) × (self.new ≡ self.old) × (listener.new ≡ listener.old)) }
        // it hears of each revision once, in their order
        ensures heard { self.old.refused ≡ None → HearsAll self.old.records.limits self.old.records.texts L.hears result (loading R.remaining self.old) listener.old (loading R.remaining self.new) listener.new }
        ensures refused { IfErr result (λ e. self.new.refused ≡ Some e) }
        ensures read { IfErr result (λ e. self.old.refused ≡ None → e ≡ LoadFault.Dump DumpFault.Read → IsUnreadable self.new.records) }
        ensures front { OnOk result (self.old.rev ≡ None → self.old.front.first ≡ None → FrontLoaded R.remaining self.old self.new.front.uuid self.new.front.first) }
        ensures kept { IsSome self.old.front.first → self.new.front ≡ self.old.front }
    {
        if let Some(fault) = self.refused {
            return Err(fault);
        }
        'revisions: for _ in 0..u64::MAX {
            self.next_revision()?;
            listener.loaded(self.latest(), self.records.begun());
            if self.rev.is_none() {
                return Ok(());
            }
        }
        // no dump has so many revisions
        self.refused = Some(LoadFault::Dump(DumpFault::Read));
        Err(LoadFault::Dump(DumpFault::Read))
    }
}
