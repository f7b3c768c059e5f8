//! Runs on two threads: the driver in one of its own, the working copy in the caller's.
ghost use Rattle.std.specs.Prelude.{◌≡◌, None, Some, [], IfOk, IfErr, true, false};
ghost use Rattle.std.specs.Option.{option_copied};
ghost use Rattle.svn_drive.specs.declared.request.Request.{Request as Requested};
ghost use Rattle.svn_drive.specs.Requests.{requested};
ghost use Rattle.svn_editor.specs.declared.mode.Mode.TheVariants.{Update, SwitchTo};
ghost use Rattle.svn_model.specs.Nodes.{get_in, IsTrueOf};
ghost use Rattle.svn_run.specs.Beginning.{switched_to};
ghost use Rattle.svn_run.specs.UpdateTheorem.{asked, is_capacity, capacity_fault, fault_in_threads, ThreadsTheorem};

use crate::finish::finish;
use crate::gate::Gate;
use crate::laws::{laws, true_copy};
use crate::listener::{Listener, NoListener};
use crate::outcome::{Outcome, RunFault};
use crate::two_threads::{Both, Ends, run_both};
use crate::whole::{Begun, begin, end, switch_mode, switched_to, target_fault};
use std::alloc::Global;
use std::sync::Wait;
use std::thread::Threads;
use svn_drive::{DriveOptions, Request};
use svn_editor::Mode;
use svn_link::{LinkFault, MAX_CAPACITY, Settled, link, notice};
use svn_repo::Repo;
use svn_types::{RelPath, Rev};
use svn_wc::WorkingCopy;

// How many calls may wait by default.
const DEFAULT_CAPACITY: usize = 64;

/// How a run on two threads is made.
#[derive(Clone, Copy, Debug)]
pub struct Options {
    /// How many calls may wait between the two threads, from 1 to 4,096.
    pub capacity: usize,
    /// After how many calls the run is given up, if its drive has more; `AbortEdit` isn't counted. None: it goes to its end.
    pub cancel_after: Option<u64>,
    /// Whether the texts of files come after all directories are closed.
    pub late_texts: bool,
}

/// 64 calls may wait, the run goes to its end, and texts come in place.
impl Default for Options {
    ghost is_default = { λ o. (o.capacity ≡ 64) × (o.cancel_after ≡ None) × (o.late_texts ≡ false) };

    fn default() -> Options {
        Options {
            capacity: DEFAULT_CAPACITY,
            cancel_after: None,
            late_texts: false,
        }
    }
}

impl Options {
    /// With room for that many calls between the two threads.
    pub fn capacity(self, capacity: usize) -> Options
        ensures { result ≡ record { capacity = capacity; cancel_after = self.cancel_after; late_texts = self.late_texts } }
    {
        Options { capacity, ..self }
    }

    /// Given up after that many calls, if the drive has more.
    pub fn cancel_after(self, calls: u64) -> Options
        ensures { result ≡ record { capacity = self.capacity; cancel_after = Some calls; late_texts = self.late_texts } }
    {
        Options {
            cancel_after: Some(calls),
            ..self
        }
    }

    // How its drive is made.
    fn of_drive(self) -> DriveOptions
        ensures { result ≡ record { cancel_after = self.cancel_after; late_texts = self.late_texts } }
    {
        DriveOptions {
            cancel_after: self.cancel_after,
            late_texts: self.late_texts,
        }
    }

    /// With the texts of files after all directories are closed.
    pub fn late_texts(self) -> Options
        ensures { result ≡ record { capacity = self.capacity; cancel_after = self.cancel_after; late_texts = true } }
    {
        Options {
            late_texts: true,
            ..self
        }
    }
}

/// Updates a working copy to a revision of the repository, with the driver in a thread of its own.
///
/// The copy must be true of the repository ([`WorkingCopy::check_true`] is the test). NoSuchRevision, NoRoot and
/// OtherRoot say, in this order, why no run leads to the target, then Capacity that the capacity isn't 1 to 4,096; then
/// come Memory, where an allocation failed before the first call, and NoThread, where no thread could be made. The copy
/// is then as it was. It may wait for the other thread.
///
/// Otherwise it returns how the run ended, and what passed between the threads: how many calls were sent and taken, the last
/// and `AbortEdit` included.
pub fn update<R: Threads + Wait + Sync, G: Gate>(
    rt: &R,
    alloc: Global,
    repo: &Repo,
    copy: &mut WorkingCopy,
    target: Rev,
    options: Options,
    gate: &G,
) -> Result<(Outcome, Settled), RunFault>
    requires truth { IsTrueOf repo.now (get_in copy.old) }
    ensures { ThreadsTheorem (asked repo.now copy.old (requested target Update options.late_texts options.cancel_after)) options.capacity copy.new result }
{
    let request = Request {
        target,
        mode: Mode::Update,
        options: options.of_drive(),
    };
    run(
        rt,
        alloc,
        repo,
        copy,
        &request,
        options.capacity,
        gate,
        &mut NoListener,
    )
}

/// Brings a whole working copy to another path of the repository, at a revision, with the driver in a thread of its
/// own: as [`update`] otherwise.
pub fn switch_to<R: Threads + Wait + Sync, G: Gate>(
    rt: &R,
    alloc: Global,
    repo: &Repo,
    copy: &mut WorkingCopy,
    to: &RelPath,
    target: Rev,
    options: Options,
    gate: &G,
) -> Result<(Outcome, Settled), RunFault>
    requires truth { IsTrueOf repo.now (get_in copy.old) }
    ensures { ThreadsTheorem (asked repo.now copy.old (requested target (SwitchTo to.now) options.late_texts options.cancel_after)) options.capacity copy.new result }
{
    laws();
    true_copy(repo, copy);
    if let Some(fault) = refusal(alloc, repo, copy, target, Some(to), options.capacity) {
        return Err(fault);
    }
    let Ok(mode) = switch_mode(to) else {
        return Err(RunFault::Memory);
    };
    let request = Request {
        target,
        mode,
        options: options.of_drive(),
    };
    run_tested(
        rt,
        alloc,
        repo,
        copy,
        &request,
        options.capacity,
        gate,
        &mut NoListener,
    )
}

/// Does what is asked for, with the driver in a thread of its own and that many calls between the two: as [`update`] and [`switch_to`]. The listener
/// hears of each call that the copy accepted.
pub fn run<R: Threads + Wait + Sync, G: Gate, L: Listener>(
    rt: &R,
    alloc: Global,
    repo: &Repo,
    copy: &mut WorkingCopy,
    request: &Request,
    capacity: usize,
    gate: &G,
    listener: &mut L,
) -> Result<(Outcome, Settled), RunFault>
    requires truth { IsTrueOf repo.now (get_in copy.old) }
    ensures { ThreadsTheorem (asked repo.now copy.old request.now) capacity copy.new result }
{
    laws();
    true_copy(repo, copy);
    let to = switched_to(&request.mode);
    if let Some(fault) = refusal(alloc, repo, copy, request.target, to, capacity) {
        return Err(fault);
    }
    run_tested(rt, alloc, repo, copy, request, capacity, gate, listener)
}

// Why no run begins: for its target, then for its capacity.
fn refusal(
    alloc: Global,
    repo: &Repo,
    copy: &WorkingCopy,
    target: Rev,
    to: Option<&RelPath>,
    capacity: usize,
) -> Option<RunFault>
    requires truth { IsTrueOf repo.now (get_in copy.now) }
    ensures { (w : Requested) → w.target ≡ target → switched_to w.mode ≡ option_copied to.entry → result ≡ fault_in_threads (asked repo.now copy.now w) capacity }
{
    match target_fault(alloc, repo, copy, target, to) {
        Some(fault) => Some(fault),
        None => capacity_fault(capacity),
    }
}

// A run whose target is there, and whose capacity is one.
fn run_tested<R: Threads + Wait + Sync, G: Gate, L: Listener>(
    rt: &R,
    alloc: Global,
    repo: &Repo,
    copy: &mut WorkingCopy,
    request: &Request,
    capacity: usize,
    gate: &G,
    listener: &mut L,
) -> Result<(Outcome, Settled), RunFault>
    requires truth { IsTrueOf repo.now (get_in copy.old) }
    requires begins { fault_in_threads (asked repo.now copy.old request.now) capacity ≡ None }
    ensures { ThreadsTheorem (asked repo.now copy.old request.now) capacity copy.new result }
{
    laws();
    true_copy(repo, copy);
    let Ok(ends) = ends_of(alloc, capacity) else {
        return Err(RunFault::Memory);
    };
    let Ok(begun) = begin(alloc, copy, request) else {
        return Err(RunFault::Memory);
    };
    let Begun {
        report,
        carrier,
        known,
    } = begun;
    match run_both(
        rt, gate, alloc, listener, request, repo, &report, ends, carrier,
    ) {
        Ok(both) => {
            let Both {
                driven,
                taken,
                carrier,
            } = both;
            let (outcome, settled) = finish(rt, request.options.cancel_after, driven, taken);
            *copy = end(carrier.copy, known, &request.mode, &outcome);
            Ok((outcome, settled))
        }
        Err(carrier) => {
            *copy = carrier.copy.tie(known);
            Err(RunFault::NoThread)
        }
    }
}

// Why no link can have that capacity.
fn capacity_fault(capacity: usize) -> Option<RunFault>
    ensures { result ≡ capacity_fault capacity }
{
    if 1 <= capacity && capacity <= MAX_CAPACITY {
        None
    } else {
        Some(RunFault::Capacity)
    }
}

// The ends of a new link and of a new notice.
fn ends_of(alloc: Global, capacity: usize) -> Result<Ends, RunFault>
    requires { is_capacity capacity ≡ true }
    ensures sent { IfOk result (λ e. e.outbox.calls ≡ []) }
    ensures taken { IfOk result (λ e. e.inbox.calls ≡ []) }
    ensures told { IfOk result (λ e. e.teller.number ≡ None) }
    ensures link { IfOk result (λ e. e.inbox.link ≡ e.outbox.link) }
    ensures notice { IfOk result (λ e. e.watcher.notice ≡ e.teller.notice) }
    ensures memory { IfErr result (λ e. e ≡ RunFault.Memory) }
{
    let (outbox, inbox) = match link(alloc, capacity) {
        Ok(ends) => ends,
        Err(LinkFault::Memory) => return Err(RunFault::Memory),
        Err(LinkFault::Capacity) => unreachable!(),
    };
    let Ok((teller, watcher)) = notice(alloc) else {
        return Err(RunFault::Memory);
    };
    Ok(Ends {
        outbox,
        inbox,
        teller,
        watcher,
    })
}
