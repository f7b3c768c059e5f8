//! The two threads of a run.
ghost use Rattle.std.specs.Prelude.{◌≡◌, None, [], MatchResult};
ghost use Rattle.svn_edit.specs.Carrying.{CarriedOut};
ghost use Rattle.svn_model.specs.Checks.{target_fault};
ghost use Rattle.svn_model.specs.Drive.{IsDrive};
ghost use Rattle.svn_model.specs.Nodes.{get_in};
ghost use Rattle.svn_drive.specs.Requests.{input_of, drive_for};
ghost use Rattle.svn_run.specs.Driven.{IsDriven};
ghost use Rattle.svn_run.specs.Takes.{IsTaken};

use crate::carrier::Carrier;
use crate::driving::{Driven, Drives, drive_through};
use crate::gate::Gate;
use crate::listener::Listener;
use crate::taking::{Taken, take_all};
use std::alloc::Global;
use std::snapshot::Snapshot;
use std::sync::Wait;
use std::thread;
use std::thread::Threads;
use svn_drive::Request;
use svn_link::{Inbox, Outbox, Teller, Watcher};
use svn_repo::Repo;
use svn_report::Report;

/// The ends of a link and of a notice.
#[derive(Drop)]
pub(crate) struct Ends {
    pub(crate) outbox: Outbox,
    pub(crate) inbox: Inbox,
    pub(crate) teller: Teller,
    pub(crate) watcher: Watcher,
}

/// What both threads have after the last call.
#[derive(Drop)]
pub(crate) struct Both<'r> {
    pub(crate) driven: Driven,
    pub(crate) taken: Taken,
    pub(crate) carrier: Carrier<'r>,
}

/// Drives in a thread of its own, and applies the calls in this one. Where no thread can be made it returns the carrier, as it was.
pub(crate) fn run_both<'r, R: Threads + Wait + Sync, G: Gate, L: Listener>(
    rt: &R,
    gate: &G,
    alloc: Global,
    listener: &mut L,
    request: &'r Request,
    repo: &Repo,
    report: &Report,
    ends: Ends,
    carrier: Carrier<'r>,
) -> Result<Both<'r>, Carrier<'r>>
    requires sent { ends.outbox.calls ≡ [] }
    requires taken { ends.inbox.calls ≡ [] }
    requires told { ends.teller.number ≡ None }
    requires target { target_fault (input_of repo.now report.now request.now) ≡ None }
    requires drive { IsDrive (input_of repo.now report.now request.now) request.now.options.late_texts (drive_for repo.now report.now request.now) }
    requires begun { CarriedOut carrier.mode.now (get_in carrier.copy.nodes.entries) carrier.pending carrier.copy.nodes.entries [] }
    ensures { MatchResult result
        (λ b. IsDriven (drive_for repo.now report.now request.now) request.now.options.cancel_after ends.outbox ends.watcher b.driven × IsTaken carrier.entry.mode.now (get_in carrier.entry.copy.nodes.entries) ends.inbox ends.teller b.taken b.carrier.copy.nodes.entries)
        (λ c. c.copy.nodes.entries ≡ carrier.entry.copy.nodes.entries) }
{
    let Ends {
        outbox,
        inbox,
        teller,
        watcher,
    } = ends;
    let (heard, both) = thread::scope(
        thread::scope_env(),
        rt,
        move |scope| -> (&mut L, Result<Both, Carrier>)
            requires { (outbox.calls ≡ []) × (inbox.calls ≡ []) × (teller.number ≡ None) × (target_fault (input_of repo.now report.now request.now) ≡ None) × IsDrive (input_of repo.now report.now request.now) request.now.options.late_texts (drive_for repo.now report.now request.now) × CarriedOut carrier.mode.now (get_in carrier.copy.nodes.entries) carrier.pending carrier.copy.nodes.entries [] }
            ensures { MatchResult result.1
                (λ b. IsDriven (drive_for repo.entry.now report.entry.now request.entry.now) request.entry.now.options.cancel_after outbox watcher b.driven × IsTaken carrier.entry.mode.now (get_in carrier.entry.copy.nodes.entries) inbox teller b.taken b.carrier.copy.nodes.entries)
                (λ c. c.copy.nodes.entries ≡ carrier.entry.copy.nodes.entries) }
        {
            let promise = Drives {
                request: Snapshot::of(request),
                repo: Snapshot::of(repo),
                report: Snapshot::of(report),
                outbox: Snapshot::of(&outbox),
                watcher: Snapshot::of(&watcher),
            };
            let driver = scope.spawn_with(
                promise,
                move || -> Driven
                    requires { (outbox.calls ≡ []) × (target_fault (input_of repo.now report.now request.now) ≡ None) × IsDrive (input_of repo.now report.now request.now) request.now.options.late_texts (drive_for repo.now report.now request.now) }
                    ensures { IsDriven (drive_for repo.entry.now report.entry.now request.entry.now) request.entry.now.options.cancel_after outbox watcher result }
                { drive_through(rt, gate, alloc, request, repo, report, outbox, watcher) },
            );
            let mut carrier = carrier;
            let Ok(driver) = driver else {
                return (listener, Err(carrier));
            };
            let taken = take_all(rt, gate, listener, inbox, teller, &mut carrier);
            let driven = driver.join(rt);
            (
                listener,
                Ok(Both {
                    driven,
                    taken,
                    carrier,
                }),
            )
        },
    );
    // The scope returns the reference that it borrowed: a proof knows nothing of what a closure leaves in a captured one.
    let _listener = heard;
    both
}
