//! The driver's side of a run.
ghost use Rattle.std.specs.Prelude.{◌≡◌, None, []};
ghost use Rattle.svn_model.specs.Checks.{target_fault};
ghost use Rattle.svn_model.specs.Drive.{IsDrive};
ghost use Rattle.svn_drive.specs.Requests.{input_of, drive_for};
ghost use Rattle.svn_run.specs.Driven.{IsDriven};

use crate::gate::Gate;
use crate::sender::Sender;
use std::alloc::Global;
use std::snapshot::Snapshot;
use std::sync::Wait;
use std::thread::Promise;
use svn_drive::{Request, drive_tested};
use svn_link::{Outbox, Watcher};
use svn_model::{DriveEnd, DriveFault};
use svn_repo::Repo;
use svn_report::Report;

/// What the driver's thread returns.
#[derive(Drop)]
pub(crate) struct Driven {
    pub(crate) outbox: Outbox,
    pub(crate) watcher: Watcher,
    pub(crate) end: Result<DriveEnd, DriveFault>,
}

/// That the thread does what is asked for through these ends.
#[derive(Drop)]
pub(crate) struct Drives {
    pub(crate) request: Snapshot<Request>,
    pub(crate) repo: Snapshot<Repo>,
    pub(crate) report: Snapshot<Report>,
    pub(crate) outbox: Snapshot<Outbox>,
    pub(crate) watcher: Snapshot<Watcher>,
}

impl Promise<Driven> for Drives {
    ghost use Rattle.svn_drive.specs.Requests.{drive_for};
    ghost use Rattle.svn_run.specs.Driven.{IsDriven};

    ghost kept_by = { λ p d. IsDriven (drive_for p.repo.value p.report.value p.request.value) p.request.value.options.cancel_after p.outbox.value p.watcher.value d };
}

/// Does what is asked for through these ends. A driver that gave up before its first call sends `AbortEdit` all the same.
pub(crate) fn drive_through<R: Wait, G: Gate>(
    rt: &R,
    gate: &G,
    alloc: Global,
    request: &Request,
    repo: &Repo,
    report: &Report,
    outbox: Outbox,
    watcher: Watcher,
) -> Driven
    requires fresh { outbox.calls ≡ [] }
    requires target { target_fault (input_of repo.now report.now request.now) ≡ None }
    requires drive { IsDrive (input_of repo.now report.now request.now) request.now.options.late_texts (drive_for repo.now report.now request.now) }
    ensures { IsDriven (drive_for repo.now report.now request.now) request.now.options.cancel_after outbox watcher result }
{
    let mut sender = Sender::new(rt, gate, outbox, watcher);
    let end = drive_tested(alloc, repo, report, request, &mut sender);
    sender.end();
    let (outbox, watcher) = sender.into_ends();
    Driven {
        outbox,
        watcher,
        end,
    }
}
