//! Runs on one thread: the driver gives each call to the copy as it makes it.
ghost use Rattle.std.specs.Prelude.{◌≡◌, None, []};
ghost use Rattle.svn_editor.specs.declared.mode.Mode.TheVariants.{Update, SwitchTo};
ghost use Rattle.md5.specs.Md5.{md5};
ghost use Rattle.svn_drive.specs.Requests.{requested, input_of, drive_for};
ghost use Rattle.svn_edit.specs.Carrying.{CarriedOut};
ghost use Rattle.svn_model.specs.Checks.{target_fault};
ghost use Rattle.svn_model.specs.Drive.{IsDrive};
ghost use Rattle.svn_model.specs.Effects.{AllAccepted};
ghost use Rattle.svn_model.specs.Nodes.{WorkingCopy as CopyMap, get_in, IsTrueOf};
ghost use Rattle.svn_run.specs.Coming.{CameInTurn, turn_outcome};
ghost use Rattle.svn_run.specs.UpdateTheorem.{asked, fault_in_turn, late_in, TurnTheorem};

use crate::counted::Counted;
use crate::laws::{laws, true_copy};
use crate::listener::{Listener, NoListener};
use crate::outcome::{Outcome, RunFault, cause_at};
use crate::whole::{Begun, begin, end, switch_mode, switched_to, target_fault};
use std::alloc::Global;
use svn_drive::{DriveOptions, Request, drive_tested};
use svn_editor::Mode;
use svn_model::{DriveEnd, DriveFault};
use svn_repo::Repo;
use svn_report::Report;
use svn_types::{RelPath, Rev};
use svn_wc::WorkingCopy;

/// Updates a working copy to a revision of the repository, on one thread.
///
/// The copy must be true of the repository ([`WorkingCopy::check_true`] is the test). With `cancel_after` the run is
/// given up after that many calls, if the drive has more. With `late_texts` the texts of files come after all
/// directories are closed. NoSuchRevision, NoRoot and OtherRoot say, in this order, why no run leads to the target;
/// then Memory where an allocation failed before the first call. The copy is then as it was.
pub fn update_in_turn(
    alloc: Global,
    repo: &Repo,
    copy: &mut WorkingCopy,
    target: Rev,
    cancel_after: Option<u64>,
    late_texts: bool,
) -> Result<Outcome, RunFault>
    requires truth { IsTrueOf repo.now (get_in copy.old) }
    ensures { TurnTheorem (asked repo.now copy.old (requested target Update late_texts cancel_after)) copy.new result }
{
    let request = Request {
        target,
        mode: Mode::Update,
        options: DriveOptions {
            cancel_after,
            late_texts,
        },
    };
    run_in_turn(alloc, repo, copy, &request, &mut NoListener)
}

/// Brings a whole working copy to another path of the repository, at a revision, on one thread: as
/// [`update_in_turn`] otherwise.
pub fn switch_to_in_turn(
    alloc: Global,
    repo: &Repo,
    copy: &mut WorkingCopy,
    to: &RelPath,
    target: Rev,
    cancel_after: Option<u64>,
    late_texts: bool,
) -> Result<Outcome, RunFault>
    requires truth { IsTrueOf repo.now (get_in copy.old) }
    ensures { TurnTheorem (asked repo.now copy.old (requested target (SwitchTo to.now) late_texts cancel_after)) copy.new result }
{
    laws();
    true_copy(repo, copy);
    if let Some(fault) = target_fault(alloc, repo, copy, target, Some(to)) {
        return Err(fault);
    }
    let Ok(mode) = switch_mode(to) else {
        return Err(RunFault::Memory);
    };
    let request = Request {
        target,
        mode,
        options: DriveOptions {
            cancel_after,
            late_texts,
        },
    };
    run_tested(alloc, repo, copy, &request, &mut NoListener)
}

/// Does what is asked for, on one thread: as [`update_in_turn`] and [`switch_to_in_turn`]. The listener hears of each call that the copy accepted.
pub fn run_in_turn<L: Listener>(
    alloc: Global,
    repo: &Repo,
    copy: &mut WorkingCopy,
    request: &Request,
    listener: &mut L,
) -> Result<Outcome, RunFault>
    requires truth { IsTrueOf repo.now (get_in copy.old) }
    ensures { TurnTheorem (asked repo.now copy.old request.now) copy.new result }
{
    laws();
    true_copy(repo, copy);
    let to = switched_to(&request.mode);
    if let Some(fault) = target_fault(alloc, repo, copy, request.target, to) {
        return Err(fault);
    }
    run_tested(alloc, repo, copy, request, listener)
}

// A run whose target is there.
fn run_tested<L: Listener>(
    alloc: Global,
    repo: &Repo,
    copy: &mut WorkingCopy,
    request: &Request,
    listener: &mut L,
) -> Result<Outcome, RunFault>
    requires truth { IsTrueOf repo.now (get_in copy.old) }
    requires target { fault_in_turn (asked repo.now copy.old request.now) ≡ None }
    ensures { TurnTheorem (asked repo.now copy.old request.now) copy.new result }
{
    laws();
    true_copy(repo, copy);
    let Ok(begun) = begin(alloc, copy, request) else {
        return Err(RunFault::Memory);
    };
    let Begun {
        report,
        carrier,
        known,
    } = begun;
    let mut counted = Counted {
        carrier,
        listener,
        made: 0,
        accepted: 0,
    };
    let ended = drive_counted(alloc, request, repo, &report, &mut counted);
    let Counted {
        carrier,
        made,
        accepted,
        ..
    } = counted;
    let outcome = outcome_of(request.options.cancel_after, &ended, made, accepted);
    *copy = end(carrier.copy, known, &request.mode, &outcome);
    Ok(outcome)
}

// Drives the carrier, and counts its calls.
fn drive_counted<L: Listener>(
    alloc: Global,
    request: &Request,
    repo: &Repo,
    report: &Report,
    counted: &mut Counted<'_, '_, L>,
) -> Result<DriveEnd, DriveFault>
    requires target { target_fault (input_of repo.now report.now request.now) ≡ None }
    requires drive { IsDrive (input_of repo.now report.now request.now) request.now.options.late_texts (drive_for repo.now report.now request.now) }
    requires made { counted.old.made ≡ 0 }
    requires accepted { counted.old.accepted ≡ 0 }
    ensures { (w0 : CopyMap) → CarriedOut counted.old.carrier.mode.now w0 counted.old.carrier.pending counted.old.carrier.copy.nodes.entries [] → AllAccepted md5 counted.old.carrier.mode.now w0 (drive_for repo.now report.now request.now) → CameInTurn (drive_for repo.now report.now request.now) counted.old.carrier.mode.now request.now.options.cancel_after w0 counted.new.carrier.copy.nodes.entries (turn_outcome request.now.options.cancel_after result counted.new.made counted.new.accepted) }
{
    laws();
    drive_tested(alloc, repo, report, request, counted)
}

// What a run returns, by its limit on calls, how its driver ended, and how many calls were made and accepted.
fn outcome_of(
    limit: Option<u64>,
    end: &Result<DriveEnd, DriveFault>,
    made: u64,
    accepted: u64,
) -> Outcome
    ensures outcome { result ≡ turn_outcome limit end.now made accepted }
    ensures never_late { late_in result ≡ None }
{
    match end {
        Ok(DriveEnd::Closed { calls }) => Outcome::Closed { calls: *calls },
        Ok(DriveEnd::Cancelled { .. }) | Err(_) => Outcome::Aborted {
            made,
            accepted,
            late: None,
            cause: cause_at(limit, made, accepted),
        },
    }
}
