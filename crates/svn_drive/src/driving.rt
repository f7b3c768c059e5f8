//! Drives: the calls that bring a client from what it reports to a revision.
ghost use Rattle.std.specs.Prelude.{◌≡◌, ◌+◌, ◌++◌, [], length, false, Result, Err, None, IfSome, IfErr, OnOk};
ghost use Rattle.svn_editor.specs.declared.call.Call.TheVariants.{AbortEdit};
ghost use Rattle.svn_editor.specs.declared.fault.EditFault.{EditFault};
ghost use Rattle.svn_model.specs.Checks.{target_fault};
ghost use Rattle.svn_model.specs.Ends.{Runs, LeavesSome, Drives, end_of};
ghost use Rattle.svn_model.specs.TreeCalls.{drive_calls, visit_calls, visit_size};
ghost use Rattle.svn_drive.specs.Checking.{AreOfDrive};
ghost use Rattle.svn_drive.specs.Counts.{with_last};
ghost use Rattle.svn_drive.specs.Waiting.{Postpones, visit_late};
ghost use Rattle.svn_drive.specs.Requests.{requested, input_of, drive_for};
ghost use Rattle.svn_drive.specs.Walking.{WalkRuns, request_of, late_texts_of, limit_of};
ghost use Rattle.svn_drive.specs.Targets.{fault_between};
ghost use Rattle.svn_editor.specs.declared.mode.Mode.TheVariants.{Update, SwitchTo};

use crate::check::Check;
use crate::making::{Progress, make, make_last};
use crate::nodes::are_related;
use crate::report_part::ReportPart;
use crate::request::{DriveOptions, Request};
use crate::visit::Texted;
use crate::walk::Walk;
use law_drive::the_calls_are_a_drive;
use std::alloc::Global;
use svn_editor::{Call, Editor, Mode};
use svn_model::{DriveEnd, DriveFault, Stop};
use svn_repo::{NodeId, Repo};
use svn_report::Report;
use svn_types::{RelPath, Rev};

/// Why no drive leads from the node that a client has at its root to the one that the target has there: NoSuchTarget, NoRoot, OtherRoot, in this
/// order. It takes no memory.
pub fn fault_between(
    repo: &Repo,
    target: Rev,
    from: Option<NodeId>,
    there: Option<NodeId>,
) -> Option<DriveFault>
    ensures { result ≡ fault_between repo.now target from there }
{
    if target > repo.latest() {
        Some(DriveFault::NoSuchTarget)
    } else if there.is_none() {
        Some(DriveFault::NoRoot)
    } else if !are_related(repo, &from, &there) {
        Some(DriveFault::OtherRoot)
    } else {
        None
    }
}

impl<'a> Walk<'a> {
    // Why no drive leads to the target. It takes no memory.
    fn target_fault(&self) -> Option<DriveFault>
        ensures { result ≡ target_fault (request_of self.now) }
    {
        fault_between(
            self.repo,
            self.request.target,
            self.root_source(),
            self.root_target(),
        )
    }

    // All calls at the root and below it, but for the texts that wait.
    fn visit_root<E: Editor>(
        &self,
        editor: &mut E,
        progress: &mut Progress,
        later: &mut Vec<Texted>,
    ) -> Result<(), Stop>
        ensures runs { WalkRuns E.answers self.now (visit_calls (request_of self.now) (late_texts_of self.now) [] 0 progress.old.next) result editor.old editor.new progress.old progress.new }
        ensures tokens { OnOk result (progress.new.next ≡ progress.old.next + visit_size (request_of self.now) []) }
        ensures waits { Postpones self.now (visit_late (request_of self.now) (late_texts_of self.now) [] 0 progress.old.next) result later.old.items later.new.items }
    {
        let entries = self.report.in_path_order(self.alloc)?;
        let root = self.root(ReportPart::of(&entries));
        self.visit(&root, editor, progress, later)
    }

    // All calls.
    fn run<E: Editor>(&self, editor: &mut E, progress: &mut Progress) -> Result<(), Stop>
        requires { progress.old.next ≡ 0 }
        ensures runs { Runs E.answers (limit_of self.now) (drive_calls (request_of self.now) (late_texts_of self.now)) result editor.old editor.new progress.old.made (with_last result progress.new.made) }
        ensures before_last { IfErr result (λ stop. LeavesSome stop progress.new.made (progress.old.made + length (drive_calls (request_of self.now) (late_texts_of self.now)))) }
    {
        let mut later = Vec::new(self.alloc);
        let first = Call::SetTargetRevision {
            rev: self.request.target,
        };
        make(self.request.options.cancel_after, editor, progress, first)?;
        self.visit_root(editor, progress, &mut later)?;
        if self.request.options.late_texts {
            self.give_late(&later, editor, progress)?;
        }
        make_last(self.request.options.cancel_after, editor, progress)
    }

    // A drive whose target has no fault.
    fn drive_tested<E: Editor>(&self, editor: &mut E) -> Result<DriveEnd, DriveFault>
        requires { target_fault (request_of self.now) ≡ None }
        ensures { Drives E.answers (limit_of self.now) (target_fault (request_of self.now)) (drive_calls (request_of self.now) (late_texts_of self.now)) result editor.old editor.new }
    {
        let mut progress = Progress::new();
        match self.run(editor, &mut progress) {
            Ok(()) => Ok(DriveEnd::Closed {
                calls: progress.made_with_last(),
            }),
            Err(stop) => give_up(stop, progress.made(), editor),
        }
    }

    // A whole drive.
    fn drive<E: Editor>(&self, editor: &mut E) -> Result<DriveEnd, DriveFault>
        ensures calls { Drives E.answers (limit_of self.now) (target_fault (request_of self.now)) (drive_calls (request_of self.now) (late_texts_of self.now)) result editor.old editor.new }
        ensures refused { IfSome (target_fault (request_of self.now)) (λ fault. (result ≡ Err fault) × (editor.new ≡ editor.old)) }
    {
        match self.target_fault() {
            Some(fault) => Err(fault),
            None => self.drive_tested(editor),
        }
    }
}

// Gives the edit up, and says why.
fn give_up<E: Editor>(stop: Stop, made: u64, editor: &mut E) -> Result<DriveEnd, DriveFault>
    ensures end { result ≡ end_of stop made }
    ensures aborted { (answer : Result (Unit {0}) EditFault) × E.answers editor.old AbortEdit answer editor.new }
{
    let _answer = editor.call(Call::AbortEdit);
    match stop {
        Stop::Cancelled => Ok(DriveEnd::Cancelled { made }),
        Stop::Full => Err(DriveFault::Full),
        Stop::Memory => Err(DriveFault::Memory),
        Stop::Editor(fault) => Err(DriveFault::Editor(fault)),
    }
}

// Why no drive leads from a report to another path of the repository. It takes no memory.
fn switch_fault(
    alloc: Global,
    repo: &Repo,
    report: &Report,
    to: &RelPath,
    target: Rev,
) -> Option<DriveFault>
    ensures { result ≡ target_fault (input_of repo.now report.now (requested target (SwitchTo to.now) false None)) }
{
    let reading = Check {
        alloc,
        repo,
        report,
    };
    let from = reading.source(&reading.seen_root());
    fault_between(repo, target, from, repo.lookup(target, to))
}

/// Drives an editor from a report to a revision: an update. The report is one that the repository can serve (`check_report` is the test; of
/// another the calls are those that the walk of `svn_model/specs/Tree.antt` gives, and need not lead anywhere).
///
/// Returns Closed where all calls were made and accepted, and Cancelled where `cancel_after` calls were, before the last. Before any call
/// come, in this order, NoSuchTarget, NoRoot where the target has nothing at the repository path of the report's root, OtherRoot where a node
/// of another line is there. All others come later: Full, Memory and Editor, for a call that was refused. After Cancelled and after
/// these the last call was `AbortEdit`, and its result counts for nothing. It waits where the editor does.
///
/// Its cost is that of the report and of the entries of opened and added directories, times their depth.
pub fn drive<E: Editor>(
    alloc: Global,
    repo: &Repo,
    report: &Report,
    target: Rev,
    options: DriveOptions,
    editor: &mut E,
) -> Result<DriveEnd, DriveFault>
    ensures calls { let w = requested target Update options.late_texts options.cancel_after in Drives E.answers options.cancel_after (target_fault (input_of repo.now report.now w)) (drive_for repo.now report.now w) result editor.old editor.new }
    // whatever memory there is, a target that can't be reached is reported by its fault, and no call is made
    ensures refused { let w = requested target Update options.late_texts options.cancel_after in IfSome (target_fault (input_of repo.now report.now w)) (λ fault. (result ≡ Err fault) × (editor.new ≡ editor.old)) }
    ensures of_definition { let w = requested target Update options.late_texts options.cancel_after in AreOfDrive (input_of repo.now report.now w) options.late_texts (drive_for repo.now report.now w) }
{
    let request = Request {
        target,
        mode: Mode::Update,
        options,
    };
    drive_request(alloc, repo, report, &request, editor)
}

/// Drives an editor from a report to another path of the repository, at a revision: a switch of the whole copy (`svn_ra_do_switch3` of
/// `svn_ra.h`). NoRoot and OtherRoot are faults of what is at that path in the target; all else is
/// as in [`drive`].
pub fn drive_switch<E: Editor>(
    alloc: Global,
    repo: &Repo,
    report: &Report,
    to: &RelPath,
    target: Rev,
    options: DriveOptions,
    editor: &mut E,
) -> Result<DriveEnd, DriveFault>
    ensures calls { let w = requested target (SwitchTo to.now) options.late_texts options.cancel_after in Drives E.answers options.cancel_after (target_fault (input_of repo.now report.now w)) (drive_for repo.now report.now w) result editor.old editor.new }
    ensures refused { let w = requested target (SwitchTo to.now) options.late_texts options.cancel_after in IfSome (target_fault (input_of repo.now report.now w)) (λ fault. (result ≡ Err fault) × (editor.new ≡ editor.old)) }
    ensures of_definition { let w = requested target (SwitchTo to.now) options.late_texts options.cancel_after in AreOfDrive (input_of repo.now report.now w) options.late_texts (drive_for repo.now report.now w) }
{
    the_calls_are_a_drive();
    if let Some(fault) = switch_fault(alloc, repo, report, to, target) {
        return Err(fault);
    }
    let Ok(root) = to.clone() else {
        return give_up(Stop::Memory, 0, editor);
    };
    let request = Request {
        target,
        mode: Mode::SwitchTo(root),
        options,
    };
    drive_tested(alloc, repo, report, &request, editor)
}

/// Drives an editor from a report to what is asked for: an update or a switch, as [`drive`] and [`drive_switch`] do.
pub fn drive_request<E: Editor>(
    alloc: Global,
    repo: &Repo,
    report: &Report,
    request: &Request,
    editor: &mut E,
) -> Result<DriveEnd, DriveFault>
    ensures calls { Drives E.answers request.now.options.cancel_after (target_fault (input_of repo.now report.now request.now)) (drive_for repo.now report.now request.now) result editor.old editor.new }
    ensures refused { IfSome (target_fault (input_of repo.now report.now request.now)) (λ fault. (result ≡ Err fault) × (editor.new ≡ editor.old)) }
    ensures of_definition { AreOfDrive (input_of repo.now report.now request.now) request.now.options.late_texts (drive_for repo.now report.now request.now) }
{
    the_calls_are_a_drive();
    let walk = Walk {
        alloc,
        repo,
        report,
        request,
    };
    walk.drive(editor)
}

/// The same where the target was tested, by [`fault_between`], and has no fault.
pub fn drive_tested<E: Editor>(
    alloc: Global,
    repo: &Repo,
    report: &Report,
    request: &Request,
    editor: &mut E,
) -> Result<DriveEnd, DriveFault>
    requires { target_fault (input_of repo.now report.now request.now) ≡ None }
    ensures { Drives E.answers request.now.options.cancel_after (target_fault (input_of repo.now report.now request.now)) (drive_for repo.now report.now request.now) result editor.old editor.new }
{
    let walk = Walk {
        alloc,
        repo,
        report,
        request,
    };
    walk.drive_tested(editor)
}
