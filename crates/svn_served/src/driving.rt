//! Drives: what comes of a report.
ghost use Rattle.std.specs.Prelude.{◌≡◌, List, ℕ, Some, IfOk, OnOk};
ghost use Rattle.std.specs.Io.KnownBytes.{Appends};
ghost use Rattle.svn_replies.specs.Answers.{failure};
ghost use Rattle.svn_replies.specs.Refusals.{Gives};
ghost use Rattle.svn_served.specs.Drives.{noted_drive, wanted_drive, IsReportRefusal, tested, target_code, LeavesWritten, TellsEnd, IsDrive};

use crate::client_view::ClientView;
use crate::fault::ServeFault;
use crate::notes::Notes;
use crate::wanted::Wanted;
use std::alloc::{AllocError, Global};
use std::io::{Read, Seek, Write};
use svn_drive::{DriveEnd, DriveFault, ReportFault, check_report, drive_request};
use svn_replies::{Failure, Refused, Served, code, push_failure};
use svn_report::Report;
use svn_wire_calls::{OpenedTexts, WireEditor, calls_are_written};

/// How a drive ended.
#[derive(Clone, Copy, Debug, PartialEq, Eq)]
pub(crate) enum Driven {
    /// All of it is written, and the client answers.
    Whole,
    /// The client was told that it failed.
    Failed,
}

// Why a report can't be served.
fn report_failure(alloc: Global, fault: ReportFault) -> Result<Refused, AllocError>
    ensures { IfOk result (IsReportRefusal fault) }
{
    let code = match fault {
        ReportFault::Memory => return Ok(Refused::Memory),
        ReportFault::NoSuchRevision(_) => code::NO_REVISION,
        ReportFault::NoNode(_) => code::NOT_FOUND,
        ReportFault::NoEntries => code::BAD_REPORT,
        ReportFault::ParentNotDir(_) | ReportFault::RootNotDir => code::NOT_DIRECTORY,
    };
    Ok(Refused::Failed(Failure::new(code, format!(in alloc; "{fault}")?)))
}

/// Whether a report can be served.
pub(crate) fn test_report(alloc: Global, served: &Served, report: &Report) -> Result<(), Refused>
    ensures { Gives (λ done. done) result (tested served.now.repo report.now) }
{
    match check_report(alloc, &served.repo, report) {
        Ok(()) => Ok(()),
        Err(fault) => Err(report_failure(alloc, fault)?),
    }
}

// The code of why no drive leads to a target; none for what isn't about that.
fn target_code(fault: DriveFault) -> Option<u64>
    ensures { result ≡ target_code fault }
{
    match fault {
        DriveFault::Memory | DriveFault::Full | DriveFault::Editor(_) => None,
        DriveFault::NoSuchTarget => Some(code::NO_REVISION),
        DriveFault::NoRoot => Some(code::BAD_PATH),
        DriveFault::OtherRoot => Some(code::UNSUPPORTED),
    }
}

// Why no drive leads to a target.
fn target_failure(alloc: Global, fault: DriveFault) -> Result<Failure, ServeFault>
    ensures { IfOk result (λ failure. target_code fault ≡ Some failure.code) }
{
    match target_code(fault) {
        Some(code) => Ok(Failure::new(code, format!(in alloc; "{fault}")?)),
        None => Err(ServeFault::Memory),
    }
}

fn tell_failure<W: Write>(alloc: Global, told: &Failure, writer: &mut W) -> Result<(), ServeFault>
    ensures { OnOk result (Appends (W.contents writer.old) (W.contents writer.new) (failure told.now.code told.now.message)) }
{
    let mut bytes = Vec::new(alloc);
    push_failure(&mut bytes, told)?;
    match writer.write_all(&bytes) {
        Ok(()) => Ok(()),
        Err(error) => Err(ServeFault::Write(error)),
    }
}

fn stopped(alloc: Global) -> Result<Failure, AllocError>
    ensures { IfOk result (λ failure. failure.code ≡ 200015) }
{
    Ok(Failure::new(
        code::CANCELLED,
        format!(in alloc; "the drive was stopped, as was asked for")?,
    ))
}

// Makes the calls as the client is sent them.
fn drive_view<W: Write, F: Read + Seek>(
    alloc: Global,
    notes: Notes<'_>,
    view: &mut ClientView<'_, '_, WireEditor<'_, W, F, Notes<'_>>>,
) -> Result<DriveEnd, DriveFault>
    requires notes { view.old.editor.now.teller ≡ notes }
    requires entry { view.old.entry.now ≡ notes.entry.now }
    ensures written { LeavesWritten (noted_drive notes.entry view.old.with_texts) result (W.contents view.old.editor.now.writer.now) (W.contents view.new.editor.now.writer.now) }
    ensures same_editor { view.new.editor.ghost_name ≡ view.old.editor.ghost_name }
    ensures same_writer { view.new.editor.now.writer.ghost_name ≡ view.old.editor.now.writer.ghost_name }
{
    calls_are_written(view.editor);
    drive_request(alloc, &notes.served.repo, notes.report, notes.request, view)
}

// Makes the calls.
fn drive_editor<W: Write, F: Read + Seek>(
    alloc: Global,
    notes: Notes<'_>,
    with_texts: bool,
    editor: &mut WireEditor<'_, W, F, Notes<'_>>,
) -> Result<DriveEnd, DriveFault>
    requires { editor.old.teller ≡ notes }
    ensures written { LeavesWritten (noted_drive notes.entry with_texts) result (W.contents editor.old.writer.now) (W.contents editor.new.writer.now) }
    ensures same_writer { editor.new.writer.ghost_name ≡ editor.old.writer.ghost_name }
{
    let mut view = ClientView {
        alloc,
        entry: notes.entry,
        with_texts,
        editor,
    };
    drive_view(alloc, notes, &mut view)
}

// Makes the calls, and returns why one couldn't be written, if one couldn't.
fn make_calls<W: Write, F: Read + Seek>(
    alloc: Global,
    notes: Notes<'_>,
    with_texts: bool,
    texts: &mut F,
    writer: &mut W,
) -> Result<Result<DriveEnd, DriveFault>, ServeFault>
    ensures { IfOk result (λ end. LeavesWritten (noted_drive notes.entry with_texts) end (W.contents writer.old) (W.contents writer.new)) }
{
    let mut opened = OpenedTexts::new(alloc);
    let mut editor = WireEditor::new(alloc, writer, texts, &mut opened, notes);
    let end = drive_editor(alloc, notes, with_texts, &mut editor);
    match editor.take_failure() {
        Some(fault) => Err(ServeFault::from(fault)),
        None => Ok(end),
    }
}

// Says how a drive ended, where the client isn't told by its calls.
fn tell_end<W: Write>(
    alloc: Global,
    end: Result<DriveEnd, DriveFault>,
    writer: &mut W,
) -> Result<Driven, ServeFault>
    ensures { IfOk result (λ driven. TellsEnd end driven (W.contents writer.old) (W.contents writer.new)) }
{
    match end {
        Ok(DriveEnd::Closed { .. }) => Ok(Driven::Whole),
        Ok(DriveEnd::Cancelled { .. }) => {
            tell_failure(alloc, &stopped(alloc)?, writer)?;
            Ok(Driven::Failed)
        }
        Err(fault) => {
            tell_failure(alloc, &target_failure(alloc, fault)?, writer)?;
            Ok(Driven::Failed)
        }
    }
}

/// Writes the drive that a report asks for, as it is made.
pub(crate) fn write_drive<W: Write, F: Read + Seek>(
    alloc: Global,
    served: &Served,
    wanted: &Wanted,
    report: &Report,
    texts: &mut F,
    writer: &mut W,
) -> Result<Driven, ServeFault>
    ensures { IfOk result (λ driven. (bytes : List ℕ) × IsDrive (wanted_drive served.now wanted.now report.now) driven bytes × Appends (W.contents writer.old) (W.contents writer.new) bytes) }
{
    let notes = Notes {
        served,
        report,
        request: &wanted.request,
        entry: &wanted.entry,
    };
    let end = make_calls(alloc, notes, wanted.with_texts, texts, writer)?;
    let driven = tell_end(alloc, end, writer)?;
    Ok(driven)
}
