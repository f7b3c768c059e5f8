//! What comes of the commands of a report.
ghost use Rattle.std.specs.Prelude.{◌≡◌, List, ℕ, IfOk};
ghost use Rattle.std.specs.Io.KnownBytes.{Appends};
ghost use Rattle.svn_replies.specs.Refusals.{as_read, Gives};
ghost use Rattle.svn_served.specs.Reporting.{report_step, Becomes};
ghost use Rattle.svn_served.specs.Reports.{reported, step, after_drive, IsReportAnswer, Reports};

use crate::connection::{Phase, push_refused, write_out};
use crate::driving::{Driven, test_report, write_drive};
use crate::fault::ServeFault;
use crate::reporting::Reporting;
use crate::wanted::Wanted;
use std::alloc::Global;
use std::io::{Read, Seek, Write};
use svn_replies::{Refused, Served, Session, View, push_done, push_no_mechanism};
use svn_report::Report;
use svn_wire::{Token, command};

// A command that isn't the last.
fn take(
    reporting: &mut Reporting,
    view: View<'_>,
    name: &[u8],
    fields: &[Token],
) -> Result<(), Refused>
    ensures { Becomes result reporting.new (report_step view.entry.served.now.repo view.entry.session.now reporting.old name.now fields.now) }
{
    if name == b"set-path".as_slice() {
        reporting.set_path(view, fields)
    } else if name == b"link-path".as_slice() {
        reporting.link_path(view, fields)
    } else if name == b"delete-path".as_slice() {
        reporting.delete_path(view, fields)
    } else {
        Err(Refused::BadFields)
    }
}

// The same, if none was refused before.
fn taken(
    view: View<'_>,
    reporting: Result<Reporting, Refused>,
    name: &[u8],
    fields: &[Token],
) -> Result<Reporting, Refused>
    ensures { Gives (λ r. r) result (step view.entry.served.now.repo view.entry.session.now (as_read reporting) name.now fields.now) }
{
    let mut reporting = reporting?;
    take(&mut reporting, view, name, fields)?;
    Ok(reporting)
}

// What is reported, if it can be served.
fn reported(
    view: View<'_>,
    reporting: Result<Reporting, Refused>,
) -> Result<(Wanted, Report), Refused>
    ensures { Gives (λ x. x) result (reported view.entry.served.now.repo (as_read reporting)) }
{
    let (wanted, report) = reporting?.finish(view)?;
    test_report(view.alloc, view.served, &report)?;
    Ok((wanted, report))
}

// What a client does after a drive.
fn after_drive(session: Session, driven: Driven) -> Phase
    ensures { result ≡ after_drive session driven }
{
    match driven {
        Driven::Whole => Phase::Driven(session),
        Driven::Failed => Phase::Ready(session),
    }
}

// The drive that a report asks for, or why there is none.
fn drive<W: Write, F: Read + Seek>(
    view: View<'_>,
    reporting: Result<Reporting, Refused>,
    texts: &mut F,
    writer: &mut W,
) -> Result<Driven, ServeFault>
    ensures { IfOk result (λ driven. (bytes : List ℕ) × IsReportAnswer view.entry.served.now (reported view.entry.served.now.repo (as_read reporting)) driven bytes × Appends (W.contents writer.old) (W.contents writer.new) bytes) }
{
    let mut out = Vec::new(view.alloc);
    push_no_mechanism(&mut out)?;
    match reported(view, reporting) {
        Ok((wanted, report)) => {
            write_out(writer, &out)?;
            write_drive(view.alloc, view.served, &wanted, &report, texts, writer)
        }
        Err(refused) => {
            push_refused(&mut out, refused)?;
            write_out(writer, &out)?;
            Ok(Driven::Failed)
        }
    }
}

/// Takes a command of a report. What is written goes to the writer at once.
pub(crate) fn take_report<W: Write, F: Read + Seek>(
    alloc: Global,
    served: &Served,
    session: Session,
    reporting: Result<Reporting, Refused>,
    item: &[Token],
    texts: &mut F,
    writer: &mut W,
) -> Result<Phase, ServeFault>
    ensures { IfOk result (λ phase. (bytes : List ℕ) × Reports served.now session reporting item.now phase bytes × Appends (W.contents writer.old) (W.contents writer.new) bytes) }
{
    let Some((name, fields)) = command(item) else {
        return Err(ServeFault::BadCommand);
    };
    let view = View {
        alloc,
        served,
        session: &session,
    };
    if name == b"finish-report".as_slice() {
        let driven = drive(view, reporting, texts, writer)?;
        return Ok(after_drive(session, driven));
    }
    if name == b"abort-report".as_slice() {
        let mut out = Vec::new(alloc);
        push_done(&mut out)?;
        write_out(writer, &out)?;
        return Ok(Phase::Ready(session));
    }
    let reporting = taken(view, reporting, name, fields);
    Ok(Phase::Reporting(session, reporting))
}
