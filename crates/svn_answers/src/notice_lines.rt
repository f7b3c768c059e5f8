//! Notices as lines of standard error.
ghost use Rattle.std.specs.Prelude.{◌≡◌, ◌||◌, false, IfSome, OnOk, option_map};
ghost use Rattle.std.specs.Result.{is_err};
ghost use Rattle.std.specs.Io.KnownBytes.{Appends};
ghost use Rattle.svn_answers.specs.declared.notices.Notice.TheVariants.{Unanswered};
ghost use Rattle.svn_answers.specs.NoticeLines.{WritesText, fault_line, is_copy_memory, is_out_of_memory, notice_line, passed_over_line};
ghost use Rattle.svn_answers.specs.PassedOver.{passed_over_text};

use crate::copies::Copies;
use crate::examination::ExaminerFault;
use crate::fault::{CopyFault, TellFault};
use crate::notices::{Notice, Notices};
use crate::passed_over::PassedOver;
use crate::source::Source;
use crate::topic::TopicFault;
use std::io::Write;
use std::{fmt, io};
use svn_disk_audit::{AuditFault, RepositoryFault};
use svn_wcdb::Notes;

/// Writes each notice as a line, and flushes it. Where it can't be written, the answer alone tells.
#[derive(Drop)]
pub struct WrittenNotices<'a, C, W> {
    /// What opens the copies, and knows which of its faults are failed allocations.
    pub copies: &'a C,
    /// Where the lines are written.
    pub output: W,
    /// Whether a line couldn't be written.
    pub failed: bool,
}

impl<'a, C, W> WrittenNotices<'a, C, W> {
    /// Of copies, with nothing written yet.
    pub fn new(copies: &'a C, output: W) -> WrittenNotices<'a, C, W>
        ensures { result ≡ record { copies = copies.entry; output = output; failed = false } }
    {
        WrittenNotices {
            copies,
            output,
            failed: false,
        }
    }
}

fn is_copy_memory<C: Copies>(copies: &C, fault: &CopyFault<C::Fault>) -> bool
    ensures { result ≡ is_copy_memory (C.lacks_memory copies.now) fault.now }
{
    match fault {
        CopyFault::Refused(fault) => copies.is_memory(fault),
        CopyFault::Audit(AuditFault::Memory) => true,
        CopyFault::Audit(AuditFault::Examiner(ExaminerFault::Copy(fault))) => {
            copies.is_memory(fault)
        }
        CopyFault::Audit(AuditFault::Examiner(ExaminerFault::Repository(fault))) => {
            matches!(fault, RepositoryFault::Memory)
        }
        CopyFault::Audit(_) | CopyFault::Early(_) | CopyFault::Untold(_) => false,
    }
}

// Whether an allocation failed: then it isn't a fault of the copy.
fn is_memory<C: Copies>(copies: &C, fault: &TellFault<C::Fault>) -> bool
    ensures { result ≡ is_out_of_memory (C.lacks_memory copies.now) fault.now }
{
    match fault {
        TellFault::Copy(fault) => is_copy_memory(copies, fault),
        TellFault::Topic(fault) => matches!(fault, TopicFault::Memory),
        TellFault::Untrue(_) => false,
    }
}

// Writes the line of a fault.
fn write_line<D: fmt::Display, W: Write>(
    name: Source<'_>,
    fault: &D,
    output: &mut W,
) -> io::Result<()>
    ensures { OnOk result (IfSome (option_map (fault_line name.entry.0.now) (D.output fault.now)) (Appends (W.contents output.old) (W.contents output.new))) }
{
    writeln!(output, "svnaudit: {name}: {fault}")
}

// Writes what was passed over.
fn write_passed_over<W: Write>(name: Source<'_>, notes: Notes, output: &mut W) -> io::Result<()>
    ensures { OnOk result (Appends (W.contents output.old) (W.contents output.new) (passed_over_line name.entry.0.now (passed_over_text notes))) }
{
    let passed_over = PassedOver(notes);
    writeln!(output, "svnaudit: {name}: passed over: {passed_over}")
}

// Writes why a copy has no answer.
fn write_fault<C: Copies, W: Write>(
    copies: &C,
    name: Source<'_>,
    fault: &TellFault<C::Fault>,
    output: &mut W,
) -> io::Result<()>
    ensures { OnOk result (IfSome (notice_line (C.lacks_memory copies.now) ⟦<TellFault<C::Fault> as fmt::Display>⟧.output name.entry.0.now (Unanswered fault.now)) (Appends (W.contents output.old) (W.contents output.new))) }
{
    if is_memory(copies, fault) {
        writeln!(output, "svnaudit: out of memory")
    } else {
        write_line(name, fault, output)
    }
}

// Writes a notice.
fn write_notice<C: Copies, W: Write>(
    copies: &C,
    name: Source<'_>,
    notice: &Notice<C::Fault>,
    output: &mut W,
) -> io::Result<()>
    ensures { OnOk result (IfSome (notice_line (C.lacks_memory copies.now) ⟦<TellFault<C::Fault> as fmt::Display>⟧.output name.entry.0.now notice.now) (Appends (W.contents output.old) (W.contents output.new))) }
{
    match notice {
        Notice::PassedOver(notes) => write_passed_over(name, *notes, output),
        Notice::Unanswered(fault) => write_fault(copies, name, fault, output),
    }
}

// Writes a notice, and flushes it.
fn write_flushed<C: Copies, W: Write>(
    copies: &C,
    word: &str,
    notice: &Notice<C::Fault>,
    output: &mut W,
) -> io::Result<()>
    ensures { OnOk result (IfSome (notice_line (C.lacks_memory copies.now) ⟦<TellFault<C::Fault> as fmt::Display>⟧.output word.now notice.now) (Appends (W.contents output.old) (W.contents output.new))) }
{
    write_notice(copies, Source(word), notice, output)?;
    output.flush()
}

// Whether a line couldn't be written, before or now.
fn has_failed(before: bool, written: &io::Result<()>) -> bool
    ensures { result ≡ (before || is_err written.now) }
{
    before || written.is_err()
}

impl<C: Copies, W: Write> Notices<C::Fault> for WrittenNotices<'_, C, W> {
    ghost hears = { λ old word notice new. (new.copies ≡ old.copies) × WritesText old.failed (W.contents old.output) new.failed (W.contents new.output) (notice_line (C.lacks_memory old.copies.now) ⟦<TellFault<C::Fault> as fmt::Display>⟧.output word notice) };

    fn hear(&mut self, word: &str, notice: &Notice<C::Fault>) {
        let written = write_flushed(self.copies, word, notice, &mut self.output);
        self.failed = has_failed(self.failed, &written);
    }
}
