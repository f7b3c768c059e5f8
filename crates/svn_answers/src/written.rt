//! The history that the commits of a script make, written as a dump.
ghost use Rattle.std.specs.Prelude.{◌≡◌, ◌≢◌, ◌+◌, ◌-◌, ◌^◌, ◌++◌, ◌∷◌, [], ℕ, List, length, min, true, false, IfErr, IfOk, OnOk, Some, None};
ghost use Rattle.std.specs.Io.KnownBytes.{Appends};
ghost use Rattle.svn_repo.specs.declared.change.CommitFault.{CommitFault};
ghost use Rattle.svn_repo.specs.Changes.{commit_fault};
ghost use Rattle.svn_script.specs.declared.command.Command.TheVariants as commands;
ghost use Rattle.svn_answers.specs.declared.written.WriteFault.TheVariants.{BadLine, Refused, Write as NotWritten};
ghost use Rattle.svn_answers.specs.Written.{Counts, DoesCommand, HasDone, IsIn, RefusesCommand, RefusesLine, ScriptHistory, dump_beginning, is_refusal, with_change};

use std::alloc::Global;
use std::io::Write;
use std::marker::Model;
use svn_history::{HistoryWriter, LoadFault, push_beginning};
use svn_repo::{Change, CommitFault, Repo};
use svn_script::{Command, LineFault, read_command, without_return};
use svn_types::Rev;
use thiserror::Error;

/// Why a line of a script isn't done.
#[derive(Clone, Copy, Debug, PartialEq, Eq, Error)]
pub enum WriteFault {
    /// It is no command. All is as it was.
    #[error("bad line")]
    BadLine,
    /// Its change can't be made; never `CommitFault::Memory`, which is `Memory`. All is as it was.
    #[error("{0}")]
    Refused(CommitFault),
    /// The output couldn't be written. What was written of it is unknown.
    #[error("write fault")]
    Write,
    /// An allocation failed. Nothing was written.
    #[error("out of memory")]
    Memory,
}

/// A history that the lines of a script make, and that is written as a dump while they make it. A contract sees it as what makes the history, and how much
/// was written.
#[derive(Drop)]
pub struct Writing {
    alloc: Global,
    writer: HistoryWriter,
    written: u64,
}

impl Model for Writing {
    ghost use Rattle.svn_answers.specs.Written.{WritingState};

    ghost Value = { WritingState };

    ghost view = { λ w. record { writer = w.writer; written = w.written } };
}

// Writes bytes, and returns how many.
fn write_bytes<W: Write>(bytes: &[u8], output: &mut W) -> Result<u64, WriteFault>
    ensures written { OnOk result (Appends (W.contents output.old) (W.contents output.new) bytes.now) }
    ensures count { IfOk result (λ n. n ≡ min (length bytes.now) (2 ^ 64 - 1)) }
    ensures fault { IfErr result (λ e. e ≡ NotWritten) }
{
    match output.write_all(bytes) {
        Ok(()) => Ok(bytes.len() as u64),
        Err(_) => Err(WriteFault::Write),
    }
}

// Why a change isn't made: that the repository refuses it, or Memory.
fn change_fault(fault: LoadFault) -> WriteFault
    ensures refused { (f : CommitFault) → result ≡ Refused f → fault ≡ LoadFault.Commit f }
    ensures which { (result ≢ BadLine) × (result ≢ NotWritten) }
{
    match fault {
        LoadFault::Commit(fault) => WriteFault::Refused(fault),
        _ => WriteFault::Memory,
    }
}

impl Writing {
    /// A history without a commit, whose beginning is written: the dump's format, and revision 0, which has nothing. Write where the writer fails,
    /// Memory where an allocation failed.
    pub fn begin<W: Write>(alloc: Global, output: &mut W) -> Result<Writing, WriteFault>
        ensures begun { IfOk result (HasDone [] dump_beginning) }
        ensures written { OnOk result (Appends (W.contents output.old) (W.contents output.new) dump_beginning) }
        ensures fault { IfErr result (λ e. is_refusal e ≡ false) }
        ensures unwritten { IfErr result (λ e. e ≢ NotWritten → output.new ≡ output.old) }
    {
        let mut beginning = Vec::new(alloc);
        let (Ok(()), Ok(repo)) = (push_beginning(&mut beginning), Repo::new(alloc)) else {
            return Err(WriteFault::Memory);
        };
        let written = write_bytes(&beginning, output)?;
        Ok(Writing {
            alloc,
            writer: HistoryWriter::new(alloc, repo),
            written,
        })
    }

    /// The newest revision that was committed.
    pub fn latest(&self) -> Rev
        ensures { result + 1 ≡ length self.now.writer.transaction.history.roots }
    {
        self.writer.latest()
    }

    /// How many bytes were written, as far as 64 bits count them.
    pub fn written(&self) -> u64
        ensures { result ≡ self.now.written }
    {
        self.written
    }

    // Makes a change.
    fn change(&mut self, change: &Change) -> Result<(), WriteFault>
        ensures made { OnOk result ((s : ScriptHistory) → IsIn s self.old.writer → IsIn (with_change s change.now) self.new.writer × (commit_fault s.history (s.pending ++ change.now ∷ []) ≡ None)) }
        ensures fault { IfErr result (λ e. (f : CommitFault) → e ≡ Refused f → (s : ScriptHistory) → IsIn s self.old.writer → commit_fault s.history (s.pending ++ change.now ∷ []) ≡ Some f) }
        ensures which { IfErr result (λ e. (e ≢ BadLine) × (e ≢ NotWritten)) }
        ensures unchanged { IfErr result (λ e. is_refusal e ≡ true → self.new ≡ self.old) }
        ensures history { self.new.writer.transaction.history ≡ self.old.writer.transaction.history }
        ensures written { self.new.written ≡ self.old.written }
    {
        match self.writer.change(change) {
            Ok(()) => Ok(()),
            Err(fault) => Err(change_fault(fault)),
        }
    }

    // Commits the changes so far, and writes the revision.
    fn commit<W: Write>(&mut self, output: &mut W) -> Result<(), WriteFault>
        ensures committed { OnOk result ((s : ScriptHistory) → IsIn s self.old.writer → (new : ScriptHistory) × (text : List ℕ) × IsIn new self.new.writer × DoesCommand commands.Commit s new text × Appends (W.contents output.old) (W.contents output.new) text × Counts (length text) self.old.written self.new.written) }
        ensures fault { IfErr result (λ e. is_refusal e ≡ false) }
        ensures unwritten { IfErr result (λ e. e ≢ NotWritten → (self.new ≡ self.old) × (output.new ≡ output.old)) }
    {
        let mut bytes = Vec::new(self.alloc);
        // its only fault is Memory
        let Ok(_) = self.writer.commit(&mut bytes) else {
            return Err(WriteFault::Memory);
        };
        let count = write_bytes(&bytes, output)?;
        self.written = self.written.saturating_add(count);
        Ok(())
    }

    // Does a command. What is no change and no commit does nothing.
    fn do_command<W: Write>(&mut self, command: &Command, output: &mut W) -> Result<(), WriteFault>
        ensures done { OnOk result ((s : ScriptHistory) → IsIn s self.old.writer → (new : ScriptHistory) × (text : List ℕ) × IsIn new self.new.writer × DoesCommand command.now s new text × Appends (W.contents output.old) (W.contents output.new) text × Counts (length text) self.old.written self.new.written) }
        ensures fault { IfErr result (λ e. (s : ScriptHistory) → IsIn s self.old.writer → RefusesCommand command.now s e) }
        ensures unchanged { IfErr result (λ e. is_refusal e ≡ true → self.new ≡ self.old) }
        ensures uncommitted { IfErr result (λ e. e ≢ NotWritten → self.new.writer.transaction.history ≡ self.old.writer.transaction.history) }
        ensures unwritten { IfErr result (λ e. e ≢ NotWritten → output.new ≡ output.old) }
    {
        match command {
            Command::Change(change) => self.change(change),
            Command::Commit => self.commit(output),
            _ => Ok(()),
        }
    }

    /// Does what a line says of the repository: a change for the next commit, or a commit, which is written as a revision. Lines about a working copy do
    /// nothing. The line has no line feed; a carriage return at its end is left out. BadLine where it is no command, Refused where its change can't be
    /// made, and then all is as it was. Write where the writer fails. Memory where an allocation failed: then the changes since the last commit may be
    /// given up, and nothing was written.
    pub fn do_line<W: Write>(&mut self, line: &[u8], output: &mut W) -> Result<(), WriteFault>
        ensures done { OnOk result ((lines : List (List ℕ)) (text : List ℕ) → HasDone lines text self.old → (more : List ℕ) × HasDone (lines ++ line.now ∷ []) (text ++ more) self.new × Appends (W.contents output.old) (W.contents output.new) more) }
        ensures fault { IfErr result (λ e. (s : ScriptHistory) → IsIn s self.old.writer → RefusesLine line.now s e) }
        ensures unchanged { IfErr result (λ e. is_refusal e ≡ true → self.new ≡ self.old) }
        ensures uncommitted { IfErr result (λ e. e ≢ NotWritten → self.new.writer.transaction.history ≡ self.old.writer.transaction.history) }
        ensures unwritten { IfErr result (λ e. e ≢ NotWritten → output.new ≡ output.old) }
    {
        match read_command(self.alloc, without_return(line)) {
            Ok(command) => self.do_command(&command, output),
            Err(LineFault::Bad) => Err(WriteFault::BadLine),
            Err(LineFault::Memory) => Err(WriteFault::Memory),
        }
    }
}
