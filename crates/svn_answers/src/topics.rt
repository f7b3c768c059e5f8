//! Questions about a working copy but for the verdict on it, and their answers.
ghost use Rattle.std.specs.Prelude.{◌≡◌, ◌≢◌, ◌++◌, ◌∷◌, [], ℕ, List, None, map, flat_map, string_bytes, string_cmp, IsPermutation, IsSorted, IfOk, IfErr, OnOk};
ghost use Rattle.std.specs.Io.KnownBytes.{Appends};
ghost use Rattle.svn_editor.specs.Lines.{call_line};
ghost use Rattle.svn_report.specs.Lines.{report_text};
ghost use Rattle.svn_model.specs.Crawl.{crawl};
ghost use Rattle.svn_model.specs.Checks.{target_fault};
ghost use Rattle.svn_model.specs.Nodes.{InPathOrder, get_in, node_revision};
ghost use Rattle.svn_wc.specs.Lines.{copy_text};
ghost use Rattle.svn_audit.specs.Lines.{update_lines};
ghost use Rattle.svn_audit.specs.Printing.{line_text};
ghost use Rattle.svn_answers.specs.declared.topic.TopicFault.TheVariants.{Memory, Write as NotWritten};
ghost use Rattle.std.specs.Option.{option_copied};
ghost use Rattle.svn_answers.specs.Topics.{AreUpdated, IsCallsFault, IsNodesFault, IsToldFault, IsToldText, IsTopicFault, IsTopicText, calls_text, calls_to, fault_to, input_to, line, of_drive, or_latest};

use crate::deletion::{Deletion, write_deletion};
use crate::laws::updates_lead_to_targets;
use crate::topic::{Topic, TopicFault};
use std::alloc::Global;
use std::io::Write;
use svn_audit::update_lines;
use svn_drive::{Request, drive_request};
use svn_editor::{Call, EditFault, Recorder};
use svn_model::{BaseNode, DriveFault};
use svn_repo::Repo;
use svn_report::Report;
use svn_types::{Name, RelPath, Rev};
use svn_wc::{Applier, WorkingCopy};

/// The revision that an update goes to.
pub(crate) fn or_latest(repo: &Repo, rev: Option<Rev>) -> Rev
    ensures { result ≡ or_latest repo.now rev }
{
    match rev {
        Some(rev) => rev,
        None => repo.latest(),
    }
}

fn crawled(alloc: Global, copy: &WorkingCopy) -> Result<Report, TopicFault>
    ensures report { IfOk result (λ r. r ≡ crawl copy.now) }
    ensures fault { IfErr result (λ e. e ≡ Memory) }
{
    match copy.crawl(alloc) {
        Ok(report) => Ok(report),
        Err(_) => Err(TopicFault::Memory),
    }
}

fn drive_fault(fault: DriveFault) -> TopicFault
    ensures { result ≡ of_drive fault }
{
    match fault {
        DriveFault::Memory | DriveFault::Editor(EditFault::Memory) => TopicFault::Memory,
        fault => TopicFault::Drive(fault),
    }
}

// The calls of an update.
fn calls_to(
    alloc: Global,
    repo: &Repo,
    copy: &WorkingCopy,
    rev: Option<Rev>,
) -> Result<Vec<Call>, TopicFault>
    ensures calls { IfOk result (λ calls. calls.items ≡ calls_to repo.now copy.now rev) }
    ensures there { OnOk result (target_fault (input_to repo.now copy.now rev) ≡ None) }
    ensures fault { IfErr result (IsCallsFault repo.now copy.now rev) }
{
    let report = crawled(alloc, copy)?;
    let request = Request::update(or_latest(repo, rev));
    let mut recorder = Recorder::new(alloc);
    match drive_request(alloc, repo, &report, &request, &mut recorder) {
        Ok(_) => Ok(recorder.into_calls()),
        Err(fault) => Err(drive_fault(fault)),
    }
}

// The lines of an update of a copy, in byte order.
fn sorted_lines(
    alloc: Global,
    copy: &WorkingCopy,
    calls: &[Call],
) -> Result<Vec<String>, TopicFault>
    ensures same { IfOk result (λ lines. IsPermutation (map line_text (update_lines (get_in copy.now) calls.now)) (map string_bytes lines.items)) }
    ensures sorted { IfOk result (λ lines. IsSorted string_cmp lines.items) }
    ensures fault { IfErr result (λ e. e ≡ Memory) }
{
    let mut texts = Vec::new(alloc);
    for line in &update_lines(alloc, copy, calls)? {
        texts.push(format!(in alloc; "{line}")?)?;
    }
    texts.sort_unstable();
    Ok(texts)
}

/// Writes calls, a line each.
pub(crate) fn write_calls<W: Write>(calls: &[Call], output: &mut W) -> Result<(), TopicFault>
    ensures written { OnOk result (Appends (W.contents output.old) (W.contents output.new) (calls_text calls.now)) }
    ensures fault { IfErr result (λ e. e ≡ NotWritten) }
{
    for call in calls {
        if writeln!(output, "{call}").is_err() {
            return Err(TopicFault::Write);
        }
    }
    Ok(())
}

// Writes texts, a line each.
fn write_lines<W: Write>(texts: &[String], output: &mut W) -> Result<(), TopicFault>
    ensures written { OnOk result (Appends (W.contents output.old) (W.contents output.new) (flat_map (λ s. line (string_bytes s)) texts.now)) }
    ensures fault { IfErr result (λ e. e ≡ NotWritten) }
{
    for text in texts {
        if writeln!(output, "{text}").is_err() {
            return Err(TopicFault::Write);
        }
    }
    Ok(())
}

fn write_report<W: Write>(report: &Report, output: &mut W) -> Result<(), TopicFault>
    ensures written { OnOk result (Appends (W.contents output.old) (W.contents output.new) (report_text report.now)) }
    ensures fault { IfErr result (λ e. e ≡ NotWritten) }
{
    match write!(output, "{report}") {
        Ok(()) => Ok(()),
        Err(_) => Err(TopicFault::Write),
    }
}

fn write_nodes<W: Write>(copy: &WorkingCopy, output: &mut W) -> Result<(), TopicFault>
    ensures written { OnOk result (Appends (W.contents output.old) (W.contents output.new) (copy_text copy.now)) }
    ensures in_order { InPathOrder copy.now }
    ensures fault { IfErr result (λ e. e ≡ NotWritten) }
{
    copy.law();
    match write!(output, "{copy}") {
        Ok(()) => Ok(()),
        Err(_) => Err(TopicFault::Write),
    }
}

// Updates a copy, and writes its nodes.
fn write_updated<W: Write>(
    alloc: Global,
    repo: &Repo,
    copy: &mut WorkingCopy,
    rev: Option<Rev>,
    output: &mut W,
) -> Result<(), TopicFault>
    ensures written { OnOk result ((text : List ℕ) × AreUpdated repo.now copy.old rev text × Appends (W.contents output.old) (W.contents output.new) text) }
    ensures there { OnOk result (target_fault (input_to repo.now copy.old rev) ≡ None) }
    ensures fault { IfErr result (λ e. e ≢ NotWritten → IsNodesFault repo.now copy.old rev e) }
    ensures unwritten { IfErr result (λ e. e ≢ NotWritten → Appends (W.contents output.old) (W.contents output.new) []) }
{
    updates_lead_to_targets(repo, copy);
    let report = crawled(alloc, copy)?;
    let request = Request::update(or_latest(repo, rev));
    let Ok(mut applier) = Applier::new(alloc, copy) else {
        return Err(TopicFault::Memory);
    };
    match drive_request(alloc, repo, &report, &request, &mut applier) {
        Ok(_) => write_nodes(applier.copy(), output),
        Err(fault) => Err(drive_fault(fault)),
    }
}

// Writes what is asked of a copy, and leaves it to the caller to flush it.
fn write_unflushed<W: Write>(
    alloc: Global,
    repo: &Repo,
    copy: &mut WorkingCopy,
    topic: Topic,
    output: &mut W,
) -> Result<(), TopicFault>
    ensures told { OnOk result ((text : List ℕ) × IsTopicText repo.now copy.old topic text × Appends (W.contents output.old) (W.contents output.new) text) }
    ensures there { OnOk result (fault_to repo.now copy.old topic ≡ None) }
    ensures fault { IfErr result (λ e. e ≢ NotWritten → IsTopicFault repo.now copy.old topic e) }
    ensures unwritten { IfErr result (λ e. e ≢ NotWritten → Appends (W.contents output.old) (W.contents output.new) []) }
{
    match topic {
        Topic::Report => write_report(&crawled(alloc, copy)?, output),
        Topic::Update(rev) => {
            let calls = calls_to(alloc, repo, copy, rev)?;
            let lines = sorted_lines(alloc, copy, &calls)?;
            write_lines(&lines, output)
        }
        Topic::Calls(rev) => {
            let calls = calls_to(alloc, repo, copy, rev)?;
            write_calls(&calls, output)
        }
        Topic::Nodes(rev) => write_updated(alloc, repo, copy, rev, output),
    }
}

// The revision of a copy's root.
fn root_revision(alloc: Global, copy: &WorkingCopy) -> Rev
    ensures { result ≡ node_revision (get_in copy.now []) }
{
    match copy.get(&RelPath::root(alloc)) {
        Some(BaseNode::File { rev, .. } | BaseNode::Dir { rev, .. }) => *rev,
        Some(BaseNode::NotPresent) | None => Rev(0),
    }
}

/// What is told of a copy.
#[derive(Clone, Copy)]
pub struct Told<'a> {
    /// What.
    pub topic: Topic,
    /// The entry that the copy's folder is of the directory above it, if an update of that may delete it.
    pub entry: Option<&'a Name>,
}

// Writes what is asked of a copy, or of its deletion.
fn write_told<W: Write>(
    alloc: Global,
    repo: &Repo,
    copy: &mut WorkingCopy,
    told: &Told<'_>,
    output: &mut W,
) -> Result<(), TopicFault>
    ensures told { OnOk result ((text : List ℕ) × IsToldText repo.now copy.old (option_copied told.now.entry) told.now.topic text × Appends (W.contents output.old) (W.contents output.new) text) }
    ensures fault { IfErr result (λ e. e ≢ NotWritten → IsToldFault repo.now copy.old (option_copied told.now.entry) told.now.topic e) }
    ensures unwritten { IfErr result (λ e. e ≢ NotWritten → Appends (W.contents output.old) (W.contents output.new) []) }
{
    let base = root_revision(alloc, copy);
    match write_unflushed(alloc, repo, copy, told.topic, output) {
        Ok(()) => Ok(()),
        Err(fault) => match told.entry {
            Some(name) if fault.is_gone() => {
                write_deletion(alloc, repo, &Deletion { name, base }, told.topic, output)
            }
            _ => Err(fault),
        },
    }
}

/// Writes what is asked of a copy, and flushes it. With [`Topic::Nodes`] the copy is updated. Where the target has nothing at the path of a folder that
/// is an entry of the directory above it, it is told of the deletion of that entry. Refused as [`drive_request`] refuses the update; Write where
/// the writer fails, Memory where an allocation failed.
pub fn write_topic<W: Write>(
    alloc: Global,
    repo: &Repo,
    copy: &mut WorkingCopy,
    told: &Told<'_>,
    output: &mut W,
) -> Result<(), TopicFault>
    ensures told { OnOk result ((text : List ℕ) × IsToldText repo.now copy.old (option_copied told.now.entry) told.now.topic text × Appends (W.contents output.old) (W.contents output.new) text) }
    ensures fault { IfErr result (λ e. e ≢ NotWritten → IsToldFault repo.now copy.old (option_copied told.now.entry) told.now.topic e) }
    ensures unwritten { IfErr result (λ e. e ≢ NotWritten → Appends (W.contents output.old) (W.contents output.new) []) }
{
    write_told(alloc, repo, copy, told, output)?;
    match output.flush() {
        Ok(()) => Ok(()),
        Err(_) => Err(TopicFault::Write),
    }
}
