//! What a run does before its first call and after its last, on one thread and on two.
ghost use Rattle.std.specs.Prelude.{◌≡◌, [], true, IfOk, IfErr, OnErr};
ghost use Rattle.std.specs.Option.{option_copied};
ghost use Rattle.svn_drive.specs.declared.request.Request.{Request as Requested};
ghost use Rattle.svn_editor.specs.declared.mode.Mode.TheVariants.{SwitchTo};
ghost use Rattle.svn_model.specs.Nodes.{get_in, is_dir, InPathOrder, IsTrueOf};
ghost use Rattle.svn_run.specs.Beginning.{fault_at, switched_to, IsBegun};
ghost use Rattle.svn_run.specs.Knowing.{known_after, IsEnding};
ghost use Rattle.svn_run.specs.UpdateTheorem.{asked, fault_in_turn};

use crate::carrier::Carrier;
use crate::laws::{laws, true_copy};
use crate::outcome::{Outcome, RunFault};
use std::alloc::Global;
use std::mem;
use svn_drive::{Request, fault_between};
use svn_edit::Pending;
use svn_editor::Mode;
use svn_repo::Repo;
use svn_report::Report;
use svn_types::{Props, RelPath, Rev};
use svn_wc::{BaseNode, Known, LooseCopy, WorkingCopy};

/// A run before its first call: what the copy reports, an edit with the copy's nodes, and what the copy knew of them.
#[derive(Drop)]
pub(crate) struct Begun<'r> {
    pub(crate) report: Report,
    pub(crate) carrier: Carrier<'r>,
    pub(crate) known: Known,
}

// Why no run leads to a target, by the node of the copy's root and the path that a switch leads to.
fn fault_at_root(
    alloc: Global,
    repo: &Repo,
    copy: &WorkingCopy,
    target: Rev,
    to: Option<&RelPath>,
) -> Option<RunFault>
    requires root { is_dir (get_in copy.now []) ≡ true }
    ensures { result ≡ fault_at repo.now target (option_copied to.entry) (get_in copy.now []) }
{
    let root = RelPath::root(alloc);
    let Some(
        BaseNode::Dir {
            rev,
            repos_path,
            ..
        },
    ) = copy.get(&root)
    else {
        return None;
    };
    let there = match to {
        Some(to) => repo.lookup(target, to),
        None => repo.lookup(target, repos_path),
    };
    match fault_between(repo, target, repo.lookup(*rev, repos_path), there) {
        Some(fault) => Some(RunFault::from(fault)),
        None => None,
    }
}

/// Why no update, or no switch to that path, leads to the target: there is no such revision, nothing is where the root would be, or a node that
/// isn't related. It takes no memory: the path isn't cloned before this is known.
pub(crate) fn target_fault(
    alloc: Global,
    repo: &Repo,
    copy: &WorkingCopy,
    target: Rev,
    to: Option<&RelPath>,
) -> Option<RunFault>
    requires truth { IsTrueOf repo.now (get_in copy.now) }
    ensures { (w : Requested) → w.target ≡ target → switched_to w.mode ≡ option_copied to.entry → result ≡ fault_in_turn (asked repo.now copy.now w) }
{
    laws();
    true_copy(repo, copy);
    fault_at_root(alloc, repo, copy, target, to)
}

/// The path that a switch leads to.
pub(crate) fn switched_to(mode: &Mode) -> Option<&RelPath>
    ensures { switched_to mode.now ≡ option_copied result }
{
    match mode {
        Mode::Update => None,
        Mode::SwitchTo(to) => Some(to),
    }
}

/// The mode of a switch to a path. The only fault is Memory.
pub(crate) fn switch_mode(to: &RelPath) -> Result<Mode, RunFault>
    ensures mode { IfOk result (λ m. m ≡ SwitchTo to.now) }
    ensures memory { IfErr result (λ e. e ≡ RunFault.Memory) }
{
    match to.clone() {
        Ok(to) => Ok(Mode::SwitchTo(to)),
        Err(_) => Err(RunFault::Memory),
    }
}

// A copy that has no node but its root. The only fault is Memory.
fn spare_copy(alloc: Global) -> Result<WorkingCopy, RunFault>
    ensures { IfErr result (λ e. e ≡ RunFault.Memory) }
{
    let root = BaseNode::Dir {
        rev: Rev(0),
        repos_path: RelPath::root(alloc),
        complete: false,
        props: Props::new(alloc),
    };
    let mut nodes = Vec::new(alloc);
    if nodes.push((RelPath::root(alloc), root)).is_err() {
        return Err(RunFault::Memory);
    }
    match WorkingCopy::from_nodes(alloc, nodes) {
        Ok(copy) => Ok(copy),
        Err(_) => Err(RunFault::Memory),
    }
}

/// Begins a run: the copy is crawled, and its nodes are taken out of it, for the calls to change. Until the run ends, a copy of a root alone is in
/// its place. The only fault is Memory, after which the copy is as it was.
pub(crate) fn begin<'r>(
    alloc: Global,
    copy: &mut WorkingCopy,
    request: &'r Request,
) -> Result<Begun<'r>, RunFault>
    ensures begun { IfOk result (λ b. IsBegun copy.old request.now.mode b) }
    ensures memory { IfErr result (λ e. e ≡ RunFault.Memory) }
    ensures unchanged { OnErr result (copy.new ≡ copy.old) }
{
    let Ok(report) = copy.crawl_and_learn(alloc) else {
        return Err(RunFault::Memory);
    };
    let Ok(pending) = Pending::new(alloc) else {
        return Err(RunFault::Memory);
    };
    let Ok(spare) = spare_copy(alloc) else {
        return Err(RunFault::Memory);
    };
    let (loose, known) = mem::replace(copy, spare).loosen();
    let carrier = Carrier {
        alloc,
        mode: &request.mode,
        pending,
        copy: loose,
    };
    Ok(Begun {
        report,
        carrier,
        known,
    })
}

// What is known once a run ended, by what was known of the copy before.
fn known_after(was: Known, mode: &Mode, outcome: &Outcome) -> Known
    ensures { result ≡ known_after was mode.now outcome.now }
{
    let is_closed = outcome.is_closed();
    match mode {
        Mode::Update => Known {
            unswitched: was.unswitched,
            level: is_closed,
        },
        Mode::SwitchTo(_) => Known {
            unswitched: is_closed,
            level: is_closed,
        },
    }
}

/// Ends a run: a copy of the nodes that its calls left.
pub(crate) fn end(left: LooseCopy, was: Known, mode: &Mode, outcome: &Outcome) -> WorkingCopy
    requires { IsEnding left.nodes.entries (known_after was mode.now outcome.now) }
    ensures nodes { result ≡ left.nodes.entries }
    ensures order { InPathOrder result }
{
    let copy = left.tie(known_after(was, mode, outcome));
    copy.law();
    copy
}
