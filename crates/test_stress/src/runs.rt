//! Updates and switches of the whole copy: what the model expects, and what the library does.

use crate::checked::{Checked, Promise};
use crate::counts::RunCounts;
use crate::plain::{
    Act, BaseTree, Edition, Facts, Fault, History, PlainPath, Request, TargetFault, Tokens, crawl,
    drive as acts_of, line, result,
};
use crate::real;
use crate::step::Run;
use crate::stop::{Result, Stop, holds};
use crate::world::World;
use std::alloc::Global;
use std::sync::Wait;
use std::thread::Threads;
use svn_drive::{DriveOptions, drive, drive_switch};
use svn_editor::{Call, Recorder};
use svn_link::Settled;
use svn_report::Report;
use svn_update::{
    Cause, NoGate, Options, Outcome, Repo, Rev, RunFault, WorkingCopy, switch_to,
    switch_to_in_turn, update, update_in_turn,
};

// What a run must do: the calls between the first and the last, after how many calls it is stopped, the copy that it leaves,
// and the one that it leaves if it isn't stopped.
#[derive(Drop)]
struct Plan {
    acts: Vec<Act>,
    stop: Option<u64>,
    left: BaseTree,
    result: BaseTree,
}

// All calls, the first and the last included.
fn total(acts: &[Act]) -> u64 {
    (acts.len() as u64).saturating_add(2)
}

impl Plan {
    fn outcome(&self) -> Outcome {
        match self.stop {
            Some(calls) => Outcome::Aborted {
                made: calls,
                accepted: calls,
                late: None,
                cause: Cause::Cancelled,
            },
            None => Outcome::Closed {
                calls: total(&self.acts),
            },
        }
    }
}

fn run_fault(fault: TargetFault) -> RunFault {
    match fault {
        TargetFault::NoSuchRevision => RunFault::NoSuchRevision,
        TargetFault::NoRoot => RunFault::NoRoot,
        TargetFault::OtherRoot => RunFault::OtherRoot,
    }
}

impl Run {
    // What the model says of each path, or why the run can't begin.
    fn facts(
        &self,
        alloc: Global,
        history: &History,
        tree: &BaseTree,
    ) -> Result<Result<Vec<Facts>, RunFault>> {
        let report = crawl(alloc, tree)?;
        let request = Request {
            history,
            report: &report,
            target: self.rev,
            to: self.to,
        };
        match request.fault() {
            Some(fault) => Ok(Err(run_fault(fault))),
            None => Ok(Ok(request.all_facts(alloc, tree)?)),
        }
    }

    // After how many of the calls it is stopped, if it is.
    fn stop(&self, acts: &[Act]) -> Option<u64> {
        match self.cancel_after {
            Some(calls) if calls < total(acts) => Some(calls),
            _ => None,
        }
    }

    // The copy after that many calls (the first changes nothing); all of them where there is no number.
    fn left_by(&self, tree: &BaseTree, acts: &[Act], stop: Option<u64>) -> Result<BaseTree, Fault> {
        let edition = Edition {
            target: self.rev,
            to: self.to,
        };
        match stop {
            Some(calls) => edition.after(tree, acts, calls.saturating_sub(1) as usize),
            None => {
                let all = edition.after(tree, acts, acts.len())?;
                edition.closed(&all)
            }
        }
    }

    fn plan(&self, alloc: Global, tree: &BaseTree, facts: &[Facts]) -> Result<Plan> {
        let acts = acts_of(alloc, facts, self.is_late)?;
        let stop = self.stop(&acts);
        let left = self.left_by(tree, &acts, stop)?;
        let result = result(alloc, facts, self.rev)?;
        Ok(Plan {
            acts,
            stop,
            left,
            result,
        })
    }
}

fn make_plan(
    alloc: Global,
    history: &History,
    tree: &BaseTree,
    run: &Run,
) -> Result<Result<Plan, RunFault>> {
    match run.facts(alloc, history, tree)? {
        Ok(facts) => Ok(Ok(run.plan(alloc, tree, &facts)?)),
        Err(fault) => Ok(Err(fault)),
    }
}

// Records the calls that the driver makes for a report.
fn record(
    alloc: Global,
    repo: &Repo,
    report: &Report,
    run: &Run,
    recorder: &mut Recorder,
) -> Result<()> {
    let target = Rev(run.rev);
    let options = DriveOptions {
        cancel_after: None,
        late_texts: run.is_late,
    };
    match run.to {
        Some(to) => {
            let to = real::path(alloc, to)?;
            drive_switch(alloc, repo, report, &to, target, options, recorder)?;
        }
        None => {
            drive(alloc, repo, report, target, options, recorder)?;
        }
    }
    Ok(())
}

// The calls that the driver makes for what the copy reports.
fn recorded(alloc: Global, repo: &Repo, copy: &WorkingCopy, run: &Run) -> Result<Recorder> {
    let report = copy.crawl(alloc)?;
    let mut recorder = Recorder::new(alloc);
    record(alloc, repo, &report, run, &mut recorder)?;
    Ok(recorder)
}

fn lacks(alloc: Global, expected: &str) -> Result<()> {
    Err(Stop::Differs(format!(in alloc; "the drive lacks {expected}")?))
}

fn is_call(alloc: Global, call: &Call, expected: &str) -> Result<()> {
    let made = format!(in alloc; "{call}")?;
    if made.as_str() == expected {
        return Ok(());
    }
    Err(Stop::Differs(format!(in alloc; "the drive has {made}, not {expected}")?))
}

fn compare_call(alloc: Global, call: Option<&Call>, expected: &str) -> Result<()> {
    match call {
        Some(call) => is_call(alloc, call, expected),
        None => lacks(alloc, expected),
    }
}

// Whether there are as many calls as the model has.
fn compare_count(alloc: Global, calls: &[Call], acts: &[Act]) -> Result<()> {
    let (made, expected) = (calls.len() as u64, total(acts));
    if made == expected {
        return Ok(());
    }
    Err(Stop::Differs(format!(in alloc; "the drive has {made} calls, not {expected}")?))
}

fn compare_first(alloc: Global, calls: &[Call], rev: u64) -> Result<()> {
    let expected = format!(in alloc; "set_target_revision {rev}")?;
    compare_call(alloc, calls.first(), expected.as_str())
}

fn compare_act(alloc: Global, tokens: &mut Tokens, call: &Call, act: &Act) -> Result<()> {
    let expected = line(alloc, tokens, act)?;
    is_call(alloc, call, expected.as_str())
}

// The calls between the first and the last.
fn compare_acts(alloc: Global, calls: &[Call], acts: &[Act]) -> Result<()> {
    let mut tokens = Tokens::new(alloc);
    for (act, call) in acts.iter().zip(calls.iter().skip(1)) {
        compare_act(alloc, &mut tokens, call, act)?;
    }
    Ok(())
}

// The calls of the driver compared with those of the model, line by line.
fn compare_drive(alloc: Global, calls: &[Call], acts: &[Act], rev: u64) -> Result<()> {
    compare_count(alloc, calls, acts)?;
    compare_first(alloc, calls, rev)?;
    compare_acts(alloc, calls, acts)?;
    compare_call(alloc, calls.last(), "close_edit")
}

// How a run ended, and how many calls went through its queue, if it had one.
#[derive(Clone, Copy)]
struct Ended {
    outcome: Outcome,
    passed: Option<(u64, u64)>,
}

fn update_turned(
    alloc: Global,
    repo: &Repo,
    copy: &mut WorkingCopy,
    run: &Run,
) -> Result<Result<Outcome, RunFault>> {
    if copy.check_true(repo).is_err() {
        return Err(Stop::Fault("the copy isn't true"));
    }
    let (cancel_after, is_late) = (run.cancel_after, run.is_late);
    Ok(update_in_turn(alloc, repo, copy, Rev(run.rev), cancel_after, is_late))
}

fn switch_turned(
    alloc: Global,
    repo: &Repo,
    copy: &mut WorkingCopy,
    run: &Run,
    to: PlainPath,
) -> Result<Result<Outcome, RunFault>> {
    let to = real::path(alloc, to)?;
    if copy.check_true(repo).is_err() {
        return Err(Stop::Fault("the copy isn't true"));
    }
    let (cancel_after, is_late) = (run.cancel_after, run.is_late);
    Ok(switch_to_in_turn(alloc, repo, copy, &to, Rev(run.rev), cancel_after, is_late))
}

fn turned(answer: Result<Outcome, RunFault>) -> Result<Ended, RunFault> {
    Ok(Ended {
        outcome: answer?,
        passed: None,
    })
}

fn run_in_turn(
    alloc: Global,
    repo: &Repo,
    copy: &mut WorkingCopy,
    run: &Run,
) -> Result<Result<Ended, RunFault>> {
    let answer = match run.to {
        Some(to) => switch_turned(alloc, repo, copy, run, to)?,
        None => update_turned(alloc, repo, copy, run)?,
    };
    Ok(turned(answer))
}

fn threaded(answer: Result<(Outcome, Settled), RunFault>) -> Result<Ended, RunFault> {
    let (outcome, settled) = answer?;
    Ok(Ended {
        outcome,
        passed: Some((settled.sent, settled.taken)),
    })
}

fn update_threaded<R: Threads + Wait + Sync>(
    rt: &R,
    alloc: Global,
    repo: &Repo,
    copy: &mut WorkingCopy,
    rev: Rev,
    options: Options,
) -> Result<Result<Ended, RunFault>> {
    if copy.check_true(repo).is_err() {
        return Err(Stop::Fault("the copy isn't true"));
    }
    Ok(threaded(update(rt, alloc, repo, copy, rev, options, &NoGate)))
}

fn switch_threaded<R: Threads + Wait + Sync>(
    rt: &R,
    alloc: Global,
    repo: &Repo,
    copy: &mut WorkingCopy,
    to: PlainPath,
    rev: Rev,
    options: Options,
) -> Result<Result<Ended, RunFault>> {
    let to = real::path(alloc, to)?;
    if copy.check_true(repo).is_err() {
        return Err(Stop::Fault("the copy isn't true"));
    }
    Ok(threaded(switch_to(rt, alloc, repo, copy, &to, rev, options, &NoGate)))
}

fn run_in_threads<R: Threads + Wait + Sync>(
    rt: &R,
    alloc: Global,
    repo: &Repo,
    copy: &mut WorkingCopy,
    run: &Run,
    capacity: usize,
) -> Result<Result<Ended, RunFault>> {
    let options = Options {
        capacity,
        cancel_after: run.cancel_after,
        late_texts: run.is_late,
    };
    match run.to {
        Some(to) => switch_threaded(rt, alloc, repo, copy, to, Rev(run.rev), options),
        None => update_threaded(rt, alloc, repo, copy, Rev(run.rev), options),
    }
}

fn compare_passed(alloc: Global, passed: Option<(u64, u64)>, calls: u64) -> Result<()> {
    match passed {
        Some((sent, taken)) if sent != calls || taken != calls => {
            Err(Stop::Differs(format!(in alloc;
                "{sent} calls were sent, {taken} taken, not {calls}"
            )?))
        }
        _ => Ok(()),
    }
}

fn compare_outcome(alloc: Global, ended: Ended, expected: Outcome) -> Result<()> {
    let outcome = ended.outcome;
    if outcome != expected {
        return Err(Stop::Differs(format!(in alloc; "the run ends {outcome:?}, not {expected:?}")?));
    }
    // `AbortEdit` passes too
    let calls = match expected {
        Outcome::Closed { calls } => calls,
        Outcome::Aborted { made, .. } => made.saturating_add(1),
    };
    compare_passed(alloc, ended.passed, calls)
}

fn other_refusal(alloc: Global, fault: RunFault, expected: RunFault) -> Result<()> {
    Err(Stop::Differs(format!(in alloc; "the run is refused {fault:?}, not {expected:?}")?))
}

fn no_refusal(alloc: Global, expected: RunFault) -> Result<()> {
    Err(Stop::Differs(format!(in alloc; "the run isn't refused: {expected:?}")?))
}

fn compare_refusal(
    alloc: Global,
    answer: Result<Ended, RunFault>,
    expected: RunFault,
) -> Result<()> {
    match answer {
        Err(fault) if fault == expected => Ok(()),
        Err(fault) => other_refusal(alloc, fault, expected),
        Ok(_) => no_refusal(alloc, expected),
    }
}

impl Checked {
    // Whether a run before was stopped on its way to where this one goes.
    fn resumes(&self, run: &Run) -> bool {
        match &self.promise {
            Some(promise) => promise.to == run.to && promise.rev == run.rev,
            None => false,
        }
    }

    // What a run that wasn't stopped owes to a stopped one before it.
    fn breaks_promise(&self, run: &Run, plan: &Plan) -> bool {
        match &self.promise {
            Some(promise) if self.resumes(run) => promise.result != plan.result,
            _ => false,
        }
    }

    // The model's own two ways to the end: the calls one after the other, and the result of the paths.
    fn compare_plan(&self, alloc: Global, run: &Run, plan: &Plan) -> Result<()> {
        let is_one = plan.stop.is_some() || plan.left == plan.result;
        holds(
            alloc,
            is_one,
            "the calls of the model lead elsewhere than its result",
        )?;
        holds(
            alloc,
            !self.breaks_promise(run, plan),
            "a resumed run ends otherwise than the stopped one would have",
        )
    }

    // The calls and the ends that are expected of a run that can begin.
    fn compare_begin(&self, alloc: Global, repo: &Repo, run: &Run, plan: &Plan) -> Result<()> {
        self.compare_plan(alloc, run, plan)?;
        let recorder = recorded(alloc, repo, &self.copy, run)?;
        compare_drive(alloc, recorder.calls(), &plan.acts, run.rev)
    }

    // What the model has after a run.
    fn settle(&mut self, run: &Run, plan: Plan) {
        let Plan {
            acts,
            stop,
            left,
            result,
        } = plan;
        drop(acts);
        self.tree = left;
        self.promise = match stop {
            Some(_) => Some(Promise {
                to: run.to,
                rev: run.rev,
                result,
            }),
            None => None,
        };
    }
}

fn one_if(condition: bool) -> u64 {
    if condition { 1 } else { 0 }
}

fn count_of(run: &Run, plan: &Plan, resumes: bool) -> RunCounts {
    RunCounts {
        updates: one_if(run.to.is_none()),
        switches: one_if(run.to.is_some()),
        stops: one_if(plan.stop.is_some()),
        resumed: one_if(resumes && plan.stop.is_none()),
        late: one_if(run.is_late),
        in_threads: one_if(run.capacity.is_some()),
        calls: plan.stop.unwrap_or(total(&plan.acts)),
    }
}

impl World {
    fn do_run<R: Threads + Wait + Sync>(
        &mut self,
        rt: &R,
        run: &Run,
    ) -> Result<Result<Ended, RunFault>> {
        let Some(checked) = &mut self.checked else {
            return Err(Stop::Fault("there is no copy"));
        };
        let copy = &mut checked.copy;
        match run.capacity {
            Some(capacity) => run_in_threads(rt, self.alloc, &self.repo, copy, run, capacity),
            None => run_in_turn(self.alloc, &self.repo, copy, run),
        }
    }

    fn compare_begin(&self, run: &Run, plan: &Plan) -> Result<()> {
        match &self.checked {
            Some(checked) => checked.compare_begin(self.alloc, &self.repo, run, plan),
            None => Ok(()),
        }
    }

    fn compare_run<R: Threads + Wait + Sync>(
        &mut self,
        rt: &R,
        run: &Run,
        expected: Outcome,
    ) -> Result<()> {
        match self.do_run(rt, run)? {
            Ok(ended) => compare_outcome(self.alloc, ended, expected),
            Err(fault) => Err(Stop::Differs(format!(in self.alloc;
                "the run is refused: {fault:?}"
            )?)),
        }
    }

    fn settle(&mut self, run: &Run, plan: Plan) {
        if let Some(checked) = &mut self.checked {
            self.counts
                .count_runs(count_of(run, &plan, checked.resumes(run)));
            checked.settle(run, plan);
        }
    }

    fn run_planned<R: Threads + Wait + Sync>(
        &mut self,
        rt: &R,
        run: &Run,
        plan: Plan,
    ) -> Result<()> {
        self.compare_begin(run, &plan)?;
        self.compare_run(rt, run, plan.outcome())?;
        self.settle(run, plan);
        Ok(())
    }

    fn run_refused<R: Threads + Wait + Sync>(
        &mut self,
        rt: &R,
        run: &Run,
        expected: RunFault,
    ) -> Result<()> {
        self.counts.count_refusal();
        let answer = self.do_run(rt, run)?;
        compare_refusal(self.alloc, answer, expected)
    }

    /// Runs an update or a switch of the whole copy.
    pub(crate) fn run<R: Threads + Wait + Sync>(&mut self, rt: &R, run: &Run) -> Result<()> {
        let Some(checked) = &self.checked else {
            return Ok(());
        };
        match make_plan(self.alloc, &self.history, &checked.tree, run)? {
            Ok(plan) => self.run_planned(rt, run, plan),
            Err(fault) => self.run_refused(rt, run, fault),
        }
    }
}
