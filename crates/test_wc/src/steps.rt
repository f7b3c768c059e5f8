// Scripts of tests: steps with `; ` between two. A step is a change of the repository or its commit, or a call of a working copy. From `edit` or
// `nodes` to `stop` are the calls of an edit, or the nodes of a new copy; from `drive`, `drive_switch` or `serve` to `stop` the entries of a
// report, to which an editor is driven, or which is checked. `update` drives the copy by what it reports. `cancel` and `refuse` stop the drives
// after them. `show`, `report`, `check`, `count`, an update, a drive, a check of a report and the end of an edit write, and so does a refusal: its
// number.
use crate::calls::call;
use crate::changes::change;
use crate::drives::{NEVER, Stops, write_check, write_drive, write_update};
use crate::nodes::nodes;
use crate::printed::{write_crawl, write_length, write_nodes, write_truth};
use crate::words::{number, path, revision, word};
use std::alloc::{AllocError, Global};
use std::process::Abort;
use std::test::Fail;
use svn_editor::{EditFault, Editor};
use svn_repo::{Change, Repo};
use svn_types::{RelPath, Rev};
use svn_wc::{Applier, WcFault, WorkingCopy};

// A repository, the changes for its next commit, a copy, what stops a drive, and what was written.
#[derive(Drop)]
struct State {
    alloc: Global,
    repo: Repo,
    changes: Vec<Change>,
    copy: WorkingCopy,
    stops: Stops,
    out: String,
}

fn write_fault(out: &mut String, fault: WcFault) -> Result<(), AllocError> {
    write!(out, "refused {}; ", fault.number())
}

impl State {
    fn change(&mut self, step: &str) -> Result<(), Fail> {
        let change = change(self.alloc, step)?;
        Ok(self.changes.push(change)?)
    }

    fn commit(&mut self) -> Result<(), Fail> {
        self.repo.commit(&self.changes)?;
        self.changes.clear();
        Ok(())
    }

    // The copy that was made, if it was.
    fn keep(&mut self, made: Result<WorkingCopy, WcFault>) -> Result<(), Fail> {
        match made {
            Ok(copy) => {
                self.copy = copy;
                Ok(())
            }
            Err(fault) => Ok(write_fault(&mut self.out, fault)?),
        }
    }

    fn checkout(&mut self, step: &str) -> Result<(), Fail> {
        let root = path(self.alloc, step, 2)?;
        let made = WorkingCopy::checkout_at(self.alloc, &self.repo, &root, revision(step, 1));
        self.keep(made)
    }

    // The copy that these nodes make.
    fn list(&mut self, lines: &str) -> Result<(), Fail> {
        let made = WorkingCopy::from_nodes(self.alloc, nodes(self.alloc, lines)?);
        self.keep(made)
    }

    fn switch(&mut self, step: &str, at: &RelPath) -> Result<Result<(), WcFault>, Fail> {
        let from = path(self.alloc, step, 2)?;
        Ok(self.copy.switch(&self.repo, at, &from, revision(step, 3)))
    }

    fn place(&mut self, step: &str) -> Result<Result<(), WcFault>, Fail> {
        let at = path(self.alloc, step, 1)?;
        match word(step, 0) {
            "place" => Ok(self.copy.place(&self.repo, &at, revision(step, 2))),
            "switch" => self.switch(step, &at),
            _ => Ok(self.copy.forget(&at)),
        }
    }

    fn refuse(&mut self, fault: WcFault, before: &str) -> Result<(), Fail> {
        write_fault(&mut self.out, fault)?;
        if format!(in self.alloc; "{}", self.copy)?.as_str() != before {
            self.out.push_str("changed; ")?;
        }
        Ok(())
    }

    // A call that changes the copy. A refused one leaves it as it was.
    fn build(&mut self, step: &str) -> Result<(), Fail> {
        let before = format!(in self.alloc; "{}", self.copy)?;
        match self.place(step)? {
            Ok(()) => Ok(()),
            Err(fault) => self.refuse(fault, before.as_str()),
        }
    }

    fn write_length(&mut self, step: &str) -> Result<(), Fail> {
        let at = path(self.alloc, step, 1)?;
        Ok(write_length(&mut self.out, &self.copy, &at)?)
    }

    fn look(&mut self, step: &str) -> Result<(), Fail> {
        let out = &mut self.out;
        match word(step, 0) {
            "show" => Ok(write_nodes(self.alloc, out, &self.copy)?),
            "report" => write_crawl(self.alloc, out, &self.copy),
            "count" => Ok(write!(out, "{} nodes; ", self.copy.nodes().len())?),
            "length" => self.write_length(step),
            _ => Ok(write_truth(out, &self.copy, &self.repo)?),
        }
    }

    fn update(&mut self, step: &str) -> Result<(), Fail> {
        write_update(self.alloc, &mut self.out, &self.repo, &mut self.copy, step)
    }

    fn take(&mut self, step: &str) -> Result<(), Fail> {
        match word(step, 0) {
            "commit" => self.commit(),
            "checkout" => self.checkout(step),
            "update" => self.update(step),
            "place" | "switch" | "forget" => self.build(step),
            "show" | "report" | "count" | "length" | "check" => self.look(step),
            _ => self.change(step),
        }
    }

    fn stop(&mut self, step: &str) {
        let calls = Some(number(step, 1));
        if word(step, 0) == "cancel" {
            self.stops.cancel_after = calls;
        } else {
            self.stops.refused = calls;
        }
    }

    // Gives an edit's calls to the copy: an update's, or those of a switch.
    fn edit(&mut self, first: &str, calls: &str) -> Result<(), Fail> {
        if word(first, 1).is_empty() {
            let mut applier = Applier::new(self.alloc, &mut self.copy)?;
            return write_answers(self.alloc, &mut self.out, &mut applier, calls);
        }
        let to = path(self.alloc, first, 1)?;
        let mut applier = Applier::new_switch(self.alloc, &mut self.copy, &to)?;
        write_answers(self.alloc, &mut self.out, &mut applier, calls)
    }

    // A step, and the lines up to `stop` where it has such.
    fn step(&mut self, step: &str, lines: &str) -> Result<(), Fail> {
        match word(step, 0) {
            "edit" => self.edit(step, lines),
            "nodes" => self.list(lines),
            "drive" | "drive_switch" => write_drive(
                self.alloc,
                &mut self.out,
                &self.repo,
                step,
                lines,
                self.stops,
            ),
            "serve" => write_check(self.alloc, &mut self.out, &self.repo, lines),
            "cancel" | "refuse" => {
                self.stop(step);
                Ok(())
            }
            _ => self.take(step),
        }
    }
}

// What an applier returns for the calls of an edit: how many it accepts, and the numbers of the faults of the others.
#[derive(Drop)]
struct Answers {
    accepted: u64,
    faults: String,
}

impl Answers {
    fn take(&mut self, answer: Result<(), EditFault>) -> Result<(), AllocError> {
        match answer {
            Ok(()) => {
                self.accepted = self.accepted.saturating_add(1);
                Ok(())
            }
            Err(fault) => write!(self.faults, " {}", fault.number()),
        }
    }
}

fn give(
    alloc: Global,
    applier: &mut Applier<'_>,
    step: &str,
    answers: &mut Answers,
) -> Result<(), Fail> {
    let call = call(alloc, step)?;
    Ok(answers.take(applier.call(call))?)
}

fn answers_to(alloc: Global, applier: &mut Applier<'_>, calls: &str) -> Result<Answers, Fail> {
    let mut answers = Answers {
        accepted: 0,
        faults: String::new(alloc),
    };
    for step in calls.split("; ") {
        give(alloc, applier, step, &mut answers)?;
    }
    Ok(answers)
}

// The results, and the pools that are live then.
fn write_answers(
    alloc: Global,
    out: &mut String,
    applier: &mut Applier<'_>,
    calls: &str,
) -> Result<(), Fail> {
    let answers = answers_to(alloc, applier, calls)?;
    let (accepted, faults) = (answers.accepted, answers.faults.as_str());
    let refused = if faults.is_empty() { "" } else { " refused" };
    let pools = applier.live_pools();
    write!(out, "accepted {accepted}{refused}{faults} pools {pools}; ")?;
    Ok(())
}

// Whether lines up to `stop` belong to a step.
fn has_lines(step: &str) -> bool {
    matches!(
        word(step, 0),
        "edit" | "nodes" | "drive" | "drive_switch" | "serve"
    )
}

// The steps up to `stop`, and those after it.
fn block(steps: &str) -> (&str, &str) {
    if let Some(rest) = steps.strip_prefix("stop; ") {
        return ("", rest);
    }
    steps.split_once("; stop; ").unwrap_or((steps, ""))
}

fn run(state: &mut State, script: &str) -> Result<(), Fail> {
    let mut left = script;
    for _ in 0..u64::MAX {
        if left.is_empty() {
            break;
        }
        let (step, rest) = left.split_once("; ").unwrap_or((left, ""));
        let (lines, after) = block(rest);
        state.step(step, lines)?;
        left = if has_lines(step) { after } else { rest };
    }
    Ok(())
}

fn start(alloc: Global) -> Result<State, Fail> {
    let repo = Repo::new(alloc)?;
    let copy = WorkingCopy::checkout(alloc, &repo, Rev(0))?;
    Ok(State {
        alloc,
        repo,
        changes: Vec::new(alloc),
        copy,
        stops: NEVER,
        out: String::new(alloc),
    })
}

// What a script writes.
fn written(alloc: Global, begun: &str, script: &str) -> Result<String, Fail> {
    let mut state = start(alloc)?;
    run(&mut state, begun)?;
    run(&mut state, script)?;
    Ok(state.out)
}

// A script, and what it writes.
pub(crate) type Case<'a> = (&'a str, &'a str);

// A beginning, a script after it, and what both write.
pub(crate) type HistoryCase<'a> = (&'a str, &'a str, &'a str);

// After this beginning, a script writes what its row says.
pub(crate) fn writes(
    rt: &impl Abort,
    alloc: Global,
    begun: &str,
    case: Case<'_>,
) -> Result<(), Fail> {
    let (script, wanted) = case;
    let found = written(alloc, begun, script)?;
    assert_eq!(rt; found.as_str(), wanted, "of {script}");
    Ok(())
}

// After the same beginning, each script writes what its row says.
pub(crate) fn same(
    rt: &impl Abort,
    alloc: Global,
    begun: &str,
    cases: &[Case<'_>],
) -> Result<(), Fail> {
    for case in cases {
        writes(rt, alloc, begun, *case)?;
    }
    Ok(())
}

// Each script, after its own beginning.
pub(crate) fn all(rt: &impl Abort, alloc: Global, cases: &[HistoryCase<'_>]) -> Result<(), Fail> {
    for (begun, script, wanted) in cases {
        writes(rt, alloc, begun, (script, wanted))?;
    }
    Ok(())
}
