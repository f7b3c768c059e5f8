// Runs that are stopped after a number of calls, and made again.
use crate::histories::{copy_of, repository};
use crate::rows::{Row, Stop, rows};
use crate::runs::{Answer, Request, run, write_run, wrote};
use std::alloc::{AllocError, Global};
use std::process::Abort;
use std::sync::Wait;
use std::test::Fail;
use std::thread::Threads;
use svn_repo::Repo;
use svn_run::{Cause, Outcome};
use svn_wc::WorkingCopy;

fn stopped_after(calls: u64) -> Answer {
    Ok(Outcome::Aborted {
        made: calls,
        accepted: calls,
        late: None,
        cause: Cause::Cancelled,
    })
}

fn closed_after(calls: u64) -> Answer {
    Ok(Outcome::Closed { calls })
}

fn request_of(
    row: &Row,
    capacity: Option<usize>,
    late_texts: bool,
    cancel_after: Option<u64>,
) -> Request {
    Request {
        of: row.name,
        to: row.to,
        target: row.target,
        cancel_after,
        late_texts,
        capacity,
    }
}

// A result, that the copy is true, and what it has.
fn ended(alloc: Global, answer: Answer, shown: &str) -> Result<String, AllocError> {
    format!(in alloc; "{answer:?}\ntrue\n{shown}")
}

// What a run writes of a row's copy.
fn written<R: Threads + Wait + Sync>(
    rt: &R,
    alloc: Global,
    repo: &Repo,
    row: &Row,
    request: &Request,
) -> Result<String, Fail> {
    let mut copy = copy_of(alloc, repo, row.copy)?;
    let mut text = String::new(alloc);
    write_run(rt, alloc, repo, &mut copy, request, &mut text)?;
    Ok(text)
}

// A whole run, with a number of calls that stops it nowhere.
fn run_whole<R: Threads + Wait + Sync + Abort>(
    rt: &R,
    alloc: Global,
    repo: &Repo,
    row: &Row,
    request: &Request,
) -> Result<(), Fail> {
    let text = written(rt, alloc, repo, row, request)?;
    let wanted = ended(alloc, closed_after(row.calls), row.shown)?;
    wrote(rt, &text, &wanted, request);
    Ok(())
}

const CAPACITIES: [Option<usize>; 5] = [None, Some(1), Some(3), Some(64), Some(4096)];

fn early_and_late<R: Threads + Wait + Sync + Abort>(
    rt: &R,
    alloc: Global,
    repo: &Repo,
    row: &Row,
    capacity: Option<usize>,
) -> Result<(), Fail> {
    for late_texts in [false, true] {
        let request = request_of(row, capacity, late_texts, Some(row.calls));
        run_whole(rt, alloc, repo, row, &request)?;
    }
    Ok(())
}

fn each_whole_run<R: Threads + Wait + Sync + Abort>(
    rt: &R,
    alloc: Global,
    row: &Row,
) -> Result<(), Fail> {
    let repo = repository(alloc, row.history)?;
    for capacity in CAPACITIES {
        early_and_late(rt, alloc, &repo, row, capacity)?;
    }
    Ok(())
}

#[test]
fn whole_runs_end_at_the_target(rt: HostRuntime) -> Result<(), Fail> {
    for row in rows() {
        each_whole_run(&rt, rt.alloc(), row)?;
    }
    Ok(())
}

// Whether the same run, not stopped, is closed.
fn closes_again<R: Threads + Wait + Sync>(
    rt: &R,
    alloc: Global,
    repo: &Repo,
    copy: &mut WorkingCopy,
    request: &Request,
) -> Result<bool, Fail> {
    let again = Request {
        cancel_after: None,
        ..*request
    };
    let ended = run(rt, alloc, repo, copy, &again)?;
    Ok(matches!(ended, Ok(Outcome::Closed { .. })))
}

// Writes how a run is stopped, whether that leaves a true copy, whether the same run made again is closed, and what the copy has then.
fn resumed<R: Threads + Wait + Sync>(
    rt: &R,
    alloc: Global,
    repo: &Repo,
    row: &Row,
    request: &Request,
) -> Result<String, Fail> {
    let mut copy = copy_of(alloc, repo, row.copy)?;
    let stopped = run(rt, alloc, repo, &mut copy, request)?;
    let is_true = copy.check_true(repo).is_ok();
    let is_closed = closes_again(rt, alloc, repo, &mut copy, request)?;
    Ok(format!(in alloc; "{stopped:?}\n{is_true} {is_closed}\n{copy}")?)
}

// A run that is stopped, and then made again to its end.
fn run_again<R: Threads + Wait + Sync + Abort>(
    rt: &R,
    alloc: Global,
    repo: &Repo,
    row: &Row,
    request: &Request,
    calls: u64,
) -> Result<(), Fail> {
    let text = resumed(rt, alloc, repo, row, request)?;
    let wanted = format!(in alloc; "{:?}\ntrue true\n{}", stopped_after(calls), row.shown)?;
    wrote(rt, &text, &wanted, request);
    Ok(())
}

// The forms of a run that is stopped: how many calls at most wait between two threads, and whether texts are late.
const FORMS: [(Option<usize>, bool); 6] = [
    (None, false),
    (None, true),
    (Some(1), false),
    (Some(1), true),
    (Some(64), false),
    (Some(64), true),
];

fn each_stop<R: Threads + Wait + Sync + Abort>(
    rt: &R,
    alloc: Global,
    repo: &Repo,
    row: &Row,
    calls: u64,
) -> Result<(), Fail> {
    for (capacity, late_texts) in FORMS {
        let request = request_of(row, capacity, late_texts, Some(calls));
        run_again(rt, alloc, repo, row, &request, calls)?;
    }
    Ok(())
}

fn each_stopped_run<R: Threads + Wait + Sync + Abort>(
    rt: &R,
    alloc: Global,
    row: &Row,
) -> Result<(), Fail> {
    let repo = repository(alloc, row.history)?;
    for calls in 0..row.calls {
        each_stop(rt, alloc, &repo, row, calls)?;
    }
    Ok(())
}

#[test]
fn stopped_runs_are_made_again(rt: HostRuntime) -> Result<(), Fail> {
    for row in rows() {
        each_stopped_run(&rt, rt.alloc(), row)?;
    }
    Ok(())
}

// What is asked for after the stop.
fn next_of(row: &Row, stop: &Stop, capacity: Option<usize>) -> Request {
    Request {
        of: row.name,
        to: stop.then.to,
        target: stop.then.target,
        cancel_after: None,
        late_texts: false,
        capacity,
    }
}

// Writes both runs.
fn stopped_and_next<R: Threads + Wait + Sync>(
    rt: &R,
    alloc: Global,
    repo: &Repo,
    row: &Row,
    first: &Request,
    next: &Request,
) -> Result<String, Fail> {
    let mut copy = copy_of(alloc, repo, row.copy)?;
    let mut text = String::new(alloc);
    write_run(rt, alloc, repo, &mut copy, first, &mut text)?;
    write_run(rt, alloc, repo, &mut copy, next, &mut text)?;
    Ok(text)
}

// What both runs have to write.
fn both_ended(alloc: Global, stop: &Stop) -> Result<String, AllocError> {
    let mut text = ended(alloc, stopped_after(stop.after), stop.left)?;
    let closed = closed_after(stop.then.calls);
    write!(text, "{closed:?}\ntrue\n{}", stop.then.shown)?;
    Ok(text)
}

fn leaves<R: Threads + Wait + Sync + Abort>(
    rt: &R,
    alloc: Global,
    repo: &Repo,
    row: &Row,
    stop: &Stop,
    capacity: Option<usize>,
) -> Result<(), Fail> {
    let first = request_of(row, capacity, stop.late_texts, Some(stop.after));
    let next = next_of(row, stop, capacity);
    let text = stopped_and_next(rt, alloc, repo, row, &first, &next)?;
    let wanted = both_ended(alloc, stop)?;
    wrote(rt, &text, &wanted, &first);
    Ok(())
}

fn each_form_leaves<R: Threads + Wait + Sync + Abort>(
    rt: &R,
    alloc: Global,
    repo: &Repo,
    row: &Row,
    stop: &Stop,
) -> Result<(), Fail> {
    leaves(rt, alloc, repo, row, stop, None)?;
    leaves(rt, alloc, repo, row, stop, Some(1))
}

fn each_stop_leaves<R: Threads + Wait + Sync + Abort>(
    rt: &R,
    alloc: Global,
    row: &Row,
) -> Result<(), Fail> {
    let repo = repository(alloc, row.history)?;
    for stop in row.stops {
        each_form_leaves(rt, alloc, &repo, row, stop)?;
    }
    Ok(())
}

#[test]
fn a_stopped_run_leaves_what_was_accepted(rt: HostRuntime) -> Result<(), Fail> {
    for row in rows() {
        each_stop_leaves(&rt, rt.alloc(), row)?;
    }
    Ok(())
}
