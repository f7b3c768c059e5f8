// A run by any of the six calls: with texts in place by those that take arguments, with late texts by those that take a request.
use crate::histories::path_at;
use std::alloc::Global;
use std::process::Abort;
use std::sync::Wait;
use std::test::Fail;
use std::thread::Threads;
use svn_drive::Request as Asked;
use svn_link::Settled;
use svn_repo::Repo;
use svn_run::{
    NoGate, NoListener, Options, Outcome, RunFault, run as start, run_in_turn, switch_to,
    switch_to_in_turn, update, update_in_turn,
};
use svn_types::Rev;
use svn_wc::WorkingCopy;

#[derive(Clone, Copy)]
pub(crate) struct Request {
    // what is run, for the eye
    pub(crate) of: &'static str,
    pub(crate) to: Option<&'static str>,
    pub(crate) target: u64,
    pub(crate) cancel_after: Option<u64>,
    pub(crate) late_texts: bool,
    // how many calls at most between the two threads, or none where it is run on one
    pub(crate) capacity: Option<usize>,
}

// How a run ended.
pub(crate) type Answer = Result<Outcome, RunFault>;

// The request with late texts, as a caller makes it.
fn late_request(alloc: Global, request: &Request) -> Result<Asked, Fail> {
    let target = Rev(request.target);
    let asked = match request.to {
        Some(to) => Asked::switch_to(path_at(alloc, to)?, target),
        None => Asked::update(target),
    };
    Ok(match request.cancel_after {
        Some(calls) => asked.late_texts().cancel_after(calls),
        None => asked.late_texts(),
    })
}

fn in_turn(
    alloc: Global,
    repo: &Repo,
    copy: &mut WorkingCopy,
    request: &Request,
) -> Result<Answer, Fail> {
    if copy.check_true(repo).is_err() {
        return Err(Fail::from("the copy is not true"));
    }
    if request.late_texts {
        return Ok(run_in_turn(
            alloc,
            repo,
            copy,
            &late_request(alloc, request)?,
            &mut NoListener,
        ));
    }
    let (target, cancel_after) = (Rev(request.target), request.cancel_after);
    Ok(match request.to {
        Some(to) => {
            let to = path_at(alloc, to)?;
            switch_to_in_turn(alloc, repo, copy, &to, target, cancel_after, false)
        }
        None => update_in_turn(alloc, repo, copy, target, cancel_after, false),
    })
}

// How many calls go from thread to thread.
fn passed(outcome: Outcome) -> u64 {
    match outcome {
        Outcome::Closed { calls } => calls,
        Outcome::Aborted { made, .. } => made.saturating_add(1),
    }
}

// As many calls must be sent and taken as the outcome says.
fn counted(outcome: Outcome, sent: u64, taken: u64) -> Result<Answer, Fail> {
    let calls = passed(outcome);
    if sent != calls || taken != calls {
        return Err(Fail::from("other calls were passed"));
    }
    Ok(Ok(outcome))
}

fn with_arguments<R: Threads + Wait + Sync>(
    rt: &R,
    alloc: Global,
    repo: &Repo,
    copy: &mut WorkingCopy,
    request: &Request,
    capacity: usize,
) -> Result<Result<(Outcome, Settled), RunFault>, Fail> {
    if copy.check_true(repo).is_err() {
        return Err(Fail::from("the copy is not true"));
    }
    let target = Rev(request.target);
    let options = Options::default().capacity(capacity);
    let options = match request.cancel_after {
        Some(calls) => options.cancel_after(calls),
        None => options,
    };
    Ok(match request.to {
        Some(to) => {
            let to = path_at(alloc, to)?;
            switch_to(rt, alloc, repo, copy, &to, target, options, &NoGate)
        }
        None => update(rt, alloc, repo, copy, target, options, &NoGate),
    })
}

fn with_late_texts<R: Threads + Wait + Sync>(
    rt: &R,
    alloc: Global,
    repo: &Repo,
    copy: &mut WorkingCopy,
    request: &Request,
    capacity: usize,
) -> Result<Result<(Outcome, Settled), RunFault>, Fail> {
    if copy.check_true(repo).is_err() {
        return Err(Fail::from("the copy is not true"));
    }
    let asked = late_request(alloc, request)?;
    Ok(start(
        rt,
        alloc,
        repo,
        copy,
        &asked,
        capacity,
        &NoGate,
        &mut NoListener,
    ))
}

fn in_threads<R: Threads + Wait + Sync>(
    rt: &R,
    alloc: Global,
    repo: &Repo,
    copy: &mut WorkingCopy,
    request: &Request,
    capacity: usize,
) -> Result<Answer, Fail> {
    let answer = if request.late_texts {
        with_late_texts(rt, alloc, repo, copy, request, capacity)?
    } else {
        with_arguments(rt, alloc, repo, copy, request, capacity)?
    };
    match answer {
        Ok((outcome, settled)) => counted(outcome, settled.sent, settled.taken),
        Err(fault) => Ok(Err(fault)),
    }
}

// The copy must be true.
pub(crate) fn run<R: Threads + Wait + Sync>(
    rt: &R,
    alloc: Global,
    repo: &Repo,
    copy: &mut WorkingCopy,
    request: &Request,
) -> Result<Answer, Fail> {
    match request.capacity {
        None => in_turn(alloc, repo, copy, request),
        Some(capacity) => in_threads(rt, alloc, repo, copy, request, capacity),
    }
}

// Writes how a run of a true copy ended, whether the copy is true then, and what it has.
pub(crate) fn write_run<R: Threads + Wait + Sync>(
    rt: &R,
    alloc: Global,
    repo: &Repo,
    copy: &mut WorkingCopy,
    request: &Request,
    text: &mut String,
) -> Result<(), Fail> {
    let answer = run(rt, alloc, repo, copy, request)?;
    let is_true = copy.check_true(repo).is_ok();
    write!(text, "{answer:?}\n{is_true}\n{copy}")?;
    Ok(())
}

// What a run wrote is this.
pub(crate) fn wrote(rt: &impl Abort, text: &str, wanted: &str, request: &Request) {
    assert_eq!(rt;
        text,
        wanted,
        "{}: capacity {:?}, late texts {}, stopped after {:?}",
        request.of, request.capacity, request.late_texts, request.cancel_after
    );
}
