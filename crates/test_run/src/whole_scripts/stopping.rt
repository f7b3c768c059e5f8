// Each run stopped after each number of calls, early and late: the copy that is left is updated to the same end.
use crate::whole_scripts::rows::stops::{Stop, stops};
use crate::whole_scripts::scripts::{IN_TURN, MANY_CALLS, ONE_CALL, ScriptRun, run};
use std::alloc::{AllocError, Global};
use std::process::Abort;
use std::sync::Wait;
use std::thread::Threads;
use svn_update::Settings;

// The run stopped after that many calls, and made again.
fn script_of(alloc: Global, stop: &Stop, calls: u64, late: &str) -> Result<String, AllocError> {
    let (before, run) = (stop.before.0, stop.run);
    format!(in alloc; "{before}{run} {calls}{late}\n{run}{late}\nshow\n")
}

// What it prints, but for the number of calls of the second run: what comes before that and what after it.
fn first_output(alloc: Global, stop: &Stop, calls: u64) -> Result<String, AllocError> {
    let before = stop.before.1;
    format!(in alloc; "{before}aborted {calls} {calls} Cancelled\nclosed ")
}

fn last_output(alloc: Global, stop: &Stop) -> Result<String, AllocError> {
    format!(in alloc; "\n{}", stop.shown)
}

// A script that ends well, and whose output begins and ends so.
fn prints(run: &ScriptRun, first: &str, last: &str) -> bool {
    let written = run.written();
    run.ended.is_ok() && written.starts_with(first) && written.ends_with(last)
}

fn resumes(
    rt: &(impl Abort + AllocGlobal + Threads + Wait + Sync),
    settings: &Settings,
    stop: &Stop,
    calls: u64,
    late: &str,
) -> Result<(), AllocError> {
    let script = script_of(rt.alloc(), stop, calls, late)?;
    let first = first_output(rt.alloc(), stop, calls)?;
    let last = last_output(rt.alloc(), stop)?;
    let run = run(rt, settings, script.as_str().as_bytes());
    assert!(rt; prints(&run, &first, &last), "{script}{}", run.written());
    Ok(())
}

fn early_and_late(
    rt: &(impl Abort + AllocGlobal + Threads + Wait + Sync),
    settings: &Settings,
    stop: &Stop,
) -> Result<(), AllocError> {
    for calls in 0..stop.calls {
        resumes(rt, settings, stop, calls, "")?;
        resumes(rt, settings, stop, calls, " late")?;
    }
    Ok(())
}

fn each_stop_resumes(
    rt: &(impl Abort + AllocGlobal + Threads + Wait + Sync),
    settings: &Settings,
) -> Result<(), AllocError> {
    for stop in stops() {
        early_and_late(rt, settings, stop)?;
    }
    Ok(())
}

#[test]
fn stopped_runs_are_resumed_in_turn(rt: HostRuntime) -> Result<(), AllocError> {
    each_stop_resumes(&rt, &IN_TURN)
}

#[test]
fn stopped_runs_are_resumed_with_a_queue_of_one_call(rt: HostRuntime) -> Result<(), AllocError> {
    each_stop_resumes(&rt, &ONE_CALL)
}

#[test]
fn stopped_runs_are_resumed_with_a_queue_of_many_calls(rt: HostRuntime) -> Result<(), AllocError> {
    each_stop_resumes(&rt, &MANY_CALLS)
}
