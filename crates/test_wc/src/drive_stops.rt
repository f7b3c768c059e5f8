// Drives that are given up: after each number of calls, and at each call that the editor refuses.
use crate::drive_links::FOLLOWED;
use crate::drive_switches::LINKED;
use crate::drive_updates::{CHANGED_FILE, LATE_TEXTS};
use crate::steps::{HistoryCase, writes};
use std::alloc::{AllocError, Global};
use std::process::Abort;
use std::test::Fail;

static DRIVES: [HistoryCase<'static>; 4] = [CHANGED_FILE, LATE_TEXTS, FOLLOWED, LINKED];

// By a call: a function that names the table itself is proved with all its contents, at each step.
fn drives() -> &'static [HistoryCase<'static>] {
    &DRIVES
}

// How many calls a drive makes: all that it writes but its end.
fn calls_of(written: &str) -> usize {
    written.split("; ").count().saturating_sub(2)
}

fn first_calls(alloc: Global, written: &str, count: usize) -> Result<String, AllocError> {
    let mut text = String::new(alloc);
    for call in written.split("; ").take(count) {
        write!(text, "{call}; ")?;
    }
    Ok(text)
}

fn is_cancelled(
    rt: &impl Abort,
    alloc: Global,
    drive: HistoryCase<'_>,
    made: usize,
) -> Result<(), Fail> {
    let (history, script, written) = drive;
    let cancelled = format!(in alloc; "cancel {made}; {script}")?;
    let mut wanted = first_calls(alloc, written, made)?;
    write!(wanted, "abort_edit; Ok(Cancelled {{ made: {made} }}); ")?;
    writes(rt, alloc, history, (&cancelled, &wanted))
}

// A number that stops it nowhere.
fn is_not_cancelled(
    rt: &impl Abort,
    alloc: Global,
    drive: HistoryCase<'_>,
    made: usize,
) -> Result<(), Fail> {
    let (history, script, written) = drive;
    let script = format!(in alloc; "cancel {made}; {script}")?;
    writes(rt, alloc, history, (&script, written))
}

fn each_number_stops(rt: &impl Abort, alloc: Global, drive: HistoryCase<'_>) -> Result<(), Fail> {
    let count = calls_of(drive.2);
    for made in 0..count {
        is_cancelled(rt, alloc, drive, made)?;
    }
    is_not_cancelled(rt, alloc, drive, count)
}

#[test]
fn each_number_of_calls_stops_a_drive(rt: HostRuntime) -> Result<(), Fail> {
    for drive in drives() {
        each_number_stops(&rt, rt.alloc(), *drive)?;
    }
    Ok(())
}

fn is_refused(
    rt: &impl Abort,
    alloc: Global,
    drive: HistoryCase<'_>,
    number: usize,
) -> Result<(), Fail> {
    let (history, script, written) = drive;
    let refused = format!(in alloc; "refuse {number}; {script}")?;
    let mut wanted = first_calls(alloc, written, number)?;
    wanted.push_str("abort_edit; Err(Editor(NoEntry)); ")?;
    writes(rt, alloc, history, (&refused, &wanted))
}

fn each_refusal_stops(rt: &impl Abort, alloc: Global, drive: HistoryCase<'_>) -> Result<(), Fail> {
    for number in 1..=calls_of(drive.2) {
        is_refused(rt, alloc, drive, number)?;
    }
    Ok(())
}

#[test]
fn each_refused_call_stops_a_drive(rt: HostRuntime) -> Result<(), Fail> {
    for drive in drives() {
        each_refusal_stops(&rt, rt.alloc(), *drive)?;
    }
    Ok(())
}
