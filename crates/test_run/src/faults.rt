// Runs that do not begin.
use crate::histories::{Build, Step, copy_of, repository};
use crate::rows::{BRANCH, CHANGED_FILE};
use crate::runs::{Request, write_run, wrote};
use std::alloc::{AllocError, Global};
use std::process::Abort;
use std::sync::Wait;
use std::test::Fail;
use std::thread::Threads;
use svn_run::RunFault;

struct Refusal {
    history: &'static [Step],
    root: &'static str,
    to: Option<&'static str>,
    target: u64,
    fault: RunFault,
    // what the copy had before, and has still
    left: &'static str,
}

const FILE_AT_1: &str = ". dir 1 .\nf file 1 f a\n";

const TREE_AT_1: &str = ". dir 1 t\nd dir 1 t/d\nd/x file 1 t/d/x a\nf file 1 t/f a\n";

static REFUSALS: [Refusal; 6] = [
    Refusal {
        history: &CHANGED_FILE,
        root: "",
        to: None,
        target: 3,
        fault: RunFault::NoSuchRevision,
        left: FILE_AT_1,
    },
    Refusal {
        history: &BRANCH,
        root: "t",
        to: Some("b"),
        target: 1,
        fault: RunFault::NoRoot,
        left: TREE_AT_1,
    },
    Refusal {
        history: &BRANCH,
        root: "t",
        to: Some(""),
        target: 3,
        fault: RunFault::OtherRoot,
        left: TREE_AT_1,
    },
    Refusal {
        history: &BRANCH,
        root: "t",
        to: Some("t/f"),
        target: 3,
        fault: RunFault::OtherRoot,
        left: TREE_AT_1,
    },
    Refusal {
        history: &BRANCH,
        root: "t",
        to: Some("b"),
        target: 9,
        fault: RunFault::NoSuchRevision,
        left: TREE_AT_1,
    },
    Refusal {
        history: &BRANCH,
        root: "t",
        to: None,
        target: 4,
        fault: RunFault::NoRoot,
        left: TREE_AT_1,
    },
];

// By a call: a function that names the table itself is proved with all its contents, at each step.
fn refusals() -> &'static [Refusal] {
    &REFUSALS
}

fn request_of(refusal: &Refusal, capacity: Option<usize>) -> Request {
    Request {
        of: "a refused run",
        to: refusal.to,
        target: refusal.target,
        cancel_after: None,
        late_texts: false,
        capacity,
    }
}

fn refused<R: Threads + Wait + Sync>(
    rt: &R,
    alloc: Global,
    refusal: &Refusal,
    request: &Request,
) -> Result<String, Fail> {
    let repo = repository(alloc, refusal.history)?;
    let mut copy = copy_of(alloc, &repo, &[Build::Checkout(refusal.root, 1)])?;
    let mut text = String::new(alloc);
    write_run(rt, alloc, &repo, &mut copy, request, &mut text)?;
    Ok(text)
}

fn is_refused<R: Threads + Wait + Sync + Abort>(
    rt: &R,
    alloc: Global,
    refusal: &Refusal,
    capacity: Option<usize>,
) -> Result<(), Fail> {
    let request = request_of(refusal, capacity);
    let text = refused(rt, alloc, refusal, &request)?;
    let wanted = format!(in alloc; "Err({:?})\ntrue\n{}", refusal.fault, refusal.left)?;
    wrote(rt, &text, &wanted, &request);
    Ok(())
}

fn each_form_is_refused<R: Threads + Wait + Sync + Abort>(
    rt: &R,
    alloc: Global,
    refusal: &Refusal,
) -> Result<(), Fail> {
    for capacity in [None, Some(1), Some(0)] {
        is_refused(rt, alloc, refusal, capacity)?;
    }
    Ok(())
}

// The capacity is looked at last.
#[test]
fn runs_that_lead_nowhere_are_refused(rt: HostRuntime) -> Result<(), Fail> {
    for refusal in refusals() {
        each_form_is_refused(&rt, rt.alloc(), refusal)?;
    }
    Ok(())
}

// An update of one file, which nothing else stops.
static UNBOUNDED: Refusal = Refusal {
    history: &CHANGED_FILE,
    root: "",
    to: None,
    target: 2,
    fault: RunFault::Capacity,
    left: FILE_AT_1,
};

#[test]
fn capacities_are_bounded(rt: HostRuntime) -> Result<(), Fail> {
    for capacity in [0, 4097] {
        is_refused(&rt, rt.alloc(), &UNBOUNDED, Some(capacity))?;
    }
    Ok(())
}

static FAULTS: [RunFault; 6] = [
    RunFault::NoSuchRevision,
    RunFault::Capacity,
    RunFault::Memory,
    RunFault::NoThread,
    RunFault::NoRoot,
    RunFault::OtherRoot,
];

const LINES: &str = "\
31: there is no such revision
32: the capacity isn't 1 to 4096
33: out of memory
34: no thread could be started
35: the copy's root isn't in the target
36: the root in the target is another node
";

fn fault_lines(alloc: Global) -> Result<String, AllocError> {
    let mut lines = String::new(alloc);
    for fault in &FAULTS {
        writeln!(lines, "{}: {fault}", fault.number())?;
    }
    Ok(lines)
}

#[test]
fn faults_are_shown(rt: HostRuntime) -> Result<(), Fail> {
    let lines = fault_lines(rt.alloc())?;
    assert_eq!(rt; lines.as_str(), LINES);
    Ok(())
}
