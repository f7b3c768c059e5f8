// The forms of the commands on a working copy.
use std::alloc::{AllocError, Global};
use std::process::Abort;
use svn_script::{Command, LineFault, read_command};
use svn_types::RelPath;

fn depth(path: &RelPath) -> usize {
    path.components().len()
}

// How a run may end: the number of calls after which it is given up, and whether its texts are late.
fn end_of(alloc: Global, cancel_after: Option<u64>, late: bool) -> Result<String, AllocError> {
    let late = if late { "late" } else { "early" };
    match cancel_after {
        Some(calls) => format!(in alloc; "after {calls} {late}"),
        None => format!(in alloc; "{late}"),
    }
}

// What a command is, each path in it by the number of its names.
fn told(alloc: Global, command: &Command) -> Result<String, AllocError> {
    match command {
        Command::Checkout { rev, path } => {
            format!(in alloc; "checkout {} of {}", rev.0, depth(path))
        }
        Command::Place { path, rev } => format!(in alloc; "place {} of {}", depth(path), rev.0),
        Command::Switch {
            path,
            repos_path,
            rev,
        } => format!(in alloc;
            "switch {} to {} of {}",
            depth(path),
            depth(repos_path),
            rev.0
        ),
        Command::Forget { path } => format!(in alloc; "forget {}", depth(path)),
        Command::Report => String::from_str(alloc, "report"),
        Command::Show => String::from_str(alloc, "show"),
        _ => String::from_str(alloc, "another"),
    }
}

// The same of a run, or of a drive, which isn't given up.
fn told_run(alloc: Global, command: &Command) -> Result<String, AllocError> {
    match command {
        Command::Drive { rev, late } => {
            let end = end_of(alloc, None, *late)?;
            format!(in alloc; "drive to {} {end}", rev.0)
        }
        Command::Update {
            rev,
            cancel_after,
            late,
        } => {
            let end = end_of(alloc, *cancel_after, *late)?;
            format!(in alloc; "update to {} {end}", rev.0)
        }
        Command::SwitchTo {
            repos_path,
            rev,
            cancel_after,
            late,
        } => {
            let end = end_of(alloc, *cancel_after, *late)?;
            format!(in alloc; "switch {} to {} {end}", depth(repos_path), rev.0)
        }
        _ => told(alloc, command),
    }
}

fn read(alloc: Global, line: &str) -> Result<String, AllocError> {
    match read_command(alloc, line.as_bytes()) {
        Ok(command) => told_run(alloc, &command),
        Err(LineFault::Bad) => String::from_str(alloc, "bad"),
        Err(LineFault::Memory) => String::from_str(alloc, "memory"),
    }
}

static COMMANDS: [(&str, &str); 22] = [
    ("checkout 1", "checkout 1 of 0"),
    ("checkout 1 .", "checkout 1 of 0"),
    ("checkout 1 %2E", "checkout 1 of 0"),
    ("checkout 01 t/f", "checkout 1 of 2"),
    ("checkout 1 late", "checkout 1 of 1"),
    ("place d/x 2", "place 2 of 2"),
    ("place . 2", "place 0 of 2"),
    ("  switch  d  t/e/f  3 ", "switch 1 to 3 of 3"),
    ("forget f", "forget 1"),
    ("report", "report"),
    ("show", "show"),
    // a drive takes no cancel number
    ("drive 2", "drive to 2 early"),
    ("drive 2 late", "drive to 2 late"),
    // in a run it comes before the word `late`
    ("update 4", "update to 4 early"),
    ("update 4 7", "update to 4 after 7 early"),
    ("update 4 late", "update to 4 late"),
    ("update 4 0 late", "update to 4 after 0 late"),
    (
        "update 4 18446744073709551615",
        "update to 4 after 18446744073709551615 early",
    ),
    ("switch-to t/d 4", "switch 2 to 4 early"),
    ("switch-to t/d 4 7", "switch 2 to 4 after 7 early"),
    ("switch-to . 4 late", "switch 0 to 4 late"),
    ("switch-to late 4 7 late", "switch 1 to 4 after 7 late"),
];

static NO_COMMANDS: [&str; 41] = [
    "checkout",
    "checkout t",
    "checkout t 1",
    "checkout 1 t late",
    "checkout -1",
    "checkout %31",
    "place d",
    "place 2",
    "place d 2 late",
    "place 2 d",
    "switch d e",
    "switch d e f",
    "switch d 3 e",
    "switch d e 3 late",
    "forget",
    "forget f g",
    "report 1",
    "report late",
    "show .",
    "drive",
    "drive late",
    "drive 2 3",
    "drive 2 3 late",
    "drive 2 late late",
    "drive 2 Late",
    "drive 2 %6Cate",
    "update",
    "update late",
    "update 4 late 7",
    "update 4 7 8",
    "update 4 7 late late",
    "update 4 18446744073709551616",
    "update 4 x",
    "switch-to",
    "switch-to t",
    "switch-to 4 t",
    "switch-to t late",
    "switch-to t 4 late 7",
    "switch-to t 4 7 8",
    "switch_to t 4",
    "switch-to% t 4",
];

fn is_read(rt: &impl Abort, alloc: Global, line: &str, wanted: &str) -> Result<(), AllocError> {
    let found = read(alloc, line)?;
    assert_eq!(rt; found.as_str(), wanted, "{line}");
    Ok(())
}

#[test]
fn commands_have_their_forms(rt: HostRuntime) -> Result<(), AllocError> {
    for (line, command) in &COMMANDS {
        is_read(&rt, rt.alloc(), line, command)?;
    }
    Ok(())
}

#[test]
fn other_lines_are_bad(rt: HostRuntime) -> Result<(), AllocError> {
    for line in &NO_COMMANDS {
        is_read(&rt, rt.alloc(), line, "bad")?;
    }
    Ok(())
}
