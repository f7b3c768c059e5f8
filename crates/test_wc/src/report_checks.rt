// Reports that a repository can serve, and reports that it can't; the faults of reports and of drives.
use crate::histories::{BRANCHED, FILE_THEN_DIRECTORY, ONE_FILE};
use crate::steps::{HistoryCase, all};
use std::alloc::{AllocError, Global};
use std::test::Fail;
use svn_drive::{DriveFault, ReportFault};
use svn_editor::EditFault;

static CHECKS: [HistoryCase<'static>; 13] = [
    (ONE_FILE, "serve", "Err(NoEntries); "),
    (ONE_FILE, "serve; set . 1", "Ok(()); "),
    (ONE_FILE, "serve; set . 3", "Err(NoSuchRevision(0)); "),
    (ONE_FILE, "serve; set . 1; set g 1", "Err(NoNode(1)); "),
    (
        FILE_THEN_DIRECTORY,
        "serve; set . 1; set f/x 3",
        "Err(ParentNotDir(1)); ",
    ),
    (ONE_FILE, "serve; set . 1; delete g", "Ok(()); "),
    (ONE_FILE, "serve; set . 1; link g f 2", "Ok(()); "),
    (ONE_FILE, "serve; set . 1; link g . 1", "Ok(()); "),
    (ONE_FILE, "serve; set . 1; link g x 1", "Err(NoNode(1)); "),
    (
        ONE_FILE,
        "serve; set . 1; link g f 3",
        "Err(NoSuchRevision(1)); ",
    ),
    (
        ONE_FILE,
        "serve; set . 1; link g f 1; set g/h 1",
        "Err(NoNode(2)); ",
    ),
    (
        ONE_FILE,
        "serve; set . 1; link g f 1; delete g/h",
        "Err(ParentNotDir(2)); ",
    ),
    (BRANCHED, "serve; root t/f; set . 1", "Err(RootNotDir); "),
];

#[test]
fn reports_are_checked(rt: HostRuntime) -> Result<(), Fail> {
    all(&rt, rt.alloc(), &CHECKS)
}

static REPORT_FAULTS: [ReportFault; 6] = [
    ReportFault::NoEntries,
    ReportFault::NoSuchRevision(3),
    ReportFault::NoNode(0),
    ReportFault::ParentNotDir(1),
    ReportFault::Memory,
    ReportFault::RootNotDir,
];

const REPORT_LINES: &str = "\
10: the report has no entries
11: entry 3 of the report names a revision that isn't there
12: entry 0 of the report names a node that isn't there
13: entry 1 of the report is below what isn't a directory
14: out of memory
15: the root of the report isn't a directory
";

fn report_lines(alloc: Global) -> Result<String, AllocError> {
    let mut lines = String::new(alloc);
    for fault in &REPORT_FAULTS {
        writeln!(lines, "{}: {fault}", fault.number())?;
    }
    Ok(lines)
}

#[test]
fn faults_of_reports_are_shown(rt: HostRuntime) -> Result<(), Fail> {
    let lines = report_lines(rt.alloc())?;
    assert_eq!(rt; lines.as_str(), REPORT_LINES);
    Ok(())
}

static DRIVE_FAULTS: [DriveFault; 6] = [
    DriveFault::NoSuchTarget,
    DriveFault::Memory,
    DriveFault::Editor(EditFault::Memory),
    DriveFault::Full,
    DriveFault::NoRoot,
    DriveFault::OtherRoot,
];

const DRIVE_LINES: &str = "\
21: there is no such target revision
22: out of memory
23: the editor refused a call: out of memory
24: too many calls to count
25: the target has nothing where the root would be
26: the root in the target is another node
";

fn drive_lines(alloc: Global) -> Result<String, AllocError> {
    let mut lines = String::new(alloc);
    for fault in &DRIVE_FAULTS {
        writeln!(lines, "{}: {fault}", fault.number())?;
    }
    Ok(lines)
}

#[test]
fn faults_of_drives_are_shown(rt: HostRuntime) -> Result<(), Fail> {
    let lines = drive_lines(rt.alloc())?;
    assert_eq!(rt; lines.as_str(), DRIVE_LINES);
    Ok(())
}
