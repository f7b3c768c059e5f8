//! Reports: rows of calls, each with its result, and the lines as they are printed; and the names below a path.
use crate::calls::path;
use Entry::{Delete, Link, Set};
use std::alloc::Global;
use std::process::Abort;
use std::test::Fail;
use svn_report::ReporterFault::{NotRootFirst, ParentLater, Repeated, TooDeep, UnderDeleted};
use svn_report::{EntryLine, Report, Reporter, ReporterFault};
use svn_types::{Name, RelPath, Rev};

// A call of a reporter, with texts in the place of paths. Its fields are in the order in which they are printed.
#[derive(Clone, Copy)]
enum Entry {
    Set(&'static str, u64, bool),
    Link(&'static str, &'static str, u64, bool),
    Delete(&'static str),
}

type Answered = (Entry, Result<(), ReporterFault>);

fn place_of(entry: Entry) -> &'static str {
    match entry {
        Set(at, ..) | Link(at, ..) | Delete(at) => at,
    }
}

fn tell(
    alloc: Global,
    reporter: &mut Reporter,
    entry: Entry,
) -> Result<Result<(), ReporterFault>, Fail> {
    let at = path(alloc, place_of(entry))?;
    Ok(match entry {
        Set(_, rev, start_empty) => reporter.set_path(&at, Rev(rev), start_empty),
        Link(_, from, rev, start_empty) => {
            reporter.link_path(&at, path(alloc, from)?, Rev(rev), start_empty)
        }
        Delete(_) => reporter.delete_path(&at),
    })
}

fn tell_all(
    rt: &impl Abort,
    alloc: Global,
    reporter: &mut Reporter,
    calls: &[Answered],
) -> Result<(), Fail> {
    for (entry, answer) in calls {
        let found = tell(alloc, reporter, *entry)?;
        assert_eq!(rt; found, *answer);
    }
    Ok(())
}

// The report of the repository's root that these calls make.
fn report_of(rt: &impl Abort, alloc: Global, calls: &[Answered]) -> Result<Report, Fail> {
    let mut reporter = Reporter::new(alloc);
    tell_all(rt, alloc, &mut reporter, calls)?;
    Ok(reporter.finish_report())
}

// Calls, and what is printed of their report and of its entries.
type Reported = (&'static [Answered], &'static str);

static OF_ALL_KINDS: Reported = (
    &[
        (Set("", 2, true), Ok(())),
        (Link("g", "f", 2, false), Ok(())),
        (Delete("h"), Ok(())),
    ],
    "set . 2 start_empty\nlink g f 2\ndelete h\n",
);

static OF_A_DELETE: Reported = (
    &[(Set("", 1, false), Ok(())), (Delete("f"), Ok(()))],
    "set . 1\ndelete f\n",
);

// A path is reported once.
static REPEATED: Reported = (
    &[
        (Set("", 1, false), Ok(())),
        (Set("a", 1, false), Ok(())),
        (Set("a", 2, false), Err(Repeated)),
    ],
    "set . 1\nset a 1\n",
);

// Nothing is reported below a delete.
static BENEATH_A_DELETE: Reported = (
    &[
        (Set("", 1, false), Ok(())),
        (Delete("b"), Ok(())),
        (Set("b/c", 1, false), Err(UnderDeleted)),
    ],
    "set . 1\ndelete b\n",
);

// A parent is reported before what is below.
static PARENT_LATER: Reported = (
    &[
        (Set("", 1, false), Ok(())),
        (Set("d/e", 1, false), Ok(())),
        (Set("d", 1, false), Err(ParentLater)),
    ],
    "set . 1\nset d/e 1\n",
);

// The same where the paths don't come in their order.
static OUT_OF_ORDER: Reported = (
    &[
        (Set("", 1, false), Ok(())),
        (Set("d/e", 1, false), Ok(())),
        (Delete("b"), Ok(())),
        (Set("b", 2, false), Err(Repeated)),
        (Set("b/c", 1, false), Err(UnderDeleted)),
        (Set("d", 1, false), Err(ParentLater)),
        (Link("c", "f", 2, false), Ok(())),
    ],
    "set . 1\nset d/e 1\ndelete b\nlink c f 2\n",
);

// The root comes first.
static ROOT_LATER: Reported = (
    &[
        (Set("a", 1, false), Err(NotRootFirst)),
        (Delete(""), Err(NotRootFirst)),
        (Set("", 1, false), Ok(())),
        (Delete(""), Err(Repeated)),
    ],
    "set . 1\n",
);

fn rows() -> [&'static Reported; 7] {
    [
        &OF_ALL_KINDS,
        &OF_A_DELETE,
        &REPEATED,
        &BENEATH_A_DELETE,
        &PARENT_LATER,
        &OUT_OF_ORDER,
        &ROOT_LATER,
    ]
}

fn push_line(text: &mut String, report: &Report, place: usize) -> Result<(), Fail> {
    if let Some((path, entry)) = report.entry(place) {
        let line = EntryLine { path, entry };
        write!(text, "{line}\n")?;
    }
    Ok(())
}

// The entries as they are printed, each on a line.
fn entry_lines(alloc: Global, report: &Report) -> Result<String, Fail> {
    let mut text = String::new(alloc);
    for place in 0..report.len() {
        push_line(&mut text, report, place)?;
    }
    Ok(text)
}

fn prints(rt: &impl Abort, alloc: Global, report: &Report, lines: &str) -> Result<(), Fail> {
    let printed = format!(in alloc; "{report}")?;
    assert_eq!(rt; printed.as_str(), lines);
    Ok(())
}

// The report as it is printed, and its entries by themselves.
fn printed_twice(rt: &impl Abort, alloc: Global, calls: &[Answered]) -> Result<String, Fail> {
    let report = report_of(rt, alloc, calls)?;
    let entries = entry_lines(alloc, &report)?;
    Ok(format!(in alloc; "{report}{entries}")?)
}

fn row_prints(rt: &impl Abort, alloc: Global, row: &Reported) -> Result<(), Fail> {
    let (calls, lines) = row;
    let printed = printed_twice(rt, alloc, calls)?;
    let wanted = format!(in alloc; "{lines}{lines}")?;
    assert_eq!(rt; printed.as_str(), wanted.as_str());
    Ok(())
}

#[test]
fn reports_are_made_and_printed(rt: HostRuntime) -> Result<(), Fail> {
    for row in rows() {
        row_prints(&rt, rt.alloc(), row)?;
    }
    Ok(())
}

static LINKED: [Answered; 3] = [
    (Set("", 3, true), Ok(())),
    (Link("d", "t/d", 1, false), Ok(())),
    (Link("f", "t/f", 1, false), Ok(())),
];

// Their report of another root.
fn linked(rt: &impl Abort, alloc: Global) -> Result<Report, Fail> {
    let root = path(alloc, "b")?;
    let mut reporter = Reporter::new_at(alloc, root);
    tell_all(rt, alloc, &mut reporter, &LINKED)?;
    Ok(reporter.finish_report())
}

#[test]
fn a_report_is_printed_with_its_root(rt: HostRuntime) -> Result<(), Fail> {
    let report = linked(&rt, rt.alloc())?;
    let lines = "root b\nset . 3 start_empty\nlink d t/d 1\nlink f t/f 1\n";
    prints(&rt, rt.alloc(), &report, lines)
}

fn is_cloned(rt: &impl Abort, alloc: Global, row: &Reported) -> Result<(), Fail> {
    let (calls, lines) = row;
    let report = report_of(rt, alloc, calls)?;
    let copy = report.clone()?;
    assert!(rt; copy == report);
    prints(rt, alloc, &copy, lines)
}

#[test]
fn a_clone_is_the_same_report(rt: HostRuntime) -> Result<(), Fail> {
    for row in rows() {
        is_cloned(&rt, rt.alloc(), row)?;
    }
    Ok(())
}

fn are_equal(
    rt: &impl Abort,
    alloc: Global,
    one: &[Answered],
    other: &[Answered],
) -> Result<bool, Fail> {
    let report = report_of(rt, alloc, one)?;
    Ok(report == report_of(rt, alloc, other)?)
}

#[test]
fn reports_differ_in_their_entries_and_order(rt: HostRuntime) -> Result<(), Fail> {
    let alloc = rt.alloc();
    assert!(rt; are_equal(&rt, alloc, &NESTED, &NESTED)?);
    assert!(rt; !are_equal(&rt, alloc, &NESTED, &NESTED_IN_ORDER)?);
    assert!(rt; !are_equal(&rt, alloc, &ROOT, &LINKED)?);
    Ok(())
}

#[test]
fn reports_differ_in_their_root(rt: HostRuntime) -> Result<(), Fail> {
    let alloc = rt.alloc();
    let elsewhere = report_of(&rt, alloc, &LINKED)?;
    assert!(rt; linked(&rt, alloc)? != elsewhere);
    Ok(())
}

// Links `z` and that many names `a` below it to a path of one name.
fn link_deep(
    alloc: Global,
    reporter: &mut Reporter,
    names: usize,
) -> Result<Result<(), ReporterFault>, Fail> {
    let below = "/a".repeat(alloc, names)?;
    let at = path(alloc, format!(in alloc; "z{below}")?.as_str())?;
    Ok(reporter.link_path(&at, path(alloc, "a")?, Rev(1), false))
}

fn links_deep(
    rt: &impl Abort,
    alloc: Global,
    reporter: &mut Reporter,
    names: usize,
    answer: Result<(), ReporterFault>,
) -> Result<(), Fail> {
    let found = link_deep(alloc, reporter, names)?;
    assert_eq!(rt; found, answer, "{names} names deeper");
    Ok(())
}

static ROOT: [Answered; 1] = [(Set("", 1, false), Ok(()))];

fn link_both(rt: &impl Abort, alloc: Global, reporter: &mut Reporter) -> Result<(), Fail> {
    tell_all(rt, alloc, reporter, &ROOT)?;
    links_deep(rt, alloc, reporter, 65, Err(TooDeep))?;
    links_deep(rt, alloc, reporter, 64, Ok(()))
}

// How many entries a report has then.
fn deep_entries(rt: &impl Abort, alloc: Global) -> Result<usize, Fail> {
    let mut reporter = Reporter::new(alloc);
    link_both(rt, alloc, &mut reporter)?;
    Ok(reporter.finish_report().len())
}

#[test]
fn a_link_goes_at_most_64_names_deeper(rt: HostRuntime) -> Result<(), Fail> {
    let entries = deep_entries(&rt, rt.alloc())?;
    assert_eq!(rt; entries, 2);
    Ok(())
}

// Entries below which there are others.
static NESTED: [Answered; 7] = [
    (Set("", 1, false), Ok(())),
    (Set("d/e/f", 1, false), Ok(())),
    (Set("b", 1, false), Ok(())),
    (Set("b/y", 1, false), Ok(())),
    (Set("b/x/y", 1, false), Ok(())),
    (Set("b c", 1, false), Ok(())),
    (Set("d/e/a", 1, false), Ok(())),
];

// The same in the order of their paths.
static NESTED_IN_ORDER: [Answered; 7] = [
    (Set("", 1, false), Ok(())),
    (Set("b", 1, false), Ok(())),
    (Set("b/x/y", 1, false), Ok(())),
    (Set("b/y", 1, false), Ok(())),
    (Set("b c", 1, false), Ok(())),
    (Set("d/e/a", 1, false), Ok(())),
    (Set("d/e/f", 1, false), Ok(())),
];

// What is asked of a report about a path.
#[derive(Clone, Copy, Debug)]
enum Question {
    // the names below it, each with a comma
    Names,
    // these, whether an entry is below it, and its own entry
    All,
}

// A path, and what a report returns for it.
type Told = (&'static str, &'static str);

// The names below each path of the nested report.
static NAMES_BELOW: [Told; 6] = [
    ("", "b,b c,d,"),
    ("b", "x,y,"),
    ("b/y", ""),
    ("d", "e,"),
    ("d/e", "a,f,"),
    ("e", ""),
];

// All that it returns for each path.
static ALL: [Told; 9] = [
    ("", "b,b c,d,below;set . 1"),
    ("a", ""),
    ("b", "x,y,below;set b 1"),
    ("b/x", "y,below;"),
    ("b/x/y", "set b/x/y 1"),
    ("b/y", "set b/y 1"),
    ("d", "e,below;"),
    ("d/e", "a,f,below;"),
    ("d/e/f", "set d/e/f 1"),
];

// Its entries in the order of their paths, each with a semicolon.
const IN_PATH_ORDER: &str =
    "set . 1;set b 1;set b/x/y 1;set b/y 1;set b%20c 1;set d/e/a 1;set d/e/f 1;";

// By calls: a function that names a table itself is proved with all its contents, at each step.
fn names_below() -> &'static [Told] {
    &NAMES_BELOW
}

fn all() -> &'static [Told] {
    &ALL
}

// Asks for one name after the other, and writes each with a comma.
fn push_names(out: &mut String, report: &Report, path: &RelPath) -> Result<(), Fail> {
    let mut last: Option<Name> = None;
    for _ in 0..=report.len() {
        let Some(name) = report.next_name_below(path, last.as_ref())? else {
            break;
        };
        out.push_str(name.as_str())?;
        out.push(',')?;
        last = Some(name.clone()?);
    }
    Ok(())
}

fn push_all(out: &mut String, report: &Report, path: &RelPath) -> Result<(), Fail> {
    push_names(out, report, path)?;
    if report.has_entry_below(path) {
        out.push_str("below;")?;
    }
    if let Some(entry) = report.entry_at(path) {
        let line = EntryLine { path, entry };
        write!(out, "{line}")?;
    }
    Ok(())
}

fn push_answer(
    out: &mut String,
    report: &Report,
    path: &RelPath,
    question: Question,
) -> Result<(), Fail> {
    match question {
        Question::Names => push_names(out, report, path),
        Question::All => push_all(out, report, path),
    }
}

fn is_answered(
    rt: &impl Abort,
    alloc: Global,
    report: &Report,
    question: Question,
    row: &Told,
) -> Result<(), Fail> {
    let (at, text) = row;
    let mut found = String::new(alloc);
    push_answer(&mut found, report, &path(alloc, at)?, question)?;
    assert_eq!(rt; found.as_str(), *text, "{question:?} of {at}");
    Ok(())
}

// Asks the report of these calls about each path.
fn are_answered(
    rt: &impl Abort,
    alloc: Global,
    calls: &[Answered],
    question: Question,
    rows: &[Told],
) -> Result<(), Fail> {
    let report = report_of(rt, alloc, calls)?;
    for row in rows {
        is_answered(rt, alloc, &report, question, row)?;
    }
    Ok(())
}

// Asks the reports of both orders.
fn in_both_orders(
    rt: &impl Abort,
    alloc: Global,
    question: Question,
    rows: &[Told],
) -> Result<(), Fail> {
    are_answered(rt, alloc, &NESTED, question, rows)?;
    are_answered(rt, alloc, &NESTED_IN_ORDER, question, rows)
}

#[test]
fn names_beneath_a_path_come_in_their_order(rt: HostRuntime) -> Result<(), Fail> {
    in_both_orders(&rt, rt.alloc(), Question::Names, names_below())
}

#[test]
fn a_report_tells_what_is_at_a_path_and_below(rt: HostRuntime) -> Result<(), Fail> {
    in_both_orders(&rt, rt.alloc(), Question::All, all())
}

fn push_in_path_order(out: &mut String, alloc: Global, report: &Report) -> Result<(), Fail> {
    let entries = report.in_path_order(alloc)?;
    for (path, entry) in entries {
        let line = EntryLine { path, entry };
        write!(out, "{line};")?;
    }
    Ok(())
}

fn listed(rt: &impl Abort, alloc: Global, calls: &[Answered]) -> Result<String, Fail> {
    let report = report_of(rt, alloc, calls)?;
    let mut found = String::new(alloc);
    push_in_path_order(&mut found, alloc, &report)?;
    Ok(found)
}

fn is_listed(rt: &impl Abort, alloc: Global, calls: &[Answered], lines: &str) -> Result<(), Fail> {
    let found = listed(rt, alloc, calls)?;
    assert_eq!(rt; found.as_str(), lines);
    Ok(())
}

#[test]
fn entries_are_listed_in_path_order(rt: HostRuntime) -> Result<(), Fail> {
    is_listed(&rt, rt.alloc(), &NESTED, IN_PATH_ORDER)?;
    is_listed(&rt, rt.alloc(), &NESTED_IN_ORDER, IN_PATH_ORDER)
}
