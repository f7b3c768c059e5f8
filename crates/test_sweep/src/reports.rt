//! Reports that are made and checked, and copies that are made of nodes.
use crate::edits::{changed_file, text_of};
use crate::trouble::{Trouble, holds};
use std::alloc::Global;
use svn_drive::{ReportFault, check_report};
use svn_model::{BaseNode, WcFault};
use svn_repo::Repo;
use svn_report::{Report, Reporter, ReporterFault};
use svn_types::{Props, RelPath, Rev};
use svn_wc::WorkingCopy;

// What a line of a report says of a path.
#[derive(Clone, Copy)]
enum Said {
    Set(u64),
    Link(&'static str, u64),
    Deleted,
}

// A call of a reporter.
type Entry = (&'static str, Said);

// What a reporter returns.
type Answer = Result<(), ReporterFault>;

fn link(
    alloc: Global,
    reporter: &mut Reporter,
    path: &RelPath,
    to: &str,
    rev: u64,
) -> Result<Answer, Trouble> {
    let to = RelPath::parse(alloc, to)?;
    Ok(reporter.link_path(path, to, Rev(rev), false))
}

fn tell_of(
    alloc: Global,
    reporter: &mut Reporter,
    path: &RelPath,
    said: Said,
) -> Result<Answer, Trouble> {
    match said {
        Said::Set(rev) => Ok(reporter.set_path(path, Rev(rev), false)),
        Said::Link(to, rev) => link(alloc, reporter, path, to, rev),
        Said::Deleted => Ok(reporter.delete_path(path)),
    }
}

fn tell(alloc: Global, reporter: &mut Reporter, entry: Entry) -> Result<Answer, Trouble> {
    let (path, said) = entry;
    let path = RelPath::parse(alloc, path)?;
    tell_of(alloc, reporter, &path, said)
}

// A refused call leaves the reporter as it was, so that the call can be made again.
fn tell_anew(alloc: Global, reporter: &mut Reporter, entry: Entry) -> Result<Answer, Trouble> {
    match tell(alloc, reporter, entry)? {
        Err(ReporterFault::Memory) => tell(alloc, reporter, entry),
        answer => Ok(answer),
    }
}

fn told(
    alloc: Global,
    reporter: &mut Reporter,
    entry: Entry,
    wanted: Option<ReporterFault>,
) -> Result<(), Trouble> {
    match tell_anew(alloc, reporter, entry)? {
        Err(ReporterFault::Memory) => Err(Trouble::Memory),
        answer => holds(answer.err() == wanted, "a reporter answers otherwise"),
    }
}

static CALLS: [(Entry, Option<ReporterFault>); 11] = [
    (("a", Said::Set(1)), Some(ReporterFault::NotRootFirst)),
    (("", Said::Deleted), Some(ReporterFault::NotRootFirst)),
    (("", Said::Set(1)), None),
    (("a", Said::Set(1)), None),
    (("a", Said::Set(2)), Some(ReporterFault::Repeated)),
    (("b", Said::Deleted), None),
    (("b/c", Said::Set(1)), Some(ReporterFault::UnderDeleted)),
    (("d/e", Said::Set(1)), None),
    (("d", Said::Set(1)), Some(ReporterFault::ParentLater)),
    (("x", Said::Link("a", 1)), None),
    // the first that comes after a later path
    (("c", Said::Set(1)), None),
];

// `z` and that many names below it.
fn deep(alloc: Global, count: usize) -> Result<RelPath, Trouble> {
    let mut text = "z/".repeat(alloc, count)?;
    text.push('z')?;
    Ok(RelPath::parse(alloc, text.as_str())?)
}

fn call_rows() -> &'static [(Entry, Option<ReporterFault>)] {
    &CALLS
}

fn tell_all(alloc: Global, reporter: &mut Reporter) -> Result<(), Trouble> {
    for (entry, wanted) in call_rows() {
        told(alloc, reporter, *entry, *wanted)?;
    }
    Ok(())
}

fn link_deep(alloc: Global, reporter: &mut Reporter, count: usize) -> Result<Answer, Trouble> {
    let path = deep(alloc, count)?;
    link(alloc, reporter, &path, "a", 1)
}

// A path of a link has at most 64 names below its first.
fn link_deepest(alloc: Global, reporter: &mut Reporter) -> Result<(), Trouble> {
    let answer = link_deep(alloc, reporter, 65)?;
    holds(
        answer == Err(ReporterFault::TooDeep),
        "a deep link is taken",
    )?;
    Ok(link_deep(alloc, reporter, 64)??)
}

fn entry_count(reporter: Reporter) -> usize {
    reporter.finish_report().len()
}

/// A reporter's calls.
pub(crate) fn reporter(alloc: Global) -> Result<(), Trouble> {
    let mut reporter = Reporter::new(alloc);
    tell_all(alloc, &mut reporter)?;
    link_deepest(alloc, &mut reporter)?;
    holds(entry_count(reporter) == 7, "a report has other entries")
}

fn report_of(alloc: Global, entries: &[Entry]) -> Result<Report, Trouble> {
    let mut reporter = Reporter::new(alloc);
    for entry in entries {
        told(alloc, &mut reporter, *entry, None)?;
    }
    Ok(reporter.finish_report())
}

// Reports against the repository of a changed file.
static REPORTS: [(&[Entry], Result<(), ReportFault>); 7] = [
    (&[], Err(ReportFault::NoEntries)),
    (&[("", Said::Set(1)), ("f", Said::Set(2))], Ok(())),
    (&[("", Said::Set(3))], Err(ReportFault::NoSuchRevision(0))),
    (
        &[("", Said::Set(1)), ("g", Said::Set(1))],
        Err(ReportFault::NoNode(1)),
    ),
    (
        &[
            ("", Said::Set(1)),
            ("g", Said::Link("f", 1)),
            ("g/h", Said::Set(1)),
        ],
        Err(ReportFault::NoNode(2)),
    ),
    (
        &[
            ("", Said::Set(1)),
            ("g", Said::Link("f", 1)),
            ("g/h", Said::Deleted),
        ],
        Err(ReportFault::ParentNotDir(2)),
    ),
    (&[("", Said::Set(1)), ("g", Said::Deleted)], Ok(())),
];

fn check_anew(alloc: Global, repo: &Repo, report: &Report) -> Result<(), ReportFault> {
    match check_report(alloc, repo, report) {
        Err(ReportFault::Memory) => check_report(alloc, repo, report),
        answer => answer,
    }
}

fn is_answered(
    answer: Result<(), ReportFault>,
    wanted: Result<(), ReportFault>,
) -> Result<(), Trouble> {
    if answer == Err(ReportFault::Memory) {
        return Err(Trouble::Memory);
    }
    holds(answer == wanted, "a report is checked otherwise")
}

fn is_checked(
    alloc: Global,
    repo: &Repo,
    entries: &[Entry],
    wanted: Result<(), ReportFault>,
) -> Result<(), Trouble> {
    let report = report_of(alloc, entries)?;
    is_answered(check_anew(alloc, repo, &report), wanted)
}

fn report_rows() -> &'static [(&'static [Entry], Result<(), ReportFault>)] {
    &REPORTS
}

fn are_checked(alloc: Global, repo: &Repo) -> Result<(), Trouble> {
    for (entries, wanted) in report_rows() {
        is_checked(alloc, repo, entries, *wanted)?;
    }
    Ok(())
}

/// Reports that a repository can serve, and reports that it can't.
pub(crate) fn reports(alloc: Global) -> Result<(), Trouble> {
    let repo = changed_file(alloc)?;
    are_checked(alloc, &repo)
}

// A directory, or a file with a text, at a revision.
type Node = (&'static str, u64, Option<&'static str>);

fn file_of(alloc: Global, rev: Rev, repos_path: RelPath, text: &str) -> Result<BaseNode, Trouble> {
    Ok(BaseNode::File {
        rev,
        repos_path,
        text: text_of(alloc, text)?,
        props: Props::new(alloc),
    })
}

fn base_of(alloc: Global, node: &Node) -> Result<BaseNode, Trouble> {
    let (path, rev, text) = *node;
    let repos_path = RelPath::parse(alloc, path)?;
    match text {
        Some(text) => file_of(alloc, Rev(rev), repos_path, text),
        None => Ok(BaseNode::Dir {
            rev: Rev(rev),
            repos_path,
            complete: true,
            props: Props::new(alloc),
        }),
    }
}

fn node_of(alloc: Global, node: &Node) -> Result<(RelPath, BaseNode), Trouble> {
    let base = base_of(alloc, node)?;
    Ok((RelPath::parse(alloc, node.0)?, base))
}

fn copy_of(alloc: Global, nodes: &[Node]) -> Result<Result<WorkingCopy, WcFault>, Trouble> {
    let mut list = Vec::new(alloc);
    for node in nodes {
        list.push(node_of(alloc, node)?)?;
    }
    Ok(WorkingCopy::from_nodes(alloc, list))
}

// Lists of nodes that make no copy.
static LISTS: [(&[Node], WcFault); 4] = [
    (&[], WcFault::BadRoot),
    (&[("", 1, None), ("", 1, None)], WcFault::Twice),
    (&[("", 1, Some("a"))], WcFault::BadRoot),
    (&[("", 1, None), ("a/b", 1, Some("a"))], WcFault::NoParent),
];

// Lists of nodes of a changed file's repository, and the path that isn't true.
static COPIES: [(&[Node], Option<&str>); 5] = [
    (&[("", 1, None), ("f", 1, Some("a"))], None),
    (&[("", 1, None), ("f", 1, Some("abc"))], Some("f")),
    (&[("", 1, None), ("f", 3, Some("a"))], Some("f")),
    (&[("", 1, None), ("f", 1, None)], Some("f")),
    (&[("", 1, None)], Some("")),
];

fn list_fault(alloc: Global, list: &[Node]) -> Result<Option<WcFault>, Trouble> {
    Ok(copy_of(alloc, list)?.err())
}

fn is_refused(alloc: Global, list: &[Node], wanted: WcFault) -> Result<(), Trouble> {
    match list_fault(alloc, list)? {
        Some(WcFault::Memory) => Err(Trouble::Memory),
        fault => holds(
            fault == Some(wanted),
            "a list of nodes is answered otherwise",
        ),
    }
}

fn list_rows() -> &'static [(&'static [Node], WcFault)] {
    &LISTS
}

fn lists(alloc: Global) -> Result<(), Trouble> {
    for (list, wanted) in list_rows() {
        is_refused(alloc, list, *wanted)?;
    }
    Ok(())
}

fn has_untrue(alloc: Global, repo: &Repo, copy: &WorkingCopy, path: &str) -> Result<bool, Trouble> {
    let path = RelPath::parse(alloc, path)?;
    Ok(copy.check_true(repo).err() == Some(&path))
}

fn is_untrue_at(
    alloc: Global,
    repo: &Repo,
    list: &[Node],
    wanted: Option<&str>,
) -> Result<(), Trouble> {
    let copy = copy_of(alloc, list)??;
    let is_so = match wanted {
        Some(path) => has_untrue(alloc, repo, &copy, path)?,
        None => copy.check_true(repo).is_ok(),
    };
    holds(is_so, "another path isn't true")
}

fn copy_rows() -> &'static [(&'static [Node], Option<&'static str>)] {
    &COPIES
}

fn are_untrue(alloc: Global, repo: &Repo) -> Result<(), Trouble> {
    for (list, wanted) in copy_rows() {
        is_untrue_at(alloc, repo, list, *wanted)?;
    }
    Ok(())
}

fn copies(alloc: Global) -> Result<(), Trouble> {
    let repo = changed_file(alloc)?;
    are_untrue(alloc, &repo)
}

/// Copies that are made of nodes, and what of them isn't true.
pub(crate) fn nodes(alloc: Global) -> Result<(), Trouble> {
    lists(alloc)?;
    copies(alloc)
}
