//! The printed lines of a report's entries, and the text of a report.
ghost use Rattle.std.specs.Prelude.{◌≡◌, ◌∷◌, ◌++◌, [], Some, slice_get};
ghost use Rattle.std.specs.Fmt.{DisplaysOnOk};
ghost use Rattle.std.specs.List.{flat_map};
ghost use Rattle.std.specs.Option.{option_to_list};
ghost use Rattle.svn_report.specs.Lines.{ending, entry_line, root_text, entry_text, report_text};

use crate::entry::ReportEntry;
use crate::report::Report;
use std::fmt;
use svn_editor::PathWord;
use svn_types::RelPath;

/// Prints an entry of a report at its path as its line, without the line feed: `set PATH REV`, `link PATH REPOSPATH REV` or `delete PATH`,
/// the first two followed by ` start_empty` where it is set.
#[derive(Clone, Copy, Debug)]
pub struct EntryLine<'a> {
    /// The path of the entry.
    pub path: &'a RelPath,
    /// What the report says of it.
    pub entry: &'a ReportEntry,
}

// What follows the revision in an entry's line.
fn ending(start_empty: bool) -> &'static str
    ensures { result.now ≡ ending start_empty }
{
    if start_empty { " start_empty" } else { "" }
}

impl fmt::Display for EntryLine<'_> {
    ghost output = { λ l. Some (entry_line l.path.now l.entry.now) };

    #[tactic(auto, using(crate::proofs::Endings::last_words))]
    fn fmt<W: fmt::Write>(&self, f: &mut fmt::Formatter<W>) -> fmt::Result {
        let path = PathWord(self.path);
        match self.entry {
            ReportEntry::SetPath { rev, start_empty } => {
                let (rev, ending) = (rev.0, ending(*start_empty));
                write!(f, "set {path} {rev}{ending}")
            }
            ReportEntry::LinkPath {
                repos_path,
                rev,
                start_empty,
            } => {
                let (repos_path, rev) = (PathWord(repos_path), rev.0);
                let ending = ending(*start_empty);
                write!(f, "link {path} {repos_path} {rev}{ending}")
            }
            ReportEntry::DeletePath => write!(f, "delete {path}"),
        }
    }
}

fn write_root<W: fmt::Write>(root: &RelPath, f: &mut fmt::Formatter<W>) -> fmt::Result
    ensures { DisplaysOnOk W.write_str_gives f.old result (Some (root_text root.now)) f.new }
{
    if root.is_root() {
        Ok(())
    } else {
        writeln!(f, "root {}", PathWord(root))
    }
}

fn write_entry<W: fmt::Write>(
    path: &RelPath,
    entry: &ReportEntry,
    f: &mut fmt::Formatter<W>,
) -> fmt::Result
    ensures { DisplaysOnOk W.write_str_gives f.old result (Some (entry_text (path.now, entry.now))) f.new }
{
    let line = EntryLine { path, entry };
    writeln!(f, "{line}")
}

fn write_entry_at<W: fmt::Write>(
    report: &Report,
    i: usize,
    f: &mut fmt::Formatter<W>,
) -> fmt::Result
    ensures { DisplaysOnOk W.write_str_gives f.old result (Some (flat_map entry_text (option_to_list (slice_get report.now.entries i)))) f.new }
{
    match report.entry(i) {
        Some((path, entry)) => write_entry(path, entry, f),
        None => Ok(()),
    }
}

fn write_entries<W: fmt::Write>(report: &Report, f: &mut fmt::Formatter<W>) -> fmt::Result
    ensures { DisplaysOnOk W.write_str_gives f.old result (Some (flat_map entry_text report.now.entries)) f.new }
{
    for i in 0..report.len() {
        write_entry_at(report, i, f)?;
    }
    Ok(())
}

/// A report is printed as its lines, each with its line feed: `root REPOSPATH` where the root's path isn't that of the repository's root, and
/// then its entries in the order of the calls.
impl fmt::Display for Report {
    ghost output = { λ r. Some (report_text r) };

    fn fmt<W: fmt::Write>(&self, f: &mut fmt::Formatter<W>) -> fmt::Result {
        write_root(self.root(), f)?;
        write_entries(self, f)
    }
}
