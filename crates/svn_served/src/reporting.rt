//! Reports of what a client has.
ghost use Rattle.std.specs.Prelude.{◌≡◌, [], false, IfOk};
ghost use Rattle.svn_report.specs.declared.entry.ReportEntry.TheVariants.{SetPath};
ghost use Rattle.svn_replies.specs.Refusals.{Gives};
ghost use Rattle.svn_served.specs.Reporting.{added, begun, unbegun, own_entry, settled, taken, set_path, link_path, delete_path, finished, Becomes, IsRefusal, IsAccepted};

use crate::fields::link_fields;
use crate::wanted::{Entry, Wanted};
use std::alloc::{AllocError, Global};
use svn_replies::{Refused, View, code, failed, read_path};
use svn_report::{Report, ReportEntry, Reporter, ReporterFault};
use svn_types::{RelPath, Rev};
use svn_wire::{Token, set_path_fields, text_field};

/// A report as far as it came.
#[derive(Debug, Drop)]
pub(crate) struct Reporting {
    pub(crate) wanted: Wanted,
    reporter: Reporter,
    // Of the one entry, what was said last: a file that is one is reported twice.
    own: Option<ReportEntry>,
}

// What a reporter's refusal is to a client.
fn refused(alloc: Global, fault: ReporterFault) -> Result<Refused, AllocError>
    ensures { IfOk result (IsRefusal fault) }
{
    match fault {
        ReporterFault::Memory => Ok(Refused::Memory),
        fault => Ok(failed(code::BAD_REPORT, format!(in alloc; "{fault}")?)),
    }
}

fn accepted(alloc: Global, answer: Result<(), ReporterFault>) -> Result<(), Refused>
    ensures { IsAccepted answer result }
{
    match answer {
        Ok(()) => Ok(()),
        Err(fault) => Err(refused(alloc, fault)?),
    }
}

// What a client has of the one entry, where it doesn't say at which path of the repository; none where it hasn't the entry.
fn own_entry(
    view: View<'_>,
    at: &RelPath,
    own: ReportEntry,
) -> Result<Option<ReportEntry>, AllocError>
    ensures { IfOk result (λ entry. entry ≡ own_entry view.entry.served.now.repo at.now own) }
{
    match own {
        ReportEntry::SetPath { rev, start_empty } => {
            // a client that hasn't the entry says that it is there at revision 0, and then that it isn't
            if rev <= view.served.repo.latest() && view.served.repo.lookup(rev, at).is_none() {
                return Ok(None);
            }
            Ok(Some(ReportEntry::LinkPath {
                repos_path: at.clone()?,
                rev,
                start_empty,
            }))
        }
        own => Ok(Some(own)),
    }
}

impl Reporting {
    /// A report without entries; where one entry is wanted, of a client whose directory is as the target.
    pub(crate) fn begin(alloc: Global, wanted: Wanted) -> Result<Reporting, Refused>
        ensures { Gives (λ state. state) result (begun wanted) }
    {
        let root = wanted.root.clone()?;
        let begun = Reporting::empty(alloc, wanted, root);
        if begun.wanted.entry.is_some() {
            begun.with_root(alloc)
        } else {
            Ok(begun)
        }
    }

    // A report without entries.
    fn empty(alloc: Global, wanted: Wanted, root: RelPath) -> Reporting
        ensures { result ≡ unbegun wanted root }
    {
        Reporting {
            wanted,
            reporter: Reporter::new_at(alloc, root),
            own: None,
        }
    }

    // The same, and that the client's directory is as the target.
    fn with_root(self, alloc: Global) -> Result<Reporting, Refused>
        ensures { Gives (λ state. state) result (added self [] (SetPath self.wanted.request.target false)) }
    {
        let mut begun = self;
        let entry = begun.target_entry();
        begun.add(alloc, &RelPath::root(alloc), entry)?;
        Ok(begun)
    }

    // That a directory is as the target has it.
    fn target_entry(&self) -> ReportEntry
        ensures { result ≡ SetPath self.now.wanted.request.target false }
    {
        ReportEntry::SetPath {
            rev: self.wanted.request.target,
            start_empty: false,
        }
    }

    fn add(&mut self, alloc: Global, path: &RelPath, entry: ReportEntry) -> Result<(), Refused>
        ensures { Becomes result self.new (added self.old path.now entry) }
    {
        let answer = match entry {
            ReportEntry::SetPath { rev, start_empty } => {
                self.reporter.set_path(path, rev, start_empty)
            }
            ReportEntry::LinkPath {
                repos_path,
                rev,
                start_empty,
            } => self.reporter.link_path(path, repos_path, rev, start_empty),
            ReportEntry::DeletePath => self.reporter.delete_path(path),
        };
        accepted(alloc, answer)
    }

    // Says of the one entry what the client has there.
    fn settle(&mut self, view: View<'_>) -> Result<(), Refused>
        ensures { Becomes result self.new (settled view.entry.served.now.repo self.old) }
    {
        let Some(own) = self.own.take() else {
            return Ok(());
        };
        let Some(Entry { reported, at, .. }) = &self.wanted.entry else {
            return Ok(());
        };
        let Some(entry) = own_entry(view, at, own)? else {
            return Ok(());
        };
        let path = RelPath::root(view.alloc).join(view.alloc, reported)?;
        self.add(view.alloc, &path, entry)
    }

    // Takes what is said of a path of the client.
    fn take_entry(
        &mut self,
        view: View<'_>,
        path: RelPath,
        entry: ReportEntry,
    ) -> Result<(), Refused>
        ensures { Becomes result self.new (taken view.entry.served.now.repo self.old path entry) }
    {
        let Some(Entry { reported, .. }) = &self.wanted.entry else {
            return self.add(view.alloc, &path, entry);
        };
        if path.is_root() {
            self.own = Some(entry);
            return Ok(());
        }
        let above = RelPath::root(view.alloc).join(view.alloc, reported)?;
        let path = above.join_path(view.alloc, &path)?;
        self.settle(view)?;
        self.add(view.alloc, &path, entry)
    }

    /// `set-path`.
    #[tactic(auto, unfolding(crate::specs::Reporting::set_path))]
    pub(crate) fn set_path(&mut self, view: View<'_>, fields: &[Token]) -> Result<(), Refused>
        ensures { Becomes result self.new (set_path view.entry.served.now.repo self.old fields.now) }
    {
        let Some((path, rev, start_empty)) = set_path_fields(fields) else {
            return Err(Refused::BadFields);
        };
        let path = read_path(view.alloc, path)?;
        let entry = ReportEntry::SetPath {
            rev: Rev(rev),
            start_empty,
        };
        self.take_entry(view, path, entry)
    }

    /// `link-path`.
    #[tactic(auto, unfolding(crate::specs::Reporting::link_path))]
    pub(crate) fn link_path(&mut self, view: View<'_>, fields: &[Token]) -> Result<(), Refused>
        ensures { Becomes result self.new (link_path view.entry.served.now.repo view.entry.session.now self.old fields.now) }
    {
        let Some(link) = link_fields(fields) else {
            return Err(Refused::BadFields);
        };
        let path = read_path(view.alloc, link.path)?;
        let entry = ReportEntry::LinkPath {
            repos_path: view.session.path_of_url(view.alloc, link.url)?,
            rev: Rev(link.rev),
            start_empty: link.start_empty,
        };
        self.take_entry(view, path, entry)
    }

    /// `delete-path`.
    #[tactic(auto, unfolding(crate::specs::Reporting::delete_path))]
    pub(crate) fn delete_path(&mut self, view: View<'_>, fields: &[Token]) -> Result<(), Refused>
        ensures { Becomes result self.new (delete_path view.entry.served.now.repo self.old fields.now) }
    {
        let Some((path, _more)) = text_field(fields) else {
            return Err(Refused::BadFields);
        };
        let path = read_path(view.alloc, path)?;
        self.take_entry(view, path, ReportEntry::DeletePath)
    }

    /// The report, which is whole, and what is wanted of it.
    pub(crate) fn finish(self, view: View<'_>) -> Result<(Wanted, Report), Refused>
        ensures { Gives (λ x. x) result (finished view.entry.served.now.repo self) }
    {
        let mut whole = self;
        whole.settle(view)?;
        let Reporting {
            wanted,
            reporter,
            ..
        } = whole;
        Ok((wanted, reporter.finish_report()))
    }
}
