//! The entries of a report, one after the other.
ghost use Rattle.std.specs.Prelude.{length};
ghost use Rattle.std.specs.Iterator.{at_most};
ghost use Rattle.std.specs.Map.Iter.{TakesFirst, deref_pair};

use crate::entry::ReportEntry;
use indexmap::map::Iter;
use std::marker::Model;
use svn_types::RelPath;

/// The entries of a report that are left, with their paths, in the order of the calls. A step takes no memory. A contract sees it as these.
#[derive(Drop)]
pub struct ReportIter<'a> {
    pub(crate) rest: Iter<'a, RelPath, ReportEntry>,
}

impl<'a> Model for ReportIter<'a> {
    ghost use Rattle.svn_report.specs.Reports.{Entries};

    ghost Value = { Entries };

    ghost view = { λ i. i.rest };
}

impl<'a> Iterator for ReportIter<'a> {
    type Item = (&'a RelPath, &'a ReportEntry);

    ghost next_gives = { TakesFirst deref_pair };

    ghost remaining = { λ s. at_most (length s) };

    fn next(&mut self) -> Option<(&'a RelPath, &'a ReportEntry)> {
        self.rest.next()
    }

    // Their number is not used.
    fn size_hint(&self) -> (usize, Option<usize>) {
        (0, None)
    }
}
