//! The names directly below a path, in order, and what is under each.
ghost use Rattle.std.specs.Prelude.{◌≡◌, [], Some, None, MatchOption};
ghost use Rattle.std.specs.Map.{keys_of};
ghost use Rattle.std.specs.Option.{option_copied};
ghost use Rattle.svn_drive.specs.Firsts.{InOrder, earlier};
ghost use Rattle.svn_drive.specs.NamesLeft.{first_name, TakesChild};
ghost use Rattle.svn_drive.specs.Parts.{entries_in};

use crate::lists_left::{EntriesLeft, ReportedLeft};
use crate::report_part::ReportPart;
use std::cmp::Ordering;
use svn_repo::NodeId;
use svn_types::Name;

/// What is under a name below a place: the entries of the nodes on both sides, and those of the report at it or below it.
#[derive(Drop)]
pub(crate) struct Below<'a> {
    pub(crate) name: &'a Name,
    pub(crate) source: Option<&'a NodeId>,
    pub(crate) target: Option<&'a NodeId>,
    pub(crate) reported: ReportPart<'a>,
}

impl<'a> Below<'a> {
    // What is under a name at which and below which nothing is reported.
    #[inline(always)]
    fn unreported(
        name: &'a Name,
        source: Option<&'a NodeId>,
        target: Option<&'a NodeId>,
    ) -> Below<'a>
        ensures name { result.name ≡ name.entry }
        ensures source { result.source ≡ source.entry }
        ensures target { result.target ≡ target.entry }
        ensures reported { entries_in result.reported ≡ [] }
    {
        Below {
            name,
            source,
            target,
            reported: ReportPart::none(),
        }
    }
}

// The earlier of two names.
fn earlier<'a>(first: Option<&'a Name>, second: Option<&'a Name>) -> Option<&'a Name>
    ensures { option_copied result ≡ earlier (option_copied first.entry) (option_copied second.entry) }
{
    let Some(name) = first else {
        return second;
    };
    let Some(other) = second else {
        return first;
    };
    if other < name { second } else { first }
}

/// The names that are left below a path: those of the source's entries, of the target's, and of the report's, each list in order.
#[derive(Drop)]
pub(crate) struct NamesLeft<'a> {
    pub(crate) source: EntriesLeft<'a>,
    pub(crate) target: EntriesLeft<'a>,
    pub(crate) reported: ReportedLeft<'a>,
}

impl<'a> NamesLeft<'a> {
    // The first name of all.
    fn first_name(&self) -> Option<&'a Name>
        ensures { option_copied result ≡ first_name self.now }
    {
        let entries = earlier(self.source.first_name(), self.target.first_name());
        earlier(entries, self.reported.first_name())
    }

    // Takes the first name of all, with what is under it.
    fn take(&mut self, name: &'a Name) -> Below<'a>
        requires first { first_name self.old ≡ Some name.now }
        requires ordered { InOrder (keys_of self.old.reported) }
        ensures { TakesChild self.old name.now result self.new }
    {
        Below {
            name,
            source: self.source.take(name),
            target: self.target.take(name),
            reported: self.reported.take(name),
        }
    }

    // Takes the first name of both directories where none is reported: the two first names are compared once.
    #[inline(always)]
    fn take_entry(&mut self) -> Option<Below<'a>>
        requires { self.old.reported ≡ [] }
        ensures { MatchOption result (first_name self.old ≡ None) (λ below. TakesChild self.old below.name.now below self.new) }
    {
        match (self.source.first(), self.target.first()) {
            (Some((name, old)), Some((other, new))) => match name.cmp(other) {
                Ordering::Less => {
                    self.source.pass();
                    Some(Below::unreported(name, Some(old), None))
                }
                Ordering::Equal => {
                    self.source.pass();
                    self.target.pass();
                    Some(Below::unreported(name, Some(old), Some(new)))
                }
                Ordering::Greater => {
                    self.target.pass();
                    Some(Below::unreported(other, None, Some(new)))
                }
            },
            (Some((name, old)), None) => {
                self.source.pass();
                Some(Below::unreported(name, Some(old), None))
            }
            (None, Some((name, new))) => {
                self.target.pass();
                Some(Below::unreported(name, None, Some(new)))
            }
            (None, None) => None,
        }
    }

    /// Takes the first name of all, if one is left, with what is under it.
    #[inline(always)]
    pub(crate) fn take_first(&mut self) -> Option<Below<'a>>
        requires { InOrder (keys_of self.old.reported) }
        ensures { MatchOption result (first_name self.old ≡ None) (λ below. TakesChild self.old below.name.now below self.new) }
    {
        if self.reported.first_name().is_none() {
            return self.take_entry();
        }
        match self.first_name() {
            Some(name) => Some(self.take(name)),
            None => None,
        }
    }
}
